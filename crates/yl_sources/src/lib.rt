//! The source of the configuration of a program, and the line of a fault in a configuration.
#![tactic(auto)]

mod reading;
mod saying;

pub use reading::{config_of, read_config};
pub use saying::say_config;
