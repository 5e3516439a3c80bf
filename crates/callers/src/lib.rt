//! Short callers of the crates that a user calls, with what each can state of its result.
#![tactic(auto)]

pub mod chunks;
pub mod config;
pub mod events;
pub mod lint;
pub mod report;
pub mod scan;
pub mod session;
pub mod text;
