//! The rows of an edited text that are scanned again.
//!
//! An edit replaces some lines of a text. The records are made again from the last sound row above
//! the edit down to the first sound row below it that has the state that it had.
//! `specs/Rescan.antt` says which rows these are. All other records stay. Below a scan fault
//! nothing is read. There the records from before the fault stay, or records are made without a
//! scan of their rows.
#![tactic(auto)]

mod passing;
mod rescanning;
mod scanning;

pub use rescanning::{Rescanned, rescan};
