//! Records: what is kept of a text, row by row.
//!
//! A record is the entry of a row by the definition of what a text consists of (`Entries` of
//! yl_row), and the number of spaces at the start of the row. What a scanner reports of a row may
//! belong to the record of an earlier row. The `Recorder` puts it there.
#![tactic(auto)]

mod record;
mod recorder;
mod rows;
mod sharing;
mod white;

pub use record::Record;
pub use recorder::Recorder;
