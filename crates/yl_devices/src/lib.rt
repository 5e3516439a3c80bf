//! Devices: an input read to its end and the text that it is, an input read piece by piece, a text
//! written through a buffer, and the line of a fault.
#![tactic(auto)]

mod ahead;
mod fault;
mod input;
mod saying;
mod writing;

pub use ahead::Ahead;
pub use fault::{BadText, ProgramFault, RunFault};
pub use input::{MOST_READ, read_text, text_of, without_mark};
pub use saying::say;
pub use writing::{Waiting, WriteFault, flush, put_parts, write_parts};
