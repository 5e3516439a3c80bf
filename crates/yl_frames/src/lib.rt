//! The base protocol: bodies read from a reader and written to a writer, each after a header that
//! says its length.
#![tactic(auto)]

mod field;
mod header;
mod output;
mod pieces;
mod reading;
mod text;

pub use output::{Body, Output, SendFault};
pub use pieces::{Pieces, put_number, put_parts};
pub use reading::{NextBody, next_body};
pub use text::put_text;
