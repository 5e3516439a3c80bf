//! What crates of tests share: a program of test cases, readers and writers in memory, pseudorandom
//! numbers.
//!
//! A program of test cases reads them from standard input. It prints each, and then what comes of
//! it. A case is a line: a word, a space and a text, in which `\n`, `\r`, `\t`, `\\` and `\u{HEX}`
//! stand for characters, and `\x{HEX}` for a byte. A backslash that begins no escape stands for
//! itself. These cases give the start of the next text:
//!
//!     more TEXT       this text
//!     times N TEXT    this text, N times
//!     keys N          N lines with a key each
//!     stairs N        N lines with a key each, which has one blank more before it than the key above
#![tactic(auto)]

mod escaped;
mod following;
mod memory;
mod next_text;
mod numbers;
mod printing;

pub use escaped::{first_word, push_unescaped};
pub use following::{Cases, follow_cases};
pub use memory::{MemoryReader, MemoryWriter};
pub use next_text::NextText;
pub use numbers::Random;
pub use printing::{say, sum_of, told_growths, write};
