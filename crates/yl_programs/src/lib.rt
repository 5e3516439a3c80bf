//! What the programs share: their arguments, what the words of a command line ask for, how they read
//! a file, and how they end.
#![tactic(auto)]

mod answer;
mod arguments;
mod command_words;
mod ending;
mod files;
mod task_words;

pub use answer::{Asked, AskedCheck, AskedDump, AskedFormat, Flags, Source, Stop, Task, View};
pub use arguments::words;
pub use command_words::{asked, asked_dump, asked_edit};
pub use ending::{FAULT, ended, stopped};
pub use files::bytes_of;
pub use task_words::asked_zutkrad;
