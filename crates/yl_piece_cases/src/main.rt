//! `yl_piece_cases`: reads test cases of a section that is kept in pieces, and prints the result of
//! each.
//!
//! A case is a line as `test_cases` reads it:
//!
//!     more, times, keys, stairs
//!                     give the start of the next text
//!     text TEXT       keeps the text that ends with TEXT, whose rows must be one section, and
//!                     prints how many rows each of its pieces has
//!     edit ROW TEXT   replaces the row with this number, counted from 0, by the rows of TEXT, and
//!                     prints `alone` if the rows of its piece are judged by themselves, else
//!                     `whole`
//!     line ROW TEXT   does the same where the text stays as it was
//!
//! Each case is printed before its result. Empty lines, and lines that start with `#`, are skipped.
//! What is kept of a piece that is judged by itself must be what is kept of its rows when the whole
//! section is judged. Each edit is also tried with each allocation refused in turn: it must have the
//! same result or say that memory was refused.
#![tactic(auto)]

mod editing;
mod pieces;

use editing::{RowEdit, outcome_of};
use pieces::{Rows, rows_of, sizes_of};
use std::alloc::Global;
use std::process::ExitCode;
use test_cases::{Cases, NextText, first_word, follow_cases, say, write};
use yl_config::Config;
use yl_devices::RunFault;

/// The start of the next text, and the rows that are kept.
#[derive(Drop)]
struct PieceCases {
    alloc: Global,
    config: Config,
    next: NextText,
    rows: Rows,
}

impl PieceCases {
    // Keeps the rows of a text, and prints the number of rows of each of its pieces.
    fn keep(&mut self, rt: &HostRuntime, text: &[u8]) -> Result<(), RunFault> {
        let Ok(text) = std::str::from_utf8(text) else {
            return say(rt, "is no text");
        };
        self.rows = rows_of(self.alloc, text)?;
        let Some(sizes) = sizes_of(self.alloc, &self.config, &self.rows)? else {
            return say(rt, "is not one section");
        };
        for size in &sizes {
            let word = format!(in self.alloc; "{size} ")?;
            write(rt, word.as_str().as_bytes())?;
        }
        say(rt, "rows")
    }

    // Replaces a row by others, and prints the result. The text then stays edited, if `stays` is set.
    fn edit(&mut self, rt: &HostRuntime, rest: &str, stays: bool) -> Result<(), RunFault> {
        let (number, text) = first_word(rest);
        let Ok(row) = number.parse() else {
            return say(rt, "is no case");
        };
        let bytes = self.next.end(text)?;
        let Ok(text) = std::str::from_utf8(&bytes) else {
            return say(rt, "is no text");
        };
        let put = rows_of(self.alloc, text)?;
        let Some(edit) = RowEdit::new(self.alloc, &self.rows, row, put)? else {
            return say(rt, "is no row");
        };
        match outcome_of(self.alloc, &self.config, &self.rows, &edit)? {
            None => say(rt, "is no edit of one section")?,
            Some(outcome) => say(rt, outcome.word())?,
        }
        if stays {
            let RowEdit { rows, .. } = edit;
            self.rows = rows;
        }
        Ok(())
    }
}

impl Cases for PieceCases {
    fn follow(&mut self, rt: &HostRuntime, case: &str) -> Result<(), RunFault> {
        let (word, rest) = first_word(case);
        if self.next.extend(word, rest)? {
            return Ok(());
        }
        match word {
            "text" => {
                let text = self.next.end(rest)?;
                self.keep(rt, &text)
            }
            "edit" => self.edit(rt, rest, true),
            "line" => self.edit(rt, rest, false),
            _ => say(rt, "is no case"),
        }
    }
}

fn main(rt: HostRuntime) -> ExitCode {
    let alloc = rt.alloc();
    let mut cases = PieceCases {
        alloc,
        config: Config::standard(),
        next: NextText::new(alloc),
        rows: Vec::new(alloc),
    };
    follow_cases(&rt, &mut cases)
}
