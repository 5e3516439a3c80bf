//! The options of the rules on lines, which a configuration sets.
ghost use Rattle.std.specs.Prelude.{◌≡◌, true};

use crate::empty_lines::EmptyLinesOptions;
use crate::new_lines::NewLine;

/// The options of the rules that look at one line: those of yamllint's rule line-length.
#[derive(Clone, Copy)]
pub struct RowOptions {
    /// The maximum number of characters of a line.
    pub max: u32,
    /// Whether a line that consists of one word, perhaps after a mark, may be longer.
    pub allow_non_breakable_words: bool,
}

impl RowOptions {
    /// Returns the options of yamllint's default configuration.
    pub fn standard() -> RowOptions
        ensures { result ≡ record { max = 80; allow_non_breakable_words = true } }
    {
        RowOptions {
            max: 80,
            allow_non_breakable_words: true,
        }
    }
}

/// The options of the rules that look at the lines of a whole text.
#[derive(Clone, Copy)]
pub struct RunOptions {
    /// The break in which the first line has to end.
    pub new_line: NewLine,
    /// The options of the rule empty-lines.
    pub empty_lines: EmptyLinesOptions,
}

impl RunOptions {
    /// Returns the options of yamllint's default configuration.
    pub fn standard() -> RunOptions
        ensures { result ≡ record { new_line = NewLine.Unix; empty_lines = record { max = 2; max_start = 0; max_end = 0 } } }
    {
        RunOptions {
            new_line: NewLine::Unix,
            empty_lines: EmptyLinesOptions {
                max: 2,
                max_start: 0,
                max_end: 0,
            },
        }
    }
}
