//! The rules of the linter: the levels of all rules, and the rules on lines and on comments. The
//! rules on lexemes and on indentation are re-exported.
#![tactic(auto)]

mod addressed;
mod bytes;
mod comments;
mod empty_lines;
mod end_of_file;
mod level;
mod line_length;
mod new_lines;
mod options;
mod pushes;
mod rows;
mod runs;
mod trailing_spaces;
mod width;

pub use addressed::is_addressed;
pub use comments::{CommentsOptions, comment_problems};
pub use empty_lines::EmptyLinesOptions;
pub use level::{Level, RuleLevels};
pub use new_lines::NewLine;
pub use options::{RowOptions, RunOptions};
pub use rows::{push_line_problems, push_row_problems, row_problems};
pub use runs::{RunReader, run_problems};
pub use trailing_spaces::is_white;
pub use width::character_count;
pub use yl_indentation::{
    Fact, IndentSequences, IndentationOptions, Measure, Spaces, indent_facts, indent_problems,
};
pub use yl_lexeme_rules::{
    BracketsOptions, ColonsOptions, CommasOptions, DocumentStartOptions, Forbid, HyphensOptions,
    LexemeOptions, QuoteType, QuotedStringsOptions, TruthyOptions, TruthyWords, lexeme_problems,
};
