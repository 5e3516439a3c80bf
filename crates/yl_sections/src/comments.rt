//! The comments of a section.
ghost use Rattle.std.specs.Prelude.{◌≡◌, ◌<◌, ◌^◌, ◌++◌, ◌∷◌, [], map, length, take, None, IfOk, OnOk, ◌==◌, option_and_then};
ghost use Rattle.std.specs.Option.{option_map};
ghost use Rattle.std.specs.List.{filter};
ghost use Rattle.std.specs.Bool.{then_some};
ghost use Rattle.yl_lexeme.specs.PlacedComments.{placed_comment_value};
ghost use Rattle.yl_rules.specs.Addressed as spec;
ghost use Rattle.yl_sections.specs.Kept.{last_lexeme_end};

use crate::kept::KeptComment;
use crate::rules::comments_found;
use std::alloc::{AllocError, Allocator};
use yl_config::Config;
use yl_lexeme::{Lexeme, PlacedComment};
use yl_record::Record;
use yl_rules::is_addressed;
use yl_text::Finding;

/// The position after the last character of a lexeme.
#[derive(Clone, Copy)]
pub struct LexemeEnd {
    /// The line, counted from 0 from the section's first row.
    pub line: u64,
    /// The column, in characters, counted from 0.
    pub col: u32,
}

/// Returns the end of the last lexeme after a row at `line` with these lexemes. `last` is the end
/// of the last lexeme before the row.
pub fn last_end<A: Allocator>(
    last: Option<LexemeEnd>,
    line: u32,
    lexemes: &[Lexeme<A>],
) -> Option<LexemeEnd>
    ensures { result ≡ last_lexeme_end last line lexemes.now }
{
    match lexemes {
        [] => last,
        [.., lexeme] => {
            let end = lexeme.end();
            Some(LexemeEnd {
                line: u64::from(line) + u64::from(end.line),
                col: end.col,
            })
        }
    }
}

/// Returns the column of the end of a lexeme, if the end is in this line.
pub fn column_in(line: u32, last: Option<LexemeEnd>) -> Option<u32>
    ensures { result ≡ option_and_then (λ e. then_some (e.line == line) e.col) last }
{
    match last {
        None => None,
        Some(end) => {
            if end.line == u64::from(line) {
                Some(end.col)
            } else {
                None
            }
        }
    }
}

/// Appends a comment, if it may silence rules. The only error is out of memory.
#[inline(never)]
fn push_addressed<A: Allocator + Copy>(
    alloc: A,
    kept: &mut Vec<KeptComment<A>, A>,
    comment: &PlacedComment<'_>,
) -> Result<(), AllocError>
    ensures { OnOk result (kept.new.items ≡ kept.old.items ++ filter spec.is_addressed (placed_comment_value comment.now ∷ [])) }
{
    if is_addressed(comment) {
        kept.push(KeptComment::new(alloc, comment)?)?;
    }
    Ok(())
}

/// A reader of the comments of a section, whose rows are given one after another.
#[derive(Drop)]
pub struct CommentReader<A: Allocator> {
    /// The end of the last lexeme, if there is one.
    last: Option<LexemeEnd>,
    /// The findings of the rule comments. Lines and columns count from 1, lines from the section's
    /// first row.
    pub found: Vec<Finding<A>, A>,
    /// The comments that may silence rules.
    pub kept: Vec<KeptComment<A>, A>,
}

impl<A: Allocator + Copy> CommentReader<A> {
    ghost use Rattle.std.specs.Prelude.{◌≡◌, ◌++◌, ◌∷◌, [], true, false, List, length, OnOk};
    ghost use Rattle.yl_config.specs.declared.config.Config.{Config};
    ghost use Rattle.yl_record.specs.Records.{RecordValue};
    ghost use Rattle.yl_sections.specs.Judging.{ReadsComments};

    /// Creates a reader at the start of a section.
    pub fn new(alloc: A) -> CommentReader<A>
        ensures { (config : Config) → ReadsComments config [] result }
    {
        CommentReader {
            last: None,
            found: Vec::new(alloc),
            kept: Vec::new(alloc),
        }
    }

    /// Reads the comment of the next row, which is at this line of the section, if it has one. The
    /// only error is out of memory.
    pub fn read(&mut self, config: &Config, line: u32, row: &Record<A>) -> Result<(), AllocError>
        ensures { (rs : List RecordValue) → line ≡ length rs → ReadsComments config.now rs self.old
            → OnOk result (ReadsComments config.now (rs ++ row.now ∷ []) self.new) }
    {
        self.last = last_end(self.last, line, row.lexemes());
        let Some(comment) = row.comment() else {
            return Ok(());
        };
        let comment = PlacedComment {
            line,
            col: comment.col(),
            text: comment.text(),
            behind: column_in(line, self.last),
        };
        let alloc = *self.found.allocator();
        let mut found = comments_found(alloc, config, &[comment])?;
        self.found.append(&mut found)?;
        push_addressed(alloc, &mut self.kept, &comment)
    }
    /// Reads the comment of the next row, as `read` does, if `shows` is set, else does nothing. The
    /// only error is out of memory.
    pub fn read_if(
        &mut self,
        shows: bool,
        config: &Config,
        line: u32,
        row: &Record<A>,
    ) -> Result<(), AllocError>
        ensures shown { (rs : List RecordValue) → shows ≡ true → line ≡ length rs → ReadsComments config.now rs self.old
            → OnOk result (ReadsComments config.now (rs ++ row.now ∷ []) self.new) }
        ensures stays { shows ≡ false → OnOk result (self.new ≡ self.old) }
    {
        if !shows {
            return Ok(());
        }
        self.read(config, line, row)
    }
}
