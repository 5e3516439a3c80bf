//! The comments of a piece.
ghost use Rattle.std.specs.Prelude.{◌≡◌, ◌++◌, [], OnOk};
ghost use Rattle.yl_sections.specs.Kept.{comment_at, last_lexeme_end};

use std::alloc::{AllocError, Allocator};
use yl_lexeme::PlacedComment;
use yl_record::Record;
use yl_sections::{KeptComment, LexemeEnd, column_in, last_end};

/// A reader of the comments of a piece, whose rows are given one after another.
#[derive(Drop)]
pub struct PieceComments<A: Allocator> {
    /// The end of the last lexeme, if there is one.
    pub last: Option<LexemeEnd>,
    /// The comments.
    pub all: Vec<KeptComment<A>, A>,
}

impl<A: Allocator + Copy> PieceComments<A> {
    /// Creates a reader before the first row.
    pub fn new(alloc: A) -> PieceComments<A>
        ensures last { result.last ≡ None }
        ensures none { result.all.items ≡ [] }
    {
        PieceComments {
            last: None,
            all: Vec::new(alloc),
        }
    }

    /// Reads the comment of the next row, which is at this line, if it has one. The only error is
    /// out of memory.
    pub fn read(&mut self, line: u32, row: &Record<A>) -> Result<(), AllocError>
        ensures last { OnOk result (self.new.last ≡ last_lexeme_end self.old.last line row.now.entry.lexemes) }
        ensures comment { OnOk result (self.new.all.items
            ≡ self.old.all.items ++ comment_at line (last_lexeme_end self.old.last line row.now.entry.lexemes) row.now.entry.comment) }
    {
        self.last = last_end(self.last, line, row.lexemes());
        let Some(comment) = row.comment() else {
            return Ok(());
        };
        let comment = PlacedComment {
            line,
            col: comment.col(),
            text: comment.text(),
            behind: column_in(line, self.last),
        };
        let alloc = *self.all.allocator();
        self.all.push(KeptComment::new(alloc, &comment)?)?;
        Ok(())
    }
}
