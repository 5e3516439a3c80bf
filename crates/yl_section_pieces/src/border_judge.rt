//! Judges the rows of a section, and tells after which of them a piece may begin.
ghost use Rattle.std.specs.Prelude.{◌≡◌, ◌<◌, ◌≤◌, ◌^◌, ◌++◌, ◌∷◌, [], List, IfOk, IfSome, OnOk};
ghost use Rattle.std.specs.List.{AllByRecursion};
ghost use Rattle.yl_config.specs.declared.config.Config.{Config};
ghost use Rattle.yl_record.specs.Records.{RecordValue};
ghost use Rattle.yl_section_pieces.specs.Pieces.{IsStateAfter};
ghost use Rattle.yl_section_pieces.specs.BorderJudge.{HasReadRows};

use std::alloc::{AllocError, Allocator};
use yl_config::Config;
use yl_lexeme::Lexeme;
use yl_pieces::PieceJudge;
use yl_record::Record;
use yl_sections::DocumentState;

/// Returns the number of rows, from their own row on, in which these lexemes stand.
fn rows_of<A: Allocator>(lexemes: &[Lexeme<A>]) -> u64
    ensures within { AllByRecursion (λ x. x.end.line < result) lexemes.now }
    ensures few { result ≤ 2 ^ 32 }
{
    let mut rows = 0;
    for lexeme in lexemes {
        rows = rows.max(u64::from(lexeme.end().line) + 1);
    }
    rows
}

/// A judge of the rows of a section, which are given one after another.
#[derive(Drop)]
pub struct BorderJudge<A: Allocator + Copy> {
    /// The number of rows so far.
    rows: u32,
    /// The number of rows in which the lexemes so far stand. Some may go on below the rows so far.
    lexeme_rows: u64,
    /// The judge of the rows, from the state at a document's start on.
    judge: PieceJudge<A>,
}

impl<A: Allocator + Copy> BorderJudge<A> {
    /// Creates a judge before the first row. The only error is out of memory.
    pub fn new(alloc: A, config: &Config) -> Result<BorderJudge<A>, AllocError>
        ensures { IfOk result (λ j. HasReadRows config.now [] j) }
    {
        let start = DocumentState::start(alloc)?;
        let judge = PieceJudge::resume(alloc, config, &start)?;
        Ok(BorderJudge {
            rows: 0,
            lexeme_rows: 0,
            judge,
        })
    }

    /// Returns the number of rows so far.
    pub fn rows(&self) -> u32
        ensures { result ≡ self.now.rows }
    {
        self.rows
    }

    /// Reads the next row. The only error is out of memory, or more rows or lexemes than a `u32`
    /// counts. After an error the judge must not be used.
    pub fn read(&mut self, row: &Record<A>) -> Result<(), AllocError>
        ensures { (config : Config) (rs : List RecordValue) → HasReadRows config rs self.old → OnOk result (HasReadRows config (rs ++ row.now ∷ []) self.new) }
    {
        let line = self.rows;
        let Some(rows) = line.checked_add(1) else {
            return Err(AllocError);
        };
        self.judge.read(row)?;
        let lexeme_rows = u64::from(line) + rows_of(row.lexemes());
        self.lexeme_rows = self.lexeme_rows.max(lexeme_rows);
        self.rows = rows;
        Ok(())
    }

    /// Returns the state after the rows, if a piece may begin after them. The only error is out of
    /// memory.
    pub fn border(&self) -> Result<Option<DocumentState<A>>, AllocError>
        ensures { (config : Config) (rs : List RecordValue) → HasReadRows config rs self.now → IfOk result (λ b. IfSome b (λ s. IsStateAfter rs s)) }
    {
        if self.rows == 0 || self.lexeme_rows > u64::from(self.rows) {
            return Ok(None);
        }
        let Some(state) = self.judge.state()? else {
            return Ok(None);
        };
        if state.is_border() {
            Ok(Some(state))
        } else {
            Ok(None)
        }
    }
}
