//! Judges a run of rows of a document from the state before it.
ghost use Rattle.std.specs.Prelude.{◌≡◌, ◌+◌, ◌++◌, ◌∷◌, [], List, length, is_some, IfOk, OnOk};
ghost use Rattle.std.specs.Option.{option_map};
ghost use Rattle.yl_config.specs.declared.config.Config.{Config};
ghost use Rattle.yl_record.specs.Records.{RecordValue};
ghost use Rattle.yl_pieces.specs.State as state;
ghost use Rattle.yl_pieces.specs.Told.{fault_in, state_after, told};
ghost use Rattle.yl_pieces.specs.Fault.{fault_value};
ghost use Rattle.yl_pieces.specs.Piece.{GoOnFrom, HasRead, IsAfter, JudgesRows, Machines, unless_fault};
ghost use Rattle.yl_pieces.specs.RowEvents.{TellsEvents, TellsRow, events_at, events_held, outlines_held};

use crate::comments::PieceComments;
use crate::row_events::RowEvents;
use std::alloc::{AllocError, Allocator};
use std::marker::Model;
use yl_config::Config;
use yl_events::{LineLexemes, Outline, ParseFault};
use yl_indentation::Fact;
use yl_marks::RowLexemes;
use yl_record::Record;
use yl_sections::{DocumentState, KeptComment, RowJudge, start_of};
use yl_text::{Finding, Pos};

/// A fault at a lexeme of a piece.
#[derive(Clone, Copy)]
pub struct PieceFault {
    /// The position of the lexeme. The first row of the piece is line 1.
    pub place: Pos,
    /// The kind of the fault.
    pub kind: ParseFault,
}

/// What the rows of a piece tell. The first row is line 1.
#[derive(Drop)]
pub struct Piece<A: Allocator> {
    /// The findings of the rules on lexemes.
    pub found: Vec<Finding<A>, A>,
    /// The facts for the rule indentation.
    pub facts: Vec<Fact, A>,
    /// The comments of the rows above the fault, if there is one, else of all rows.
    pub comments: Vec<KeptComment<A>, A>,
    /// The fault at a lexeme of the rows, if there is one.
    pub fault: Option<PieceFault>,
}

impl<A: Allocator> Model for Piece<A> {
    ghost use Rattle.std.specs.Option.{option_map};
    ghost use Rattle.yl_pieces.specs.Told.{Told};
    ghost use Rattle.yl_pieces.specs.Fault.{fault_value};

    ghost Value = { Told };

    ghost view = { λ p. record { found = p.found.items; facts = p.facts.items; comments = p.comments.items; fault = option_map fault_value p.fault } };
}

/// Returns what a judge has.
fn piece_of<A: Allocator + Copy>(
    mut rows: RowJudge<A>,
    comments: PieceComments<A>,
    fault: Option<PieceFault>,
) -> Piece<A>
    ensures { result ≡ record { found = rows.found.items; facts = rows.facts.items; comments = comments.all.items; fault = option_map fault_value fault } }
{
    let (found, facts) = rows.take();
    Piece {
        found,
        facts,
        comments: comments.all,
        fault,
    }
}

/// Reads the lexemes of the next row, which is at this line, if it has some. Returns the document's
/// fault, if it is at one of them. The only error is out of memory, or more lexemes than a `u32`
/// counts.
fn read_row<A: Allocator + Copy>(
    rows: &mut RowJudge<A>,
    line: u32,
    row: &Record<A>,
) -> Result<Option<PieceFault>, AllocError>
    ensures judged { (config : Config) (s : state.DocumentState) (m : Machines) (rs : List RecordValue)
        → line ≡ 1 + length rs → GoOnFrom s m → HasRead config m rs rows.old → IfOk result (λ fault. IsAfter fault config s m rs row.now rows.new) }
    ensures events { (config : Config) (s : state.DocumentState) (m : Machines) (rs : List RecordValue)
        → line ≡ 1 + length rs → GoOnFrom s m → HasRead config m rs rows.old → IfOk result (λ fault. fault ≡ None → TellsEvents s rs row.now (events_at line row.now rows.new)) }
{
    if row.lexemes().is_empty() {
        return Ok(None);
    }
    let lexemes = RowLexemes {
        line,
        lexemes: row.lexemes(),
    };
    let Some(fault) = rows.read(&lexemes, row.indentation())? else {
        return Ok(None);
    };
    let index = fault.place.saturating_sub(rows.count());
    Ok(Some(PieceFault {
        place: start_of(&lexemes, index),
        kind: fault.kind,
    }))
}

/// Returns the outlines of this row, which must be the latest one that was read, if it has lexemes.
fn outlines_of<'n, A: Allocator + Copy>(rows: &'n RowJudge<A>, row: &Record<A>) -> &'n [Outline]
    ensures { result.now ≡ outlines_held row.now rows.now }
{
    if row.lexemes().is_empty() {
        &[]
    } else {
        rows.outlines()
    }
}

/// A judge of a run of rows of a document, from the state before it.
#[derive(Drop)]
pub struct PieceJudge<A: Allocator + Copy> {
    /// The line of the next row.
    line: u32,
    /// The lexemes of the rows.
    rows: RowJudge<A>,
    /// The comments of the rows.
    comments: PieceComments<A>,
    /// The fault at a lexeme of the rows, if there is one.
    fault: Option<PieceFault>,
}

impl<A: Allocator + Copy> PieceJudge<A> {
    /// Creates a judge that goes on from a state. The only error is out of memory.
    pub fn resume(
        alloc: A,
        config: &Config,
        before: &DocumentState<A>,
    ) -> Result<PieceJudge<A>, AllocError>
        ensures { IfOk result (λ j. JudgesRows config.now before.now [] j) }
    {
        let rows = RowJudge::resume(alloc, config, before)?;
        Ok(PieceJudge {
            line: 1,
            rows,
            comments: PieceComments::new(alloc),
            fault: None,
        })
    }

    /// Reads the next row. The first row is line 1. After a fault nothing is read. The only error
    /// is out of memory, or more rows or lexemes than a `u32` counts. After an error the judge must
    /// not be used.
    pub fn read(&mut self, row: &Record<A>) -> Result<(), AllocError>
        ensures judged { (config : Config) (s : state.DocumentState) (rs : List RecordValue)
            → JudgesRows config s rs self.old → OnOk result (JudgesRows config s (rs ++ row.now ∷ []) self.new) }
        ensures events { (config : Config) (s : state.DocumentState) (rs : List RecordValue)
            → JudgesRows config s rs self.old → OnOk result (TellsRow s rs row.now self.new) }
    {
        if self.fault.is_some() {
            return Ok(());
        }
        let line = self.line;
        let Some(next) = line.checked_add(1) else {
            return Err(AllocError);
        };
        if let Some(fault) = read_row(&mut self.rows, line, row)? {
            self.fault = Some(fault);
            return Ok(());
        }
        self.comments.read(line, row)?;
        self.line = next;
        Ok(())
    }

    /// Returns whether there is a fault at a lexeme of the rows.
    pub fn has_fault(&self) -> bool
        ensures { (config : Config) (s : state.DocumentState) (rs : List RecordValue)
            → JudgesRows config s rs self.now → result ≡ is_some (fault_in s 1 rs) }
    {
        self.fault.is_some()
    }

    /// Returns the events of the latest row that was read, which must be this row. If no row has a
    /// fault, they are those of the row, but for an anchor of an earlier row whose node begins in
    /// this one: its name is empty. Does not allocate.
    pub fn events<'n>(&'n self, row: &'n Record<A>) -> RowEvents<'n, A>
        ensures { result ≡ events_held row.now self.now }
    {
        let lexemes = RowLexemes {
            line: self.line.saturating_sub(1),
            lexemes: row.lexemes(),
        };
        let first = self.rows.count().saturating_sub(row.lexemes().len());
        RowEvents::new(
            LineLexemes::new(&lexemes, first, None),
            outlines_of(&self.rows, row),
        )
    }

    /// Returns the state after the rows, or `None` if they have a fault. The only error is out of
    /// memory.
    pub fn state(&self) -> Result<Option<DocumentState<A>>, AllocError>
        ensures { (config : Config) (s : state.DocumentState) (rs : List RecordValue)
            → JudgesRows config s rs self.now → IfOk result (λ after. after ≡ unless_fault (fault_in s 1 rs) (state_after s 1 rs)) }
    {
        if self.fault.is_some() {
            return Ok(None);
        }
        Ok(Some(self.rows.state()?))
    }

    /// Returns what the rows tell. The only error is out of memory.
    pub fn finish(self) -> Result<Piece<A>, AllocError>
        ensures { (config : Config) (s : state.DocumentState) (rs : List RecordValue)
            → JudgesRows config s rs self → IfOk result (λ p. p ≡ told config s 1 rs) }
    {
        let PieceJudge {
            mut rows,
            comments,
            fault,
            ..
        } = self;
        if fault.is_some() {
            return Ok(piece_of(rows, comments, fault));
        }
        rows.finish()?;
        Ok(piece_of(rows, comments, fault))
    }
}
