//! Where the pieces of a section begin.
ghost use Rattle.std.specs.Prelude.{◌++◌, ◌∷◌, List, map, IfOk, OnOk};
ghost use Rattle.yl_config.specs.declared.config.Config.{Config};
ghost use Rattle.yl_record.specs.Records.{RecordValue};
ghost use Rattle.yl_section_pieces.specs.BorderJudge.{HasReadRows};
ghost use Rattle.yl_section_pieces.specs.Borders.{AreBorders, AreDue};

use crate::border_judge::BorderJudge;
use std::alloc::{AllocError, Allocator};
use yl_config::Config;
use yl_record::Record;
use yl_sections::DocumentState;

/// The number of rows that a piece has at least, but for the first one of a section and the last. A
/// piece also has as many rows as collections are open before it, so that all states together have
/// at most some for each row.
pub const PIECE_ROWS: u32 = 64;

/// Where a piece begins in a section.
#[derive(Drop)]
pub struct Border<A: Allocator> {
    /// The first row of the piece, counted from 0 from the section's first row.
    pub row: u32,
    /// The state before that row.
    pub state: DocumentState<A>,
}

/// The borders of a section that were found so far.
#[derive(Drop)]
struct Borders<A: Allocator> {
    /// The borders, in order.
    all: Vec<Border<A>, A>,
    /// The first row with which the next piece may begin.
    due: u64,
}

impl<A: Allocator + Copy> Borders<A> {
    /// Returns no borders. The first piece has at least one row, so that few rows have no state
    /// before them.
    fn new(alloc: A) -> Borders<A>
        ensures { (rs : List RecordValue) → AreDue rs result.due result.all.items }
    {
        Borders {
            all: Vec::new(alloc),
            due: 1,
        }
    }

    /// Appends the border after the rows that were judged, if a piece is due, and may begin there
    /// with the next row. The only error is out of memory.
    fn note(&mut self, judge: &BorderJudge<A>, next: &Record<A>) -> Result<(), AllocError>
        ensures { (config : Config) (front rest : List RecordValue) → HasReadRows config front judge.now
            → AreDue (front ++ next.now ∷ rest) self.old.due self.old.all.items → OnOk result (AreDue (front ++ next.now ∷ rest) self.new.due self.new.all.items) }
    {
        let row = judge.rows();
        if u64::from(row) < self.due || next.lexemes().is_empty() {
            return Ok(());
        }
        let Some(state) = judge.border()? else {
            return Ok(());
        };
        let levels = state.parser().goals().len() as u64;
        self.all.push(Border { row, state })?;
        self.due = u64::from(row).saturating_add(levels.max(u64::from(PIECE_ROWS)));
        Ok(())
    }
}

/// Returns where the pieces of a section begin, but for the first one, in order. The only error is
/// out of memory, or more rows or lexemes than a `u32` counts.
pub fn borders_of<A: Allocator + Copy>(
    alloc: A,
    config: &Config,
    rows: &[&Record<A>],
) -> Result<Vec<Border<A>, A>, AllocError>
    ensures { IfOk result (λ bs. AreBorders (map (λ r. r.now) rows.now) 0 bs.items) }
{
    let mut judge = BorderJudge::new(alloc, config)?;
    let mut borders = Borders::new(alloc);
    for row in rows {
        borders.note(&judge, row)?;
        judge.read(row)?;
    }
    Ok(borders.all)
}
