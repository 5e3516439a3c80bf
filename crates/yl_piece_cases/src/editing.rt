//! An edit of one row.
use crate::pieces::{Rows, lent, pieces_of, recorded};
use failing_alloc::FailingAlloc;
use std::alloc::{AllocError, Allocator, Global};
use yl_config::Config;
use yl_record::Record;
use yl_section_pieces::{SectionPiece, edit_piece};
use yl_sections::Kept;

/// The result of an edit.
#[derive(Clone, Copy)]
pub enum Outcome {
    /// The rows of the piece are judged by themselves.
    Alone,
    /// They are not.
    Whole,
    /// They are, and something else is kept of them than when the whole section is judged.
    Differs,
    /// The result is another one where memory is refused.
    Refused,
}

impl Outcome {
    /// Returns the word for the result.
    pub fn word(self) -> &'static str {
        match self {
            Outcome::Alone => "alone",
            Outcome::Whole => "whole",
            Outcome::Differs => "is kept otherwise than when all is judged",
            Outcome::Refused => "has another result where memory is refused",
        }
    }
}

/// An edit by which some rows replace one row.
#[derive(Drop)]
pub struct RowEdit {
    /// The rows after the edit.
    pub rows: Rows,
    /// The row that is replaced, counted from 0.
    row: usize,
    /// The number of rows that replace it.
    count: usize,
}

impl RowEdit {
    /// Creates the edit by which the rows `put` replace row `row`, or returns `None` if there is no
    /// such row. The only error is out of memory.
    pub fn new(
        alloc: Global,
        before: &[String],
        row: usize,
        mut put: Rows,
    ) -> Result<Option<RowEdit>, AllocError> {
        if row >= before.len() {
            return Ok(None);
        }
        let count = put.len();
        let mut rows = Vec::new(alloc);
        for text in &before[..row] {
            rows.push(text.clone()?)?;
        }
        rows.append(&mut put)?;
        for text in before[row..].iter().skip(1) {
            rows.push(text.clone()?)?;
        }
        Ok(Some(RowEdit { rows, row, count }))
    }
}

/// Returns the index of the piece that holds a row, and the piece's first row.
fn piece_at<A: Allocator>(pieces: &[SectionPiece<A>], row: usize) -> Option<(usize, usize)> {
    let mut first = 0usize;
    for (i, piece) in pieces.iter().enumerate() {
        let end = first.saturating_add(piece.kept.rows() as usize);
        if row < end {
            return Some((i, first));
        }
        first = end;
    }
    None
}

/// Returns whether two summaries are the same, or both are missing.
fn are_same<A: Allocator + Copy>(one: &Option<Kept<A>>, other: &Option<Kept<A>>) -> bool {
    match (one, other) {
        (None, None) => true,
        (Some(one), Some(other)) => one.is_same(other),
        _ => false,
    }
}

/// Returns the summary of the piece after the edit of its rows, if they are judged by themselves.
/// The only error is out of memory.
fn judge<A: Allocator + Copy>(
    alloc: A,
    config: &Config,
    piece: &SectionPiece<A>,
    old: &[&Record<A>],
    new: &[&Record<A>],
) -> Result<Option<Kept<A>>, AllocError> {
    match &piece.before {
        None => Ok(None),
        Some(before) => edit_piece(alloc, config, before, &piece.kept, old, new),
    }
}

/// Returns whether the piece has this summary after the edit, or memory is said to be refused, where
/// each allocation is refused in turn. The only error is out of memory.
fn is_same_where_refused<A: Allocator + Copy>(
    alloc: A,
    heap: &FailingAlloc<Global>,
    config: &Config,
    piece: &SectionPiece<A>,
    rows: (&[&Record<A>], &[&Record<A>]),
    summary: &Option<Kept<A>>,
) -> Result<bool, AllocError> {
    for nth in 1..u64::MAX {
        heap.refuse(nth);
        let again = judge(alloc, config, piece, rows.0, rows.1);
        let is_armed = heap.is_armed();
        heap.refuse(0);
        match again {
            Err(AllocError) if is_armed => return Err(AllocError),
            Err(AllocError) => {}
            Ok(again) => return Ok(is_armed && are_same(&again, summary)),
        }
    }
    Ok(false)
}

/// Returns the result of an edit of the rows `before`, or `None` if they are not one section before
/// it or after it. The only error is out of memory.
fn outcome_by<A: Allocator + Copy>(
    alloc: A,
    heap: &FailingAlloc<Global>,
    config: &Config,
    before: &[String],
    edit: &RowEdit,
) -> Result<Option<Outcome>, AllocError> {
    let (old, new) = (recorded(alloc, before)?, recorded(alloc, &edit.rows)?);
    let (old, new) = (lent(alloc, &old)?, lent(alloc, &new)?);
    let (Some(pieces), Some(anew)) = (
        pieces_of(alloc, config, &old)?,
        pieces_of(alloc, config, &new)?,
    ) else {
        return Ok(None);
    };
    let Some((i, first)) = piece_at(&pieces, edit.row) else {
        return Ok(None);
    };
    let Some(piece) = pieces.get(i) else {
        return Ok(None);
    };
    let end = first.saturating_add(piece.kept.rows() as usize);
    let new_end = end.saturating_add(edit.count).saturating_sub(1);
    if first > end || first > new_end || end > old.len() || new_end > new.len() {
        return Ok(None);
    }
    let (was, now) = (&old[first..end], &new[first..new_end]);
    let summary = judge(alloc, config, piece, was, now)?;
    if !is_same_where_refused(alloc, heap, config, piece, (was, now), &summary)? {
        return Ok(Some(Outcome::Refused));
    }
    let Some(summary) = summary else {
        return Ok(Some(Outcome::Whole));
    };
    match anew.get(i) {
        Some(piece) if piece.kept.rows() != summary.rows() || piece.kept.is_same(&summary) => {
            Ok(Some(Outcome::Alone))
        }
        _ => Ok(Some(Outcome::Differs)),
    }
}

/// Returns the result of an edit of the rows `before`, or `None` if they are not one section before
/// it or after it. The only error is out of memory.
pub fn outcome_of(
    alloc: Global,
    config: &Config,
    before: &[String],
    edit: &RowEdit,
) -> Result<Option<Outcome>, AllocError> {
    let heap = FailingAlloc::new(alloc);
    outcome_by(&heap, &heap, config, before, edit)
}
