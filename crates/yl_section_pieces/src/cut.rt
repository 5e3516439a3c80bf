//! Cuts a section into pieces.
ghost use Rattle.std.specs.Prelude.{◌≡◌, ◌∷◌, [], None, map, IfOk, OnOk};
ghost use Rattle.yl_sections.specs.Judge.{kept_of_section};
ghost use Rattle.yl_section_pieces.specs.Pieces.{IsKeptSection};
ghost use Rattle.yl_section_pieces.specs.Cut.{at_start, next_after, piece_at, pieces_from};

use crate::borders::{Border, PIECE_ROWS, borders_of};
use crate::lists::{Rows, by_line, comments_in, facts_in, found_in};
use crate::piece::SectionPiece;
use std::alloc::{AllocError, Allocator};
use yl_config::Config;
use yl_record::Record;
use yl_sections::Kept;
use yl_text::Finding;

/// Where a piece begins: in the rows of its section, and in the lists of what is kept of it.
#[derive(Clone, Copy)]
pub struct Cursor {
    /// The first row of the piece, counted from 0.
    row: u32,
    /// The number of findings before those of the piece.
    found: usize,
    /// The number of facts before those of the piece.
    facts: usize,
    /// The number of comments before those of the piece.
    comments: usize,
}

impl Cursor {
    /// Returns where the first piece begins.
    fn start() -> Cursor
        ensures { result ≡ at_start }
    {
        Cursor {
            row: 0,
            found: 0,
            facts: 0,
            comments: 0,
        }
    }
}

/// Returns the summary of the piece that begins at the cursor and ends above this row, and moves
/// the cursor to the next piece. The findings are in the order of their lines. The only error is
/// out of memory.
fn cut_piece<A: Allocator + Copy>(
    alloc: A,
    kept: &Kept<A>,
    found: &[&Finding<A>],
    at: &mut Cursor,
    end: u32,
) -> Result<Kept<A>, AllocError>
    ensures piece { IfOk result (λ p. p ≡ piece_at kept.now (map (λ f. f.now) found.now) at.old end) }
    ensures next { OnOk result (at.new ≡ next_after kept.now (map (λ f. f.now) found.now) at.old end) }
{
    let Cursor {
        row,
        found: mut next_found,
        facts: mut next_facts,
        comments: mut next_comments,
    } = *at;
    let rows = Rows { start: row, end };
    let part = found_in(alloc, found, &mut next_found, rows)?;
    let facts = facts_in(alloc, kept.facts(), &mut next_facts, rows)?;
    let comments = comments_in(alloc, kept.comments(), &mut next_comments, rows)?;
    *at = Cursor {
        row: end,
        found: next_found,
        facts: next_facts,
        comments: next_comments,
    };
    let first = if row == 0 { kept.first() } else { 0 };
    let count = end.saturating_sub(row);
    Ok(Kept::faultless(count, first, part, facts, comments))
}

/// Returns the pieces that begin at these borders, and the one before them. The findings are in the
/// order of their lines. The only error is out of memory.
fn cut_at<A: Allocator + Copy>(
    alloc: A,
    kept: &Kept<A>,
    found: &[&Finding<A>],
    borders: Vec<Border<A>, A>,
) -> Result<Vec<SectionPiece<A>, A>, AllocError>
    ensures { IfOk result (λ ps. ps.items ≡ pieces_from kept.now (map (λ f. f.now) found.now) at_start None borders.items) }
{
    let mut pieces = Vec::new(alloc);
    let mut at = Cursor::start();
    let mut before = None;
    for border in borders {
        let Border { row, state } = border;
        let piece = cut_piece(alloc, kept, found, &mut at, row)?;
        pieces.push(SectionPiece {
            kept: piece,
            before,
        })?;
        before = Some(state);
    }
    let last = cut_piece(alloc, kept, found, &mut at, kept.rows())?;
    pieces.push(SectionPiece { kept: last, before })?;
    Ok(pieces)
}

/// Returns the section as one piece. The only error is out of memory.
fn whole<A: Allocator + Copy>(
    alloc: A,
    kept: Kept<A>,
) -> Result<Vec<SectionPiece<A>, A>, AllocError>
    ensures { IfOk result (λ ps. ps.items ≡ record { kept = kept; before = None } ∷ []) }
{
    let mut pieces = Vec::new(alloc);
    pieces.push(SectionPiece { kept, before: None })?;
    Ok(pieces)
}

/// Returns the pieces in which a section is kept, given the references to its rows and its summary:
/// the summary itself, if the section has a fault or few rows, or pieces of some 64 rows. The only
/// error is out of memory, or more rows or lexemes than a `u32` counts.
pub fn pieces_of_section<A: Allocator + Copy>(
    alloc: A,
    config: &Config,
    rows: &[&Record<A>],
    kept: Kept<A>,
) -> Result<Vec<SectionPiece<A>, A>, AllocError>
    ensures { IfOk result (λ ps. kept ≡ kept_of_section config.now (map (λ r. r.now) rows.now) → IsKeptSection config.now (map (λ r. r.now) rows.now) ps.items) }
{
    if kept.fault().is_some() || kept.rows() <= PIECE_ROWS {
        return whole(alloc, kept);
    }
    let borders = borders_of(alloc, config, rows)?;
    if borders.is_empty() {
        return whole(alloc, kept);
    }
    let found = by_line(alloc, kept.found())?;
    cut_at(alloc, &kept, &found, borders)
}
