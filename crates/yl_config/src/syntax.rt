//! The first fault of a text.
ghost use Rattle.std.specs.Prelude.{◌≡◌, slice_get};
ghost use Rattle.yl_config.specs.Syntax.{earlier_place, open_end, parse_fault, place_behind, place_of_parse_fault, stands_before, start_or};

use crate::documents::BuiltDocument;
use std::alloc::Allocator;
use yl_text::Pos;

impl<'a, 'b, A: Allocator> BuiltDocument<'a, 'b, A> {
    /// Returns the position at which the lexeme with this index begins, or `behind` if there is
    /// none.
    fn start_or(&self, behind: Option<Pos>, index: usize) -> Option<Pos>
        ensures { result ≡ start_or behind (slice_get self.now.lexemes index) }
    {
        match self.lexemes.get(index) {
            None => behind,
            Some(lexeme) => Some(lexeme.start()),
        }
    }

    /// Returns the position of the document's fault, if it has one. `behind` is the position after
    /// all lexemes of the document. It is `None` if no fault may be there.
    fn place_of_fault(&self, behind: Option<Pos>) -> Option<Pos>
        ensures { result ≡ place_of_parse_fault behind self.now.lexemes self.now.fault }
    {
        match self.built.fault {
            None => None,
            Some(fault) => self.start_or(behind, fault.place),
        }
    }
}

/// Returns the position at which the first of these documents begins, or `end` if there is none.
pub fn place_behind<A: Allocator>(
    end: Option<Pos>,
    documents: &[BuiltDocument<'_, '_, A>],
) -> Option<Pos>
    ensures { result ≡ place_behind end documents.now }
{
    match documents {
        [] => end,
        [document, ..] => document.start_or(end, 0),
    }
}

/// Returns the position of the first fault of these documents, if one has a fault. `end` is the
/// position after all of them. It is `None` if no fault may be there.
fn parse_fault<A: Allocator>(
    end: Option<Pos>,
    documents: &[BuiltDocument<'_, '_, A>],
) -> Option<Pos>
    ensures { result ≡ parse_fault end documents.now }
{
    let mut rest = documents;
    while let [document, later @ ..] = rest {
        let place = document.place_of_fault(place_behind(end, later));
        if place.is_some() {
            return place;
        }
        rest = later;
    }
    None
}

/// Returns whether the position `p` is before the position `q`.
pub fn stands_before(p: Pos, q: Pos) -> bool
    ensures { result ≡ stands_before p q }
{
    p.line < q.line || (p.line == q.line && p.col < q.col)
}

/// Returns the earlier of two positions. If one of them is missing, returns the other.
fn earlier_place(first: Option<Pos>, second: Option<Pos>) -> Option<Pos>
    ensures { result ≡ earlier_place first second }
{
    match (first, second) {
        (None, second) => second,
        (first, None) => first,
        (Some(first), Some(second)) if stands_before(second, first) => Some(second),
        (first, Some(_)) => first,
    }
}

/// Returns the position of the first fault of a text, if it has one. `end` is the end of the text,
/// and `scan_fault` is the position of its scan fault. Lines and columns count from 0, and columns
/// count characters.
pub fn text_fault<A: Allocator>(
    end: Pos,
    scan_fault: Option<Pos>,
    documents: &[BuiltDocument<'_, '_, A>],
) -> Option<Pos>
    ensures { result ≡ earlier_place scan_fault (parse_fault (open_end end scan_fault) documents.now) }
{
    let open_end = match scan_fault {
        None => Some(end),
        Some(_) => None,
    };
    earlier_place(scan_fault, parse_fault(open_end, documents))
}
