//! Marks a document line by line.

ghost use Rattle.std.specs.Prelude.{◌≡◌, ◌++◌, OnOk};
ghost use Rattle.yl_marks.specs.ByLine.{marker_at_start, marks_of_line, behind_line};
ghost use Rattle.yl_marks.specs.Marks.{closings_of_all};

use crate::keys::line_pieces;
use crate::marks::{close_all, marks, note_keys};
use crate::symbol::{Earlier, KeyStart, KeyedToken, MOST, OpenBlock, Symbol};
use crate::token::Token;
use std::alloc::{AllocError, Allocator};
use std::marker::Model;
use yl_lexeme::KeyUnit;

/// A reader that takes the lines of a document one after another and marks their lexemes. It keeps
/// a summary of the lines read so far.
#[derive(Drop)]
pub struct Marker<A: Allocator + Copy> {
    /// The summary of the lexemes read so far.
    earlier: Earlier,
    /// The open block collections, the outermost first.
    collections: Vec<OpenBlock, A>,
    /// The unit that may become a key. Its allocation is reused for each line, as are those of the
    /// next two fields.
    unit: KeyUnit<KeyStart, A>,
    /// The lexemes of a line.
    pieces: Vec<KeyedToken, A>,
    /// Whether a key begins with each of these lexemes.
    begins: Vec<bool, A>,
}

impl<A: Allocator + Copy> Model for Marker<A> {
    ghost use Rattle.std.specs.Prelude.{◌≤◌, reverse};
    ghost use Rattle.yl_marks.specs.ByLine.{MarkerValue};

    ghost Value = { MarkerValue };

    ghost view = { λ m. record { count = m.earlier.count; depth = m.earlier.depth; latest = m.earlier.latest; open_ones = reverse m.collections.items } };

    ghost invariant = { λ m. m.earlier.depth ≤ m.earlier.count };
}

/// The summary of no lexemes.
const NOTHING: Earlier = Earlier {
    count: 0,
    depth: 0,
    latest: None,
};

impl<A: Allocator + Copy> Marker<A> {
    /// Creates a marker at the start of a document.
    pub fn new(alloc: A) -> Marker<A>
        ensures { result ≡ marker_at_start }
    {
        Marker {
            earlier: NOTHING,
            collections: Vec::new(alloc),
            unit: KeyUnit::new(alloc),
            pieces: Vec::new(alloc),
            begins: Vec::new(alloc),
        }
    }

    /// Starts another document: discards what was read before, but keeps the allocations.
    pub fn clear(&mut self)
        ensures { self.new ≡ marker_at_start }
    {
        self.earlier = NOTHING;
        self.collections.clear();
    }

    /// Returns how many lexemes of the document were read.
    pub fn count(&self) -> usize
        ensures { result ≡ self.now.count }
    {
        self.earlier.count
    }

    /// Reads the next line, given as the tokens of all lexemes that begin in it, and appends the
    /// lexemes with their marks to `symbols`. The only error is out of memory. It is also returned
    /// if the document has more than `u32::MAX` lexemes. After an error the marker must not be used
    /// until `clear` is called.
    pub fn read(&mut self, line: &[Token], symbols: &mut Vec<Symbol, A>) -> Result<(), AllocError>
        ensures marks { OnOk result (symbols.new.items ≡ symbols.old.items ++ marks_of_line self.old line.now) }
        ensures behind { OnOk result (self.new ≡ behind_line self.old line.now) }
    {
        let first = self.earlier.count;
        if first.saturating_add(line.len()) > MOST {
            return Err(AllocError);
        }
        let earlier = line_pieces(line, self.earlier, &mut self.unit, &mut self.pieces)?;
        note_keys(&mut self.begins, first, &self.pieces)?;
        marks(
            &self.pieces,
            &self.begins,
            first,
            &mut self.collections,
            symbols,
        )?;
        self.earlier = earlier;
        Ok(())
    }

    /// Ends the document: appends a mark that closes each open collection. The only error is out of
    /// memory.
    pub fn close(&self, symbols: &mut Vec<Symbol, A>) -> Result<(), AllocError>
        ensures { OnOk result (symbols.new.items ≡ symbols.old.items ++ closings_of_all self.now.open_ones) }
    {
        close_all(&self.collections, symbols)
    }
}
