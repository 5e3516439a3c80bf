//! Marks a document line by line, together with the facts that its keys decide about its lexemes.

ghost use Rattle.std.specs.Prelude.{◌≡◌, ◌<◌, ◌+◌, ◌^◌, ◌++◌, false, length, true, IfOk, OnOk};
ghost use Rattle.yl_marks.specs.ByLine.{marks_of_line};
ghost use Rattle.yl_marks.specs.FactsByLine.{behind_keyed_line, facts_of_line, key_marker_at_start};
ghost use Rattle.yl_marks.specs.Marks.{closings_of_all};
ghost use Rattle.yl_marks.specs.MarksAlike.{IsAbove, key_marker_state};
ghost use Rattle.yl_marks.specs.SingleKeys.{has_single_keys};

use crate::facts::{KeyFacts, push_facts};
use crate::keys::line_pieces;
use crate::marker_state::{MarkerState, copy_collections};
use crate::marks::{close_all, marks, note_keys};
use crate::single_keys::{has_single_keys, mark_single_keys};
use crate::symbol::{Earlier, KeyStart, KeyedToken, MOST, OpenBlock, Symbol};
use crate::token::Token;
use std::alloc::{AllocError, Allocator};
use std::marker::Model;
use yl_lexeme::KeyUnit;

/// A reader that takes the lines of a document one after another. It marks their lexemes, and finds
/// the facts that the keys decide about each lexeme. It keeps a summary of the lines read so far.
#[derive(Drop)]
pub struct KeyMarker<A: Allocator + Copy> {
    /// The summary of the lexemes read so far.
    earlier: Earlier,
    /// The facts that the lexemes so far decide about the next one, if no key begins or ends with
    /// it.
    ahead: KeyFacts,
    /// The open block collections, the outermost first.
    collections: Vec<OpenBlock, A>,
    /// The unit that may become a key. Its allocation is reused for each line, as are those of the
    /// next two fields.
    unit: KeyUnit<KeyStart, A>,
    /// The lexemes of a line.
    pieces: Vec<KeyedToken, A>,
    /// Whether a key begins with each of these lexemes.
    begins: Vec<bool, A>,
}

impl<A: Allocator + Copy> Model for KeyMarker<A> {
    ghost use Rattle.std.specs.Prelude.{◌≤◌, reverse};
    ghost use Rattle.yl_marks.specs.FactsByLine.{KeyMarkerValue};

    ghost Value = { KeyMarkerValue };

    ghost view = { λ m. record {
      marks = record { count = m.earlier.count; depth = m.earlier.depth; latest = m.earlier.latest; open_ones = reverse m.collections.items };
      ahead = m.ahead;
    } };

    ghost invariant = { λ m. m.earlier.depth ≤ m.earlier.count };
}

impl<A: Allocator + Copy> KeyMarker<A> {
    /// Creates a marker at the start of a document.
    pub fn new(alloc: A) -> KeyMarker<A>
        ensures { result ≡ key_marker_at_start }
    {
        KeyMarker {
            earlier: Earlier {
                count: 0,
                depth: 0,
                latest: None,
            },
            ahead: KeyFacts {
                is_key: false,
                has_tag: false,
            },
            collections: Vec::new(alloc),
            unit: KeyUnit::new(alloc),
            pieces: Vec::new(alloc),
            begins: Vec::new(alloc),
        }
    }

    /// Returns the state after the lines read so far. The only error is out of memory.
    pub fn state(&self) -> Result<MarkerState<A>, AllocError>
        ensures { IfOk result (λ s. s ≡ key_marker_state self.now) }
    {
        let collections = copy_collections(*self.collections.allocator(), &self.collections)?;
        Ok(MarkerState {
            depth: self.earlier.depth,
            latest: self.earlier.latest.map(|piece| piece.kind),
            ahead: self.ahead,
            collections,
        })
    }

    /// Creates a marker that goes on from a state. The lines that it reads next count from 1, since
    /// its latest lexeme is in line 0. It counts lexemes from the number of open brackets on. The
    /// only error is out of memory.
    pub fn resume(state: &MarkerState<A>) -> Result<KeyMarker<A>, AllocError>
        ensures state { IfOk result (λ m. key_marker_state m ≡ state.now) }
        ensures above { IfOk result (λ m. IsAbove 1 m.marks) }
        ensures count { IfOk result (λ m. m.marks.count ≡ m.marks.depth) }
    {
        let alloc = *state.collections.allocator();
        Ok(KeyMarker {
            earlier: Earlier {
                count: state.depth,
                depth: state.depth,
                latest: state.latest_above(),
            },
            ahead: state.ahead,
            collections: copy_collections(alloc, &state.collections)?,
            unit: KeyUnit::new(alloc),
            pieces: Vec::new(alloc),
            begins: Vec::new(alloc),
        })
    }

    /// Reads the next line, given as the tokens of all lexemes that begin in it. Appends the
    /// lexemes with their marks to `symbols`, and the facts about them to `keys`. The only error is
    /// out of memory. It is also returned if the document has more than `u32::MAX` lexemes. After
    /// an error the marker must not be used.
    pub fn read(
        &mut self,
        line: &[Token],
        symbols: &mut Vec<Symbol, A>,
        keys: &mut Vec<KeyFacts, A>,
    ) -> Result<(), AllocError>
        ensures marks { OnOk result (symbols.new.items
            ≡ symbols.old.items ++ marks_of_line self.old.marks line.now) }
        ensures keys { OnOk result (keys.new.items
            ≡ keys.old.items ++ facts_of_line self.old line.now) }
        ensures behind { OnOk result (self.new ≡ behind_keyed_line self.old line.now) }
    {
        let first = self.earlier.count;
        if first.saturating_add(line.len()) > MOST {
            return Err(AllocError);
        }
        if has_single_keys(line) {
            return self.read_single_keys(line, symbols, keys);
        }
        self.read_any(line, symbols, keys)
    }

    /// Reads the lexemes of a line with single keys in one pass.
    fn read_single_keys(
        &mut self,
        line: &[Token],
        symbols: &mut Vec<Symbol, A>,
        keys: &mut Vec<KeyFacts, A>,
    ) -> Result<(), AllocError>
        requires count { self.old.marks.count + length line.now < 2 ^ 32 }
        requires single { has_single_keys false line.now ≡ true }
        ensures marks { OnOk result (symbols.new.items
            ≡ symbols.old.items ++ marks_of_line self.old.marks line.now) }
        ensures keys { OnOk result (keys.new.items
            ≡ keys.old.items ++ facts_of_line self.old line.now) }
        ensures behind { OnOk result (self.new ≡ behind_keyed_line self.old line.now) }
    {
        let (passed, ahead) = mark_single_keys(
            line,
            self.earlier,
            self.ahead,
            &mut self.collections,
            symbols,
            keys,
        )?;
        self.earlier = passed;
        self.ahead = ahead;
        Ok(())
    }

    /// Reads the lexemes of any line: first finds where its keys begin, and then the marks.
    fn read_any(
        &mut self,
        line: &[Token],
        symbols: &mut Vec<Symbol, A>,
        keys: &mut Vec<KeyFacts, A>,
    ) -> Result<(), AllocError>
        requires { self.old.marks.count + length line.now < 2 ^ 32 }
        ensures marks { OnOk result (symbols.new.items
            ≡ symbols.old.items ++ marks_of_line self.old.marks line.now) }
        ensures keys { OnOk result (keys.new.items
            ≡ keys.old.items ++ facts_of_line self.old line.now) }
        ensures behind { OnOk result (self.new ≡ behind_keyed_line self.old line.now) }
    {
        let first = self.earlier.count;
        let earlier = line_pieces(line, self.earlier, &mut self.unit, &mut self.pieces)?;
        note_keys(&mut self.begins, first, &self.pieces)?;
        marks(
            &self.pieces,
            &self.begins,
            first,
            &mut self.collections,
            symbols,
        )?;
        self.ahead = push_facts(&self.pieces, &self.begins, first, self.ahead, keys)?;
        self.earlier = earlier;
        Ok(())
    }

    /// Ends the document: appends a mark that closes each open collection. The only error is out of
    /// memory.
    pub fn close(&self, symbols: &mut Vec<Symbol, A>) -> Result<(), AllocError>
        ensures { OnOk result (symbols.new.items ≡ symbols.old.items ++ closings_of_all self.now.marks.open_ones) }
    {
        close_all(&self.collections, symbols)
    }
}
