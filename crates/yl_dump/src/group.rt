//! The lexemes of a document that start in one line.
ghost use Rattle.std.specs.Prelude.{◌≡◌, ◌==◌, ◌↔◌, ◌++◌, ◌∷◌, [], Some, None, IsTrue, OnOk, option_map};
ghost use Rattle.yl_dump.specs.EventLine.{lexeme_at, opening_of, own_lexeme, place_shown};
ghost use Rattle.yl_dump.specs.LexemeLine.{text_place};
ghost use Rattle.yl_events.specs.Event.{value_of};

use crate::fault::TextPlace;
use crate::page::Page;
use std::alloc::{AllocError, Allocator};
use std::marker::Model;
use yl_events::{Token, token_of};
use yl_lexeme::{Kind, Lexeme, LexemeAtLine};

/// A lexeme, and its index in the document.
#[derive(Drop)]
struct Indexed<A: Allocator> {
    index: usize,
    lexeme: Lexeme<A>,
}

/// The lexemes of a document that start in one line, as far as they were read. The last anchor of
/// the earlier lines is kept, since its node may start in a later line.
#[derive(Drop)]
pub struct Group<A: Allocator + Copy> {
    /// The line in the text, counted from 0.
    line: u32,
    /// The printed part of a position in the line before its column.
    place_opening: Page<A>,
    /// The index of the first lexeme in the document.
    first: usize,
    lexemes: Vec<Lexeme<A>, A>,
    earlier_anchor: Option<Indexed<A>>,
}

impl<A: Allocator + Copy> Model for Group<A> {
    ghost use Rattle.yl_dump.specs.EventLine.{GroupValue};
    ghost use Rattle.yl_dump.specs.Earlier.{earlier_of};

    ghost Value = { GroupValue };

    ghost view = { λ g. record { line = g.line; opening = g.place_opening; first = g.first; lexemes = g.lexemes.items; earlier = earlier_of g.earlier_anchor } };
}

impl<A: Allocator + Copy> Group<A> {
    /// Creates an empty group.
    pub fn new(alloc: A) -> Group<A>
        ensures { result ≡ record { line = 0; opening = []; first = 0; lexemes = []; earlier = None } }
    {
        Group {
            line: 0,
            place_opening: Page::new(alloc),
            first: 0,
            lexemes: Vec::new(alloc),
            earlier_anchor: None,
        }
    }

    /// Returns `true` if a lexeme that starts at line `line` belongs to the group.
    pub fn is_in(&self, line: u32) -> bool
        ensures { result ≡ (self.now.line == line) }
    {
        self.line == line
    }

    /// Appends a lexeme that starts at line `line`. The other lexemes must start at this line too.
    /// The only error is out of memory.
    pub fn push(&mut self, line: u32, lexeme: Lexeme<A>) -> Result<(), AllocError>
        ensures { OnOk result (self.new ≡ record self.old { line = line; lexemes = self.old.lexemes ++ lexeme ∷ [] }) }
    {
        self.line = line;
        self.lexemes.push(lexeme)?;
        Ok(())
    }

    /// Moves the lexemes out of their list to the end of the group. All of them, and the lexemes of
    /// the group, must start at line `line`. The only error is out of memory.
    pub fn append(&mut self, line: u32, lexemes: &mut Vec<Lexeme<A>, A>) -> Result<(), AllocError>
        ensures appended { OnOk result (self.new ≡ record self.old { line = line; lexemes = self.old.lexemes ++ lexemes.old.items }) }
        ensures emptied { OnOk result (lexemes.new.items ≡ []) }
    {
        self.line = line;
        self.lexemes.append(lexemes)
    }

    // Sets the printed part of a position in the line before its column.
    fn print_opening(&mut self) -> Result<(), AllocError>
        ensures { OnOk result (self.new ≡ record self.old { opening = opening_of self.old.line }) }
    {
        self.place_opening.truncate(0);
        self.place_opening.text(" @")?;
        self.place_opening.number(u64::from(self.line) + 1)?;
        self.place_opening.text(":")
    }

    /// Fills `tokens` with the lexemes of the line, without their values. The line must be
    /// complete. The only error is out of memory.
    pub fn fill_in(&mut self, tokens: &mut Vec<Token, A>) -> Result<(), AllocError>
        ensures { OnOk result (self.new ≡ record self.old { opening = opening_of self.old.line }) }
    {
        self.print_opening()?;
        tokens.clear();
        for lexeme in &self.lexemes {
            tokens.push(token_of(&LexemeAtLine {
                line: self.line,
                lexeme,
            }))?;
        }
        Ok(())
    }

    /// Returns the value of the lexeme with this index in the document, or an empty string if the
    /// lexeme is not in the group.
    pub fn value(&self, index: usize) -> &str
        ensures { result.now ≡ value_of (lexeme_at self.now index) }
    {
        if index >= self.first {
            return match self.lexemes.get(index - self.first) {
                Some(lexeme) => lexeme.value(),
                None => "",
            };
        }
        match &self.earlier_anchor {
            Some(anchor) if anchor.index == index => anchor.lexeme.value(),
            _ => "",
        }
    }

    /// Returns the lexeme with this index in the document, if it starts in the line of the group.
    fn own(&self, index: usize) -> Option<&Lexeme<A>>
        ensures { option_map (λ x. x.now) result ≡ own_lexeme self.now index }
    {
        if index < self.first {
            return None;
        }
        self.lexemes.get(index - self.first)
    }

    /// Prints the position of the lexeme with this index in the document as ` @LINE:COLUMN`, both
    /// counted from 1. Prints nothing if the lexeme does not start in the line of the group. The
    /// only error is out of memory.
    pub fn print_place(&self, page: &mut Page<A>, index: usize) -> Result<(), AllocError>
        ensures { OnOk result (page.new ≡ page.old ++ place_shown self.now (Some index)) }
    {
        let Some(lexeme) = self.own(index) else {
            return Ok(());
        };
        page.bytes(self.place_opening.as_bytes())?;
        page.number(u64::from(lexeme.start().col) + 1)
    }

    /// Returns the position of the lexeme with this index in the document, if it starts in the line
    /// of the group.
    pub fn place(&self, index: usize) -> Option<TextPlace>
        ensures { result ≡ option_map (λ x. text_place self.now.line x.start.col) (own_lexeme self.now index) }
    {
        let lexeme = self.own(index)?;
        Some(TextPlace {
            line: u64::from(self.line),
            column: u64::from(lexeme.start().col),
        })
    }

    /// Removes the lexemes of the line, which were parsed, and keeps the last anchor. `first` is
    /// the index of the next lexeme, which starts in another line.
    pub fn pass(&mut self, first: usize) {
        let anchor = self
            .lexemes
            .iter()
            .rposition(|lexeme| lexeme.kind() == Kind::Anchor);
        if let Some(i) = anchor {
            self.lexemes.truncate(i + 1);
            if let Some(lexeme) = self.lexemes.pop() {
                let index = self.first.saturating_add(i);
                self.earlier_anchor = Some(Indexed { index, lexeme });
            }
        }
        self.lexemes.clear();
        self.first = first;
    }

    /// Empties the group before a document begins.
    pub fn clear(&mut self)
        ensures { self.new ≡ record self.old { first = 0; lexemes = []; earlier = None } }
    {
        self.lexemes.clear();
        self.earlier_anchor = None;
        self.first = 0;
    }

    /// Returns `true` if the group has no lexemes of its line.
    pub fn is_empty(&self) -> bool
        ensures { IsTrue result ↔ (self.now.lexemes ≡ []) }
    {
        self.lexemes.is_empty()
    }
}
