//! The events of a line.

ghost use Rattle.std.specs.Prelude.{◌≡◌};

use crate::event::{Event, EventAnchor, EventKind};
use crate::symbol::{Outline, Shape};
use std::alloc::Allocator;
use std::marker::Model;
use yl_lexeme::LexemeAtLine;
use yl_marks::RowLexemes;
use yl_text::Pos;

/// An anchor of an earlier line whose node has not begun yet.
#[derive(Clone, Copy)]
pub struct WaitingAnchor<'n> {
    /// The index of the anchor among the lexemes of the document, from 0.
    pub index: u32,
    /// The name of the anchor.
    pub name: &'n str,
    /// The position of the anchor in the text.
    pub place: Pos,
}

/// The lexemes that the outlines of a line may name: those that begin in the line, and the anchor
/// before the line that waits for its node.
#[derive(Drop)]
pub struct LineLexemes<'n, A: Allocator> {
    /// The lexemes that begin in the line.
    row: RowLexemes<'n, A>,
    /// The number of lexemes of the document before the line.
    first: usize,
    /// The anchor that waits before the line, if there is one.
    waiting: Option<WaitingAnchor<'n>>,
}

impl<'n, A: Allocator> Model for LineLexemes<'n, A> {
    ghost use Rattle.std.specs.Prelude.{map, option_map};
    ghost use Rattle.yl_marks.specs.Keys.{lexeme_at_line};
    ghost use Rattle.yl_events.specs.Seen.{LineValue, waiting_value};

    ghost Value = { LineValue };

    ghost view = { λ l. record { lexemes = map (lexeme_at_line l.row.line) l.row.lexemes.now; first = l.first; waiting = option_map waiting_value l.waiting } };
}

impl<'n, A: Allocator> LineLexemes<'n, A> {
    ghost use Rattle.std.specs.Prelude.{◌≡◌, map, option_map};
    ghost use Rattle.yl_marks.specs.Keys.{lexeme_at_line};
    ghost use Rattle.yl_events.specs.Event.{event_value, kind_value};
    ghost use Rattle.yl_events.specs.Seen.{content_seen, event_seen, kind_seen, lexeme_of_line, start_seen, value_seen, waiting_value, waits_at};

    /// Creates a view of the lexemes of a row. `first` is the number of lexemes of the document
    /// before the row, and `waiting` is the anchor that waits for its node there. Does not
    /// allocate.
    pub fn new(
        row: &RowLexemes<'n, A>,
        first: usize,
        waiting: Option<WaitingAnchor<'n>>,
    ) -> LineLexemes<'n, A>
        ensures { result ≡ record { lexemes = map (lexeme_at_line row.now.line) row.now.lexemes.now; first = first; waiting = option_map waiting_value waiting.entry } }
    {
        LineLexemes {
            row: RowLexemes {
                line: row.line,
                lexemes: row.lexemes,
            },
            first,
            waiting,
        }
    }

    /// Returns the anchor that waits, if it has this index.
    fn waits_at(&self, i: u32) -> Option<WaitingAnchor<'n>>
        ensures { option_map waiting_value result ≡ waits_at i self.now.waiting }
    {
        match self.waiting {
            Some(waiting) if waiting.index == i => Some(waiting),
            _ => None,
        }
    }

    /// Returns the lexeme of the line with this index in the document, if there is one.
    fn lexeme_at(&self, i: u32) -> Option<LexemeAtLine<'n, A>>
        ensures { option_map (λ x. lexeme_at_line x.line x.lexeme.now) result ≡ lexeme_of_line self.now i }
    {
        let i = i as usize;
        if i < self.first {
            return None;
        }
        match self.row.lexemes.get(i - self.first) {
            None => None,
            Some(lexeme) => Some(LexemeAtLine {
                line: self.row.line,
                lexeme,
            }),
        }
    }

    /// Returns the value of the lexeme with this index in the document, or an empty string if it is
    /// neither in the line nor the anchor that waits.
    fn value_at(&self, i: u32) -> &'n str
        ensures { result.now ≡ value_seen self.now i }
    {
        match self.waits_at(i) {
            Some(waiting) => waiting.name,
            None => match self.lexeme_at(i) {
                None => "",
                Some(at) => at.lexeme.value(),
            },
        }
    }

    /// Returns the position of the lexeme with this index in the document, or line 0 and column 0
    /// if it is neither in the line nor the anchor that waits.
    fn start_at(&self, i: u32) -> Pos
        ensures { result ≡ start_seen self.now i }
    {
        match self.waits_at(i) {
            Some(waiting) => waiting.place,
            None => match self.lexeme_at(i) {
                None => Pos { line: 0, col: 0 },
                Some(at) => at.start(),
            },
        }
    }

    /// Returns the value of the lexeme with this index, or an empty string if there is no index.
    fn content_value(&self, place: Option<u32>) -> &'n str
        ensures { result.now ≡ content_seen self.now place }
    {
        match place {
            None => "",
            Some(i) => self.value_at(i),
        }
    }

    /// Returns the kind of an event of this shape. `place` is the index of the lexeme with which
    /// its content begins.
    fn kind_of(&self, shape: Shape, place: Option<u32>) -> EventKind<'n>
        ensures { kind_value result ≡ kind_seen self.now shape place }
    {
        match shape {
            Shape::DocumentStart => EventKind::DocumentStart,
            Shape::DocumentEnd => EventKind::DocumentEnd,
            Shape::SequenceStart => EventKind::SequenceStart,
            Shape::SequenceEnd => EventKind::SequenceEnd,
            Shape::MappingStart => EventKind::MappingStart,
            Shape::MappingEnd => EventKind::MappingEnd,
            Shape::Alias => EventKind::Alias(self.content_value(place)),
            Shape::Scalar(style) => EventKind::Scalar(style, self.content_value(place)),
            Shape::Empty => EventKind::Empty,
        }
    }

    /// Returns the event of an outline of the line.
    pub fn event_of(&self, outline: &Outline) -> Event<'n>
        ensures { event_value result ≡ event_seen self.now outline.now }
    {
        let place = match outline.place {
            None => None,
            Some(i) => Some(self.start_at(i)),
        };
        let anchor = match outline.anchor {
            None => None,
            Some(i) => Some(EventAnchor {
                name: self.value_at(i),
                place: self.start_at(i),
            }),
        };
        Event::new(
            self.kind_of(outline.kind, outline.place),
            place,
            anchor,
            outline.is_tagged,
        )
    }

    /// Returns the anchor with this index, which is in the line or waits before it, as an anchor
    /// that waits for its node after the line.
    pub fn waiting(&self, i: u32) -> WaitingAnchor<'n>
        ensures { waiting_value result ≡ record { index = i; name = value_seen self.now i; place = start_seen self.now i } }
    {
        WaitingAnchor {
            index: i,
            name: self.value_at(i),
            place: self.start_at(i),
        }
    }
}
