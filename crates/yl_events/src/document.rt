//! The events of a document, or its parse fault.

ghost use Rattle.std.specs.Prelude.{◌≡◌, ◌<◌, ◌+◌, ◌^◌, ◌-◌, map, IfOk};
ghost use Rattle.yl_marks.specs.Keys.{lexeme_at_line};
ghost use Rattle.yl_marks.specs.Marks.{symbols_of_lexemes};
ghost use Rattle.yl_events.specs.Event.{event_value, kind_value, value_at, start_at, content_value, kind_of, event_of_outline};
ghost use Rattle.yl_events.specs.Built.{Builds};
ghost use Rattle.yl_events.specs.DocumentOutcome.{outcome_by};
ghost use Rattle.yl_events.specs.Machine.{goals_of_document};
ghost use Rattle.yl_events.specs.Parsing.{start_events, IsOutcome};
ghost use Rattle.yl_events.specs.Trail.{no_trail};

use crate::event::{Built, Event, EventAnchor, EventKind};
use crate::fault::PlacedParseFault;
use crate::symbol::{Outline, Shape};
use crate::symbol_parser::SymbolParser;
use std::alloc::{AllocError, Allocator};
use yl_lexeme::{LexemeAtLine, Meter};
use yl_marks::document_marks;
use yl_text::Pos;

/// Returns the value of the lexeme with this index, or an empty string if there is none.
fn value_at<'a, A: Allocator>(lexemes: &[LexemeAtLine<'a, A>], i: usize) -> &'a str
    ensures { result.now ≡ value_at (map (λ x. lexeme_at_line x.line x.lexeme.now) lexemes.now) i }
{
    match lexemes.get(i) {
        None => "",
        Some(at) => at.lexeme.value(),
    }
}

/// Returns the position at which the lexeme with this index begins in the text, or line 0 and
/// column 0 if there is none.
fn start_at<A: Allocator>(lexemes: &[LexemeAtLine<'_, A>], i: usize) -> Pos
    ensures { result ≡ start_at (map (λ x. lexeme_at_line x.line x.lexeme.now) lexemes.now) i }
{
    match lexemes.get(i) {
        None => Pos { line: 0, col: 0 },
        Some(at) => at.start(),
    }
}

/// Returns the value of the lexeme with this index, or an empty string if there is no index.
fn content_value<'a, A: Allocator>(lexemes: &[LexemeAtLine<'a, A>], place: Option<u32>) -> &'a str
    ensures { result.now ≡ content_value (map (λ x. lexeme_at_line x.line x.lexeme.now) lexemes.now) place }
{
    match place {
        None => "",
        Some(i) => value_at(lexemes, i as usize),
    }
}

/// Returns the kind of an event of this shape. `place` is the index of the lexeme with which its
/// content begins.
fn kind_of<'a, A: Allocator>(
    lexemes: &[LexemeAtLine<'a, A>],
    shape: Shape,
    place: Option<u32>,
) -> EventKind<'a>
    ensures { kind_value result ≡ kind_of (map (λ x. lexeme_at_line x.line x.lexeme.now) lexemes.now) shape place }
{
    match shape {
        Shape::DocumentStart => EventKind::DocumentStart,
        Shape::DocumentEnd => EventKind::DocumentEnd,
        Shape::SequenceStart => EventKind::SequenceStart,
        Shape::SequenceEnd => EventKind::SequenceEnd,
        Shape::MappingStart => EventKind::MappingStart,
        Shape::MappingEnd => EventKind::MappingEnd,
        Shape::Alias => EventKind::Alias(content_value(lexemes, place)),
        Shape::Scalar(style) => EventKind::Scalar(style, content_value(lexemes, place)),
        Shape::Empty => EventKind::Empty,
    }
}

/// Returns the event of an outline of a document with these lexemes.
pub fn event_of<'a, A: Allocator>(lexemes: &[LexemeAtLine<'a, A>], outline: &Outline) -> Event<'a>
    ensures { event_value result ≡ event_of_outline (map (λ x. lexeme_at_line x.line x.lexeme.now) lexemes.now) outline.now }
{
    let place = match outline.place {
        None => None,
        Some(i) => Some(start_at(lexemes, i as usize)),
    };
    let anchor = match outline.anchor {
        None => None,
        Some(i) => Some(EventAnchor {
            name: value_at(lexemes, i as usize),
            place: start_at(lexemes, i as usize),
        }),
    };
    Event::new(
        kind_of(lexemes, outline.kind, outline.place),
        place,
        anchor,
        outline.is_tagged,
    )
}

/// Returns the events of the outlines. The only error is out of memory.
fn fill_all<'a, A: Allocator + Copy>(
    alloc: A,
    lexemes: &[LexemeAtLine<'a, A>],
    outlines: &[Outline],
) -> Result<Vec<Event<'a>, A>, AllocError>
    ensures { IfOk result (λ v. map event_value v.items ≡ map (event_of_outline (map (λ x. lexeme_at_line x.line x.lexeme.now) lexemes.now)) outlines.now) }
{
    let mut events = Vec::with_capacity(alloc, outlines.len())?;
    for outline in outlines {
        events.push(event_of(lexemes, outline))?;
    }
    Ok(events)
}

/// Returns the events of a document with these outlines, or its fault and no events. The only error
/// is out of memory.
#[tactic(auto, using(crate::proofs::Giving::told_events))]
fn build<'a, A: Allocator + Copy>(
    alloc: A,
    lexemes: &[LexemeAtLine<'a, A>],
    outlines: &[Outline],
    fault: Option<PlacedParseFault>,
) -> Result<Built<'a, A>, AllocError>
    requires { IsOutcome (outcome_by no_trail 0 goals_of_document start_events (symbols_of_lexemes (map (λ x. lexeme_at_line x.line x.lexeme.now) lexemes.now))) fault outlines.now }
    ensures { IfOk result (λ b. Builds (map (λ x. lexeme_at_line x.line x.lexeme.now) lexemes.now) (map event_value b.events.items) b.fault) }
{
    match fault {
        None => {
            let events = fill_all(alloc, lexemes, outlines)?;
            Ok(Built {
                events,
                fault: None,
            })
        }
        Some(fault) => Ok(Built {
            events: Vec::new(alloc),
            fault: Some(fault),
        }),
    }
}

/// Returns the events of a document, given by all its lexemes, or its parse fault and no events.
/// Counts the document in the meter, also after an error. The only error is out of memory, or more
/// lexemes than a `u32` counts.
pub fn parse_document<'a, A: Allocator + Copy>(
    alloc: A,
    lexemes: &[LexemeAtLine<'a, A>],
    meter: &mut Meter,
) -> Result<Built<'a, A>, AllocError>
    requires { meter.old.documents < 2 ^ 32 - 1 }
    ensures built { IfOk result (λ b. Builds (map (λ x. lexeme_at_line x.line x.lexeme.now) lexemes.now) (map event_value b.events.items) b.fault) }
    ensures counted { meter.new ≡ record meter.old { documents = meter.old.documents + 1 } }
{
    let mut parser = SymbolParser::new(alloc);
    let mut outlines = Vec::new(alloc);
    parser.begin(&mut outlines, meter)?;
    let marks = document_marks(alloc, lexemes)?;
    outlines.reserve(marks.symbols.len())?;
    let fault = parser.finish(0, &marks.symbols, &mut outlines)?;
    build(alloc, lexemes, &outlines, fault)
}
