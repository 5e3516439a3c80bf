//! The documents of a text.
ghost use Rattle.std.specs.Prelude.{◌≡◌, IfOk, map};
ghost use Rattle.yl_marks.specs.Keys.{lexeme_at_line};
ghost use Rattle.yl_config.specs.TextDocuments.{AreBuilt, IsBuilt, cut_behind, documents_of};

use std::alloc::{AllocError, Allocator};
use std::marker::Model;
use yl_events::{Built, documents, parse_document};
use yl_lexeme::{LexemeAtLine, Meter};

/// A document: its lexemes, and its events or its parse fault.
#[derive(Drop)]
pub struct BuiltDocument<'a, 'b, A: Allocator> {
    /// The lexemes of the document.
    pub lexemes: &'b [LexemeAtLine<'a, A>],
    /// The events of the document, or its parse fault.
    pub built: Built<'a, A>,
}

impl<'a, 'b, A: Allocator> Model for BuiltDocument<'a, 'b, A> {
    ghost use Rattle.std.specs.Prelude.{map};
    ghost use Rattle.yl_marks.specs.Keys.{lexeme_at_line};
    ghost use Rattle.yl_events.specs.Event.{event_value};
    ghost use Rattle.yl_config.specs.TextDocuments.{BuiltDocumentValue};

    ghost Value = { BuiltDocumentValue };

    ghost view = { λ d. record { lexemes = map (λ x. lexeme_at_line x.line x.lexeme.now) d.lexemes.now; events = map event_value d.built.events.items; fault = d.built.fault } };
}

/// Parses a document, given by its lexemes. The only error is out of memory, or more lexemes than a
/// `u32` counts.
fn build<'a, 'b, A: Allocator + Copy>(
    alloc: A,
    lexemes: &'b [LexemeAtLine<'a, A>],
) -> Result<BuiltDocument<'a, 'b, A>, AllocError>
    ensures { IfOk result (λ d. IsBuilt (map (λ x. lexeme_at_line x.line x.lexeme.now) lexemes.now) d) }
{
    let built = parse_document(alloc, lexemes, &mut Meter::new())?;
    Ok(BuiltDocument { lexemes, built })
}

/// Parses the documents of these lexemes, before which the text has `before` others. One document
/// begins with the first of the lexemes, and one with each of the indices `places`, which count all
/// lexemes of the text. The only error is out of memory, or more lexemes of a document than a `u32`
/// counts.
fn build_behind<'a, 'b, A: Allocator + Copy>(
    alloc: A,
    before: usize,
    places: &[usize],
    lexemes: &'b [LexemeAtLine<'a, A>],
) -> Result<Vec<BuiltDocument<'a, 'b, A>, A>, AllocError>
    ensures { IfOk result (λ ds. AreBuilt (cut_behind before places.now (map (λ x. lexeme_at_line x.line x.lexeme.now) lexemes.now)) ds.items) }
{
    let mut all = Vec::new(alloc);
    let mut passed = before;
    let mut at = 0;
    for place in places {
        let len = place.saturating_sub(passed).min(lexemes.len() - at);
        all.push(build(alloc, &lexemes[at..at + len])?)?;
        passed = *place;
        at += len;
    }
    all.push(build(alloc, &lexemes[at..])?)?;
    Ok(all)
}

/// Returns the documents of a text, given by its lexemes, in order. The only error is out of
/// memory, or more lexemes of a document than a `u32` counts.
pub fn build_all<'a, 'b, A: Allocator + Copy>(
    alloc: A,
    lexemes: &'b [LexemeAtLine<'a, A>],
) -> Result<Vec<BuiltDocument<'a, 'b, A>, A>, AllocError>
    ensures { IfOk result (λ ds. AreBuilt (documents_of (map (λ x. lexeme_at_line x.line x.lexeme.now) lexemes.now)) ds.items) }
{
    let places = documents(alloc, lexemes)?;
    match places.as_slice() {
        [] => Ok(Vec::new(alloc)),
        [place, places @ ..] => build_behind(alloc, *place, places, lexemes),
    }
}
