//! `yl_events`: the events of a document, or its fault.

ghost use Rattle.std.specs.Prelude.{◌≡◌, ◌↔◌, IfOk, IsTrue, List, None, Option, map};
ghost use Rattle.yl_events.specs.Built.{Builds};
ghost use Rattle.yl_events.specs.Event.{EventValue};
ghost use Rattle.yl_events.specs.declared.fault.PlacedParseFault.{PlacedParseFault};
ghost use Rattle.yl_marks.specs.Keys.{lexeme_at_line};

use std::alloc::{AllocError, Allocator};
use yl_events::parse_document;
use yl_lexeme::{LexemeAtLine, Meter};

/// Whether a document has no fault.
pub fn is_sound<A: Allocator + Copy>(
    alloc: A,
    lexemes: &[LexemeAtLine<'_, A>],
) -> Result<bool, AllocError>
    ensures { IfOk result (λ sound. (events : List EventValue) × (fault : Option PlacedParseFault)
        × Builds (map (λ x. lexeme_at_line x.line x.lexeme.now) lexemes.now) events fault
        × (IsTrue sound ↔ (fault ≡ None))) }
{
    let built = parse_document(alloc, lexemes, &mut Meter::new())?;
    Ok(built.fault.is_none())
}
