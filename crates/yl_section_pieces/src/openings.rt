//! What a parser has still to read says which collections are open.
ghost use Rattle.std.specs.Prelude.{◌≡◌, map, IfOk};
ghost use Rattle.yl_open_collections.specs.OpenBy.{is_curly, open_by};
ghost use Rattle.yl_piece_names.specs.OpeningEvents.{opened_by, opening_of};

use std::alloc::{AllocError, Allocator};
use yl_events::{BracketKind, Goal};
use yl_piece_names::Opening;
use yl_sections::DocumentState;

/// Returns whether the brackets are those of a mapping.
fn is_curly(kind: BracketKind) -> bool
    ensures { result ≡ is_curly kind }
{
    match kind {
        BracketKind::Square => false,
        BracketKind::Curly => true,
    }
}

/// Returns what a goal says of the open collections.
fn opening_of(goal: Goal) -> Opening
    ensures { result ≡ opening_of goal }
{
    match goal {
        Goal::Entries | Goal::Indentless => Opening::Collection(false),
        Goal::Pairs | Goal::PairEnd(BracketKind::Square) => Opening::Collection(true),
        Goal::Items(kind) | Goal::ItemEnd(kind) => Opening::Collection(is_curly(kind)),
        Goal::Formed(_, _) | Goal::ValueOf(_) | Goal::NodeEnd(BracketKind::Curly) => Opening::Node,
        Goal::Prefix | Goal::Directives | Goal::Ending | Goal::Colon => Opening::Nothing,
        Goal::PairEnd(BracketKind::Curly) | Goal::NodeEnd(BracketKind::Square) => Opening::Nothing,
    }
}

/// Returns what each goal says of the open collections, in the order of the goals. The only error
/// is out of memory.
fn openings_of_all<A: Allocator>(alloc: A, goals: &[Goal]) -> Result<Vec<Opening, A>, AllocError>
    ensures { IfOk result (λ openings. openings.items ≡ map opening_of goals.now) }
{
    let mut openings = Vec::with_capacity(alloc, goals.len())?;
    for goal in goals {
        openings.push(opening_of(*goal))?;
    }
    Ok(openings)
}

/// Returns what the goals of the parser in this state say of the open collections, the innermost
/// goal last. The only error is out of memory.
pub(crate) fn openings_of<A: Allocator + Copy>(
    alloc: A,
    before: &DocumentState<A>,
) -> Result<Vec<Opening, A>, AllocError>
    ensures { IfOk result (λ openings. opened_by openings.items ≡ open_by before.now.parser.goals) }
{
    let goals = before.parser().goals();
    openings_of_all(alloc, goals)
}
