//! The parser: a stack of goals over the marked lexemes.

ghost use Rattle.std.specs.Prelude.{◌≡◌, ◌++◌, [], ◌∷◌, ℕ, IsSome, true, false, reverse, IfOk, OnOk};
ghost use Rattle.yl_events.specs.Outlines.{bare_event, missing_node, end_event, node_event, pair_start, pair_end, node_end, ◌then◌};
ghost use Rattle.yl_events.specs.Machine.{with_anchor, with_tag, takes, takes_marks, node_turn, items_take, closing_turn, leaves, turn_before, step, finish, run, taken_count, AnswersTaking, AnswersLeaving, AnswersStep, AnswersFinish};
ghost use Rattle.yl_events.specs.DocumentOutcome.{steps, Walked};
ghost use Rattle.yl_events.specs.declared.symbol.Where.TheVariants.{InInline};
ghost use Rattle.yl_events.specs.declared.symbol.Goal.TheVariants.{ItemEnd, NodeEnd};

use crate::symbol::{BracketKind, Goal, Outline, Properties, Shape, Where};
use std::alloc::{AllocError, Allocator};
use yl_lexeme::Kind;
use yl_marks::Symbol;

/// Returns the outline of an event without an anchor and without a tag.
pub fn bare(kind: Shape, place: Option<u32>) -> Outline
    ensures { result ≡ bare_event kind place }
{
    Outline {
        kind,
        place,
        anchor: None,
        is_tagged: false,
    }
}

/// Returns the outline of an event of a node with these properties.
fn decorated(properties: Option<Properties>, kind: Shape, place: Option<u32>) -> Outline
    ensures { result ≡ node_event properties kind place }
{
    let (anchor, is_tagged) = match properties {
        None => (None, false),
        Some(Properties::Anchored(a)) => (Some(a), false),
        Some(Properties::Tagged(_)) => (None, true),
        Some(Properties::AnchoredTagged(a, _)) => (Some(a), true),
        Some(Properties::TaggedAnchored(_, a)) => (Some(a), true),
    };
    Outline {
        kind,
        place,
        anchor,
        is_tagged,
    }
}

/// Appends an event. Reserves the capacity first, so that an error does not return the event. The
/// only error is out of memory.
fn add<A: Allocator>(event: Outline, events: &mut Vec<Outline, A>) -> Result<(), AllocError>
    ensures { OnOk result (events.new.items ≡ events.old.items then event ∷ []) }
{
    events.reserve(1)?;
    events.push_reserved(event);
    Ok(())
}

/// Appends an event, and returns `true`: the goal is reached. The only error is out of memory.
fn tell<A: Allocator>(event: Outline, events: &mut Vec<Outline, A>) -> Result<bool, AllocError>
    ensures told { OnOk result (events.new.items ≡ events.old.items then event ∷ []) }
    ensures taken { IfOk result (λ taken. taken ≡ true) }
{
    add(event, events)?;
    Ok(true)
}

/// Pushes a goal onto the stack, and returns `true`. The only error is out of memory.
fn put<A: Allocator>(goal: Goal, goals: &mut Vec<Goal, A>) -> Result<bool, AllocError>
    ensures goals { OnOk result (reverse goals.new.items ≡ goal ∷ reverse goals.old.items) }
    ensures taken { IfOk result (λ taken. taken ≡ true) }
{
    goals.reserve(1)?;
    goals.push_reserved(goal);
    Ok(true)
}

/// Returns the properties with this anchor added, or `None` if they have an anchor already.
fn with_anchor(properties: Option<Properties>, anchor: u32) -> Option<Properties>
    ensures { result ≡ with_anchor properties anchor }
{
    match properties {
        None => Some(Properties::Anchored(anchor)),
        Some(Properties::Tagged(tag)) => Some(Properties::TaggedAnchored(tag, anchor)),
        _ => None,
    }
}

/// Returns the properties with this tag added, or `None` if they have a tag already.
fn with_tag(properties: Option<Properties>, tag: u32) -> Option<Properties>
    ensures { result ≡ with_tag properties tag }
{
    match properties {
        None => Some(Properties::Tagged(tag)),
        Some(Properties::Anchored(anchor)) => Some(Properties::AnchoredTagged(anchor, tag)),
        _ => None,
    }
}

/// Takes a symbol that begins or continues a node after these properties. Returns whether the
/// symbol is taken. The only error is out of memory.
fn forms<A: Allocator>(
    place: Where,
    properties: Option<Properties>,
    symbol: Symbol,
    goals: &mut Vec<Goal, A>,
    events: &mut Vec<Outline, A>,
) -> Result<bool, AllocError>
    ensures { IfOk result (λ taken. AnswersTaking (node_turn place properties symbol) taken goals.old.items goals.new.items events.old.items events.new.items) }
{
    match symbol {
        Symbol::OpenSequence(i) => match place {
            Where::InInline => Ok(false),
            Where::InBlock(_) => {
                add(decorated(properties, Shape::SequenceStart, Some(i)), events)?;
                put(Goal::Entries, goals)
            }
        },
        Symbol::OpenMapping(i) => match place {
            Where::InInline => Ok(false),
            Where::InBlock(_) => {
                add(decorated(properties, Shape::MappingStart, Some(i)), events)?;
                put(Goal::Pairs, goals)
            }
        },
        Symbol::BeginKey(_) | Symbol::Close => Ok(false),
        Symbol::One(kind, i) => form_begins(place, properties, kind, i, goals, events),
    }
}

/// Takes a lexeme that begins or continues a node after these properties. Returns whether the
/// lexeme is taken. The only error is out of memory.
fn form_begins<A: Allocator>(
    place: Where,
    properties: Option<Properties>,
    kind: Kind,
    i: u32,
    goals: &mut Vec<Goal, A>,
    events: &mut Vec<Outline, A>,
) -> Result<bool, AllocError>
    ensures { IfOk result (λ taken. AnswersTaking (node_turn place properties (Symbol.One kind i)) taken goals.old.items goals.new.items events.old.items events.new.items) }
{
    match kind {
        Kind::Alias => match properties {
            None => tell(bare(Shape::Alias, Some(i)), events),
            Some(_) => Ok(false),
        },
        Kind::Anchor => match with_anchor(properties, i) {
            None => Ok(false),
            more => put(Goal::Formed(place, more), goals),
        },
        Kind::Tag => match with_tag(properties, i) {
            None => Ok(false),
            more => put(Goal::Formed(place, more), goals),
        },
        Kind::Scalar(style) => {
            tell(decorated(properties, Shape::Scalar(style), Some(i)), events)
        }
        Kind::SeqOpen => {
            add(decorated(properties, Shape::SequenceStart, Some(i)), events)?;
            put(Goal::Items(BracketKind::Square), goals)
        }
        Kind::MapOpen => {
            add(decorated(properties, Shape::MappingStart, Some(i)), events)?;
            put(Goal::Items(BracketKind::Curly), goals)
        }
        Kind::Entry => match place {
            Where::InBlock(true) => {
                add(decorated(properties, Shape::SequenceStart, Some(i)), events)?;
                goals.reserve(2)?;
                goals.push_reserved(Goal::Indentless);
                goals.push_reserved(Goal::Formed(Where::InBlock(false), None));
                Ok(true)
            }
            _ => Ok(false),
        },
        _ => Ok(false),
    }
}

/// Takes the lexeme that ends a flow collection. Returns whether the lexeme is taken. The only
/// error is out of memory.
fn closes<A: Allocator>(
    bracket: BracketKind,
    kind: Kind,
    goals: &mut Vec<Goal, A>,
    events: &mut Vec<Outline, A>,
) -> Result<bool, AllocError>
    ensures { IfOk result (λ taken. AnswersTaking (closing_turn bracket kind) taken goals.old.items goals.new.items events.old.items events.new.items) }
{
    match (bracket, kind) {
        (BracketKind::Square, Kind::SeqClose) => tell(bare(Shape::SequenceEnd, None), events),
        (BracketKind::Curly, Kind::MapClose) => tell(bare(Shape::MappingEnd, None), events),
        _ => Ok(false),
    }
}

/// Appends the start of a pair in a flow collection. In curly brackets a pair has no event of its
/// own. The only error is out of memory.
fn start_pair<A: Allocator>(
    bracket: BracketKind,
    i: u32,
    events: &mut Vec<Outline, A>,
) -> Result<(), AllocError>
    ensures { OnOk result (events.new.items ≡ events.old.items then pair_start bracket i) }
{
    match bracket {
        BracketKind::Square => add(bare(Shape::MappingStart, Some(i)), events)?,
        BracketKind::Curly => {}
    }
    Ok(())
}

/// Takes the first lexeme of an item that is a node, and returns `true`. The only error is out of
/// memory.
#[tactic(auto, using(crate::proofs::Pushes::followed_taken))]
fn bare_item<A: Allocator>(
    bracket: BracketKind,
    kind: Kind,
    i: u32,
    goals: &mut Vec<Goal, A>,
    events: &mut Vec<Outline, A>,
) -> Result<bool, AllocError>
    requires { IsSome (node_turn InInline None (Symbol.One kind i)) }
    ensures { IfOk result (λ taken. AnswersTaking (turn_before (NodeEnd bracket ∷ ItemEnd bracket ∷ []) (node_turn InInline None (Symbol.One kind i))) taken goals.old.items goals.new.items events.old.items events.new.items) }
{
    goals.reserve(2)?;
    goals.push_reserved(Goal::ItemEnd(bracket));
    goals.push_reserved(Goal::NodeEnd(bracket));
    form_begins(Where::InInline, None, kind, i, goals, events)
}

/// Takes a lexeme that begins an item of a flow collection, or ends the collection. Returns whether
/// the lexeme is taken. The only error is out of memory.
fn item_begins<A: Allocator>(
    bracket: BracketKind,
    kind: Kind,
    i: u32,
    goals: &mut Vec<Goal, A>,
    events: &mut Vec<Outline, A>,
) -> Result<bool, AllocError>
    ensures { IfOk result (λ taken. AnswersTaking (items_take bracket (Symbol.One kind i)) taken goals.old.items goals.new.items events.old.items events.new.items) }
{
    match kind {
        Kind::Key => {
            start_pair(bracket, i, events)?;
            goals.reserve(4)?;
            goals.push_reserved(Goal::ItemEnd(bracket));
            goals.push_reserved(Goal::PairEnd(bracket));
            goals.push_reserved(Goal::ValueOf(Where::InBlock(false)));
            goals.push_reserved(Goal::Formed(Where::InBlock(false), None));
            Ok(true)
        }
        Kind::Value => {
            start_pair(bracket, i, events)?;
            add(bare(Shape::Empty, None), events)?;
            goals.reserve(3)?;
            goals.push_reserved(Goal::ItemEnd(bracket));
            goals.push_reserved(Goal::PairEnd(bracket));
            goals.push_reserved(Goal::Formed(Where::InBlock(false), None));
            Ok(true)
        }
        Kind::SeqClose | Kind::MapClose => closes(bracket, kind, goals, events),
        Kind::Alias | Kind::Anchor | Kind::Tag | Kind::Scalar(_) | Kind::SeqOpen | Kind::MapOpen =>
            bare_item(bracket, kind, i, goals, events),
        Kind::Directive | Kind::DocStart | Kind::DocEnd | Kind::Entry | Kind::Comma => Ok(false),
    }
}

/// Takes a symbol that begins an item of a flow collection, or ends the collection. Returns whether
/// the symbol is taken. The only error is out of memory.
fn items_take<A: Allocator>(
    bracket: BracketKind,
    symbol: Symbol,
    goals: &mut Vec<Goal, A>,
    events: &mut Vec<Outline, A>,
) -> Result<bool, AllocError>
    ensures { IfOk result (λ taken. AnswersTaking (items_take bracket symbol) taken goals.old.items goals.new.items events.old.items events.new.items) }
{
    match symbol {
        Symbol::BeginKey(i) => {
            start_pair(bracket, i, events)?;
            goals.reserve(5)?;
            goals.push_reserved(Goal::ItemEnd(bracket));
            goals.push_reserved(Goal::PairEnd(bracket));
            goals.push_reserved(Goal::Formed(Where::InBlock(false), None));
            goals.push_reserved(Goal::Colon);
            goals.push_reserved(Goal::Formed(Where::InInline, None));
            Ok(true)
        }
        Symbol::OpenSequence(_) | Symbol::OpenMapping(_) | Symbol::Close => Ok(false),
        Symbol::One(kind, i) => item_begins(bracket, kind, i, goals, events),
    }
}

/// Takes a symbol that begins an entry of a block sequence, or ends the sequence. Returns whether
/// the symbol is taken. The only error is out of memory.
fn take_entries<A: Allocator>(
    symbol: Symbol,
    goals: &mut Vec<Goal, A>,
    events: &mut Vec<Outline, A>,
) -> Result<bool, AllocError>
    ensures { IfOk result (λ taken. AnswersTaking (takes Goal.Entries symbol) taken goals.old.items goals.new.items events.old.items events.new.items) }
{
    match symbol {
        Symbol::One(Kind::Entry, _) => {
            goals.reserve(2)?;
            goals.push_reserved(Goal::Entries);
            goals.push_reserved(Goal::Formed(Where::InBlock(false), None));
            Ok(true)
        }
        Symbol::Close => tell(bare(Shape::SequenceEnd, None), events),
        _ => Ok(false),
    }
}

/// Takes a symbol that begins an entry of a block mapping, or ends the mapping. Returns whether the
/// symbol is taken. The only error is out of memory.
fn take_pairs<A: Allocator>(
    symbol: Symbol,
    goals: &mut Vec<Goal, A>,
    events: &mut Vec<Outline, A>,
) -> Result<bool, AllocError>
    ensures { IfOk result (λ taken. AnswersTaking (takes Goal.Pairs symbol) taken goals.old.items goals.new.items events.old.items events.new.items) }
{
    match symbol {
        Symbol::BeginKey(_) => {
            goals.reserve(4)?;
            goals.push_reserved(Goal::Pairs);
            goals.push_reserved(Goal::Formed(Where::InBlock(true), None));
            goals.push_reserved(Goal::Colon);
            goals.push_reserved(Goal::Formed(Where::InInline, None));
            Ok(true)
        }
        Symbol::One(Kind::Key, _) => {
            goals.reserve(3)?;
            goals.push_reserved(Goal::Pairs);
            goals.push_reserved(Goal::ValueOf(Where::InBlock(true)));
            goals.push_reserved(Goal::Formed(Where::InBlock(true), None));
            Ok(true)
        }
        Symbol::One(Kind::Value, _) => {
            add(bare(Shape::Empty, None), events)?;
            goals.reserve(2)?;
            goals.push_reserved(Goal::Pairs);
            goals.push_reserved(Goal::Formed(Where::InBlock(true), None));
            Ok(true)
        }
        Symbol::Close => tell(bare(Shape::MappingEnd, None), events),
        _ => Ok(false),
    }
}

/// Takes a lexeme for a goal that takes no mark. Returns whether the lexeme is taken. The only
/// error is out of memory.
fn take_lexeme<A: Allocator>(
    goal: Goal,
    kind: Kind,
    goals: &mut Vec<Goal, A>,
    events: &mut Vec<Outline, A>,
) -> Result<bool, AllocError>
    requires { takes_marks goal ≡ false }
    ensures { IfOk result (λ taken. (i : ℕ) → AnswersTaking (takes goal (Symbol.One kind i)) taken goals.old.items goals.new.items events.old.items events.new.items) }
{
    match goal {
        Goal::Prefix | Goal::Directives => match kind {
            Kind::Directive => put(Goal::Directives, goals),
            Kind::DocStart => Ok(true),
            _ => Ok(false),
        },
        Goal::Ending => match kind {
            Kind::DocEnd => Ok(true),
            _ => Ok(false),
        },
        Goal::Indentless => match kind {
            Kind::Entry => {
                goals.reserve(2)?;
                goals.push_reserved(Goal::Indentless);
                goals.push_reserved(Goal::Formed(Where::InBlock(false), None));
                Ok(true)
            }
            _ => Ok(false),
        },
        Goal::ValueOf(place) => match kind {
            Kind::Value => put(Goal::Formed(place, None), goals),
            _ => Ok(false),
        },
        Goal::Colon => match kind {
            Kind::Value => Ok(true),
            _ => Ok(false),
        },
        Goal::ItemEnd(bracket) => match kind {
            Kind::Comma => put(Goal::Items(bracket), goals),
            _ => closes(bracket, kind, goals, events),
        },
        _ => Ok(false),
    }
}

/// Takes a symbol for a goal that was on top of the stack. Returns whether the symbol is taken. If
/// it is not, nothing changes. The only error is out of memory.
fn take<A: Allocator>(
    goal: Goal,
    symbol: Symbol,
    goals: &mut Vec<Goal, A>,
    events: &mut Vec<Outline, A>,
) -> Result<bool, AllocError>
    ensures { IfOk result (λ taken. AnswersTaking (takes goal symbol) taken goals.old.items goals.new.items events.old.items events.new.items) }
{
    match goal {
        Goal::Formed(place, properties) => forms(place, properties, symbol, goals, events),
        Goal::Entries => take_entries(symbol, goals, events),
        Goal::Pairs => take_pairs(symbol, goals, events),
        Goal::Items(bracket) => items_take(bracket, symbol, goals, events),
        _ => match symbol {
            Symbol::One(kind, _) => take_lexeme(goal, kind, goals, events),
            _ => Ok(false),
        },
    }
}

/// Leaves a goal for which no symbol comes, and appends its events. Returns `false` and changes
/// nothing if the goal may not be left. The only error is out of memory.
fn leave<A: Allocator>(goal: Goal, events: &mut Vec<Outline, A>) -> Result<bool, AllocError>
    ensures { IfOk result (λ is_left. AnswersLeaving (leaves goal) is_left events.old.items events.new.items) }
{
    match goal {
        Goal::Prefix
        | Goal::Ending
        | Goal::PairEnd(BracketKind::Curly)
        | Goal::NodeEnd(BracketKind::Square) => {}
        Goal::Formed(Where::InInline, None) => return Ok(false),
        Goal::Formed(_, properties) => add(decorated(properties, Shape::Empty, None), events)?,
        Goal::Indentless => add(bare(Shape::SequenceEnd, None), events)?,
        Goal::ValueOf(_) | Goal::NodeEnd(BracketKind::Curly) => {
            add(bare(Shape::Empty, None), events)?
        }
        Goal::PairEnd(BracketKind::Square) => add(bare(Shape::MappingEnd, None), events)?,
        _ => return Ok(false),
    }
    Ok(true)
}

/// Takes a symbol. Leaves goals from the top of the stack until one takes it. Returns whether one
/// does. The only error is out of memory.
#[inline(never)]
fn search<A: Allocator>(
    symbol: Symbol,
    goals: &mut Vec<Goal, A>,
    events: &mut Vec<Outline, A>,
) -> Result<bool, AllocError>
    ensures { IfOk result (λ taken. AnswersStep (step (reverse goals.old.items) events.old.items symbol) taken goals.new.items events.new.items) }
{
    while let Some(goal) = goals.pop() {
        if take(goal, symbol, goals, events)? {
            return Ok(true);
        }
        if !leave(goal, events)? {
            return Ok(false);
        }
    }
    Ok(false)
}

/// Takes a symbol, as `search` does. Handles the most frequent cases here, without a move of the
/// goal, and leaves the others to `search`. The only error is out of memory.
fn step<A: Allocator>(
    symbol: &Symbol,
    goals: &mut Vec<Goal, A>,
    events: &mut Vec<Outline, A>,
) -> Result<bool, AllocError>
    ensures { IfOk result (λ taken. AnswersStep (step (reverse goals.old.items) events.old.items symbol.now) taken goals.new.items events.new.items) }
{
    match (&goals[..], symbol) {
        ([.., Goal::Colon], Symbol::One(Kind::Value, _)) => {
            let _ = goals.pop();
            Ok(true)
        }
        ([.., Goal::Formed(_, None)], Symbol::One(Kind::Scalar(style), i)) => {
            let _ = goals.pop();
            add(bare(Shape::Scalar(*style), Some(*i)), events)?;
            Ok(true)
        }
        ([.., Goal::Pairs], Symbol::BeginKey(_)) => {
            goals.reserve(3)?;
            goals.push_reserved(Goal::Formed(Where::InBlock(true), None));
            goals.push_reserved(Goal::Colon);
            goals.push_reserved(Goal::Formed(Where::InInline, None));
            Ok(true)
        }
        _ => search(*symbol, goals, events),
    }
}

/// Leaves all goals. Returns whether all of them may be left. The only error is out of memory.
pub fn finish<A: Allocator>(
    goals: &mut Vec<Goal, A>,
    events: &mut Vec<Outline, A>,
) -> Result<bool, AllocError>
    ensures { IfOk result (λ whole. AnswersFinish (finish (reverse goals.old.items) events.old.items) whole events.new.items) }
{
    while let Some(goal) = goals.pop() {
        if !leave(goal, events)? {
            return Ok(false);
        }
    }
    Ok(true)
}

/// Takes these symbols and appends their events. Returns `None` if all are taken, else the number
/// of lexemes before the symbol that is refused. The only error is out of memory.
pub fn walk<A: Allocator>(
    symbols: &[Symbol],
    goals: &mut Vec<Goal, A>,
    events: &mut Vec<Outline, A>,
) -> Result<Option<usize>, AllocError>
    ensures { IfOk result (λ place. Walked (steps symbols.now (reverse goals.old.items) events.old.items)
        (taken_count symbols.now (reverse goals.old.items) events.old.items) place goals.new.items events.new.items) }
{
    let mut place = 0usize;
    for symbol in symbols {
        if !step(symbol, goals, events)? {
            return Ok(Some(place));
        }
        if let Symbol::One(_, _) = symbol {
            place += 1;
        }
    }
    Ok(None)
}
