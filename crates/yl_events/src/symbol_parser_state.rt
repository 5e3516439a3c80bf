//! What a parser of symbols holds before a row, without the indices of lexemes.

ghost use Rattle.std.specs.Prelude.{◌≡◌, ◌↔◌, IsTrue, IfOk, map, reverse};
ghost use Rattle.yl_events.specs.State.{properties_state, goal_state, parser_state};
ghost use Rattle.yl_events.specs.SymbolParsing.{symbols_at_start};

use crate::symbol::{Goal, Properties, Where};
use crate::trail::Trail;
use std::alloc::{AllocError, Allocator};
use std::marker::Model;

impl Properties {
    /// Returns the same properties with the index 0.
    fn state(self) -> Properties
        ensures { result ≡ properties_state self }
    {
        match self {
            Properties::Anchored(_) => Properties::Anchored(0),
            Properties::Tagged(_) => Properties::Tagged(0),
            Properties::AnchoredTagged(_, _) => Properties::AnchoredTagged(0, 0),
            Properties::TaggedAnchored(_, _) => Properties::TaggedAnchored(0, 0),
        }
    }
}

impl Goal {
    /// Returns the same goal, with the index 0 for each property.
    fn state(self) -> Goal
        ensures { result ≡ goal_state self }
    {
        match self {
            Goal::Formed(place, Some(properties)) => Goal::Formed(place, Some(properties.state())),
            goal => goal,
        }
    }
}

/// What a `SymbolParser` holds before a row, without the indices of lexemes: what is still to be
/// read, and what determines the kind of the next fault. Two parsers in the same state tell the
/// same of the same symbols (`symbols_are_parsed_alike`).
#[derive(Drop)]
pub struct SymbolParserState<A: Allocator> {
    /// What is still to be read, the innermost goal last. Each property has the index 0.
    goals: Vec<Goal, A>,
    /// What determines the kind of the next fault.
    trail: Trail<A>,
}

impl<A: Allocator> Model for SymbolParserState<A> {
    ghost use Rattle.std.specs.Prelude.{◌≡◌, map, reverse};
    ghost use Rattle.yl_events.specs.State.{goal_state};
    ghost use Rattle.yl_events.specs.SymbolParsing.{SymbolParserValue};

    ghost Value = { SymbolParserValue };

    ghost view = { λ s. record { goals = reverse s.goals.items; trail = s.trail } };

    ghost invariant = { λ s. map goal_state s.goals.items ≡ s.goals.items };
}

impl<A: Allocator> SymbolParserState<A> {
    /// Returns whether the two states are equal.
    #[tactic(auto, using(crate::proofs::States::same_reversed))]
    pub fn is_same(&self, other: &SymbolParserState<A>) -> bool
        ensures { IsTrue result ↔ self.now ≡ other.now }
    {
        are_same_goals(&self.goals, &other.goals) && self.trail.is_same(&other.trail)
    }

    /// Returns what is still to be read, the innermost goal last.
    pub fn goals(&self) -> &Vec<Goal, A>
        ensures goals { reverse result.now.items ≡ self.now.goals }
        ensures state { map goal_state result.now.items ≡ result.now.items }
    {
        &self.goals
    }

    /// Returns what determines the kind of the next fault.
    pub(crate) fn trail(&self) -> &Trail<A>
        ensures { result.now ≡ self.now.trail }
    {
        &self.trail
    }
}

impl<A: Allocator + Copy> SymbolParserState<A> {
    /// Creates the state of a parser at the start of a document. The only error is out of memory.
    pub fn start(alloc: A) -> Result<SymbolParserState<A>, AllocError>
        ensures { IfOk result (λ state. state ≡ parser_state symbols_at_start) }
    {
        let goals = [
            Goal::Ending,
            Goal::Formed(Where::InBlock(false), None),
            Goal::Prefix,
        ];
        SymbolParserState::new(alloc, &goals, &Trail::new(alloc))
    }

    /// Creates the state of a parser with these goals, the innermost last, and this trail. The only
    /// error is out of memory.
    #[tactic(auto, using(crate::proofs::States::goals_again, crate::proofs::States::goals_reversed))]
    pub(crate) fn new(
        alloc: A,
        goals: &[Goal],
        trail: &Trail<A>,
    ) -> Result<SymbolParserState<A>, AllocError>
        ensures { IfOk result (λ state. state ≡ parser_state (record { goals = reverse goals.now; trail = trail.now })) }
    {
        let goals = states_of(alloc, goals)?;
        let trail = trail.try_clone()?;
        Ok(SymbolParserState { goals, trail })
    }
}

/// Returns these goals, with the index 0 for each property. The only error is out of memory.
fn states_of<A: Allocator>(alloc: A, goals: &[Goal]) -> Result<Vec<Goal, A>, AllocError>
    ensures { IfOk result (λ states. states.items ≡ map goal_state goals.now) }
{
    let mut states = Vec::with_capacity(alloc, goals.len())?;
    for goal in goals {
        states.push(goal.state())?;
    }
    Ok(states)
}

/// Returns whether the two lists of goals are equal.
fn are_same_goals(one: &[Goal], other: &[Goal]) -> bool
    ensures { IsTrue result ↔ one.now ≡ other.now }
{
    one == other
}
