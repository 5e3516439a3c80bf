//! What the facts of a text decide for the whole text.
ghost use Rattle.std.specs.Prelude.{◌≡◌, ◌-◌, true};
ghost use Rattle.std.specs.Option.{option_or};
ghost use Rattle.yl_indentation.specs.Measures.{empty_measure, and_later, positive_step, measure_at, measure_of, is_flush};

use crate::fact::{Expectation, Fact};

/// What facts decide: the first step, which is the width of an indentation if the option `spaces`
/// is `consistent`, and the indentation of sequences in mappings. `and_later` joins the measures of
/// documents to that of a text. Steps are in characters.
#[derive(Clone, Copy)]
pub struct Measure {
    /// The first positive distance of a lexeme from its base, without entries in mappings.
    pub step: Option<u32>,
    /// The first positive distance of a lexeme from its base, including entries in mappings.
    pub step_with_entries: Option<u32>,
    /// Whether the first entry in a mapping stands in the mapping's column. `None` if there is no
    /// such entry.
    pub flush: Option<bool>,
}

/// Returns the earlier value, or the later one if there is no earlier one.
fn first<T: Copy>(earlier: Option<T>, later: Option<T>) -> Option<T>
    ensures { result ≡ option_or earlier later }
{
    match earlier {
        None => later,
        Some(_) => earlier,
    }
}

/// Returns the number of characters from `base` to `column`, or `None` if `column` is not beyond
/// `base`.
fn positive_step(column: u32, base: u32) -> Option<u32>
    ensures { result ≡ positive_step (column - base) }
{
    if column > base {
        Some(column - base)
    } else {
        None
    }
}

/// Returns `true` only if two steps are equal, or both are missing.
pub(crate) fn is_same_step(one: Option<u32>, other: Option<u32>) -> bool
    ensures { result ≡ true → one ≡ other }
{
    match (one, other) {
        (None, None) => true,
        (Some(m), Some(n)) => m == n,
        _ => false,
    }
}

/// Returns `true` only if both values are equal, or both are missing.
pub(crate) fn is_same_flush(one: Option<bool>, other: Option<bool>) -> bool
    ensures { result ≡ true → one ≡ other }
{
    match (one, other) {
        (None, None) => true,
        (Some(m), Some(n)) => m == n,
        _ => false,
    }
}

impl Measure {
    /// Returns the measure of no facts.
    pub fn empty() -> Measure
        ensures { result ≡ empty_measure }
    {
        Measure {
            step: None,
            step_with_entries: None,
            flush: None,
        }
    }

    /// Returns the measure of one fact.
    pub(crate) fn at(fact: Fact) -> Measure
        ensures { result ≡ measure_at fact.column fact.expectation }
    {
        match fact.expectation {
            Expectation::At(_) => Measure::empty(),
            Expectation::Beyond(base) => {
                let step = positive_step(fact.column, base);
                Measure {
                    step,
                    step_with_entries: step,
                    flush: None,
                }
            }
            Expectation::EntryIn(base) => Measure {
                step: None,
                step_with_entries: positive_step(fact.column, base),
                flush: Some(fact.column == base),
            },
        }
    }

    /// Returns the measure of earlier facts, which have the measure `self`, followed by later ones.
    pub fn and_later(self, later: Measure) -> Measure
        ensures { result ≡ and_later self later }
    {
        Measure {
            step: first(self.step, later.step),
            step_with_entries: first(self.step_with_entries, later.step_with_entries),
            flush: first(self.flush, later.flush),
        }
    }

    /// Returns whether the first entry in a mapping stands in the mapping's column. Returns `false`
    /// if there is no such entry.
    pub(crate) fn is_flush(self) -> bool
        ensures { result ≡ is_flush self }
    {
        match self.flush {
            None => false,
            Some(flush) => flush,
        }
    }

    /// Returns `true` only if two measures are equal.
    pub fn is_same(self, other: Measure) -> bool
        ensures { result ≡ true → self ≡ other }
    {
        is_same_step(self.step, other.step)
            && is_same_step(self.step_with_entries, other.step_with_entries)
            && is_same_flush(self.flush, other.flush)
    }

    /// Returns the measure of these facts.
    pub fn of(facts: &[Fact]) -> Measure
        ensures { result ≡ measure_of facts.now }
    {
        let mut measure = Measure::empty();
        for fact in facts {
            measure = measure.and_later(Measure::at(*fact));
        }
        measure
    }
}
