//! Decides whether facts have the same problems after earlier facts of either of two measures.
ghost use Rattle.std.specs.Prelude.{◌≡◌, true};
ghost use Rattle.yl_indentation.specs.declared.options.IndentationOptions.{IndentationOptions};
ghost use Rattle.yl_indentation.specs.Measures.{is_flush};
ghost use Rattle.yl_indentation.specs.Problems.{finding_at};
ghost use Rattle.yl_indentation.specs.Onward.{AreJudgedAlike};

use crate::fact::{Expectation, Fact};
use crate::measure::{Measure, is_same_step};

/// Returns `true` only if the same is found at a place, whether `one` or `other` is the measure of
/// the facts up to it. `false` implies nothing. The step that counts entries is the only one that
/// matters for an entry in a mapping. A measure without such an entry is judged like one whose
/// first entry stands outside the mapping's column.
fn is_judged_alike(fact: Fact, one: Measure, other: Measure) -> bool
    ensures { result ≡ true → (o : IndentationOptions)
        → finding_at o one (is_flush one) fact ≡ finding_at o other (is_flush other) fact }
{
    match fact.expectation {
        Expectation::At(_) => true,
        Expectation::Beyond(_) => {
            is_same_step(one.step, other.step)
                && is_same_step(one.step_with_entries, other.step_with_entries)
                && one.is_flush() == other.is_flush()
        }
        Expectation::EntryIn(_) => {
            let are_flush_alike = one.is_flush() == other.is_flush();
            is_same_step(one.step_with_entries, other.step_with_entries) && are_flush_alike
        }
    }
}

/// Returns `true` only if these facts have the same problems after earlier facts of either measure,
/// under any options. `false` implies nothing. Reads no further facts once both measures are the
/// same.
pub fn are_judged_alike(facts: &[Fact], one: Measure, other: Measure) -> bool
    ensures { result ≡ true → AreJudgedAlike one other facts.now }
{
    let mut one = one;
    let mut other = other;
    for fact in facts {
        if one.is_same(other) {
            return true;
        }
        let at = Measure::at(*fact);
        one = one.and_later(at);
        other = other.and_later(at);
        if !is_judged_alike(*fact, one, other) {
            return false;
        }
    }
    true
}
