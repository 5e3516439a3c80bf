//! Compares the summaries of two sections.
ghost use Rattle.std.specs.Prelude.{◌≡◌, true};
ghost use Rattle.std.specs.Option.{option_map};
ghost use Rattle.yl_sections.specs.Owned.{section_fault_value};

use crate::fault::SectionFault;
use crate::kept::{Kept, KeptComment};
use std::alloc::Allocator;
use yl_indentation::{Expectation, Fact};
use yl_text::Finding;

/// Returns `true` only if the two findings are equal.
fn is_same_finding<A: Allocator>(one: &Finding<A>, other: &Finding<A>) -> bool
    ensures { result ≡ true → one.now ≡ other.now }
{
    one.line() == other.line()
        && one.column() == other.column()
        && one.rule() == other.rule()
        && one.message() == other.message()
}

/// Returns `true` only if the two lists of findings are equal.
pub fn are_same_findings<A: Allocator>(one: &[Finding<A>], other: &[Finding<A>]) -> bool
    ensures { result ≡ true → one.now ≡ other.now }
{
    if one.len() != other.len() {
        return false;
    }
    for i in 0..one.len() {
        if !is_same_finding(&one[i], &other[i]) {
            return false;
        }
    }
    true
}

/// Returns `true` only if the two expectations are equal.
fn is_same_expectation(one: Expectation, other: Expectation) -> bool
    ensures { result ≡ true → one ≡ other }
{
    match (one, other) {
        (Expectation::At(m), Expectation::At(n)) => m == n,
        (Expectation::Beyond(m), Expectation::Beyond(n)) => m == n,
        (Expectation::EntryIn(m), Expectation::EntryIn(n)) => m == n,
        _ => false,
    }
}

/// Returns `true` only if the two facts are equal.
fn is_same_fact(one: Fact, other: Fact) -> bool
    ensures { result ≡ true → one ≡ other }
{
    one.line == other.line
        && one.column == other.column
        && is_same_expectation(one.expectation, other.expectation)
}

/// Returns `true` only if the two lists of facts are equal.
fn are_same_facts(one: &[Fact], other: &[Fact]) -> bool
    ensures { result ≡ true → one.now ≡ other.now }
{
    if one.len() != other.len() {
        return false;
    }
    for i in 0..one.len() {
        if !is_same_fact(one[i], other[i]) {
            return false;
        }
    }
    true
}

/// Returns `true` only if the two columns are equal, or both are missing.
fn is_same_column(one: Option<u32>, other: Option<u32>) -> bool
    ensures { result ≡ true → one ≡ other }
{
    match (one, other) {
        (None, None) => true,
        (Some(m), Some(n)) => m == n,
        _ => false,
    }
}

/// Returns `true` only if the two comments are equal.
fn is_same_comment<A: Allocator>(one: &KeptComment<A>, other: &KeptComment<A>) -> bool
    ensures { result ≡ true → one.now ≡ other.now }
{
    one.line() == other.line()
        && one.col() == other.col()
        && is_same_column(one.behind(), other.behind())
        && one.text() == other.text()
}

/// Returns `true` only if the two lists of comments are equal.
fn are_same_comments<A: Allocator>(one: &[KeptComment<A>], other: &[KeptComment<A>]) -> bool
    ensures { result ≡ true → one.now ≡ other.now }
{
    if one.len() != other.len() {
        return false;
    }
    for i in 0..one.len() {
        if !is_same_comment(&one[i], &other[i]) {
            return false;
        }
    }
    true
}

/// Returns `true` only if the two faults are equal, or both are missing.
fn is_same_fault(one: Option<SectionFault>, other: Option<SectionFault>) -> bool
    ensures { result ≡ true → option_map section_fault_value one ≡ option_map section_fault_value other }
{
    match (one, other) {
        (None, None) => true,
        (Some(SectionFault::Behind(s)), Some(SectionFault::Behind(t))) => s == t,
        (Some(SectionFault::Here(p, s)), Some(SectionFault::Here(q, t))) => {
            p.line == q.line && p.col == q.col && s == t
        }
        _ => false,
    }
}

impl<A: Allocator> Kept<A> {
    ghost use Rattle.std.specs.Prelude.{◌≡◌, true};

    /// Returns `true` only if the two summaries are equal.
    pub fn is_same(&self, other: &Kept<A>) -> bool
        ensures { result ≡ true → self.now ≡ other.now }
    {
        self.rows() == other.rows()
            && self.first() == other.first()
            && are_same_findings(self.found(), other.found())
            && are_same_facts(self.facts(), other.facts())
            && are_same_comments(self.comments(), other.comments())
            && is_same_fault(self.fault(), other.fault())
            && are_same_findings(self.hidden(), other.hidden())
            && is_same_fault(self.parse_fault(), other.parse_fault())
    }
}
