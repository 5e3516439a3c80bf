//! What the machines say of a row, and whether they say the same in two places.
use std::alloc::Allocator;
use yl_events::{Outline, Shape};
use yl_indentation::{Expectation, Fact};
use yl_marks::{KeyFacts, Symbol};
use yl_text::Finding;

/// What the machines say of a row, or of the end of a document.
#[derive(Drop)]
pub(crate) struct Told<A: Allocator> {
    /// The index of the row's first lexeme.
    pub(crate) first: usize,
    /// The line of the row.
    pub(crate) line: u32,
    /// The row's lexemes with their marks.
    pub(crate) symbols: Vec<Symbol, A>,
    /// The facts about keys of its lexemes.
    pub(crate) keys: Vec<KeyFacts, A>,
    /// The outlines of its events.
    pub(crate) outlines: Vec<Outline, A>,
    /// The indentation facts of the row.
    pub(crate) facts: Vec<Fact, A>,
    /// The findings of the rules on lexemes.
    pub(crate) findings: Vec<Finding<A>, A>,
}

/// Returns the distance of the lexeme of index `i` after the one of index `first`.
fn behind(i: u32, first: usize) -> usize {
    (i as usize).wrapping_sub(first)
}

/// Returns `true` if two symbols are equal, apart from the indices of the first lexemes of their
/// rows.
fn is_moved(one: Symbol, first: usize, other: Symbol, other_first: usize) -> bool {
    match (one, other) {
        (Symbol::OpenSequence(i), Symbol::OpenSequence(j))
        | (Symbol::OpenMapping(i), Symbol::OpenMapping(j))
        | (Symbol::BeginKey(i), Symbol::BeginKey(j)) => behind(i, first) == behind(j, other_first),
        (Symbol::One(kind, i), Symbol::One(other_kind, j)) => {
            kind == other_kind && behind(i, first) == behind(j, other_first)
        }
        (Symbol::Close, Symbol::Close) => true,
        _ => false,
    }
}

/// Returns `true` if two shapes are equal.
fn is_same_shape(one: Shape, other: Shape) -> bool {
    match (one, other) {
        (Shape::Scalar(style), Shape::Scalar(other_style)) => style == other_style,
        (Shape::DocumentStart, Shape::DocumentStart)
        | (Shape::DocumentEnd, Shape::DocumentEnd)
        | (Shape::SequenceStart, Shape::SequenceStart)
        | (Shape::SequenceEnd, Shape::SequenceEnd)
        | (Shape::MappingStart, Shape::MappingStart)
        | (Shape::MappingEnd, Shape::MappingEnd)
        | (Shape::Alias, Shape::Alias)
        | (Shape::Empty, Shape::Empty) => true,
        _ => false,
    }
}

/// Returns `true` if two lexemes have the same distance after the first lexemes of their rows, or
/// both are missing.
fn is_place_moved(one: Option<u32>, first: usize, other: Option<u32>, other_first: usize) -> bool {
    match (one, other) {
        (Some(i), Some(j)) => behind(i, first) == behind(j, other_first),
        (None, None) => true,
        _ => false,
    }
}

/// Returns `true` if two outlines are equal, apart from the indices of the first lexemes of their
/// rows and from the lexemes of their anchors.
fn is_outline_moved(one: &Outline, first: usize, other: &Outline, other_first: usize) -> bool {
    is_same_shape(one.kind, other.kind)
        && one.is_tagged == other.is_tagged
        && one.anchor.is_some() == other.anchor.is_some()
        && is_place_moved(one.place, first, other.place, other_first)
}

/// Returns `true` if two expectations are equal.
fn is_same_expectation(one: Expectation, other: Expectation) -> bool {
    match (one, other) {
        (Expectation::At(m), Expectation::At(n))
        | (Expectation::Beyond(m), Expectation::Beyond(n))
        | (Expectation::EntryIn(m), Expectation::EntryIn(n)) => m == n,
        _ => false,
    }
}

/// Returns `true` if two facts are equal, apart from the lines of their rows.
fn is_fact_moved(one: &Fact, line: u32, other: &Fact, other_line: u32) -> bool {
    one.line.wrapping_sub(line) == other.line.wrapping_sub(other_line)
        && one.column == other.column
        && is_same_expectation(one.expectation, other.expectation)
}

/// Returns `true` if two findings are equal, apart from the lines of their rows.
fn is_finding_moved<A: Allocator>(
    one: &Finding<A>,
    line: u32,
    other: &Finding<A>,
    other_line: u32,
) -> bool {
    one.line().wrapping_sub(u64::from(line)) == other.line().wrapping_sub(u64::from(other_line))
        && one.column() == other.column()
        && one.rule() == other.rule()
        && one.message() == other.message()
}

/// Returns `true` if two lists of findings are equal, apart from the lines of their rows.
pub(crate) fn are_findings_moved<A: Allocator>(
    one: &[Finding<A>],
    line: u32,
    other: &[Finding<A>],
    other_line: u32,
) -> bool {
    for (x, y) in one.iter().zip(other) {
        if !is_finding_moved(x, line, y, other_line) {
            return false;
        }
    }
    one.len() == other.len()
}

impl<A: Allocator> Told<A> {
    /// Returns `true` if the marks are equal, apart from the indices.
    fn has_same_marks(&self, other: &Told<A>) -> bool {
        for (x, y) in self.symbols.iter().zip(&other.symbols) {
            if !is_moved(*x, self.first, *y, other.first) {
                return false;
            }
        }
        self.symbols.len() == other.symbols.len()
    }

    /// Returns `true` if the outlines are equal, apart from the indices.
    fn has_same_outlines(&self, other: &Told<A>) -> bool {
        for (x, y) in self.outlines.iter().zip(&other.outlines) {
            if !is_outline_moved(x, self.first, y, other.first) {
                return false;
            }
        }
        self.outlines.len() == other.outlines.len()
    }

    /// Returns `true` if the indentation facts are equal, apart from the lines.
    fn has_same_facts(&self, other: &Told<A>) -> bool {
        for (x, y) in self.facts.iter().zip(&other.facts) {
            if !is_fact_moved(x, self.line, y, other.line) {
                return false;
            }
        }
        self.facts.len() == other.facts.len()
    }

    /// Returns `true` if both say the same, apart from the indices and the lines.
    pub(crate) fn is_same(&self, other: &Told<A>) -> bool {
        self.has_same_marks(other)
            && self.keys.as_slice() == other.keys.as_slice()
            && self.has_same_outlines(other)
            && self.has_same_facts(other)
            && are_findings_moved(&self.findings, self.line, &other.findings, other.line)
    }
}
