//! The checked places of a document, and what is expected there.
ghost use Rattle.std.specs.Prelude.{◌≡◌, ◌↔◌, IsTrue};

/// Where a lexeme is expected. Columns count from 0 in characters.
#[derive(Clone, Copy)]
pub enum Expectation {
    /// At this column.
    At(u32),
    /// Beyond this column, by the width of an indentation.
    Beyond(u32),
    /// As the option `indent-sequences` says, for the first entry of a sequence in a mapping of
    /// this column.
    EntryIn(u32),
}

impl Expectation {
    /// Returns whether the expectations are the same.
    pub(crate) fn is_same(self, other: Expectation) -> bool
        ensures { IsTrue result ↔ (self ≡ other) }
    {
        match (self, other) {
            (Expectation::At(m), Expectation::At(n)) => m == n,
            (Expectation::Beyond(m), Expectation::Beyond(n)) => m == n,
            (Expectation::EntryIn(m), Expectation::EntryIn(n)) => m == n,
            _ => false,
        }
    }
}

/// A checked place: the first lexeme of a line, and where it is expected.
#[derive(Clone, Copy)]
pub struct Fact {
    /// Its line, counted from 0 as the lines of the lexemes are.
    pub line: u32,
    /// The column in which the lexeme begins, from 0 in characters.
    pub column: u32,
    /// Where the lexeme is expected.
    pub expectation: Expectation,
}
