//! What the rules on lexemes know of the lexemes before a row.
ghost use Rattle.yl_lexeme_rules.specs.LexemesAlike.{LexemesAreJudgedAlike};

use yl_lexeme::Kind;

/// What `LexemeRules` know of the lexemes before a row, without lines: the kind of the latest one,
/// whether a directive declares the document to be one of YAML 1.2, and whether all lexemes are
/// directives.
#[derive(Clone, Copy)]
pub struct LexemeRulesState {
    /// The kind of the latest lexeme, if there is one.
    pub(crate) latest: Option<Kind>,
    /// Whether a directive declares the document to be one of YAML 1.2.
    pub(crate) is_1_2: bool,
    /// Whether all lexemes so far are directives.
    pub(crate) in_directives: bool,
}

impl LexemeRulesState {
    ghost use Rattle.std.specs.Prelude.{◌≡◌, true, IsTrue};
    ghost use Rattle.yl_lexeme_rules.specs.LexemesAlike.{is_settled};

    /// Returns whether two states are equal.
    pub fn is_same(self, other: LexemeRulesState) -> bool
        ensures only_same { IsTrue result → self ≡ other }
        ensures same { self ≡ other → result ≡ true }
    {
        self.latest == other.latest
            && self.is_1_2 == other.is_1_2
            && self.in_directives == other.in_directives
    }

    /// Returns whether the latest lexeme is neither `[` nor `{`. Then the problems at it do not
    /// depend on later rows.
    pub fn is_settled(self) -> bool
        ensures { result ≡ is_settled self }
    {
        match self.latest {
            None => true,
            Some(kind) => !kind.is_opening(),
        }
    }
}

/// A law: what the rules on lexemes find in rows is the same after lexemes of one state, whatever
/// the line in which the rows begin, and moves with that line.
pub fn lexemes_are_judged_alike()
    ensures { LexemesAreJudgedAlike }
{}
