//! The rules on lexemes, row by row, with what they know of directives.
ghost use Rattle.std.specs.Prelude.{◌≡◌, ◌≤◌, ◌++◌, ◌&&◌, [], not, true, false, Bool, List, IsTrue, length, map, take, OnOk};
ghost use Rattle.yl_lexeme.specs.Lexeme.{LexemeValue};
ghost use Rattle.yl_marks.specs.declared.facts.KeyFacts.{KeyFacts};
ghost use Rattle.yl_marks.specs.Keys.{lexeme_at_line};
ghost use Rattle.yl_lexeme_rules.specs.LexemesAlike as alike;
ghost use Rattle.yl_lexeme_rules.specs.LexemesAlike.{after_lexemes, is_settled, lexemes_state};
ghost use Rattle.yl_lexeme_rules.specs.LexemesLeft.{IsVersion, lexemes_left, none_read};
ghost use Rattle.yl_sections.specs.Directives.{are_directives};

use std::alloc::{AllocError, Allocator};
use std::marker::Model;
use yl_lexeme::{Kind, Lexeme};
use yl_lexeme_rules::{LexemeOptions, LexemeRules, LexemeRulesState};
use yl_marks::{KeyFacts, RowLexemes};
use yl_text::Finding;

/// Returns whether all lexemes are directives.
fn are_directives<A: Allocator>(lexemes: &[Lexeme<A>]) -> bool
    ensures { result ≡ are_directives lexemes.now }
{
    for lexeme in lexemes {
        if !matches!(lexeme.kind(), Kind::Directive) {
            return false;
        }
    }
    true
}

/// Returns whether all lexemes are directives, if those before them are.
fn still_directives<A: Allocator>(before: bool, lexemes: &[Lexeme<A>]) -> bool
    ensures { result ≡ (before && are_directives lexemes.now) }
{
    before && are_directives(lexemes)
}

/// Appends the findings of the rules on lexemes in the first `count` lexemes of a row, as if no
/// lexeme followed them. The only error is out of memory.
#[inline(never)]
fn find_before<A: Allocator + Copy>(
    options: &LexemeOptions,
    row: &RowLexemes<'_, A>,
    keys: &[KeyFacts],
    count: usize,
    rules: &mut LexemeRules,
    found: &mut Vec<Finding<A>, A>,
) -> Result<(), AllocError>
    requires keys { length keys.now ≡ length row.now.lexemes.now }
    requires count { count ≤ length row.now.lexemes.now }
    ensures { (v : Bool) (rest : List LexemeValue)
        → IsVersion v rules.old (map (lexeme_at_line row.now.line) row.now.lexemes.now ++ rest)
        → OnOk result (found.new.items
        ≡ found.old.items ++ lexemes_left v options.now rules.old (take count (map (lexeme_at_line row.now.line) row.now.lexemes.now)) (take count keys.now)) }
{
    let (lexemes, _) = row.lexemes.split_at(count);
    let (keys, _) = keys.split_at(count);
    let before = RowLexemes {
        line: row.line,
        lexemes,
    };
    rules.read_row(options, &before, keys, found)?;
    rules.finish(options, found)
}

/// What the rules on lexemes know of the lexemes before a row.
#[derive(Drop)]
pub struct RulesState {
    /// What the rules know.
    state: LexemeRulesState,
    /// Whether they know that all lexemes are directives.
    in_directives: bool,
}

impl Model for RulesState {
    ghost use Rattle.std.specs.Prelude.{◌≡◌};
    ghost use Rattle.yl_lexeme_rules.specs.declared.state.LexemeRulesState.{LexemeRulesState};

    ghost Value = { LexemeRulesState };

    ghost view = { λ s. s.state };

    ghost invariant = { λ s. s.in_directives ≡ s.state.in_directives };
}

impl RulesState {
    /// Returns whether two states are equal.
    pub fn is_same(&self, other: &RulesState) -> bool
        ensures same { IsTrue result → self.now ≡ other.now }
        ensures alike { self.now ≡ other.now → result ≡ true }
    {
        self.state.is_same(other.state)
    }

    /// Returns whether the latest lexeme is no opening bracket, and the directives have ended.
    pub fn is_border(&self) -> bool
        ensures { result ≡ (is_settled self.now && not self.now.in_directives) }
    {
        self.state.is_settled() && !self.in_directives
    }
}

/// The rules on lexemes, which read a run of rows.
#[derive(Drop)]
pub struct RowRules {
    /// The rules.
    rules: LexemeRules,
    /// Whether all lexemes so far are directives.
    in_directives: bool,
}

impl Model for RowRules {
    ghost use Rattle.std.specs.Prelude.{◌≡◌};
    ghost use Rattle.yl_lexeme_rules.specs.LexemesLeft.{LexemesRead};

    ghost Value = { LexemesRead };

    ghost view = { λ r. r.rules };

    ghost invariant = { λ r. r.in_directives ≡ r.rules.in_directives };
}

impl RowRules {
    /// Creates rules at the start of a document.
    pub fn new() -> RowRules
        ensures { result ≡ none_read }
    {
        RowRules {
            rules: LexemeRules::new(),
            in_directives: true,
        }
    }

    /// Creates rules that go on from a state. The rows that are read then are in line 1 or later.
    pub fn resume(state: &RulesState) -> RowRules
        ensures state { lexemes_state result ≡ state.now }
        ensures above { alike.IsAbove 1 result }
        ensures none { result.waits ≡ false }
    {
        RowRules {
            rules: LexemeRules::resume(state.state),
            in_directives: state.in_directives,
        }
    }

    /// Returns what is known of the lexemes so far, without lines.
    pub fn state(&self) -> RulesState
        ensures { result ≡ lexemes_state self.now }
    {
        RulesState {
            state: self.rules.state(),
            in_directives: self.in_directives,
        }
    }

    /// Reads the lexemes of the next row, and appends what the rules find. The only error is out of
    /// memory. After an error the rules must not be used.
    pub fn read_row<A: Allocator + Copy>(
        &mut self,
        options: &LexemeOptions,
        row: &RowLexemes<'_, A>,
        keys: &[KeyFacts],
        problems: &mut Vec<Finding<A>, A>,
    ) -> Result<(), AllocError>
        requires { length keys.now ≡ length row.now.lexemes.now }
        ensures found { (v : Bool) (rest later : List LexemeValue) (ks : List KeyFacts)
            → IsVersion v self.old (map (lexeme_at_line row.now.line) row.now.lexemes.now ++ rest)
            → OnOk result (problems.new.items ++ lexemes_left v options.now self.new later ks
            ≡ problems.old.items ++ lexemes_left v options.now self.old
            (map (lexeme_at_line row.now.line) row.now.lexemes.now ++ later) (keys.now ++ ks)) }
        ensures version { (v : Bool) (rest : List LexemeValue)
            → IsVersion v self.old (map (lexeme_at_line row.now.line) row.now.lexemes.now ++ rest)
            → OnOk result (IsVersion v self.new rest) }
        ensures read { OnOk result (self.new
            ≡ after_lexemes self.old (map (lexeme_at_line row.now.line) row.now.lexemes.now)) }
    {
        let in_directives = still_directives(self.in_directives, row.lexemes);
        match self.rules.read_row(options, row, keys, problems) {
            Ok(()) => {
                self.in_directives = in_directives;
                Ok(())
            }
            Err(e) => {
                *self = RowRules::new();
                Err(e)
            }
        }
    }

    /// Appends what the rules find in the first `count` lexemes of a row, as if no lexeme followed
    /// them. The only error is out of memory. The rules must not be used after it.
    pub fn find_before<A: Allocator + Copy>(
        &mut self,
        options: &LexemeOptions,
        row: &RowLexemes<'_, A>,
        keys: &[KeyFacts],
        count: usize,
        problems: &mut Vec<Finding<A>, A>,
    ) -> Result<(), AllocError>
        requires keys { length keys.now ≡ length row.now.lexemes.now }
        requires count { count ≤ length row.now.lexemes.now }
        ensures { (v : Bool) (rest : List LexemeValue)
            → IsVersion v self.old (map (lexeme_at_line row.now.line) row.now.lexemes.now ++ rest)
            → OnOk result (problems.new.items
            ≡ problems.old.items ++ lexemes_left v options.now self.old (take count (map (lexeme_at_line row.now.line) row.now.lexemes.now)) (take count keys.now)) }
    {
        let found = find_before(options, row, keys, count, &mut self.rules, problems);
        *self = RowRules::new();
        found
    }

    /// Appends what is still to be found, if no other lexeme comes. The only error is out of
    /// memory.
    pub fn finish<A: Allocator>(
        &self,
        options: &LexemeOptions,
        problems: &mut Vec<Finding<A>, A>,
    ) -> Result<(), AllocError>
        ensures { (v : Bool) (ks : List KeyFacts) → OnOk result (problems.new.items
            ≡ problems.old.items ++ lexemes_left v options.now self.now [] ks) }
    {
        self.rules.finish(options, problems)
    }
}
