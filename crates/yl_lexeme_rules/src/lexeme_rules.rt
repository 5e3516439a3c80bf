//! The rules on lexemes, which read the lexemes of a document part by part.
ghost use Rattle.std.specs.Prelude.{◌≡◌, ◌++◌, OnOk};
ghost use Rattle.yl_lexeme_rules.specs.DocumentStart.{document_start};
ghost use Rattle.yl_lexeme_rules.specs.Kinds.{indicator_findings, is_indicator};
ghost use Rattle.yl_lexeme_rules.specs.Lexemes.{value_findings};
ghost use Rattle.yl_lexeme_rules.specs.LexemesLeft.{findings_at_indicator};

use crate::brackets::{Flow, push_brackets};
use crate::colons::push_colons;
use crate::commas::push_commas;
use crate::document_start::push_document_start;
use crate::hyphens::push_hyphens;
use crate::options::LexemeOptions;
use crate::quoted_strings::push_quoted_strings;
use crate::span::{Place, Span, span_of};
use crate::state::LexemeRulesState;
use crate::truthy::push_truthy;
use std::alloc::{AllocError, Allocator};
use std::marker::Model;
use yl_lexeme::{Kind, LexemeAtLine};
use yl_marks::{KeyFacts, RowLexemes};
use yl_text::{Finding, Pos};

/// Returns whether the rules on indicators may find something at a lexeme of this kind.
fn is_indicator(kind: Kind) -> bool
    ensures { result ≡ is_indicator kind }
{
    matches!(
        kind,
        Kind::MapOpen
            | Kind::MapClose
            | Kind::SeqOpen
            | Kind::SeqClose
            | Kind::Comma
            | Kind::Value
            | Kind::Key
            | Kind::Entry
    )
}

/// Appends the problems that the rules on indicators find at a lexeme between its neighbours. At
/// each kind of lexeme at most one of these rules finds something. The only error is out of memory.
fn push_by_kind<A: Allocator>(
    problems: &mut Vec<Finding<A>, A>,
    options: &LexemeOptions,
    place: &Place,
) -> Result<(), AllocError>
    ensures { OnOk result (problems.new.items ≡ problems.old.items
        ++ indicator_findings place.now.here.kind options.now place.now.before place.now.here place.now.after) }
{
    match place.here.kind {
        Kind::MapOpen | Kind::MapClose => {
            push_brackets(problems, Flow::Mapping, &options.braces, place)
        }
        Kind::SeqOpen | Kind::SeqClose => {
            push_brackets(problems, Flow::Sequence, &options.brackets, place)
        }
        Kind::Comma => push_commas(problems, &options.commas, place),
        Kind::Value | Kind::Key => push_colons(problems, &options.colons, place),
        Kind::Entry => push_hyphens(problems, &options.hyphens, place),
        Kind::Directive
        | Kind::DocStart
        | Kind::DocEnd
        | Kind::Alias
        | Kind::Anchor
        | Kind::Tag
        | Kind::Scalar(_) => Ok(()),
    }
}

/// Appends all problems at an indicator between its neighbours. The only error is out of memory.
fn push_at_indicator<A: Allocator>(
    problems: &mut Vec<Finding<A>, A>,
    options: &LexemeOptions,
    place: &Place,
) -> Result<(), AllocError>
    ensures { OnOk result (problems.new.items ≡ problems.old.items
        ++ findings_at_indicator options.now place.now.before place.now.here place.now.after) }
{
    push_by_kind(problems, options, place)?;
    push_document_start(
        problems,
        &options.document_start,
        &place.before,
        &place.here,
    )?;
    Ok(())
}

/// Appends the problems that the rules on values find at a lexeme. `is_1_2` says whether a
/// directive declares the document to be one of YAML 1.2. The only error is out of memory.
fn push_values<A: Allocator + Copy>(
    problems: &mut Vec<Finding<A>, A>,
    is_1_2: bool,
    options: &LexemeOptions,
    x: &Span,
    value: &str,
    key: KeyFacts,
) -> Result<(), AllocError>
    ensures { OnOk result (problems.new.items
        ≡ problems.old.items ++ value_findings is_1_2 options.now x.now value.now key) }
{
    push_truthy(problems, is_1_2, &options.truthy, x, value, key)?;
    push_quoted_strings(problems, &options.quoted_strings, x, value, key)?;
    Ok(())
}

/// A reader that takes the lexemes of a document part by part and finds the problems of the rules
/// on lexemes. The problems at a bracket, a comma, a `:`, a `?` or a `-` are appended only when the
/// next lexeme is read, or at the end.
#[derive(Drop)]
pub struct LexemeRules {
    /// The latest lexeme.
    latest: Option<Span>,
    /// The lexeme before the latest one.
    earlier: Option<Span>,
    /// Whether the problems at the latest lexeme are still to be appended.
    waits: bool,
    /// Whether a directive declares the document to be one of YAML 1.2.
    is_1_2: bool,
    /// Whether all lexemes so far are directives.
    in_directives: bool,
}

impl Model for LexemeRules {
    ghost use Rattle.yl_lexeme_rules.specs.LexemesLeft.{LexemesRead};

    ghost Value = { LexemesRead };

    ghost view = { λ r. record {
      latest = r.latest;
      earlier = r.earlier;
      waits = r.waits;
      is_1_2 = r.is_1_2;
      in_directives = r.in_directives;
    } };
}

impl LexemeRules {
    ghost use Rattle.std.specs.Prelude.{◌≡◌, ◌++◌, ◌∷◌, ◌&&◌, ◌||◌, Bool, List, [], false, length, map, Some, None, OnOk};
    ghost use Rattle.yl_lexeme.specs.Lexeme.{LexemeValue};
    ghost use Rattle.yl_lexeme.specs.Version.{is_yaml_1_2};
    ghost use Rattle.yl_lexeme.specs.Directives.{is_directive};
    ghost use Rattle.yl_marks.specs.declared.facts.KeyFacts.{KeyFacts};
    ghost use Rattle.yl_marks.specs.Keys.{lexeme_at_line};
    ghost use Rattle.yl_lexeme_rules.specs.Lexemes.{findings_behind};
    ghost use Rattle.yl_lexeme_rules.specs.LexemesAlike.{IsAbove, after_lexemes, lexemes_state};
    ghost use Rattle.yl_lexeme_rules.specs.LexemesLeft.{after_lexeme, findings_told, findings_waiting, lexemes_left, none_read, IsVersion};
    ghost use Rattle.yl_lexeme_rules.specs.Spans.{span_of};
    ghost use Rattle.yl_lexeme_rules.specs.Version.{is_1_2_document};
    ghost use Rattle.yl_lexeme_rules.specs.declared.options.LexemeOptions.{LexemeOptions};

    /// Creates a reader at the start of a document.
    pub fn new() -> LexemeRules
        ensures start { result ≡ none_read }
        ensures version { (xs : List LexemeValue) → IsVersion (is_1_2_document xs) result xs }
        ensures whole { (o : LexemeOptions) (v : Bool) (xs : List LexemeValue) (ks : List KeyFacts)
            → lexemes_left v o result xs ks ≡ findings_behind v o None xs ks }
    {
        LexemeRules {
            latest: None,
            earlier: None,
            waits: false,
            is_1_2: false,
            in_directives: true,
        }
    }

    /// Creates a reader before a row, from what is known of the lexemes before that row. Rows that
    /// are read then are in line 1 or later, since the latest lexeme is put into line 0. No problem
    /// is still to be appended.
    pub fn resume(state: LexemeRulesState) -> LexemeRules
        ensures state { lexemes_state result ≡ state }
        ensures above { IsAbove 1 result }
        ensures none { result.waits ≡ false }
    {
        let latest = match state.latest {
            None => None,
            Some(kind) => Some(Span {
                kind,
                start: Pos { line: 0, col: 0 },
                end_line: 0,
                end_col: 0,
            }),
        };
        LexemeRules {
            latest,
            earlier: None,
            waits: false,
            is_1_2: state.is_1_2,
            in_directives: state.in_directives,
        }
    }

    /// Returns what is known of the lexemes so far, without lines.
    pub fn state(&self) -> LexemeRulesState
        ensures { result ≡ lexemes_state self.now }
    {
        let latest = match self.latest {
            None => None,
            Some(x) => Some(x.kind),
        };
        LexemeRulesState {
            latest,
            is_1_2: self.is_1_2,
            in_directives: self.in_directives,
        }
    }

    /// Appends the problems at the latest lexeme that are still to be appended. `after` is the next
    /// lexeme, or `None` at the end. The only error is out of memory.
    fn tell_waiting<A: Allocator>(
        &self,
        options: &LexemeOptions,
        after: Option<Span>,
        problems: &mut Vec<Finding<A>, A>,
    ) -> Result<(), AllocError>
        ensures { OnOk result (problems.new.items
            ≡ problems.old.items ++ findings_waiting options.now self.now after) }
    {
        if !self.waits {
            return Ok(());
        }
        let Some(here) = self.latest else {
            return Ok(());
        };
        let place = Place {
            before: self.earlier,
            here,
            after,
        };
        push_at_indicator(problems, options, &place)
    }

    /// Appends the problems at the next lexeme. Appends none if it is an indicator, since the
    /// problems there may depend on the lexeme after it. The only error is out of memory.
    fn tell_next<A: Allocator + Copy>(
        &self,
        options: &LexemeOptions,
        here: &Span,
        value: &str,
        key: KeyFacts,
        problems: &mut Vec<Finding<A>, A>,
    ) -> Result<(), AllocError>
        ensures { OnOk result (problems.new.items ≡ problems.old.items
            ++ findings_told self.now.is_1_2 options.now self.now.latest here.now value.now key) }
    {
        if is_indicator(here.kind) {
            return Ok(());
        }
        push_document_start(problems, &options.document_start, &self.latest, here)?;
        push_values(problems, self.is_1_2, options, here, value, key)?;
        Ok(())
    }

    /// Stores the next lexeme as the latest one.
    fn keep<A: Allocator>(&mut self, here: Span, at: &LexemeAtLine<'_, A>)
        requires { here ≡ span_of (lexeme_at_line at.now.line at.now.lexeme.now) }
        ensures { self.new ≡ after_lexeme self.old (lexeme_at_line at.now.line at.now.lexeme.now) }
    {
        self.is_1_2 = self.is_1_2 || (self.in_directives && at.lexeme.is_yaml_1_2());
        self.in_directives = self.in_directives && matches!(here.kind, Kind::Directive);
        self.earlier = self.latest;
        self.latest = Some(here);
        self.waits = is_indicator(here.kind);
    }

    /// Reads the next lexeme and appends problems. The only error is out of memory.
    fn read_lexeme<A: Allocator + Copy>(
        &mut self,
        options: &LexemeOptions,
        at: &LexemeAtLine<'_, A>,
        key: KeyFacts,
        problems: &mut Vec<Finding<A>, A>,
    ) -> Result<(), AllocError>
        ensures read { OnOk result (self.new
            ≡ after_lexeme self.old (lexeme_at_line at.now.line at.now.lexeme.now)) }
        ensures told { let x = lexeme_at_line at.now.line at.now.lexeme.now in OnOk result (problems.new.items
            ≡ problems.old.items ++ findings_waiting options.now self.old (Some (span_of x))
            ++ findings_told self.old.is_1_2 options.now self.old.latest (span_of x) x.value key) }
    {
        let here = span_of(at);
        self.tell_waiting(options, Some(here), problems)?;
        self.tell_next(options, &here, at.lexeme.value(), key, problems)?;
        self.keep(here, at);
        Ok(())
    }

    /// Reads the next lexemes of the document, which are those of a row, and appends the problems
    /// that the rules find, lexeme by lexeme. `keys` contains the facts that the keys of the
    /// document decide about each of these lexemes. Lexemes that do not count, such as those from a
    /// fault on, must not be read. Lines and columns of problems count from 1, columns in
    /// characters. Line 1 of a problem is line 0 of the lexemes. Allocates only for the problems.
    /// The only error is out of memory. After an error the reader must not be used.
    pub fn read_row<A: Allocator + Copy>(
        &mut self,
        options: &LexemeOptions,
        row: &RowLexemes<'_, A>,
        keys: &[KeyFacts],
        problems: &mut Vec<Finding<A>, A>,
    ) -> Result<(), AllocError>
        requires { length keys.now ≡ length row.now.lexemes.now }
        ensures found { (v : Bool) (rest later : List LexemeValue) (ks : List KeyFacts)
            → IsVersion v self.old (map (lexeme_at_line row.now.line) row.now.lexemes.now ++ rest)
            → OnOk result (problems.new.items ++ lexemes_left v options.now self.new later ks
            ≡ problems.old.items ++ lexemes_left v options.now self.old
            (map (lexeme_at_line row.now.line) row.now.lexemes.now ++ later) (keys.now ++ ks)) }
        ensures version { (v : Bool) (rest : List LexemeValue)
            → IsVersion v self.old (map (lexeme_at_line row.now.line) row.now.lexemes.now ++ rest)
            → OnOk result (IsVersion v self.new rest) }
        ensures read { OnOk result (self.new
            ≡ after_lexemes self.old (map (lexeme_at_line row.now.line) row.now.lexemes.now)) }
    {
        let line = row.line;
        for (i, lexeme) in row.lexemes.iter().enumerate() {
            let at = LexemeAtLine { line, lexeme };
            self.read_lexeme(options, &at, keys[i], problems)?;
        }
        Ok(())
    }

    /// Reads the next lexemes of the document, which may be in any lines, in the same way as
    /// `read_row`. The only error is out of memory.
    pub(crate) fn read_all<A: Allocator + Copy>(
        &mut self,
        options: &LexemeOptions,
        lexemes: &[LexemeAtLine<'_, A>],
        keys: &[KeyFacts],
        problems: &mut Vec<Finding<A>, A>,
    ) -> Result<(), AllocError>
        requires { length keys.now ≡ length lexemes.now }
        ensures found { (v : Bool) (rest later : List LexemeValue) (ks : List KeyFacts)
            → IsVersion v self.old (map (λ x. lexeme_at_line x.line x.lexeme.now) lexemes.now ++ rest)
            → OnOk result (problems.new.items ++ lexemes_left v options.now self.new later ks
            ≡ problems.old.items ++ lexemes_left v options.now self.old
            (map (λ x. lexeme_at_line x.line x.lexeme.now) lexemes.now ++ later) (keys.now ++ ks)) }
        ensures version { (v : Bool) (rest : List LexemeValue)
            → IsVersion v self.old (map (λ x. lexeme_at_line x.line x.lexeme.now) lexemes.now ++ rest)
            → OnOk result (IsVersion v self.new rest) }
    {
        for (i, at) in lexemes.iter().enumerate() {
            self.read_lexeme(options, at, keys[i], problems)?;
        }
        Ok(())
    }

    /// Appends the problems at the latest lexeme that are still to be appended, as if no lexeme
    /// followed it. If the state is settled, a lexeme in a later row does not change them. The only
    /// error is out of memory. After an error the reader must not be used.
    pub fn settle<A: Allocator>(
        &mut self,
        options: &LexemeOptions,
        problems: &mut Vec<Finding<A>, A>,
    ) -> Result<(), AllocError>
        ensures found { OnOk result (problems.new.items
            ≡ problems.old.items ++ findings_waiting options.now self.old None) }
        ensures settled { OnOk result (self.new ≡ record self.old { waits = false }) }
    {
        self.tell_waiting(options, None, problems)?;
        self.waits = false;
        Ok(())
    }

    /// Appends the problems that are still to be appended, if no other lexeme of the document
    /// counts. The only error is out of memory.
    pub fn finish<A: Allocator>(
        &self,
        options: &LexemeOptions,
        problems: &mut Vec<Finding<A>, A>,
    ) -> Result<(), AllocError>
        ensures { (v : Bool) (ks : List KeyFacts) → OnOk result (problems.new.items
            ≡ problems.old.items ++ lexemes_left v options.now self.now [] ks) }
    {
        self.tell_waiting(options, None, problems)
    }
}
