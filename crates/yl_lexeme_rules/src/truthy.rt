//! The rule `truthy`.
ghost use Rattle.std.specs.Prelude.{◌≡◌, not, ◌||◌, ◌++◌, ◌+◌, ◌<◌, ◌^◌, false, Some, OnOk, bytes_eq, slice_index_or};
ghost use Rattle.std.specs.List.{list_any};
ghost use Rattle.std.specs.Option.{option_map_or};
ghost use Rattle.yl_text.specs.Finding.{one_finding};
ghost use Rattle.yl_lexeme_rules.specs.Truthy.{core_words, is_plain, is_truthy, truthy, truthy_text};

use crate::span::Span;
use crate::words::{is_word, truthy_text, word_index};
use std::alloc::{AllocError, Allocator};
use yl_lexeme::{Kind, Style};
use yl_marks::KeyFacts;
use yl_text::{Finding, Pos, RuleId};

/// A set of truthy words. A word is named by its index, which `index_of` returns.
#[derive(Clone, Copy)]
pub struct TruthyWords {
    /// Whether each truthy word is in the set, in ASCII order of the words.
    pub allowed: [bool; 18],
}

impl TruthyWords {
    ghost use Rattle.std.specs.Prelude.{◌≡◌, ◌<◌, false, true, replicate, slice_index_or, slice_set};
    ghost use Rattle.yl_lexeme_rules.specs.Truthy.{truthy_index};

    /// Creates an empty set.
    pub fn none() -> TruthyWords
        ensures { result.allowed ≡ replicate 18 false }
    {
        TruthyWords {
            allowed: [false; 18],
        }
    }

    /// Returns the set with the word of this index added.
    pub fn with(self, index: usize) -> TruthyWords
        requires { index < 18 }
        ensures { result.allowed ≡ slice_set self.allowed index true }
    {
        let mut allowed = self.allowed;
        allowed[index] = true;
        TruthyWords { allowed }
    }

    /// Returns the index of a word, or `None` if it is not truthy.
    pub fn index_of(word: &[u8]) -> Option<usize>
        ensures { result ≡ truthy_index word.now }
    {
        word_index(word)
    }

    /// Returns whether the word of this index is in the set.
    pub fn has(&self, index: usize) -> bool
        requires { index < 18 }
        ensures { result ≡ slice_index_or self.now.allowed index false }
    {
        self.allowed[index]
    }
}

/// The options of the rule `truthy`.
#[derive(Clone, Copy)]
pub struct TruthyOptions {
    /// The truthy words that are allowed.
    pub allowed_values: TruthyWords,
    /// Whether keys are checked.
    pub check_keys: bool,
}

impl TruthyOptions {
    ghost use Rattle.std.specs.Prelude.{◌≡◌};
    ghost use Rattle.yl_lexeme_rules.specs.Standard.{standard_truthy};

    /// Returns the options of yamllint's default configuration: `true` and `false` are allowed, and
    /// keys are checked.
    pub fn standard() -> TruthyOptions
        ensures { result ≡ standard_truthy }
    {
        TruthyOptions {
            allowed_values: TruthyWords::none().with(12).with(16),
            check_keys: true,
        }
    }
}

/// Returns whether a lexeme of this kind is a plain scalar.
fn is_plain(kind: Kind) -> bool
    ensures { result ≡ is_plain kind }
{
    matches!(kind, Kind::Scalar(Style::Plain))
}

/// Returns whether the options require that this lexeme is checked.
fn is_asked(options: &TruthyOptions, key: KeyFacts) -> bool
    ensures { result ≡ options.now.check_keys || not key.is_key }
{
    options.check_keys || !key.is_key
}

/// Returns whether there is a word and it is not allowed.
fn is_wrong(words: &TruthyWords, index: Option<usize>) -> bool
    ensures { result ≡ option_map_or (λ i. not (slice_index_or words.now.allowed i false)) index false }
{
    match index {
        None => false,
        Some(index) => !words.allowed.get(index).copied().unwrap_or(false),
    }
}

/// Returns whether the word is a truthy word of the core schema of YAML 1.2.
fn is_core_word(word: &[u8]) -> bool
    ensures { result ≡ list_any (λ w. bytes_eq w word.now) core_words }
{
    is_word("FALSE", word)
        || is_word("False", word)
        || is_word("TRUE", word)
        || is_word("True", word)
        || is_word("false", word)
        || is_word("true", word)
}

/// Returns whether a truthy word counts as such in its document. In a document that declares itself
/// to be one of YAML 1.2 only the words of the core schema do.
fn is_word_there(is_1_2: bool, word: &[u8]) -> bool
    ensures { result ≡ not is_1_2 || list_any (λ w. bytes_eq w word.now) core_words }
{
    !is_1_2 || is_core_word(word)
}

/// Returns whether a lexeme is a plain scalar without a tag whose value is a truthy word of its
/// document that is not allowed. Returns `false` for a key if keys are not checked.
fn is_truthy(is_1_2: bool, options: &TruthyOptions, kind: Kind, value: &str, key: KeyFacts) -> bool
    ensures { result ≡ is_truthy is_1_2 options.now kind value.now key }
{
    if !is_plain(kind) {
        return false;
    }
    !key.has_tag
        && is_asked(options, key)
        && is_wrong(
            &options.allowed_values,
            TruthyWords::index_of(value.as_bytes()),
        )
        && is_word_there(is_1_2, value.as_bytes())
}

fn report_truthy<A: Allocator + Copy>(
    problems: &mut Vec<Finding<A>, A>,
    options: &TruthyOptions,
    x: &Span,
) -> Result<(), AllocError>
    ensures { OnOk result (problems.new.items ≡ problems.old.items
        ++ one_finding RuleId.Truthy (x.now.start.line + 1) (x.now.start.col + 1)
        (truthy_text options.now.allowed_values)) }
{
    let message = truthy_text(*problems.allocator(), &options.allowed_values)?;
    let Pos { line, col } = x.start;
    let line = u64::from(line) + 1;
    let column = u64::from(col) + 1;
    problems.push(Finding::new(line, column, RuleId::Truthy, message))?;
    Ok(())
}

fn push_truthy_by<A: Allocator + Copy>(
    problems: &mut Vec<Finding<A>, A>,
    is_1_2: bool,
    options: &TruthyOptions,
    x: &Span,
    value: &str,
    key: KeyFacts,
) -> Result<(), AllocError>
    ensures { OnOk result (problems.new.items ≡ problems.old.items
        ++ truthy is_1_2 (Some options.now) x.now value.now key) }
{
    if is_truthy(is_1_2, options, x.kind, value, key) {
        report_truthy(problems, options, x)
    } else {
        Ok(())
    }
}

/// Appends the problem that the rule finds at a lexeme with this value. `is_1_2` says whether a
/// directive declares the document to be one of YAML 1.2. Appends nothing if the rule is off. The
/// only error is out of memory.
pub(crate) fn push_truthy<A: Allocator + Copy>(
    problems: &mut Vec<Finding<A>, A>,
    is_1_2: bool,
    options: &Option<TruthyOptions>,
    x: &Span,
    value: &str,
    key: KeyFacts,
) -> Result<(), AllocError>
    ensures { OnOk result (problems.new.items ≡ problems.old.items
        ++ truthy is_1_2 options.now x.now value.now key) }
{
    match options {
        None => Ok(()),
        Some(options) => push_truthy_by(problems, is_1_2, options, x, value, key),
    }
}
