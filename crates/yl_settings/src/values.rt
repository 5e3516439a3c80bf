//! Reads the values of options.
ghost use Rattle.std.specs.Prelude.{◌≡◌, ◌≤◌, length};
ghost use Rattle.yl_events.specs.Event.{kind_value};
ghost use Rattle.yl_settings.specs.Item.{item_value};
ghost use Rattle.yl_settings.specs.Values.{flag_in, forbid_in, level_in, limit_in, new_line_in, no_in, number_in, quote_type_in, sequences_in, spaces_in, truthy_in, with_word};
ghost use Rattle.yl_settings.specs.Words.{word};
ghost use Rattle.yl_lexeme_rules.specs.Truthy.{truthy_index};

use crate::node::{Item, first_item, starts_sequence};
use crate::words;
use yl_events::{Event, EventKind};
use yl_indentation::{IndentSequences, Spaces};
use yl_lexeme_rules::{Forbid, QuoteType, TruthyWords};
use yl_rules::{Level, NewLine};

/// Returns the truth value that a plain scalar denotes, or `None` if it denotes none.
pub fn flag(kind: EventKind<'_>) -> Option<bool>
    ensures { result ≡ flag_in (kind_value kind.entry) }
{
    words::flag(words::plain_word(kind))
}

/// Returns the number that a plain scalar denotes, if it is at least `least` and at most 1,000,000.
pub fn number(least: u32, kind: EventKind<'_>) -> Option<u32>
    ensures { result ≡ number_in least (kind_value kind.entry) }
{
    words::number(least, words::plain_word(kind))
}

/// Returns the bound that a plain scalar denotes: `Some(Some(n))` for a number `n` of at most
/// 1,000,000, `Some(None)` for -1, which is no bound, and else `None`.
pub fn limit(kind: EventKind<'_>) -> Option<Option<u32>>
    ensures { result ≡ limit_in (kind_value kind.entry) }
{
    words::limit(words::plain_word(kind))
}

/// Returns the level that a plain or quoted scalar names: `error` or `warning`.
pub fn level(kind: EventKind<'_>) -> Option<Level>
    ensures { result ≡ level_in (kind_value kind.entry) }
{
    match words::word(kind) {
        "error" => Some(Level::Error),
        "warning" => Some(Level::Warning),
        _ => None,
    }
}

/// Returns which flow collections a scalar forbids: a plain true word, a plain false word, or
/// `non-empty`.
pub fn forbid(kind: EventKind<'_>) -> Option<Forbid>
    ensures { result ≡ forbid_in (kind_value kind.entry) }
{
    match flag(kind) {
        Some(true) => Some(Forbid::Everything),
        Some(false) => Some(Forbid::Nothing),
        None => match words::word(kind) {
            "non-empty" => Some(Forbid::NonEmpty),
            _ => None,
        },
    }
}

/// Returns the width of an indentation: a plain number of at least 1, or `consistent`.
pub fn spaces(kind: EventKind<'_>) -> Option<Spaces>
    ensures { result ≡ spaces_in (kind_value kind.entry) }
{
    match number(1, kind) {
        Some(width) => Some(Spaces::Every(width)),
        None => match words::word(kind) {
            "consistent" => Some(Spaces::Consistent),
            _ => None,
        },
    }
}

/// Returns how sequences in mappings are indented: a plain true word, a plain false word,
/// `whatever` or `consistent`.
pub fn sequences(kind: EventKind<'_>) -> Option<IndentSequences>
    ensures { result ≡ sequences_in (kind_value kind.entry) }
{
    match flag(kind) {
        Some(true) => Some(IndentSequences::Indented),
        Some(false) => Some(IndentSequences::NotIndented),
        None => match words::word(kind) {
            "whatever" => Some(IndentSequences::Whatever),
            "consistent" => Some(IndentSequences::Consistent),
            _ => None,
        },
    }
}

/// Returns `Some(false)` for a plain false word, and else `None`.
pub fn no(kind: EventKind<'_>) -> Option<bool>
    ensures { result ≡ no_in (kind_value kind.entry) }
{
    match flag(kind) {
        Some(false) => Some(false),
        _ => None,
    }
}

/// Returns the line break that a plain or quoted scalar names: `unix` or `dos`.
pub fn new_line(kind: EventKind<'_>) -> Option<NewLine>
    ensures { result ≡ new_line_in (kind_value kind.entry) }
{
    match words::word(kind) {
        "unix" => Some(NewLine::Unix),
        "dos" => Some(NewLine::Dos),
        _ => None,
    }
}

/// Returns the quotes that a plain or quoted scalar names: `any`, `single` or `double`.
pub fn quote_type(kind: EventKind<'_>) -> Option<QuoteType>
    ensures { result ≡ quote_type_in (kind_value kind.entry) }
{
    match words::word(kind) {
        "any" => Some(QuoteType::Any),
        "single" => Some(QuoteType::Single),
        "double" => Some(QuoteType::Double),
        _ => None,
    }
}

/// Returns the set with one more word. Returns `None` if there is no set, or the scalar is no
/// truthy word.
fn with_word(set: Option<TruthyWords>, kind: EventKind<'_>) -> Option<TruthyWords>
    ensures { result ≡ with_word set (truthy_index (word (kind_value kind.entry))) }
{
    match (set, TruthyWords::index_of(words::word(kind).as_bytes())) {
        (Some(set), Some(index)) => Some(set.with(index)),
        _ => None,
    }
}

/// Returns the set of the words in a sequence of truthy words. Returns `None` if the node is no
/// sequence, or one of its nodes is no truthy word.
pub fn truthy_words(events: &[Event<'_>], item: &Item<'_>) -> Option<TruthyWords>
    requires { item.now.inside ≤ length events.now }
    ensures { result ≡ truthy_in (item_value events.now item.now) }
{
    if !starts_sequence(item.kind) {
        return None;
    }
    let mut set = Some(TruthyWords::none());
    let mut rest = item.inside;
    while let Some(word) = first_item(events, rest) {
        set = with_word(set, word.item.kind);
        rest = word.more;
    }
    set
}
