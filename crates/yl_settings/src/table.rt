//! The option table: the options of each rule, and the values that each option takes.
ghost use Rattle.std.specs.Prelude.{◌≡◌, ◌≤◌, length, is_some, unwrap_or, if◌then◌else◌};
ghost use Rattle.yl_settings.specs.declared.table.Answer.TheVariants.{WrongValue, Taken};
ghost use Rattle.yl_settings.specs.Item.{item_value};
ghost use Rattle.yl_settings.specs.Options.{anchors_option, brackets_option, colons_option, commas_option, comments_option, document_start_option, empty_lines_option, hyphens_option, indentation_option, key_duplicates_option, line_length_option, new_lines_option, quoted_strings_option, truthy_option, option_of, with_options_of};

use crate::node::Item;
use crate::options::RuleOptions;
use crate::values::{
    flag, forbid, limit, new_line, no, number, quote_type, sequences, spaces, truthy_words,
};
use yl_events::Event;
use yl_indentation::IndentationOptions;
use yl_lexeme_rules::{
    BracketsOptions, ColonsOptions, CommasOptions, DocumentStartOptions, HyphensOptions,
    QuotedStringsOptions, TruthyOptions,
};
use yl_rules::{CommentsOptions, RowOptions, RunOptions};
use yl_text::RuleId;
use yl_tree::{AnchorsOptions, KeyDuplicatesOptions};

/// The result of setting an option.
#[derive(Clone, Copy)]
pub enum Answer {
    /// The rule has no option of this name.
    UnknownName,
    /// The option does not take this value.
    WrongValue,
    /// The option takes this value.
    Taken,
}

/// Stores a value at a place, if there is a value.
fn put<T: Drop>(place: &mut T, value: Option<T>) -> Answer
    ensures answer { result ≡ (if is_some value then Taken else WrongValue) }
    ensures place { place.new ≡ unwrap_or value place.old }
{
    match value {
        None => Answer::WrongValue,
        Some(value) => {
            *place = value;
            Answer::Taken
        }
    }
}

/// Returns the result for a value that changes nothing.
fn take(value: Option<bool>) -> Answer
    ensures { result ≡ (if is_some value then Taken else WrongValue) }
{
    match value {
        None => Answer::WrongValue,
        Some(_) => Answer::Taken,
    }
}

fn set_anchors(
    options: &mut AnchorsOptions,
    name: &str,
    events: &[Event<'_>],
    item: &Item<'_>,
) -> Answer
    requires { item.now.inside ≤ length events.now }
    ensures answer { result ≡ (anchors_option name.now (item_value events.now item.now)).answer }
    ensures options { options.new ≡ (anchors_option name.now (item_value events.now item.now)).change options.old }
{
    match name {
        "forbid-undeclared-aliases" => put(&mut options.forbid_undeclared_aliases, flag(item.kind)),
        "forbid-duplicated-anchors" => put(&mut options.forbid_duplicated_anchors, flag(item.kind)),
        "forbid-unused-anchors" => put(&mut options.forbid_unused_anchors, flag(item.kind)),
        _ => Answer::UnknownName,
    }
}

fn set_brackets(
    options: &mut BracketsOptions,
    name: &str,
    events: &[Event<'_>],
    item: &Item<'_>,
) -> Answer
    requires { item.now.inside ≤ length events.now }
    ensures answer { result ≡ (brackets_option name.now (item_value events.now item.now)).answer }
    ensures options { options.new ≡ (brackets_option name.now (item_value events.now item.now)).change options.old }
{
    match name {
        "forbid" => put(&mut options.forbid, forbid(item.kind)),
        "min-spaces-inside" => put(&mut options.min_spaces_inside, limit(item.kind)),
        "max-spaces-inside" => put(&mut options.max_spaces_inside, limit(item.kind)),
        "min-spaces-inside-empty" => put(&mut options.min_spaces_inside_empty, limit(item.kind)),
        "max-spaces-inside-empty" => put(&mut options.max_spaces_inside_empty, limit(item.kind)),
        _ => Answer::UnknownName,
    }
}

fn set_colons(
    options: &mut ColonsOptions,
    name: &str,
    events: &[Event<'_>],
    item: &Item<'_>,
) -> Answer
    requires { item.now.inside ≤ length events.now }
    ensures answer { result ≡ (colons_option name.now (item_value events.now item.now)).answer }
    ensures options { options.new ≡ (colons_option name.now (item_value events.now item.now)).change options.old }
{
    match name {
        "max-spaces-before" => put(&mut options.max_spaces_before, limit(item.kind)),
        "max-spaces-after" => put(&mut options.max_spaces_after, limit(item.kind)),
        _ => Answer::UnknownName,
    }
}

fn set_commas(
    options: &mut CommasOptions,
    name: &str,
    events: &[Event<'_>],
    item: &Item<'_>,
) -> Answer
    requires { item.now.inside ≤ length events.now }
    ensures answer { result ≡ (commas_option name.now (item_value events.now item.now)).answer }
    ensures options { options.new ≡ (commas_option name.now (item_value events.now item.now)).change options.old }
{
    match name {
        "max-spaces-before" => put(&mut options.max_spaces_before, limit(item.kind)),
        "min-spaces-after" => put(&mut options.min_spaces_after, limit(item.kind)),
        "max-spaces-after" => put(&mut options.max_spaces_after, limit(item.kind)),
        _ => Answer::UnknownName,
    }
}

fn set_comments(
    options: &mut CommentsOptions,
    name: &str,
    events: &[Event<'_>],
    item: &Item<'_>,
) -> Answer
    requires { item.now.inside ≤ length events.now }
    ensures answer { result ≡ (comments_option name.now (item_value events.now item.now)).answer }
    ensures options { options.new ≡ (comments_option name.now (item_value events.now item.now)).change options.old }
{
    match name {
        "require-starting-space" => put(&mut options.require_starting_space, flag(item.kind)),
        "ignore-shebangs" => put(&mut options.ignore_shebangs, flag(item.kind)),
        "min-spaces-from-content" => put(&mut options.min_spaces_from_content, limit(item.kind)),
        _ => Answer::UnknownName,
    }
}

fn set_document_start(
    options: &mut DocumentStartOptions,
    name: &str,
    events: &[Event<'_>],
    item: &Item<'_>,
) -> Answer
    requires { item.now.inside ≤ length events.now }
    ensures answer { result ≡ (document_start_option name.now (item_value events.now item.now)).answer }
    ensures options { options.new ≡ (document_start_option name.now (item_value events.now item.now)).change options.old }
{
    match name {
        "present" => put(&mut options.present, flag(item.kind)),
        _ => Answer::UnknownName,
    }
}

fn set_empty_lines(
    options: &mut RunOptions,
    name: &str,
    events: &[Event<'_>],
    item: &Item<'_>,
) -> Answer
    requires { item.now.inside ≤ length events.now }
    ensures answer { result ≡ (empty_lines_option name.now (item_value events.now item.now)).answer }
    ensures options { options.new ≡ (empty_lines_option name.now (item_value events.now item.now)).change options.old }
{
    match name {
        "max" => put(&mut options.empty_lines.max, number(0, item.kind)),
        "max-start" => put(&mut options.empty_lines.max_start, number(0, item.kind)),
        "max-end" => put(&mut options.empty_lines.max_end, number(0, item.kind)),
        _ => Answer::UnknownName,
    }
}

fn set_hyphens(
    options: &mut HyphensOptions,
    name: &str,
    events: &[Event<'_>],
    item: &Item<'_>,
) -> Answer
    requires { item.now.inside ≤ length events.now }
    ensures answer { result ≡ (hyphens_option name.now (item_value events.now item.now)).answer }
    ensures options { options.new ≡ (hyphens_option name.now (item_value events.now item.now)).change options.old }
{
    match name {
        "max-spaces-after" => put(&mut options.max_spaces_after, limit(item.kind)),
        _ => Answer::UnknownName,
    }
}

fn set_indentation(
    options: &mut IndentationOptions,
    name: &str,
    events: &[Event<'_>],
    item: &Item<'_>,
) -> Answer
    requires { item.now.inside ≤ length events.now }
    ensures answer { result ≡ (indentation_option name.now (item_value events.now item.now)).answer }
    ensures options { options.new ≡ (indentation_option name.now (item_value events.now item.now)).change options.old }
{
    match name {
        "spaces" => put(&mut options.spaces, spaces(item.kind)),
        "indent-sequences" => put(&mut options.indent_sequences, sequences(item.kind)),
        "check-multi-line-strings" => take(no(item.kind)),
        _ => Answer::UnknownName,
    }
}

fn set_key_duplicates(
    options: &mut KeyDuplicatesOptions,
    name: &str,
    events: &[Event<'_>],
    item: &Item<'_>,
) -> Answer
    requires { item.now.inside ≤ length events.now }
    ensures answer { result ≡ (key_duplicates_option name.now (item_value events.now item.now)).answer }
    ensures options { options.new ≡ (key_duplicates_option name.now (item_value events.now item.now)).change options.old }
{
    match name {
        "forbid-duplicated-merge-keys" => put(
            &mut options.forbid_duplicated_merge_keys,
            flag(item.kind),
        ),
        _ => Answer::UnknownName,
    }
}

fn set_line_length(
    options: &mut RowOptions,
    name: &str,
    events: &[Event<'_>],
    item: &Item<'_>,
) -> Answer
    requires { item.now.inside ≤ length events.now }
    ensures answer { result ≡ (line_length_option name.now (item_value events.now item.now)).answer }
    ensures options { options.new ≡ (line_length_option name.now (item_value events.now item.now)).change options.old }
{
    match name {
        "max" => put(&mut options.max, number(0, item.kind)),
        "allow-non-breakable-words" => put(&mut options.allow_non_breakable_words, flag(item.kind)),
        _ => Answer::UnknownName,
    }
}

fn set_new_lines(
    options: &mut RunOptions,
    name: &str,
    events: &[Event<'_>],
    item: &Item<'_>,
) -> Answer
    requires { item.now.inside ≤ length events.now }
    ensures answer { result ≡ (new_lines_option name.now (item_value events.now item.now)).answer }
    ensures options { options.new ≡ (new_lines_option name.now (item_value events.now item.now)).change options.old }
{
    match name {
        "type" => put(&mut options.new_line, new_line(item.kind)),
        _ => Answer::UnknownName,
    }
}

fn set_quoted_strings(
    options: &mut QuotedStringsOptions,
    name: &str,
    events: &[Event<'_>],
    item: &Item<'_>,
) -> Answer
    requires { item.now.inside ≤ length events.now }
    ensures answer { result ≡ (quoted_strings_option name.now (item_value events.now item.now)).answer }
    ensures options { options.new ≡ (quoted_strings_option name.now (item_value events.now item.now)).change options.old }
{
    match name {
        "quote-type" => put(&mut options.quote_type, quote_type(item.kind)),
        "required" => put(&mut options.required, flag(item.kind)),
        _ => Answer::UnknownName,
    }
}

fn set_truthy(
    options: &mut TruthyOptions,
    name: &str,
    events: &[Event<'_>],
    item: &Item<'_>,
) -> Answer
    requires { item.now.inside ≤ length events.now }
    ensures answer { result ≡ (truthy_option name.now (item_value events.now item.now)).answer }
    ensures options { options.new ≡ (truthy_option name.now (item_value events.now item.now)).change options.old }
{
    match name {
        "allowed-values" => put(&mut options.allowed_values, truthy_words(events, item)),
        "check-keys" => put(&mut options.check_keys, flag(item.kind)),
        _ => Answer::UnknownName,
    }
}

impl RuleOptions {
    /// Sets the option `name` of a rule to the value of the node `item`. `events` are the events of
    /// the document that contains the node. Changes nothing unless it returns `Answer::Taken`.
    #[tactic(auto, unfolding(crate::specs::Options::option_of))]
    pub fn set(&mut self, rule: RuleId, name: &str, events: &[Event<'_>], item: &Item<'_>) -> Answer
        requires { item.now.inside ≤ length events.now }
        ensures answer { result ≡ (option_of rule name.now (item_value events.now item.now)).answer }
        ensures options { self.new ≡ (option_of rule name.now (item_value events.now item.now)).change self.old }
    {
        match rule {
            RuleId::Anchors => set_anchors(&mut self.anchors, name, events, item),
            RuleId::Braces => set_brackets(&mut self.braces, name, events, item),
            RuleId::Brackets => set_brackets(&mut self.brackets, name, events, item),
            RuleId::Colons => set_colons(&mut self.colons, name, events, item),
            RuleId::Commas => set_commas(&mut self.commas, name, events, item),
            RuleId::Comments => set_comments(&mut self.comments, name, events, item),
            RuleId::DocumentStart => set_document_start(
                &mut self.document_start,
                name,
                events,
                item,
            ),
            RuleId::EmptyLines => set_empty_lines(&mut self.run, name, events, item),
            RuleId::Hyphens => set_hyphens(&mut self.hyphens, name, events, item),
            RuleId::Indentation => set_indentation(&mut self.indentation, name, events, item),
            RuleId::KeyDuplicates => set_key_duplicates(
                &mut self.key_duplicates,
                name,
                events,
                item,
            ),
            RuleId::LineLength => set_line_length(&mut self.row, name, events, item),
            RuleId::NewLines => set_new_lines(&mut self.run, name, events, item),
            RuleId::QuotedStrings => set_quoted_strings(
                &mut self.quoted_strings,
                name,
                events,
                item,
            ),
            RuleId::Truthy => set_truthy(&mut self.truthy, name, events, item),
            RuleId::KeyOrdering
            | RuleId::NewLineAtEndOfFile
            | RuleId::Syntax
            | RuleId::TrailingSpaces => Answer::UnknownName,
        }
    }

    /// Replaces the options of a rule with those in `from`. Leaves the options of all other rules
    /// unchanged.
    pub fn take(&mut self, rule: RuleId, from: &RuleOptions)
        ensures { self.new ≡ with_options_of rule from.now self.old }
    {
        match rule {
            RuleId::Anchors => self.anchors = from.anchors,
            RuleId::Braces => self.braces = from.braces,
            RuleId::Brackets => self.brackets = from.brackets,
            RuleId::Colons => self.colons = from.colons,
            RuleId::Commas => self.commas = from.commas,
            RuleId::Comments => self.comments = from.comments,
            RuleId::DocumentStart => self.document_start = from.document_start,
            RuleId::EmptyLines => self.run.empty_lines = from.run.empty_lines,
            RuleId::Hyphens => self.hyphens = from.hyphens,
            RuleId::Indentation => self.indentation = from.indentation,
            RuleId::KeyDuplicates => self.key_duplicates = from.key_duplicates,
            RuleId::LineLength => self.row = from.row,
            RuleId::NewLines => self.run.new_line = from.run.new_line,
            RuleId::QuotedStrings => self.quoted_strings = from.quoted_strings,
            RuleId::Truthy => self.truthy = from.truthy,
            RuleId::KeyOrdering
            | RuleId::NewLineAtEndOfFile
            | RuleId::Syntax
            | RuleId::TrailingSpaces => {}
        }
    }
}
