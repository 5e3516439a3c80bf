//! Reads the levels and options of the rules from a document, and finds the first misfit.
ghost use Rattle.std.specs.Prelude.{◌≡◌, ◌≤◌, length, Some, None, if◌then◌else◌};
ghost use Rattle.std.specs.List.{flat_map, list_any};
ghost use Rattle.yl_events.specs.Event.{kind_value};
ghost use Rattle.yl_settings.specs.Item.{item_value, entry_value, nodes_at};
ghost use Rattle.yl_settings.specs.Nodes.{entries_of, starts_mapping};
ghost use Rattle.yl_config.specs.Misfits.{earliest, at_key, at_value, answer_misfits, level_misfits, option_misfits, options_misfits, rule_misfits, rule_value_misfits, rules_misfits, extends_misfits, root_entry_misfits, root_misfits, place_or, is_unchecked_rule, rule_named, turns_on, turns_off};
ghost use Rattle.yl_config.specs.Config.{config_settings};
ghost use Rattle.yl_settings.specs.Values.{level_in};
ghost use Rattle.yl_config.specs.Settings.{Settings, with_rule_level, with_option, with_options, with_value, with_rule, with_rules, with_entry, with_entries, afresh, turned_on, base_of, settings_of, is_extends};

use crate::config::Config;
use crate::misfit::{Misfit, MisfitKind, earlier};
use yl_events::{Event, EventKind};
use yl_settings::{
    Answer, EntryAt, Item, first_entry, is_alias, is_false_word, is_true_word, level, plain_word,
    starts_mapping, word,
};
use yl_text::{Pos, RuleId};

/// The position at which a text begins.
const ORIGIN: Pos = Pos { line: 0, col: 0 };

/// What was read of the document of a configuration so far.
#[derive(Clone, Copy)]
pub struct Reading {
    /// The configuration, by the entries that were read.
    pub config: Config,
    /// The first misfit in the text, if there is one.
    pub first: Option<Misfit>,
}

/// Returns `place`, or `other` if there is none.
fn place_or(other: Pos, place: Option<Pos>) -> Pos
    ensures { result ≡ place_or other place }
{
    place.unwrap_or(other)
}

/// Returns whether the name is that of a rule of yamllint that a configuration may name and that is
/// not checked.
fn is_unchecked_rule(name: &str) -> bool
    ensures { result ≡ is_unchecked_rule name.now }
{
    matches!(
        name,
        "comments-indentation" | "document-end" | "empty-values" | "float-values" | "octal-values"
    )
}

/// Returns the rule with this name, if it is one that is checked.
pub fn rule_named(name: &str) -> Option<RuleId>
    ensures { result ≡ rule_named name.now }
{
    match name {
        "anchors" => Some(RuleId::Anchors),
        "braces" => Some(RuleId::Braces),
        "brackets" => Some(RuleId::Brackets),
        "colons" => Some(RuleId::Colons),
        "commas" => Some(RuleId::Commas),
        "comments" => Some(RuleId::Comments),
        "document-start" => Some(RuleId::DocumentStart),
        "empty-lines" => Some(RuleId::EmptyLines),
        "hyphens" => Some(RuleId::Hyphens),
        "indentation" => Some(RuleId::Indentation),
        "key-duplicates" => Some(RuleId::KeyDuplicates),
        "key-ordering" => Some(RuleId::KeyOrdering),
        "line-length" => Some(RuleId::LineLength),
        "new-line-at-end-of-file" => Some(RuleId::NewLineAtEndOfFile),
        "new-lines" => Some(RuleId::NewLines),
        "quoted-strings" => Some(RuleId::QuotedStrings),
        "trailing-spaces" => Some(RuleId::TrailingSpaces),
        "truthy" => Some(RuleId::Truthy),
        _ => None,
    }
}

/// Returns whether this value of a rule turns it on, with the options that it has in the
/// configuration that is extended.
pub fn turns_on(kind: EventKind<'_>) -> bool
    ensures { result ≡ turns_on (kind_value kind.entry) }
{
    word(kind) == "enable" || is_true_word(plain_word(kind))
}

/// Returns whether this value of a rule turns it off.
pub fn turns_off(kind: EventKind<'_>) -> bool
    ensures { result ≡ turns_off (kind_value kind.entry) }
{
    word(kind) == "disable" || is_false_word(plain_word(kind))
}

#[tactic(auto, unfolding(crate::specs::Misfits::earliest))]
impl Reading {
    /// Notes a misfit at a key.
    pub fn note_key(&mut self, kind: MisfitKind, place: Pos)
        ensures first { self.new.first ≡ earliest self.old.first (at_key kind place) }
        ensures config { self.new.config ≡ self.old.config }
    {
        self.first = Some(earlier(self.first, Misfit { kind, place }));
    }

    /// Notes a misfit at a value. An alias is always a `BadValue`. If the value has no position,
    /// the misfit is at `key`.
    pub fn note_value(&mut self, kind: MisfitKind, key: Pos, item: &Item<'_>)
        ensures first { self.new.first ≡ earliest self.old.first (at_value kind key (kind_value item.now.kind) item.now.place) }
        ensures config { self.new.config ≡ self.old.config }
    {
        let kind = if is_alias(item.kind) {
            MisfitKind::BadValue
        } else {
            kind
        };
        self.note_key(kind, place_or(key, item.place));
    }

    /// Notes a misfit at an option, if it has an unknown name or a wrong value.
    fn note_answer(&mut self, answer: Answer, key: Pos, item: &Item<'_>)
        ensures first { self.new.first ≡ earliest self.old.first (answer_misfits answer key (kind_value item.now.kind) item.now.place) }
        ensures config { self.new.config ≡ self.old.config }
    {
        match answer {
            Answer::UnknownName => self.note_key(MisfitKind::UnknownOption, key),
            Answer::WrongValue => self.note_value(MisfitKind::BadValue, key, item),
            Answer::Taken => {}
        }
    }

    /// Reads the level of a rule.
    fn read_level(&mut self, rule: RuleId, key: Pos, item: &Item<'_>)
        ensures first { self.new.first ≡ earliest self.old.first (level_misfits key (kind_value item.now.kind) item.now.place) }
        ensures said { config_settings self.new.config ≡ with_rule_level rule (level_in (kind_value item.now.kind)) (config_settings self.old.config) }
    {
        match level(item.kind) {
            Some(level) => self.config.set_level(rule, Some(level)),
            None => self.note_value(MisfitKind::BadLevel, key, item),
        }
    }

    /// Reads one entry of a rule's mapping. The keys `ignore` and `ignore-from-file` are skipped.
    fn read_option(&mut self, rule: RuleId, mapping: Pos, events: &[Event<'_>], entry: &EntryAt<'_>)
        requires { entry.now.value.inside ≤ length events.now }
        ensures first { self.new.first ≡ earliest self.old.first (option_misfits rule mapping (entry_value events.now entry.now)) }
        ensures said { config_settings self.new.config ≡ with_option rule (entry_value events.now entry.now) (config_settings self.old.config) }
    {
        let key = place_or(mapping, entry.key_place);
        match word(entry.key) {
            "ignore" | "ignore-from-file" => {}
            "level" => self.read_level(rule, key, &entry.value),
            name => {
                let answer = self.config.set_option(rule, name, events, &entry.value);
                self.note_answer(answer, key, &entry.value);
            }
        }
    }

    /// Reads the entries of a rule's mapping. `inside` is the index of the event at which they
    /// begin.
    fn read_options(&mut self, rule: RuleId, mapping: Pos, events: &[Event<'_>], inside: usize)
        requires { inside ≤ length events.now }
        ensures first { self.new.first ≡ earliest self.old.first (options_misfits (Some rule) mapping (nodes_at events.now inside)) }
        ensures said { config_settings self.new.config ≡ with_options rule (entries_of (nodes_at events.now inside)) (config_settings self.old.config) }
    {
        let mut rest = inside;
        while let Some(entry) = first_entry(events, rest) {
            self.read_option(rule, mapping, events, &entry);
            rest = entry.more;
        }
    }

    /// Reads the value of a rule. `base` is the configuration that is extended.
    fn read_value(
        &mut self,
        base: &Config,
        rule: RuleId,
        key: Pos,
        events: &[Event<'_>],
        item: &Item<'_>,
    )
        requires { item.now.inside ≤ length events.now }
        ensures first { self.new.first ≡ earliest self.old.first (rule_value_misfits (Some rule) key (item_value events.now item.now)) }
        ensures said { config_settings self.new.config ≡ with_value (config_settings base.now) rule (item_value events.now item.now) (config_settings self.old.config) }
    {
        if turns_on(item.kind) {
            self.config.turn_on(base, rule);
        } else if turns_off(item.kind) {
            self.config.start_afresh(base, rule, None);
        } else if starts_mapping(item.kind) {
            self.config.turn_on(base, rule);
            self.read_options(rule, place_or(key, item.place), events, item.inside);
        } else {
            self.note_value(MisfitKind::BadValue, key, item);
        }
    }

    /// Notes a misfit at the value of an unchecked rule, unless the value turns the rule on or off
    /// or is a mapping.
    fn pass_value(&mut self, key: Pos, events: &[Event<'_>], item: &Item<'_>)
        requires { item.now.inside ≤ length events.now }
        ensures first { self.new.first ≡ earliest self.old.first (rule_value_misfits None key (item_value events.now item.now)) }
        ensures config { self.new.config ≡ self.old.config }
    {
        if !turns_on(item.kind) && !turns_off(item.kind) && !starts_mapping(item.kind) {
            self.note_value(MisfitKind::BadValue, key, item);
        }
    }

    /// Reads an entry of `rules`.
    fn read_rule(&mut self, base: &Config, mapping: Pos, events: &[Event<'_>], entry: &EntryAt<'_>)
        requires { entry.now.value.inside ≤ length events.now }
        ensures first { self.new.first ≡ earliest self.old.first (rule_misfits mapping (entry_value events.now entry.now)) }
        ensures said { config_settings self.new.config ≡ with_rule (config_settings base.now) (entry_value events.now entry.now) (config_settings self.old.config) }
    {
        let key = place_or(mapping, entry.key_place);
        let name = word(entry.key);
        match rule_named(name) {
            Some(rule) => self.read_value(base, rule, key, events, &entry.value),
            None if is_unchecked_rule(name) => self.pass_value(key, events, &entry.value),
            None => self.note_key(MisfitKind::UnknownRule, key),
        }
    }

    /// Reads the entries of `rules`. `inside` is the index of the event at which they begin.
    fn read_rules(&mut self, base: &Config, mapping: Pos, events: &[Event<'_>], inside: usize)
        requires { inside ≤ length events.now }
        ensures first { self.new.first ≡ earliest self.old.first (flat_map (rule_misfits mapping) (entries_of (nodes_at events.now inside))) }
        ensures said { config_settings self.new.config ≡ with_rules (config_settings base.now) (entries_of (nodes_at events.now inside)) (config_settings self.old.config) }
    {
        let mut rest = inside;
        while let Some(entry) = first_entry(events, rest) {
            self.read_rule(base, mapping, events, &entry);
            rest = entry.more;
        }
    }

    /// Reads the value of `extends`.
    fn read_extends(&mut self, key: Pos, item: &Item<'_>)
        ensures first { self.new.first ≡ earliest self.old.first (extends_misfits key (kind_value item.now.kind) item.now.place) }
        ensures config { self.new.config ≡ self.old.config }
    {
        if word(item.kind) != "default" {
            self.note_value(MisfitKind::UnknownExtends, key, item);
        }
    }

    /// Reads the value of `rules`, and applies its entries to `base`, the configuration that is
    /// extended. They replace the entries of an earlier `rules`.
    pub fn read_rules_value(
        &mut self,
        base: &Config,
        key: Pos,
        events: &[Event<'_>],
        item: &Item<'_>,
    )
        requires { item.now.inside ≤ length events.now }
        ensures first { self.new.first ≡ earliest self.old.first (rules_misfits key (item_value events.now item.now)) }
        ensures said { config_settings self.new.config ≡ (if starts_mapping (kind_value item.now.kind)
            then with_rules (config_settings base.now) (entries_of (item_value events.now item.now).inside) (config_settings base.now) else config_settings self.old.config) }
    {
        if starts_mapping(item.kind) {
            self.config = *base;
            self.read_rules(base, place_or(key, item.place), events, item.inside);
        } else {
            self.note_value(MisfitKind::BadValue, key, item);
        }
    }

    /// Reads an entry of the root.
    fn read_entry(&mut self, base: &Config, mapping: Pos, events: &[Event<'_>], entry: &EntryAt<'_>)
        requires { entry.now.value.inside ≤ length events.now }
        ensures first { self.new.first ≡ earliest self.old.first (root_entry_misfits mapping (entry_value events.now entry.now)) }
        ensures said { config_settings self.new.config ≡ with_entry (config_settings base.now) (entry_value events.now entry.now) (config_settings self.old.config) }
    {
        let key = place_or(mapping, entry.key_place);
        match word(entry.key) {
            "ignore" | "ignore-from-file" | "yaml-files" => {}
            "extends" => self.read_extends(key, &entry.value),
            "rules" => self.read_rules_value(base, key, events, &entry.value),
            _ => self.note_key(MisfitKind::UnknownKey, key),
        }
    }

    /// Reads the entries of the root. `inside` is the index of the event at which they begin.
    fn read_entries(&mut self, base: &Config, mapping: Pos, events: &[Event<'_>], inside: usize)
        requires { inside ≤ length events.now }
        ensures first { self.new.first ≡ earliest self.old.first (flat_map (root_entry_misfits mapping) (entries_of (nodes_at events.now inside))) }
        ensures said { config_settings self.new.config ≡ with_entries (config_settings base.now) (entries_of (nodes_at events.now inside)) (config_settings self.old.config) }
    {
        let mut rest = inside;
        while let Some(entry) = first_entry(events, rest) {
            self.read_entry(base, mapping, events, &entry);
            rest = entry.more;
        }
    }
}

/// Returns whether the root has a key `extends`. `inside` is the index of the event at which its
/// entries begin.
fn is_extended(events: &[Event<'_>], inside: usize) -> bool
    requires { inside ≤ length events.now }
    ensures { result ≡ list_any is_extends (entries_of (nodes_at events.now inside)) }
{
    let mut rest = inside;
    while let Some(entry) = first_entry(events, rest) {
        if word(entry.key) == "extends" {
            return true;
        }
        rest = entry.more;
    }
    false
}

/// Reads the root of a document. Returns the configuration and the first misfit. Without a key
/// `extends`, all rules except `syntax` are off that no entry turns on.
pub fn read_root(events: &[Event<'_>], root: &Item<'_>) -> Reading
    requires { root.now.inside ≤ length events.now }
    ensures first { result.first ≡ earliest None (root_misfits (item_value events.now root.now)) }
    ensures said { config_settings result.config ≡ settings_of (item_value events.now root.now) }
{
    let place = place_or(ORIGIN, root.place);
    if !starts_mapping(root.kind) {
        let mut reading = Reading {
            config: Config::all_off(),
            first: None,
        };
        reading.note_key(MisfitKind::NotAMapping, place);
        return reading;
    }
    let base = if is_extended(events, root.inside) {
        Config::standard()
    } else {
        Config::all_off()
    };
    let mut reading = Reading {
        config: base,
        first: None,
    };
    reading.read_entries(&base, place, events, root.inside);
    reading
}
