//! Finds the misfits of a project's configuration: everything in it that does not fit.
//!
//! A `Reading` keeps the earliest in the text of the misfits that are noted.
ghost use Rattle.std.specs.Prelude.{◌≡◌, ◌≤◌, ◌++◌, ◌&&◌, ◌||◌, not, length, OnOk, IfOk, bytes_eq, codes, is_some, None, false, []};
ghost use Rattle.std.specs.List.{flat_map};
ghost use Rattle.yl_events.specs.Event.{kind_value};
ghost use Rattle.yl_settings.specs.Item.{entry_value, item_value, nodes_at};
ghost use Rattle.yl_settings.specs.Nodes.{entries_of, starts_mapping};
ghost use Rattle.yl_settings.specs.Words.{word};
ghost use Rattle.yl_config.specs.Document.{next_misfits};
ghost use Rattle.yl_config.specs.Misfits.{at_key, at_value, earliest, rule_named, rules_misfits};
ghost use Rattle.yl_project.specs.Misfits.{beside_misfits, each_name_misfits, entries_misfits, name_misfits, names_misfits, option_misfits, patterns_misfits, root_entry_misfits, root_misfits, rule_ignore_misfits, rules_ignore_misfits, sequence_misfits, text_misfits, texts_misfits, unless, yaml_files_misfits};
ghost use Rattle.yl_project.specs.Texts.{with_text};

use crate::document::Document;
use crate::entries::{ORIGIN, is_name, is_scalar, place_or, starts_sequence};
use std::alloc::{AllocError, Allocator};
use yl_config::{Config, Misfit, MisfitKind, Reading, rule_named};
use yl_patterns::{PatternFault, Patterns};
use yl_settings::{EntryAt, Item, first_entry, first_item, starts_mapping, word};
use yl_text::Pos;

/// Notes a misfit of the given kind at the value `item`, unless `fits` is set.
fn note_unless(reading: &mut Reading, fits: bool, kind: MisfitKind, key: Pos, item: &Item<'_>)
    ensures { reading.new.first ≡ earliest reading.old.first (unless fits (at_value kind key (kind_value item.now.kind) item.now.place)) }
{
    if !fits {
        reading.note_value(kind, key, item);
    }
}

/// Notes a `BadValue` at the key at `place`, if `is_misfit` is set.
fn note_key_if(reading: &mut Reading, is_misfit: bool, place: Pos)
    ensures { reading.new.first ≡ earliest reading.old.first (unless (not is_misfit) (at_key MisfitKind.BadValue place)) }
{
    if is_misfit {
        reading.note_key(MisfitKind::BadValue, place);
    }
}

/// Returns `true` if `key` is `name`, or if `before` is set.
fn is_key_or(before: bool, key: &str, name: &str) -> bool
    ensures { result ≡ (before || bytes_eq key.now name.now) }
{
    before || key == name
}

/// Returns `true` if `key` is one of `ignore` and `ignore-from-file`, and the other one stands
/// before it. `ignores` is set if `ignore` stands before the key, and `names` if `ignore-from-file`
/// does.
fn is_beside(ignores: bool, names: bool, key: &str) -> bool
    ensures { result ≡ ((bytes_eq key.now (codes "ignore") && names) || (bytes_eq key.now (codes "ignore-from-file") && ignores)) }
{
    match key {
        "ignore" => names,
        "ignore-from-file" => ignores,
        _ => false,
    }
}

/// Returns `true` if the entry has a checked rule as its key and a mapping as its value.
fn is_rule_mapping(entry: &EntryAt<'_>) -> bool
    ensures { result ≡ (is_some (rule_named (word (kind_value entry.now.key))) && starts_mapping (kind_value entry.now.value.kind)) }
{
    rule_named(word(entry.key)).is_some() && starts_mapping(entry.value.kind)
}

/// Notes a misfit of the given kind at a value that is not the name of a file.
fn note_name(reading: &mut Reading, kind: MisfitKind, key: Pos, item: &Item<'_>)
    ensures { reading.new.first ≡ earliest reading.old.first (name_misfits kind key (kind_value item.now.kind) item.now.place) }
{
    note_unless(reading, is_name(item.kind), kind, key, item);
}

impl<A: Allocator + Copy> Document<'_, '_, A> {
    /// Returns `true` if the node is a text whose lines are all valid patterns. `column` is the
    /// column of the node that contains it. The only error is out of memory.
    fn is_pattern_text(&self, column: u32, item: &Item<'_>) -> Result<bool, AllocError>
        ensures { IfOk result (λ answer. answer ≡ is_some (with_text self.now.rows.now column (kind_value item.now.kind) item.now.place [])) }
    {
        let mut patterns = Patterns::new(self.alloc);
        match self.add_text(&mut patterns, column, item.kind, item.place) {
            Ok(()) => Ok(true),
            Err(PatternFault::BadPattern) => Ok(false),
            Err(PatternFault::Memory) => Err(AllocError),
        }
    }

    /// Notes a node that is not a text whose lines are all valid patterns. `column` is the column
    /// of the node that contains it. The only error is out of memory.
    fn note_text(
        &self,
        reading: &mut Reading,
        column: u32,
        key: Pos,
        item: &Item<'_>,
    ) -> Result<(), AllocError>
        ensures { OnOk result (reading.new.first ≡ earliest reading.old.first (text_misfits self.now.rows.now column key (kind_value item.now.kind) item.now.place)) }
    {
        let fits = self.is_pattern_text(column, item)?;
        note_unless(reading, fits, MisfitKind::BadValue, key, item);
        Ok(())
    }

    /// Notes each node of a sequence that is not a text whose lines are all valid patterns. The
    /// sequence is at `place`, and its nodes start at the event with index `inside`. The only error
    /// is out of memory.
    fn note_texts(&self, reading: &mut Reading, place: Pos, inside: usize) -> Result<(), AllocError>
        requires { inside ≤ length self.now.events.now }
        ensures { OnOk result (reading.new.first ≡ earliest reading.old.first (texts_misfits self.now.rows.now place.col place (nodes_at self.now.events.now inside))) }
    {
        let mut rest = inside;
        while let Some(text) = first_item(self.events, rest) {
            self.note_text(reading, place.col, place, &text.item)?;
            rest = text.more;
        }
        Ok(())
    }

    /// Notes each node of a sequence that is not a text whose lines are all valid patterns. The
    /// only error is out of memory.
    fn note_sequence(
        &self,
        reading: &mut Reading,
        key: Pos,
        item: &Item<'_>,
    ) -> Result<(), AllocError>
        requires { item.now.inside ≤ length self.now.events.now }
        ensures { OnOk result (reading.new.first ≡ earliest reading.old.first (sequence_misfits self.now.rows.now key (item_value self.now.events.now item.now))) }
    {
        self.note_texts(reading, place_or(key, item.place), item.inside)
    }

    /// Notes the misfits of a value that must be a text or a sequence of texts, whose lines are all
    /// valid patterns. `holder` is the position of the node that contains it. The only error is out
    /// of memory.
    fn note_patterns(
        &self,
        reading: &mut Reading,
        holder: Pos,
        key: Pos,
        item: &Item<'_>,
    ) -> Result<(), AllocError>
        requires { item.now.inside ≤ length self.now.events.now }
        ensures { OnOk result (reading.new.first ≡ earliest reading.old.first (patterns_misfits self.now.rows.now holder key (item_value self.now.events.now item.now))) }
    {
        if starts_sequence(item.kind) {
            self.note_sequence(reading, key, item)
        } else {
            self.note_text(reading, holder.col, key, item)
        }
    }

    /// Notes the misfits of an entry in the mapping of a rule, if its key is `ignore`. The only
    /// error is out of memory.
    fn note_option(
        &self,
        reading: &mut Reading,
        mapping: Pos,
        entry: &EntryAt<'_>,
    ) -> Result<(), AllocError>
        requires { entry.now.value.inside ≤ length self.now.events.now }
        ensures { OnOk result (reading.new.first ≡ earliest reading.old.first (option_misfits self.now.rows.now mapping (entry_value self.now.events.now entry.now))) }
    {
        if word(entry.key) == "ignore" {
            self.note_patterns(
                reading,
                mapping,
                place_or(mapping, entry.key_place),
                &entry.value,
            )
        } else {
            Ok(())
        }
    }

    /// Notes the misfits of `ignore` in the mapping of a rule, whose entries start at the event
    /// with index `inside`. The only error is out of memory.
    fn note_options(
        &self,
        reading: &mut Reading,
        mapping: Pos,
        inside: usize,
    ) -> Result<(), AllocError>
        requires { inside ≤ length self.now.events.now }
        ensures { OnOk result (reading.new.first ≡ earliest reading.old.first (flat_map (option_misfits self.now.rows.now mapping) (entries_of (nodes_at self.now.events.now inside)))) }
    {
        let mut rest = inside;
        while let Some(entry) = first_entry(self.events, rest) {
            self.note_option(reading, mapping, &entry)?;
            rest = entry.more;
        }
        Ok(())
    }

    /// Notes the misfits of `ignore` in an entry of `rules`, if it has a checked rule as its key
    /// and a mapping as its value. The only error is out of memory.
    fn note_rule(
        &self,
        reading: &mut Reading,
        mapping: Pos,
        entry: &EntryAt<'_>,
    ) -> Result<(), AllocError>
        requires { entry.now.value.inside ≤ length self.now.events.now }
        ensures { OnOk result (reading.new.first ≡ earliest reading.old.first (rule_ignore_misfits self.now.rows.now mapping (entry_value self.now.events.now entry.now))) }
    {
        if is_rule_mapping(entry) {
            let place = place_or(place_or(mapping, entry.key_place), entry.value.place);
            self.note_options(reading, place, entry.value.inside)
        } else {
            Ok(())
        }
    }

    /// Notes the misfits of `ignore` in a mapping of rules, whose entries start at the event with
    /// index `inside`. The only error is out of memory.
    fn note_rules(
        &self,
        reading: &mut Reading,
        mapping: Pos,
        inside: usize,
    ) -> Result<(), AllocError>
        requires { inside ≤ length self.now.events.now }
        ensures { OnOk result (reading.new.first ≡ earliest reading.old.first (flat_map (rule_ignore_misfits self.now.rows.now mapping) (entries_of (nodes_at self.now.events.now inside)))) }
    {
        let mut rest = inside;
        while let Some(entry) = first_entry(self.events, rest) {
            self.note_rule(reading, mapping, &entry)?;
            rest = entry.more;
        }
        Ok(())
    }

    /// Notes the misfits of `ignore` in the value of `rules`. The only error is out of memory.
    fn note_ignores(
        &self,
        reading: &mut Reading,
        key: Pos,
        item: &Item<'_>,
    ) -> Result<(), AllocError>
        requires { item.now.inside ≤ length self.now.events.now }
        ensures { OnOk result (reading.new.first ≡ earliest reading.old.first (rules_ignore_misfits self.now.rows.now key (item_value self.now.events.now item.now))) }
    {
        if starts_mapping(item.kind) {
            self.note_rules(reading, place_or(key, item.place), item.inside)
        } else {
            Ok(())
        }
    }

    /// Notes the misfits of the value of `rules`. The only error is out of memory.
    #[tactic(auto, using(crate::proofs::Folding::earliest_append))]
    fn note_rules_value(
        &self,
        reading: &mut Reading,
        key: Pos,
        item: &Item<'_>,
    ) -> Result<(), AllocError>
        requires { item.now.inside ≤ length self.now.events.now }
        ensures { OnOk result (reading.new.first ≡ earliest reading.old.first (rules_misfits key (item_value self.now.events.now item.now) ++ rules_ignore_misfits self.now.rows.now key (item_value self.now.events.now item.now))) }
    {
        reading.read_rules_value(&Config::all_off(), key, self.events, item);
        self.note_ignores(reading, key, item)
    }

    /// Notes each node that is not the name of a file. The nodes start at the event with index
    /// `inside`.
    fn note_each_name(&self, reading: &mut Reading, key: Pos, inside: usize)
        requires { inside ≤ length self.now.events.now }
        ensures { reading.new.first ≡ earliest reading.old.first (each_name_misfits key (nodes_at self.now.events.now inside)) }
    {
        let mut rest = inside;
        while let Some(name) = first_item(self.events, rest) {
            note_name(reading, MisfitKind::BadValue, key, &name.item);
            rest = name.more;
        }
    }

    /// Notes the misfits of a value that must be the name of a file or a sequence of names.
    fn note_names_value(&self, reading: &mut Reading, key: Pos, item: &Item<'_>)
        requires { item.now.inside ≤ length self.now.events.now }
        ensures { reading.new.first ≡ earliest reading.old.first (names_misfits key (item_value self.now.events.now item.now)) }
    {
        if starts_sequence(item.kind) {
            self.note_each_name(reading, place_or(key, item.place), item.inside);
        } else {
            note_name(reading, MisfitKind::BadValue, key, item);
        }
    }

    /// Notes the misfits of the value of `ignore-from-file`. `are_patterns` is set if the lines of
    /// the files that it names are all valid patterns.
    fn note_names(&self, reading: &mut Reading, are_patterns: bool, key: Pos, item: &Item<'_>)
        requires { item.now.inside ≤ length self.now.events.now }
        ensures { reading.new.first ≡ earliest reading.old.first (names_misfits key (item_value self.now.events.now item.now)
            ++ unless are_patterns (at_value MisfitKind.BadValue key (kind_value item.now.kind) item.now.place)) }
    {
        self.note_names_value(reading, key, item);
        note_unless(reading, are_patterns, MisfitKind::BadValue, key, item);
    }

    /// Notes the misfits of the value of `yaml-files`. The only error is out of memory.
    fn note_yaml_files(
        &self,
        reading: &mut Reading,
        key: Pos,
        item: &Item<'_>,
    ) -> Result<(), AllocError>
        requires { item.now.inside ≤ length self.now.events.now }
        ensures { OnOk result (reading.new.first ≡ earliest reading.old.first (yaml_files_misfits self.now.rows.now key (item_value self.now.events.now item.now))) }
    {
        if starts_sequence(item.kind) {
            self.note_sequence(reading, key, item)
        } else {
            reading.note_value(MisfitKind::BadValue, key, item);
            Ok(())
        }
    }

    /// Notes the misfits of an entry of the root. The only error is out of memory.
    fn note_entry(
        &self,
        reading: &mut Reading,
        are_patterns: bool,
        mapping: Pos,
        entry: &EntryAt<'_>,
    ) -> Result<(), AllocError>
        requires { entry.now.value.inside ≤ length self.now.events.now }
        ensures { OnOk result (reading.new.first ≡ earliest reading.old.first (root_entry_misfits self.now.rows.now are_patterns mapping (entry_value self.now.events.now entry.now))) }
    {
        let key = place_or(mapping, entry.key_place);
        let item = &entry.value;
        match word(entry.key) {
            "extends" => {
                note_name(reading, MisfitKind::UnknownExtends, key, item);
                Ok(())
            }
            "rules" => self.note_rules_value(reading, key, item),
            "ignore" => self.note_patterns(reading, mapping, key, item),
            "ignore-from-file" => {
                self.note_names(reading, are_patterns, key, item);
                Ok(())
            }
            "yaml-files" => self.note_yaml_files(reading, key, item),
            "locale" => {
                note_unless(
                    reading,
                    is_scalar(item.kind),
                    MisfitKind::BadValue,
                    key,
                    item,
                );
                Ok(())
            }
            _ => {
                reading.note_key(MisfitKind::UnknownKey, key);
                Ok(())
            }
        }
    }

    /// Notes the misfits of each entry of the root. The only error is out of memory.
    fn note_entries(
        &self,
        reading: &mut Reading,
        are_patterns: bool,
        mapping: Pos,
        inside: usize,
    ) -> Result<(), AllocError>
        requires { inside ≤ length self.now.events.now }
        ensures { OnOk result (reading.new.first ≡ earliest reading.old.first (flat_map (root_entry_misfits self.now.rows.now are_patterns mapping) (entries_of (nodes_at self.now.events.now inside)))) }
    {
        let mut rest = inside;
        while let Some(entry) = first_entry(self.events, rest) {
            self.note_entry(reading, are_patterns, mapping, &entry)?;
            rest = entry.more;
        }
        Ok(())
    }

    /// Notes each `ignore` after an `ignore-from-file`, and each `ignore-from-file` after an
    /// `ignore`.
    fn note_beside(&self, reading: &mut Reading, mapping: Pos, inside: usize)
        requires { inside ≤ length self.now.events.now }
        ensures { reading.new.first ≡ earliest reading.old.first (beside_misfits mapping false false (entries_of (nodes_at self.now.events.now inside))) }
    {
        let mut ignores = false;
        let mut names = false;
        let mut rest = inside;
        while let Some(entry) = first_entry(self.events, rest) {
            let key = word(entry.key);
            let place = place_or(mapping, entry.key_place);
            note_key_if(reading, is_beside(ignores, names, key), place);
            ignores = is_key_or(ignores, key, "ignore");
            names = is_key_or(names, key, "ignore-from-file");
            rest = entry.more;
        }
    }

    /// Notes the misfits of the root, if it is a mapping. The only error is out of memory.
    #[tactic(auto, using(crate::proofs::Folding::earliest_append))]
    fn note_mapping(
        &self,
        reading: &mut Reading,
        are_patterns: bool,
        mapping: Pos,
        inside: usize,
    ) -> Result<(), AllocError>
        requires { inside ≤ length self.now.events.now }
        ensures { OnOk result (reading.new.first ≡ earliest reading.old.first (entries_misfits self.now.rows.now are_patterns mapping (entries_of (nodes_at self.now.events.now inside)))) }
    {
        self.note_entries(reading, are_patterns, mapping, inside)?;
        self.note_beside(reading, mapping, inside);
        Ok(())
    }

    /// Notes the misfits of the root. `are_patterns` is set if the lines of the files that it names
    /// are all valid patterns. The only error is out of memory.
    fn note_root(
        &self,
        reading: &mut Reading,
        are_patterns: bool,
        root: &Item<'_>,
    ) -> Result<(), AllocError>
        requires { root.now.inside ≤ length self.now.events.now }
        ensures { OnOk result (reading.new.first ≡ earliest reading.old.first (root_misfits self.now.rows.now are_patterns (item_value self.now.events.now root.now))) }
    {
        let place = place_or(ORIGIN, root.place);
        if starts_mapping(root.kind) {
            self.note_mapping(reading, are_patterns, place, root.inside)
        } else {
            reading.note_key(MisfitKind::NotAMapping, place);
            Ok(())
        }
    }

    /// Returns the first misfit of the root and of the next document, which starts at `next` if
    /// there is one. The only error is out of memory.
    #[tactic(auto, using(crate::proofs::Folding::earliest_append))]
    pub fn first_misfit(
        &self,
        are_patterns: bool,
        root: &Item<'_>,
        next: Option<Pos>,
    ) -> Result<Option<Misfit>, AllocError>
        requires { root.now.inside ≤ length self.now.events.now }
        ensures { IfOk result (λ first. first ≡ earliest None (root_misfits self.now.rows.now are_patterns (item_value self.now.events.now root.now) ++ next_misfits next)) }
    {
        let mut reading = Reading {
            config: Config::all_off(),
            first: None,
        };
        self.note_root(&mut reading, are_patterns, root)?;
        reading.note_next(next);
        Ok(reading.first)
    }
}
