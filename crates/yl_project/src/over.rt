//! Lays a configuration over the one that it extends.
ghost use Rattle.std.specs.Prelude.{◌≡◌, ◌≤◌, IfOk, IfSome, length, map, is_some, codes, if◌then◌else◌};
ghost use Rattle.std.specs.Option.{option_map};
ghost use Rattle.yl_settings.specs.Item.{item_value, nodes_at};
ghost use Rattle.yl_settings.specs.Nodes.{entries_of};
ghost use Rattle.yl_rules.specs.LevelOf.{level_of};
ghost use Rattle.yl_settings.specs.Options.{with_options_of};
ghost use Rattle.yl_settings.specs.Standard.{standard_rule_options};
ghost use Rattle.yl_config.specs.Config.{config_settings};
ghost use Rattle.yl_project.specs.Answered.{project_value};
ghost use Rattle.yl_project.specs.Said.{ignore_over, ignored_over, ignores_over, patterns_or, put_right, put_right_options, rule_patterns, rules_over, said_over, value_of, yaml_files_of};

use crate::document::Document;
use crate::entries::{ORIGIN, place_or, value_of};
use crate::project::{CHECKED_RULES, Project, RuleIgnore, standard_yaml_files};
use std::alloc::{AllocError, Allocator};
use yl_config::{Config, Reading, turns_off, turns_on};
use yl_patterns::Patterns;
use yl_rules::RuleLevels;
use yl_settings::{Item, RuleOptions, standard_rule_options, starts_mapping};
use yl_text::{Pos, RuleId};

/// Returns the options, with the standard options of `rule` if that rule is off.
fn right_options(levels: &RuleLevels, rule: RuleId, options: RuleOptions) -> RuleOptions
    ensures { result ≡ (if is_some (level_of levels.now rule) then options else with_options_of rule standard_rule_options options) }
{
    if levels.level_of(rule).is_some() {
        options
    } else {
        let mut right = options;
        right.take(rule, &standard_rule_options());
        right
    }
}

/// Returns the options, with the standard options of each of `rules` that is off.
#[tactic(auto, unfolding(crate::specs::Said::put_right_options))]
fn put_right_options(levels: &RuleLevels, rules: &[RuleId], from: RuleOptions) -> RuleOptions
    ensures { result ≡ put_right_options (level_of levels.now) rules.now from }
{
    let mut options = from;
    for rule in rules {
        options = right_options(levels, *rule, options);
    }
    options
}

/// Returns the configuration, with the standard options of each rule that is off.
fn put_right(base: Config) -> Config
    ensures { config_settings result ≡ put_right (config_settings base) }
{
    let options = put_right_options(base.levels(), &CHECKED_RULES, *base.options());
    Config::new(*base.levels(), options)
}

/// Returns `files` if `are_named` is set, else `base`.
fn files_or<A: Allocator>(base: Patterns<A>, files: Patterns<A>, are_named: bool) -> Patterns<A>
    ensures { result ≡ (if are_named then files else base) }
{
    if are_named { files } else { base }
}

impl<A: Allocator + Copy> Document<'_, '_, A> {
    /// Returns the configuration `base` with the value of `rules` laid over it.
    fn rules_over(&self, base: &Config, rules: Option<Item<'_>>) -> Config
        requires { IfSome rules (λ item. item.inside ≤ length self.now.events.now) }
        ensures { config_settings result ≡ rules_over (config_settings base.now) (option_map (item_value self.now.events.now) rules.entry) }
    {
        match rules {
            None => *base,
            Some(item) => {
                let mut reading = Reading {
                    config: *base,
                    first: None,
                };
                reading.read_rules_value(base, ORIGIN, self.events, &item);
                reading.config
            }
        }
    }

    /// Returns the patterns of `value`, or none if it is not valid. Returns `other` if there is no
    /// value. `holder` is the position of the node that contains the value. The only error is out
    /// of memory.
    fn patterns_or(
        &self,
        other: Patterns<A>,
        holder: Pos,
        value: Option<Item<'_>>,
    ) -> Result<Patterns<A>, AllocError>
        requires { IfSome value (λ item. item.inside ≤ length self.now.events.now) }
        ensures { IfOk result (λ patterns. patterns ≡ patterns_or other self.now.rows.now holder (option_map (item_value self.now.events.now) value.entry)) }
    {
        match value {
            None => Ok(other),
            Some(item) => Ok(
                self.patterns_in(holder, &item)?
                    .unwrap_or(Patterns::new(self.alloc)),
            ),
        }
    }

    /// Returns the patterns of a rule that has this value. `base` are its patterns in the
    /// configuration that is extended. A rule that is turned off has none. The only error is out of
    /// memory.
    fn rule_patterns(
        &self,
        base: Patterns<A>,
        value: Option<Item<'_>>,
    ) -> Result<Patterns<A>, AllocError>
        requires { IfSome value (λ item. item.inside ≤ length self.now.events.now) }
        ensures { IfOk result (λ patterns. patterns ≡ rule_patterns self.now.rows.now base (option_map (item_value self.now.events.now) value.entry)) }
    {
        let Some(item) = value else {
            return Ok(base);
        };
        if turns_on(item.kind) {
            Ok(base)
        } else if turns_off(item.kind) {
            Ok(Patterns::new(self.alloc))
        } else if starts_mapping(item.kind) {
            let ignore = value_of(self.events, item.inside, "ignore");
            self.patterns_or(base, place_or(ORIGIN, item.place), ignore)
        } else {
            Ok(base)
        }
    }

    /// Returns the patterns of a rule under a mapping of rules, whose entries start at the event
    /// with index `inside`. The only error is out of memory.
    fn ignore_over(&self, base: RuleIgnore<A>, inside: usize) -> Result<RuleIgnore<A>, AllocError>
        requires { inside ≤ length self.now.events.now }
        ensures { IfOk result (λ rule. rule ≡ ignore_over self.now.rows.now (entries_of (nodes_at self.now.events.now inside)) base) }
    {
        let value = value_of(self.events, inside, base.rule.name());
        Ok(RuleIgnore {
            rule: base.rule,
            patterns: self.rule_patterns(base.patterns, value)?,
        })
    }

    /// Returns the patterns of each rule under a mapping of rules, whose entries start at the event
    /// with index `inside`. The only error is out of memory.
    fn each_ignore_over(
        &self,
        base: Vec<RuleIgnore<A>, A>,
        inside: usize,
    ) -> Result<Vec<RuleIgnore<A>, A>, AllocError>
        requires { inside ≤ length self.now.events.now }
        ensures { IfOk result (λ rules. rules.items ≡ map (ignore_over self.now.rows.now (entries_of (nodes_at self.now.events.now inside))) base.items) }
    {
        let mut rules = Vec::with_capacity(self.alloc, base.len())?;
        for rule in base {
            rules.push(self.ignore_over(rule, inside)?)?;
        }
        Ok(rules)
    }

    /// Returns the patterns of each rule under the value of `rules`. The only error is out of
    /// memory.
    fn ignores_over(
        &self,
        base: Vec<RuleIgnore<A>, A>,
        rules: Option<Item<'_>>,
    ) -> Result<Vec<RuleIgnore<A>, A>, AllocError>
        requires { IfSome rules (λ item. item.inside ≤ length self.now.events.now) }
        ensures { IfOk result (λ all. all.items ≡ ignores_over self.now.rows.now base.items (option_map (item_value self.now.events.now) rules.entry)) }
    {
        match rules {
            Some(item) if starts_mapping(item.kind) => self.each_ignore_over(base, item.inside),
            _ => Ok(base),
        }
    }

    /// Returns the configuration `base`, which is extended, with the rules of the root laid over
    /// it.
    fn config_over(&self, base: Config, root: &Item<'_>) -> Config
        requires { root.now.inside ≤ length self.now.events.now }
        ensures { config_settings result ≡ rules_over (put_right (config_settings base)) (value_of (codes "rules") (entries_of (item_value self.now.events.now root.now).inside)) }
    {
        let rules = value_of(self.events, root.inside, "rules");
        self.rules_over(&put_right(base), rules)
    }

    /// Returns the patterns of each rule, those in the root over those in `base`. The only error is
    /// out of memory.
    fn rule_ignores_over(
        &self,
        base: Vec<RuleIgnore<A>, A>,
        root: &Item<'_>,
    ) -> Result<Vec<RuleIgnore<A>, A>, AllocError>
        requires { root.now.inside ≤ length self.now.events.now }
        ensures { IfOk result (λ all. all.items ≡ ignores_over self.now.rows.now base.items (value_of (codes "rules") (entries_of (item_value self.now.events.now root.now).inside))) }
    {
        let rules = value_of(self.events, root.inside, "rules");
        self.ignores_over(base, rules)
    }

    /// Returns `true` if the root has a key `ignore-from-file`.
    fn names_files(&self, root: &Item<'_>) -> bool
        requires { root.now.inside ≤ length self.now.events.now }
        ensures { result ≡ is_some (value_of (codes "ignore-from-file") (entries_of (item_value self.now.events.now root.now).inside)) }
    {
        value_of(self.events, root.inside, "ignore-from-file").is_some()
    }

    /// Returns the patterns of ignored paths: those of `ignore` in the root, else `files` if the
    /// root names files, else `base`. `files` are the patterns in the files that it names. The only
    /// error is out of memory.
    fn ignored_over(
        &self,
        base: Patterns<A>,
        files: Patterns<A>,
        root: &Item<'_>,
    ) -> Result<Patterns<A>, AllocError>
        requires { root.now.inside ≤ length self.now.events.now }
        ensures { IfOk result (λ patterns. patterns ≡ ignored_over base files self.now.rows.now (item_value self.now.events.now root.now)) }
    {
        let ignored = files_or(base, files, self.names_files(root));
        let ignore = value_of(self.events, root.inside, "ignore");
        self.patterns_or(ignored, place_or(ORIGIN, root.place), ignore)
    }

    /// Returns the patterns of the files that are YAML: those of `yaml-files` in the root, else the
    /// default ones. The only error is out of memory.
    fn yaml_files_of(&self, root: &Item<'_>) -> Result<Patterns<A>, AllocError>
        requires { root.now.inside ≤ length self.now.events.now }
        ensures { IfOk result (λ patterns. patterns ≡ yaml_files_of self.now.rows.now (item_value self.now.events.now root.now)) }
    {
        let files = value_of(self.events, root.inside, "yaml-files");
        let standard = standard_yaml_files(self.alloc)?;
        self.patterns_or(standard, place_or(ORIGIN, root.place), files)
    }

    /// Returns the project of the root, laid over the project `base` that is extended. `files` are
    /// the patterns in the files that the root names. The only error is out of memory.
    pub fn said_over(
        &self,
        base: Project<A>,
        files: Patterns<A>,
        root: &Item<'_>,
    ) -> Result<Project<A>, AllocError>
        requires { root.now.inside ≤ length self.now.events.now }
        ensures { IfOk result (λ project. project_value project ≡ said_over (project_value base) files self.now.rows.now (item_value self.now.events.now root.now)) }
    {
        Ok(Project {
            config: self.config_over(base.config, root),
            rules: self.rule_ignores_over(base.rules, root)?,
            ignored: self.ignored_over(base.ignored, files, root)?,
            yaml_files: self.yaml_files_of(root)?,
        })
    }
}
