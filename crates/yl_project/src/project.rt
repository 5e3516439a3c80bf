//! Projects.
ghost use Rattle.std.specs.Prelude.{◌≡◌, ◌<◌, IfOk, map, [], None, unwrap_or, if◌then◌else◌};
ghost use Rattle.std.specs.Option.{option_map};
ghost use Rattle.yl_rules.specs.LevelOf.{level_of};
ghost use Rattle.yl_config.specs.Config.{config_settings};
ghost use Rattle.yl_config.specs.Misfits.{checked_rules};
ghost use Rattle.yl_config.specs.Settings.{all_off, at_level, standard};
ghost use Rattle.yl_project.specs.Answered.{project_value, settings_answer};
ghost use Rattle.yl_project.specs.Paths.{after_byte, fits, settings_for, without_front, without_ignoring};
ghost use Rattle.yl_project.specs.Said.{as_warnings, everywhere, relaxed, relaxed_options, standard_yaml_files, switched_off};

use crate::texts::read_lines;
use std::alloc::{AllocError, Allocator};
use std::marker::Model;
use yl_config::{Config, RuleOptions};
use yl_indentation::IndentSequences;
use yl_patterns::Patterns;
use yl_rules::{Level, RuleLevels};
use yl_text::RuleId;

/// The rules that a configuration may turn on.
pub const CHECKED_RULES: [RuleId; 18] = [
    RuleId::Anchors,
    RuleId::Braces,
    RuleId::Brackets,
    RuleId::Colons,
    RuleId::Commas,
    RuleId::Comments,
    RuleId::DocumentStart,
    RuleId::EmptyLines,
    RuleId::Hyphens,
    RuleId::Indentation,
    RuleId::KeyDuplicates,
    RuleId::KeyOrdering,
    RuleId::LineLength,
    RuleId::NewLineAtEndOfFile,
    RuleId::NewLines,
    RuleId::QuotedStrings,
    RuleId::TrailingSpaces,
    RuleId::Truthy,
];

/// The patterns of the files that are YAML by default.
const YAML_FILES: &str = "*.yaml\n*.yml\n.yamllint";

/// A rule, and the patterns of the paths for which it is off.
#[derive(Drop)]
pub struct RuleIgnore<A: Allocator> {
    /// The rule.
    pub rule: RuleId,
    /// The patterns of the paths for which it is off.
    pub patterns: Patterns<A>,
}

impl<A: Allocator> Model for RuleIgnore<A> {
    ghost use Rattle.yl_project.specs.Said.{RuleIgnoreValue};

    ghost Value = { RuleIgnoreValue };

    ghost view = { λ r. record { rule = r.rule; patterns = r.patterns } };
}

/// The configuration of a project: the rules that are on and their options, the paths for which a
/// rule is off, the paths that are ignored, and the files that are YAML.
#[derive(Drop)]
pub struct Project<A: Allocator> {
    pub(crate) config: Config,
    pub(crate) rules: Vec<RuleIgnore<A>, A>,
    pub(crate) ignored: Patterns<A>,
    pub(crate) yaml_files: Patterns<A>,
}

impl<A: Allocator> Model for Project<A> {
    ghost use Rattle.yl_project.specs.Answered.{KeptProject};

    ghost Value = { KeptProject };

    ghost view = { λ p. record { config = p.config; rules = p.rules.items; ignored = p.ignored; yaml_files = p.yaml_files } };
}

/// Returns each of `rules`, off for no path. The only error is out of memory.
fn ignored_nowhere<A: Allocator + Copy>(
    alloc: A,
    rules: &[RuleId],
) -> Result<Vec<RuleIgnore<A>, A>, AllocError>
    ensures { IfOk result (λ all. all.items ≡ map (λ rule. record { rule = rule; patterns = [] }) rules.now) }
{
    let mut all = Vec::with_capacity(alloc, rules.len())?;
    for rule in rules {
        all.push(RuleIgnore {
            rule: *rule,
            patterns: Patterns::new(alloc),
        })?;
    }
    Ok(all)
}

/// Returns the patterns of the files that are YAML by default. The only error is out of memory.
#[tactic(auto, unfolding(crate::specs::Said::standard_yaml_files))]
pub fn standard_yaml_files<A: Allocator + Copy>(alloc: A) -> Result<Patterns<A>, AllocError>
    ensures { IfOk result (λ patterns. patterns ≡ standard_yaml_files) }
{
    Ok(read_lines(alloc, YAML_FILES)?.unwrap_or(Patterns::new(alloc)))
}

/// Returns the levels `from`, with each of `rules` as a warning.
#[tactic(auto, unfolding(crate::specs::Said::as_warnings))]
fn as_warnings(from: RuleLevels, rules: &[RuleId]) -> RuleLevels
    ensures { level_of result ≡ as_warnings (level_of from) rules.now }
{
    let mut levels = from;
    for rule in rules {
        levels = levels.with(*rule, Some(Level::Warning));
    }
    levels
}

/// Returns the levels `from`, with each of `rules` off.
#[tactic(auto, unfolding(crate::specs::Said::switched_off))]
fn switched_off(from: RuleLevels, rules: &[RuleId]) -> RuleLevels
    ensures { level_of result ≡ switched_off (level_of from) rules.now }
{
    let mut levels = from;
    for rule in rules {
        levels = levels.with(*rule, None);
    }
    levels
}

/// Returns the options of yamllint's configuration `relaxed`. `standard` are the standard options.
fn relaxed_options(standard: RuleOptions) -> RuleOptions
    ensures { result ≡ relaxed_options standard }
{
    let mut options = standard;
    options.braces.max_spaces_inside = Some(1);
    options.brackets.max_spaces_inside = Some(1);
    options.indentation.indent_sequences = IndentSequences::Consistent;
    options
}

/// Returns the settings of yamllint's configuration `relaxed`.
fn relaxed_config() -> Config
    ensures { config_settings result ≡ relaxed }
{
    let standard = Config::standard();
    let warnings = as_warnings(
        *standard.levels(),
        &[
            RuleId::Braces,
            RuleId::Brackets,
            RuleId::Colons,
            RuleId::Commas,
            RuleId::EmptyLines,
            RuleId::Hyphens,
            RuleId::Indentation,
            RuleId::LineLength,
        ],
    );
    let levels = switched_off(
        warnings,
        &[RuleId::Comments, RuleId::DocumentStart, RuleId::Truthy],
    );
    Config::new(levels, relaxed_options(*standard.options()))
}

/// Returns the rest of a path after the character `c`, if the path starts with it.
fn after_char(path: &str, c: char) -> Option<&str>
    requires { c < 128 }
    ensures { option_map (λ rest. rest.now) result ≡ after_byte c path.now }
{
    path.strip_prefix(c)
}

/// Returns the rest of `path` after a `/` at its start, or `other` if it does not start with one.
fn after_slash<'a>(path: &'a str, other: &'a str) -> &'a str
    ensures { result.now ≡ unwrap_or (after_byte 47 path.now) other.now }
{
    match after_char(path, '/') {
        Some(rest) => rest,
        None => other,
    }
}

/// Returns a path without one `./` or `/` at its start.
fn without_front(path: &str) -> &str
    ensures { result.now ≡ without_front path.now }
{
    match after_char(path, '.') {
        Some(rest) => after_slash(rest, path),
        None => after_slash(path, path),
    }
}

/// Returns a configuration, without `rule` if it is off for this path. The only error is out of
/// memory.
fn without_rule<A: Allocator + Copy>(
    config: Config,
    rule: &RuleIgnore<A>,
    path: &str,
) -> Result<Config, AllocError>
    ensures { IfOk result (λ c. config_settings c ≡ (if fits rule.now.patterns path.now then at_level rule.now.rule None (config_settings config) else config_settings config)) }
{
    if rule.patterns.fits(path)? {
        Ok(config.without(rule.rule))
    } else {
        Ok(config)
    }
}

/// Returns a configuration without the rules that are off for this path. The only error is out of
/// memory.
#[tactic(auto, unfolding(crate::specs::Paths::without_ignoring))]
fn without_ignoring<A: Allocator + Copy>(
    from: Config,
    rules: &[RuleIgnore<A>],
    path: &str,
) -> Result<Config, AllocError>
    ensures { IfOk result (λ c. config_settings c ≡ without_ignoring rules.now path.now (config_settings from)) }
{
    let mut config = from;
    for rule in rules {
        config = without_rule(config, rule, path)?;
    }
    Ok(config)
}

impl<A: Allocator + Copy> Project<A> {
    /// Returns a project with these settings for each path. The only error is out of memory.
    fn everywhere(alloc: A, config: Config) -> Result<Project<A>, AllocError>
        ensures { IfOk result (λ p. project_value p ≡ everywhere (config_settings config)) }
    {
        Ok(Project {
            config,
            rules: ignored_nowhere(alloc, &CHECKED_RULES)?,
            ignored: Patterns::new(alloc),
            yaml_files: standard_yaml_files(alloc)?,
        })
    }

    /// Returns a project in which no rule is on. The only error is out of memory.
    pub fn empty(alloc: A) -> Result<Project<A>, AllocError>
        ensures { IfOk result (λ p. project_value p ≡ everywhere all_off) }
    {
        Project::everywhere(alloc, Config::all_off())
    }

    /// Returns a project with yamllint's configuration `default`. The only error is out of memory.
    pub fn standard(alloc: A) -> Result<Project<A>, AllocError>
        ensures { IfOk result (λ p. project_value p ≡ everywhere standard) }
    {
        Project::everywhere(alloc, Config::standard())
    }

    /// Returns a project with yamllint's configuration `relaxed`. The only error is out of memory.
    pub fn relaxed(alloc: A) -> Result<Project<A>, AllocError>
        ensures { IfOk result (λ p. project_value p ≡ everywhere relaxed) }
    {
        Project::everywhere(alloc, relaxed_config())
    }

    /// Returns the rules that hold for a text without a path.
    pub fn config(&self) -> &Config
        ensures { config_settings result.now ≡ (project_value self.now).settings }
    {
        &self.config
    }

    /// Returns the rules that hold for a path, or `None` if the path is ignored. The names in a
    /// path are separated by `/`. One `./` or `/` at its start is skipped. The only error is out of
    /// memory.
    pub fn config_for(&self, path: &str) -> Result<Option<Config>, AllocError>
        ensures { IfOk result (λ config. settings_answer config ≡ settings_for (project_value self.now) path.now) }
    {
        let path = without_front(path);
        if self.ignored.fits(path)? {
            return Ok(None);
        }
        Ok(Some(without_ignoring(self.config, &self.rules, path)?))
    }

    /// Returns `true` if a file with this name is YAML. The name is the last one of its path. The
    /// only error is out of memory.
    pub fn is_yaml(&self, name: &str) -> Result<bool, AllocError>
        ensures { IfOk result (λ answer. answer ≡ fits self.now.yaml_files name.now) }
    {
        self.yaml_files.fits(name)
    }
}
