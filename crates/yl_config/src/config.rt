//! The configuration.
ghost use Rattle.std.specs.Prelude.{◌≡◌, ◌≤◌, None, length};
ghost use Rattle.yl_rules.specs.LevelOf.{level_of};
ghost use Rattle.yl_rules.specs.Levels.{default_levels};
ghost use Rattle.yl_config.specs.Config.{levels_of, options_of, row_options_of, config_settings};
ghost use Rattle.yl_settings.specs.Item.{item_value};
ghost use Rattle.yl_settings.specs.Options.{option_of};
ghost use Rattle.yl_config.specs.Settings.{afresh, all_off, at_level, turned_on};
ghost use Rattle.yl_settings.specs.Standard.{standard_rule_options};

use yl_events::Event;
use yl_indentation::IndentationOptions;
use yl_lexeme_rules::{
    BracketsOptions, ColonsOptions, CommasOptions, DocumentStartOptions, HyphensOptions,
    QuotedStringsOptions, TruthyOptions,
};
use yl_rules::{CommentsOptions, Level, RowOptions, RuleLevels, RunOptions};
use yl_settings::{Answer, Item, RuleOptions, standard_rule_options};
use yl_text::RuleId;
use yl_tree::{AnchorsOptions, KeyDuplicatesOptions};

/// A configuration: which rules are on, at which level, and the options of the rules.
#[derive(Clone, Copy)]
pub struct Config {
    /// The level of each rule that is on.
    levels: RuleLevels,
    /// The options of all rules.
    options: RuleOptions,
}

impl Config {
    /// Returns yamllint's default configuration: all checked rules are on except key-ordering and
    /// quoted-strings. comments, document-start and truthy are at level warning, and all others at
    /// level error.
    pub fn standard() -> Config
        ensures levels { levels_of result ≡ default_levels }
        ensures options { options_of result ≡ standard_rule_options }
    {
        Config {
            levels: RuleLevels::standard(),
            options: standard_rule_options(),
        }
    }

    /// Creates a configuration of these levels and options.
    pub fn new(levels: RuleLevels, options: RuleOptions) -> Config
        ensures levels { levels_of result ≡ level_of levels }
        ensures options { options_of result ≡ options }
    {
        Config { levels, options }
    }

    /// Returns a configuration with no rule on except `syntax`, and with the options of the default
    /// configuration.
    pub fn all_off() -> Config
        ensures { config_settings result ≡ all_off }
    {
        Config {
            levels: RuleLevels::none(),
            options: standard_rule_options(),
        }
    }

    /// Sets the level of a rule. `None` turns it off. The rule `syntax` stays on, at level error.
    pub(crate) fn set_level(&mut self, rule: RuleId, level: Option<Level>)
        ensures { config_settings self.new ≡ at_level rule level (config_settings self.old) }
    {
        self.levels = self.levels.with(rule, level);
    }

    /// Returns the configuration with a rule turned off. The rule `syntax` stays on, at level
    /// error.
    pub fn without(self, rule: RuleId) -> Config
        ensures { config_settings result ≡ at_level rule None (config_settings self) }
    {
        Config {
            levels: self.levels.with(rule, None),
            options: self.options,
        }
    }

    /// Sets the option with this name of a rule to the value of `item`, and returns whether there
    /// is such an option and it takes the value.
    pub(crate) fn set_option(
        &mut self,
        rule: RuleId,
        name: &str,
        events: &[Event<'_>],
        item: &Item<'_>,
    ) -> Answer
        requires { item.now.inside ≤ length events.now }
        ensures answer { result ≡ (option_of rule name.now (item_value events.now item.now)).answer }
        ensures said { config_settings self.new ≡ record { levels = levels_of self.old; options = (option_of rule name.now (item_value events.now item.now)).change (options_of self.old) } }
    {
        self.options.set(rule, name, events, item)
    }

    /// Gives a rule this level, and the options that it has in `base`.
    pub(crate) fn start_afresh(&mut self, base: &Config, rule: RuleId, level: Option<Level>)
        ensures { config_settings self.new ≡ afresh (config_settings base.now) rule level (config_settings self.old) }
    {
        self.levels = self.levels.with(rule, level);
        self.options.take(rule, &base.options);
    }

    /// Turns a rule on, at its level in `base`, or at level error if it is off there, and gives it
    /// the options that it has in `base`.
    pub(crate) fn turn_on(&mut self, base: &Config, rule: RuleId)
        ensures { config_settings self.new ≡ turned_on (config_settings base.now) rule (config_settings self.old) }
    {
        let level = base.levels.level_of(rule).unwrap_or(Level::Error);
        self.start_afresh(base, rule, Some(level));
    }

    /// Returns the levels of the rules. A rule without a level is off.
    pub fn levels(&self) -> &RuleLevels
        ensures { level_of result.now ≡ levels_of self.now }
    {
        &self.levels
    }

    /// Returns the options of all rules, including those that are off.
    pub fn options(&self) -> &RuleOptions
        ensures { result.now ≡ options_of self.now }
    {
        &self.options
    }

    /// Returns the options of the rules that look at one line: line-length.
    pub fn row_options(&self) -> &RowOptions
        ensures { result.now ≡ row_options_of self.now }
    {
        &self.options.row
    }

    /// Returns the options of the rules that look at the lines of a whole text: empty-lines and
    /// new-lines.
    pub fn run_options(&self) -> &RunOptions
        ensures { result.now ≡ (options_of self.now).run }
    {
        &self.options.run
    }

    /// Returns the options of the rule comments.
    pub fn comments_options(&self) -> &CommentsOptions
        ensures { result.now ≡ (options_of self.now).comments }
    {
        &self.options.comments
    }

    /// Returns the options of the rule braces.
    pub fn braces_options(&self) -> &BracketsOptions
        ensures { result.now ≡ (options_of self.now).braces }
    {
        &self.options.braces
    }

    /// Returns the options of the rule brackets.
    pub fn brackets_options(&self) -> &BracketsOptions
        ensures { result.now ≡ (options_of self.now).brackets }
    {
        &self.options.brackets
    }

    /// Returns the options of the rule colons.
    pub fn colons_options(&self) -> &ColonsOptions
        ensures { result.now ≡ (options_of self.now).colons }
    {
        &self.options.colons
    }

    /// Returns the options of the rule commas.
    pub fn commas_options(&self) -> &CommasOptions
        ensures { result.now ≡ (options_of self.now).commas }
    {
        &self.options.commas
    }

    /// Returns the options of the rule hyphens.
    pub fn hyphens_options(&self) -> &HyphensOptions
        ensures { result.now ≡ (options_of self.now).hyphens }
    {
        &self.options.hyphens
    }

    /// Returns the options of the rule document-start.
    pub fn document_start_options(&self) -> &DocumentStartOptions
        ensures { result.now ≡ (options_of self.now).document_start }
    {
        &self.options.document_start
    }

    /// Returns the options of the rule truthy.
    pub fn truthy_options(&self) -> &TruthyOptions
        ensures { result.now ≡ (options_of self.now).truthy }
    {
        &self.options.truthy
    }

    /// Returns the options of the rule quoted-strings.
    pub fn quoted_strings_options(&self) -> &QuotedStringsOptions
        ensures { result.now ≡ (options_of self.now).quoted_strings }
    {
        &self.options.quoted_strings
    }

    /// Returns the options of the rule indentation.
    pub fn indentation_options(&self) -> &IndentationOptions
        ensures { result.now ≡ (options_of self.now).indentation }
    {
        &self.options.indentation
    }

    /// Returns the options of the rule key-duplicates.
    pub fn key_duplicates_options(&self) -> &KeyDuplicatesOptions
        ensures { result.now ≡ (options_of self.now).key_duplicates }
    {
        &self.options.key_duplicates
    }

    /// Returns the options of the rule anchors.
    pub fn anchors_options(&self) -> &AnchorsOptions
        ensures { result.now ≡ (options_of self.now).anchors }
    {
        &self.options.anchors
    }
}
