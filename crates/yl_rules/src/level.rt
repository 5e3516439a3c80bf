//! The levels of problems, and the rules that are on.
ghost use Rattle.std.specs.Prelude.{◌≡◌};
ghost use Rattle.yl_rules.specs.Levels.{level_name};

use yl_text::RuleId;

/// The level of a problem.
#[derive(Clone, Copy, Debug, PartialEq, Eq)]
pub enum Level {
    Error,
    Warning,
}

impl Level {
    /// Returns the name of the level, as configurations and printed lines have it.
    pub fn name(self) -> &'static str
        ensures { result.now ≡ level_name self }
    {
        match self {
            Level::Error => "error",
            Level::Warning => "warning",
        }
    }
}

/// The number of rules, including `syntax`.
const RULES: usize = 19;

/// The level of each rule that is on. `syntax` is always on, at the level `Error`.
#[derive(Clone, Copy)]
pub struct RuleLevels {
    levels: [Option<Level>; RULES],
}

impl RuleLevels {
    ghost use Rattle.std.specs.Prelude.{◌≡◌};
    ghost use Rattle.yl_rules.specs.Levels.{none_on, set_level, default_levels};
    ghost use Rattle.yl_rules.specs.LevelOf.{level_of};

    /// Returns the levels with every rule off but `syntax`.
    pub fn none() -> RuleLevels
        ensures { level_of result ≡ none_on }
    {
        RuleLevels {
            levels: [None; RULES],
        }
    }

    /// Returns the levels of yamllint's default configuration.
    pub fn standard() -> RuleLevels
        ensures { level_of result ≡ default_levels }
    {
        let mut levels = [Some(Level::Error); RULES];
        levels[RuleId::KeyOrdering as usize] = None;
        levels[RuleId::QuotedStrings as usize] = None;
        levels[RuleId::Comments as usize] = Some(Level::Warning);
        levels[RuleId::DocumentStart as usize] = Some(Level::Warning);
        levels[RuleId::Truthy as usize] = Some(Level::Warning);
        RuleLevels { levels }
    }

    /// Returns these levels with one rule set to a level, or off. `syntax` stays as it is.
    pub fn with(self, rule: RuleId, level: Option<Level>) -> RuleLevels
        ensures { level_of result ≡ set_level (level_of self) rule level }
    {
        let mut levels = self.levels;
        levels[rule as usize] = level;
        RuleLevels { levels }
    }

    /// Returns the level of the rule, or `None` if the rule is off.
    pub fn level_of(&self, rule: RuleId) -> Option<Level>
        ensures { result ≡ level_of self.now rule }
    {
        match rule {
            RuleId::Syntax => Some(Level::Error),
            _ => self.levels[rule as usize],
        }
    }
}
