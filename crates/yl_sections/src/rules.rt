//! Applies the rules of a configuration to a section.
ghost use Rattle.std.specs.Prelude.{◌≡◌, map, IfOk};
ghost use Rattle.std.specs.Bool.{then_some};
ghost use Rattle.yl_lexeme.specs.PlacedComments.{placed_comment_value};
ghost use Rattle.yl_sections.specs.Kept.{is_on, lexeme_options_of, shown_comment_findings, tree_options_of};

use std::alloc::{AllocError, Allocator};
use yl_config::Config;
use yl_lexeme::PlacedComment;
use yl_lexeme_rules::LexemeOptions;
use yl_rules::comment_problems;
use yl_text::{Finding, RuleId};
use yl_tree::TreeOptions;

/// Returns whether a rule is on.
pub fn is_on(config: &Config, rule: RuleId) -> bool
    ensures { result ≡ is_on config.now rule }
{
    config.levels().level_of(rule).is_some()
}

/// Returns the options if the rule is on.
pub fn options_if<O: Copy>(is_on: bool, options: &O) -> Option<O>
    ensures { result ≡ then_some is_on options.now }
{
    if is_on { Some(*options) } else { None }
}

/// Returns the options of the rules on lexemes that are on.
pub fn lexeme_options(config: &Config) -> LexemeOptions
    ensures { result ≡ lexeme_options_of config.now }
{
    LexemeOptions {
        braces: options_if(is_on(config, RuleId::Braces), config.braces_options()),
        brackets: options_if(is_on(config, RuleId::Brackets), config.brackets_options()),
        colons: options_if(is_on(config, RuleId::Colons), config.colons_options()),
        commas: options_if(is_on(config, RuleId::Commas), config.commas_options()),
        hyphens: options_if(is_on(config, RuleId::Hyphens), config.hyphens_options()),
        document_start: options_if(
            is_on(config, RuleId::DocumentStart),
            config.document_start_options(),
        ),
        truthy: options_if(is_on(config, RuleId::Truthy), config.truthy_options()),
        quoted_strings: options_if(
            is_on(config, RuleId::QuotedStrings),
            config.quoted_strings_options(),
        ),
    }
}

/// Returns the findings of the rule comments, or none if it is off. The only error is out of
/// memory.
#[inline(never)]
pub fn comments_found<A: Allocator + Copy>(
    alloc: A,
    config: &Config,
    comments: &[PlacedComment<'_>],
) -> Result<Vec<Finding<A>, A>, AllocError>
    ensures { IfOk result (λ v. v.items ≡ shown_comment_findings config.now (map placed_comment_value comments.now)) }
{
    if !is_on(config, RuleId::Comments) {
        return Ok(Vec::new(alloc));
    }
    comment_problems(alloc, comments, config.comments_options())
}

/// Returns the options of the rules on keys and anchors that are on.
pub fn tree_options(config: &Config) -> TreeOptions
    ensures { result ≡ tree_options_of config.now }
{
    TreeOptions {
        key_duplicates: options_if(
            is_on(config, RuleId::KeyDuplicates),
            config.key_duplicates_options(),
        ),
        key_ordering: is_on(config, RuleId::KeyOrdering),
        anchors: options_if(is_on(config, RuleId::Anchors), config.anchors_options()),
    }
}
