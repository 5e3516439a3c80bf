//! Decides whether the summaries of all sections stay, since the rows are the same for the rules.
ghost use Rattle.std.specs.Prelude.{◌≡◌, ◌≤◌, true, false, None, length, map, take, drop, IfOk};
ghost use Rattle.std.specs.Bool.{then_some};
ghost use Rattle.yl_text.specs.declared.finding.RuleId.TheVariants.{QuotedStrings, Truthy};
ghost use Rattle.yl_config.specs.Config.{options_of};
ghost use Rattle.yl_sections.specs.Kept.{is_on};
ghost use Rattle.yl_sections.specs.Judge.{kept_of_section};
ghost use Rattle.yl_sections.specs.Sections.{sections};
ghost use Rattle.yl_retyped.specs.Rows.{AreRowsAlike};

use crate::rows::is_row_alike;
use std::alloc::{AllocError, Allocator};
use yl_chunks::{Chunks, Spliced};
use yl_config::Config;
use yl_lexeme_rules::LexemeOptions;
use yl_record::Record;
use yl_sections::{is_on, options_if};
use yl_text::RuleId;

/// Returns the options of the rules on values. All other rules are off.
fn value_options(config: &Config) -> LexemeOptions
    ensures truthy { result.truthy ≡ then_some (is_on config.now Truthy) (options_of config.now).truthy }
    ensures quoted { result.quoted_strings ≡ then_some (is_on config.now QuotedStrings) (options_of config.now).quoted_strings }
{
    LexemeOptions {
        braces: None,
        brackets: None,
        colons: None,
        commas: None,
        hyphens: None,
        document_start: None,
        truthy: options_if(is_on(config, RuleId::Truthy), config.truthy_options()),
        quoted_strings: options_if(
            is_on(config, RuleId::QuotedStrings),
            config.quoted_strings_options(),
        ),
    }
}

/// Returns `true` only if the rows `from..end`, counted from 0, are the same for the rules as the
/// old ones, apart from the texts of values. The only error is out of memory.
fn are_rows_alike<A: Allocator + Copy>(
    alloc: A,
    options: &LexemeOptions,
    old: &Chunks<Record<A>, A>,
    new: &Spliced<'_, Record<A>, A>,
    from: usize,
    end: usize,
) -> Result<bool, AllocError>
    requires old { end ≤ length old.now.items }
    requires new { end ≤ length new.now }
    ensures { IfOk result (λ b. b ≡ true → AreRowsAlike options.now old.now.items new.now from end) }
{
    for i in from..end {
        if !is_row_alike(alloc, options, old.get(i), new.get(i))? {
            return Ok(false);
        }
    }
    Ok(true)
}

/// Returns `true` only if the sections of the new records have the same summaries as those of the
/// old ones. `false` implies nothing. The records before row `from` and those from row `end` on
/// must be the same in both. Rows count from 0. Looks only at the rows between. The only error is
/// out of memory.
pub fn keep_sections<A: Allocator + Copy>(
    alloc: A,
    config: &Config,
    old: &Chunks<Record<A>, A>,
    new: &Spliced<'_, Record<A>, A>,
    from: usize,
    end: usize,
) -> Result<bool, AllocError>
    requires range { from ≤ end }
    requires old { end ≤ length old.now.items }
    requires new { end ≤ length new.now }
    requires before { take from old.now.items ≡ take from new.now }
    requires behind { drop end old.now.items ≡ drop end new.now }
    ensures { IfOk result (λ b. b ≡ true
        → map (kept_of_section config.now) (sections old.now.items) ≡ map (kept_of_section config.now) (sections new.now)) }
{
    are_rows_alike(alloc, &value_options(config), old, new, from, end)
}
