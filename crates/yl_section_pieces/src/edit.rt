//! An edit within one piece.
ghost use Rattle.std.specs.Prelude.{◌≡◌, true, List, map, IfOk, IfSome};
ghost use Rattle.yl_record.specs.Records.{RecordValue};
ghost use Rattle.yl_section_pieces.specs.Edit.{HasNoneOnEvents, IsEditAlone, kept_alone};
ghost use Rattle.yl_section_pieces.specs.Pieces.{BeginsWithLexeme, IsStateAfter};
ghost use Rattle.yl_section_pieces.specs.PlainRows.{ArePlain};

use crate::openings::openings_of;
use crate::plain_rows::{are_plain, begins_with_lexeme, has_none_on_events};
use crate::run_judge::judge_run;
use std::alloc::{AllocError, Allocator};
use yl_config::Config;
use yl_record::Record;
use yl_sections::{DocumentState, Kept, tree_options};
use yl_tree::TreeOptions;

/// The options with which no rule on keys and anchors is on.
const NO_RULES: TreeOptions = TreeOptions {
    key_duplicates: None,
    key_ordering: false,
    anchors: None,
};

/// Returns whether nothing was found in the old rows by the rules on keys and anchors, the new rows
/// begin with a lexeme, and both are plain.
fn may_be_alone<A: Allocator>(kept: &Kept<A>, old: &[&Record<A>], new: &[&Record<A>]) -> bool
    ensures none { result ≡ true → HasNoneOnEvents kept.now }
    ensures begins { result ≡ true → BeginsWithLexeme (map (λ r. r.now) new.now) }
    ensures old { result ≡ true → ArePlain (map (λ r. r.now) old.now) }
    ensures new { result ≡ true → ArePlain (map (λ r. r.now) new.now) }
{
    has_none_on_events(kept) && begins_with_lexeme(new) && are_plain(old) && are_plain(new)
}

/// Returns the summary of a piece whose rows `old` are replaced by `new`, or `None` if the edit may
/// change more than this piece. `kept` is the summary of the old rows, and `before` is the state
/// before them. Judges no other rows. The only error is out of memory, or more rows or lexemes than a
/// `u32` counts.
pub fn edit_piece<A: Allocator + Copy>(
    alloc: A,
    config: &Config,
    before: &DocumentState<A>,
    kept: &Kept<A>,
    old: &[&Record<A>],
    new: &[&Record<A>],
) -> Result<Option<Kept<A>>, AllocError>
    ensures { IfOk result (λ r. IfSome r (λ k. (front : List RecordValue) → IsStateAfter front before.now
        → IsEditAlone config.now front (map (λ r. r.now) old.now) (map (λ r. r.now) new.now) kept.now
        × (k ≡ kept_alone config.now before.now front (map (λ r. r.now) new.now)))) }
{
    if !may_be_alone(kept, old, new) {
        return Ok(None);
    }
    let Ok(rows) = u32::try_from(new.len()) else {
        return Err(AllocError);
    };
    let openings = openings_of(alloc, before)?;
    let Some(was) = judge_run(alloc, config, &NO_RULES, before, &openings, old)? else {
        return Ok(None);
    };
    let options = tree_options(config);
    let Some(now) = judge_run(alloc, config, &options, before, &openings, new)? else {
        return Ok(None);
    };
    let is_alike = was.ends_alike(&now)?;
    if !is_alike {
        return Ok(None);
    }
    Ok(Some(now.finish(alloc, config, rows)?))
}
