//! The summaries of the sections of a text and their overviews.
ghost use Rattle.std.specs.Prelude.{◌≡◌, Some, vec_len, IfOk};
ghost use Rattle.std.specs.List.{splice};
ghost use Rattle.yl_summary.specs.Overview.{AreFew, AreOverviews};
ghost use Rattle.yl_session.specs.Known.{AreOverviewsAfter};

use std::alloc::{AllocError, Allocator};
use yl_chunks::Chunks;
use yl_rejudge::Rejudged;
use yl_sections::Kept;
use yl_summary::{Overview, overviews_of};

/// The summaries of the sections of a text, and the overviews, each of several sections.
#[derive(Drop)]
pub struct KnownSections<A: Allocator> {
    /// The summary of each section.
    pub kept: Chunks<Kept<A>, A>,
    /// The overviews, each of several sections.
    pub overviews: Vec<Overview, A>,
}

/// Returns the summaries `kept` with their overviews. The only error is out of memory.
pub fn known_of<A: Allocator + Copy>(
    alloc: A,
    kept: Chunks<Kept<A>, A>,
) -> Result<KnownSections<A>, AllocError>
    requires { AreFew kept.items }
    ensures kept { IfOk result (λ s. s.kept.items ≡ kept.items) }
    ensures overviews { IfOk result (λ s. AreOverviews s.kept.items s.overviews.items) }
{
    let overviews = overviews_of(alloc, &kept)?;
    Ok(KnownSections { kept, overviews })
}

/// Replaces the summaries of some sections by `new`, and the overviews by `overviews` if there are
/// any. The memory must be allocated before. Does not allocate.
pub fn put_kept<A: Allocator + Copy>(
    known: &mut KnownSections<A>,
    new: &mut Rejudged<A>,
    overviews: Option<Vec<Overview, A>>,
)
    requires room { known.old.kept.room ≡ Some (record { a = new.old.from; b = new.old.end; count = vec_len new.old.kept }) }
    requires overviews { AreOverviewsAfter (splice known.old.kept.items new.old.from new.old.end new.old.kept.items) known.old.overviews.items overviews }
    ensures items { known.new.kept.items ≡ splice known.old.kept.items new.old.from new.old.end new.old.kept.items }
    ensures overviews { AreOverviews known.new.kept.items known.new.overviews.items }
{
    known.kept.fill_room(new.from, new.end, &mut new.kept);
    if let Some(overviews) = overviews {
        known.overviews = overviews;
    }
}
