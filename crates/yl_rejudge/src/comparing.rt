//! Decides whether an edit leaves the summaries of all sections as they are.
ghost use Rattle.std.specs.Prelude.{◌≡◌, ◌-◌, true, length, take, drop};
ghost use Rattle.yl_text.specs.Store.{IsRange};

use crate::rejudging::Rejudged;
use std::alloc::Allocator;
use yl_chunks::Chunks;
use yl_sections::Kept;

/// Returns `true` only if the summaries of the sections with the indices `from..end` are the same
/// as these.
fn are_same<A: Allocator + Copy>(
    kept: &Chunks<Kept<A>, A>,
    from: usize,
    end: usize,
    other: &[Kept<A>],
) -> bool
    requires { IsRange from end (length kept.now.items) }
    ensures { result ≡ true → take (end - from) (drop from kept.now.items) ≡ other.now }
{
    if end - from != other.len() {
        return false;
    }
    for i in 0..other.len() {
        if !kept.get(from + i).is_same(&other[i]) {
            return false;
        }
    }
    true
}

impl<A: Allocator + Copy> Rejudged<A> {
    ghost use Rattle.std.specs.Prelude.{◌≡◌, true, length};
    ghost use Rattle.std.specs.List.{splice};
    ghost use Rattle.yl_text.specs.Store.{IsRange};

    /// Returns `true` only if the summaries of all sections stay as they are when these are put in.
    pub fn leaves(&self, kept: &Chunks<Kept<A>, A>) -> bool
        requires { IsRange self.now.from self.now.end (length kept.now.items) }
        ensures { result ≡ true → splice kept.now.items self.now.from self.now.end self.now.kept.items ≡ kept.now.items }
    {
        are_same(kept, self.from, self.end, &self.kept)
    }
}
