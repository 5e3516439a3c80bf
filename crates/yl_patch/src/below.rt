//! Decides whether the same problems below an edit are shown.
ghost use Rattle.std.specs.Prelude.{◌≡◌, true, IfOk};
ghost use Rattle.yl_summary.specs.Edit.{IsSectionEdit};
ghost use Rattle.yl_patch.specs.Patching.{StaysShown};

use crate::speaking::speak_alike;
use std::alloc::AllocError;
use yl_lint::first_text;
use yl_report::disables_file;
use yl_summary::SectionEdit;
use yl_text::Lines;

/// Returns `true` only if the same problems below the edit are shown as before. `false` implies
/// nothing. Looks at the first line and the touched sections alone, and at whether a section above
/// has a fault. The only error is out of memory.
pub fn stays_shown<L: Lines, M: Lines>(
    alloc: L::Alloc,
    old: &L,
    new: &M,
    edit: &SectionEdit<'_, L::Alloc>,
) -> Result<bool, AllocError>
    requires { IsSectionEdit edit.now }
    ensures { IfOk result (λ b. b ≡ true → StaysShown (L.rows old.now) (M.rows new.now) edit.now.sections.now.items edit.now.kept.now edit.now.from edit.now.end) }
{
    if disables_file(first_text(new)) != disables_file(first_text(old)) {
        return Ok(false);
    }
    if edit.above.has_fault() {
        return Ok(true);
    }
    if edit.gone.has_fault() != edit.come.has_fault() {
        return Ok(false);
    }
    speak_alike(alloc, edit)
}
