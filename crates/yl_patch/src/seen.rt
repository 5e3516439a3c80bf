//! The findings in the lines of the sections that an edit touches.
ghost use Rattle.std.specs.Prelude.{take, IfOk};
ghost use Rattle.yl_sections.specs.Kept.{rows_kept};
ghost use Rattle.yl_summary.specs.Edit.{IsSectionEdit};
ghost use Rattle.yl_edited_lines.specs.Edit.{IsTextEdit};
ghost use Rattle.yl_patch.specs.Cut.{IsApart};
ghost use Rattle.yl_patch.specs.Seen.{IsSeen};

use crate::touched::{Touched, ends_of, find_touched};
use std::alloc::{AllocError, Allocator};
use yl_config::Config;
use yl_edited_lines::{TextEdit, Window, find_there};
use yl_summary::SectionEdit;
use yl_text::{Finding, LineStore, Lines};

/// The lines of the sections that an edit touches, and the findings in them.
#[derive(Drop)]
pub struct SeenEdit<A: Allocator> {
    /// The lines of the sections that the edit touches.
    pub touched: Touched,
    /// The findings in these lines after the edit.
    pub found: Vec<Finding<A>, A>,
}

/// Returns the lines of the sections that an edit touches, and the findings in them after the edit,
/// whatever comments silence and a fault hides. The only error is out of memory.
pub fn see_edit<S: LineStore>(
    alloc: S::Alloc,
    config: &Config,
    text: &TextEdit<'_, S>,
    edit: &SectionEdit<'_, S::Alloc>,
) -> Result<SeenEdit<S::Alloc>, AllocError>
    requires text { IsTextEdit (S.rows text.now.store.now) text.now.a text.now.b text.now.rows.now }
    requires edit { IsSectionEdit edit.now }
    requires apart { IsApart (S.rows text.now.store.now) text.now.rows.now text.now.a text.now.b (rows_kept (take edit.now.from edit.now.sections.now.items)) (rows_kept (take edit.now.end edit.now.sections.now.items)) (rows_kept edit.now.kept.now) }
    ensures { IfOk result (λ s. IsSeen config.now (S.rows text.now.store.now) text.now.rows.now edit.now.sections.now.items edit.now.kept.now text.now.a text.now.b edit.now.from edit.now.end s.touched s.found.items) }
{
    let touched = find_touched(edit);
    let ends = ends_of(touched, text.store.len());
    let window = Window::new(
        text.edited(),
        touched.first as usize,
        touched.new_end as usize,
    );
    let (down, before) = (touched.first, edit.above.whole);
    let found = find_there(alloc, config, ends, &window, down, before, edit.kept)?;
    Ok(SeenEdit { touched, found })
}
