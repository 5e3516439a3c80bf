//! What is known of consecutive sections.
ghost use Rattle.std.specs.Prelude.{◌≡◌, ◌++◌, ◌∷◌, [], List, length, true, false, is_some};
ghost use Rattle.std.specs.List.{AllByRecursion};
ghost use Rattle.yl_sections.specs.Kept.{KeptValue};

use std::alloc::Allocator;
use yl_indentation::Measure;
use yl_sections::Kept;

/// Which of some sections may silence rules. Each section with a comment that may do so has an
/// index in `from..end`.
#[derive(Clone, Copy)]
pub struct Silencing {
    /// The index of the first of these sections, counted from 0.
    pub from: usize,
    /// The number of lines of the sections before them.
    pub row: u32,
    /// The index after that of the last of these sections, counted from 0. It is 0 if no section
    /// may silence a rule.
    pub end: usize,
}

/// What is known of consecutive sections.
#[derive(Clone, Copy)]
pub struct Overview {
    /// The number of sections.
    pub sections: usize,
    /// The number of their lines.
    pub rows: u32,
    /// The number of sections before the first one with a fault, or of all sections if none has a
    /// fault.
    pub sound: usize,
    /// The number of lines of the first `sound` sections.
    pub row: u32,
    /// The measure of the indentation facts of all sections.
    pub whole: Measure,
    /// The sections that may silence rules.
    pub silencing: Silencing,
}

/// Returns `true` if the section has a fault.
fn is_faulty<A: Allocator>(kept: &Kept<A>) -> bool
    ensures { result ≡ is_some kept.now.fault }
{
    match kept.fault() {
        None => false,
        Some(_) => true,
    }
}

/// Returns `true` only if the section has no fault and no comment that may silence rules.
fn is_quiet<A: Allocator>(kept: &Kept<A>) -> bool
    ensures fault { result ≡ true → is_some kept.now.fault ≡ false }
    ensures comments { result ≡ true → length kept.now.comments ≡ 0 }
{
    if is_faulty(kept) {
        return false;
    }
    kept.comments().is_empty()
}

impl Overview {
    ghost use Rattle.std.specs.Prelude.{◌≡◌, ◌++◌, ◌∷◌, [], List, true, length};
    ghost use Rattle.yl_summary.specs.Overview.{AreFew, IsFirstFault, IsOverviewOf, IsSilencingOf, IsSilent, has_fault};

    /// Returns the overview of no sections.
    pub fn empty() -> Overview
        ensures { IsOverviewOf [] result }
    {
        Overview {
            sections: 0,
            rows: 0,
            sound: 0,
            row: 0,
            whole: Measure::empty(),
            silencing: Silencing {
                from: 0,
                row: 0,
                end: 0,
            },
        }
    }

    /// Returns the overview of one section.
    pub fn of<A: Allocator>(kept: &Kept<A>) -> Overview
        ensures { IsOverviewOf (kept.now ∷ []) result }
    {
        let rows = kept.rows();
        let is_faulty = is_faulty(kept);
        let is_silent = kept.comments().is_empty();
        Overview {
            sections: 1,
            rows,
            sound: if is_faulty { 0 } else { 1 },
            row: if is_faulty { 0 } else { rows },
            whole: kept.measure(),
            silencing: Silencing {
                from: 0,
                row: 0,
                end: if is_silent { 0 } else { 1 },
            },
        }
    }

    /// Returns the number of sections before the first one with a fault, among these and the later
    /// ones, and the number of lines of these sections.
    fn first_fault(self, later: Overview) -> (usize, u32)
        ensures { (ks ls : List KeptValue) → AreFew (ks ++ ls) → IsOverviewOf ks self → IsOverviewOf ls later → IsFirstFault (ks ++ ls) result.0 result.1 }
    {
        if self.sound < self.sections {
            return (self.sound, self.row);
        }
        (
            self.sections.saturating_add(later.sound),
            self.rows.saturating_add(later.row),
        )
    }

    /// Returns which of these sections and of the later ones may silence rules.
    fn silencing_with(self, later: Overview) -> Silencing
        ensures { (ks ls : List KeptValue) → AreFew (ks ++ ls) → IsOverviewOf ks self → IsOverviewOf ls later → IsSilencingOf (ks ++ ls) result }
    {
        if later.silencing.end == 0 {
            return self.silencing;
        }
        let end = self.sections.saturating_add(later.silencing.end);
        if self.silencing.end == 0 {
            return Silencing {
                from: self.sections.saturating_add(later.silencing.from),
                row: self.rows.saturating_add(later.silencing.row),
                end,
            };
        }
        Silencing {
            from: self.silencing.from,
            row: self.silencing.row,
            end,
        }
    }

    /// Returns the overview of these sections and of the later ones, if they are fewer than 2^63
    /// sections with fewer than 2^32 lines.
    pub fn and_later(self, later: Overview) -> Overview
        ensures { (ks ls : List KeptValue) → AreFew (ks ++ ls) → IsOverviewOf ks self → IsOverviewOf ls later → IsOverviewOf (ks ++ ls) result }
    {
        let (sound, row) = self.first_fault(later);
        Overview {
            sections: self.sections.saturating_add(later.sections),
            rows: self.rows.saturating_add(later.rows),
            sound,
            row,
            whole: self.whole.and_later(later.whole),
            silencing: self.silencing_with(later),
        }
    }

    /// Adds one section after these, if they are then fewer than 2^63 sections with fewer than 2^32
    /// lines. Takes a shorter way for a section without a fault and without a comment that may
    /// silence rules, as most are.
    pub fn count<A: Allocator>(&mut self, kept: &Kept<A>)
        ensures { (ks : List KeptValue) → AreFew (ks ++ kept.now ∷ []) → IsOverviewOf ks self.old → IsOverviewOf (ks ++ kept.now ∷ []) self.new }
    {
        if !is_quiet(kept) || self.sound < self.sections {
            *self = self.and_later(Overview::of(kept));
            return;
        }
        self.sections = self.sections.saturating_add(1);
        self.rows = self.rows.saturating_add(kept.rows());
        self.sound = self.sections;
        self.row = self.rows;
        self.whole = self.whole.and_later(kept.measure());
    }

    /// Returns `true` if one of the sections has a fault.
    pub fn has_fault(self) -> bool
        ensures { (ks : List KeptValue) → IsOverviewOf ks self → result ≡ has_fault ks }
    {
        self.sound < self.sections
    }

    /// Returns `true` only if none of the sections may silence a rule.
    pub fn is_silent(self) -> bool
        ensures { (ks : List KeptValue) → IsOverviewOf ks self → result ≡ true → AllByRecursion IsSilent ks }
    {
        self.silencing.end == 0
    }
}
