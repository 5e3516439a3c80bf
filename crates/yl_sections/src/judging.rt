//! Judges the sections of some rows, one after another.
ghost use Rattle.std.specs.Prelude.{◌≡◌, ◌<◌, ◌+◌, ◌-◌, ◌++◌, ◌∷◌, ◌^◌, [], true, false, List, map, length, IfOk, OnOk};
ghost use Rattle.yl_config.specs.declared.config.Config.{Config};
ghost use Rattle.yl_record.specs.Records.{RecordValue};
ghost use Rattle.yl_sections.specs.Sections.{sections};
ghost use Rattle.yl_sections.specs.Kept.{documents_in};
ghost use Rattle.yl_sections.specs.Judge.{kept_of_section};
ghost use Rattle.yl_sections.specs.Judging.{Judges, JudgesAll};

use crate::kept::Kept;
use crate::section_judge::SectionJudge;
use crate::sections::{is_section_start, last_kind};
use std::alloc::{AllocError, Allocator};
use std::mem;
use yl_config::Config;
use yl_lexeme::{Kind, Meter};
use yl_record::Record;

/// A judge of the sections of rows that are given one after another. Of a row it holds only its
/// part in the summary of its section, and what the rules may still need of its document.
#[derive(Drop)]
pub struct SectionsJudge<A: Allocator + Copy> {
    /// The allocator of the summaries.
    alloc: A,
    /// The kind of the last lexeme, if there is one.
    last: Option<Kind>,
    /// The judge of the section that was not ended.
    judge: SectionJudge<A>,
    /// The summaries of the sections that were ended, in order.
    kept: Vec<Kept<A>, A>,
}

/// Appends the summary of the section that ends, and begins the next one. This is a separate
/// function, so that the frame of the loop over the rows does not hold one more section. The only
/// error is out of memory.
#[inline(never)]
fn end_section<A: Allocator + Copy>(
    alloc: A,
    config: &Config,
    judge: &mut SectionJudge<A>,
    kept: &mut Vec<Kept<A>, A>,
) -> Result<(), AllocError>
    ensures { (here : List RecordValue) → Judges config.now here judge.old
        → OnOk result ((kept.new.items ≡ kept.old.items ++ kept_of_section config.now here ∷ []) × Judges config.now [] judge.new) }
{
    let judge = mem::replace(judge, SectionJudge::new(alloc));
    kept.push(judge.finish(config)?)?;
    Ok(())
}

/// Ends a section and begins the next one, if `starts` is set. The only error is out of memory.
fn turn<A: Allocator + Copy>(
    alloc: A,
    config: &Config,
    starts: bool,
    judge: &mut SectionJudge<A>,
    kept: &mut Vec<Kept<A>, A>,
) -> Result<(), AllocError>
    ensures turns { (here : List RecordValue) → starts ≡ true → Judges config.now here judge.old
        → OnOk result ((kept.new.items ≡ kept.old.items ++ kept_of_section config.now here ∷ []) × Judges config.now [] judge.new) }
    ensures stays { starts ≡ false → OnOk result ((judge.new ≡ judge.old) × (kept.new.items ≡ kept.old.items)) }
{
    if !starts {
        return Ok(());
    }
    end_section(alloc, config, judge, kept)
}

impl<A: Allocator + Copy> SectionsJudge<A> {
    /// Creates a judge that has read no rows.
    pub fn new(alloc: A) -> SectionsJudge<A>
        ensures { (config : Config) → JudgesAll config [] result }
    {
        SectionsJudge {
            alloc,
            last: None,
            judge: SectionJudge::new(alloc),
            kept: Vec::new(alloc),
        }
    }

    /// Reads the next row, and counts its document in the meter, if one begins there. The only
    /// error is out of memory, or more rows of a section, documents or lexemes of a document than a
    /// `u32` counts.
    pub fn read(
        &mut self,
        config: &Config,
        row: &Record<A>,
        meter: &mut Meter,
    ) -> Result<(), AllocError>
        ensures judged { (rs : List RecordValue) → JudgesAll config.now rs self.old → OnOk result (JudgesAll config.now (rs ++ row.now ∷ []) self.new) }
        ensures documents { (rs : List RecordValue) → JudgesAll config.now rs self.old → OnOk result (meter.new.documents + documents_in (sections rs)
            ≡ meter.old.documents + documents_in (sections (rs ++ row.now ∷ []))) }
        ensures lines { OnOk result (meter.new.lines ≡ meter.old.lines) }
    {
        let starts = is_section_start(self.last, row.lexemes());
        turn(self.alloc, config, starts, &mut self.judge, &mut self.kept)?;
        self.judge.read(config, row, meter)?;
        self.last = last_kind(self.last, row.lexemes());
        Ok(())
    }

    /// Returns the summaries of the sections, in order, if no row follows. The only error is out of
    /// memory.
    pub fn finish(self, config: &Config) -> Result<Vec<Kept<A>, A>, AllocError>
        ensures { (rs : List RecordValue) → JudgesAll config.now rs self → IfOk result (λ v. v.items ≡ map (kept_of_section config.now) (sections rs)) }
    {
        let SectionsJudge {
            judge,
            mut kept,
            ..
        } = self;
        kept.push(judge.finish(config)?)?;
        Ok(kept)
    }
}

/// Returns the summaries of the sections of these rows, in order. Counts their documents in the
/// meter. The only error is out of memory, or more lexemes of a document than a `u32` counts.
pub fn judge_all<A: Allocator + Copy>(
    alloc: A,
    config: &Config,
    records: &[&Record<A>],
    meter: &mut Meter,
) -> Result<Vec<Kept<A>, A>, AllocError>
    requires rows { length records.now < 2 ^ 32 }
    requires documents { meter.old.documents + length records.now < 2 ^ 32 - 1 }
    ensures kept { IfOk result (λ v. v.items ≡ map (kept_of_section config.now) (sections (map (λ r. r.now) records.now))) }
    ensures counted { OnOk result (meter.new
        ≡ record meter.old { documents = meter.old.documents + documents_in (sections (map (λ r. r.now) records.now)) }) }
{
    let mut judge = SectionsJudge::new(alloc);
    for record in records {
        judge.read(config, record, meter)?;
    }
    judge.finish(config)
}
