//! Reads the rows of a text into the summaries of its sections.
ghost use Rattle.std.specs.Prelude.{◌≡◌, ◌<◌, ◌≤◌, ◌+◌, ◌++◌, ◌-◌, ◌^◌, ◌∷◌, [], false, ℕ, List, length, map, IfOk, OnOk};
ghost use Rattle.std.specs.Str.{chars};
ghost use Rattle.yl_config.specs.declared.config.Config.{Config};
ghost use Rattle.yl_record.specs.Records.{RecordValue, records};
ghost use Rattle.yl_sections.specs.Judge.{kept_of_section};
ghost use Rattle.yl_sections.specs.Judging.{JudgesAll};
ghost use Rattle.yl_sections.specs.Kept.{KeptValue};
ghost use Rattle.yl_sections.specs.Sections.{sections};
ghost use Rattle.yl_lint.specs.Left.{KeepsLeft, KeepsRest};

use std::alloc::{AllocError, Allocator};
use yl_config::Config;
use yl_lexeme::Meter;
use yl_record::{Record, Recorder};
use yl_sections::{Kept, SectionsJudge};

/// The number of complete records from which on they are judged and released together.
const ROOM: usize = 64;

/// Returns references to the items. The only error is out of memory.
pub fn lent<T, A: Allocator>(alloc: A, items: &[T]) -> Result<Vec<&T, A>, AllocError>
    ensures items { IfOk result (λ v. map (λ x. x.now) v.items ≡ items.now) }
    ensures len { IfOk result (λ v. length v.items ≡ length items.now) }
{
    let mut all = Vec::with_capacity(alloc, items.len())?;
    for item in items {
        all.push(item)?;
    }
    Ok(all)
}

/// Judges the next rows. The only error is out of memory.
fn judge_rows<A: Allocator + Copy>(
    config: &Config,
    rows: &[Record<A>],
    judge: &mut SectionsJudge<A>,
    meter: &mut Meter,
) -> Result<(), AllocError>
    ensures judged { (rs : List RecordValue) → JudgesAll config.now rs judge.old → OnOk result (JudgesAll config.now (rs ++ rows.now) judge.new) }
    ensures lines { OnOk result (meter.new.lines ≡ meter.old.lines) }
{
    for row in rows {
        judge.read(config, row, meter)?;
    }
    Ok(())
}

/// Judges the complete records and releases them, if there are at least `ROOM` of them. The only
/// error is out of memory.
fn judge_complete<A: Allocator + Copy>(
    config: &Config,
    recorder: &mut Recorder<'_, A>,
    judge: &mut SectionsJudge<A>,
    meter: &mut Meter,
) -> Result<(), AllocError>
    requires whole { recorder.old.refused ≡ false }
    ensures kept { (rows : List (List ℕ)) (all : List KeptValue) → KeepsRest config.now recorder.old judge.old rows all → OnOk result (KeepsRest config.now recorder.new judge.new rows all) }
    ensures whole { OnOk result (recorder.new.refused ≡ false) }
    ensures fed { OnOk result (recorder.new.taken + length recorder.new.records ≡ recorder.old.taken + length recorder.old.records) }
    ensures lines { OnOk result (meter.new.lines ≡ meter.old.lines) }
{
    let rows = recorder.complete();
    let count = rows.len();
    if count < ROOM {
        return Ok(());
    }
    judge_rows(config, rows, judge, meter)?;
    recorder.let_go(count);
    Ok(())
}

/// A reader that takes the rows of a text one after another and judges them. Of a judged row it
/// keeps only what the summary of its section holds.
#[derive(Drop)]
pub struct SectionReader<'a, A: Allocator + Copy> {
    recorder: Recorder<'a, A>,
    judge: SectionsJudge<A>,
}

impl<'a, A: Allocator + Copy> SectionReader<'a, A> {
    /// Creates a reader at the start of a text.
    pub fn start(alloc: &'a A) -> SectionReader<'a, A>
        ensures kept { (config : Config) (rows : List (List ℕ)) → KeepsLeft config result rows (map (kept_of_section config) (sections (records rows))) }
        ensures whole { result.recorder.refused ≡ false }
        ensures fed { result.recorder.taken + length result.recorder.records ≡ 0 }
    {
        SectionReader {
            recorder: Recorder::start_without_states(alloc),
            judge: SectionsJudge::new(*alloc),
        }
    }

    /// Reads the next row, given as its text without its line break, and counts it in the meter.
    /// The only error is out of memory. After an error the reader must not be used.
    pub fn pass(&mut self, config: &Config, text: &str, meter: &mut Meter) -> Result<(), AllocError>
        requires fits { length (chars text.now) < 2 ^ 31 }
        requires whole { self.old.recorder.refused ≡ false }
        requires few { self.old.recorder.taken + length self.old.recorder.records < 2 ^ 32 - 2 }
        requires lines { meter.old.lines < 2 ^ 32 - 1 }
        ensures kept { (rows : List (List ℕ)) (all : List KeptValue) → KeepsLeft config.now self.old (chars text.now ∷ rows) all → OnOk result (KeepsLeft config.now self.new rows all) }
        ensures whole { OnOk result (self.new.recorder.refused ≡ false) }
        ensures fed { OnOk result (self.new.recorder.taken + length self.new.recorder.records ≡ self.old.recorder.taken + length self.old.recorder.records + 1) }
        ensures lines { OnOk result (meter.new.lines ≡ meter.old.lines + 1) }
    {
        self.recorder.feed_text(text, meter)?;
        judge_complete(config, &mut self.recorder, &mut self.judge, meter)
    }

    /// Returns the summaries of the sections of all rows that were read. The only error is out of
    /// memory.
    pub fn finish(self, config: &Config, meter: &mut Meter) -> Result<Vec<Kept<A>, A>, AllocError>
        ensures { (all : List KeptValue) → KeepsLeft config.now self.entry [] all → IfOk result (λ v. v.items ≡ all) }
    {
        let SectionReader {
            recorder,
            mut judge,
        } = self;
        let rows = recorder.finish()?;
        judge_rows(config, &rows, &mut judge, meter)?;
        judge.finish(config)
    }
}
