//! Judges a run of rows by itself.
ghost use Rattle.std.specs.Prelude.{◌≡◌, ◌++◌, ◌∷◌, [], true, false, List, map, length, IfOk, IfSome, OnOk};
ghost use Rattle.std.specs.List.{list_any};
ghost use Rattle.yl_text.specs.Finding.{FindingValue};
ghost use Rattle.yl_config.specs.declared.config.Config.{Config};
ghost use Rattle.yl_events.specs.Event.{EventValue, event_value};
ghost use Rattle.yl_tree.specs.declared.options.TreeOptions.{TreeOptions};
ghost use Rattle.yl_tree.specs.OpenNodes.{OpenNodes};
ghost use Rattle.yl_tree.specs.References.{is_reference};
ghost use Rattle.yl_tree.specs.TreeRules.{Finds};
ghost use Rattle.yl_record.specs.Records.{RecordValue};
ghost use Rattle.yl_sections.specs.Kept.{tree_options_of};
ghost use Rattle.yl_pieces.specs.Events.{events_in, without_anchor};
ghost use Rattle.yl_pieces.specs.State as state;
ghost use Rattle.yl_piece_names.specs.declared.opening.Opening.{Opening};
ghost use Rattle.yl_piece_names.specs.KeptNames.{names_of_run};
ghost use Rattle.yl_section_pieces.specs.RunJudging.{EndAlike, JudgesRun, kept_of_run};

use crate::summary::summary_of;
use std::alloc::{AllocError, Allocator};
use yl_config::Config;
use yl_events::Event;
use yl_piece_names::{Opening, RunNames, rules_for_run};
use yl_pieces::{PieceJudge, RowEvents};
use yl_record::Record;
use yl_sections::{DocumentState, Kept};
use yl_tree::{TreeOptions, TreeRules};

/// Returns the event without its anchor.
fn without_anchor<'a>(event: &Event<'a>) -> Event<'a>
    ensures { event_value result ≡ without_anchor (event_value event.now) }
{
    Event::new(event.kind, event.place, None, event.is_tagged)
}

/// Passes the event without its anchor to the names and to the rules. The only error is out of
/// memory.
fn push_event<A: Allocator + Copy>(
    event: &Event<'_>,
    names: &mut RunNames<A>,
    rules: &mut TreeRules<A>,
) -> Result<(), AllocError>
    ensures names { (t : OpenNodes) (es : List EventValue) → names.old ≡ names_of_run t es
        → OnOk result (names.new ≡ names_of_run t (es ++ without_anchor (event_value event.now) ∷ [])) }
    ensures rules { (es : List EventValue) (all : List FindingValue) → Finds rules.old (without_anchor (event_value event.now) ∷ es) all
        → OnOk result (Finds rules.new es all) }
{
    let event = without_anchor(event);
    names.push(&event)?;
    rules.push(&event)
}

/// Passes the events of a row, without their anchors, to the names and to the rules. The only error
/// is out of memory.
fn push_events<A: Allocator + Copy>(
    events: &RowEvents<'_, A>,
    names: &mut RunNames<A>,
    rules: &mut TreeRules<A>,
) -> Result<(), AllocError>
    ensures names { (t : OpenNodes) (es : List EventValue) → names.old ≡ names_of_run t es
        → OnOk result (names.new ≡ names_of_run t (es ++ map without_anchor events.now)) }
    ensures rules { (es : List EventValue) (all : List FindingValue) → Finds rules.old (map without_anchor events.now ++ es) all
        → OnOk result (Finds rules.new es all) }
{
    for i in 0..events.len() {
        push_event(&events.get(i), names, rules)?;
    }
    Ok(())
}

/// A judge of a run of rows by itself. It holds what the rows tell, the names of their keys, and
/// what the rules on keys find at them.
#[derive(Drop)]
pub(crate) struct RunJudge<A: Allocator + Copy> {
    /// The rows.
    rows: PieceJudge<A>,
    /// The names of their keys.
    names: RunNames<A>,
    /// The rules on keys.
    rules: TreeRules<A>,
}

impl<A: Allocator + Copy> RunJudge<A> {
    /// Creates a judge that goes on from a state, where goals say this of the open collections, the
    /// innermost goal last. The only error is out of memory.
    fn begin(
        alloc: A,
        config: &Config,
        options: &TreeOptions,
        before: &DocumentState<A>,
        openings: &[Opening],
    ) -> Result<RunJudge<A>, AllocError>
        ensures { IfOk result (λ j. JudgesRun config.now options.now before.now openings.now [] j) }
    {
        Ok(RunJudge {
            rows: PieceJudge::resume(alloc, config, before)?,
            names: RunNames::begin(alloc, openings)?,
            rules: rules_for_run(alloc, options, openings)?,
        })
    }

    /// Reads the next row. Returns `false` if the rows have a fault. The only error is out of
    /// memory, or more rows or lexemes than a `u32` counts. After an error or `false` the judge must
    /// not be used.
    fn read(&mut self, row: &Record<A>) -> Result<bool, AllocError>
        ensures { (config : Config) (o : TreeOptions) (s : state.DocumentState) (openings : List Opening) (rs : List RecordValue)
            → JudgesRun config o s openings rs self.old
            → IfOk result (λ sound. sound ≡ true → JudgesRun config o s openings (rs ++ row.now ∷ []) self.new) }
    {
        self.rows.read(row)?;
        if self.rows.has_fault() {
            return Ok(false);
        }
        let events = self.rows.events(row);
        push_events(&events, &mut self.names, &mut self.rules)?;
        Ok(true)
    }

    /// Returns `true` only if the state after the rows of both judges, which went on from the same
    /// state, is the same, a piece may begin there, and the same names are kept of both, with no
    /// alias. The only error is out of memory.
    pub(crate) fn ends_alike(&self, other: &RunJudge<A>) -> Result<bool, AllocError>
        ensures { (config : Config) (o p : TreeOptions) (s : state.DocumentState) (openings : List Opening) (rs ns : List RecordValue)
            → JudgesRun config o s openings rs self.now → JudgesRun config p s openings ns other.now
            → IfOk result (λ alike. alike ≡ true → EndAlike s rs ns self.now other.now) }
    {
        if !self.names.is_same(&other.names) {
            return Ok(false);
        }
        let Some(one) = self.rows.state()? else {
            return Ok(false);
        };
        let Some(another) = other.rows.state()? else {
            return Ok(false);
        };
        Ok(one.is_border() && one.is_same(&another))
    }

    /// Returns the summary of the rows, whose number is `rows` and among whose events is no alias.
    /// The only error is out of memory.
    pub(crate) fn finish(self, alloc: A, config: &Config, rows: u32) -> Result<Kept<A>, AllocError>
        ensures { (s : state.DocumentState) (openings : List Opening) (rs : List RecordValue)
            → JudgesRun config.now (tree_options_of config.now) s openings rs self → rows ≡ length rs → list_any is_reference (events_in s 1 rs) ≡ false
            → IfOk result (λ k. k ≡ kept_of_run config.now s openings rs) }
    {
        let RunJudge {
            rows: judge,
            rules,
            ..
        } = self;
        let piece = judge.finish()?;
        let found = rules.finish()?;
        summary_of(alloc, config, rows, piece, found)
    }
}

/// Returns the judge of these rows, or `None` if they have a fault. The only error is out of memory,
/// or more rows or lexemes than a `u32` counts.
pub(crate) fn judge_run<A: Allocator + Copy>(
    alloc: A,
    config: &Config,
    options: &TreeOptions,
    before: &DocumentState<A>,
    openings: &[Opening],
    rows: &[&Record<A>],
) -> Result<Option<RunJudge<A>>, AllocError>
    ensures { IfOk result (λ r. IfSome r (λ j. JudgesRun config.now options.now before.now openings.now (map (λ r. r.now) rows.now) j)) }
{
    let mut judge = RunJudge::begin(alloc, config, options, before, openings)?;
    for row in rows {
        let is_sound = judge.read(row)?;
        if !is_sound {
            return Ok(None);
        }
    }
    Ok(Some(judge))
}
