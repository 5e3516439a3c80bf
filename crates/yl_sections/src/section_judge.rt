//! Judges a section row by row.
ghost use Rattle.std.specs.Prelude.{◌≡◌, ◌<◌, ◌+◌, ◌-◌, ◌^◌, ◌++◌, ◌∷◌, [], false, if◌then◌else◌, ℕ, List, map, length, IfOk, OnOk};
ghost use Rattle.std.specs.Option.{option_map, option_or};
ghost use Rattle.yl_marks.specs.Keys.{lexeme_at_line};
ghost use Rattle.yl_events.specs.Event.{EventValue, start_at};
ghost use Rattle.yl_events.specs.Faults.{fault_text};
ghost use Rattle.yl_config.specs.declared.config.Config.{Config};
ghost use Rattle.yl_record.specs.Records.{RecordValue};
ghost use Rattle.yl_sections.specs.Judge.{kept_of_section};
ghost use Rattle.yl_sections.specs.Judging.{IsAt, IsBegun, IsCommented, IsReady, IsTold, Judges, KeepsComments, ReadsRow, ReadsRows, first_column, has_begun, shows_comments, with_scan_fault};
ghost use Rattle.yl_sections.specs.Kept.{Behind, document_count, event_findings, hidden_events, is_on, items_if, scan_fault_at, unless_fault};
ghost use Rattle.yl_sections.specs.Owned.{section_fault_value};
ghost use Rattle.yl_sections.specs.Sections.{lexemes_of};

use crate::comments::CommentReader;
use crate::document_judge::{DocumentEnd, DocumentJudge};
use crate::fault::{SectionFault, scan_fault_at};
use crate::kept::Kept;
use crate::rules::is_on;
use std::alloc::{AllocError, Allocator};
use yl_config::Config;
use yl_events::PlacedParseFault;
use yl_indentation::Fact;
use yl_lexeme::{Lexeme, Meter};
use yl_marks::RowLexemes;
use yl_record::Record;
use yl_row::PlacedScanFault;
use yl_text::{Finding, Pos, RuleId};

/// A document with a fault at a lexeme, and what was found before the fault.
#[derive(Drop)]
pub struct StoppedDocument<A: Allocator> {
    /// The findings of the rules on lexemes.
    found: Vec<Finding<A>, A>,
    /// The facts for the rule indentation.
    facts: Vec<Fact, A>,
    /// The position of the lexeme in the section.
    place: Pos,
    /// The message of the fault.
    text: &'static str,
}

/// How far the document of a section was read.
#[derive(Drop)]
pub enum Stage<A: Allocator + Copy> {
    /// No lexeme was read.
    Before,
    /// Some lexemes were read, without a fault at one of them.
    In(DocumentJudge<A>),
    /// The document has a fault at a lexeme.
    Stopped(StoppedDocument<A>),
}

/// What was found in the document of a section, up to its fault. The fault is that of the section,
/// if the section has no scan fault.
#[derive(Drop)]
pub struct ToldDocument<A: Allocator> {
    /// The findings of the rules on lexemes.
    found: Vec<Finding<A>, A>,
    /// The facts for the rule indentation.
    facts: Vec<Fact, A>,
    /// The findings of the rules on keys and anchors. Empty if the document has a fault.
    in_tree: Vec<Finding<A>, A>,
    /// The fault of the document, if it has one.
    fault: Option<SectionFault>,
}

/// The findings of the rules on keys and anchors in the document of a section. At most one of the
/// lists has findings.
#[derive(Drop)]
struct TreeFindings<A: Allocator> {
    /// The findings that are shown.
    shown: Vec<Finding<A>, A>,
    /// The findings that only a scan fault hides.
    hidden: Vec<Finding<A>, A>,
}

/// Returns the position at which the lexeme of the row with this index begins, or line 0 and column
/// 0 if there is none.
pub fn start_of<A: Allocator>(row: &RowLexemes<'_, A>, i: usize) -> Pos
    ensures { result ≡ start_at (map (lexeme_at_line row.now.line) row.now.lexemes.now) i }
{
    match row.lexemes.get(i) {
        None => Pos { line: 0, col: 0 },
        Some(lexeme) => Pos {
            line: row.line,
            col: lexeme.start().col,
        },
    }
}

/// Reads the next row of a document, at this line of its section. The row must have lexemes.
/// Returns what was found before the fault, if the document has a fault at one of them. The only
/// error is out of memory, or more lexemes than a `u32` counts.
fn read_row<A: Allocator + Copy>(
    document: &mut DocumentJudge<A>,
    line: u32,
    row: &Record<A>,
) -> Result<Option<StoppedDocument<A>>, AllocError>
    ensures { (config : Config) (rs : List RecordValue) → line ≡ length rs → 0 < length row.now.entry.lexemes → ReadsRows config rs document.old
        → IfOk result (λ stopped. ReadsRow stopped config (rs ++ row.now ∷ []) document.new) }
{
    let lexemes = RowLexemes {
        line,
        lexemes: row.lexemes(),
    };
    let first = document.count();
    let Some(fault) = document.read(&lexemes, row.indentation())? else {
        return Ok(None);
    };
    let place = start_of(&lexemes, fault.place.saturating_sub(first));
    let (found, facts) = document.take();
    Ok(Some(StoppedDocument {
        found,
        facts,
        place,
        text: fault.kind.text(),
    }))
}

/// Returns the fault of a section: a parse fault at a lexeme, else the scan fault, else a parse
/// fault after all lexemes. `parsed` is the fault of its document, and `scanned` is the scan fault
/// in its rows.
fn with_scan_fault(
    parsed: Option<SectionFault>,
    scanned: Option<SectionFault>,
) -> Option<SectionFault>
    ensures { option_map section_fault_value result ≡ with_scan_fault (option_map section_fault_value parsed) (option_map section_fault_value scanned) }
{
    match (parsed, scanned) {
        (Some(SectionFault::Here(_, _)), _) => parsed,
        (_, Some(_)) => scanned,
        (_, None) => parsed,
    }
}

/// Returns the first scan fault of some rows. `first` is that of the rows above the row at `line`,
/// and `fault` is that of the row.
fn first_fault(
    first: Option<SectionFault>,
    line: u32,
    fault: Option<PlacedScanFault>,
) -> Option<SectionFault>
    ensures { option_map section_fault_value result
        ≡ option_or (option_map section_fault_value first) (option_map (scan_fault_at line) fault) }
{
    match first {
        None => scan_fault_at(line as usize, fault),
        Some(_) => first,
    }
}

/// Returns the findings of the rules on keys and anchors as shown if the section has no fault, as
/// hidden if only a scan fault hides them, else no findings. `parse_fault` is the fault of the
/// section without its scan fault.
fn show_or_hide<A: Allocator + Copy>(
    fault: Option<SectionFault>,
    parse_fault: Option<SectionFault>,
    found: Vec<Finding<A>, A>,
) -> TreeFindings<A>
    ensures shown { (config : Config) (es : List EventValue) → found.items ≡ event_findings config es
        → result.shown.items ≡ event_findings config (unless_fault (option_map section_fault_value fault) es) }
    ensures hidden { (config : Config) (es : List EventValue) → found.items ≡ event_findings config es
        → result.hidden.items ≡ event_findings config (hidden_events (option_map section_fault_value fault) (option_map section_fault_value parse_fault) es) }
{
    let alloc = *found.allocator();
    match (fault, parse_fault) {
        (None, _) => TreeFindings {
            shown: found,
            hidden: Vec::new(alloc),
        },
        (Some(_), None) => TreeFindings {
            shown: Vec::new(alloc),
            hidden: found,
        },
        (Some(_), Some(_)) => TreeFindings {
            shown: Vec::new(alloc),
            hidden: Vec::new(alloc),
        },
    }
}

/// Returns the facts if the rule indentation is on, else an empty list.
fn checked<A: Allocator>(config: &Config, mut facts: Vec<Fact, A>) -> Vec<Fact, A>
    ensures { result.items ≡ items_if (is_on config.now RuleId.Indentation) facts.items }
{
    if !is_on(config, RuleId::Indentation) {
        facts.clear();
    }
    facts
}

/// Returns the fault of a document after all lexemes as a fault of its section.
fn fault_after(fault: Option<PlacedParseFault>) -> Option<SectionFault>
    ensures { option_map section_fault_value result ≡ option_map (λ f. Behind (fault_text f.kind)) fault }
{
    match fault {
        None => None,
        Some(fault) => Some(SectionFault::Behind(fault.kind.text())),
    }
}

impl<A: Allocator + Copy> Stage<A> {
    /// Begins the document with the next lexeme, if it has not begun, and counts it in the meter.
    /// The only error is out of memory, or more documents than a `u32` counts.
    fn begin(&mut self, alloc: A, config: &Config, meter: &mut Meter) -> Result<(), AllocError>
        ensures begun { OnOk result (IsBegun config.now self.old self.new) }
        ensures counted { OnOk result (meter.new
            ≡ (if has_begun self.old then meter.old else record meter.old { documents = meter.old.documents + 1 })) }
    {
        if let Stage::Before = self {
            return self.begin_document(alloc, config, meter);
        }
        Ok(())
    }

    /// Begins the document, if it has not begun, and counts it in the meter. This is a separate
    /// function, so that the frame of the loop over the rows does not hold one more document. The
    /// only error is out of memory, or more documents than a `u32` counts.
    #[inline(never)]
    fn begin_document(
        &mut self,
        alloc: A,
        config: &Config,
        meter: &mut Meter,
    ) -> Result<(), AllocError>
        ensures begun { OnOk result (IsBegun config.now self.old self.new) }
        ensures counted { OnOk result (meter.new
            ≡ (if has_begun self.old then meter.old else record meter.old { documents = meter.old.documents + 1 })) }
    {
        if let Stage::Before = self {
            if meter.documents == u32::MAX {
                return Err(AllocError);
            }
            *self = Stage::In(DocumentJudge::begin(alloc, config, meter)?);
        }
        Ok(())
    }

    /// Reads the next row, at this line of the section. The row must have lexemes. The only error
    /// is out of memory, or more lexemes than a `u32` counts.
    fn read(&mut self, line: u32, row: &Record<A>) -> Result<(), AllocError>
        ensures at { (config : Config) (rs : List RecordValue) → line ≡ length rs → 0 < length row.now.entry.lexemes → IsReady config rs self.old
            → OnOk result (IsAt config (rs ++ row.now ∷ []) self.new) }
        ensures comments { (config : Config) (rs : List RecordValue) → line ≡ length rs → 0 < length row.now.entry.lexemes → IsReady config rs self.old
            → OnOk result (KeepsComments rs row.now self.old self.new) }
    {
        if let Stage::In(document) = self {
            if let Some(stopped) = read_row(document, line, row)? {
                *self = Stage::Stopped(stopped);
            }
        }
        Ok(())
    }

    /// Reads the next row, at this line of the section, and counts the document in the meter, if it
    /// begins there. The only error is out of memory, or more documents or lexemes than a `u32`
    /// counts.
    fn read_row(
        &mut self,
        alloc: A,
        config: &Config,
        line: u32,
        row: &Record<A>,
        meter: &mut Meter,
    ) -> Result<(), AllocError>
        ensures at { (rs : List RecordValue) → line ≡ length rs → IsAt config.now rs self.old → OnOk result (IsAt config.now (rs ++ row.now ∷ []) self.new) }
        ensures commented { (rs : List RecordValue) → line ≡ length rs → IsAt config.now rs self.old → OnOk result (IsCommented rs row.now self.old self.new) }
        ensures documents { (rs : List RecordValue) → line ≡ length rs → IsAt config.now rs self.old → OnOk result (meter.new.documents + document_count (lexemes_of rs)
            ≡ meter.old.documents + document_count (lexemes_of (rs ++ row.now ∷ []))) }
        ensures lines { OnOk result (meter.new.lines ≡ meter.old.lines) }
    {
        if row.lexemes().is_empty() {
            return Ok(());
        }
        self.begin(alloc, config, meter)?;
        self.read(line, row)
    }

    /// Returns the column of the section's first lexeme, if these lexemes come next. `first` is
    /// that column before them.
    fn first_column(&self, first: u32, lexemes: &[Lexeme<A>]) -> u32
        ensures { result ≡ first_column self.now first lexemes.now }
    {
        match (self, lexemes) {
            (Stage::Before, [lexeme, ..]) => lexeme.start().col,
            _ => first,
        }
    }

    /// Returns what was found in the document, if no row follows. The only error is out of memory.
    fn finish(self, alloc: A) -> Result<ToldDocument<A>, AllocError>
        ensures { (config : Config) (rs : List RecordValue) → IsAt config rs self → IfOk result (λ t. IsTold config rs self t) }
    {
        match self {
            Stage::Before => Ok(ToldDocument {
                found: Vec::new(alloc),
                facts: Vec::new(alloc),
                in_tree: Vec::new(alloc),
                fault: None,
            }),
            Stage::In(document) => {
                let DocumentEnd {
                    found,
                    facts,
                    in_tree,
                    fault,
                } = document.finish()?;
                Ok(ToldDocument {
                    found,
                    facts,
                    in_tree,
                    fault: fault_after(fault),
                })
            }
            Stage::Stopped(stopped) => {
                let StoppedDocument {
                    found,
                    facts,
                    place,
                    text,
                } = stopped;
                Ok(ToldDocument {
                    found,
                    facts,
                    in_tree: Vec::new(alloc),
                    fault: Some(SectionFault::Here(place, text)),
                })
            }
        }
    }

    /// Returns whether comments are still shown: the document has no fault at a lexeme.
    fn shows_comments(&self) -> bool
        ensures { result ≡ shows_comments self.now }
    {
        !matches!(self, Stage::Stopped(_))
    }
}

/// A judge of a section, whose rows are given one after another. Of these rows it holds their part
/// in the summary of the section, and what the rules may still need of its document.
#[derive(Drop)]
pub struct SectionJudge<A: Allocator + Copy> {
    /// The allocator of the summary.
    alloc: A,
    /// The number of rows that were read.
    rows: u32,
    /// The column of the first lexeme, or 0.
    first: u32,
    /// How far the document was read.
    stage: Stage<A>,
    /// The comments so far.
    comments: CommentReader<A>,
    /// The first scan fault in the rows, if there is one.
    scan_fault: Option<SectionFault>,
}

impl<A: Allocator + Copy> SectionJudge<A> {
    /// Creates a judge at the start of a section.
    pub fn new(alloc: A) -> SectionJudge<A>
        ensures { (config : Config) → Judges config [] result }
    {
        SectionJudge {
            alloc,
            rows: 0,
            first: 0,
            stage: Stage::Before,
            comments: CommentReader::new(alloc),
            scan_fault: None,
        }
    }

    /// Reads the next row of the section, and counts its document in the meter, if it begins there.
    /// The only error is out of memory, or more rows, documents or lexemes than a `u32` counts.
    pub fn read(
        &mut self,
        config: &Config,
        row: &Record<A>,
        meter: &mut Meter,
    ) -> Result<(), AllocError>
        ensures judged { (rs : List RecordValue) → Judges config.now rs self.old → OnOk result (Judges config.now (rs ++ row.now ∷ []) self.new) }
        ensures documents { (rs : List RecordValue) → Judges config.now rs self.old → OnOk result (meter.new.documents + document_count (lexemes_of rs)
            ≡ meter.old.documents + document_count (lexemes_of (rs ++ row.now ∷ []))) }
        ensures lines { OnOk result (meter.new.lines ≡ meter.old.lines) }
    {
        let line = self.rows;
        let Some(rows) = line.checked_add(1) else {
            return Err(AllocError);
        };
        let first = self.stage.first_column(self.first, row.lexemes());
        self.stage.read_row(self.alloc, config, line, row, meter)?;
        let shows = self.stage.shows_comments();
        self.comments.read_if(shows, config, line, row)?;
        self.scan_fault = first_fault(self.scan_fault, line, row.fault());
        self.first = first;
        self.rows = rows;
        Ok(())
    }

    /// Returns the summary of the section, if no row follows. The only error is out of memory.
    pub fn finish(self, config: &Config) -> Result<Kept<A>, AllocError>
        ensures { (rs : List RecordValue) → Judges config.now rs self → IfOk result (λ k. k ≡ kept_of_section config.now rs) }
    {
        let SectionJudge {
            alloc,
            rows,
            first,
            stage,
            mut comments,
            scan_fault,
        } = self;
        let ToldDocument {
            mut found,
            facts,
            in_tree,
            fault: parse_fault,
        } = stage.finish(alloc)?;
        let fault = with_scan_fault(parse_fault, scan_fault);
        let mut in_tree = show_or_hide(fault, parse_fault, in_tree);
        found.append(&mut comments.found)?;
        found.append(&mut in_tree.shown)?;
        Ok(Kept::new(
            rows,
            first,
            found,
            checked(config, facts),
            comments.kept,
            fault,
            in_tree.hidden,
            parse_fault,
        ))
    }
}
