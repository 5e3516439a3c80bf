//! Judges a document line by line.
ghost use Rattle.std.specs.Prelude.{◌≡◌, ◌<◌, ◌+◌, ◌-◌, ◌^◌, ◌++◌, [], ℕ, List, map, length, Some, None, IfOk, OnOk};
ghost use Rattle.yl_text.specs.Finding.{FindingValue};
ghost use Rattle.yl_lexeme.specs.Lexeme.{LexemeValue};
ghost use Rattle.yl_marks.specs.Keys.{lexeme_at_line};
ghost use Rattle.yl_events.specs.declared.fault.PlacedParseFault.{PlacedParseFault};
ghost use Rattle.yl_events.specs.Event.{EventValue};
ghost use Rattle.yl_events.specs.Named.{waiting_anchor};
ghost use Rattle.yl_config.specs.declared.config.Config.{Config};
ghost use Rattle.yl_events.specs.Seen.{event_seen, waiting_value};
ghost use Rattle.yl_tree.specs.TreeRules.{Finds};
ghost use Rattle.yl_sections.specs.Judging.{EndsSo, IsLine, Reads, ReadsLine, anchor_held};
ghost use Rattle.yl_sections.specs.Kept.{event_findings};

use crate::row_judge::RowJudge;
use crate::row_reader::RowReader;
use crate::rules::tree_options;
use std::alloc::{AllocError, Allocator};
use std::marker::Model;
use yl_config::Config;
use yl_events::{LineLexemes, Outline, PlacedParseFault, WaitingAnchor};
use yl_indentation::Fact;
use yl_lexeme::Meter;
use yl_marks::RowLexemes;
use yl_text::{Finding, Pos};
use yl_tree::TreeRules;

/// An anchor of an earlier line whose node has not begun yet. Owns its name.
#[derive(Drop)]
pub struct HeldAnchor<A: Allocator> {
    /// The index of the anchor among the lexemes of the document, from 0.
    index: u32,
    /// The name of the anchor.
    name: String<A>,
    /// The position of the anchor in the section.
    place: Pos,
}

impl<A: Allocator> Model for HeldAnchor<A> {
    ghost use Rattle.std.specs.Prelude.{string_bytes};
    ghost use Rattle.yl_events.specs.Seen.{WaitingAnchorValue};

    ghost Value = { WaitingAnchorValue };

    ghost view = { λ a. record { index = a.index; name = string_bytes a.name; place = a.place } };
}

impl<A: Allocator + Copy> HeldAnchor<A> {
    /// Creates a copy of an anchor. The only error is out of memory.
    #[inline(never)]
    fn of(alloc: A, anchor: &WaitingAnchor<'_>) -> Result<HeldAnchor<A>, AllocError>
        ensures { IfOk result (λ a. a ≡ waiting_value anchor.now) }
    {
        Ok(HeldAnchor {
            index: anchor.index,
            name: String::from_str(alloc, anchor.name)?,
            place: anchor.place,
        })
    }

    /// Returns a view of the anchor. Does not allocate.
    fn lend(&self) -> WaitingAnchor<'_>
        ensures { waiting_value result ≡ self.now }
    {
        WaitingAnchor {
            index: self.index,
            name: self.name.as_str(),
            place: self.place,
        }
    }
}

/// Returns an empty row, for the events at the start and at the end of a document.
fn no_lexemes<'n, A: Allocator>() -> RowLexemes<'n, A>
    ensures { map (lexeme_at_line result.line) result.lexemes.now ≡ [] }
{
    RowLexemes {
        line: 0,
        lexemes: &[],
    }
}

/// Returns the lexemes that the outlines of a row may name. `waiting` is the anchor that waits
/// before the row, and `first` is the number of lexemes of the document before it. Does not
/// allocate.
fn lexemes_of_line<'n, A: Allocator + Copy>(
    waiting: &'n Option<HeldAnchor<A>>,
    first: usize,
    row: &RowLexemes<'n, A>,
) -> LineLexemes<'n, A>
    ensures { result ≡ record { lexemes = map (lexeme_at_line row.now.line) row.now.lexemes.now; first = first; waiting = waiting.now } }
{
    let waiting = match waiting {
        None => None,
        Some(anchor) => Some(anchor.lend()),
    };
    LineLexemes::new(row, first, waiting)
}

/// Returns a copy of the anchor with this index, as one that waits for its node after a line, if
/// there is an index. The only error is out of memory.
fn held_anchor<A: Allocator + Copy>(
    alloc: A,
    lexemes: &LineLexemes<'_, A>,
    waiting: Option<u32>,
) -> Result<Option<HeldAnchor<A>>, AllocError>
    ensures { IfOk result (λ a. a ≡ anchor_held lexemes.now waiting) }
{
    match waiting {
        None => Ok(None),
        Some(i) => Ok(Some(HeldAnchor::of(alloc, &lexemes.waiting(i))?)),
    }
}

/// Passes the events of the outlines of a line to the rules on keys and anchors. The only error is
/// out of memory.
fn push_events<A: Allocator + Copy>(
    lexemes: &LineLexemes<'_, A>,
    outlines: &[Outline],
    tree: &mut TreeRules<A>,
) -> Result<(), AllocError>
    ensures { (es : List EventValue) (all : List FindingValue)
        → Finds tree.old (map (event_seen lexemes.now) outlines.now ++ es) all
        → OnOk result (Finds tree.new es all) }
{
    for outline in outlines {
        tree.push(&lexemes.event_of(outline))?;
    }
    Ok(())
}

/// Passes the events of the latest line to the rules on keys and anchors, and holds the anchor that
/// waits for its node after the line. The only error is out of memory.
fn tell<A: Allocator + Copy>(
    alloc: A,
    held: &mut Option<HeldAnchor<A>>,
    first: usize,
    row: &RowLexemes<'_, A>,
    reader: &RowReader<A>,
    tree: &mut TreeRules<A>,
) -> Result<(), AllocError>
    ensures events { (es : List EventValue) (all : List FindingValue)
        → Finds tree.old (map (event_seen (record { lexemes = map (lexeme_at_line row.now.line) row.now.lexemes.now; first = first; waiting = held.old }))
        reader.now.outlines.items ++ es) all
        → OnOk result (Finds tree.new es all) }
    ensures held { OnOk result (held.new ≡ anchor_held (record { lexemes = map (lexeme_at_line row.now.line) row.now.lexemes.now; first = first; waiting = held.old })
        (waiting_anchor reader.now.parser.goals)) }
{
    let row = RowLexemes {
        line: row.line,
        lexemes: row.lexemes,
    };
    let lexemes = lexemes_of_line(held, first, &row);
    push_events(&lexemes, &reader.outlines, tree)?;
    let waiting = held_anchor(alloc, &lexemes, reader.parser.waiting())?;
    drop(lexemes);
    *held = waiting;
    Ok(())
}

/// Returns the findings of the rules on keys and anchors in a document of `count` lexemes, or none
/// if it has a fault. The reader holds the outlines of its end. The only error is out of memory.
fn found_in_tree<A: Allocator + Copy>(
    alloc: A,
    waiting: &Option<HeldAnchor<A>>,
    count: usize,
    reader: &RowReader<A>,
    fault: Option<PlacedParseFault>,
    mut tree: TreeRules<A>,
) -> Result<Vec<Finding<A>, A>, AllocError>
    ensures fails { (f : PlacedParseFault) → fault ≡ Some f → IfOk result (λ v. v.items ≡ []) }
    ensures whole { (all : List FindingValue) → fault ≡ None
        → Finds tree (map (event_seen (record { lexemes = []; first = count; waiting = waiting.now })) reader.now.outlines.items ++ []) all
        → IfOk result (λ v. v.items ≡ all) }
{
    if fault.is_some() {
        return Ok(Vec::new(alloc));
    }
    push_events(
        &lexemes_of_line(waiting, count, &no_lexemes()),
        &reader.outlines,
        &mut tree,
    )?;
    tree.finish()
}

/// Returns the rules on keys and anchors at the start of a document. Their findings depend only on
/// the events of that document.
fn rules_at_start<A: Allocator + Copy>(alloc: A, config: &Config) -> TreeRules<A>
    ensures { (es : List EventValue) → Finds result es (event_findings config.now es) }
{
    TreeRules::new(alloc, &tree_options(config))
}

/// A judge of a document, whose rows are given one after another. Of these rows it holds the names
/// of keys and anchors that rules may still need, the neighbour of the next lexeme, and what is
/// expected where.
#[derive(Drop)]
pub struct DocumentJudge<A: Allocator + Copy> {
    /// The judge of the rows.
    rows: RowJudge<A>,
    /// The anchor that waits for its node, if there is one.
    waiting: Option<HeldAnchor<A>>,
    /// The rules on keys and anchors.
    tree: TreeRules<A>,
}

/// The findings and the fault of a whole document that has no fault at a lexeme. Lines count from
/// the first row of its section.
#[derive(Drop)]
pub struct DocumentEnd<A: Allocator> {
    /// The findings of the rules on lexemes.
    pub found: Vec<Finding<A>, A>,
    /// The facts for the rule indentation.
    pub facts: Vec<Fact, A>,
    /// The findings of the rules on keys and anchors. Empty if the document has a fault.
    pub in_tree: Vec<Finding<A>, A>,
    /// The fault after all lexemes, if there is one.
    pub fault: Option<PlacedParseFault>,
}

impl<A: Allocator + Copy> DocumentJudge<A> {
    /// Creates a judge at the start of a document, and counts the document in the meter, also after
    /// an error. The only error is out of memory.
    pub fn begin(
        alloc: A,
        config: &Config,
        meter: &mut Meter,
    ) -> Result<DocumentJudge<A>, AllocError>
        requires { meter.old.documents < 2 ^ 32 - 1 }
        ensures counted { meter.new ≡ record meter.old { documents = meter.old.documents + 1 } }
        ensures reads { IfOk result (λ d. (xs : List LexemeValue) (ns : List ℕ) → 0 < length xs → Reads config.now xs ns xs d) }
    {
        let rows = RowJudge::begin(alloc, config, meter)?;
        let mut tree = rules_at_start(alloc, config);
        let none = LineLexemes::new(&no_lexemes(), 0, None);
        push_events(&none, &rows.reader.outlines, &mut tree)?;
        Ok(DocumentJudge {
            rows,
            waiting: None,
            tree,
        })
    }

    /// Reads the next row of the document that has lexemes. The row begins with `spaces` spaces.
    /// Returns the document's fault, if it is at a lexeme of the row. The only error is out of
    /// memory, or more lexemes than a `u32` counts. After a fault or an error, the judge must not
    /// read further rows.
    pub fn read(
        &mut self,
        row: &RowLexemes<'_, A>,
        spaces: u32,
    ) -> Result<Option<PlacedParseFault>, AllocError>
        ensures { (config : Config) (xs : List LexemeValue) (ns : List ℕ) (left : List LexemeValue)
            → IsLine ns spaces (map (lexeme_at_line row.now.line) row.now.lexemes.now) left
            → Reads config xs ns (map (lexeme_at_line row.now.line) row.now.lexemes.now ++ left) self.old
            → IfOk result (λ fault. ReadsLine fault config xs ns self.old.rows.reader.count (length row.now.lexemes.now) left self.new) }
    {
        let first = self.rows.count();
        if let Some(fault) = self.rows.read(row, spaces)? {
            return Ok(Some(fault));
        }
        tell(
            self.rows.alloc,
            &mut self.waiting,
            first,
            row,
            &self.rows.reader,
            &mut self.tree,
        )?;
        Ok(None)
    }

    /// Returns the number of lexemes of the rows that were read without a fault.
    pub fn count(&self) -> usize
        ensures { result ≡ self.now.rows.reader.count }
    {
        self.rows.count()
    }

    /// Removes the findings of the rules on lexemes and the facts for the rule indentation, and
    /// returns them.
    pub fn take(&mut self) -> (Vec<Finding<A>, A>, Vec<Fact, A>)
        ensures found { result.0.items ≡ self.old.rows.found.items }
        ensures facts { result.1.items ≡ self.old.rows.facts.items }
    {
        self.rows.take()
    }

    /// Returns the findings and the fault of the document, if no row follows. The only error is out
    /// of memory.
    pub fn finish(self) -> Result<DocumentEnd<A>, AllocError>
        ensures { (config : Config) (xs : List LexemeValue) (ns : List ℕ) → Reads config xs ns [] self → IfOk result (λ e. EndsSo config xs ns e) }
    {
        let DocumentJudge {
            mut rows,
            waiting,
            tree,
        } = self;
        let count = rows.count();
        let fault = rows.close()?;
        let in_tree = found_in_tree(rows.alloc, &waiting, count, &rows.reader, fault, tree)?;
        rows.finish()?;
        let RowJudge { found, facts, .. } = rows;
        Ok(DocumentEnd {
            found,
            facts,
            in_tree,
            fault,
        })
    }
}
