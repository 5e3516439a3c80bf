//! Reads the patterns in the lines of a configuration's texts.
//!
//! A blank line, a comment and a single `/` are valid patterns, but add none.
ghost use Rattle.std.specs.Prelude.{◌≡◌, ◌==◌, ◌||◌, ◌≤◌, nat_lt, length, IfOk, MatchResult, Some, None, OnOk, unwrap_or, [], MatchOption};
ghost use Rattle.std.specs.List.{prefix_len};
ghost use Rattle.yl_events.specs.Event.{kind_value};
ghost use Rattle.yl_settings.specs.Item.{item_value, nodes_at};
ghost use Rattle.yl_settings.specs.Nodes.{starts_sequence};
ghost use Rattle.yl_text.specs.Lines.{lines_of};
ghost use Rattle.yl_project.specs.Answers.{Gives};
ghost use Rattle.yl_project.specs.Texts.{block_lines, indentation, is_below, lines_after, patterns_in, with_line, with_lines, with_patterns, with_text, with_texts};

use crate::document::Document;
use crate::entries::{place_or, starts_sequence};
use std::alloc::{AllocError, Allocator};
use yl_events::EventKind;
use yl_lexeme::Style;
use yl_patterns::{PatternFault, Patterns};
use yl_settings::{Item, first_item};
use yl_text::{Break, Pos, Row, cut_line};

/// Returns the number of spaces at the start of a line.
fn indentation(line: &[u8]) -> usize
    ensures { result ≡ indentation line.now }
{
    for (i, byte) in line.iter().enumerate() {
        if *byte != b' ' {
            return i;
        }
    }
    line.len()
}

/// Returns `true` if the line has only spaces, or if it is indented by more than `column` spaces.
fn is_below(column: u32, line: &str) -> bool
    ensures { result ≡ is_below column line.now }
{
    let spaces = indentation(line.as_bytes());
    spaces == line.len() || spaces > column as usize
}

/// Returns the lines after the line of `place`, or none if there is no position.
fn lines_after<A: Allocator>(place: Option<Pos>, rows: &[Row<A>]) -> &[Row<A>]
    ensures { result.now ≡ lines_after place rows.now }
{
    let Some(place) = place else {
        return &[];
    };
    let from = place.line as usize + 1;
    if from < rows.len() {
        let (_, after) = rows.split_at(from);
        after
    } else {
        &[]
    }
}

/// Appends the pattern of a line. Returns `BadPattern` if the line is not valid, or `Memory` if
/// memory runs out.
fn add_line<A: Allocator + Copy>(patterns: &mut Patterns<A>, line: &str) -> Result<(), PatternFault>
    ensures { Gives result patterns.new (with_line patterns.old line.now) }
{
    patterns.add(line)
}

/// Appends the patterns of a block scalar. `rows` are the lines after its header, and `column` is
/// the column of the node that contains it. Returns `BadPattern` if a line is not valid, or
/// `Memory` if memory runs out.
#[tactic(auto, unfolding(crate::specs::Texts::block_lines, crate::specs::Texts::with_lines))]
fn add_block<A: Allocator + Copy>(
    patterns: &mut Patterns<A>,
    column: u32,
    rows: &[Row<A>],
) -> Result<(), PatternFault>
    ensures { Gives result patterns.new (with_lines patterns.old (block_lines column rows.now)) }
{
    for row in rows {
        if !is_below(column, row.as_str()) {
            return Ok(());
        }
        add_line(patterns, row.as_str())?;
    }
    Ok(())
}

/// Appends the patterns of the lines of a text. Returns `BadPattern` if a line is not valid, or
/// `Memory` if memory runs out.
fn add_lines<A: Allocator + Copy>(
    patterns: &mut Patterns<A>,
    text: &str,
) -> Result<(), PatternFault>
    ensures { Gives result patterns.new (with_lines patterns.old (lines_of text.now)) }
{
    let mut rest = text;
    loop {
        let first = cut_line(rest);
        add_line(patterns, first.line)?;
        if first.end == Break::No {
            return Ok(());
        }
        rest = first.rest;
    }
}

/// Returns the patterns of the lines of a text, or `None` if a line is not valid. The only error is
/// out of memory.
pub fn read_lines<A: Allocator + Copy>(
    alloc: A,
    text: &str,
) -> Result<Option<Patterns<A>>, AllocError>
    ensures { IfOk result (λ patterns. patterns ≡ with_lines [] (lines_of text.now)) }
{
    let mut patterns = Patterns::new(alloc);
    match add_lines(&mut patterns, text) {
        Ok(()) => Ok(Some(patterns)),
        Err(PatternFault::BadPattern) => Ok(None),
        Err(PatternFault::Memory) => Err(AllocError),
    }
}

impl<A: Allocator + Copy> Document<'_, '_, A> {
    /// Appends the patterns of the lines of a node. `column` is the column of the node that
    /// contains it. Returns `BadPattern` if the node is not a text or a line is not valid, or
    /// `Memory` if memory runs out.
    pub fn add_text(
        &self,
        patterns: &mut Patterns<A>,
        column: u32,
        kind: EventKind<'_>,
        place: Option<Pos>,
    ) -> Result<(), PatternFault>
        ensures { Gives result patterns.new (with_text self.now.rows.now column (kind_value kind.entry) place patterns.old) }
    {
        match kind {
            EventKind::Scalar(Style::Literal | Style::Folded, _) => {
                add_block(patterns, column, lines_after(place, self.rows))
            }
            EventKind::Scalar(_, text) => add_lines(patterns, text),
            _ => Err(PatternFault::BadPattern),
        }
    }

    /// Appends the patterns of the nodes that start at the event with index `inside`. Returns
    /// `BadPattern` if a node is not a text or a line is not valid, or `Memory` if memory runs out.
    fn add_texts(
        &self,
        patterns: &mut Patterns<A>,
        column: u32,
        inside: usize,
    ) -> Result<(), PatternFault>
        requires { inside ≤ length self.now.events.now }
        ensures { Gives result patterns.new (with_texts self.now.rows.now column (nodes_at self.now.events.now inside) patterns.old) }
    {
        let mut rest = inside;
        while let Some(text) = first_item(self.events, rest) {
            self.add_text(patterns, column, text.item.kind, text.item.place)?;
            rest = text.more;
        }
        Ok(())
    }

    /// Appends the patterns of a text or of a sequence of texts. `holder` is the position of the
    /// node that contains it. Returns `BadPattern` if the node is neither or a line is not valid,
    /// or `Memory` if memory runs out.
    fn add_patterns(
        &self,
        patterns: &mut Patterns<A>,
        holder: Pos,
        item: &Item<'_>,
    ) -> Result<(), PatternFault>
        requires { item.now.inside ≤ length self.now.events.now }
        ensures { Gives result patterns.new (with_patterns self.now.rows.now holder (item_value self.now.events.now item.now) patterns.old) }
    {
        if starts_sequence(item.kind) {
            let column = place_or(holder, item.place).col;
            self.add_texts(patterns, column, item.inside)
        } else {
            self.add_text(patterns, holder.col, item.kind, item.place)
        }
    }

    /// Returns the patterns of a text or of a sequence of texts, or `None` if the node is neither
    /// or a line is not valid. `holder` is the position of the node that contains it. The only
    /// error is out of memory.
    pub fn patterns_in(
        &self,
        holder: Pos,
        item: &Item<'_>,
    ) -> Result<Option<Patterns<A>>, AllocError>
        requires { item.now.inside ≤ length self.now.events.now }
        ensures { IfOk result (λ patterns. patterns ≡ patterns_in self.now.rows.now holder (item_value self.now.events.now item.now)) }
    {
        let mut patterns = Patterns::new(self.alloc);
        match self.add_patterns(&mut patterns, holder, item) {
            Ok(()) => Ok(Some(patterns)),
            Err(PatternFault::BadPattern) => Ok(None),
            Err(PatternFault::Memory) => Err(AllocError),
        }
    }
}
