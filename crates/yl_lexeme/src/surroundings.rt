//! The context that the lexemes before a position give.

ghost use Rattle.std.specs.Prelude.{◌≡◌, ◌≤◌, ◌<◌, ◌+◌, ◌^◌, [], IfOk, None, false};
ghost use Rattle.std.specs.Option.{ForSome};
ghost use Rattle.yl_lexeme.specs.Past.{up_to, with_column, is_near, near, level, in_flow, may_begin, levels_with, asks_behind};
ghost use Rattle.yl_lexeme.specs.Known.{context_of, new_row, surroundings_at, surroundings_behind, row_start, brackets_with};
ghost use Rattle.yl_lexeme.specs.Past.{past_lexeme};
ghost use Rattle.yl_lexeme.specs.Surroundings.{surroundings_value};

use crate::lexeme::Kind;
use crate::short_stack::{KeptStack, ShortStack};
use crate::unit::KeyUnit;
use smallvec::SmallVec;
use std::alloc::{AllocError, Allocator};

/// The columns of the open block collections, each plus one, the innermost on top.
pub type ColumnStack<'a, A> = ShortStack<'a, u32, A>;

/// The open brackets, the innermost on top.
pub type BracketStack<'a, A> = ShortStack<'a, Kind, A>;

/// The context that the lexemes before a position give. Columns count from 0, in characters.
#[derive(Drop)]
pub struct Surroundings<'a, A: Allocator + Copy> {
    /// The column of each open block collection, plus one, the innermost on top.
    pub levels: ColumnStack<'a, A>,
    /// The open brackets, the innermost on top.
    pub brackets: BracketStack<'a, A>,
    /// The kind of the last lexeme, if there is one.
    pub last: Option<Kind>,
    /// Whether the last lexeme of the row is an entry, a key, or a value without a key.
    pub asks: bool,
    /// The column at which the unit of the latest lexemes of the row begins, which may become a
    /// key.
    pub unit: KeyUnit<usize, A>,
}

/// Returns whether `column` is at most 1024 characters after `start`, or not after it at all.
pub fn is_near(column: usize, start: usize) -> bool
    ensures { result ≡ is_near column start }
{
    column.saturating_sub(start) <= 1024
}

/// Returns the start of a key if it is at or before `column`, by at most 1024 characters.
pub fn near(column: usize, start: Option<usize>) -> Option<usize>
    ensures key { result ≡ near column start }
    ensures before { ForSome result (λ key. key ≤ column) }
{
    match start {
        Some(start) if start <= column && is_near(column, start) => Some(start),
        _ => None,
    }
}

/// Removes the columns that are greater than `column`. The only error is out of memory.
#[inline(always)]
fn cut<A: Allocator + Copy>(
    levels: &mut ColumnStack<'_, A>,
    column: usize,
) -> Result<(), AllocError>
    requires { column < 2 ^ 31 }
    ensures { IfOk result (λ _. levels.new ≡ up_to column levels.old) }
{
    while let Some(top) = levels.top()
        && top as usize > column + 1
    {
        levels.pop()?;
    }
    Ok(())
}

/// Adds a column if it is greater than all others. The only error is out of memory.
#[inline(always)]
fn add_column<A: Allocator + Copy>(
    levels: &mut ColumnStack<'_, A>,
    column: usize,
) -> Result<(), AllocError>
    requires { column < 2 ^ 31 }
    ensures { IfOk result (λ _. levels.new ≡ with_column column levels.old) }
{
    let level = levels.top().unwrap_or(0) as usize;
    if level <= column {
        levels.push(column as u32 + 1)?;
    }
    Ok(())
}

impl<'a, A: Allocator + Copy> Surroundings<'a, A> {
    /// Creates the context at the start of a text.
    pub fn new(alloc: &'a A) -> Surroundings<'a, A>
        ensures { surroundings_value result ≡ row_start [] [] None }
    {
        Surroundings {
            levels: ShortStack::on(SmallVec::new(alloc)),
            brackets: ShortStack::on(SmallVec::new(alloc)),
            last: None,
            asks: false,
            unit: KeyUnit::new(*alloc),
        }
    }

    /// Creates the context at the start of a row from the columns, each plus one, the brackets, and
    /// the kind of the last lexeme. The only error is out of memory.
    pub fn at_row_start(
        alloc: &'a A,
        levels: &KeptStack<u32, A>,
        brackets: &KeptStack<Kind, A>,
        last: Option<Kind>,
    ) -> Result<Surroundings<'a, A>, AllocError>
        ensures { IfOk result (λ r. surroundings_value r ≡ row_start levels.now brackets.now last) }
    {
        let mut surroundings = Surroundings::new(alloc);
        surroundings.levels.resume(levels)?;
        surroundings.brackets.resume(brackets)?;
        surroundings.last = last;
        Ok(surroundings)
    }

    /// Moves to the start of the next row: removes what holds only within a row.
    pub fn new_row(&mut self)
        ensures { surroundings_value self.new ≡ new_row (surroundings_value self.old) }
    {
        self.asks = false;
        self.unit.new_line();
    }

    /// Returns whether a bracket is open.
    pub fn in_flow(&self) -> bool
        ensures { result ≡ in_flow (context_of (surroundings_value self.now)) }
    {
        self.brackets.top().is_some()
    }

    /// Returns whether a key may begin at the position. `first` says whether the position is the
    /// first one of its row that is not white space.
    pub fn may_begin(&self, first: bool) -> bool
        ensures { result ≡ may_begin first (context_of (surroundings_value self.now)) }
    {
        if self.in_flow() {
            self.last.is_some_and(Kind::opens_item)
        } else {
            first || self.asks
        }
    }

    /// Returns the column of the innermost open block collection, plus one, or 0 if none is open.
    pub fn level(&self) -> usize
        ensures level { result ≡ level (context_of (surroundings_value self.now)).levels }
        ensures bound { result < 2 ^ 32 }
    {
        self.levels.top().unwrap_or(0) as usize
    }

    /// Moves to the column at which a lexeme begins. If the lexeme is the first of its row and no
    /// bracket is open, removes the greater columns. The only error is out of memory.
    pub fn reach(&mut self, first: bool, at: usize) -> Result<(), AllocError>
        requires { at < 2 ^ 31 }
        ensures { IfOk result (λ _. surroundings_value self.new ≡ surroundings_at first at (surroundings_value self.old)) }
    {
        if first && !self.in_flow() {
            cut(&mut self.levels, at)?;
        }
        Ok(())
    }

    /// Passes a lexeme that begins at this column. `first` says whether it is the first of its row.
    /// The only error is out of memory.
    #[inline(always)]
    pub fn pass(&mut self, kind: Kind, first: bool, at: usize) -> Result<(), AllocError>
        requires { at < 2 ^ 31 }
        ensures { IfOk result (λ _. surroundings_value self.new ≡ surroundings_behind (past_lexeme at first (context_of (surroundings_value self.old)) kind) (surroundings_value self.old)) }
    {
        let flow = self.in_flow();
        let own = if self.may_begin(first) {
            Some(at)
        } else {
            None
        };
        let start = self.unit.start();
        pass_levels(&mut self.levels, kind, flow, first, at, start)?;
        pass_brackets(&mut self.brackets, kind)?;
        self.unit.pass(kind, own)?;
        self.last = Some(kind);
        self.asks = asks_behind(kind, at, start);
        Ok(())
    }
}

/// Returns whether a lexeme at a column is an entry, a key, or a value without a key. `start` is
/// the column at which the unit before it begins.
fn asks_behind(kind: Kind, at: usize, start: Option<usize>) -> bool
    ensures { result ≡ asks_behind kind (near at start) }
{
    match kind {
        Kind::Value => kind.asks(near(at, start)),
        _ => kind.asks(None),
    }
}

/// Changes the columns to those after a lexeme at this column. `flow` says whether a bracket is
/// open before it. `first` says whether it is the first of its row. `start` is the column at which
/// the unit before it begins. The only error is out of memory.
#[inline(always)]
fn pass_levels<A: Allocator + Copy>(
    levels: &mut ColumnStack<'_, A>,
    kind: Kind,
    flow: bool,
    first: bool,
    at: usize,
    start: Option<usize>,
) -> Result<(), AllocError>
    requires { at < 2 ^ 31 }
    ensures { IfOk result (λ _. levels.new ≡ levels_with (record { kind = kind; column = at; first = first; flow = flow; begins = false; key = near at start }) levels.old) }
{
    if kind.is_document_marker() {
        levels.clear();
        return Ok(());
    }
    if flow {
        return Ok(());
    }
    if first {
        cut(levels, at)?;
    }
    match kind {
        Kind::Entry | Kind::Key => add_column(levels, at),
        Kind::Value => add_column(levels, near(at, start).unwrap_or(at)),
        _ => Ok(()),
    }
}

/// Changes the open brackets to those after a lexeme of this kind. The only error is out of memory.
#[inline(always)]
fn pass_brackets<A: Allocator + Copy>(
    brackets: &mut BracketStack<'_, A>,
    kind: Kind,
) -> Result<(), AllocError>
    ensures { IfOk result (λ _. brackets.new ≡ brackets_with kind brackets.old) }
{
    match kind {
        Kind::DocStart | Kind::DocEnd => {
            brackets.clear();
            Ok(())
        }
        Kind::SeqOpen | Kind::MapOpen => brackets.push(kind),
        Kind::SeqClose | Kind::MapClose => brackets.pop(),
        _ => Ok(()),
    }
}
