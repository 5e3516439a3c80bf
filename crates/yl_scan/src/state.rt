//! The states of sound rows.

ghost use Rattle.std.specs.Prelude.{◌≡◌, ◌↔◌, IfOk, IsTrue, MatchOption};
ghost use Rattle.yl_row.specs.Entries.{Stopped, Stands};
ghost use Rattle.yl_scan.specs.State.{is_stopped};

use arrayvec::ArrayVec;
use std::alloc::{AllocError, Allocator};
use std::marker::Model;
use std::rc::Rc;
use yl_lexeme::{BracketStack, ColumnStack, KeptStack, Kind, Surroundings};

/// The state of a sound row that is not below a fault.
#[derive(Drop)]
pub struct Standing<A: Allocator> {
    /// The column of each open block collection, plus one, the innermost on top. Columns count from
    /// 0, in characters.
    pub levels: KeptStack<u32, A>,
    /// The open brackets, the innermost on top.
    pub brackets: KeptStack<Kind, A>,
    /// The kind of the last lexeme, if there is one.
    pub last: Option<Kind>,
}

/// The state of a sound row, from which reading can resume: the columns of the open block
/// collections, the open brackets and the kind of the last lexeme, or that a fault is above. A
/// state is one pointer. Rows with equal states may share what it points to.
#[derive(Drop)]
pub struct LineState<A: Allocator> {
    /// The state, or `None` below a fault.
    standing: Option<Rc<Standing<A>, A>>,
}

impl<A: Allocator> Model for LineState<A> {
    ghost use Rattle.yl_row.specs.Entries.{LineStateValue};
    ghost use Rattle.yl_scan.specs.Standing.{state_seen};

    ghost Value = { LineStateValue };

    ghost view = { λ s. state_seen s.standing };
}

impl<A: Allocator + Copy> LineState<A> {
    /// Returns the state of a row below a fault. Allocates nothing.
    pub fn stopped() -> LineState<A>
        ensures { result ≡ Stopped }
    {
        LineState { standing: None }
    }

    /// Creates the state of a row from the context at its start. The only error is out of memory.
    fn of(alloc: A, surroundings: &Surroundings<'_, A>) -> Result<LineState<A>, AllocError>
        ensures { IfOk result (λ s. s ≡ Stands surroundings.now.levels surroundings.now.brackets surroundings.now.last) }
    {
        let standing = Standing {
            levels: KeptStack::of(ArrayVec::new(), &surroundings.levels)?,
            brackets: KeptStack::of(ArrayVec::new(), &surroundings.brackets)?,
            last: surroundings.last,
        };
        Ok(LineState {
            standing: Some(Rc::new(alloc, standing)?),
        })
    }

    /// Returns the state of a row from the context at its start. Returns the state `latest` again
    /// if it is found to be the same. Else creates a state and puts it into `latest`. The only
    /// error is out of memory.
    pub fn before(
        latest: &mut Option<LineState<A>>,
        alloc: A,
        surroundings: &Surroundings<'_, A>,
    ) -> Result<LineState<A>, AllocError>
        ensures { IfOk result (λ s. s ≡ Stands surroundings.now.levels surroundings.now.brackets surroundings.now.last) }
    {
        if let Some(state) = latest
            && state.shows(surroundings)
        {
            return state.share();
        }
        let state = LineState::of(alloc, surroundings)?;
        *latest = Some(state.share()?);
        Ok(state)
    }

    /// Returns whether this is the state of a row with this context at its start. Returns `false`
    /// if 64 or more columns or brackets are open.
    fn shows(&self, surroundings: &Surroundings<'_, A>) -> bool
        ensures { IsTrue result → self.now ≡ Stands surroundings.now.levels surroundings.now.brackets surroundings.now.last }
    {
        match &self.standing {
            None => false,
            Some(standing) => {
                let standing = standing.as_ref();
                standing.last == surroundings.last
                    && keeps_levels(&standing.levels, &surroundings.levels)
                    && keeps_brackets(&standing.brackets, &surroundings.brackets)
            }
        }
    }
}

impl<A: Allocator> LineState<A> {
    /// Returns a state that shares what this one points to. Allocates nothing. Returns an error
    /// only if there are more references to it than can be counted.
    pub fn share(&self) -> Result<LineState<A>, AllocError>
        ensures { IfOk result (λ s. s ≡ self.now) }
    {
        match &self.standing {
            None => Ok(LineState { standing: None }),
            Some(standing) => Ok(LineState {
                standing: Some(standing.clone()?),
            }),
        }
    }

    /// Returns the state of a row that is not below a fault, or else `None`.
    pub fn standing(&self) -> Option<&Standing<A>>
        ensures { MatchOption result (self.now ≡ Stopped) (λ s. self.now ≡ Stands s.now.levels s.now.brackets s.now.last) }
    {
        match &self.standing {
            None => None,
            Some(standing) => Some(standing.as_ref()),
        }
    }

    /// Returns whether it is the state of a row below a fault.
    pub fn is_stopped(&self) -> bool
        ensures { result ≡ is_stopped self.now }
    {
        self.standing.is_none()
    }

    /// Returns whether the states are the same.
    fn is_same(&self, other: &LineState<A>) -> bool
        ensures { IsTrue result ↔ (self.now ≡ other.now) }
    {
        match (self.standing(), other.standing()) {
            (None, None) => true,
            (Some(a), Some(b)) => same_standing(a, b),
            _ => false,
        }
    }
}

/// Returns whether the columns are the kept ones. Returns `false` for 64 or more.
fn keeps_levels<A: Allocator + Copy>(kept: &KeptStack<u32, A>, levels: &ColumnStack<'_, A>) -> bool
    ensures { IsTrue result → kept.now ≡ levels.now }
{
    kept.keeps(levels)
}

/// Returns whether the brackets are the kept ones. Returns `false` for 64 or more.
fn keeps_brackets<A: Allocator + Copy>(
    kept: &KeptStack<Kind, A>,
    brackets: &BracketStack<'_, A>,
) -> bool
    ensures { IsTrue result → kept.now ≡ brackets.now }
{
    kept.keeps(brackets)
}

/// Returns whether the columns are the same.
fn same_levels<A: Allocator>(a: &KeptStack<u32, A>, b: &KeptStack<u32, A>) -> bool
    ensures { IsTrue result ↔ (a.now ≡ b.now) }
{
    a.is_like(b)
}

/// Returns whether the brackets are the same.
fn same_brackets<A: Allocator>(a: &KeptStack<Kind, A>, b: &KeptStack<Kind, A>) -> bool
    ensures { IsTrue result ↔ (a.now ≡ b.now) }
{
    a.is_like(b)
}

/// Returns whether the states are the same.
fn same_standing<A: Allocator>(a: &Standing<A>, b: &Standing<A>) -> bool
    ensures { IsTrue result ↔ (Stands a.now.levels a.now.brackets a.now.last ≡ Stands b.now.levels b.now.brackets b.now.last) }
{
    a.last == b.last && same_levels(&a.levels, &b.levels) && same_brackets(&a.brackets, &b.brackets)
}

impl<A: Allocator> PartialEq for LineState<A> {
    ghost use Rattle.std.specs.Cmp.{partial_equiv_from_equiv};
    ghost use Rattle.yl_scan.specs.State.{state_eq, state_equivalence};

    ghost eq = { state_eq };

    ghost laws = { partial_equiv_from_equiv state_equivalence };

    fn eq(&self, other: &LineState<A>) -> bool {
        self.is_same(other)
    }
}

impl<A: Allocator> Eq for LineState<A> {
    ghost use Rattle.yl_scan.specs.State.{state_equivalence};

    ghost laws = { state_equivalence };
}
