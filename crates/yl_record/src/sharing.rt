//! Shares equal states of rows.

ghost use Rattle.std.specs.Prelude.{◌≡◌, IfOk, IsTrue};
ghost use Rattle.yl_row.specs.Entries.{Stands};

use crate::record::Record;
use std::alloc::{AllocError, Allocator};
use yl_lexeme::{KeptStack, Kind};
use yl_scan::{LineState, Standing};

/// The number of rows above that are searched for an equal state.
const ROWS: usize = 16;

/// The maximum number of columns and of brackets of two states that are compared.
const COMPARED: usize = 64;

/// Returns whether the columns are the same. Returns `false` for 64 or more.
fn has_same_levels<A: Allocator>(a: &KeptStack<u32, A>, b: &KeptStack<u32, A>) -> bool
    ensures { IsTrue result → a.now ≡ b.now }
{
    a.items().are_few_and_like(&mut b.items(), COMPARED)
}

/// Returns whether the brackets are the same. Returns `false` for 64 or more.
fn has_same_brackets<A: Allocator>(a: &KeptStack<Kind, A>, b: &KeptStack<Kind, A>) -> bool
    ensures { IsTrue result → a.now ≡ b.now }
{
    a.items().are_few_and_like(&mut b.items(), COMPARED)
}

/// Returns whether the states are the same. Returns `false` for 64 or more columns or brackets.
fn is_same_standing<A: Allocator>(a: &Standing<A>, b: &Standing<A>) -> bool
    ensures { IsTrue result → Stands a.now.levels a.now.brackets a.now.last ≡ Stands b.now.levels b.now.brackets b.now.last }
{
    a.last == b.last
        && has_same_levels(&a.levels, &b.levels)
        && has_same_brackets(&a.brackets, &b.brackets)
}

/// Returns whether the states are the same. Returns `false` for 64 or more columns or brackets, and
/// for states below a fault, which have nothing to share.
fn is_same_state<A: Allocator>(a: &LineState<A>, b: &LineState<A>) -> bool
    ensures { IsTrue result → a.now ≡ b.now }
{
    match (a.standing(), b.standing()) {
        (Some(a), Some(b)) => is_same_standing(a, b),
        _ => false,
    }
}

/// Returns the state. If one of the last `ROWS` records has an equal state, the result shares the
/// allocation of that one. Returns an error only if there are more references to it than can be
/// counted.
pub fn shared<A: Allocator>(
    records: &[Record<A>],
    state: Option<LineState<A>>,
) -> Result<Option<LineState<A>>, AllocError>
    ensures { IfOk result (λ shared. shared ≡ state) }
{
    let Some(state) = state else {
        return Ok(None);
    };
    let (_, last) = records.split_at(records.len().saturating_sub(ROWS));
    for record in last {
        if let Some(other) = record.state()
            && is_same_state(other, &state)
        {
            return Ok(Some(other.share()?));
        }
    }
    Ok(Some(state))
}
