//! Stores of the lines of texts, and edits of them.

ghost use Rattle.std.specs.Prelude.{◌≡◌, IfOk};
ghost use Rattle.yl_text.specs.PutLines.{incoming_lines};
ghost use Rattle.yl_text.specs.Store.{AreLines};

use failing_alloc::FailingAlloc;
use std::alloc::{Allocator, Global};
use yl_text::{LineStore, Lines, Pos, Row, TextFault, line_edit, one_answer_to_an_edit, split};

/// An allocator that can refuse one allocation.
pub(crate) type Heap<'a> = &'a FailingAlloc<Global>;

/// Creates a store of the lines of these bytes. Returns the fault of the bytes, or `Memory` if
/// memory runs out.
pub(crate) fn opened<'a, S: LineStore<Alloc = Heap<'a>>>(
    heap: Heap<'a>,
    bytes: &[u8],
) -> Result<S, TextFault>
    ensures { IfOk result (λ store. AreLines (S.rows store)) }
{
    let mut rows = split(heap, bytes)?;
    let Ok(store) = S::from_rows(&mut rows) else {
        return Err(TextFault::Memory);
    };
    Ok(store)
}

// Returns the rows of these bytes. If `before` is set, they are put before another row, and so the
// last of them is left out.
fn incoming<A: Allocator + Copy>(
    alloc: A,
    before: bool,
    bytes: &[u8],
) -> Result<Vec<Row<A>, A>, TextFault>
    ensures { IfOk result (λ rows. rows.items ≡ incoming_lines before bytes.now) }
{
    let mut rows = split(alloc, bytes)?;
    if before {
        rows.pop();
    }
    Ok(rows)
}

/// Returns the position at this line and column, each cut to the greatest that fits in 32 bits.
pub(crate) fn place(line: usize, col: usize) -> Pos {
    Pos {
        line: line.min(u32::MAX as usize) as u32,
        col: col.min(u32::MAX as usize) as u32,
    }
}

/// Makes an edit between two positions. Returns `true` if the store takes all rows that are put in.
/// Returns the fault of the edit, or `Memory` if memory runs out.
pub(crate) fn edit<'a, S: LineStore<Alloc = Heap<'a>>>(
    heap: Heap<'a>,
    store: &mut S,
    from: Pos,
    to: Pos,
    bytes: &[u8],
) -> Result<bool, TextFault>
    requires { AreLines (S.rows store.old) }
    ensures { AreLines (S.rows store.new) }
{
    store.check(from, to, bytes)?;
    let made = line_edit(heap, store, from, to, bytes);
    let Ok(made) = made else {
        return Err(TextFault::Memory);
    };
    let before = made.end < store.len();
    let mut rows = incoming(heap, before, made.bytes.as_slice())?;
    one_answer_to_an_edit();
    let answer = store.splice(made.first, made.end, &mut rows);
    if answer.is_ok() {
        return Ok(rows.is_empty());
    }
    Err(TextFault::Memory)
}
