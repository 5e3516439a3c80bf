//! A store that keeps its rows in one `Vec`.
ghost use Rattle.std.specs.Prelude.{◌≡◌, ◌+◌, ◌^◌, ◌<◌, ◌≤◌, ◌++◌, [], length, take, drop, vec_len, vec_capacity};
ghost use Rattle.std.specs.List.{splice, remove_range, slice_rotate_right};
ghost use Rattle.yl_text.specs.Lines.{text_of};
ghost use Rattle.yl_text.specs.Store.{IsRange};

use crate::Row;
use crate::store::{LineStore, Lines};
use std::alloc::{AllocError, Allocator};
use std::marker::Model;
use std::mem;

/// A store of the lines of a text in one `Vec`.
#[derive(Drop)]
pub struct PlainStore<A: Allocator> {
    rows: Vec<Row<A>, A>,
}

impl<A: Allocator> Model for PlainStore<A> {
    ghost use Rattle.std.specs.Prelude.{List};
    ghost use Rattle.yl_text.specs.Lines.{RowValue};
    ghost use Rattle.yl_text.specs.Store.{AreLines};

    ghost Value = { List RowValue };

    ghost view = { λ s. s.rows.items };

    ghost invariant = { λ s. AreLines s.rows.items };
}

/// Returns the number of bytes of the rows, breaks included.
pub fn bytes_of<A: Allocator>(rows: &[Row<A>]) -> u64
    requires { length (text_of rows.now) < 2 ^ 64 }
    ensures { result ≡ length (text_of rows.now) }
{
    let mut sum = 0;
    for row in rows {
        sum += row.bytes() as u64;
    }
    sum
}

/// Moves the last `count` items to the index `from`, before the other items from there on.
fn move_last_to<T, A: Allocator>(items: &mut Vec<T, A>, from: usize, count: usize)
    requires { from + count ≤ vec_len items.old }
    ensures items { items.new.items ≡ take from items.old.items
        ++ slice_rotate_right (drop from items.old.items) count }
    ensures len { vec_len items.new ≡ vec_len items.old }
{
    items[from..].rotate_right(count);
}

/// Removes the items `a..b`.
fn remove_between<T: Drop, A: Allocator>(items: &mut Vec<T, A>, a: usize, b: usize)
    requires { IsRange a b (vec_len items.old) }
    ensures { items.new.items ≡ remove_range items.old.items a b }
{
    drop(items.drain(a..b));
}

/// Replaces as many items from `a` on by the new items, so that no other item moves. Leaves `new`
/// empty.
fn put_each<T: Drop, A: Allocator>(items: &mut Vec<T, A>, a: usize, new: &mut Vec<T, A>)
    requires { a + vec_len new.old ≤ vec_len items.old }
    ensures items { items.new.items ≡ splice items.old.items a (a + vec_len new.old) new.old.items }
    ensures taken { new.new.items ≡ [] }
{
    let end = a + new.len();
    items[a..end].swap_with_slice(new);
    new.clear();
}

/// Replaces the items `a..b`, counted from 0, by the items of `new`, and leaves `new` empty.
/// `items` has capacity for its items and the new ones together. Does not allocate.
pub fn put_between<T: Drop, A: Allocator>(
    items: &mut Vec<T, A>,
    a: usize,
    b: usize,
    new: &mut Vec<T, A>,
)
    requires range { IsRange a b (vec_len items.old) }
    requires room { vec_len items.old + vec_len new.old ≤ vec_capacity items.old }
    ensures items { items.new.items ≡ splice items.old.items a b new.old.items }
    ensures taken { new.new.items ≡ [] }
{
    let added = new.len();
    if added == b - a {
        put_each(items, a, new);
        return;
    }
    items.append(new).unwrap();
    move_last_to(items, a, added);
    remove_between(items, a + added, b + added);
}

impl<A: Allocator + Copy> Lines for PlainStore<A> {
    type Alloc = A;

    ghost rows = { λ s. s };

    fn len(&self) -> usize {
        self.rows.len()
    }

    fn row(&self, i: usize) -> &Row<A> {
        &self.rows[i]
    }

    fn rows_from(&self, i: usize) -> &[Row<A>] {
        &self.rows[i..]
    }
}

impl<A: Allocator + Copy> LineStore for PlainStore<A> {
    fn from_rows(rows: &mut Vec<Row<A>, A>) -> Result<PlainStore<A>, AllocError> {
        let alloc = *rows.allocator();
        Ok(PlainStore {
            rows: mem::replace(rows, Vec::new(alloc)),
        })
    }

    fn bytes(&self) -> u64 {
        bytes_of(self.rows.as_slice())
    }

    fn splice(&mut self, a: usize, b: usize, rows: &mut Vec<Row<A>, A>) -> Result<(), AllocError> {
        self.rows.try_reserve(rows.len())?;
        put_between(&mut self.rows, a, b, rows);
        Ok(())
    }
}
