//! A view of a list of which some items are replaced. Copies nothing.
ghost use Rattle.std.specs.Prelude.{◌≡◌, ◌<◌, ◌+◌, ◌^◌, length, slice_get, Some};
ghost use Rattle.std.specs.List.{splice};
ghost use Rattle.yl_text.specs.Store.{IsRange};

use crate::chunks::Chunks;
use std::alloc::Allocator;
use std::marker::Model;

/// A view of a list, with other items in place of the items `a..b`, counted from 0. It borrows all
/// of them. In contracts it is the list that they make.
pub struct Spliced<'a, T, A: Allocator> {
    list: &'a Chunks<T, A>,
    a: usize,
    b: usize,
    new: &'a [T],
}

impl<'a, T, A: Allocator> Model for Spliced<'a, T, A> {
    ghost use Rattle.std.specs.Prelude.{List, length, ◌+◌, ◌<◌, ◌^◌};
    ghost use Rattle.std.specs.List.{splice};
    ghost use Rattle.yl_text.specs.Store.{IsRange};

    ghost Value = { List T };

    ghost view = { λ s. splice s.list.now.items s.a s.b s.new.now };

    ghost invariant = { λ s. IsRange s.a s.b (length s.list.now.items) × (length s.list.now.items + length s.new.now < 2 ^ 64) };
}

impl<T, A: Allocator> Drop for Spliced<'_, T, A> {
    fn drop(self) {
        let Spliced {
            list: _,
            a: _,
            b: _,
            new: _,
        } = self;
    }
}

impl<'a, T: Drop, A: Allocator + Copy> Spliced<'a, T, A> {
    /// Creates a view of `list` with `new` in place of the items `a..b`, counted from 0. Does not
    /// allocate.
    pub fn new(list: &'a Chunks<T, A>, a: usize, b: usize, new: &'a [T]) -> Spliced<'a, T, A>
        requires range { IsRange a b (length list.now.items) }
        requires few { length list.now.items + length new.now < 2 ^ 64 }
        ensures { result ≡ splice list.now.items a b new.now }
    {
        Spliced { list, a, b, new }
    }

    /// Returns the number of items.
    pub fn len(&self) -> usize
        ensures { result ≡ length self.now }
    {
        self.list.len() - (self.b - self.a) + self.new.len()
    }

    /// Returns the item at the index `i`, counted from 0. Does not allocate.
    pub fn get(&self, i: usize) -> &'a T
        requires { i < length self.now }
        ensures { slice_get self.now i ≡ Some result.now }
    {
        if i < self.a {
            self.list.get(i)
        } else if i - self.a < self.new.len() {
            &self.new[i - self.a]
        } else {
            self.list.get(i - self.a - self.new.len() + self.b)
        }
    }
}
