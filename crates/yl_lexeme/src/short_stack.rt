//! Stacks whose topmost items need no allocation, and whose other items are shared.

ghost use Rattle.std.specs.Prelude.{◌≡◌, ◌∷◌, ◌++◌, [], IfOk, IsTrue, OnErr, reverse};
ghost use Rattle.yl_lexeme.specs.Kept.{all_but_first, first_of};
ghost use lib.Pointwise.{pointwise};

use crate::blocks::{Blocks, Items, push_all};
use arrayvec::ArrayVec;
use smallvec::SmallVec;
use std::alloc::{AllocError, Allocator};
use std::marker::Model;

/// The maximum number of items that are compared by `keeps`.
const COMPARED: usize = 64;

/// A stack. A contract sees the list of its items from the top down. Up to eight items need no
/// allocation. The items below them are in blocks that are shared with kept stacks.
#[derive(Drop)]
pub struct ShortStack<'a, T: Copy + Default, A: Allocator + Copy> {
    /// The topmost items, the highest at the end.
    top: SmallVec<T, 8, &'a A>,
    /// The items below them.
    below: Blocks<T, A>,
}

impl<'a, T: Copy + Default, A: Allocator + Copy> Model for ShortStack<'a, T, A> {
    ghost use Rattle.std.specs.Prelude.{List, ◌++◌, reverse};

    ghost Value = { List T };

    ghost view = { λ s. reverse s.top.items ++ s.below };
}

impl<'a, T: Copy + Default, A: Allocator + Copy> ShortStack<'a, T, A> {
    /// Creates a stack of these items, the highest at the end.
    pub fn on(top: SmallVec<T, 8, &'a A>) -> ShortStack<'a, T, A>
        ensures { result ≡ reverse top.entry.items }
    {
        ShortStack {
            top,
            below: Blocks::new(),
        }
    }

    /// Pushes an item. The only error is out of memory, after which the stack is unchanged.
    pub fn push(&mut self, item: T) -> Result<(), AllocError>
        ensures pushed { IfOk result (λ _. self.new ≡ item ∷ self.old) }
        ensures err { OnErr result (self.new ≡ self.old) }
    {
        if self.top.len() >= 8 {
            let alloc = **self.top.allocator();
            self.below = self.below.with(alloc, self.top.as_slice())?;
            self.top.clear();
        }
        self.top.push(item)?;
        Ok(())
    }

    /// Removes the top item, if there is one. The only error is out of memory.
    pub fn pop(&mut self) -> Result<(), AllocError>
        ensures { IfOk result (λ _. self.new ≡ all_but_first self.old) }
    {
        if self.top.pop().is_some() {
            return Ok(());
        }
        match self.below.opened()? {
            None => {}
            Some((run, below)) => {
                push_all(&mut self.top, run)?;
                self.below = below;
            }
        }
        Ok(())
    }

    /// Returns the top item, if there is one.
    #[inline(always)]
    pub fn top(&self) -> Option<T>
        ensures { result ≡ first_of self.now }
    {
        match self.top.as_slice() {
            [.., item] => Some(*item),
            [] => self.below.top(),
        }
    }

    /// Removes all items.
    pub fn clear(&mut self)
        ensures { self.new ≡ [] }
    {
        self.top.clear();
        self.below.clear();
    }

    /// Returns an iterator over the items from the top down.
    pub fn items(&self) -> Items<'_, T, A>
        ensures { result ≡ self.now }
    {
        Items::new(self.top.as_slice(), &self.below)
    }

    /// Puts the items of a kept stack into this stack, which must be empty. The only error is out
    /// of memory.
    pub fn resume(&mut self, kept: &KeptStack<T, A>) -> Result<(), AllocError>
        requires { self.old ≡ [] }
        ensures { IfOk result (λ _. self.new ≡ kept.now) }
    {
        self.top.clear();
        push_all(&mut self.top, kept.top.as_slice())?;
        self.below = kept.below.share()?;
        Ok(())
    }
}

/// A copy of a stack that is kept. A contract sees the list of its items from the top down. At most
/// eight items are in the value itself. The others are in shared blocks.
#[derive(Drop)]
pub struct KeptStack<T: Copy, A: Allocator> {
    /// The topmost items, the highest at the end.
    top: ArrayVec<T, 8>,
    /// The items below them.
    below: Blocks<T, A>,
}

impl<T: Copy, A: Allocator> Model for KeptStack<T, A> {
    ghost use Rattle.std.specs.Prelude.{List, ◌++◌, reverse};

    ghost Value = { List T };

    ghost view = { λ s. reverse s.top.items ++ s.below };
}

impl<T: Copy, A: Allocator + Copy> KeptStack<T, A> {
    /// Creates a copy of a stack. `room` must be empty. Allocates only if more than eight items of
    /// the stack are outside its shared blocks. The only error is out of memory.
    pub fn of(
        room: ArrayVec<T, 8>,
        stack: &ShortStack<'_, T, A>,
    ) -> Result<KeptStack<T, A>, AllocError>
    where
        T: Default,
        requires { room.items ≡ [] }
        ensures { IfOk result (λ kept. kept ≡ stack.now) }
    {
        let mut top = room;
        let below = match top.try_extend_from_slice(stack.top.as_slice()) {
            Ok(()) => stack.below.share()?,
            Err(_) => stack
                .below
                .with(**stack.top.allocator(), stack.top.as_slice())?,
        };
        Ok(KeptStack { top, below })
    }
}

impl<T: Copy, A: Allocator> KeptStack<T, A> {
    /// Returns an iterator over the items from the top down.
    pub fn items(&self) -> Items<'_, T, A>
        ensures { result ≡ self.now }
    {
        Items::new(self.top.as_slice(), &self.below)
    }

    /// Returns whether a stack has the items of this copy, compared in pairs. Returns `false` for a
    /// stack of 64 items or more.
    pub fn keeps(&self, stack: &ShortStack<'_, T, A>) -> bool
    where
        T: PartialEq + Default,
        A: Copy,
        ensures { IsTrue result → IsTrue (pointwise T.eq self.now stack.now) }
    {
        self.items().are_few_and_like(&mut stack.items(), COMPARED)
    }

    /// Returns whether two copies have the same items, compared in pairs.
    pub fn is_like(&self, other: &KeptStack<T, A>) -> bool
    where
        T: PartialEq,
        ensures { result ≡ pointwise T.eq self.now other.now }
    {
        self.items().are_like(&mut other.items())
    }
}
