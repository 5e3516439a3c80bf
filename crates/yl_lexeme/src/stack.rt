//! A plain stack.

ghost use Rattle.std.specs.Prelude.{◌≡◌, [], ◌∷◌, IfOk};
ghost use Rattle.yl_lexeme.specs.Kept.{all_but_first, first_of};

use std::alloc::{AllocError, Allocator};
use std::marker::Model;

/// A stack. A contract sees the list of its items from the top down.
#[derive(Drop)]
pub struct Stack<T: Copy, A: Allocator + Copy> {
    /// The items, the top one at the end.
    items: Vec<T, A>,
}

impl<T: Copy, A: Allocator + Copy> Model for Stack<T, A> {
    ghost use Rattle.std.specs.Prelude.{List, reverse};

    ghost Value = { List T };

    ghost view = { λ s. reverse s.items.items };
}

impl<T: Copy, A: Allocator + Copy> Stack<T, A> {
    /// Creates an empty stack.
    pub fn new(alloc: A) -> Stack<T, A>
        ensures { result ≡ [] }
    {
        Stack {
            items: Vec::new(alloc),
        }
    }

    /// Pushes an item. The only error is out of memory.
    pub fn push(&mut self, item: T) -> Result<(), AllocError>
        ensures { IfOk result (λ _. self.new ≡ item ∷ self.old) }
    {
        self.items.push(item)?;
        Ok(())
    }

    /// Removes the top item and returns it. Returns `None` if there is none.
    pub fn pop(&mut self) -> Option<T>
        ensures top { result ≡ first_of self.old }
        ensures rest { self.new ≡ all_but_first self.old }
    {
        self.items.pop()
    }

    /// Removes all items.
    pub fn clear(&mut self)
        ensures { self.new ≡ [] }
    {
        self.items.clear();
    }
}
