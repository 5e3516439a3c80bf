//! The names that are kept for open collections, on one stack.
ghost use Rattle.std.specs.Prelude.{◌≡◌, ◌++◌, ◌∷◌, [], ℕ, suc, List, OnOk, slice_get};
ghost use Rattle.yl_tree.specs.NameSets.{is_above, is_among};
ghost use Rattle.yl_tree.specs.NameStack.{level_at};

use crate::greatest::is_greater;
use crate::name::Name;
use crate::name_set::is_among;
use std::alloc::{AllocError, Allocator};
use std::marker::Model;

/// The place of a level on the stack, and its greatest name.
#[derive(Clone, Copy)]
pub(crate) struct Level {
    /// The index on the stack at which the level begins.
    begin: usize,
    /// The index in the level of its greatest name. It has no meaning if the level is empty.
    greatest: usize,
}

/// A stack of names in levels. Names are pushed into the innermost level. A level is a part of the
/// stack, so it is opened and closed without a move of names. A name that is greater than all names
/// of a level is not among them: one comparison decides it.
#[derive(Drop)]
pub(crate) struct NameStack<A: Allocator> {
    /// The names of all levels, the outermost level first.
    names: Vec<Name<A>, A>,
    /// The innermost level.
    innermost: Level,
    /// The other levels, the outermost first.
    outer: Vec<Level, A>,
}

impl<A: Allocator> Model for NameStack<A> {
    ghost use Rattle.std.specs.Prelude.{ℕ, List, ◌∷◌, reverse};
    ghost use Rattle.yl_tree.specs.NameStack.{levels, AreLevels};

    // The levels, the innermost first.
    ghost Value = { List (List (List ℕ)) };

    ghost view = { λ s. levels (s.innermost ∷ reverse s.outer.items) s.names.items };

    ghost invariant = { λ s. AreLevels (s.innermost ∷ reverse s.outer.items) s.names.items };
}

/// Returns whether a name is greater than the one of these with the index `greatest`, or `true` if
/// there is none.
fn is_above<A: Allocator>(names: &[Name<A>], greatest: usize, name: &str) -> bool
    ensures { result ≡ is_above (slice_get names.now greatest) name.now }
{
    match names.get(greatest) {
        None => true,
        Some(greatest) => is_greater(name, greatest.as_str()),
    }
}

impl<A: Allocator + Copy> NameStack<A> {
    /// Creates a stack with one level, which is empty.
    pub(crate) fn new(alloc: A) -> Self
        ensures { result ≡ [] ∷ [] }
    {
        NameStack {
            names: Vec::new(alloc),
            innermost: Level {
                begin: 0,
                greatest: 0,
            },
            outer: Vec::new(alloc),
        }
    }

    /// Returns the names of the innermost level.
    pub(crate) fn innermost(&self) -> &[Name<A>]
        ensures { result.now ≡ level_at 0 self.now }
    {
        &self.names[self.innermost.begin..]
    }

    /// Returns whether this name is greater than all names of the innermost level.
    pub(crate) fn is_above(&self, name: &str) -> bool {
        is_above(self.innermost(), self.innermost.greatest, name)
    }

    /// Returns whether the innermost level has this name.
    pub(crate) fn has(&self, name: &str) -> bool
        ensures { result ≡ is_among (level_at 0 self.now) name.now }
    {
        let names = &self.names[self.innermost.begin..];
        !is_above(names, self.innermost.greatest, name) && is_among(names, name)
    }

    /// Opens a level in the innermost one. The only error is out of memory.
    pub(crate) fn open(&mut self) -> Result<(), AllocError>
        ensures { OnOk result (self.new ≡ [] ∷ self.old) }
    {
        self.outer.push(self.innermost)?;
        self.innermost = Level {
            begin: self.names.len(),
            greatest: 0,
        };
        Ok(())
    }

    /// Closes the innermost level and removes its names. If it was the only level, an empty one
    /// remains.
    pub(crate) fn close(&mut self)
        ensures { (n : ℕ) → level_at n self.new ≡ level_at (suc n) self.old }
    {
        self.names.truncate(self.innermost.begin);
        match self.outer.pop() {
            Some(level) => self.innermost = level,
            None => {
                self.names.clear();
                self.innermost = Level {
                    begin: 0,
                    greatest: 0,
                };
            }
        }
    }

    /// Appends a name to the innermost level. The only error is out of memory.
    pub(crate) fn push(&mut self, name: Name<A>) -> Result<(), AllocError>
        ensures inner { OnOk result (level_at 0 self.new ≡ level_at 0 self.old ++ name ∷ []) }
        ensures outer { OnOk result ((n : ℕ) → level_at (suc n) self.new ≡ level_at (suc n) self.old) }
    {
        let level = &self.names[self.innermost.begin..];
        let place = level.len();
        let is_greatest = is_above(level, self.innermost.greatest, name.as_str());
        self.names.push(name)?;
        if is_greatest {
            self.innermost.greatest = place;
        }
        Ok(())
    }

    /// Removes the names of the innermost level.
    pub(crate) fn clear(&mut self)
        ensures inner { level_at 0 self.new ≡ [] }
        ensures outer { (n : ℕ) → level_at (suc n) self.new ≡ level_at (suc n) self.old }
    {
        self.names.truncate(self.innermost.begin);
    }
}
