//! Immutable blocks of items that stacks share.

ghost use Rattle.std.specs.Prelude.{◌≡◌, ◌≤◌, ◌++◌, [], IfOk, IsTrue, MatchOption, length, reverse};
ghost use Rattle.yl_lexeme.specs.Blocks.{items_under};
ghost use Rattle.yl_lexeme.specs.Kept.{all_but_first, first_of};
ghost use lib.Pointwise.{pointwise};

use smallvec::SmallVec;
use std::alloc::{AllocError, Allocator};
use std::marker::Model;
use std::rc::Rc;

/// A block of items and the blocks below it.
#[derive(Drop)]
struct Block<T: Copy, A: Allocator> {
    /// The highest item of the block.
    last: T,
    /// The other items of the block, the highest at the end.
    more: Vec<T, A>,
    /// The block below, if there is one.
    below: Option<Rc<Block<T, A>, A>>,
}

impl<T: Copy, A: Allocator> Model for Block<T, A> {
    ghost use Rattle.std.specs.Prelude.{List, ◌∷◌, ◌++◌, length, reverse};
    ghost use Rattle.yl_lexeme.specs.Blocks.{items_of, items_under};

    ghost Value = { T × List T };

    ghost view = { λ b. (b.last, reverse b.more.items ++ items_under b.below) };

    ghost size = { λ b. length (items_of b) };

    ghost use Rattle.std.proofs.Common.{arith};
    ghost use Rattle.std.proofs.lemmas.List.{length-append};

    ghost size_decreases = { λ a h. Prim.grind (arith, length-append (reverse a.more.items) (items_under a.below)) };
}

/// Returns a reference to the same blocks. Allocates nothing. Returns an error only if there are
/// more references to them than can be counted.
fn share_blocks<T: Copy, A: Allocator>(
    blocks: &Option<Rc<Block<T, A>, A>>,
) -> Result<Option<Rc<Block<T, A>, A>>, AllocError>
    ensures { IfOk result (λ shared. items_under shared ≡ items_under blocks.now) }
{
    match blocks {
        None => Ok(None),
        Some(block) => Ok(Some(block.clone()?)),
    }
}

/// A list of blocks of items. A contract sees the list of all items from the top down. Copies share
/// the blocks.
pub(crate) struct Blocks<T: Copy, A: Allocator> {
    highest: Option<Rc<Block<T, A>, A>>,
}

impl<T: Copy, A: Allocator> Model for Blocks<T, A> {
    ghost use Rattle.std.specs.Prelude.{List};
    ghost use Rattle.yl_lexeme.specs.Blocks.{items_under};

    ghost Value = { List T };

    ghost view = { λ b. items_under b.highest };
}

impl<T: Copy, A: Allocator + Copy> Blocks<T, A> {
    /// Creates an empty list.
    pub(crate) fn new() -> Blocks<T, A>
        ensures { result ≡ [] }
    {
        Blocks { highest: None }
    }

    /// Returns a list of the same blocks. Allocates nothing. Returns an error only if there are
    /// more references to them than can be counted.
    pub(crate) fn share(&self) -> Result<Blocks<T, A>, AllocError>
        ensures { IfOk result (λ b. b ≡ self.now) }
    {
        Ok(Blocks {
            highest: share_blocks(&self.highest)?,
        })
    }

    /// Returns these blocks with one more block of `items` above them, the highest item at the end.
    /// The only error is out of memory.
    pub(crate) fn with(&self, alloc: A, items: &[T]) -> Result<Blocks<T, A>, AllocError>
        ensures { IfOk result (λ b. b ≡ reverse items.now ++ self.now) }
    {
        let below = share_blocks(&self.highest)?;
        match items {
            [] => Ok(Blocks { highest: below }),
            [more @ .., last] => {
                let more = Vec::from_slice(alloc, more)?;
                let block = Block {
                    last: *last,
                    more,
                    below,
                };
                Ok(Blocks {
                    highest: Some(Rc::new(alloc, block)?),
                })
            }
        }
    }

    /// Returns what is left without the highest item: the other items of its block, the highest at
    /// the end, and the blocks below it. Returns `None` if there is no item. Allocates nothing.
    /// Returns an error only if there are more references to the blocks than can be counted.
    pub(crate) fn opened(&self) -> Result<Option<(&[T], Blocks<T, A>)>, AllocError>
        ensures { IfOk result (λ opened. MatchOption opened (self.now ≡ []) (λ rest. all_but_first self.now ≡ reverse rest.0.now ++ rest.1)) }
    {
        match &self.highest {
            None => Ok(None),
            Some(block) => {
                let block = block.as_ref();
                let highest = share_blocks(&block.below)?;
                Ok(Some((block.more.as_slice(), Blocks { highest })))
            }
        }
    }

    /// Returns the highest item, if there is one.
    pub(crate) fn top(&self) -> Option<T>
        ensures { result ≡ first_of self.now }
    {
        match &self.highest {
            None => None,
            Some(block) => Some(block.as_ref().last),
        }
    }

    /// Removes all items.
    pub(crate) fn clear(&mut self)
        ensures { self.new ≡ [] }
    {
        *self = Blocks { highest: None };
    }
}

/// Pushes the items, the first one first. The only error is out of memory.
pub(crate) fn push_all<T: Copy + Default, A: Allocator + Copy>(
    top: &mut SmallVec<T, 8, &A>,
    items: &[T],
) -> Result<(), AllocError>
    ensures { IfOk result (λ _. top.new.items ≡ top.old.items ++ items.now) }
{
    for item in items {
        top.push(*item)?;
    }
    Ok(())
}

/// Returns the block below a block, and drops the block itself.
fn below_of<T: Copy, A: Allocator>(block: Block<T, A>) -> Option<Rc<Block<T, A>, A>>
    ensures { length (items_under result) ≤ length block.1 }
{
    let Block { below, .. } = block;
    below
}

/// Drops blocks one after another, up to one that is still shared. A loop does this, since a
/// recursive drop would use stack space for each block.
fn drop_blocks<T: Copy, A: Allocator>(highest: Option<Rc<Block<T, A>, A>>) {
    let mut next = highest;
    while let Some(block) = next {
        match Rc::into_inner(block) {
            Some(block) => next = below_of(block),
            None => return,
        }
    }
}

impl<T: Copy, A: Allocator> Drop for Blocks<T, A> {
    fn drop(self) {
        let Blocks { highest } = self;
        drop_blocks(highest);
    }
}

/// An iterator over the items of a stack from the top down.
#[derive(Drop)]
pub struct Items<'s, T: Copy, A: Allocator> {
    /// The next items, the highest at the end.
    run: &'s [T],
    /// The blocks below them.
    below: &'s Option<Rc<Block<T, A>, A>>,
}

impl<'s, T: Copy, A: Allocator> Model for Items<'s, T, A> {
    ghost use Rattle.std.specs.Prelude.{List, ◌++◌, reverse};
    ghost use Rattle.yl_lexeme.specs.Blocks.{items_under};

    ghost Value = { List T };

    ghost view = { λ i. reverse i.run.now ++ items_under i.below.now };
}

impl<'s, T: Copy, A: Allocator> Items<'s, T, A> {
    /// Creates an iterator over the items of `run`, from its end, and then over those of the blocks
    /// below them.
    pub(crate) fn new(run: &'s [T], below: &'s Blocks<T, A>) -> Items<'s, T, A>
        ensures { result ≡ reverse run.now ++ below.now }
    {
        Items {
            run,
            below: &below.highest,
        }
    }

    /// Returns the next item, or `None` if there is none left.
    pub fn next(&mut self) -> Option<T>
        ensures item { result ≡ first_of self.old }
        ensures rest { self.new ≡ all_but_first self.old }
    {
        match self.run {
            [rest @ .., item] => {
                self.run = rest;
                Some(*item)
            }
            [] => match self.below {
                None => None,
                Some(block) => {
                    let block = block.as_ref();
                    self.run = block.more.as_slice();
                    self.below = &block.below;
                    Some(block.last)
                }
            },
        }
    }

    /// Returns whether both have the same number of items, fewer than `most`, and the items are
    /// equal in pairs. Compares at most `most` pairs. Advances both iterators.
    pub fn are_few_and_like(&mut self, other: &mut Items<'_, T, A>, most: usize) -> bool
    where
        T: PartialEq,
        ensures { IsTrue result → IsTrue (pointwise T.eq self.old other.old) }
    {
        for _i in 0..most {
            let x = self.next();
            let y = other.next();
            match (x, y) {
                (None, None) => return true,
                (Some(x), Some(y)) => {
                    if x != y {
                        return false;
                    }
                }
                _ => return false,
            }
        }
        false
    }

    /// Returns whether both have the same number of items and the items are equal in pairs.
    /// Advances both iterators.
    pub fn are_like(&mut self, other: &mut Items<'_, T, A>) -> bool
    where
        T: PartialEq,
        ensures { result ≡ pointwise T.eq self.old other.old }
    {
        loop {
            let x = self.next();
            let y = other.next();
            match (x, y) {
                (None, None) => return true,
                (Some(x), Some(y)) => {
                    if x != y {
                        return false;
                    }
                }
                _ => return false,
            }
        }
    }
}
