//! The keys of open mappings.
ghost use Rattle.std.specs.Prelude.{◌≡◌, ◌||◌, ℕ, suc, List, OnOk, bytes_eq, reverse};
ghost use Rattle.yl_tree.specs.NameSets.{is_among};
ghost use Rattle.yl_tree.specs.NameStack.{level_at};
ghost use Rattle.yl_tree.specs.OtherKeys.{is_other, is_other_at, is_outer};

use crate::name::Name;
use crate::name_set::{OwnedNames, has_text, insert_names};
use crate::name_stack::NameStack;
use crate::walk::KeyMemory;
use indexmap::IndexSet;
use std::alloc::{AllocError, Allocator};
use std::mem;

/// The maximum number of keys of one mapping that are on the stack in any order.
const FEW: usize = 8;

/// The earlier keys of the open mappings. All mappings share one stack. The first eight keys of a
/// mapping are on it, and then each key that is greater than those of the mapping there. Any other
/// key moves those into a set, and is the first on the stack again.
#[derive(Drop)]
pub(crate) struct OpenKeys<A: Allocator + Copy> {
    /// The allocator of the sets and of long names.
    alloc: A,
    /// The keys on the stack, a level for each open collection.
    keys: NameStack<A>,
    /// The keys of the innermost mapping that are in a set, if there are any.
    others: Option<Box<OwnedNames<A>, A>>,
    /// The sets of the mappings around it, the outermost first.
    outer: Vec<Option<Box<OwnedNames<A>, A>>, A>,
}

/// Returns whether the key is in the set, if there is one.
fn is_other<A: Allocator + Copy>(others: &Option<Box<OwnedNames<A>, A>>, key: &str) -> bool
    ensures { result ≡ is_other others.now key.now }
{
    match others {
        None => false,
        Some(names) => has_text(names, key),
    }
}

/// Moves copies of these names into the set, and creates it if there is none. The only error is out
/// of memory.
fn put_among_others<A: Allocator + Copy>(
    alloc: A,
    others: &mut Option<Box<OwnedNames<A>, A>>,
    names: &[Name<A>],
) -> Result<(), AllocError>
    ensures { OnOk result ((q : List ℕ) → is_other others.new q
        ≡ is_among names.now q || is_other others.old q) }
{
    match others {
        Some(set) => insert_names(alloc, set, names),
        None => {
            let mut set = IndexSet::new(alloc);
            insert_names(alloc, &mut set, names)?;
            *others = Some(Box::new(alloc, set)?);
            Ok(())
        }
    }
}

/// Moves the keys of the innermost mapping from the stack into its set. The only error is out of
/// memory.
fn end_run<A: Allocator + Copy>(
    alloc: A,
    keys: &mut NameStack<A>,
    others: &mut Option<Box<OwnedNames<A>, A>>,
) -> Result<(), AllocError>
    ensures inner { OnOk result ((q : List ℕ) → is_among (level_at 0 keys.new) q || is_other others.new q
        ≡ is_among (level_at 0 keys.old) q || is_other others.old q) }
    ensures outer { OnOk result ((n : ℕ) → level_at (suc n) keys.new ≡ level_at (suc n) keys.old) }
{
    put_among_others(alloc, others, keys.innermost())?;
    keys.clear();
    Ok(())
}

/// Removes the set of the next outer mapping and returns it, if there is one.
fn pop_others<A: Allocator + Copy>(
    outer: &mut Vec<Option<Box<OwnedNames<A>, A>>, A>,
) -> Option<Box<OwnedNames<A>, A>>
    ensures { (n : ℕ) (q : List ℕ) → is_other_at result (reverse outer.new.items) n q
        ≡ is_outer (reverse outer.old.items) n q }
{
    match outer.pop() {
        Some(others) => others,
        None => None,
    }
}

impl<A: Allocator + Copy> KeyMemory for OpenKeys<A> {
    type Alloc = A;

    ghost speaks_against = { λ key q. bytes_eq key q };

    ghost is_against = { λ s n q. is_among (level_at n s.keys) q
        || is_other_at s.others (reverse s.outer.items) n q };

    fn new(alloc: A) -> Self {
        OpenKeys {
            alloc,
            keys: NameStack::new(alloc),
            others: None,
            outer: Vec::new(alloc),
        }
    }

    fn open(&mut self) -> Result<(), AllocError> {
        self.keys.open()?;
        self.outer.push(mem::replace(&mut self.others, None))?;
        Ok(())
    }

    fn close(&mut self) {
        self.keys.close();
        self.others = pop_others(&mut self.outer);
    }

    /// Remembers a key. A key that ends a run begins the next one, so each run is moved once.
    fn remember(&mut self, key: &str) -> Result<(), AllocError> {
        let name = Name::of(self.alloc, key)?;
        if self.keys.innermost().len() < FEW || self.keys.is_above(key) {
            return self.keys.push(name);
        }
        end_run(self.alloc, &mut self.keys, &mut self.others)?;
        self.keys.push(name)
    }

    fn is_against(&self, key: &str) -> bool {
        self.keys.has(key) || is_other(&self.others, key)
    }
}
