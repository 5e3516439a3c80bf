//! The greatest of some keys.
ghost use Rattle.std.specs.Prelude.{◌≡◌, Bool, ℕ, List};
ghost use Rattle.yl_tree.specs.KeyRules.{is_greater};
ghost use Rattle.yl_tree.specs.Greatest.{is_greater_among};
ghost use Rattle.yl_tree.specs.NameStack.{level_at};

use crate::name::Name;
use crate::name_stack::NameStack;
use crate::walk::KeyMemory;
use std::alloc::{AllocError, Allocator};

/// The greatest of the earlier keys of each open collection. A level of the stack holds at most
/// one.
#[derive(Drop)]
pub(crate) struct GreatestKeys<A: Allocator + Copy> {
    alloc: A,
    keys: NameStack<A>,
}

/// Returns whether `a` is greater than `b`, by code points.
pub(crate) fn is_greater(a: &str, b: &str) -> bool
    ensures { result ≡ is_greater a.now b.now }
{
    a > b
}

/// Returns whether one of the names is greater than the key.
fn is_greater_among<A: Allocator>(names: &[Name<A>], key: &str) -> bool
    ensures { result ≡ is_greater_among names.now key.now }
{
    names.iter().any(|name| is_greater(name.as_str(), key))
}

impl<A: Allocator + Copy> KeyMemory for GreatestKeys<A> {
    type Alloc = A;

    ghost speaks_against = { is_greater };

    ghost is_against = { λ g n q. is_greater_among (level_at n g.keys) q };

    fn new(alloc: A) -> Self {
        GreatestKeys {
            alloc,
            keys: NameStack::new(alloc),
        }
    }

    fn open(&mut self) -> Result<(), AllocError> {
        self.keys.open()
    }

    fn close(&mut self) {
        self.keys.close();
    }

    fn remember(&mut self, key: &str) -> Result<(), AllocError> {
        if !self.is_against(key) {
            let name = Name::of(self.alloc, key)?;
            self.keys.clear();
            self.keys.push(name)?;
        }
        Ok(())
    }

    fn is_against(&self, key: &str) -> bool {
        is_greater_among(self.keys.innermost(), key)
    }
}
