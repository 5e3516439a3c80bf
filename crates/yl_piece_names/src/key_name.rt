//! Names of keys, owned.
ghost use Rattle.std.specs.Prelude.{◌≡◌, ◌↔◌, IsTrue, IfOk};

use std::alloc::{AllocError, Allocator};
use std::marker::Model;

/// The name of a key.
#[derive(Drop)]
pub(crate) struct KeyName<A: Allocator> {
    /// The text of the name.
    text: String<A>,
}

impl<A: Allocator> Model for KeyName<A> {
    ghost use Rattle.std.specs.Prelude.{ℕ, List, string_bytes};

    ghost Value = { List ℕ };

    ghost view = { λ n. string_bytes n.text };
}

impl<A: Allocator> KeyName<A> {
    /// Creates a copy of this name. The only error is out of memory.
    pub(crate) fn of(alloc: A, name: &str) -> Result<KeyName<A>, AllocError>
        ensures { IfOk result (λ n. n ≡ name.now) }
    {
        let text = String::from_str(alloc, name)?;
        Ok(KeyName { text })
    }

    /// Returns whether the two names are equal.
    pub(crate) fn is_same(&self, other: &KeyName<A>) -> bool
        ensures { IsTrue result ↔ (self.now ≡ other.now) }
    {
        self.text.as_str() == other.text.as_str()
    }
}

/// Returns whether the two lists of names are equal.
pub(crate) fn are_same_names<A: Allocator>(one: &[KeyName<A>], other: &[KeyName<A>]) -> bool
    ensures { IsTrue result ↔ (one.now ≡ other.now) }
{
    if one.len() != other.len() {
        return false;
    }
    for (name, expected) in one.iter().zip(other) {
        if !name.is_same(expected) {
            return false;
        }
    }
    true
}
