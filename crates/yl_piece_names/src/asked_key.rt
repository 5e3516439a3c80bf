//! The names that a run of events asks for.
ghost use Rattle.std.specs.Prelude.{◌≡◌, ◌++◌, true, IfOk, OnOk, option_copied};
ghost use Rattle.yl_piece_names.specs.KeptNames.{asked_next};

use crate::key_name::KeyName;
use crate::named_collections::NamedCollections;
use std::alloc::{AllocError, Allocator};
use std::marker::Model;

/// The name of a key of the run, and the height of its mapping, which was open before the run.
#[derive(Drop)]
pub(crate) struct AskedKey<A: Allocator> {
    /// How many collections are open in the mapping, it too.
    height: usize,
    /// The name of the key.
    name: KeyName<A>,
}

impl<A: Allocator> Model for AskedKey<A> {
    ghost use Rattle.yl_piece_names.specs.Asked.{AskedName};

    ghost Value = { AskedName };

    ghost view = { λ a. record { height = a.height; name = a.name } };
}

impl<A: Allocator> AskedKey<A> {
    /// Creates one with a copy of the name. The only error is out of memory.
    fn of(alloc: A, height: usize, name: &str) -> Result<AskedKey<A>, AllocError>
        ensures { IfOk result (λ a. a ≡ record { height = height; name = name.now }) }
    {
        let name = KeyName::of(alloc, name)?;
        Ok(AskedKey { height, name })
    }

    /// Returns `true` only if the two are equal.
    fn is_same(&self, other: &AskedKey<A>) -> bool
        ensures { result ≡ true → self.now ≡ other.now }
    {
        self.height == other.height && self.name.is_same(&other.name)
    }
}

/// Appends what the next event asks for, which has this name, if it has one, where the run went so
/// low and has these collections open. The only error is out of memory.
pub(crate) fn ask<A: Allocator + Copy>(
    collections: &NamedCollections<A>,
    low: usize,
    name: Option<&str>,
    asked: &mut Vec<AskedKey<A>, A>,
) -> Result<(), AllocError>
    ensures { OnOk result (asked.new.items ≡ asked.old.items ++ asked_next collections.now low (option_copied name.entry)) }
{
    let Some(name) = name else {
        return Ok(());
    };
    let height = collections.height();
    if collections.is_before_key() && height <= low {
        let alloc = *asked.allocator();
        asked.push(AskedKey::of(alloc, height, name)?)?;
    }
    Ok(())
}

/// Returns `true` only if the two lists are equal.
pub(crate) fn are_same_asked<A: Allocator>(one: &[AskedKey<A>], other: &[AskedKey<A>]) -> bool
    ensures { result ≡ true → one.now ≡ other.now }
{
    if one.len() != other.len() {
        return false;
    }
    for i in 0..one.len() {
        if !one[i].is_same(&other[i]) {
            return false;
        }
    }
    true
}
