//! Sets of names.
ghost use Rattle.std.specs.Prelude.{◌≡◌, ◌||◌, ◌&&◌, not, false, ℕ, List, OnOk, bytes_eq};
ghost use Rattle.std.specs.HashSet.{contains_text};
ghost use Rattle.yl_tree.specs.NameSets.{has_name, is_among};

use crate::name::Name;
use indexmap::IndexSet;
use std::alloc::{AllocError, Allocator};
use std::hash::{BuildHasherDefault, FoldHasher};

/// A set of borrowed names.
pub(crate) type NameSet<'a, A> = IndexSet<&'a str, BuildHasherDefault<FoldHasher>, A>;

/// A set of owned names.
pub(crate) type OwnedNames<A> = IndexSet<String<A>, BuildHasherDefault<FoldHasher>, A>;

/// Returns whether `name` is one of these names.
pub(crate) fn is_among<A: Allocator>(names: &[Name<A>], name: &str) -> bool
    ensures { result ≡ is_among names.now name.now }
{
    names.iter().any(|other| other.as_str() == name)
}

/// Returns whether the set has this name.
pub(crate) fn has_name<A: Allocator>(names: &NameSet<'_, A>, name: &str) -> bool
    ensures { result ≡ has_name names.now name.now }
{
    names.contains(&name)
}

/// Inserts a name into the set. The only error is out of memory.
pub(crate) fn insert_name<'a, A: Allocator + Copy>(
    names: &mut NameSet<'a, A>,
    name: &'a str,
) -> Result<(), AllocError>
    ensures { OnOk result ((q : List ℕ) → has_name names.new q
        ≡ bytes_eq name.now q || has_name names.old q) }
{
    names.insert(name)?;
    Ok(())
}

/// Removes a name from the set, if it has it.
pub(crate) fn remove_name<'a, A: Allocator>(names: &mut NameSet<'a, A>, name: &'a str)
    ensures { (q : List ℕ) → has_name names.new q
        ≡ not (bytes_eq name.now q) && has_name names.old q }
{
    names.swap_remove(&name);
}

/// Returns whether the set has this name.
pub(crate) fn has_text<A: Allocator>(names: &OwnedNames<A>, name: &str) -> bool
    ensures { result ≡ contains_text names.now name.now }
{
    names.contains(name)
}

/// Inserts a copy of a name into a set. The only error is out of memory.
fn insert_copy<A: Allocator + Copy>(
    alloc: A,
    names: &mut OwnedNames<A>,
    name: &str,
) -> Result<(), AllocError>
    ensures { OnOk result ((q : List ℕ) → contains_text names.new q
        ≡ bytes_eq name.now q || contains_text names.old q) }
{
    names.insert(String::from_str(alloc, name)?)?;
    Ok(())
}

/// Inserts copies of these names into a set. The only error is out of memory.
pub(crate) fn insert_names<A: Allocator + Copy>(
    alloc: A,
    set: &mut OwnedNames<A>,
    names: &[Name<A>],
) -> Result<(), AllocError>
    ensures { OnOk result ((q : List ℕ) → contains_text set.new q
        ≡ is_among names.now q || contains_text set.old q) }
{
    for name in names {
        insert_copy(alloc, set, name.as_str())?;
    }
    Ok(())
}
