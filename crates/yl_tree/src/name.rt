//! Owned names.
ghost use Rattle.std.specs.Prelude.{◌≡◌, IfOk};

use arrayvec::ArrayString;
use std::alloc::{AllocError, Allocator};
use std::marker::Model;

/// The maximum length of a short name, in bytes.
const SHORT: usize = 16;

/// A name of at most 16 bytes, stored in the value itself.
#[derive(Drop)]
struct ShortName {
    /// The text of the name.
    text: ArrayString<SHORT>,
}

impl Model for ShortName {
    ghost use Rattle.std.specs.Prelude.{ℕ, List};

    ghost Value = { List ℕ };

    ghost view = { λ n. n.text.bytes };
}

impl ShortName {
    /// Returns the text of the name.
    fn as_str(&self) -> &str
        ensures { result.now ≡ self.now }
    {
        self.text.as_str()
    }
}

/// Where the text of a name is stored: in the value itself, or in an allocation.
#[derive(Drop)]
enum Storage<A: Allocator> {
    Short(ShortName),
    Long(String<A>),
}

/// The name of a key or of an anchor. A name of at most 16 bytes is stored in the value itself,
/// without an allocation.
#[derive(Drop)]
pub(crate) struct Name<A: Allocator> {
    kept: Storage<A>,
}

impl<A: Allocator> Model for Name<A> {
    ghost use Rattle.std.specs.Prelude.{ℕ, List};
    ghost use Rattle.yl_tree.specs.Name.{bytes_of};

    ghost Value = { List ℕ };

    ghost view = { λ n. bytes_of n.kept };
}

impl<A: Allocator> Name<A> {
    /// Creates a copy of this name. The only error is out of memory.
    pub(crate) fn of(alloc: A, text: &str) -> Result<Name<A>, AllocError>
        ensures { IfOk result (λ n. n ≡ text.now) }
    {
        let kept = match ArrayString::from(text) {
            Ok(text) => Storage::Short(ShortName { text }),
            Err(_) => Storage::Long(String::from_str(alloc, text)?),
        };
        Ok(Name { kept })
    }

    /// Returns the text of the name.
    pub(crate) fn as_str(&self) -> &str
        ensures { result.now ≡ self.now }
    {
        match &self.kept {
            Storage::Short(name) => name.as_str(),
            Storage::Long(text) => text.as_str(),
        }
    }
}
