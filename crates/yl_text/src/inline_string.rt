//! A string that can store a short text in the value itself.

ghost use Rattle.std.specs.Prelude.{◌≡◌, [], IfOk, IfSome, string_bytes};
ghost use Rattle.std.specs.Str.{chars, encode_utf8_all, IsAscii};

use arrayvec::{ArrayString, ArrayVec};
use std::alloc::{AllocError, Allocator};
use std::marker::Model;
use std::{fmt, str};

/// The maximum number of bytes of a text that is stored in the value itself.
const SHORT: usize = 16;

/// A text of at most 16 ASCII characters, stored in the value itself.
#[derive(Drop)]
pub struct ShortText {
    text: ArrayString<SHORT>,
}

impl Model for ShortText {
    ghost use Rattle.std.specs.Prelude.{ℕ, List};
    ghost use Rattle.std.specs.Str.{chars};

    ghost Value = { List ℕ };

    ghost view = { λ s. chars s.text.bytes };
}

impl ShortText {
    /// Returns the text in UTF-8.
    pub fn as_str(&self) -> &str
        ensures { result.now ≡ encode_utf8_all self.now }
    {
        self.text.as_str()
    }
}

/// The storage of a text: the value itself, or an allocation.
#[derive(Drop)]
pub enum Storage<A: Allocator> {
    /// A text in the value itself.
    Short(ShortText),
    /// A text in a `String`.
    Long(String<A>),
}

/// A string that can store a text of at most 16 ASCII characters in the value itself, without an
/// allocation. `of_ascii` does so, and `of_string` keeps the `String`.
#[derive(Drop)]
pub struct InlineString<A: Allocator> {
    kept: Storage<A>,
}

impl<A: Allocator> Model for InlineString<A> {
    ghost use Rattle.std.specs.Prelude.{ℕ, List};
    ghost use Rattle.yl_text.specs.InlineString.{characters_of};

    ghost Value = { List ℕ };

    ghost view = { λ s. characters_of s.kept };
}

/// Returns the text of these ASCII characters, or `None` if there are more than 16.
fn short_text(characters: &[char]) -> Option<ArrayString<SHORT>>
    requires { IsAscii characters.now }
    ensures { IfSome result (λ text. text.bytes ≡ characters.now) }
{
    if characters.len() > SHORT {
        return None;
    }
    let mut bytes: ArrayVec<u8, SHORT> = ArrayVec::new();
    for c in characters {
        bytes.push(*c as u8);
    }
    // ASCII is UTF-8.
    let text = unsafe { str::from_utf8_unchecked(bytes.as_slice()) };
    ArrayString::from(text).ok()
}

impl<A: Allocator> InlineString<A> {
    ghost use Rattle.yl_text.specs.InlineString.{characters_of};

    /// Creates an empty string. Does not allocate.
    pub fn new() -> InlineString<A>
        ensures { result ≡ [] }
    {
        let text = ArrayString::new();
        InlineString {
            kept: Storage::Short(ShortText { text }),
        }
    }

    /// Creates a string of these ASCII characters, or returns `None` if there are more than 16.
    /// Does not allocate.
    pub fn of_ascii(characters: &[char]) -> Option<InlineString<A>>
        requires { IsAscii characters.now }
        ensures { IfSome result (λ text. text ≡ characters.now) }
    {
        let text = short_text(characters)?;
        Some(InlineString {
            kept: Storage::Short(ShortText { text }),
        })
    }

    /// Creates a string that keeps this `String`, even if its text is short. Does not allocate.
    pub fn of_string(text: String<A>) -> InlineString<A>
        ensures { result ≡ chars (string_bytes text) }
    {
        InlineString {
            kept: Storage::Long(text),
        }
    }

    /// Returns the text in UTF-8.
    pub fn as_str(&self) -> &str
        ensures { result.now ≡ encode_utf8_all self.now }
    {
        match &self.kept {
            Storage::Short(short) => short.as_str(),
            Storage::Long(text) => text.as_str(),
        }
    }

    /// Returns the storage of the text.
    pub fn into_storage(self) -> Storage<A>
        ensures { characters_of result ≡ self }
    {
        self.kept
    }

    /// Returns the text as a `String`. Allocates only if the text is stored in the value itself.
    /// The only error is out of memory.
    pub fn into_string(self, alloc: A) -> Result<String<A>, AllocError>
        ensures { IfOk result (λ text. chars (string_bytes text) ≡ self) }
    {
        match self.kept {
            Storage::Short(short) => String::from_str(alloc, short.text.as_str()),
            Storage::Long(text) => Ok(text),
        }
    }
}

impl<A: Allocator> fmt::Debug for InlineString<A> {
    fn fmt<W: fmt::Write>(&self, f: &mut fmt::Formatter<W>) -> fmt::Result {
        fmt::Debug::fmt(&self.as_str(), f)
    }
}
