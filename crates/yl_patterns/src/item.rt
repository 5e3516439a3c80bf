//! The items of a pattern.
ghost use Rattle.std.specs.Prelude.{◌≡◌};
ghost use Rattle.yl_patterns.specs.Fits.{is_in_ranges, stands_for};

/// An item of a pattern. The ranges of a class stand after it.
#[derive(Clone, Copy)]
pub enum Item {
    /// This character, which may be a `/`.
    Character(char),
    /// A character but `/`.
    AnyCharacter,
    /// A character but `/` in one of the ranges, or in none of them.
    Class { is_negated: bool },
    /// The characters from one to another, both counted.
    Range { first: char, last: char },
    /// Some characters of a name, or none.
    Star,
    /// Some whole names, or none, each with the `/` after it.
    Folders,
}

// Whether the character is in one of the ranges at the front of the items.
fn is_in_ranges(items: &[Item], c: char) -> bool
    ensures { result ≡ is_in_ranges items.now c }
{
    for item in items {
        let Item::Range { first, last } = *item else {
            return false;
        };
        if first <= c && c <= last {
            return true;
        }
    }
    false
}

impl Item {
    /// Whether an item with these after it stands for the character.
    pub fn stands_for(self, after: &[Item], c: char) -> bool
        ensures { result ≡ stands_for self after.now c }
    {
        match self {
            Item::Character(x) => c == x,
            Item::AnyCharacter => c != '/',
            Item::Class { is_negated } => c != '/' && is_in_ranges(after, c) != is_negated,
            Item::Range { .. } | Item::Star | Item::Folders => false,
        }
    }
}
