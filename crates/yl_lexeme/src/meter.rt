//! Counts the work that was done.

/// Counters of the work that was done.
#[derive(Clone, Copy, Debug, PartialEq, Eq)]
pub struct Meter {
    /// The number of rows that were scanned. A call that returned an error counts too.
    pub lines: u32,
    /// The number of derivations of the events of a document. Each counts when it begins.
    pub documents: u32,
}

impl Meter {
    ghost use Rattle.std.specs.Prelude.{◌≡◌};

    /// Creates a meter at 0.
    pub fn new() -> Meter
        ensures { result ≡ record { lines = 0; documents = 0 } }
    {
        Meter {
            lines: 0,
            documents: 0,
        }
    }
}
