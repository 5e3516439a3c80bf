//! Why a line is not taken.
ghost use Rattle.std.specs.Prelude.{◌≡◌};
ghost use Rattle.yl_patterns.specs.declared.fault.PatternFault.TheVariants.{Memory};

use std::alloc::{AllocError, AllocFailed};

/// Why a line is not taken.
#[derive(Clone, Copy, Debug, PartialEq, Eq)]
pub enum PatternFault {
    /// The line is no pattern: a part of it ends in a `\`, a range of a class runs backwards, or nothing stands after its `!`.
    BadPattern,
    /// Out of memory.
    Memory,
}

impl From<AllocError> for PatternFault {
    ghost from_gives = { λ _ fault. fault ≡ Memory };

    fn from(_error: AllocError) -> PatternFault {
        PatternFault::Memory
    }
}

impl<T: Drop> From<AllocFailed<T>> for PatternFault {
    ghost from_gives = { λ _ fault. fault ≡ Memory };

    fn from(_error: AllocFailed<T>) -> PatternFault {
        PatternFault::Memory
    }
}
