//! Why a run or a program ends early.
ghost use Rattle.std.specs.Prelude.{◌≡◌};
ghost use Rattle.yl_devices.specs.declared.fault.RunFault.TheVariants.{Memory};

use std::alloc::{AllocError, AllocFailed};
use thiserror::Error;

/// What keeps a file's bytes, less a leading byte-order mark, from being a text.
#[derive(Clone, Copy, Debug, PartialEq, Eq, Error)]
pub enum BadText {
    /// How many bytes the longest front has that is UTF-8.
    #[error("not UTF-8 at byte {valid_up_to}")]
    NotUtf8 { valid_up_to: usize },
    #[error("too large")]
    TooLarge,
}

/// Why a run ended early.
#[derive(Clone, Copy, Debug, PartialEq, Eq, Error)]
pub enum RunFault {
    /// The reader failed.
    #[error("cannot be read")]
    Read,
    #[error("{0}")]
    Text(BadText),
    /// The writer failed, or took nothing.
    #[error("output cannot be written")]
    Write,
    /// What the reader gives next is no command.
    #[error("bad command")]
    Command,
    #[error("out of memory")]
    Memory,
}

/// What ends a program before its work is done. That a configuration is refused has a line of its
/// own.
#[derive(Clone, Copy, Debug)]
pub enum ProgramFault<'a> {
    /// The words are no command.
    Use,
    Memory,
    /// The run over the file of this name ended early.
    Run(&'a str, RunFault),
}

impl From<AllocError> for RunFault {
    ghost from_gives = { λ _ fault. fault ≡ Memory };

    fn from(_error: AllocError) -> RunFault {
        RunFault::Memory
    }
}

impl<T: Drop> From<AllocFailed<T>> for RunFault {
    ghost from_gives = { λ _ fault. fault ≡ Memory };

    fn from(_error: AllocFailed<T>) -> RunFault {
        RunFault::Memory
    }
}
