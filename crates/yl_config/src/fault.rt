//! The faults of configurations.
ghost use Rattle.std.specs.Prelude.{◌≡◌};
ghost use Rattle.yl_config.specs.Faults.{fault_name, fault_of_misfit, fault_place, place_from_one};

use crate::misfit::{Misfit, MisfitKind};
use std::fmt;
use thiserror::Error;
use yl_text::Pos;

/// A position in a configuration. The line and the column count from 1, and the column counts
/// characters.
#[derive(Clone, Copy, Debug, PartialEq, Eq)]
pub struct FaultPlace {
    /// The line, counted from 1.
    pub line: u64,
    /// The column, in characters, counted from 1.
    pub column: u64,
}

impl fmt::Display for FaultPlace {
    fn fmt<W: fmt::Write>(&self, f: &mut fmt::Formatter<W>) -> fmt::Result {
        let line = self.line;
        let column = self.column;
        write!(f, "{line}:{column}")
    }
}

/// Why a configuration is refused. It is displayed as its name and its position.
#[derive(Clone, Copy, Debug, PartialEq, Eq, Error)]
pub enum ConfigFault {
    /// The bytes are not UTF-8.
    #[error("NotUtf8")]
    NotUtf8,
    /// The text has a syntax fault.
    #[error("Syntax at {0}")]
    Syntax(FaultPlace),
    /// The text is not one document whose root is a mapping.
    #[error("NotAMapping at {0}")]
    NotAMapping(FaultPlace),
    /// The root has a key that is unknown.
    #[error("UnknownKey at {0}")]
    UnknownKey(FaultPlace),
    /// `rules` names a rule that is unknown.
    #[error("UnknownRule at {0}")]
    UnknownRule(FaultPlace),
    /// A rule has no option of this name.
    #[error("UnknownOption at {0}")]
    UnknownOption(FaultPlace),
    /// A key, a rule or an option does not take the value, or the value is an alias.
    #[error("BadValue at {0}")]
    BadValue(FaultPlace),
    /// The level of a rule is neither `error` nor `warning`.
    #[error("BadLevel at {0}")]
    BadLevel(FaultPlace),
    /// The value of `extends` is not `default`.
    #[error("UnknownExtends at {0}")]
    UnknownExtends(FaultPlace),
    /// The allocator is out of memory.
    #[error("Memory")]
    Memory,
    /// The text has more than 67,108,864 bytes.
    #[error("TooLarge")]
    TooLarge,
}

/// Returns the position with its line and column counted from 1.
pub fn from_one(place: Pos) -> FaultPlace
    ensures { result ≡ place_from_one place }
{
    FaultPlace {
        line: u64::from(place.line) + 1,
        column: u64::from(place.col) + 1,
    }
}

impl ConfigFault {
    /// Returns the name of the fault, as it is displayed.
    pub fn name(self) -> &'static str
        ensures { result.now ≡ fault_name self }
    {
        match self {
            ConfigFault::NotUtf8 => "NotUtf8",
            ConfigFault::Syntax(_) => "Syntax",
            ConfigFault::NotAMapping(_) => "NotAMapping",
            ConfigFault::UnknownKey(_) => "UnknownKey",
            ConfigFault::UnknownRule(_) => "UnknownRule",
            ConfigFault::UnknownOption(_) => "UnknownOption",
            ConfigFault::BadValue(_) => "BadValue",
            ConfigFault::BadLevel(_) => "BadLevel",
            ConfigFault::UnknownExtends(_) => "UnknownExtends",
            ConfigFault::Memory => "Memory",
            ConfigFault::TooLarge => "TooLarge",
        }
    }

    /// Returns the position of the fault, if it has one.
    pub fn place(self) -> Option<FaultPlace>
        ensures { result ≡ fault_place self }
    {
        match self {
            ConfigFault::NotUtf8 | ConfigFault::Memory | ConfigFault::TooLarge => None,
            ConfigFault::Syntax(place)
            | ConfigFault::NotAMapping(place)
            | ConfigFault::UnknownKey(place)
            | ConfigFault::UnknownRule(place)
            | ConfigFault::UnknownOption(place)
            | ConfigFault::BadValue(place)
            | ConfigFault::BadLevel(place)
            | ConfigFault::UnknownExtends(place) => Some(place),
        }
    }
}

/// Returns the fault for a misfit.
pub fn fault_of(misfit: Misfit) -> ConfigFault
    ensures { result ≡ fault_of_misfit misfit }
{
    let place = from_one(misfit.place);
    match misfit.kind {
        MisfitKind::NotAMapping => ConfigFault::NotAMapping(place),
        MisfitKind::UnknownKey => ConfigFault::UnknownKey(place),
        MisfitKind::UnknownRule => ConfigFault::UnknownRule(place),
        MisfitKind::UnknownOption => ConfigFault::UnknownOption(place),
        MisfitKind::BadValue => ConfigFault::BadValue(place),
        MisfitKind::BadLevel => ConfigFault::BadLevel(place),
        MisfitKind::UnknownExtends => ConfigFault::UnknownExtends(place),
    }
}
