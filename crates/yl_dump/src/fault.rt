//! Errors of printing, and faults in a text.
ghost use Rattle.std.specs.Prelude.{◌≡◌, ◌+◌, ◌-◌, ◌^◌, min};
ghost use Rattle.yl_row.specs.Fault.{fault_text};
ghost use Rattle.yl_dump.specs.declared.fault.DumpFault.TheVariants.{Memory};

use std::alloc::{AllocError, AllocFailed};
use thiserror::Error;
use yl_scan::FaultAbove;

/// An error that stops the printing of a text.
#[derive(Clone, Copy, Debug, PartialEq, Eq, Error)]
pub enum DumpFault {
    /// The writer failed, or accepted no bytes.
    #[error("output cannot be written")]
    Write,
    /// Memory ran out.
    #[error("out of memory")]
    Memory,
}

impl From<AllocError> for DumpFault {
    ghost from_gives = { λ _ fault. fault ≡ Memory };

    fn from(_error: AllocError) -> DumpFault {
        DumpFault::Memory
    }
}

impl<T: Drop> From<AllocFailed<T>> for DumpFault {
    ghost from_gives = { λ _ fault. fault ≡ Memory };

    fn from(_error: AllocFailed<T>) -> DumpFault {
        DumpFault::Memory
    }
}

/// A position in a text. The line and the column count from 0, and the column counts characters.
#[derive(Clone, Copy, Debug, PartialEq, Eq, PartialOrd, Ord)]
pub struct TextPlace {
    /// The line.
    pub line: u64,
    /// The column.
    pub column: u64,
}

/// A fault in a text.
#[derive(Clone, Copy)]
pub struct FaultMessage {
    /// The position of the fault.
    pub place: TextPlace,
    /// The message about the fault.
    pub text: &'static str,
}

/// Returns the scan fault that was found at line `line`, counted from 0.
pub fn scan_fault(line: u32, failed: FaultAbove) -> FaultMessage
    ensures line { result.place.line ≡ min (line - failed.ago + failed.fault.down) (2 ^ 64 - 1) }
    ensures column { result.place.column ≡ failed.fault.column }
    ensures text { result.text.now ≡ fault_text failed.fault.fault }
{
    let begun = u64::from(line).saturating_sub(u64::from(failed.ago));
    let place = TextPlace {
        line: begun.saturating_add(failed.fault.down as u64),
        column: failed.fault.column as u64,
    };
    FaultMessage {
        place,
        text: failed.fault.fault.text(),
    }
}
