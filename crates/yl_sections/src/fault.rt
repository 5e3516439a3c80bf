//! The fault of a section.
ghost use Rattle.std.specs.Prelude.{◌≡◌, ◌<◌, ◌^◌, ◌-◌, min};
ghost use Rattle.std.specs.Option.{option_map};
ghost use Rattle.yl_sections.specs.Kept.{scan_fault_at};
ghost use Rattle.yl_sections.specs.Owned.{section_fault_value};

use yl_row::PlacedScanFault;
use yl_text::Pos;

/// The first fault of a section, and its message.
#[derive(Clone, Copy)]
pub enum SectionFault {
    /// A fault at this position. Its line counts from 0 from the section's first row, and its
    /// column counts characters from 0.
    Here(Pos, &'static str),
    /// A fault after the section: at the first lexeme of the next section, or at the end of the
    /// text if the section is the last one.
    Behind(&'static str),
}

/// Returns `n`, or `u32::MAX` if it does not fit in 32 bits. No text has that many lines or
/// characters.
fn saturated(n: usize) -> u32
    ensures { result ≡ min n (2 ^ 32 - 1) }
{
    if n < u32::MAX as usize {
        n as u32
    } else {
        u32::MAX
    }
}

/// Returns the scan fault of the row at this line of a section, if it has one.
pub fn scan_fault_at(line: usize, fault: Option<PlacedScanFault>) -> Option<SectionFault>
    requires { line < 2 ^ 32 }
    ensures { option_map section_fault_value result ≡ option_map (scan_fault_at line) fault }
{
    let fault = fault?;
    let place = Pos {
        line: saturated(line.saturating_add(fault.down)),
        col: saturated(fault.column),
    };
    Some(SectionFault::Here(place, fault.fault.text()))
}
