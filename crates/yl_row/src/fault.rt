//! Scan faults: the reasons why no further lexemes are read.

ghost use Rattle.std.specs.Prelude.{◌≡◌};
ghost use Rattle.std.specs.Bool.{then_some};
ghost use Rattle.std.specs.Option.{option_or};
ghost use Rattle.yl_row.specs.Fault.{fault_at, fault_text, of_scalar};

use yl_scalar::ScalarFault;

/// The reason why no further lexemes are read.
#[derive(Clone, Copy, Debug, PartialEq, Eq)]
pub enum ScanFault {
    /// A character that YAML does not allow here.
    NotAllowed,
    /// A tab before a lexeme that only spaces may indent.
    TabInIndentation,
    /// The indicator `-` where no entry is allowed.
    EntryNotAllowed,
    /// The indicator `?` where no key is allowed.
    KeyNotAllowed,
    /// The indicator `:` where no value is allowed.
    ValueNotAllowed,
    /// A quoted scalar whose closing quote is missing.
    UnclosedQuote,
    /// A document marker inside a quoted scalar.
    MarkerInQuote,
    /// An escape that YAML does not define, an incomplete one, or one whose number is no character.
    BadEscape,
    /// A character in the header of a block scalar that does not fit.
    BadHeader,
    /// A blank line before the content of a block scalar that has more leading spaces than the
    /// content.
    BadIndentation,
    /// A closing bracket that is not of the kind of the innermost open bracket, or without an open
    /// bracket.
    BracketWithoutPartner,
    /// An anchor or an alias without a name.
    EmptyName,
    /// A verbatim tag that is not closed, or that a name directly follows.
    BadTag,
    /// Anything but a comment after the end marker of a document, in its line.
    ContentAfterDocumentEnd,
}

impl ScanFault {
    /// Returns the message of the fault.
    pub fn text(self) -> &'static str
        ensures { result.now ≡ fault_text self }
    {
        match self {
            ScanFault::NotAllowed => "character not allowed here",
            ScanFault::TabInIndentation => "tab in indentation",
            ScanFault::EntryNotAllowed => "block entry not allowed here",
            ScanFault::KeyNotAllowed => "mapping key not allowed here",
            ScanFault::ValueNotAllowed => "mapping value not allowed here",
            ScanFault::UnclosedQuote => "quoted scalar is not closed",
            ScanFault::MarkerInQuote => "document marker in quoted scalar",
            ScanFault::BadEscape => "bad escape",
            ScanFault::BadHeader => "bad block scalar header",
            ScanFault::BadIndentation => "bad block scalar indentation",
            ScanFault::BracketWithoutPartner => "bracket without partner",
            ScanFault::EmptyName => "empty anchor or alias name",
            ScanFault::BadTag => "bad tag",
            ScanFault::ContentAfterDocumentEnd => "content after document end",
        }
    }
}

/// Returns the scan fault of a fault of a scalar.
pub fn of_scalar(fault: ScalarFault) -> ScanFault
    ensures { result ≡ of_scalar fault }
{
    match fault {
        ScalarFault::NotAllowed => ScanFault::NotAllowed,
        ScalarFault::UnclosedQuote => ScanFault::UnclosedQuote,
        ScalarFault::MarkerInQuote => ScanFault::MarkerInQuote,
        ScalarFault::BadEscape => ScanFault::BadEscape,
        ScalarFault::BadHeader => ScanFault::BadHeader,
        ScalarFault::BadIndentation => ScanFault::BadIndentation,
    }
}

/// A scan fault and its position, relative to the row in which the lexeme begins that it
/// interrupts.
#[derive(Clone, Copy, PartialEq, Eq)]
pub struct PlacedScanFault {
    /// The fault.
    pub fault: ScanFault,
    /// The number of rows from the row in which the lexeme begins to that of the fault.
    pub down: usize,
    /// The column, in characters from 0.
    pub column: usize,
}

/// Returns the fault at this column of the row in which the lexeme begins, if `holds` is set.
pub fn when(holds: bool, fault: ScanFault, column: usize) -> Option<PlacedScanFault>
    ensures { result ≡ then_some holds (fault_at fault column) }
{
    if holds {
        Some(PlacedScanFault {
            fault,
            down: 0,
            column,
        })
    } else {
        None
    }
}

/// Returns the first fault, or the other one if there is no first.
pub fn or_else(
    fault: Option<PlacedScanFault>,
    other: Option<PlacedScanFault>,
) -> Option<PlacedScanFault>
    ensures { result ≡ option_or fault other }
{
    match fault {
        None => other,
        Some(fault) => Some(fault),
    }
}
