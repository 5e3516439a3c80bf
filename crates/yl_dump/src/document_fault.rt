//! The faults of documents.
ghost use Rattle.std.specs.Prelude.{◌≡◌, ◌++◌, OnOk};
ghost use Rattle.yl_dump.specs.DocumentLine.{document_fault_line};

use crate::fault::{FaultMessage, TextPlace};
use crate::page::Page;
use crate::quoting::print_quoted;
use std::alloc::{AllocError, Allocator};
use yl_events::ParseFault;

/// The parse fault of a document.
#[derive(Clone, Copy)]
pub struct DocumentFault {
    /// The kind of the fault.
    pub kind: ParseFault,
    /// The position of the fault. `None` means that it is after all lexemes.
    pub place: Option<TextPlace>,
}

/// What follows the lexemes of a document.
#[derive(Clone, Copy)]
pub enum Behind {
    /// The first lexeme of the next document, or the end of the text, at this position.
    End(TextPlace),
    /// The scan fault of the text.
    Stop(FaultMessage),
}

// Returns the position and the message of a parse fault. Returns `None` if the fault is after all
// lexemes and a scan fault follows them.
fn parse_fault(fault: DocumentFault, behind: Behind) -> Option<FaultMessage> {
    let text = fault.kind.text();
    match (fault.place, behind) {
        (Some(place), _) | (None, Behind::End(place)) => Some(FaultMessage { place, text }),
        (None, Behind::Stop(_)) => None,
    }
}

/// Returns the fault that is printed for a document, if there is one: the earlier one of its parse
/// fault and the scan fault that follows its lexemes.
pub fn text_fault(fault: Option<DocumentFault>, behind: Behind) -> Option<FaultMessage> {
    let parse = match fault {
        Some(fault) => parse_fault(fault, behind),
        None => None,
    };
    match (parse, behind) {
        (_, Behind::End(_)) => parse,
        (Some(fault), Behind::Stop(scan)) if fault.place < scan.place => Some(fault),
        (_, Behind::Stop(scan)) => Some(scan),
    }
}

/// Prints the fault of a document as a line. The only error is out of memory.
pub fn print_fault<A: Allocator>(page: &mut Page<A>, fault: FaultMessage) -> Result<(), AllocError>
    ensures { OnOk result (page.new ≡ page.old ++ document_fault_line fault.place fault.text.now) }
{
    page.text("!DOC ")?;
    page.place(fault.place)?;
    page.text(" ")?;
    print_quoted(page, fault.text)?;
    page.text("\n")
}
