//! Prints the lines of lexemes, of comments and of the scan fault.
ghost use Rattle.std.specs.Prelude.{◌≡◌, ◌++◌, OnOk};
ghost use Rattle.yl_dump.specs.LexemeLine.{extent_line, lexeme_line, comment_line, scan_fault_line};

use crate::characters::character_count;
use crate::fault::{FaultMessage, TextPlace};
use crate::names::kind_name;
use crate::page::Page;
use crate::quoting::print_quoted;
use std::alloc::{AllocError, Allocator};
use yl_lexeme::{Comment, Lexeme};

// Prints two positions, a name and a text in quotes as a line.
fn print_line<A: Allocator>(
    page: &mut Page<A>,
    start: TextPlace,
    end: TextPlace,
    name: &str,
    text: &str,
) -> Result<(), AllocError>
    ensures { OnOk result (page.new ≡ page.old ++ extent_line start end name.now text.now) }
{
    page.place(start)?;
    page.byte(b'-')?;
    page.place(end)?;
    page.byte(b' ')?;
    page.text(name)?;
    page.byte(b' ')?;
    print_quoted(page, text)?;
    page.byte(b'\n')
}

/// Prints the line of a lexeme that starts at line `line`, counted from 0. The only error is out of
/// memory.
pub fn print_lexeme<A: Allocator>(
    page: &mut Page<A>,
    line: u32,
    lexeme: &Lexeme<A>,
) -> Result<(), AllocError>
    ensures { OnOk result (page.new ≡ page.old ++ lexeme_line line lexeme.now) }
{
    let start = TextPlace {
        line: u64::from(line),
        column: u64::from(lexeme.start().col),
    };
    let end = TextPlace {
        line: u64::from(line) + u64::from(lexeme.end().line),
        column: u64::from(lexeme.end().col),
    };
    print_line(page, start, end, kind_name(lexeme.kind()), lexeme.value())
}

/// Prints the line of a comment at line `line`, counted from 0. The only error is out of memory.
pub fn print_comment<A: Allocator>(
    page: &mut Page<A>,
    line: u32,
    comment: &Comment<A>,
) -> Result<(), AllocError>
    ensures { OnOk result (page.new ≡ page.old ++ comment_line line comment.now) }
{
    let line = u64::from(line);
    let text = comment.text();
    let column = u64::from(comment.col());
    let start = TextPlace { line, column };
    let end = TextPlace {
        line,
        column: column.saturating_add(character_count(text)),
    };
    print_line(page, start, end, "Comment", text)
}

/// Prints the line of a scan fault. The only error is out of memory.
pub fn print_fault<A: Allocator>(page: &mut Page<A>, fault: FaultMessage) -> Result<(), AllocError>
    ensures { OnOk result (page.new ≡ page.old ++ scan_fault_line fault.place fault.text.now) }
{
    page.place(fault.place)?;
    page.text(" fault ")?;
    print_quoted(page, fault.text)?;
    page.byte(b'\n')
}
