//! Prints the documents of a text, one after another.
ghost use Rattle.std.specs.Prelude.{◌≡◌, ◌++◌, [], length, IfErr, OnOk};
ghost use Rattle.std.specs.Io.KnownBytes.{Appends};
ghost use Rattle.yl_dump.specs.declared.fault.DumpFault.TheVariants.{Write as WriteRefused};

use crate::document_fault::{Behind, DocumentFault, print_fault, text_fault};
use crate::event::print_events;
use crate::fault::{DumpFault, TextPlace};
use crate::group::Group;
use crate::page::Page;
use std::alloc::{AllocError, Allocator};
use std::io::Write;
use yl_events::{Outline, Parser, Token, begins_document};
use yl_lexeme::{Kind, Lexeme, Meter};

/// A printer of the documents of a text. It takes the lexemes of the text, and prints the events of
/// each document or its fault. Of the current document, the events of all lines before the last one
/// are printed, but not yet written.
#[derive(Drop)]
pub struct Documents<A: Allocator + Copy, W: Write> {
    out: W,
    page: Page<A>,
    // The number of bytes of the page before the document.
    before: usize,
    // The kind of the document's last lexeme, or `None` if no document has begun.
    last: Option<Kind>,
    group: Group<A>,
    parser: Parser<A>,
    fault: Option<DocumentFault>,
    // The buffers for the tokens and the events of a line.
    tokens: Vec<Token, A>,
    outlines: Vec<Outline, A>,
}

impl<A: Allocator + Copy, W: Write> Documents<A, W> {
    /// Creates a printer that writes to `out`.
    pub fn new(alloc: A, out: W) -> Documents<A, W> {
        Documents {
            out,
            page: Page::new(alloc),
            before: 0,
            last: None,
            group: Group::new(alloc),
            parser: Parser::new(alloc),
            fault: None,
            tokens: Vec::new(alloc),
            outlines: Vec::new(alloc),
        }
    }

    /// Prints a line that belongs to no document. The only error is out of memory.
    pub fn print_line(&mut self, line: &str) -> Result<(), AllocError>
        ensures { OnOk result (self.new ≡ record self.old { page = self.old.page ++ line.now; before = length (self.old.page ++ line.now) }) }
    {
        self.page.text(line)?;
        self.before = self.page.len();
        Ok(())
    }

    /// Takes the next lexeme of the text. It starts at line `line`, counted from 0.
    pub fn take(&mut self, line: u32, lexeme: Lexeme<A>) -> Result<(), DumpFault> {
        self.enter(line, &lexeme)?;
        self.last = Some(lexeme.kind());
        if self.fault.is_none() {
            self.group.push(line, lexeme)?;
        }
        Ok(())
    }

    /// Takes the lexemes of a row out of their list. They start at line `line`, counted from 0. No
    /// document may start with a lexeme after the first of them.
    pub fn take_row(
        &mut self,
        line: u32,
        lexemes: &mut Vec<Lexeme<A>, A>,
    ) -> Result<(), DumpFault> {
        let (Some(first), Some(last)) = (lexemes.first(), lexemes.last()) else {
            return Ok(());
        };
        let last = last.kind();
        self.enter(line, first)?;
        self.last = Some(last);
        if self.fault.is_none() {
            self.group.append(line, lexemes)?;
        }
        Ok(())
    }

    // Prepares for a lexeme that starts at line `line`. If a document starts with the lexeme, ends
    // the document before it and begins the new one. Otherwise parses the lexemes before it, unless
    // they start at the same line.
    fn enter(&mut self, line: u32, lexeme: &Lexeme<A>) -> Result<(), DumpFault> {
        match self.last {
            None => self.begin()?,
            Some(last) if begins_document(last, lexeme.kind()) => {
                let column = u64::from(lexeme.start().col);
                let line = u64::from(line);
                self.end(Behind::End(TextPlace { line, column }))?;
                self.begin()?;
            }
            Some(_) if self.group.is_in(line) => {}
            Some(_) => self.parse_line()?,
        }
        Ok(())
    }

    /// Ends the document, if one has begun. Prints its fault in place of its events, if it has one.
    pub fn end(&mut self, behind: Behind) -> Result<(), DumpFault> {
        self.parse_line()?;
        if self.last.is_some() && self.fault.is_none() {
            self.finish()?;
        }
        if let Some(fault) = text_fault(self.fault, behind) {
            self.page.truncate(self.before);
            print_fault(&mut self.page, fault)?;
        }
        self.last = None;
        self.fault = None;
        self.page.write_large(&mut self.out)?;
        self.before = self.page.len();
        Ok(())
    }

    /// Writes the text that is printed.
    pub fn write(&mut self) -> Result<(), DumpFault>
        ensures written { OnOk result (Appends (W.contents self.old.out) (W.contents self.new.out) self.old.page) }
        ensures others { OnOk result (self.new ≡ record self.old { out = self.new.out; page = [] }) }
        ensures err { IfErr result (λ e. e ≡ WriteRefused) }
    {
        self.page.write_to(&mut self.out)
    }

    // Begins a document.
    fn begin(&mut self) -> Result<(), AllocError> {
        self.group.clear();
        self.outlines.clear();
        // The printed events are not measured, so each document has its own meter.
        self.parser.begin(&mut self.outlines, &mut Meter::new())?;
        print_events(&mut self.page, &self.group, &self.outlines)
    }

    // Parses the lexemes that start in the line, and prints their events.
    fn parse_line(&mut self) -> Result<(), AllocError> {
        if self.group.is_empty() {
            return Ok(());
        }
        self.group.fill_in(&mut self.tokens)?;
        self.outlines.clear();
        let fault = self.parser.feed(&self.tokens, &mut self.outlines)?;
        match fault {
            None => print_events(&mut self.page, &self.group, &self.outlines)?,
            Some(fault) => {
                self.fault = Some(DocumentFault {
                    kind: fault.kind,
                    place: self.group.place(fault.place),
                });
            }
        }
        self.group.pass(self.parser.count());
        Ok(())
    }

    // Parses the end of the document, and prints its last events.
    fn finish(&mut self) -> Result<(), AllocError> {
        self.outlines.clear();
        let fault = self.parser.finish(&mut self.outlines)?;
        match fault {
            None => print_events(&mut self.page, &self.group, &self.outlines),
            Some(fault) => {
                self.fault = Some(DocumentFault {
                    kind: fault.kind,
                    place: None,
                });
                Ok(())
            }
        }
    }
}
