//! The findings of rules.

use std::alloc::{AllocError, Allocator};
use std::marker::Model;

/// A rule, named as in yamllint's documentation. `Syntax` is the rule of the fault of a text.
#[derive(Clone, Copy, Debug, PartialEq, Eq)]
pub enum RuleId {
    Anchors,
    Braces,
    Brackets,
    Colons,
    Commas,
    Comments,
    DocumentStart,
    EmptyLines,
    Hyphens,
    Indentation,
    KeyDuplicates,
    KeyOrdering,
    LineLength,
    NewLineAtEndOfFile,
    NewLines,
    QuotedStrings,
    Syntax,
    TrailingSpaces,
    Truthy,
}

impl RuleId {
    ghost use Rattle.std.specs.Prelude.{◌≡◌};
    ghost use Rattle.yl_text.specs.Finding.{rule_name};

    /// Returns the name of the rule, as configurations and printed lines have it.
    pub fn name(self) -> &'static str
        ensures { result.now ≡ rule_name self }
    {
        match self {
            RuleId::Anchors => "anchors",
            RuleId::Braces => "braces",
            RuleId::Brackets => "brackets",
            RuleId::Colons => "colons",
            RuleId::Commas => "commas",
            RuleId::Comments => "comments",
            RuleId::DocumentStart => "document-start",
            RuleId::EmptyLines => "empty-lines",
            RuleId::Hyphens => "hyphens",
            RuleId::Indentation => "indentation",
            RuleId::KeyDuplicates => "key-duplicates",
            RuleId::KeyOrdering => "key-ordering",
            RuleId::LineLength => "line-length",
            RuleId::NewLineAtEndOfFile => "new-line-at-end-of-file",
            RuleId::NewLines => "new-lines",
            RuleId::QuotedStrings => "quoted-strings",
            RuleId::Syntax => "syntax",
            RuleId::TrailingSpaces => "trailing-spaces",
            RuleId::Truthy => "truthy",
        }
    }
}

/// The message of a finding: a fixed text, or a text with a number or a name in it.
#[derive(Drop)]
enum Message<A: Allocator> {
    Fixed(&'static str),
    Owned(String<A>),
}

impl<A: Allocator> Message<A> {
    ghost use Rattle.std.specs.Prelude.{◌≡◌, IfOk};
    ghost use Rattle.yl_text.specs.Message.{message_text};

    fn as_str(&self) -> &str
        ensures { result.now ≡ message_text self.now }
    {
        match self {
            Message::Fixed(text) => text,
            Message::Owned(text) => text.as_str(),
        }
    }

    fn copy(&self, alloc: A) -> Result<Message<A>, AllocError>
        ensures { IfOk result (λ m. message_text m ≡ message_text self.now) }
    {
        match self {
            Message::Fixed(text) => Ok(Message::Fixed(text)),
            Message::Owned(text) => Ok(Message::Owned(String::from_str(alloc, text.as_str())?)),
        }
    }
}

/// A finding of a rule: a problem that has no level yet. Its line and its column count from 1, and
/// the column counts characters.
#[derive(Drop)]
pub struct Finding<A: Allocator> {
    line: u64,
    column: u64,
    rule: RuleId,
    message: Message<A>,
}

impl<A: Allocator> Model for Finding<A> {
    ghost use Rattle.yl_text.specs.Finding.{FindingValue};
    ghost use Rattle.yl_text.specs.Message.{message_text};

    ghost Value = { FindingValue };

    ghost view = { λ f. record { line = f.line; column = f.column; rule = f.rule; message = message_text f.message } };
}

impl<A: Allocator> Finding<A> {
    ghost use Rattle.std.specs.Prelude.{◌≡◌, string_bytes, IfOk};

    /// Creates a finding with this message. The line and the column count from 1, and the column
    /// counts characters.
    pub fn new(line: u64, column: u64, rule: RuleId, message: String<A>) -> Finding<A>
        ensures { result ≡ record { line = line; column = column; rule = rule; message = string_bytes message } }
    {
        Finding {
            line,
            column,
            rule,
            message: Message::Owned(message),
        }
    }

    /// Creates a finding with a fixed message. The line and the column count from 1, and the column
    /// counts characters. Does not allocate.
    pub fn fixed(line: u64, column: u64, rule: RuleId, message: &'static str) -> Finding<A>
        ensures { result ≡ record { line = line; column = column; rule = rule; message = message.now } }
    {
        Finding {
            line,
            column,
            rule,
            message: Message::Fixed(message),
        }
    }

    /// Returns the line, counted from 1.
    pub fn line(&self) -> u64
        ensures { result ≡ self.now.line }
    {
        self.line
    }

    /// Returns the column, in characters, counted from 1.
    pub fn column(&self) -> u64
        ensures { result ≡ self.now.column }
    {
        self.column
    }

    /// Returns the rule.
    pub fn rule(&self) -> RuleId
        ensures { result ≡ self.now.rule }
    {
        self.rule
    }

    /// Returns the message.
    pub fn message(&self) -> &str
        ensures { result.now ≡ self.now.message }
    {
        self.message.as_str()
    }

    /// Sets the line, counted from 1. Does not allocate.
    pub fn set_line(&mut self, line: u64)
        ensures { self.new ≡ record { line = line; column = self.old.column; rule = self.old.rule; message = self.old.message } }
    {
        self.line = line;
    }

    /// Returns a copy of the finding at another line, counted from 1. Does not allocate if the
    /// message is fixed. The only error is out of memory.
    pub fn copy_at(&self, alloc: A, line: u64) -> Result<Finding<A>, AllocError>
        ensures { IfOk result (λ f. f ≡ record { line = line; column = self.now.column; rule = self.now.rule; message = self.now.message }) }
    {
        Ok(Finding {
            line,
            column: self.column,
            rule: self.rule,
            message: self.message.copy(alloc)?,
        })
    }
}
