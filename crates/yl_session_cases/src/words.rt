//! Reads cases.
use crate::edits::{BoundedEdit, EditRange, Request};
use test_cases::first_word;
use yl_text::Pos;

/// A case, unless it is about the start of the next text.
pub enum Instruction<'a> {
    /// The configuration of the next cases.
    Config(&'a str),
    /// The minimum number of allocations of the next request.
    Growths(u64),
    /// The maximum number of allocations of the next request.
    Most(u64),
    /// The next edit must derive the events of exactly as many documents as it may.
    Exactly,
    /// A request, with the bytes after it.
    Request(Request, &'a str),
}

// Reads two numbers, and returns the text after them. `-` is the largest number.
fn pair(text: &str) -> Option<(u32, u32, &str)> {
    let (one, text) = first_word(text);
    let (two, text) = first_word(text);
    let most = u32::MAX;
    let one = if one == "-" { most } else { one.parse().ok()? };
    let two = if two == "-" { most } else { two.parse().ok()? };
    Some((one, two, text))
}

// Reads the limits and the bytes of an edit of a range.
fn edit(range: EditRange, rest: &str) -> Option<Instruction<'_>> {
    let (scanned, documents, text) = pair(rest)?;
    let bounded = BoundedEdit {
        range,
        scanned,
        documents,
    };
    Some(Instruction::Request(Request::Edit(bounded), text))
}

// Reads an edit of lines.
fn edit_lines(rest: &str) -> Option<Instruction<'_>> {
    let (a, b, rest) = pair(rest)?;
    edit(EditRange::Lines(a, b), rest)
}

// Reads an edit between two positions.
fn put(rest: &str) -> Option<Instruction<'_>> {
    let (line, col, rest) = pair(rest)?;
    let from = Pos { line, col };
    let (line, col, rest) = pair(rest)?;
    edit(EditRange::Places(from, Pos { line, col }), rest)
}

// Reads a case about the limits of the next request.
fn limit(word: &str, rest: &str) -> Option<Instruction<'static>> {
    match word {
        "growths" => Some(Instruction::Growths(rest.parse().ok()?)),
        "most" => Some(Instruction::Most(rest.parse().ok()?)),
        "exactly" => Some(Instruction::Exactly),
        _ => None,
    }
}

/// Reads a case from its first word and the rest of it. Returns `None` if it is none of these cases.
pub fn instruction_of<'a>(word: &str, rest: &'a str) -> Option<Instruction<'a>> {
    match word {
        "config" => Some(Instruction::Config(rest)),
        "open" => Some(Instruction::Request(Request::Report, rest)),
        "edit" => edit_lines(rest),
        "put" => put(rest),
        "replay" => Some(Instruction::Request(Request::List, rest)),
        _ => limit(word, rest),
    }
}
