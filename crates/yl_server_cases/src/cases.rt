//! Follows cases, one after another.
use crate::devices::{GOOD, Input};
use crate::runs::{Ran, run as run_server};
use crate::telling::{tell, tell_numbers};
use crate::trials::{Trial, failure, refused};
use std::alloc::{AllocError, Global};
use test_cases::{Cases, NextText, first_word, push_unescaped, say};
use yl_devices::RunFault;

/// What is kept between cases: the words for messages and their texts, the start of the next text,
/// the bytes that the server reads, and the lengths of the messages in them.
#[derive(Drop)]
pub struct Kept {
    forms: Vec<(String, String)>,
    next: NextText,
    bytes: Vec<u8>,
    lengths: Vec<usize>,
}

// Returns the bytes of a form. The rest of the case replaces the last `$`, and one of its first
// words replaces each of the others.
fn filled(alloc: Global, form: &str, front: &[u8], case: &str) -> Result<Vec<u8>, AllocError> {
    let mut bytes = Vec::new(alloc);
    let mut rest = case;
    let mut left = form.split('$').count();
    for piece in form.split('$') {
        bytes.extend_from_slice(piece.as_bytes())?;
        left = left.saturating_sub(1);
        if left > 1 {
            let (word, behind) = first_word(rest);
            push_unescaped(&mut bytes, word)?;
            rest = behind;
        } else if left == 1 {
            bytes.extend_from_slice(front)?;
            push_unescaped(&mut bytes, rest)?;
        }
    }
    Ok(bytes)
}

// Returns the form of a word, if it has one.
fn form_of<'a>(kept: &'a Kept, word: &str) -> Option<&'a str> {
    let (_, form) = kept.forms.iter().find(|form| form.0.as_str() == word)?;
    Some(form.as_str())
}

// Keeps the form of a word.
fn define(alloc: Global, kept: &mut Kept, word: &str, form: &str) -> Result<(), AllocError> {
    let word = String::from_str(alloc, word)?;
    let form = String::from_str(alloc, form)?;
    kept.forms.push((word, form))?;
    Ok(())
}

// Appends the header of a message and these bytes to the input.
fn push_bytes(kept: &mut Kept, header: &[u8], bytes: &[u8]) -> Result<(), AllocError> {
    kept.bytes.extend_from_slice(header)?;
    kept.bytes.extend_from_slice(bytes)?;
    kept.lengths.push(header.len().saturating_add(bytes.len()))?;
    Ok(())
}

// Appends the bytes or the message of a case to the input.
fn give(rt: &HostRuntime, kept: &mut Kept, word: &str, rest: &str) -> Result<(), RunFault> {
    let alloc = rt.alloc();
    let front = kept.next.end("")?;
    if word == "bytes" {
        let bytes = filled(alloc, "$", front.as_slice(), rest)?;
        push_bytes(kept, b"", bytes.as_slice())?;
    } else if let Some(form) = form_of(kept, word) {
        let body = filled(alloc, form, front.as_slice(), rest)?;
        let header = format!(in alloc; "Content-Length: {}\r\n\r\n", body.len())?;
        push_bytes(kept, header.as_str().as_bytes(), body.as_slice())?;
    } else {
        say(rt, "is no case")?;
    }
    Ok(())
}

// Runs the server with failing devices and refused allocations, and prints whether an answer is
// wrong.
fn try_again(rt: &HostRuntime, input: Input<'_>, whole: &Ran) -> Result<(), RunFault> {
    let trial = Trial { input, whole };
    tell_numbers(rt, "out", whole.noted.as_slice())?;
    match refused(&trial)? {
        Some(sums) => tell_numbers(rt, "refused", sums.as_slice())?,
        None => say(rt, "is answered otherwise where memory is refused")?,
    }
    match failure(&trial) {
        Some(what) => say(rt, what),
        None => Ok(()),
    }
}

// Runs the server on the input, and prints the result.
fn serve(rt: &HostRuntime, kept: &mut Kept, is_tried: bool) -> Result<(), RunFault> {
    let alloc = rt.alloc();
    let input = Input {
        alloc,
        bytes: kept.bytes.as_slice(),
        lengths: kept.lengths.as_slice(),
    };
    let whole = run_server(alloc, input, GOOD);
    tell(rt, &whole)?;
    if is_tried {
        try_again(rt, input, &whole)?;
    }
    kept.bytes.clear();
    kept.lengths.clear();
    Ok(())
}

impl Kept {
    /// The server has read nothing yet, and no form is defined.
    pub fn new(alloc: Global) -> Kept {
        Kept {
            forms: Vec::new(alloc),
            next: NextText::new(alloc),
            bytes: Vec::new(alloc),
            lengths: Vec::new(alloc),
        }
    }
}

impl Cases for Kept {
    fn follow(&mut self, rt: &HostRuntime, case: &str) -> Result<(), RunFault> {
        let (word, rest) = first_word(case);
        if self.next.extend(word, rest)? {
            return Ok(());
        }
        match word {
            "form" => {
                let (word, form) = first_word(rest);
                Ok(define(rt.alloc(), self, word, form)?)
            }
            "serve" => serve(rt, self, false),
            "try" => serve(rt, self, true),
            _ => give(rt, self, word, rest),
        }
    }
}
