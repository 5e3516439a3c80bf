//! Reads rows that hold only a comment, without decoding their characters.

ghost use Rattle.std.specs.Prelude.{◌≡◌, ◌≤◌, ◌<◌, ◌^◌, [], IfOk, IfSome, IsTrue, None, Some, ℕ, true, length};
ghost use Rattle.std.specs.List.{prefix_len};
ghost use Rattle.std.specs.Str.{chars};
ghost use Rattle.yl_row.specs.Entries.{LineStateValue};
ghost use Rattle.yl_text.specs.Character.{is_white, starts_by};
ghost use Rattle.yl_text.specs.Special.{special_place};
ghost use Rattle.yl_scan.specs.Alone.{HoldsAlone, PlainCommentAt, is_sign};
ghost use Rattle.yl_scan.specs.Step.{state_for, step_value};
ghost use Rattle.yl_scan.specs.declared.phase.Phase.TheVariants.{Between};

use crate::before::state_for;
use crate::phase::Phase;
use crate::state::LineState;
use crate::step::{Soundness, Step};
use std::alloc::{AllocError, Allocator};
use yl_lexeme::Comment;
use yl_text::first_special;

/// Returns the number of bytes of white space at the front of the row.
fn white_len(bytes: &[u8]) -> usize
    ensures count { result ≡ prefix_len is_white bytes.now }
    ensures within { result ≤ length bytes.now }
{
    bytes
        .iter()
        .take_while(|byte| **byte == b' ' || **byte == b'\t')
        .count()
}

/// Returns whether the text begins with `#`.
fn begins_comment(bytes: &[u8]) -> bool
    ensures { result ≡ starts_by is_sign bytes.now }
{
    match bytes {
        [] => false,
        [byte, ..] => *byte == b'#',
    }
}

/// Returns whether the text is a comment of printable ASCII.
fn is_plain_comment(bytes: &[u8]) -> bool
    ensures sign { IsTrue result → starts_by is_sign bytes.now ≡ true }
    ensures printable { IsTrue result → special_place bytes.now ≡ length bytes.now }
{
    begins_comment(bytes) && first_special(bytes) == bytes.len()
}

/// Returns the byte offset of the comment of a row, if the comment is printable ASCII and only
/// white space is before it.
fn comment_place(bytes: &[u8]) -> Option<usize>
    ensures { IfSome result (λ at. PlainCommentAt bytes.now at) }
{
    let at = white_len(bytes);
    if is_plain_comment(&bytes[at..]) {
        return Some(at);
    }
    None
}

/// Returns the comment of a row, if the comment is printable ASCII and only white space is before
/// it. Reads the bytes of the row and not its characters. The only error is out of memory.
fn lone_comment<A: Allocator + Copy>(alloc: A, text: &str) -> Result<Option<Comment<A>>, AllocError>
    requires { length (chars text.now) < 2 ^ 31 }
    ensures { IfOk result (λ found. IfSome found (λ comment. HoldsAlone (chars text.now) comment)) }
{
    match comment_place(text.as_bytes()) {
        None => Ok(None),
        Some(at) => {
            let comment = String::from_str(alloc, &text[at..])?;
            Ok(Some(Comment::new(at as u32, comment)))
        }
    }
}

/// Returns the comment of a row, if the scanner is between lexemes before it, the comment is
/// printable ASCII, and only white space is before it. `resting` is the phase before the row. The
/// only error is out of memory.
#[inline(always)]
pub fn comment_between<A: Allocator + Copy>(
    alloc: A,
    text: &str,
    resting: &Phase<A>,
) -> Result<Option<Comment<A>>, AllocError>
    requires { length (chars text.now) < 2 ^ 31 }
    ensures alone { IfOk result (λ found. IfSome found (λ comment. HoldsAlone (chars text.now) comment)) }
    ensures between { IfOk result (λ found. IfSome found (λ _. resting.now ≡ Between)) }
{
    match resting {
        Phase::Between => lone_comment(alloc, text),
        Phase::Within(..) | Phase::Halted(_) => Ok(None),
    }
}

/// Returns the step of a row that holds only this comment. `before` is the state of the row, if
/// states are wanted.
pub fn comment_row<A: Allocator + Copy>(
    alloc: A,
    before: Option<LineState<A>>,
    comment: Comment<A>,
) -> Step<A>
    ensures told { (line : ℕ) (s : LineStateValue) → step_value line s result ≡ record { above = None; lexemes = []; comment = Some comment; state = Some s; fault = None } }
    ensures state { result.state ≡ state_for before result.sound }
    ensures fresh { result.ended ≡ None }
    ensures whole { result.failed ≡ None }
{
    Step {
        ended: None,
        lexemes: Vec::new(alloc),
        comment: Some(comment),
        sound: Soundness::Sound,
        state: state_for(before, Soundness::Sound),
        failed: None,
    }
}
