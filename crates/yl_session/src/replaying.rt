//! Applies a list of edits one after another.
ghost use Rattle.std.specs.Prelude.{◌≡◌, MatchResult, IfOk};
ghost use Rattle.yl_text.specs.Fault.{IsText, IsFaultOf};

use crate::session::Session;
use crate::work::Work;
use std::alloc::Allocator;
use std::marker::Model;
use yl_config::Config;
use yl_text::{LineStore, Pos, TextFault};

/// An edit that replaces the range between two positions by bytes.
#[derive(Drop)]
pub struct Edit<A: Allocator> {
    /// The start of the range.
    pub from: Pos,
    /// The end of the range.
    pub to: Pos,
    /// The bytes that replace the range.
    pub bytes: Vec<u8, A>,
}

impl<A: Allocator> Model for Edit<A> {
    ghost use Rattle.yl_session.specs.Runs.{EditValue};

    ghost Value = { EditValue };

    ghost view = { λ e. record { from = e.from; to = e.to; bytes = e.bytes.items } };
}

ghost use Rattle.yl_session.specs.Runs.{Replayed};

/// Opens a session over `bytes`, applies each edit in turn, and returns the session and the result
/// of each edit. Allocates the list of results before the first edit. An edit that returns an error
/// leaves the text unchanged for the next one. Returns an error if `Session::open` does, or
/// `Memory` if there is no memory for the list.
pub fn replay<S: LineStore>(
    alloc: S::Alloc,
    config: Config,
    bytes: &[u8],
    edits: &[Edit<S::Alloc>],
) -> Result<(Session<S>, Vec<Result<Work, TextFault>, S::Alloc>), TextFault>
    ensures text { MatchResult result (λ _. IsText bytes.now) (λ fault. IsFaultOf bytes.now fault) }
    ensures run { IfOk result (λ r. Replayed config bytes.now edits.now r.1.items r.0) }
{
    let mut session = Session::open(alloc, config, bytes)?;
    let Ok(mut answers) = Vec::with_capacity(alloc, edits.len()) else {
        return Err(TextFault::Memory);
    };
    for edit in edits {
        let answer = session.edit(edit.from, edit.to, edit.bytes.as_slice());
        answers.push_reserved(answer);
    }
    Ok((session, answers))
}
