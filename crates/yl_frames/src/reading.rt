//! The messages that a reader gives.
ghost use Rattle.std.specs.Prelude.{◌≡◌, ◌-◌, ◌^◌, ◌<◌, ◌++◌, IfOk, IfErr, IfSome, IsSomeAnd, OnOk};
ghost use Rattle.std.specs.Io.KnownBytes.{prepend_known};
ghost use Rattle.yl_text.specs.Watched.{device_of, failures_of};
ghost use Rattle.yl_frames.specs.Found.{IsNext};
ghost use Rattle.yl_frames.specs.Reading.{IsBodyRead};

use crate::header::read_header;
use std::alloc::Allocator;
use std::io::Read;
use yl_devices::{Ahead, RunFault};
use yl_text::Watched;

/// What the next bytes of a reader are.
#[derive(Drop)]
pub enum NextBody<A: Allocator> {
    /// The body of a message.
    Body(Vec<u8, A>),
    /// The body of a message, for which an allocation failed. Its bytes were read and dropped.
    Dropped,
    /// The end of the input.
    End,
    /// No header, or the input ends inside a message.
    Bad,
}

// The bytes with a piece after them. `None` where an allocation failed, now or before.
fn extended<A: Allocator>(kept: Option<Vec<u8, A>>, piece: &[u8]) -> Option<Vec<u8, A>>
    ensures { IfSome result (λ new. IsSomeAnd kept (λ old. new.items ≡ old.items ++ piece.now)) }
{
    let mut bytes = kept?;
    match bytes.extend_from_slice(piece) {
        Ok(()) => Some(bytes),
        Err(_) => None,
    }
}

// Reads a body of so many bytes. The buffer grows as they come.
fn read_body<A: Allocator + Copy, R: Read>(
    alloc: A,
    ahead: &mut Ahead,
    input: &mut Watched<R>,
    size: usize,
) -> Result<NextBody<A>, RunFault>
    requires { failures_of input.old < 2 ^ 64 - 1 }
    ensures read { IfOk result (IsBodyRead (prepend_known ahead.old (R.remaining (device_of input.old)))
        (prepend_known ahead.new (R.remaining (device_of input.new))) size) }
    ensures quiet { OnOk result (failures_of input.new ≡ failures_of input.old) }
    ensures fault { IfErr result (λ fault. (fault ≡ RunFault.Read) × (failures_of input.old < failures_of input.new)) }
{
    let mut kept = Some(Vec::new(alloc));
    let mut taken = 0;
    while taken < size {
        if !ahead.more(input)? {
            return Ok(NextBody::Bad);
        }
        let count = ahead.as_slice().len().min(size - taken);
        kept = extended(kept, &ahead.as_slice()[..count]);
        ahead.skip(count);
        taken += count;
    }
    match kept {
        Some(bytes) => Ok(NextBody::Body(bytes)),
        None => Ok(NextBody::Dropped),
    }
}

/// Reads the next message and returns its body. A body for which an allocation fails is read over.
/// Memory grows only as its bytes come, whatever length the header says. `Read` where the reader
/// failed; no message can be found after that, nor after `Bad`.
pub fn next_body<A: Allocator + Copy, R: Read>(
    alloc: A,
    ahead: &mut Ahead,
    input: &mut Watched<R>,
) -> Result<NextBody<A>, RunFault>
    requires { failures_of input.old < 2 ^ 64 - 1 }
    ensures next { IfOk result (IsNext (prepend_known ahead.old (R.remaining (device_of input.old)))
        (prepend_known ahead.new (R.remaining (device_of input.new)))) }
    ensures quiet { OnOk result (failures_of input.new ≡ failures_of input.old) }
    ensures fault { IfErr result (λ fault. (fault ≡ RunFault.Read) × (failures_of input.old < failures_of input.new)) }
{
    if !ahead.more(input)? {
        return Ok(NextBody::End);
    }
    match read_header(ahead, input)? {
        Some(size) => read_body(alloc, ahead, input, size as usize),
        None => Ok(NextBody::Bad),
    }
}
