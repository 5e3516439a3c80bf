//! What a reader gives, and the text that it is.
ghost use Rattle.std.specs.Prelude.{◌≡◌, ◌-◌, ◌^◌, ◌<◌, ◌≤◌, length, IfOk, IfErr, OnOk, MatchResult, vec_len, IsUtf8};
ghost use Rattle.std.specs.Io.KnownBytes.{Consumes, IsAtEnd};
ghost use Rattle.yl_text.specs.Watched.{device_of, failures_of};
ghost use Rattle.yl_text.specs.Fault.{IsText};
ghost use Rattle.yl_devices.specs.Text.{without_mark, IsBadText, IsReadFault, TakesAtMost};

use crate::fault::{BadText, RunFault};
use std::alloc::Allocator;
use std::io::Read;
use yl_text::{MAX_BYTES, Watched};

/// The most bytes that are read of a file: one more than a text and a byte-order mark have.
pub const MOST_READ: usize = 67_108_868;

const MARK: [u8; 3] = [0xEF, 0xBB, 0xBF];

/// Reads to the end, or until the bytes are too many for a text. `Read` where the reader failed,
/// else `Memory`.
pub fn read_text<A: Allocator + Copy, R: Read>(
    alloc: A,
    input: &mut Watched<R>,
) -> Result<Vec<u8, A>, RunFault>
    requires { failures_of input.old < 2 ^ 64 - 1 }
    ensures read { IfOk result (λ text. Consumes (R.remaining (device_of input.old)) (R.remaining (device_of input.new)) text.items) }
    ensures end { IfOk result (λ text. vec_len text < MOST_READ → IsAtEnd (R.remaining (device_of input.new))) }
    ensures most { TakesAtMost MOST_READ (R.remaining (device_of input.old)) (R.remaining (device_of input.new)) }
    ensures quiet { OnOk result (failures_of input.new ≡ failures_of input.old) }
    ensures fault { IfErr result (IsReadFault (failures_of input.old) (failures_of input.new)) }
{
    let mut text = Vec::new(alloc);
    let mut buffer = [0u8; 65_536];
    while text.len() < MOST_READ {
        let room = buffer.len().min(MOST_READ - text.len());
        match input.read(&mut buffer[..room]) {
            Ok(0) => return Ok(text),
            Ok(n) => text.extend_from_slice(&buffer[..n])?,
            Err(_) => return Err(RunFault::Read),
        }
    }
    Ok(text)
}

/// A file's bytes without one leading byte-order mark.
pub fn without_mark(bytes: &[u8]) -> &[u8]
    ensures { result.now ≡ without_mark bytes.now }
{
    if bytes.starts_with(&MARK) {
        &bytes[3..]
    } else {
        bytes
    }
}

/// The text of a file's bytes, without one leading byte-order mark. Too many bytes are looked for
/// first, then bytes that are no UTF-8.
pub fn text_of(bytes: &[u8]) -> Result<&str, BadText>
    ensures text { IfOk result (λ text. text.now ≡ without_mark bytes.now) }
    ensures size { IfOk result (λ text. length text.now ≤ MAX_BYTES) }
    ensures is_text { OnOk result (IsText (without_mark bytes.now)) }
    ensures fault { IfErr result (IsBadText (without_mark bytes.now)) }
{
    let rest = without_mark(bytes);
    if rest.len() > MAX_BYTES {
        return Err(BadText::TooLarge);
    }
    match simdutf8::compat::from_utf8(rest) {
        Ok(text) => Ok(text),
        Err(error) => Err(BadText::NotUtf8 {
            valid_up_to: error.valid_up_to(),
        }),
    }
}
