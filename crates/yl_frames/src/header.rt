//! The header of a message.
ghost use Rattle.std.specs.Prelude.{◌≡◌, ◌-◌, ◌^◌, ◌<◌, None, IfOk, IfErr, IfSome, OnOk, MatchOption};
ghost use Rattle.std.specs.Io.KnownBytes.{prepend_known};
ghost use Rattle.yl_text.specs.Watched.{device_of, failures_of};
ghost use Rattle.yl_frames.specs.Frames.{first_line, header_of};
ghost use Rattle.yl_frames.specs.Reading.{TakesHeader, TakesLine};

use crate::field::{HeaderLine, line_of};
use arrayvec::ArrayVec;
use std::io::Read;
use yl_devices::{Ahead, RunFault};
use yl_text::Watched;

// A line of a header: a field of at most 256 bytes, and a CR.
type Line = ArrayVec<u8, 257>;

// The most lines of a header, with the empty one.
const MOST_LINES: u32 = 65;

// Reads a line without its line feed. `None` where none begins.
fn read_line<R: Read>(ahead: &mut Ahead, input: &mut Watched<R>) -> Result<Option<Line>, RunFault>
    requires { failures_of input.old < 2 ^ 64 - 1 }
    ensures line { IfOk result (λ found. MatchOption found
        (IfSome (prepend_known ahead.old (R.remaining (device_of input.old))) (λ all. first_line 257 all ≡ None))
        (λ line. TakesLine (prepend_known ahead.old (R.remaining (device_of input.old)))
        (prepend_known ahead.new (R.remaining (device_of input.new))) line.items)) }
    ensures quiet { OnOk result (failures_of input.new ≡ failures_of input.old) }
    ensures fault { IfErr result (λ fault. (fault ≡ RunFault.Read) × (failures_of input.old < failures_of input.new)) }
{
    let mut line = Line::new();
    for _ in 0..258u32 {
        match ahead.next_byte(input)? {
            None => return Ok(None),
            Some(b'\n') => return Ok(Some(line)),
            Some(byte) => {
                if line.try_push(byte).is_err() {
                    return Ok(None);
                }
            }
        }
    }
    Ok(None)
}

/// Reads a header, and returns the length that it says. `None` where none begins.
pub(crate) fn read_header<R: Read>(
    ahead: &mut Ahead,
    input: &mut Watched<R>,
) -> Result<Option<u64>, RunFault>
    requires { failures_of input.old < 2 ^ 64 - 1 }
    ensures header { IfOk result (λ found. MatchOption found
        (IfSome (prepend_known ahead.old (R.remaining (device_of input.old))) (λ all. header_of all ≡ None))
        (λ n. TakesHeader (prepend_known ahead.old (R.remaining (device_of input.old)))
        (prepend_known ahead.new (R.remaining (device_of input.new))) n)) }
    ensures quiet { OnOk result (failures_of input.new ≡ failures_of input.old) }
    ensures fault { IfErr result (λ fault. (fault ≡ RunFault.Read) × (failures_of input.old < failures_of input.new)) }
{
    let mut length = None;
    for _ in 0..MOST_LINES {
        let line = match read_line(ahead, input)? {
            Some(line) => line,
            None => return Ok(None),
        };
        match line_of(line.as_slice()) {
            HeaderLine::Empty => return Ok(length),
            HeaderLine::Bad => return Ok(None),
            HeaderLine::Other => continue,
            HeaderLine::Length(n) => {
                if length.is_some() {
                    return Ok(None);
                }
                length = Some(n);
            }
        }
    }
    Ok(None)
}
