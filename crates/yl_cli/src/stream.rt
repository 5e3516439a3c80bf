//! Reads the commands of a stream.
ghost use Rattle.std.specs.Prelude.{◌≡◌, ◌≢◌, ◌-◌, ◌^◌, ◌<◌, ◌≤◌, [], ◌∷◌, length, IfOk, IfErr, IfSome, IsErrOf, OnOk, MatchOption, MatchBool, vec_len, Err};
ghost use Rattle.std.specs.Io.KnownBytes.{Consumes, IsAtEnd, Keeps, prepend_known};
ghost use Rattle.yl_text.specs.Watched.{device_of, failures_of};
ghost use Rattle.yl_devices.specs.Text.{IsCommandFault};
ghost use Rattle.yl_cli.specs.Command.{Bad, next_command};
ghost use Rattle.yl_cli.specs.Drive.{IsCut};
ghost use Rattle.yl_cli.specs.Reading.{HasNoLine, IsLineCut, TakesCommand, TakesLine};

use crate::command::command_line;
use arrayvec::ArrayVec;
use std::alloc::Allocator;
use std::io::Read;
use yl_devices::{Ahead, RunFault};
use yl_session::Edit;
use yl_text::Watched;

// The line of a command, which has at most 62 bytes.
type Line = ArrayVec<u8, 62>;

// Reads a line without its line feed. Returns `false` at the end of the input.
fn read_line<R: Read>(
    ahead: &mut Ahead,
    input: &mut Watched<R>,
    line: &mut Line,
) -> Result<bool, RunFault>
    requires reader { failures_of input.old < 2 ^ 64 - 1 }
    requires empty { line.old.items ≡ [] }
    ensures line { IfOk result (λ some. MatchBool some
        (TakesLine (prepend_known ahead.old (R.remaining (device_of input.old)))
        (prepend_known ahead.new (R.remaining (device_of input.new))) line.new.items)
        (IsAtEnd (prepend_known ahead.old (R.remaining (device_of input.old))) × IsAtEnd (R.remaining (device_of input.new)))) }
    ensures command { IsErrOf result RunFault.Command → IfSome (prepend_known ahead.old (R.remaining (device_of input.old))) HasNoLine }
    ensures cut { IsErrOf result RunFault.Read → IsLineCut (prepend_known ahead.old (R.remaining (device_of input.old))) (R.remaining (device_of input.new)) }
    ensures quiet { OnOk result (failures_of input.new ≡ failures_of input.old) }
    ensures fault { IfErr result (IsCommandFault (failures_of input.old) (failures_of input.new)) }
{
    for i in 0..63u32 {
        match ahead.next_byte(input)? {
            None if i == 0 => return Ok(false),
            None => return Err(RunFault::Command),
            Some(b'\n') => return Ok(true),
            Some(byte) => {
                if line.try_push(byte).is_err() {
                    return Err(RunFault::Command);
                }
            }
        }
    }
    Err(RunFault::Command)
}

/// Reads the next command. Returns `None` at the end of the input. Returns `Command` if no valid
/// command is next, `Read` if the reader failed before it had given a complete command, and
/// `Memory` if memory runs out.
pub(crate) fn next_edit<A: Allocator + Copy, R: Read>(
    alloc: A,
    ahead: &mut Ahead,
    input: &mut Watched<R>,
) -> Result<Option<Edit<A>>, RunFault>
    requires { failures_of input.old < 2 ^ 64 - 1 }
    ensures some { IfOk result (λ found. IfSome found (λ e.
        TakesCommand (prepend_known ahead.old (R.remaining (device_of input.old)))
        (prepend_known ahead.new (R.remaining (device_of input.new))) e)) }
    ensures none { IfOk result (λ found. MatchOption found
        (IsAtEnd (prepend_known ahead.old (R.remaining (device_of input.old))) × IsAtEnd (R.remaining (device_of input.new)))
        (λ _. Unit {0})) }
    ensures command { IsErrOf result RunFault.Command → IfSome (prepend_known ahead.old (R.remaining (device_of input.old))) (λ all. next_command all ≡ Bad) }
    ensures cut { IsErrOf result RunFault.Read → IsCut (prepend_known ahead.old (R.remaining (device_of input.old))) (R.remaining (device_of input.new)) }
    ensures quiet { OnOk result (failures_of input.new ≡ failures_of input.old) }
    ensures fault { IfErr result (IsCommandFault (failures_of input.old) (failures_of input.new)) }
{
    let mut line = Line::new();
    if !read_line(ahead, input, &mut line)? {
        return Ok(None);
    }
    let Some(asked) = command_line(line.as_slice()) else {
        return Err(RunFault::Command);
    };
    let bytes = ahead.read_payload(alloc, input, asked.size as usize)?;
    Ok(Some(Edit {
        from: asked.from,
        to: asked.to,
        bytes,
    }))
}
