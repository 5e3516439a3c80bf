//! A text that is edited by commands, each handled before the next one is read.
ghost use Rattle.std.specs.Prelude.{◌≡◌, ℕ, List, ◌-◌, ◌^◌, ◌<◌, ◌≤◌, ◌++◌, codes, decimal, length, IfOk, IfErr, OnOk, OnErr, Option};
ghost use Rattle.std.specs.List.{flat_map};
ghost use Rattle.std.specs.Io.KnownBytes.{Appends, IsAtEnd};
ghost use Rattle.std.specs.Bool.{then_some};
ghost use Rattle.yl_text.specs.declared.TheConstants.{MAX_BYTES};
ghost use Rattle.yl_text.specs.declared.fault.TextFault.{TextFault};
ghost use Rattle.yl_text.specs.Fault.{IsText};
ghost use Rattle.yl_text.specs.Watched.{device_of, failures_of};
ghost use Rattle.yl_config.specs.declared.config.Config.{Config};
ghost use Rattle.yl_devices.specs.Written.{AppendsFront};
ghost use Rattle.yl_lint.specs.Computed.{report};
ghost use Rattle.yl_session.specs.State.{Shows};
ghost use Rattle.yl_devices.specs.Text.{without_mark};
ghost use Rattle.yl_cli.specs.Drive.{IsDriveFault, IsDriven, ok_line, refusal_name, shown_lines};
ghost use Rattle.yl_cli.specs.Reading.{IsReply, IsReplyBegun};

use crate::stream::next_edit;
use itoa::Buffer;
use std::io::{Read, Write};
use yl_config::Config;
use yl_devices::{Ahead, RunFault, WriteFault, text_of, write_parts};
use yl_lint::one_report;
use yl_programs::Flags;
use yl_report::write_report;
use yl_session::{Edit, Session, Work};
use yl_text::{LineStore, TextFault, Watched};

fn refusal_name(fault: TextFault) -> &'static str
    ensures { result.now ≡ refusal_name fault }
{
    match fault {
        TextFault::NotUtf8 { valid_up_to: _ } => "NotUtf8",
        TextFault::Range => "Range",
        TextFault::TooLarge => "TooLarge",
        TextFault::Memory => "Memory",
    }
}

// Returns the pieces of the line after a report.
fn ok_parts<'a>(status: &'a str, space: &'a str, scanned: &'a str) -> [&'a [u8]; 5]
    ensures { flat_map (λ part. part.now) result ≡ codes "-- ok " ++ status.now ++ (space.now ++ scanned.now) ++ codes "\n" }
{
    // Each of these is borrowed for `'a`, since all pieces of an array have one type.
    let opening: &'a [u8] = b"-- ok ";
    let end: &'a [u8] = b"\n";
    [
        opening,
        status.as_bytes(),
        space.as_bytes(),
        scanned.as_bytes(),
        end,
    ]
}

// Writes the line after a report.
fn write_ok<W: Write>(
    status: u8,
    scanned: Option<u32>,
    out: &mut Watched<W>,
) -> Result<(), WriteFault>
    requires { failures_of out.old < 2 ^ 64 - 1 }
    ensures ok { OnOk result (Appends (W.contents (device_of out.old)) (W.contents (device_of out.new)) (ok_line status scanned)) }
    ensures quiet { OnOk result (failures_of out.new ≡ failures_of out.old) }
    ensures err { OnErr result (AppendsFront (W.contents (device_of out.old)) (W.contents (device_of out.new)) (ok_line status scanned)) }
    ensures failed { OnErr result (failures_of out.old < failures_of out.new) }
{
    let mut digits = Buffer::new();
    let status = digits.format(status);
    match scanned {
        None => write_parts(out, &ok_parts(status, "", "")),
        Some(scanned) => {
            let mut more = Buffer::new();
            write_parts(out, &ok_parts(status, " ", more.format(scanned)))
        }
    }
}

fn refused_parts<'a>(name: &'a str) -> [&'a [u8]; 3]
    ensures { flat_map (λ part. part.now) result ≡ codes "-- refused " ++ name.now ++ codes "\n" }
{
    let opening: &'a [u8] = b"-- refused ";
    let end: &'a [u8] = b"\n";
    [opening, name.as_bytes(), end]
}

// Writes the line of an edit that failed.
fn write_refused<W: Write>(fault: TextFault, out: &mut Watched<W>) -> Result<(), WriteFault>
    requires { failures_of out.old < 2 ^ 64 - 1 }
    ensures ok { OnOk result (Appends (W.contents (device_of out.old)) (W.contents (device_of out.new)) (codes "-- refused " ++ refusal_name fault ++ codes "\n")) }
    ensures quiet { OnOk result (failures_of out.new ≡ failures_of out.old) }
    ensures err { OnErr result (AppendsFront (W.contents (device_of out.old)) (W.contents (device_of out.new)) (codes "-- refused " ++ refusal_name fault ++ codes "\n")) }
    ensures failed { OnErr result (failures_of out.old < failures_of out.new) }
{
    write_parts(out, &refused_parts(refusal_name(fault)))
}

// Writes the report of a session and the line after it.
fn show<S: LineStore, W: Write>(
    name: &str,
    flags: Flags,
    session: &Session<S>,
    scanned: Option<u32>,
    out: &mut Watched<W>,
) -> Result<(), WriteFault>
    requires { failures_of out.old < 2 ^ 64 - 1 }
    ensures ok { OnOk result (Appends (W.contents (device_of out.old)) (W.contents (device_of out.new))
        (shown_lines (report session.now.config) name.now flags session.now.rows scanned)) }
    ensures quiet { OnOk result (failures_of out.new ≡ failures_of out.old) }
    ensures err { OnErr result (AppendsFront (W.contents (device_of out.old)) (W.contents (device_of out.new))
        (shown_lines (report session.now.config) name.now flags session.now.rows scanned)) }
    ensures failed { OnErr result (failures_of out.old < failures_of out.new) }
{
    one_report();
    write_report(name, session.problems(), flags.no_warnings, out)?;
    write_ok(session.status(flags.strict), scanned, out)
}

fn opened<S: LineStore>(alloc: S::Alloc, config: Config, text: &str) -> Result<Session<S>, RunFault>
    ensures shown { IfOk result (λ session. Shows config text.now session) }
    ensures err { IfErr result (λ fault. fault ≡ RunFault.Memory) }
{
    match Session::open(alloc, config, text.as_bytes()) {
        Ok(session) => Ok(session),
        Err(_) => Err(RunFault::Memory),
    }
}

// Returns the number of rows that an edit scanned, if the flags ask for it.
fn scanned_shown(flags: Flags, work: Work) -> Option<u32>
    ensures { result ≡ then_some flags.work work.scanned }
{
    if flags.work { Some(work.scanned) } else { None }
}

// Applies an edit and writes the report and the line after it, or the line of the failed edit.
fn answer<S: LineStore, W: Write>(
    name: &str,
    flags: Flags,
    session: &mut Session<S>,
    edit: &Edit<S::Alloc>,
    out: &mut Watched<W>,
) -> Result<(), WriteFault>
    requires { failures_of out.old < 2 ^ 64 - 1 }
    ensures ok { OnOk result ((c : Config) (text : List ℕ) → Shows c text session.old
        → IsReply c name.now flags text edit.now session.new (W.contents (device_of out.old)) (W.contents (device_of out.new))) }
    ensures quiet { OnOk result (failures_of out.new ≡ failures_of out.old) }
    ensures err { OnErr result ((c : Config) (text : List ℕ) → Shows c text session.old
        → IsReplyBegun c name.now flags text edit.now (W.contents (device_of out.old)) (W.contents (device_of out.new))) }
    ensures failed { OnErr result (failures_of out.old < failures_of out.new) }
{
    match session.edit(edit.from, edit.to, edit.bytes.as_slice()) {
        Ok(work) => show(name, flags, session, scanned_shown(flags, work), out),
        Err(fault) => write_refused(fault, out),
    }
}

/// Writes the report of a text, then reads commands and handles each before the next one. A command
/// is `replace LINE COLUMN LINE COLUMN BYTES`, a line feed and that many bytes, which replace the
/// range from the first position to the second. Lines and columns count from 0. Returns the status
/// of the text that the accepted edits leave. Ignores one leading byte-order mark of `text`.
///
/// Returns `Text` if `text` is not a text. This is checked first, and then nothing is read or
/// written. Returns `Write` if the writer failed. Returns `Read` if the reader failed. Then each
/// complete command that was read before is handled. Returns `Command` if no valid command is next
/// or 2^64 - 1 commands were handled, and `Memory` if memory runs out.
pub fn drive<S: LineStore, R: Read, W: Write>(
    alloc: S::Alloc,
    name: &str,
    config: Config,
    flags: Flags,
    text: &[u8],
    input: &mut Watched<R>,
    out: &mut Watched<W>,
) -> Result<u8, RunFault>
    requires reader { failures_of input.old < 2 ^ 64 - 1 }
    requires writer { failures_of out.old < 2 ^ 64 - 1 }
    ensures done { IfOk result (λ status. IsDriven config name.now flags (without_mark text.now) (record {
      given = R.remaining (device_of input.old);
      left = R.remaining (device_of input.new);
      before = W.contents (device_of out.old);
      now = W.contents (device_of out.new);
    }) status) }
    ensures is_text { OnOk result (IsText (without_mark text.now)) }
    ensures end { OnOk result (IsAtEnd (R.remaining (device_of input.new))) }
    ensures reader_quiet { OnOk result (failures_of input.new ≡ failures_of input.old) }
    ensures writer_quiet { OnOk result (failures_of out.new ≡ failures_of out.old) }
    ensures fault { IfErr result (IsDriveFault config name.now flags text.now (record {
      reads_before = failures_of input.old;
      reads_after = failures_of input.new;
      writes_before = failures_of out.old;
      writes_after = failures_of out.new;
    })
        (record {
          given = R.remaining (device_of input.old);
          left = R.remaining (device_of input.new);
          before = W.contents (device_of out.old);
          now = W.contents (device_of out.new);
        })) }
{
    one_report();
    let text = match text_of(text) {
        Ok(text) => text,
        Err(fault) => return Err(RunFault::Text(fault)),
    };
    let mut session: Session<S> = match opened(alloc, config, text) {
        Ok(session) => session,
        Err(fault) => return Err(fault),
    };
    if show(name, flags, &session, None, out).is_err() {
        return Err(RunFault::Write);
    }
    let mut ahead = Ahead::new();
    for _ in 0..u64::MAX {
        let edit = match next_edit(alloc, &mut ahead, input) {
            Ok(Some(edit)) => edit,
            Ok(None) => return Ok(session.status(flags.strict)),
            Err(fault) => return Err(fault),
        };
        if answer(name, flags, &mut session, &edit, out).is_err() {
            return Err(RunFault::Write);
        }
    }
    Err(RunFault::Command)
}
