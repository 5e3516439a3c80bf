//! Runs a server over a reader and a writer.
ghost use Rattle.std.specs.Prelude.{◌≡◌, ◌-◌, ◌^◌, ◌<◌, IfOk, IfErr, OnOk};
ghost use Rattle.std.specs.Io.KnownBytes.{prepend_known};
ghost use Rattle.yl_text.specs.Watched.{device_of, failures_of};
ghost use Rattle.yl_frames.specs.Sending.{watched_of};
ghost use Rattle.yl_server.specs.Serving.{IsServed, IsServeFault};
ghost use Rattle.yl_server.specs.Steps.{sink};
ghost use Rattle.yl_server.specs.Turns.{IsTurn, IsTurnFault, fault_of};

use crate::server::Server;
use crate::settings::ConfigFiles;
use std::io::{Read, Write};
use yl_config::Config;
use yl_devices::Ahead;
use yl_frames::{NextBody, Output, SendFault, next_body};
use yl_text::{LineStore, Watched};
use yl_workspace::one_report;

/// The error of a run.
#[derive(Clone, Copy, Debug, PartialEq, Eq)]
pub enum ServeFault {
    /// The reader failed.
    Read,
    /// The reader gives no message next.
    Header,
    /// The writer failed.
    Write,
    /// A message to send has more bytes than a header can say.
    TooLong,
}

fn fault_of(fault: SendFault) -> ServeFault
    ensures { result ≡ fault_of fault }
{
    match fault {
        SendFault::Write => ServeFault::Write,
        SendFault::TooLong => ServeFault::TooLong,
    }
}

// Reads the next message and handles it. Returns the exit status if no message is left or the
// message asks for the end.
fn take_turn<S: LineStore, F: ConfigFiles, R: Read, W: Write>(
    alloc: S::Alloc,
    server: &mut Server<S>,
    files: &mut F,
    ahead: &mut Ahead,
    input: &mut Watched<R>,
    out: &mut Output<W>,
) -> Result<Option<u8>, ServeFault>
    requires reader { failures_of input.old < 2 ^ 64 - 1 }
    requires writer { failures_of (watched_of out.old) < 2 ^ 64 - 1 }
    ensures turn { IfOk result (IsTurn (prepend_known ahead.old (R.remaining (device_of input.old)))
        (prepend_known ahead.new (R.remaining (device_of input.new))) server.old server.new (sink W.contents out.old out.new)) }
    ensures quiet { OnOk result (failures_of input.new ≡ failures_of input.old) }
    ensures fault { IfErr result (IsTurnFault (prepend_known ahead.old (R.remaining (device_of input.old)))
        (prepend_known ahead.new (R.remaining (device_of input.new))) (failures_of input.old) (failures_of input.new)
        server.old (sink W.contents out.old out.new)) }
{
    match next_body(alloc, ahead, input) {
        Ok(NextBody::Body(mut body)) => match server.handle(body.as_mut_slice(), files, out) {
            Ok(ended) => Ok(ended),
            Err(fault) => Err(fault_of(fault)),
        },
        Ok(NextBody::Dropped) => match server.drop_body(out) {
            Ok(()) => Ok(None),
            Err(fault) => Err(fault_of(fault)),
        },
        Ok(NextBody::End) => Ok(Some(1)),
        Ok(NextBody::Bad) => Err(ServeFault::Header),
        Err(_) => Err(ServeFault::Read),
    }
}

/// Serves an editor by LSP until it asks for the end or its messages end, and returns the exit
/// status: 0 if it asks for the end after `shutdown`, else 1. Each message is handled before the
/// next one is read. A document is judged by `standard` if neither settings nor files say another
/// configuration.
///
/// Returns `Read` if the reader failed, `Write` if the writer failed, `Header` if the reader gives
/// no message next or 2^64 - 1 messages were handled, and `TooLong` if a message to send has more
/// bytes than a header can say. The messages that were read before are handled.
pub fn serve<S: LineStore, F: ConfigFiles, R: Read, W: Write>(
    alloc: S::Alloc,
    standard: Config,
    files: &mut F,
    input: &mut Watched<R>,
    out: &mut Output<W>,
) -> Result<u8, ServeFault>
    requires reader { failures_of input.old < 2 ^ 64 - 1 }
    requires writer { failures_of (watched_of out.old) < 2 ^ 64 - 1 }
    ensures done { IfOk result (IsServed standard (record {
      given = R.remaining (device_of input.old);
      before = W.contents (device_of (watched_of out.old));
      now = W.contents (device_of (watched_of out.new));
    })) }
    ensures reader_quiet { OnOk result (failures_of input.new ≡ failures_of input.old) }
    ensures writer_quiet { OnOk result (failures_of (watched_of out.new) ≡ failures_of (watched_of out.old)) }
    ensures fault { IfErr result (IsServeFault standard (record {
      reads_before = failures_of input.old;
      reads_after = failures_of input.new;
      writes_before = failures_of (watched_of out.old);
      writes_after = failures_of (watched_of out.new);
    })
        (record {
          given = R.remaining (device_of input.old);
          before = W.contents (device_of (watched_of out.old));
          now = W.contents (device_of (watched_of out.new));
        })) }
{
    one_report();
    let mut server: Server<S> = Server::new(alloc, standard);
    let mut ahead = Ahead::new();
    for _ in 0..u64::MAX {
        match take_turn(alloc, &mut server, files, &mut ahead, input, out) {
            Ok(None) => {}
            Ok(Some(status)) => return Ok(status),
            Err(fault) => return Err(fault),
        }
    }
    Err(ServeFault::Header)
}
