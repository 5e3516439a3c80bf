//! Messages written to a writer.
ghost use Rattle.std.specs.Prelude.{◌≡◌, ℕ, List, ◌-◌, ◌^◌, ◌<◌, min, length, OnOk, OnErr, IfErr};
ghost use Rattle.std.specs.Io.KnownBytes.{Appends};
ghost use Rattle.yl_text.specs.Watched.{device_of, failures_of};
ghost use Rattle.yl_devices.specs.Written.{AppendsFront};
ghost use Rattle.yl_frames.specs.Frames.{framed, with_header};

use crate::pieces::{Buffered, Counted, Pieces, put_number};
use std::io::Write;
use yl_devices::{Waiting, WriteFault, flush};
use yl_text::Watched;

/// The most bytes of a body, so many as a header can say.
const MOST_BYTES: u64 = 9_999_999_999;

/// What is written as the body of a message.
pub trait Body {
    /// The bytes of the body.
    ghost text: { Self → List ℕ };

    /// Puts all of them.
    fn put<P: Pieces>(&self, to: &mut P) -> Result<(), WriteFault>
        requires { P.can_put to.old }
        ensures ok { OnOk result (P.puts to.old (text self.now) to.new) }
        ensures err { OnErr result (P.breaks to.old (text self.now) to.new) };
}

/// Why a message was not sent.
#[derive(Clone, Copy, Debug, PartialEq, Eq)]
pub enum SendFault {
    /// The writer failed.
    Write,
    /// The body has more bytes than a header can say.
    TooLong,
}

/// A writer of messages.
#[derive(Drop)]
pub struct Output<W> {
    to: Buffered<W>,
}

// Puts a body after its header.
fn put_message<B: Body, P: Pieces>(to: &mut P, count: u64, body: &B) -> Result<(), WriteFault>
    requires { P.can_put to.old }
    ensures ok { OnOk result (P.puts to.old (with_header count (B.text body.now)) to.new) }
    ensures err { OnErr result (P.breaks to.old (with_header count (B.text body.now)) to.new) }
{
    to.put(b"Content-Length: ")?;
    put_number(to, count)?;
    to.put(b"\r\n\r\n")?;
    body.put(to)
}

// How many bytes a body has, up to `u64::MAX`.
fn count_of<B: Body>(body: &B) -> u64
    ensures { result ≡ min (length (B.text body.now)) (2 ^ 64 - 1) }
{
    let mut counted = Counted { count: 0 };
    match body.put(&mut counted) {
        Ok(()) => counted.count,
        Err(_) => unreachable!(),
    }
}

// Writes a body after its header.
fn write_message<B: Body, W: Write>(
    to: &mut Buffered<W>,
    count: u64,
    body: &B,
) -> Result<(), WriteFault>
    requires { failures_of to.old.device < 2 ^ 64 - 1 }
    ensures ok { OnOk result (Appends (W.contents (device_of to.old.device)) (W.contents (device_of to.new.device))
        (with_header count (B.text body.now))) }
    ensures quiet { OnOk result (failures_of to.new.device ≡ failures_of to.old.device) }
    ensures err { OnErr result (AppendsFront (W.contents (device_of to.old.device)) (W.contents (device_of to.new.device))
        (with_header count (B.text body.now))) }
    ensures failed { OnErr result (failures_of to.old.device < failures_of to.new.device) }
{
    to.waiting.clear();
    put_message(to, count, body)?;
    flush(&mut to.device, &mut to.waiting)
}

impl<W: Write> Output<W> {
    ghost use Rattle.yl_frames.specs.Sending.{IsSendFault, watched_of};

    /// An output to this writer.
    pub fn new(device: Watched<W>) -> Output<W>
        ensures { watched_of result ≡ device }
    {
        Output {
            to: Buffered {
                device,
                waiting: Waiting::new(),
            },
        }
    }

    /// The writer.
    pub fn into_inner(self) -> Watched<W>
        ensures { result ≡ watched_of self }
    {
        self.to.device
    }

    /// Sends a body as one message, and allocates nothing. On a fault of the writer a beginning of the
    /// message is out.
    pub fn send<B: Body>(&mut self, body: &B) -> Result<(), SendFault>
        requires { failures_of (watched_of self.old) < 2 ^ 64 - 1 }
        ensures ok { OnOk result (Appends (W.contents (device_of (watched_of self.old))) (W.contents (device_of (watched_of self.new)))
            (framed (B.text body.now))) }
        ensures quiet { OnOk result (failures_of (watched_of self.new) ≡ failures_of (watched_of self.old)) }
        ensures fault { IfErr result (IsSendFault (record {
          before = W.contents (device_of (watched_of self.old));
          now = W.contents (device_of (watched_of self.new));
          failures_before = failures_of (watched_of self.old);
          failures_now = failures_of (watched_of self.new);
        }) (B.text body.now)) }
    {
        let count = count_of(body);
        if count > MOST_BYTES {
            return Err(SendFault::TooLong);
        }
        match write_message(&mut self.to, count, body) {
            Ok(()) => Ok(()),
            Err(_) => Err(SendFault::Write),
        }
    }
}
