//! Messages that are sent.
use std::alloc::Global;
use test_cases::{MemoryWriter, say, write};
use yl_devices::{RunFault, WriteFault};
use yl_frames::{Body, Output, Pieces, SendFault, put_text};
use yl_text::Watched;

// A text as the body of a message.
#[derive(Drop)]
struct Quoted<'a>(&'a str);

impl Body for Quoted<'_> {
    ghost use Rattle.json.specs.Print.{quoted};

    ghost text = { λ t. quoted t.0.now };

    fn put<P: Pieces>(&self, to: &mut P) -> Result<(), WriteFault> {
        put_text(to, self.0)
    }
}

// What is written of a message, and what the sending answers.
fn sent(alloc: Global, text: &str, most: usize, fails_at: u64) -> (Vec<u8>, Result<(), SendFault>) {
    let mut writer = MemoryWriter::new(alloc);
    writer.most = most;
    writer.fails_at = fails_at;
    let mut out = Output::new(Watched::new(writer));
    let answer = out.send(&Quoted(text));
    (out.into_inner().into_inner().bytes, answer)
}

// Whether a writer that fails at a call, each in turn, has a beginning of the message.
fn stops_at_each_write(alloc: Global, text: &str, whole: &[u8]) -> bool {
    for nth in 1..u64::MAX {
        let (bytes, answer) = sent(alloc, text, 5, nth);
        match answer {
            Ok(()) => return bytes.as_slice() == whole,
            Err(SendFault::Write) if whole.starts_with(bytes.as_slice()) => {}
            Err(_) => return false,
        }
    }
    false
}

/// Prints the message whose body is a text as JSON.
pub fn show_sent(rt: &HostRuntime, text: &[u8]) -> Result<(), RunFault> {
    let Ok(text) = std::str::from_utf8(text) else {
        return say(rt, "is no text");
    };
    let (whole, answer) = sent(rt.alloc(), text, usize::MAX, 0);
    write(rt, whole.as_slice())?;
    say(rt, "")?;
    if answer != Ok(()) {
        say(rt, "is not sent")?;
    }
    if !stops_at_each_write(rt.alloc(), text, whole.as_slice()) {
        say(rt, "is sent otherwise where a write fails")?;
    }
    Ok(())
}
