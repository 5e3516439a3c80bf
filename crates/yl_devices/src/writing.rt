//! A text written through a buffer.
ghost use Rattle.std.specs.Prelude.{◌≡◌, ◌-◌, ◌^◌, ◌<◌, [], ◌++◌, OnOk, OnErr};
ghost use Rattle.std.specs.List.{flat_map};
ghost use Rattle.std.specs.Io.KnownBytes.{Appends};
ghost use Rattle.yl_text.specs.Watched.{device_of, failures_of};
ghost use Rattle.yl_devices.specs.Written.{AppendsFront, Passes};

use arrayvec::ArrayVec;
use std::io::Write;
use yl_text::Watched;

/// The writer failed.
#[derive(Clone, Copy, Debug, PartialEq, Eq)]
pub struct WriteFault;

/// Bytes that wait to be written, so that a write takes many of them.
pub type Waiting = ArrayVec<u8, 4096>;

// Writes all of a piece.
fn write_piece<W: Write>(out: &mut Watched<W>, piece: &[u8]) -> Result<(), WriteFault>
    requires { failures_of out.old < 2 ^ 64 - 1 }
    ensures ok { OnOk result (Appends (W.contents (device_of out.old)) (W.contents (device_of out.new)) piece.now) }
    ensures quiet { OnOk result (failures_of out.new ≡ failures_of out.old) }
    ensures err { OnErr result (AppendsFront (W.contents (device_of out.old)) (W.contents (device_of out.new)) piece.now) }
    ensures failed { OnErr result (failures_of out.old < failures_of out.new) }
{
    let mut done = 0;
    while done < piece.len() {
        match out.write(&piece[done..]) {
            Ok(0) => return Err(WriteFault),
            Ok(n) => done += n,
            Err(_) => return Err(WriteFault),
        }
    }
    Ok(())
}

/// Writes what waits. On a fault a beginning of it is out.
pub fn flush<W: Write>(out: &mut Watched<W>, waiting: &mut Waiting) -> Result<(), WriteFault>
    requires { failures_of out.old < 2 ^ 64 - 1 }
    ensures ok { OnOk result (Appends (W.contents (device_of out.old)) (W.contents (device_of out.new)) waiting.old.items) }
    ensures none_waits { OnOk result (waiting.new.items ≡ []) }
    ensures quiet { OnOk result (failures_of out.new ≡ failures_of out.old) }
    ensures err { OnErr result (AppendsFront (W.contents (device_of out.old)) (W.contents (device_of out.new)) waiting.old.items) }
    ensures failed { OnErr result (failures_of out.old < failures_of out.new) }
{
    write_piece(out, waiting.as_slice())?;
    waiting.clear();
    Ok(())
}

// Puts a piece behind what waits, for which that goes out where there is no room. A piece that is
// longer than all the room goes out at once.
fn put<W: Write>(
    out: &mut Watched<W>,
    waiting: &mut Waiting,
    piece: &[u8],
) -> Result<(), WriteFault>
    requires { failures_of out.old < 2 ^ 64 - 1 }
    ensures ok { OnOk result (Passes (W.contents (device_of out.old)) (W.contents (device_of out.new))
        waiting.old.items piece.now waiting.new.items) }
    ensures quiet { OnOk result (failures_of out.new ≡ failures_of out.old) }
    ensures err { OnErr result (AppendsFront (W.contents (device_of out.old)) (W.contents (device_of out.new))
        (waiting.old.items ++ piece.now)) }
    ensures failed { OnErr result (failures_of out.old < failures_of out.new) }
{
    if waiting.try_extend_from_slice(piece).is_ok() {
        return Ok(());
    }
    flush(out, waiting)?;
    if waiting.try_extend_from_slice(piece).is_err() {
        write_piece(out, piece)?;
    }
    Ok(())
}

/// Puts pieces behind what waits, one after another. Where there is no room, what waits is written.
/// On a fault a beginning of what waited and of the pieces is out.
pub fn put_parts<W: Write>(
    out: &mut Watched<W>,
    waiting: &mut Waiting,
    parts: &[&[u8]],
) -> Result<(), WriteFault>
    requires { failures_of out.old < 2 ^ 64 - 1 }
    ensures ok { OnOk result (Passes (W.contents (device_of out.old)) (W.contents (device_of out.new))
        waiting.old.items (flat_map (λ part. part.now) parts.now) waiting.new.items) }
    ensures quiet { OnOk result (failures_of out.new ≡ failures_of out.old) }
    ensures err { OnErr result (AppendsFront (W.contents (device_of out.old)) (W.contents (device_of out.new))
        (waiting.old.items ++ flat_map (λ part. part.now) parts.now)) }
    ensures failed { OnErr result (failures_of out.old < failures_of out.new) }
{
    for part in parts {
        put(out, waiting, part)?;
    }
    Ok(())
}

/// Writes pieces one after another, in as few writes as a buffer of 4,096 bytes allows. It takes no
/// memory. On a fault, which is told only where the writer failed, a beginning of them is out.
pub fn write_parts<W: Write>(out: &mut Watched<W>, parts: &[&[u8]]) -> Result<(), WriteFault>
    requires { failures_of out.old < 2 ^ 64 - 1 }
    ensures ok { OnOk result (Appends (W.contents (device_of out.old)) (W.contents (device_of out.new))
        (flat_map (λ part. part.now) parts.now)) }
    ensures quiet { OnOk result (failures_of out.new ≡ failures_of out.old) }
    ensures err { OnErr result (AppendsFront (W.contents (device_of out.old)) (W.contents (device_of out.new))
        (flat_map (λ part. part.now) parts.now)) }
    ensures failed { OnErr result (failures_of out.old < failures_of out.new) }
{
    let mut waiting = Waiting::new();
    put_parts(out, &mut waiting, parts)?;
    flush(out, &mut waiting)
}
