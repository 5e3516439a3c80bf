//! Where the pieces of a message go: they are counted, or written.
ghost use Rattle.std.specs.Prelude.{◌≡◌, ℕ, List, ◌+◌, ◌-◌, ◌^◌, ◌<◌, min, [], ◌++◌, length, decimal, OnOk, OnErr};
ghost use Rattle.std.specs.List.{flat_map};
ghost use Rattle.yl_text.specs.Watched.{device_of, failures_of};
ghost use Rattle.yl_devices.specs.Written.{AppendsFront, Passes};

use itoa::Buffer;
use std::io::Write;
use yl_devices::{Waiting, WriteFault};
use yl_text::Watched;

/// Where pieces of text go, one after another.
pub trait Pieces {
    /// Pieces may be put in this state.
    ghost can_put: { Self → Type 0 };

    /// From one state, these bytes lead to another.
    ghost puts: { Self → List ℕ → Self → Type 0 };

    /// From one state, a fault came within these bytes, and left another.
    ghost breaks: { Self → List ℕ → Self → Type 0 };

    /// Puts a piece after what was put before.
    fn put(&mut self, piece: &[u8]) -> Result<(), WriteFault>
        requires { can_put self.old }
        ensures ok { OnOk result (puts self.old piece.now self.new) }
        ensures err { OnErr result (breaks self.old piece.now self.new) };

    ghost stays: { (s t : Self) (xs : List ℕ) → puts s xs t → can_put s → can_put t };

    ghost nothing: { (s : Self) → can_put s → puts s [] s };

    ghost joined: { (s t u : Self) (xs ys : List ℕ) → puts s xs t → puts t ys u → puts s (xs ++ ys) u };

    ghost broken_after: { (s t u : Self) (xs ys : List ℕ) → puts s xs t → breaks t ys u → breaks s (xs ++ ys) u };

    ghost broken_before: { (s t : Self) (xs ys : List ℕ) → breaks s xs t → breaks s (xs ++ ys) t };
}

/// Counts the bytes of pieces, up to `u64::MAX`.
#[derive(Drop)]
pub(crate) struct Counted {
    pub(crate) count: u64,
}

impl Pieces for Counted {
    ghost use Rattle.yl_frames.specs.Laws.{counted, counted_joined, counted_nothing, counted_stays};

    ghost can_put = { λ s. s.count < 2 ^ 64 };

    ghost puts = { λ s xs t. t.count ≡ counted s.count xs };

    ghost breaks = { λ s xs t. ⊥ };

    fn put(&mut self, piece: &[u8]) -> Result<(), WriteFault> {
        self.count = self.count.saturating_add(piece.len() as u64);
        Ok(())
    }

    ghost stays = { λ s t xs p c. counted_stays s.count t.count xs p };

    ghost nothing = { λ s c. counted_nothing s.count c };

    ghost joined = { λ s t u xs ys p q. counted_joined s.count t.count u.count xs ys p q };

    ghost broken_after = { λ s t u xs ys p q. q };

    ghost broken_before = { λ s t xs ys q. q };
}

/// Writes pieces through a buffer.
#[derive(Drop)]
pub(crate) struct Buffered<W> {
    pub(crate) device: Watched<W>,
    pub(crate) waiting: Waiting,
}

impl<W: Write> Pieces for Buffered<W> {
    ghost use Rattle.yl_frames.specs.Laws.{passes_nothing, passes_joined, passes_broken, front_longer};
    ghost use Rattle.std.proofs.Common.{refl, sym, ◌∙◌, subst};

    ghost can_put = { λ s. failures_of s.device < 2 ^ 64 - 1 };

    ghost puts = { λ s xs t. Passes (W.contents (device_of s.device)) (W.contents (device_of t.device)) s.waiting.items xs t.waiting.items
        × (failures_of t.device ≡ failures_of s.device) };

    ghost breaks = { λ s xs t. AppendsFront (W.contents (device_of s.device)) (W.contents (device_of t.device)) (s.waiting.items ++ xs)
        × (failures_of s.device < failures_of t.device) };

    fn put(&mut self, piece: &[u8]) -> Result<(), WriteFault> {
        yl_devices::put_parts(&mut self.device, &mut self.waiting, &[piece])
    }

    ghost stays = { λ s t xs p c. subst (λ (n : ℕ). n < 2 ^ 64 - 1) (sym p.1) c };

    ghost nothing = { λ s c. (passes_nothing _ _, refl) };

    ghost joined = { λ s t u xs ys p q. (passes_joined _ _ _ _ _ _ _ _ p.0 q.0, q.1 ∙ p.1) };

    ghost broken_after = { λ s t u xs ys p q. (passes_broken _ _ _ s.waiting.items xs t.waiting.items ys p.0 q.0, subst (λ (n : ℕ). n < failures_of u.device) p.1 q.1) };

    ghost broken_before = { λ s t xs ys q. (front_longer _ _ s.waiting.items xs ys q.0, q.1) };
}

/// Puts pieces one after another.
pub fn put_parts<P: Pieces>(to: &mut P, parts: &[&[u8]]) -> Result<(), WriteFault>
    requires { P.can_put to.old }
    ensures ok { OnOk result (P.puts to.old (flat_map (λ part. part.now) parts.now) to.new) }
    ensures err { OnErr result (P.breaks to.old (flat_map (λ part. part.now) parts.now) to.new) }
{
    for part in parts {
        to.put(part)?;
    }
    Ok(())
}

/// Puts a number in decimal digits.
pub fn put_number<P: Pieces>(to: &mut P, number: u64) -> Result<(), WriteFault>
    requires { P.can_put to.old }
    ensures ok { OnOk result (P.puts to.old (decimal number) to.new) }
    ensures err { OnErr result (P.breaks to.old (decimal number) to.new) }
{
    let mut digits = Buffer::new();
    to.put(digits.format(number).as_bytes())
}
