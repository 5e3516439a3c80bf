//! An input read piece by piece.
ghost use Rattle.std.specs.Prelude.{◌≡◌, ◌≢◌, ◌-◌, ◌^◌, ◌<◌, ◌≤◌, [], ◌∷◌, length, take, drop, IfOk, IfErr, IfSome, IsErrOf, OnOk, OnErr, MatchOption, MatchBool, vec_len};
ghost use Rattle.std.specs.Io.KnownBytes.{Consumes, IsAtEnd, Keeps, prepend_known};
ghost use Rattle.yl_text.specs.Watched.{device_of, failures_of};
ghost use Rattle.yl_devices.specs.Text.{IsCommandFault, TakesFewer};

use crate::fault::RunFault;
use std::alloc::Allocator;
use std::io::Read;
use std::marker::Model;
use yl_text::Watched;

/// Bytes of an input that were read and are still to be looked at. A contract sees them as a list.
#[derive(Drop)]
pub struct Ahead {
    bytes: [u8; 16_384],
    at: usize,
    end: usize,
}

impl Model for Ahead {
    ghost use Rattle.std.specs.Prelude.{ℕ, ◌-◌, ◌≤◌, ◌≡◌, List, length, take, drop};

    ghost Value = { List ℕ };

    ghost view = { λ a. take (a.end - a.at) (drop a.at a.bytes) };

    ghost invariant = { λ a. (a.at ≤ a.end) × (a.end ≤ 16384) × (length a.bytes ≡ 16384) };
}

impl Ahead {
    ghost use Rattle.std.specs.Prelude.{◌≡◌, ◌≤◌, [], length, drop};

    /// Nothing was read.
    pub fn new() -> Ahead
        ensures { result ≡ [] }
    {
        Ahead {
            bytes: [0; 16_384],
            at: 0,
            end: 0,
        }
    }

    /// The bytes that are still to be looked at.
    pub fn as_slice(&self) -> &[u8]
        ensures { result.now ≡ self.now }
    {
        &self.bytes[self.at..self.end]
    }

    /// Drops the first `count` bytes.
    pub fn skip(&mut self, count: usize)
        requires { count ≤ length self.old }
        ensures { self.new ≡ drop count self.old }
    {
        self.at += count;
    }

    // Reads more where nothing is left. `false` at the end of the input.
    fn fill<R: Read>(&mut self, input: &mut Watched<R>) -> Result<bool, RunFault>
        requires empty { self.old ≡ [] }
        requires reader { failures_of input.old < 2 ^ 64 - 1 }
        ensures read { IfOk result (λ some. Consumes (R.remaining (device_of input.old)) (R.remaining (device_of input.new)) self.new) }
        ensures some { IfOk result (λ some. MatchBool some (self.new ≢ []) ((self.new ≡ []) × IsAtEnd (R.remaining (device_of input.new)))) }
        ensures quiet { OnOk result (failures_of input.new ≡ failures_of input.old) }
        ensures fault { IfErr result (λ fault. (fault ≡ RunFault.Read) × (failures_of input.old < failures_of input.new)) }
        ensures lost { OnErr result (Keeps (R.remaining (device_of input.old)) (R.remaining (device_of input.new))) }
    {
        self.at = 0;
        self.end = 0;
        match input.read(&mut self.bytes) {
            Ok(n) => {
                self.end = n;
                Ok(n > 0)
            }
            Err(_) => Err(RunFault::Read),
        }
    }

    /// Reads from the input where no byte is left to be looked at. Returns `false` at the end of the
    /// input, else `true`. `Read` where the reader failed; then no byte was left, and none was read.
    pub fn more<R: Read>(&mut self, input: &mut Watched<R>) -> Result<bool, RunFault>
        requires { failures_of input.old < 2 ^ 64 - 1 }
        ensures kept { IfOk result (λ some. Keeps (prepend_known self.old (R.remaining (device_of input.old)))
            (prepend_known self.new (R.remaining (device_of input.new)))) }
        ensures some { IfOk result (λ some. MatchBool some (self.new ≢ []) ((self.new ≡ []) × IsAtEnd (R.remaining (device_of input.new)))) }
        ensures quiet { OnOk result (failures_of input.new ≡ failures_of input.old) }
        ensures fault { IfErr result (λ fault. (fault ≡ RunFault.Read) × (failures_of input.old < failures_of input.new)) }
        ensures lost { OnErr result (Keeps (prepend_known self.old (R.remaining (device_of input.old))) (R.remaining (device_of input.new))) }
    {
        if self.as_slice().is_empty() {
            return self.fill(input);
        }
        Ok(true)
    }

    /// Takes the next byte, or returns `None` at the end of the input. `Read` where the reader
    /// failed; then no byte was left, and none was read.
    pub fn next_byte<R: Read>(&mut self, input: &mut Watched<R>) -> Result<Option<u8>, RunFault>
        requires { failures_of input.old < 2 ^ 64 - 1 }
        ensures some { IfOk result (λ found. IfSome found (λ byte.
            Consumes (prepend_known self.old (R.remaining (device_of input.old)))
            (prepend_known self.new (R.remaining (device_of input.new))) (byte ∷ []))) }
        ensures none { IfOk result (λ found. MatchOption found
            (IsAtEnd (prepend_known self.old (R.remaining (device_of input.old))) × IsAtEnd (R.remaining (device_of input.new)))
            (λ _. Unit {0})) }
        ensures quiet { OnOk result (failures_of input.new ≡ failures_of input.old) }
        ensures fault { IfErr result (λ fault. (fault ≡ RunFault.Read) × (failures_of input.old < failures_of input.new)) }
        ensures lost { OnErr result (Keeps (prepend_known self.old (R.remaining (device_of input.old))) (R.remaining (device_of input.new))) }
    {
        if !self.more(input)? {
            return Ok(None);
        }
        let byte = self.as_slice()[0];
        self.skip(1);
        Ok(Some(byte))
    }

    /// Takes the next `size` bytes. The vector grows as they come. `Command` where there are fewer,
    /// `Read` where the reader failed before it had given them, else `Memory`.
    pub fn read_payload<A: Allocator + Copy, R: Read>(
        &mut self,
        alloc: A,
        input: &mut Watched<R>,
        size: usize,
    ) -> Result<Vec<u8, A>, RunFault>
        requires { failures_of input.old < 2 ^ 64 - 1 }
        ensures read { IfOk result (λ bytes. Consumes (prepend_known self.old (R.remaining (device_of input.old)))
            (prepend_known self.new (R.remaining (device_of input.new))) bytes.items) }
        ensures len { IfOk result (λ bytes. vec_len bytes ≡ size) }
        ensures command { IsErrOf result RunFault.Command → IfSome (prepend_known self.old (R.remaining (device_of input.old))) (λ all. length all < size) }
        ensures cut { IsErrOf result RunFault.Read → TakesFewer size (prepend_known self.old (R.remaining (device_of input.old))) (R.remaining (device_of input.new)) }
        ensures quiet { OnOk result (failures_of input.new ≡ failures_of input.old) }
        ensures fault { IfErr result (IsCommandFault (failures_of input.old) (failures_of input.new)) }
    {
        let mut bytes = Vec::new(alloc);
        while bytes.len() < size {
            if !self.more(input)? {
                return Err(RunFault::Command);
            }
            let room = size - bytes.len();
            let count = self.as_slice().len().min(room);
            bytes.extend_from_slice(&self.as_slice()[..count])?;
            self.skip(count);
        }
        Ok(bytes)
    }
}
