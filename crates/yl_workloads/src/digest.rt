//! A digest of many bytes, by Fowler, Noll and Vo (FNV-1a with 64 bits).

/// The digest of the bytes that were added so far, and their number.
#[derive(Clone, Copy)]
pub struct Digest {
    value: u64,
    count: u64,
}

impl Digest {
    /// Creates the digest of no bytes.
    pub fn new() -> Digest {
        Digest {
            value: 0xcbf2_9ce4_8422_2325,
            count: 0,
        }
    }

    fn see_byte(&mut self, byte: u8) {
        self.value = (self.value ^ byte as u64).wrapping_mul(0x0000_0100_0000_01b3);
        self.count = self.count.wrapping_add(1);
    }

    /// Adds what a call printed, and then its status.
    pub fn see(&mut self, printed: &[u8], status: u8) {
        for byte in printed {
            self.see_byte(*byte);
        }
        self.see_byte(status);
    }

    /// Returns the digest.
    pub fn value(&self) -> u64 {
        self.value
    }

    /// Returns the number of bytes that were added, with one byte for each status.
    pub fn count(&self) -> u64 {
        self.count
    }
}
