//! Makes texts of pieces. The same seed gives the same texts.
use crate::texts::WORDS;
use itoa::Buffer;
use rand_core::Rng;
use rand_pcg::Pcg32;
use std::alloc::{AllocError, Global};

/// A text to which pieces are added.
#[derive(Drop)]
pub struct Maker {
    random: Pcg32,
    serial: u64,
    text: Vec<u8>,
}

impl Maker {
    /// Creates an empty text. Each seed, and each stream of a seed, makes other choices.
    pub fn new(alloc: Global, seed: u64, stream: u64) -> Maker {
        Maker {
            random: Pcg32::new(seed, stream),
            serial: 0,
            text: Vec::new(alloc),
        }
    }

    /// Returns the next choice: a number less than `n`, or 0 if `n` is 0.
    pub fn below(&mut self, n: u32) -> u32 {
        if n == 0 {
            0
        } else {
            self.random.next_u32() % n
        }
    }

    /// Returns the text.
    pub fn into_text(self) -> Vec<u8> {
        self.text
    }

    fn put_number(&mut self, n: u64) -> Result<(), AllocError> {
        let mut buffer = Buffer::new();
        self.text.extend_from_slice(buffer.format(n).as_bytes())
    }

    // Adds what a field stands for: a word, a number, a number that no other piece has, or the last
    // such number again.
    fn put_field(&mut self, field: u8) -> Result<(), AllocError> {
        if field == b'w' {
            let at = self.below(32) as usize;
            return match WORDS.get(at) {
                Some(word) => self.text.extend_from_slice(word.as_bytes()),
                None => Ok(()),
            };
        }
        if field == b's' {
            self.serial = self.serial.wrapping_add(1);
            return self.put_number(self.serial);
        }
        if field == b'l' {
            return self.put_number(self.serial);
        }
        let n = self.below(9_000) as u64;
        self.put_number(n + 1_000)
    }

    /// Adds a piece with each of its fields filled in. The only error is out of memory.
    pub fn put(&mut self, piece: &str) -> Result<(), AllocError> {
        let mut is_first = true;
        for part in piece.as_bytes().split(|c| *c == b'@') {
            match part.split_first() {
                Some((field, rest)) if !is_first => {
                    self.put_field(*field)?;
                    self.text.extend_from_slice(rest)?;
                }
                _ => self.text.extend_from_slice(part)?,
            }
            is_first = false;
        }
        Ok(())
    }

    /// Adds one of these pieces, or in one of `every` cases the rare one. The only error is out of
    /// memory.
    pub fn put_one(&mut self, pieces: &[&str], rare: &str, every: u32) -> Result<(), AllocError> {
        let rarely = self.below(every) == 0;
        let at = self.below(pieces.len().min(1_000) as u32) as usize;
        match pieces.get(at) {
            Some(piece) if !rarely => self.put(piece),
            _ => self.put(rare),
        }
    }
}
