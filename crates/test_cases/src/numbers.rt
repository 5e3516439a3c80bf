//! Pseudorandom numbers.

/// A generator of pseudorandom numbers, which are the same at each run.
#[derive(Drop)]
pub struct Random {
    seed: u64,
}

impl Random {
    /// Creates a generator. Each seed gives other numbers.
    pub fn new(seed: u64) -> Random {
        Random { seed }
    }

    /// Returns the next number, which is less than `bound`, or 0 if that is 0.
    pub fn below(&mut self, bound: usize) -> usize {
        self.seed = self
            .seed
            .wrapping_mul(6_364_136_223_846_793_005)
            .wrapping_add(1_442_695_040_888_963_407);
        ((self.seed >> 33) % (bound as u64).max(1)) as usize
    }

    /// Returns the next number, which is from `least` to `most`.
    pub fn between(&mut self, least: usize, most: usize) -> usize {
        let more = most.saturating_sub(least).saturating_add(1);
        least.saturating_add(self.below(more))
    }
}
