//! The phase of a scanner between two rows.

use std::alloc::Allocator;
use yl_row::OpenScalar;

/// The rows that a fault reaches.
#[derive(Clone, Copy)]
pub struct Reach {
    /// Whether it reaches to the end of the text.
    pub to_end: bool,
    /// The number of rows that it still reaches.
    pub down: usize,
}

/// The phase of a scanner before a row.
#[derive(Drop)]
pub enum Phase<A: Allocator + Copy> {
    /// Between lexemes.
    Between,
    /// Within a scalar that began in this row. Rows count from 0, from the one at which the scanner
    /// was created.
    Within(u32, OpenScalar<A>),
    /// After a fault.
    Halted(Reach),
}
