//! The formats of printed problems.

/// A format of the problems of a file.
#[derive(Clone, Copy, Debug, PartialEq, Eq)]
pub enum Format {
    /// A line for each problem, with the name of the file:
    /// `FILE:LINE:COLUMN: [LEVEL] MESSAGE (RULE)`.
    Parsable,
    /// A line in columns for each problem, after a line with the name of the file.
    Standard,
    /// The lines of `Standard`, with the colours of a terminal.
    Colored,
    /// A command of a GitHub workflow for each problem, in a group for the file.
    Github,
}

/// A format that prints the name of a file before its problems.
#[derive(Clone, Copy)]
pub(crate) enum Listing {
    /// A line in columns for each problem.
    Standard,
    /// A line in columns for each problem, with the colours of a terminal.
    Colored,
    /// A command of a GitHub workflow for each problem.
    Github,
}
