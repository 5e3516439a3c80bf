//! The causes why the text of a document is not followed.

/// The cause why the text of a document is no longer followed.
#[derive(Clone, Copy, Debug, PartialEq, Eq)]
pub enum Cause {
    /// An allocation failed.
    OutOfMemory,
    /// The text would have more than `MAX_BYTES` bytes.
    TooLarge,
    /// A change has the wrong shape, or its range ends before its start.
    BadChange,
    /// A message could not be read. It may have been a change.
    Missed,
}
