//! The work that an edit took.

/// The work that an edit took. Rows that are only skipped do not count, and neither do documents
/// that stay as they were.
#[derive(Clone, Copy, Debug, PartialEq, Eq)]
pub struct Work {
    /// The number of rows that were scanned.
    pub scanned: u32,
    /// The number of documents whose events were derived.
    pub documents: u32,
}
