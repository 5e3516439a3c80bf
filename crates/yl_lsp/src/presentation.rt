//! The presentation of problems.
use yl_units::Encoding;

/// The default maximum number of problems that are shown for a text.
pub const MOST_PROBLEMS: u64 = 1_000;

/// How problems are shown to an editor.
#[derive(Clone, Copy)]
pub struct Presentation {
    /// The units in which columns are counted.
    pub encoding: Encoding,
    /// Whether a rule has a link to its description.
    pub links: bool,
    /// The maximum number of problems that are shown for a text.
    pub most: u64,
}
