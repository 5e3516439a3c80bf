//! The results of reading a scalar.

/// The reason why a scalar is refused.
#[derive(Clone, Copy, Debug, PartialEq, Eq)]
pub enum ScalarFault {
    /// A character that the text may not have there. The place is that of the character.
    NotAllowed,
    /// The text ends before the closing quote. The place is that of the opening quote.
    UnclosedQuote,
    /// A document marker inside quotes. The place is the start of the marker.
    MarkerInQuote,
    /// A backslash that no escape follows, or an escape that stands for no character. The place is
    /// that of the backslash.
    BadEscape,
    /// A character that does not fit in the header of a block scalar. The place is that of the
    /// character.
    BadHeader,
    /// A blank row above the content of a block scalar that has more leading spaces than the
    /// content. The place is after those spaces.
    BadIndentation,
}

/// A place in the text, relative to the first row of a scalar.
#[derive(Clone, Copy)]
pub struct ScalarPlace {
    /// The number of rows below the first row of the scalar.
    pub down: usize,
    /// The column, in characters, counted from 0.
    pub column: usize,
}

/// The result of reading one row of a scalar.
#[derive(Clone, Copy)]
pub enum ScalarStep {
    /// The row belongs to the scalar or is blank, and a later row may continue the scalar.
    GoesOn,
    /// The scalar ends in the row, before this place.
    EndsIn(ScalarPlace),
    /// The scalar ended above the row, before this place.
    EndedAbove(ScalarPlace),
    /// The scalar is refused, for this reason and at this place.
    Fails(ScalarFault, ScalarPlace),
}

/// The result of reading a whole scalar.
#[derive(Clone, Copy)]
pub enum ScalarOutcome {
    /// The scalar ends before this place.
    Whole(ScalarPlace),
    /// The scalar is refused, for this reason and at this place.
    Refused(ScalarFault, ScalarPlace),
}
