//! Parse faults.

/// The kind of a parse fault: why a document is refused.
#[derive(Clone, Copy, Debug, PartialEq, Eq)]
pub enum ParseFault {
    /// A directive is followed by neither a directive nor a marker `---`.
    DocumentStartExpected,
    /// A node has a second anchor or tag, or an alias has properties.
    PropertiesGivenTwice,
    /// A lexeme cannot continue a flow collection, or the document ends within one.
    CommaOrBracketExpected,
    /// A lexeme cannot continue a block mapping.
    KeyOrEndOfMappingExpected,
    /// A lexeme cannot continue a block sequence.
    EntryOrEndOfSequenceExpected,
    /// A lexeme outside all collections cannot come there, such as one that begins a second node.
    SecondNode,
}

impl ParseFault {
    ghost use Rattle.std.specs.Prelude.{◌≡◌};
    ghost use Rattle.yl_events.specs.Faults.{fault_text};

    /// Returns the message of the fault.
    pub fn text(self) -> &'static str
        ensures { result.now ≡ fault_text self }
    {
        match self {
            ParseFault::DocumentStartExpected => "document start \"---\" expected",
            ParseFault::PropertiesGivenTwice => "properties given twice or on an alias",
            ParseFault::CommaOrBracketExpected => "comma or closing bracket expected",
            ParseFault::KeyOrEndOfMappingExpected => "key or end of mapping expected",
            ParseFault::EntryOrEndOfSequenceExpected => "entry or end of sequence expected",
            ParseFault::SecondNode => "second node",
        }
    }
}

/// A parse fault of a document, and where it is.
#[derive(Clone, Copy)]
pub struct PlacedParseFault {
    /// The kind of the fault.
    pub kind: ParseFault,
    /// The index, from 0, of the lexeme at which the fault is. The number of lexemes of the
    /// document stands for the position after all of them.
    pub place: usize,
}
