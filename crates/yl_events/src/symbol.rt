//! What the grammar reads and gives. Lexemes are named by their index in the document, from 0.

use yl_lexeme::Style;

/// The kind of the brackets of a flow collection.
#[derive(Clone, Copy, PartialEq, Eq)]
pub enum BracketKind {
    /// The brackets `[` and `]` of a sequence.
    Square,
    /// The brackets `{` and `}` of a mapping.
    Curly,
}

/// The properties of a node: at most one anchor and one tag, at least one of them, in either order.
/// Each is given by the index of its lexeme.
#[derive(Clone, Copy, PartialEq, Eq)]
pub enum Properties {
    /// An anchor.
    Anchored(u32),
    /// A tag.
    Tagged(u32),
    /// An anchor, and a tag after it.
    AnchoredTagged(u32, u32),
    /// A tag, and an anchor after it.
    TaggedAnchored(u32, u32),
}

/// What an event is, without its name or value.
#[derive(Clone, Copy)]
pub enum Shape {
    /// The start of a document.
    DocumentStart,
    /// The end of a document.
    DocumentEnd,
    /// The start of a sequence.
    SequenceStart,
    /// The end of a sequence.
    SequenceEnd,
    /// The start of a mapping.
    MappingStart,
    /// The end of a mapping.
    MappingEnd,
    /// An alias.
    Alias,
    /// A scalar, with its style.
    Scalar(Style),
    /// A missing node, or a node that consists of properties only.
    Empty,
}

/// An event, given by its lexemes. A lexeme is named by its index in the document, from 0.
#[derive(Clone, Copy)]
pub struct Outline {
    /// What the event is.
    pub kind: Shape,
    /// Whether the node has a tag.
    pub is_tagged: bool,
    /// The lexeme with which the content begins, after properties. A scalar, an alias and the start
    /// of a collection have one.
    pub place: Option<u32>,
    /// The lexeme that is the node's anchor, if it has one.
    pub anchor: Option<u32>,
}

/// Which nodes may come at a place.
#[derive(Clone, Copy, PartialEq, Eq)]
pub enum Where {
    /// A node that may be a key: it is not missing, and no block collection.
    InInline,
    /// Any node. If the flag is `true`, also an indentless sequence.
    InBlock(bool),
}

/// What the parser has still to read.
#[derive(Clone, Copy, PartialEq, Eq)]
pub enum Goal {
    /// The directives of a document and its marker `---`, all of which may be missing.
    Prefix,
    /// More directives and the marker `---`, after a directive.
    Directives,
    /// The marker `...`, which may be missing.
    Ending,
    /// A node, of which these properties were read.
    Formed(Where, Option<Properties>),
    /// The rest of a block sequence.
    Entries,
    /// The rest of an indentless sequence.
    Indentless,
    /// The rest of a block mapping.
    Pairs,
    /// The Value of a key that a Key begins, with its node. It may be missing.
    ValueOf(Where),
    /// The Value after a key that no Key begins.
    Colon,
    /// An item of a flow collection, or its end.
    Items(BracketKind),
    /// The comma after an item of a flow collection, or the end of the collection.
    ItemEnd(BracketKind),
    /// The end of a pair in a flow collection. It takes no lexeme.
    PairEnd(BracketKind),
    /// The end of an item that is a node. It takes no lexeme.
    NodeEnd(BracketKind),
}

/// An open block collection. For a mapping, the flag says whether an indentless sequence is open in
/// it.
#[derive(Clone, Copy, PartialEq, Eq)]
pub enum OpenBlockCollection {
    /// A block sequence.
    InSequence,
    /// A block mapping.
    InMapping(bool),
}
