//! What is still to be read says which collections are open.

/// What a goal of a parser is for the open collections.
#[derive(Clone, Copy)]
pub enum Opening {
    /// The rest of an open collection, which is a mapping if the flag is `true`.
    Collection(bool),
    /// A node of the collection around it.
    Node,
    /// Neither.
    Nothing,
}
