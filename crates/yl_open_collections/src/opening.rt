//! Which collections are open, by what the parser has still to read. No function here does anything.
ghost use Rattle.yl_open_collections.specs.OpenBy.{GoalsOpenCollections};

/// A law: what a parser has still to read says which collections are open, of each whether it is a
/// mapping, and of a mapping whether a key comes next in it.
pub fn goals_open_collections()
    ensures { GoalsOpenCollections }
{}
