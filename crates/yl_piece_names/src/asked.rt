//! The names that a run of events asks for among the keys from before it. No function here does
//! anything.
ghost use Rattle.yl_piece_names.specs.Asked.{AskedNames};

/// A law: what a run of events asks for among the keys from before it are the names of its keys in
/// mappings that were open before it, each with the height of its mapping. Of the keys from before no
/// more matters than what these names find among them. Where they had no part in what the rules on
/// keys found at a run, they have none at another that asks for the same names.
pub fn asked_names()
    ensures { AskedNames }
{}
