//! What counts of the open collections of a document. No function here does anything.
ghost use Rattle.yl_open_collections.specs.Counted.{MappingsCount};

/// A law: for the rules on keys, open mappings alone count. How many nodes another open collection
/// has does not matter.
pub fn mappings_count()
    ensures { MappingsCount }
{}
