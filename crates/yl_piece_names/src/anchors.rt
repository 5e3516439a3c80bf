//! The rule anchors where rows come in place of others. No function here does anything.
ghost use Rattle.yl_piece_names.specs.AnchorsPatched.{AnchorsArePatched};

/// A law: where the anchors and aliases of the rows that come have the names of those in the rows
/// that go, the rule anchors finds above and below them what it found, the latter moved.
pub fn anchors_are_patched()
    ensures { AnchorsArePatched }
{}
