//! The rules on keys and anchors where rows come in place of others. No function here does anything.
ghost use Rattle.yl_piece_names.specs.TreePatched.{TreeIsPatched};

/// A law: rows of a document come in place of others, and their anchors and aliases have the same
/// names. If the rules on keys find the same below them, all rules on keys and anchors find above and
/// below them what they found, the latter moved. Where both ask for the same names, and keys from
/// above had no part in what was found at the old rows, they have none at the new rows.
pub fn tree_findings_are_patched()
    ensures { TreeIsPatched }
{}
