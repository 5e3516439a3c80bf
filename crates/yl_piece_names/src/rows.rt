//! The rules on keys and anchors in a section where rows come in place of others. No function here
//! does anything.
ghost use Rattle.yl_piece_names.specs.RowsPatched.{RowsArePatched};

/// A law: rows of a section come in place of others, their anchors and aliases have the same names,
/// and the state after them is the same. If the rules on keys find the same below them, and keys from
/// above have no part in what is found at the new rows, then above and below them is found what was
/// found, the latter moved, and at the new rows what is found there alone. So it is where both leave
/// the same keys and ask for the same names. The section had no fault, and has none.
pub fn rows_are_patched()
    ensures { RowsArePatched }
{}
