//! Rows that are one section. No function here does anything.
ghost use Rattle.yl_pieces.specs.OneSection.{LastKindIsHeld, LastKindIsOfNext, RowsAreOneSection, RowsGoOnAsOneSection};

/// A law: rows without a fault, from the state at a document's start on, are one section: no other
/// document begins in them.
pub fn rows_are_one_section()
    ensures { RowsAreOneSection }
{}

/// A law: rows at a document's start without a fault and the rows after them, which have no fault
/// by the state between, are one section.
pub fn rows_go_on_as_one_section()
    ensures { RowsGoOnAsOneSection }
{}

/// Laws: the kind of the last lexeme of rows and of the rows after them is that of the latter, if
/// these have a lexeme (`next`). The state after rows holds it (`held`).
pub fn last_kind_is_told()
    ensures next { LastKindIsOfNext }
    ensures held { LastKindIsHeld }
{}
