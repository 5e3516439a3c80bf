//! The report of a text whose sections are kept in pieces. The function here does nothing.
ghost use Rattle.yl_piece_reports.specs.Laws.{PiecesReport};

/// A law: where the sections of a text are kept in pieces, each whole or cut, the summaries of the
/// pieces make the report that those of the sections make.
pub fn pieces_report()
    ensures { PiecesReport }
{}
