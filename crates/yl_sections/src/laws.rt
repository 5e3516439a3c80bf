//! Laws of sections. No function here does anything.
ghost use Rattle.yl_sections.specs.Documents.{SectionsAreDocuments};
ghost use Rattle.yl_sections.specs.Front.{LostLaw};
ghost use Rattle.yl_sections.specs.Last.{LastLaw, StoppedLaw};
ghost use Rattle.yl_sections.specs.Local.{SectionsAreLocal, SectionsAreRows};
ghost use Rattle.yl_sections.specs.Judge.{KeptIsComputed};
ghost use Rattle.yl_sections.specs.Laws.{FirstSection, OneKept};

/// Laws: a section has exactly one summary. `computed` says that it is the one that is computed.
pub fn one_kept()
    ensures computed { KeptIsComputed }
    ensures one { OneKept }
{}

/// A law: `section_len` returns the number of rows of the first section, and the other sections are
/// those of the rows after it.
pub fn first_section()
    ensures { FirstSection }
{}

/// Laws: the rows of the sections of a text, one after another, are all its rows. If rows are
/// replaced between two places at which sections begin before and after the edit, or the text
/// begins or ends, then the sections above and below these rows stay the same.
pub fn sections_are_local()
    ensures rows { SectionsAreRows }
    ensures local { SectionsAreLocal }
{}

/// A law: the documents of the sections of a text are those of all its lexemes.
pub fn sections_are_documents()
    ensures { SectionsAreDocuments }
{}

/// Laws: the state of a sound row has the kind of the last lexeme above it, or says that no lexeme
/// follows.
pub fn states_tell_kinds()
    ensures last { LastLaw }
    ensures stopped { StoppedLaw }
{}

/// A law: if an edit below a sound row makes a section begin with that row, then no lexeme and no
/// comment began from that row on before the edit.
pub fn lost_rows()
    ensures { LostLaw }
{}
