//! A law that ties the problems of a text to its report.
ghost use Rattle.yl_found.specs.Law.{ReportIsShown};

/// A law: the report of a text is the list of the problems that are shown, with the text's fault in
/// its place.
pub fn report_is_shown()
    ensures { ReportIsShown }
{}
