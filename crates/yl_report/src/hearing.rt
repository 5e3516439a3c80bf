//! What a report contains after comments silence some of its problems.
ghost use Rattle.yl_report.specs.Heard.{IsHeard};

/// A law: a report consists of the problems that the comments leave of the report that no comment
/// silences.
pub fn heard_reports()
    ensures { IsHeard }
{}
