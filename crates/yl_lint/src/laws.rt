//! Laws of reports.
ghost use Rattle.yl_lint.specs.Computed.{ReportIsComputed};
ghost use Rattle.yl_lint.specs.Laws.{HasReport, OneReport};
ghost use Rattle.yl_lint.specs.Onward.{SectionsLookBack, FirstSectionsLookBack, ShownLooksBack, FoundLooksBack, ReportLooksBack};
ghost use Rattle.yl_lint.specs.Unsilenced.{IsHeardOfText};

use yl_report::heard_reports;
use yl_sections::one_kept;

/// Laws: a text has exactly one report, which depends only on the derivations of its documents.
/// `computed` says that it is the report that is computed.
pub fn one_report()
    ensures has { HasReport }
    ensures one { OneReport }
    ensures computed { ReportIsComputed }
{
    one_kept();
}

/// A law: for any summaries of the sections of a text, its report consists of the problems that the
/// comments leave of the report that no comment silences.
pub fn heard_of_text()
    ensures { IsHeardOfText }
{
    heard_reports();
}

/// Laws: the indentation of a section depends only on the facts up to each position, and not on a
/// measure of the whole text. So the findings up to the first section with a fault do not depend on
/// the sections after it.
pub fn indentation_looks_back()
    ensures sections { SectionsLookBack }
    ensures first { FirstSectionsLookBack }
    ensures shown { ShownLooksBack }
    ensures found { FoundLooksBack }
    ensures report { ReportLooksBack }
{}
