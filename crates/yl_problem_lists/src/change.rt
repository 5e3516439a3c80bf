//! The problems that are found in a text, and what an edit makes of them.

use crate::showing::Showing;
use std::alloc::Allocator;
use yl_report::Problem;

/// All problems that are found in a text, in two lists. Both are in the order of a report.
#[derive(Drop)]
pub struct FoundProblems<A: Allocator> {
    /// The problems that the report shows. The text's fault, if it is shown, is one of them.
    pub shown: Vec<Problem<A>, A>,
    /// The problems that the report does not show.
    pub suppressed: Vec<Problem<A>, A>,
}

/// What an edit makes of the problems in some lines and in the lines below them.
#[derive(Drop)]
pub struct LinesPatch<A: Allocator> {
    /// The number of lines above the edited ones. The problems in these lines stay.
    pub first: u32,
    /// The number of lines down to the last edited one, before the edit. The problems in the lines
    /// after `first` up to this one are removed.
    pub old_end: u32,
    /// The number of lines down to the last edited one, after the edit. The problems below move up
    /// by `old_end` lines and down by `new_end` lines.
    pub new_end: u32,
    /// The problems in the edited lines that are shown after the edit.
    pub shown: Vec<Problem<A>, A>,
    /// The problems in the edited lines that are suppressed after the edit.
    pub suppressed: Vec<Problem<A>, A>,
    /// The problems of the rule indentation below the first `old_end` lines, if they are judged
    /// again. They replace those that were found there. Their lines are those before the edit.
    pub indentation: Option<Vec<Problem<A>, A>>,
    /// What is shown of the problems below, if that changes. If it is `None`, each of these
    /// problems stays in its list.
    pub below: Option<Showing<A>>,
    /// False only if no fault of the text was shown before the edit.
    pub had_fault: bool,
    /// The fault of the text after the edit, if it is shown.
    pub fault: Option<Problem<A>>,
}

/// What an edit makes of the problems that are found in a text.
#[derive(Drop)]
pub enum Change<A: Allocator> {
    /// All problems stay as they are.
    Stay,
    /// The problems of some lines are replaced, and those below may change.
    Patch(LinesPatch<A>),
}

/// The lists that a change needs beside the two lists of problems.
#[derive(Drop)]
pub struct Spare<A: Allocator> {
    /// An empty list with room for the problems that the change takes out and puts back.
    pub taken: Vec<Problem<A>, A>,
    /// A smaller list for the shown problems, if theirs would have far more room than they need.
    pub shown: Option<Vec<Problem<A>, A>>,
    /// A smaller list for the suppressed problems, if theirs would have far more room than they
    /// need.
    pub suppressed: Option<Vec<Problem<A>, A>>,
}
