//! Laws of what an edit makes of the problems that are found in a text.
ghost use Rattle.yl_problem_lists.specs.Following.{FaultComes, FaultGoes, PartsAreInOrder, PartsFollow, ReportIsInOrder, WithFaultIsInOrder};

/// A law: if the problems in the other lines stay, except for indentation that is judged again, a
/// patch of both lists gives the two lists of all problems after the edit.
pub fn parts_follow()
    ensures { PartsFollow }
{}

/// A law: if a fault is put into lists without one and then taken out, both lists are as before.
pub fn faults_go()
    ensures { FaultGoes }
{}

/// A law: the report of a fault among other findings is the report of these findings, with the
/// fault in its place.
pub fn faults_come()
    ensures { FaultComes }
{}

/// A law: a report is in order.
pub fn reports_are_in_order()
    ensures { ReportIsInOrder }
{}

/// A law: if a list is in order, both parts of it are in order, and the shown problems are still in
/// order after the text's fault is put in.
pub fn parts_stay_in_order()
    ensures parts { PartsAreInOrder }
    ensures fault { WithFaultIsInOrder }
{}
