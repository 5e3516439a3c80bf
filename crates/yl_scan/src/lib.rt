//! Scans a text, row by row, into lexemes and comments.
//!
//! The definition of what a text consists of is `Entries` of yl_row. A `Scanner` carries what is in
//! progress from row to row. What it reports of a row, and then of the rows below, is what all rows
//! from that one on report (`specs/Output.antt`).
#![tactic(auto)]

ghost use Rattle.yl_scan.specs.Laws.{ScalarsCarry};
ghost use Rattle.yl_scan.specs.Restart.{PrefixLaw, ShiftLaw, CounterpartLaw, AboveLaw};
ghost use Rattle.yl_scan.specs.Resume.{ResumeLaw, RestartLaw, ConvergenceLaw};
ghost use Rattle.yl_scan.specs.Settled.{PutsLast, Settles, ToldInTurn, ToldMoves, ToldTells};
ghost use Rattle.yl_scan.specs.State.{EqualsExactly};

mod before;
mod comment;
mod feeding;
mod phase;
mod quiet;
mod room;
mod scanner;
mod state;
mod step;
mod whole;

pub use scanner::Scanner;
pub use state::{LineState, Standing};
pub use step::{FaultAbove, LexemeAbove, Soundness, Step};
pub use whole::{LineComment, LineFault, LineLexeme, ScannedText, scan};
pub use yl_lexeme::{Comment, Kind, Lexeme, LexemeAtLine, Meter, Style};
pub use yl_row::{PlacedScanFault, ScanFault};

/// A law: a scalar that is carried from row to row gives what it gives when it is read as a whole.
pub fn scalars_carry()
    ensures { ScalarsCarry }
{}

/// A law: what the rows from a sound row on consist of depends on the state of that row and on
/// these rows alone.
pub fn resume_law()
    ensures { ResumeLaw }
{}

/// A law: whether a row is sound, and its state, depend only on the rows up to and including it. If
/// it is sound, this holds for what the rows above it consist of, too.
pub fn prefix_law()
    ensures { PrefixLaw }
{}

/// A law: equal rows consist of the same in two texts, if the first of them is sound in both, with
/// the same state. If the state is that of a row below a fault, they consist of nothing.
pub fn shift_law()
    ensures { ShiftLaw }
{}

/// Laws: what an edited text consists of, by what the text before the edit consists of, and by what
/// is read again from a sound row above the edit on.
pub fn restart_law()
    ensures restart { RestartLaw }
    ensures convergence { ConvergenceLaw }
    ensures counterpart { CounterpartLaw }
    ensures above { AboveLaw }
{}

/// A law: two states compare as equal if and only if they are the same.
pub fn states_equal()
    ensures { EqualsExactly }
{}

/// Laws: what rows report is what the first of them report and then what the others report. Equal
/// rows report the same from sound rows with the same state on, at their own lines. What rows
/// report determines what they consist of, and the rows above all that is in progress are complete.
pub fn told_by_lines()
    ensures in_turn { ToldInTurn }
    ensures moves { ToldMoves }
    ensures tells { ToldTells }
    ensures settles { Settles }
    ensures puts_last { PutsLast }
{}
