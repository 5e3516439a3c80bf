//! The lines of a text: rows, stores of rows, edits and findings. Also readers and writers that
//! count their failures, and strings that can store a short text in the value itself.
#![tactic(auto)]

ghost use Rattle.yl_text.specs.Edit.{EditHasOneFault, EditHasNoFaultBeside, EditHasFaultOrNone};
ghost use Rattle.yl_text.specs.PutLines.{EditIsSplice};
ghost use Rattle.yl_text.specs.Lines.{OneList, IsLinesOf};

mod bounds;
mod decode;
mod device;
mod edit;
mod fault;
mod finding;
mod inline_string;
mod patched;
mod places;
mod plain_store;
mod position;
mod row;
mod special;
mod splitting;
mod store;

pub use bounds::{lines_are_few_and_short, rows_fit};
pub use decode::{characters, characters_of};
pub use device::Watched;
pub use edit::bytes_between;
pub use fault::TextFault;
pub use finding::{Finding, RuleId};
pub use inline_string::{InlineString, ShortText, Storage};
pub use patched::Patched;
pub use places::{LineEdit, are_one_place, line_edit};
pub use plain_store::{PlainStore, bytes_of, put_between};
pub use position::Pos;
pub use row::{Break, Row};
pub use special::first_special;
pub use splitting::{FirstLine, cut_line, split};
pub use store::{LineStore, Lines};

/// The maximum number of bytes of a text (64 MiB).
pub const MAX_BYTES: usize = 67_108_864;

/// A law: a text has exactly one list of lines.
pub fn one_list_of_lines()
    ensures unique { OneList }
    ensures exists { IsLinesOf }
{}

/// Laws of edits: an edit made by whole lines results in the lines of the edited text. An edit
/// either can be made or has exactly one fault.
pub fn one_answer_to_an_edit()
    ensures splice { EditIsSplice }
    ensures one_fault { EditHasOneFault }
    ensures not_both { EditHasNoFaultBeside }
    ensures fault_or_none { EditHasFaultOrNone }
{}
