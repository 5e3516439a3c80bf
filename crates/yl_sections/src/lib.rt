//! The sections of a text: the runs of its rows that hold one document each. Each section has a
//! summary.
//!
//! A section is judged by itself, with lines counted from its first row. The report of a text
//! depends on the summaries of its sections up to the first one with a fault.
#![tactic(auto)]

mod comments;
mod comparing;
mod document_judge;
mod fault;
mod front;
mod judging;
mod kept;
mod laws;
mod places;
mod row_judge;
mod row_reader;
mod row_rules;
mod rules;
mod section_judge;
mod sections;
mod starts;
mod state;

pub use comments::{LexemeEnd, column_in, last_end};
pub use comparing::are_same_findings;
pub use fault::SectionFault;
pub use front::kept_of_front;
pub use judging::{SectionsJudge, judge_all};
pub use kept::{Kept, KeptComment};
pub use laws::{
    first_section, lost_rows, one_kept, sections_are_documents, sections_are_local,
    states_tell_kinds,
};
pub use places::{Place, section_of};
pub use row_judge::RowJudge;
pub use rules::{comments_found, is_on, options_if, tree_options};
pub use section_judge::{SectionJudge, start_of};
pub use sections::{is_section_start, last_kind, section_len};
pub use starts::{is_start_at, kind_before};
pub use state::DocumentState;
