//! The rule `indentation`: where the first lexemes of lines are expected, and the problems of those
//! that stand elsewhere.
//!
//! The definition, `specs/Facts.antt`, looks back over the lexemes and marks before a place. The
//! code keeps the collections that are open (`specs/Context.antt`). `FactReader` reads a document
//! line by line, each line from its own lexemes alone (`specs/SymbolFacts.antt` and
//! `specs/LineFacts.antt`). A `FactReaderState` contains what a reader holds before a row, and a
//! reader resumes from it (`specs/FactsAlike.antt`). A `Measure` contains what the facts of a text
//! decide for all its documents.
#![tactic(auto)]

ghost use Rattle.yl_indentation.specs.Laws.{MeasureIsLocal, ProblemsAreByDocuments, FactsCountEntriesOnceSeen, BothCountEntriesOnceSeen, FindingLooksBack, ProblemsLookBack, ProblemsOfSomeLookBack, TextProblemsGoOnward, TextProblemsLookBack};

mod alike;
mod context;
mod element;
mod expected;
mod fact;
mod fact_reader;
mod fact_reader_state;
mod facts;
mod measure;
mod options;
mod problems;

pub use alike::are_judged_alike;
pub use fact::{Expectation, Fact};
pub use fact_reader::{FactReader, facts_are_alike, facts_are_by_symbols};
pub use fact_reader_state::FactReaderState;
pub use facts::indent_facts;
pub use measure::Measure;
pub use options::{IndentSequences, IndentationOptions, Spaces};
pub use problems::indent_problems;

/// A law: the measure of two lists of facts, one after the other, is the measure of the earlier
/// list joined with that of the later list.
pub fn measure_is_local()
    ensures { MeasureIsLocal }
{}

/// A law: the problems of a text are those of its documents, one after another. Those of each
/// depend on its facts, the measure of the earlier documents, and the measure of all documents.
pub fn problems_are_by_documents()
    ensures { ProblemsAreByDocuments }
{}

/// Laws: the measure of the whole text is never needed. What is found at a place, and so the
/// problems of facts, depends only on the measure of the facts up to it, and not on the facts after
/// it.
pub fn problems_look_back()
    ensures facts { FactsCountEntriesOnceSeen }
    ensures both { BothCountEntriesOnceSeen }
    ensures finding { FindingLooksBack }
    ensures onward { ProblemsLookBack }
    ensures some { ProblemsOfSomeLookBack }
    ensures whole { TextProblemsGoOnward }
    ensures text { TextProblemsLookBack }
{}
