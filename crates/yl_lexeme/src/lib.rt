//! Lexemes, and the context that the lexemes before a position give: the columns of the open block
//! collections, the open brackets, and where a key may begin (YAML 1.2.2, 6.1, 7.4 and 8.2).
//!
//! The definition, `specs/Past.antt`, looks back over all lexemes before a position. The code keeps
//! `Surroundings` instead. `specs/Keys.antt` defines which of the latest lexemes of a line may be a
//! key. `KeyUnit` keeps this for the scanner and for the marks of a document.
#![tactic(auto)]

ghost use Rattle.yl_lexeme.specs.Laws.{KeptSuffices, UnitSuffices};

mod blocks;
mod columns;
mod lexeme;
mod meter;
mod placed;
mod short_stack;
mod stack;
mod surroundings;
mod unit;
mod version;

pub use blocks::Items;
pub use columns::columns_are_open;
pub use lexeme::{Comment, Kind, Lexeme, LexemeAtLine, Style};
pub use meter::Meter;
pub use placed::PlacedComment;
pub use short_stack::{KeptStack, ShortStack};
pub use surroundings::{BracketStack, ColumnStack, Surroundings, is_near, near};
pub use unit::KeyUnit;

/// A law: `Surroundings` hold what looking back over the lexemes before a position finds.
pub fn surroundings_suffice()
    ensures { KeptSuffices }
{}

/// A law: `KeyUnit` holds the position at which a key begins, as looking back over the line finds
/// it.
pub fn unit_suffices<T: Copy>()
    ensures { UnitSuffices T }
{}
