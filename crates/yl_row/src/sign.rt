//! Lexemes of one character: the indicators of block collections (YAML 1.2.2, 8.2) and of flow
//! collections (7.4).

ghost use Rattle.std.specs.Prelude.{◌≡◌, not, if◌then◌else◌, IfSome, Some, None, false};
ghost use Rattle.std.specs.Bool.{then_some};
ghost use Rattle.std.specs.Option.{option_map_or};
ghost use Rattle.yl_row.specs.declared.fault.ScanFault.TheVariants.{BracketWithoutPartner, ValueNotAllowed};
ghost use Rattle.yl_row.specs.Entries.{ends_document};
ghost use Rattle.yl_row.specs.Fault.{fault_at};
ghost use Rattle.yl_lexeme.specs.Known.{context_of};
ghost use Rattle.yl_lexeme.specs.Past.{in_flow, near};
ghost use Rattle.yl_lexeme.specs.Surroundings.{surroundings_value};
ghost use Rattle.yl_row.specs.Sign.{refused, sign_at, sign_fault};
ghost use Rattle.yl_row.specs.Step.{tab_before, place_fault, closes, is_value_at, is_quoted_or_closing};

use crate::fault::{PlacedScanFault, ScanFault, or_else, when};
use crate::word::{is_flow_indicator_next, is_space_next};
use std::alloc::Allocator;
use yl_lexeme::{Kind, Style, Surroundings, near};

/// Returns the fault of the first tab of the row, if the tab is before `column`.
fn tab_before(tab: Option<usize>, column: usize) -> Option<PlacedScanFault>
    ensures { result ≡ tab_before tab column }
{
    match tab {
        None => None,
        Some(tab) => when(tab < column, ScanFault::TabInIndentation, tab),
    }
}

/// Returns the fault, or `None` if a bracket is open.
fn in_block<A: Allocator + Copy>(
    surroundings: &Surroundings<'_, A>,
    fault: Option<PlacedScanFault>,
) -> Option<PlacedScanFault>
    ensures { result ≡ (if in_flow (context_of (surroundings_value surroundings.now)) then None else fault) }
{
    if surroundings.in_flow() { None } else { fault }
}

/// Returns the fault of the first tab of the row, if the tab is before the position `at`, this is
/// the first one of the row that is not white space, and no bracket is open.
pub fn place_fault<A: Allocator + Copy>(
    surroundings: &Surroundings<'_, A>,
    tab: Option<usize>,
    first: bool,
    at: usize,
) -> Option<PlacedScanFault>
    ensures { result ≡ place_fault tab first at (context_of (surroundings_value surroundings.now)) }
{
    if first {
        in_block(surroundings, tab_before(tab, at))
    } else {
        None
    }
}

/// Returns whether the innermost open bracket is `[`, if `sequence` is set, or else `{`. Returns
/// `false` if no bracket is open.
fn closes<A: Allocator + Copy>(sequence: bool, surroundings: &Surroundings<'_, A>) -> bool
    ensures { result ≡ closes sequence (context_of (surroundings_value surroundings.now)).brackets }
{
    match surroundings.brackets.top() {
        None => false,
        Some(Kind::SeqOpen) => sequence,
        Some(_) => !sequence,
    }
}

/// Returns the fault of a closing bracket whose kind is not that of the innermost open bracket.
/// `sequence` says whether it is `]`.
fn unpaired<A: Allocator + Copy>(
    sequence: bool,
    at: usize,
    surroundings: &Surroundings<'_, A>,
) -> Option<PlacedScanFault>
    ensures { result ≡ then_some (not (closes sequence (context_of (surroundings_value surroundings.now)).brackets)) (fault_at BracketWithoutPartner at) }
{
    when(
        !closes(sequence, surroundings),
        ScanFault::BracketWithoutPartner,
        at,
    )
}

/// Returns whether it is a quoted scalar or a closing bracket.
fn is_quoted_or_closing(last: Option<Kind>) -> bool
    ensures { result ≡ is_quoted_or_closing last }
{
    match last {
        Some(Kind::Scalar(Style::Single | Style::Double) | Kind::SeqClose | Kind::MapClose) => true,
        _ => false,
    }
}

/// Returns whether a colon is the indicator of a value. `flow` says whether a bracket is open,
/// `last` is the kind of the lexeme before the colon, and `rest` is the text after it.
fn is_value_at(flow: bool, last: Option<Kind>, rest: &[char]) -> bool
    ensures { result ≡ is_value_at flow last rest.now }
{
    is_space_next(rest) || (flow && (is_flow_indicator_next(rest) || is_quoted_or_closing(last)))
}

/// Returns the kind of the lexeme of one character at a position, if there is such a lexeme. The
/// character is `c`, and `rest` is the text of the row after it.
pub fn sign_at<A: Allocator + Copy>(
    surroundings: &Surroundings<'_, A>,
    c: char,
    rest: &[char],
) -> Option<Kind>
    ensures kind { result ≡ sign_at (context_of (surroundings_value surroundings.now)) c rest.now }
    ensures inside { IfSome result (λ kind. ends_document kind ≡ false) }
{
    match c {
        '-' if is_space_next(rest) => Some(Kind::Entry),
        '?' if is_space_next(rest) => Some(Kind::Key),
        ':' if is_value_at(surroundings.in_flow(), surroundings.last, rest) => Some(Kind::Value),
        '[' => Some(Kind::SeqOpen),
        '{' => Some(Kind::MapOpen),
        ']' => Some(Kind::SeqClose),
        '}' => Some(Kind::MapClose),
        ',' => Some(Kind::Comma),
        _ => None,
    }
}

/// Returns the fault in a value at the column `at`, outside of brackets. `tab` is the column of the
/// first tab of the row, and `first` says whether the value is the first lexeme of the row.
fn value_fault<A: Allocator + Copy>(
    surroundings: &Surroundings<'_, A>,
    tab: Option<usize>,
    first: bool,
    at: usize,
) -> Option<PlacedScanFault>
    ensures { result ≡ option_map_or (tab_before tab) (near at (context_of (surroundings_value surroundings.now)).start) (refused tab first at (context_of (surroundings_value surroundings.now)) ValueNotAllowed) }
{
    match near(at, surroundings.unit.start()) {
        Some(key) => tab_before(tab, key),
        None => {
            let refused = when(
                !surroundings.may_begin(first),
                ScanFault::ValueNotAllowed,
                at,
            );
            or_else(tab_before(tab, at), refused)
        }
    }
}

/// Returns the fault in a lexeme of one character, of this kind and at the column `at`. `tab` is
/// the column of the first tab of the row, and `first` says whether the lexeme is the first one of
/// the row.
pub fn sign_fault<A: Allocator + Copy>(
    surroundings: &Surroundings<'_, A>,
    tab: Option<usize>,
    first: bool,
    at: usize,
    kind: Kind,
) -> Option<PlacedScanFault>
    ensures { result ≡ sign_fault tab first at (context_of (surroundings_value surroundings.now)) kind }
{
    match kind {
        Kind::Entry => {
            let flow = surroundings.in_flow();
            let refused = flow || !surroundings.may_begin(first);
            let refused = when(refused, ScanFault::EntryNotAllowed, at);
            or_else(in_block(surroundings, tab_before(tab, at)), refused)
        }
        Kind::Key => {
            let refused = when(!surroundings.may_begin(first), ScanFault::KeyNotAllowed, at);
            in_block(surroundings, or_else(tab_before(tab, at), refused))
        }
        Kind::Value => in_block(surroundings, value_fault(surroundings, tab, first, at)),
        Kind::SeqClose => unpaired(true, at, surroundings),
        Kind::MapClose => unpaired(false, at, surroundings),
        Kind::Comma => when(!surroundings.in_flow(), ScanFault::NotAllowed, at),
        _ => None,
    }
}
