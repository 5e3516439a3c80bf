//! The record of a row.

ghost use Rattle.std.specs.Prelude.{◌≡◌, ◌<◌, ◌^◌, ◌++◌, ◌∷◌, [], ℕ, List, None, Some, true, false, IfOk, OnOk, length};
ghost use Rattle.std.specs.Str.{chars};
ghost use Rattle.yl_text.specs.Character.{indentation, is_blank, is_white};
ghost use Rattle.yl_row.specs.Entries.{Stopped};
ghost use Rattle.yl_record.specs.Beside.{comment_beside, fault_beside, indentation_beside, state_beside};
ghost use Rattle.yl_record.specs.Parts.{entry_with_last, entry_with_fault};
ghost use Rattle.yl_record.specs.Recorded.{records_from};

use crate::white::{is_blank, spaces_before};
use std::alloc::{AllocError, Allocator};
use std::marker::Model;
use std::mem;
use yl_lexeme::{Comment, Lexeme};
use yl_row::PlacedScanFault;
use yl_scan::LineState;

/// The parts of a record that few rows have.
#[derive(Drop)]
pub struct Extra<A: Allocator> {
    /// The comment that begins in the row.
    pub comment: Option<Comment<A>>,
    /// The scan fault of the lexeme that begins in the row.
    pub fault: Option<PlacedScanFault>,
}

/// What a record has besides its lexemes. One enum has all these fields, so that its tag takes
/// bytes next to the indentation that are otherwise unused.
#[derive(Drop)]
enum Beside<A: Allocator> {
    /// Neither a state nor an extra.
    Alone {
        indentation: u32,
    },
    /// A state.
    WithState {
        indentation: u32,
        state: LineState<A>,
    },
    /// An extra.
    WithExtra {
        indentation: u32,
        extra: Box<Extra<A>, A>,
    },
    /// A state and an extra.
    WithBoth {
        indentation: u32,
        state: LineState<A>,
        extra: Box<Extra<A>, A>,
    },
}

/// The record of a row: its state if it is sound, the lexemes and the comment that begin in it,
/// with positions relative to the row, the scan fault of the lexeme that begins in it, and the
/// number of spaces at its start.
#[derive(Drop)]
pub struct Record<A: Allocator> {
    /// The lexemes that begin in the row, in order.
    lexemes: Vec<Lexeme<A>, A>,
    /// What the record has besides them.
    beside: Beside<A>,
}

impl<A: Allocator> Model for Record<A> {
    ghost use Rattle.yl_record.specs.Records.{RecordValue};
    ghost use Rattle.yl_record.specs.Beside.{comment_beside, fault_beside, indentation_beside, state_beside};

    ghost Value = { RecordValue };

    ghost view = { λ r. record {
      indentation = indentation_beside r.beside;
      entry = record { state = state_beside r.beside; lexemes = r.lexemes.items; comment = comment_beside r.beside; fault = fault_beside r.beside };
    } };
}

impl<A: Allocator> Record<A> {
    ghost use Rattle.std.specs.Prelude.{◌≡◌, option_map};

    /// Returns the state of the row, if the row is sound and states are wanted.
    pub fn state(&self) -> Option<&LineState<A>>
        ensures { option_map (λ s. s.now) result ≡ self.now.entry.state }
    {
        match &self.beside {
            Beside::Alone { .. } => None,
            Beside::WithState { state, .. } => Some(state),
            Beside::WithExtra { .. } => None,
            Beside::WithBoth { state, .. } => Some(state),
        }
    }

    /// Returns the lexemes that begin in the row, in order.
    pub fn lexemes(&self) -> &[Lexeme<A>]
        ensures { result.now ≡ self.now.entry.lexemes }
    {
        self.lexemes.as_slice()
    }

    /// Returns the comment that begins in the row, if there is one.
    pub fn comment(&self) -> Option<&Comment<A>>
        ensures { option_map (λ c. c.now) result ≡ self.now.entry.comment }
    {
        match &self.beside {
            Beside::Alone { .. } => None,
            Beside::WithState { .. } => None,
            Beside::WithExtra { extra, .. } => extra.comment.as_ref(),
            Beside::WithBoth { extra, .. } => extra.comment.as_ref(),
        }
    }

    /// Returns the scan fault of the text, if the lexeme that it interrupts begins in the row. Its
    /// position is relative to the row.
    pub fn fault(&self) -> Option<PlacedScanFault>
        ensures { result ≡ self.now.entry.fault }
    {
        match &self.beside {
            Beside::Alone { .. } => None,
            Beside::WithState { .. } => None,
            Beside::WithExtra { extra, .. } => extra.fault,
            Beside::WithBoth { extra, .. } => extra.fault,
        }
    }

    /// Returns the number of spaces at the start of the row.
    pub fn indentation(&self) -> u32
        ensures { result ≡ self.now.indentation }
    {
        match &self.beside {
            Beside::Alone { indentation } => *indentation,
            Beside::WithState { indentation, .. } => *indentation,
            Beside::WithExtra { indentation, .. } => *indentation,
            Beside::WithBoth { indentation, .. } => *indentation,
        }
    }
}

impl<A: Allocator + Copy> Record<A> {
    /// Creates the record of a row below a fault, at which reading has stopped. Reads only whether
    /// the row is blank, and the number of spaces at its start. Allocates nothing.
    pub fn unread(alloc: A, text: &str) -> Record<A>
        requires { length (chars text.now) < 2 ^ 31 }
        ensures { (rows : List (List ℕ)) → records_from Stopped (chars text.now ∷ rows) ≡ result ∷ records_from Stopped rows }
    {
        let state = if is_blank(text) {
            None
        } else {
            Some(LineState::stopped())
        };
        Record {
            lexemes: Vec::new(alloc),
            beside: beside_of(spaces_before(text), state),
        }
    }
}

/// Returns an indentation with a state, if there is one.
fn beside_of<A: Allocator>(indentation: u32, state: Option<LineState<A>>) -> Beside<A>
    ensures indentation { indentation_beside result ≡ indentation }
    ensures state { state_beside result ≡ state }
    ensures comment { comment_beside result ≡ None }
    ensures fault { fault_beside result ≡ None }
{
    match state {
        None => Beside::Alone { indentation },
        Some(state) => Beside::WithState { indentation, state },
    }
}

/// Returns the value with `extra` in place of its own extra, if it has one.
fn with_extra<A: Allocator>(beside: Beside<A>, extra: Box<Extra<A>, A>) -> Beside<A>
    ensures indentation { indentation_beside result ≡ indentation_beside beside }
    ensures state { state_beside result ≡ state_beside beside }
    ensures comment { comment_beside result ≡ extra.value.comment }
    ensures fault { fault_beside result ≡ extra.value.fault }
{
    match beside {
        Beside::Alone { indentation } => Beside::WithExtra { indentation, extra },
        Beside::WithState { indentation, state } => Beside::WithBoth {
            indentation,
            state,
            extra,
        },
        Beside::WithExtra { indentation, .. } => Beside::WithExtra { indentation, extra },
        Beside::WithBoth {
            indentation,
            state,
            ..
        } => Beside::WithBoth {
            indentation,
            state,
            extra,
        },
    }
}

/// Returns the record of a row, without its fault and without a scalar that ends in a row below.
/// Keeps the capacity of `lexemes`. A scanner to which no list is given back makes it fit the
/// lexemes and that scalar. The only error is out of memory.
pub fn record_of<A: Allocator + Copy>(
    alloc: A,
    indentation: u32,
    state: Option<LineState<A>>,
    lexemes: Vec<Lexeme<A>, A>,
    comment: Option<Comment<A>>,
) -> Result<Record<A>, AllocError>
    ensures { IfOk result (λ r. r ≡ record { indentation = indentation; entry = record { state = state; lexemes = lexemes.items; comment = comment; fault = None } }) }
{
    let beside = beside_of(indentation, state);
    let Some(comment) = comment else {
        return Ok(Record { lexemes, beside });
    };
    let extra = Extra {
        comment: Some(comment),
        fault: None,
    };
    let beside = with_extra(beside, Box::new(alloc, extra)?);
    Ok(Record { lexemes, beside })
}

/// Appends a lexeme to a record. The only error is out of memory.
pub fn push_lexeme<A: Allocator>(row: &mut Record<A>, lexeme: Lexeme<A>) -> Result<(), AllocError>
    ensures { OnOk result (row.new ≡ record { indentation = row.old.indentation; entry = entry_with_last lexeme row.old.entry }) }
{
    row.lexemes.reserve_exact(1)?;
    row.lexemes.push(lexeme)?;
    Ok(())
}

/// Sets the fault if the value has an extra. Returns whether it has one.
fn fault_is_set<A: Allocator>(beside: &mut Beside<A>, fault: PlacedScanFault) -> bool
    ensures indentation { indentation_beside beside.new ≡ indentation_beside beside.old }
    ensures state { state_beside beside.new ≡ state_beside beside.old }
    ensures comment { comment_beside beside.new ≡ comment_beside beside.old }
    ensures fault { result ≡ true → fault_beside beside.new ≡ Some fault }
    ensures missing { result ≡ false → comment_beside beside.old ≡ None }
{
    match beside {
        Beside::Alone { .. } => false,
        Beside::WithState { .. } => false,
        Beside::WithExtra { extra, .. } => {
            extra.fault = Some(fault);
            true
        }
        Beside::WithBoth { extra, .. } => {
            extra.fault = Some(fault);
            true
        }
    }
}

/// Sets the fault of a record. The only error is out of memory.
pub fn set_fault<A: Allocator>(
    alloc: A,
    row: &mut Record<A>,
    fault: PlacedScanFault,
) -> Result<(), AllocError>
    ensures { OnOk result (row.new ≡ record { indentation = row.old.indentation; entry = entry_with_fault fault row.old.entry }) }
{
    if fault_is_set(&mut row.beside, fault) {
        return Ok(());
    }
    let extra = Extra {
        comment: None,
        fault: Some(fault),
    };
    let extra = Box::new(alloc, extra)?;
    let beside = mem::replace(&mut row.beside, Beside::Alone { indentation: 0 });
    row.beside = with_extra(beside, extra);
    Ok(())
}
