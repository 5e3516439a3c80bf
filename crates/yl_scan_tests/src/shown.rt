//! Records as text.

use std::alloc::{AllocError, Allocator, Global};
use yl_lexeme::{Items, Kind, Lexeme};
use yl_record::Record;
use yl_scan::LineState;

fn show_levels<A: Allocator>(
    shown: &mut String,
    levels: Items<'_, u32, A>,
) -> Result<(), AllocError> {
    let mut levels = levels;
    for _i in 0..usize::MAX {
        match levels.next() {
            None => break,
            Some(level) => write!(shown, "{level},")?,
        }
    }
    shown.push(' ')
}

fn show_brackets<A: Allocator>(
    shown: &mut String,
    brackets: Items<'_, Kind, A>,
) -> Result<(), AllocError> {
    let mut brackets = brackets;
    for _i in 0..usize::MAX {
        match brackets.next() {
            None => break,
            Some(kind) => write!(shown, "{kind:?},")?,
        }
    }
    shown.push(' ')
}

/// The columns and the brackets, each from the innermost outwards, and the last lexeme's kind.
fn show_state<A: Allocator>(
    shown: &mut String,
    state: Option<&LineState<A>>,
) -> Result<(), AllocError> {
    let Some(state) = state else {
        return shown.push('-');
    };
    let Some(standing) = state.standing() else {
        return shown.push_str("stopped");
    };
    show_levels(shown, standing.levels.items())?;
    show_brackets(shown, standing.brackets.items())?;
    let last = standing.last;
    write!(shown, "{last:?}")
}

fn show_lexemes<A: Allocator>(shown: &mut String, lexemes: &[Lexeme<A>]) -> Result<(), AllocError> {
    for lexeme in lexemes {
        let kind = lexeme.kind();
        let start = lexeme.start().col;
        let down = lexeme.end().line;
        let end = lexeme.end().col;
        let value = lexeme.value();
        write!(shown, " {kind:?} {start} +{down}:{end} {value}\n")?;
    }
    Ok(())
}

/// A line with the row's leading spaces and its state, and one for each lexeme, comment and fault that begins in it.
pub(crate) fn show_record<A: Allocator>(
    shown: &mut String,
    record: &Record<A>,
) -> Result<(), AllocError> {
    let indentation = record.indentation();
    write!(shown, "Row {indentation} ")?;
    show_state(shown, record.state())?;
    shown.push('\n')?;
    show_lexemes(shown, record.lexemes())?;
    if let Some(comment) = record.comment() {
        let col = comment.col();
        let text = comment.text();
        write!(shown, " Comment {col} {text}\n")?;
    }
    if let Some(placed) = record.fault() {
        let fault = placed.fault;
        let down = placed.down;
        let column = placed.column;
        write!(shown, " Fault {fault:?} +{down}:{column}\n")?;
    }
    Ok(())
}

/// Records, each with a line for each thing that begins in its row.
pub(crate) fn show_records<A: Allocator>(
    shown: &mut String,
    records: &[Record<A>],
) -> Result<(), AllocError> {
    for record in records {
        show_record(shown, record)?;
    }
    Ok(())
}

/// The same as a text of its own.
pub(crate) fn shown<A: Allocator>(
    global: Global,
    records: &[Record<A>],
) -> Result<String, AllocError> {
    let mut shown = String::new(global);
    show_records(&mut shown, records)?;
    Ok(shown)
}
