//! Texts as rows of lexemes.
use std::alloc::{AllocError, Allocator};
use yl_lexeme::{Lexeme, Meter};
use yl_scan::{LineLexeme, ScannedText, scan};
use yl_text::{Row, lines_are_few_and_short, split};

/// A row of a text.
#[derive(Drop)]
pub(crate) struct TextRow<A: Allocator> {
    /// The number of spaces at the start of the row.
    pub(crate) indentation: u32,
    /// Whether the row is sound.
    pub(crate) is_sound: bool,
    /// The lexemes that begin in the row.
    pub(crate) lexemes: Vec<Lexeme<A>, A>,
}

/// Returns the number of spaces at the start of a row.
fn spaces_before(text: &str) -> u32 {
    let mut count = 0u32;
    for byte in text.bytes() {
        if byte != b' ' {
            break;
        }
        count = count.saturating_add(1);
    }
    count
}

/// Returns the rows of a text, without lexemes. `sound` says which rows are sound. The only error
/// is out of memory.
fn bare_rows<A: Allocator + Copy>(
    alloc: A,
    rows: &[Row<A>],
    sound: &[bool],
) -> Result<Vec<TextRow<A>, A>, AllocError> {
    let mut bare = Vec::new(alloc);
    for (row, is_sound) in rows.iter().zip(sound) {
        bare.push(TextRow {
            indentation: spaces_before(row.as_str()),
            is_sound: *is_sound,
            lexemes: Vec::new(alloc),
        })?;
    }
    Ok(bare)
}

/// Returns the rows of a text. The only error is out of memory, which also stands for a text that
/// is too large.
pub(crate) fn rows_of<A: Allocator + Copy>(
    alloc: A,
    text: &str,
) -> Result<Vec<TextRow<A>, A>, AllocError> {
    let Ok(rows) = split(alloc, text.as_bytes()) else {
        return Err(AllocError);
    };
    lines_are_few_and_short();
    let scanned = scan(alloc, &rows, &mut Meter::new())?;
    let ScannedText { lexemes, sound, .. } = scanned;
    let mut told = bare_rows(alloc, &rows, &sound)?;
    for LineLexeme { line, lexeme } in lexemes {
        if let Some(row) = told.get_mut(line as usize) {
            row.lexemes.push(lexeme)?;
        }
    }
    Ok(told)
}
