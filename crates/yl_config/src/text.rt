//! The lexemes of a text, and the positions of its scan fault and of its end.
ghost use Rattle.std.specs.Prelude.{◌≡◌, ◌<◌, ◌-◌, ◌^◌, All, IfOk, length, map, option_map};
ghost use Rattle.std.specs.Str.{chars};
ghost use Rattle.yl_marks.specs.Keys.{lexeme_at_line};
ghost use Rattle.yl_scan.specs.Step.{characters_of};
ghost use Rattle.yl_scan.specs.Whole.{fault_of, lexeme_in};
ghost use Rattle.yl_config.specs.TextReading.{end_of, lexeme_in_text, place_of_fault};

use std::alloc::{AllocError, Allocator};
use yl_lexeme::LexemeAtLine;
use yl_scan::{LineFault, LineLexeme};
use yl_text::{Pos, Row};

/// Returns the lexemes with their lines. The only error is out of memory.
pub fn in_text<'a, A: Allocator + Copy>(
    alloc: A,
    lexemes: &'a [LineLexeme<A>],
) -> Result<Vec<LexemeAtLine<'a, A>, A>, AllocError>
    ensures { IfOk result (λ v. map (λ x. lexeme_at_line x.line x.lexeme.now) v.items ≡ map lexeme_in_text (map lexeme_in lexemes.now)) }
{
    let mut all = Vec::with_capacity(alloc, lexemes.len())?;
    for lexeme in lexemes {
        all.push(LexemeAtLine {
            line: lexeme.line,
            lexeme: &lexeme.lexeme,
        })?;
    }
    Ok(all)
}

/// Returns the position of a scan fault. Returns `AllocError` if a `Pos` cannot represent it. No
/// text has such a fault.
fn place_of(fault: LineFault) -> Result<Pos, AllocError>
    ensures { IfOk result (λ place. place ≡ place_of_fault (fault.line, fault.fault)) }
{
    let line = u64::from(fault.line).saturating_add(fault.fault.down as u64);
    match (u32::try_from(line), u32::try_from(fault.fault.column)) {
        (Ok(line), Ok(col)) => Ok(Pos { line, col }),
        _ => Err(AllocError),
    }
}

/// Returns the position of the scan fault, if there is one. Returns `AllocError` if a `Pos` cannot
/// represent it. No text has such a fault.
pub fn place_of_scan_fault(fault: Option<LineFault>) -> Result<Option<Pos>, AllocError>
    ensures { IfOk result (λ place. place ≡ option_map place_of_fault (fault_of fault)) }
{
    match fault {
        None => Ok(None),
        Some(fault) => match place_of(fault) {
            Ok(place) => Ok(Some(place)),
            Err(error) => Err(error),
        },
    }
}

/// Returns the number of characters of a line.
fn width_of(text: &str) -> usize
    ensures { result ≡ length (chars text.now) }
{
    text.chars().count()
}

/// Returns the position after the last character of these lines. Its line and its column count from
/// 0, and the column counts characters.
#[tactic(auto, using(crate::proofs::Ends::short_at, crate::proofs::Ends::ends_at, crate::proofs::Ends::ends_nowhere))]
pub fn end_of<A: Allocator>(rows: &[Row<A>]) -> Pos
    requires few { length rows.now < 2 ^ 32 - 1 }
    requires fits { All (λ row. length (chars row.text) < 2 ^ 31) rows.now }
    ensures { result ≡ end_of (characters_of rows.now) }
{
    let line = rows.len().saturating_sub(1);
    match rows.get(line) {
        None => Pos {
            line: line as u32,
            col: 0,
        },
        Some(row) => Pos {
            line: line as u32,
            col: width_of(row.as_str()) as u32,
        },
    }
}
