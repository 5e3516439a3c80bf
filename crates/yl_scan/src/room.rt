//! The list into which the lexemes of a row are read.

ghost use Rattle.std.specs.Prelude.{◌≡◌, ◌≤◌, IfOk};

use std::alloc::{AllocError, Allocator};
use std::mem;
use yl_lexeme::Lexeme;

/// The list into which the lexemes of a row are read.
#[derive(Drop)]
pub struct Room<A: Allocator> {
    /// The lexemes.
    pub lexemes: Vec<Lexeme<A>, A>,
    /// Whether the caller gives lists back, so that their capacity is used again.
    pub comes_back: bool,
}

/// Moves the lexemes into another list, whose capacity fits them and `late` more. The empty list
/// keeps its capacity. The only error is out of memory.
fn fitted<A: Allocator + Copy>(
    alloc: A,
    list: &mut Vec<Lexeme<A>, A>,
    late: usize,
) -> Result<Vec<Lexeme<A>, A>, AllocError>
    requires { late ≤ 1 }
    ensures { IfOk result (λ lexemes. lexemes.items ≡ list.old.items) }
{
    let mut lexemes = Vec::with_capacity(alloc, list.len() + late)?;
    lexemes.append(list)?;
    Ok(lexemes)
}

/// Returns the lexemes of the row that was read. If the caller gives lists back, they are in the
/// list itself, and else in a list whose capacity fits them and `late` more. The only error is out
/// of memory.
#[inline(always)]
pub fn read_lexemes<A: Allocator + Copy>(
    alloc: A,
    room: &mut Room<A>,
    late: usize,
) -> Result<Vec<Lexeme<A>, A>, AllocError>
    requires { late ≤ 1 }
    ensures { IfOk result (λ lexemes. lexemes.items ≡ room.old.lexemes.items) }
{
    if room.lexemes.is_empty() {
        return Ok(Vec::new(alloc));
    }
    if room.comes_back {
        return Ok(mem::replace(&mut room.lexemes, Vec::new(alloc)));
    }
    fitted(alloc, &mut room.lexemes, late)
}
