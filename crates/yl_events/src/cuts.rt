//! Where documents begin.

ghost use Rattle.std.specs.Prelude.{◌≡◌, ◌||◌, ◌&&◌, not, IfOk, map};
ghost use Rattle.yl_events.specs.Documents.{is_document_end, is_document_start, is_directive, beginnings};
ghost use Rattle.yl_events.specs.Cut.{is_beginning};

use std::alloc::{AllocError, Allocator};
use yl_lexeme::{Kind, LexemeAtLine};

/// Returns whether a document ends with a lexeme of this kind. `is_marked` says whether the lexemes
/// after it begin with a marker `---`, or with directives and then one.
fn ends_document(kind: Kind, is_marked: bool) -> bool
    ensures { result ≡ (is_document_end kind || (not (is_directive kind) && is_marked)) }
{
    match kind {
        Kind::DocEnd => true,
        Kind::Directive => false,
        _ => is_marked,
    }
}

/// Returns whether some lexemes begin with a marker `---`, or with directives and then one. `kind`
/// is the kind of the first of them, and `is_marked` says whether the lexemes after it begin so.
fn starts_marked(kind: Kind, is_marked: bool) -> bool
    ensures { result ≡ (is_document_start kind || (is_directive kind && is_marked)) }
{
    match kind {
        Kind::DocStart => true,
        Kind::Directive => is_marked,
        _ => false,
    }
}

/// Returns the index, from 0, of the lexeme with which each document of a text begins, in ascending
/// order. The only error is out of memory.
pub fn documents<A: Allocator + Copy>(
    alloc: A,
    lexemes: &[LexemeAtLine<'_, A>],
) -> Result<Vec<usize, A>, AllocError>
    ensures { IfOk result (λ v. v.items ≡ beginnings (map (λ x. x.lexeme.now.kind) lexemes.now)) }
{
    let mut starts = Vec::new(alloc);
    if lexemes.is_empty() {
        return Ok(starts);
    }
    let mut is_marked = false;
    for i in (1..lexemes.len()).rev() {
        is_marked = starts_marked(lexemes[i].lexeme.kind(), is_marked);
        if ends_document(lexemes[i - 1].lexeme.kind(), is_marked) {
            starts.push(i)?;
        }
    }
    starts.push(0)?;
    starts.reverse();
    Ok(starts)
}

/// Returns whether a document begins with a lexeme of the kind `kind`, directly after one of the
/// kind `last`. In a text, a directive is the first lexeme, or comes after a marker `...` or
/// another directive. So a document that has directives begins with the first of them.
pub fn begins_document(last: Kind, kind: Kind) -> bool
    ensures { result ≡ is_beginning last kind }
{
    match (last, kind) {
        (Kind::DocEnd, _) => true,
        (Kind::Directive, _) => false,
        (_, Kind::DocStart) => true,
        _ => false,
    }
}
