//! Tests that each call over one document returns a result if no allocation is refused.
use std::alloc::{AllocError, Global};
use std::test::Fail;
use yl_events::{mark, parse_document};
use yl_indentation::indent_facts;
use yl_lexeme::{LexemeAtLine, Meter};
use yl_scan::{LineLexeme, scan};
use yl_text::{lines_are_few_and_short, split};
use yl_tree::{AnchorsOptions, KeyDuplicatesOptions, anchors, key_duplicates, key_ordering};

// Returns the lexemes at their lines. The only error is out of memory.
fn placed(
    alloc: Global,
    lexemes: &[LineLexeme<Global>],
) -> Result<Vec<LexemeAtLine<'_, Global>>, AllocError> {
    let mut placed = Vec::new(alloc);
    for one in lexemes {
        placed.push(LexemeAtLine {
            line: one.line,
            lexeme: &one.lexeme,
        })?;
    }
    Ok(placed)
}

// Returns the number of lexemes and marks, and the number of indentation facts.
fn marks_and_facts(
    alloc: Global,
    lexemes: &[LexemeAtLine<'_, Global>],
) -> Result<[usize; 2], AllocError> {
    let marked = mark(alloc, lexemes)?;
    let facts = indent_facts(alloc, lexemes, &marked, lexemes.len(), &[0, 0, 0, 0])?;
    Ok([marked.len(), facts.len()])
}

// Returns the numbers of problems that key-duplicates, key-ordering and anchors find.
fn problems(alloc: Global, lexemes: &[LexemeAtLine<'_, Global>]) -> Result<[usize; 3], AllocError> {
    let built = parse_document(alloc, lexemes, &mut Meter::new())?;
    let events = built.events.as_slice();
    let doubled = key_duplicates(alloc, events, &KeyDuplicatesOptions::standard())?;
    let misplaced = key_ordering(alloc, events)?;
    let anchored = anchors(alloc, events, &AnchorsOptions::standard())?;
    Ok([doubled.len(), misplaced.len(), anchored.len()])
}

#[test]
fn calls_over_one_document_answer(rt: HostRuntime) -> Result<(), Fail> {
    let alloc = rt.alloc();
    let rows = split(alloc, b"b:\n- *x\na: 2\nb: 3\n")?;
    lines_are_few_and_short();
    let scanned = scan(alloc, &rows, &mut Meter::new())?;
    let lexemes = placed(alloc, &scanned.lexemes)?;
    assert_eq!(rt; marks_and_facts(alloc, &lexemes)?, [12, 2]);
    assert_eq!(rt; problems(alloc, &lexemes)?, [1, 1, 1]);
    Ok(())
}
