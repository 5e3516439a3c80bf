//! The problems that the rules on lexemes find in a document.
ghost use Rattle.std.specs.Prelude.{◌≡◌, ◌≤◌, map, length, IfOk};
ghost use Rattle.yl_marks.specs.Keys.{lexeme_at_line};
ghost use Rattle.yl_marks.specs.Facts.{key_facts};
ghost use Rattle.yl_lexeme_rules.specs.Lexemes.{lexeme_findings};

use crate::lexeme_rules::LexemeRules;
use crate::options::LexemeOptions;
use std::alloc::{AllocError, Allocator};
use yl_lexeme::LexemeAtLine;
use yl_marks::KeyFacts;
use yl_text::Finding;

/// Returns the problems that the rules on lexemes find at the first `counted` lexemes of a whole
/// document, lexeme by lexeme. `keys` contains the facts that the keys of the document decide about
/// all its lexemes, since a later lexeme may decide whether one is a key. Lines and columns of
/// problems count from 1, columns in characters. Line 1 of a problem is line 0 of the lexemes.
/// Allocates only for the problems. The only error is out of memory.
pub fn lexeme_problems<A: Allocator + Copy>(
    alloc: A,
    lexemes: &[LexemeAtLine<'_, A>],
    keys: &[KeyFacts],
    counted: usize,
    options: &LexemeOptions,
) -> Result<Vec<Finding<A>, A>, AllocError>
    requires counted { counted ≤ length lexemes.now }
    requires keys { keys.now
        ≡ key_facts (map (λ x. lexeme_at_line x.line x.lexeme.now) lexemes.now) }
    ensures { IfOk result (λ v. v.items
        ≡ lexeme_findings options.now counted
        (map (λ x. lexeme_at_line x.line x.lexeme.now) lexemes.now)) }
{
    let mut problems = Vec::new(alloc);
    let (lexemes, _) = lexemes.split_at(counted);
    let (keys, _) = keys.split_at(counted);
    let mut rules = LexemeRules::new();
    rules.read_all(options, lexemes, keys, &mut problems)?;
    rules.finish(options, &mut problems)?;
    Ok(problems)
}
