//! The checked places of a document.
ghost use Rattle.std.specs.Prelude.{◌≡◌, ◌++◌, map, OnOk, IfOk};
ghost use Rattle.std.specs.Option.{option_to_list};
ghost use Rattle.yl_marks.specs.Keys.{lexeme_at_line, token_of};
ghost use Rattle.yl_indentation.specs.Elements.{element_of};
ghost use Rattle.yl_indentation.specs.SlimElements.{slim_element};
ghost use Rattle.yl_indentation.specs.Facts.{indent_facts};
ghost use Rattle.yl_indentation.specs.Context.{nothing_open, facts_in, fact_in, after};

use crate::context::Context;
use crate::element::{Element, element_of};
use crate::fact::Fact;
use std::alloc::{AllocError, Allocator};
use yl_lexeme::LexemeAtLine;
use yl_marks::Marked;

/// Appends the fact of an element, if its place is checked, and adds the element to the context.
/// The only error is out of memory.
pub fn push_fact<A: Allocator>(
    element: Element,
    context: &mut Context<A>,
    facts: &mut Vec<Fact, A>,
) -> Result<(), AllocError>
    ensures facts { OnOk result (facts.new.items ≡ facts.old.items ++ fact_in context.old element) }
    ensures context { OnOk result (context.new ≡ after element context.old) }
{
    if let Element::Other(site) = element {
        return context.read_other(site, facts);
    }
    if let Some(fact) = context.fact(element) {
        facts.push(fact)?;
    }
    context.pass(element)
}

/// Returns the facts of a document. Keeps a summary of the elements before each place.
fn facts_in<A: Allocator + Copy>(
    alloc: A,
    lexemes: &[LexemeAtLine<'_, A>],
    marks: &[Marked],
    counted: usize,
    indentations: &[u32],
) -> Result<Vec<Fact, A>, AllocError>
    ensures { IfOk result (λ v. v.items ≡ facts_in nothing_open (map (λ m. slim_element (element_of
        (map token_of (map (λ x. lexeme_at_line x.line x.lexeme.now) lexemes.now))
        counted indentations.now m)) marks.now)) }
{
    let mut context = Context::new(alloc);
    let mut facts = Vec::new(alloc);
    for mark in marks {
        let element = element_of(lexemes, counted, indentations, *mark);
        push_fact(element, &mut context, &mut facts)?;
    }
    Ok(facts)
}

/// Returns the checked places of a whole document, in order, with what is expected there. They are
/// the first lexemes of lines among the first `counted` lexemes. `marks` are the marks of all
/// lexemes. `indentations` contains the number of spaces at the beginning of each line, by the line
/// numbers of the lexemes. The only error is out of memory.
pub fn indent_facts<A: Allocator + Copy>(
    alloc: A,
    lexemes: &[LexemeAtLine<'_, A>],
    marks: &[Marked],
    counted: usize,
    indentations: &[u32],
) -> Result<Vec<Fact, A>, AllocError>
    ensures { IfOk result (λ v. v.items
        ≡ indent_facts (map token_of (map (λ x. lexeme_at_line x.line x.lexeme.now) lexemes.now))
        marks.now counted indentations.now) }
{
    facts_in(alloc, lexemes, marks, counted, indentations)
}
