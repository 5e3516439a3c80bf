//! Prints the states of lines.
ghost use Rattle.std.specs.Prelude.{◌≡◌, ◌++◌, reverse, IfOk, OnOk};
ghost use Rattle.std.specs.List.{flat_map};
ghost use Rattle.yl_dump.specs.StateLine.{next_column, columns_text, brackets_text, bracket_sign, last_text, line_text, state_text};

use crate::names::kind_name;
use crate::page::Page;
use std::alloc::{AllocError, Allocator};
use yl_lexeme::{Items, Kind};
use yl_scan::{LineState, Standing};

// Prints columns after another column.
fn print_next_columns<A: Allocator>(page: &mut Page<A>, columns: &[u32]) -> Result<(), AllocError>
    ensures { OnOk result (page.new ≡ page.old ++ flat_map next_column columns.now) }
{
    for column in columns {
        page.text(",")?;
        page.number(u64::from(*column))?;
    }
    Ok(())
}

// Prints columns as a list.
fn print_columns<A: Allocator>(page: &mut Page<A>, columns: &[u32]) -> Result<(), AllocError>
    ensures { OnOk result (page.new ≡ page.old ++ columns_text columns.now) }
{
    page.text("[")?;
    if let [first, rest @ ..] = columns {
        page.number(u64::from(*first))?;
        print_next_columns(page, rest)?;
    }
    page.text("]")
}

// Prints the open brackets, or `-` if there are none.
fn print_brackets<A: Allocator>(page: &mut Page<A>, brackets: &[Kind]) -> Result<(), AllocError>
    ensures { OnOk result (page.new ≡ page.old ++ brackets_text brackets.now) }
{
    if brackets.is_empty() {
        return page.text("-");
    }
    for bracket in brackets {
        page.text(bracket_sign(*bracket))?;
    }
    Ok(())
}

// Returns the sign of an open bracket.
fn bracket_sign(bracket: Kind) -> &'static str
    ensures { result.now ≡ bracket_sign bracket }
{
    match bracket {
        Kind::MapOpen => "{",
        _ => "[",
    }
}

// Returns the name of the last lexeme's kind, or `-` if there is no lexeme.
fn last_text(last: Option<Kind>) -> &'static str
    ensures { result.now ≡ last_text last }
{
    match last {
        Some(kind) => kind_name(kind),
        None => "-",
    }
}

// Returns the items of a stack, from the bottom to the top. The only error is out of memory.
fn from_below<T: Copy, A: Allocator + Copy>(
    alloc: A,
    stack: Items<'_, T, A>,
) -> Result<Vec<T, A>, AllocError>
    ensures { IfOk result (λ items. items.items ≡ reverse stack.entry) }
{
    let mut items = Vec::new(alloc);
    let mut rest = stack;
    while let Some(item) = rest.next() {
        items.push(item)?;
    }
    items.reverse();
    Ok(items)
}

// Prints the state of a sound line that is not after a fault.
fn print_standing<A: Allocator + Copy>(
    alloc: A,
    page: &mut Page<A>,
    standing: &Standing<A>,
) -> Result<(), AllocError>
    ensures { OnOk result
        (page.new ≡ page.old ++ state_text (reverse standing.now.levels) (reverse standing.now.brackets) standing.now.last) }
{
    page.text(" sound ")?;
    print_columns(page, from_below(alloc, standing.levels.items())?.as_slice())?;
    page.text(" ")?;
    print_brackets(
        page,
        from_below(alloc, standing.brackets.items())?.as_slice(),
    )?;
    page.text(" ")?;
    page.text(last_text(standing.last))
}

/// Prints the state of a line, or ` not-sound` if there is none. The only error is out of memory.
pub fn print_state<A: Allocator + Copy>(
    alloc: A,
    page: &mut Page<A>,
    state: &Option<LineState<A>>,
) -> Result<(), AllocError>
    ensures { OnOk result (page.new ≡ page.old ++ line_text state.now) }
{
    let Some(state) = state else {
        return page.text(" not-sound");
    };
    match state.standing() {
        None => page.text(" stopped"),
        Some(standing) => print_standing(alloc, page, standing),
    }
}
