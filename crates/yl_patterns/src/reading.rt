//! Reading the pattern of a line.
ghost use Rattle.std.specs.Prelude.{◌≡◌, ◌++◌, ◌<◌, IfOk, IfSome, MatchResult, OnOk, Some, None, length, position};
ghost use Rattle.std.specs.Str.{chars};
ghost use Rattle.yl_patterns.specs.Fits.{is_slash};
ghost use Rattle.yl_patterns.specs.Reading.{front_items, is_one_part, items_of, last_items, pattern_items, unanchored};
ghost use Rattle.yl_patterns.specs.Answers.{Gives, GivesLine};
ghost use Rattle.yl_patterns.specs.Patterns.{line_of_chars, said};

use crate::PatternFault;
use crate::item::Item;
use crate::piece::{Place, piece_of};
use crate::tables::closes;
use std::alloc::{AllocError, Allocator};

/// A pattern, and whether it takes back what earlier ones say.
#[derive(Drop)]
pub struct Pattern<A: Allocator> {
    pub takes_back: bool,
    pub items: Vec<Item, A>,
}

/// The characters of a text.
pub fn characters<A: Allocator>(alloc: A, text: &str) -> Result<Vec<char, A>, AllocError>
    ensures { IfOk result (λ v. v.items ≡ chars text.now) }
{
    let mut characters = Vec::with_capacity(alloc, text.len())?;
    for c in text.chars() {
        characters.push(c)?;
    }
    Ok(characters)
}

// Puts the items with which a pattern ends after its others.
fn push_last<A: Allocator>(items: &mut Vec<Item, A>, place: Place) -> Result<(), AllocError>
    ensures { OnOk result (items.new.items ≡ items.old.items ++ last_items place) }
{
    match place {
        Place::Front => {
            items.push(Item::Star)?;
            items.push(Item::Character('/'))?;
            items.push(Item::Star)?;
        }
        Place::Start => items.push(Item::Star)?,
        Place::Inside | Place::InClass => {}
    }
    Ok(())
}

// Puts the items of a text after others.
fn push_items<A: Allocator + Copy>(
    alloc: A,
    text: &[char],
    items: &mut Vec<Item, A>,
) -> Result<(), PatternFault>
    ensures { Gives result items.old.items items.new.items (items_of text.now) }
{
    let closes = closes(alloc, text)?;
    let mut place = Place::Front;
    let mut at = 0;
    while at < text.len() {
        let Some(piece) = piece_of(place, &text[at..], &closes[at..]) else {
            return Err(PatternFault::BadPattern);
        };
        items.push(piece.item)?;
        at += piece.len;
        place = piece.next;
    }
    push_last(items, place)?;
    Ok(())
}

fn first_slash(text: &[char]) -> Option<usize>
    ensures value { result ≡ position is_slash text.now }
    ensures inside { IfSome result (λ k. k < length text.now) }
{
    text.iter().position(|c| *c == '/')
}

fn is_one_part(text: &[char]) -> bool
    ensures { result ≡ is_one_part text.now }
{
    match first_slash(text) {
        Some(at) => at + 1 == text.len(),
        None => true,
    }
}

// The items that stand before those of a pattern's text.
fn front_items<A: Allocator>(alloc: A, text: &[char]) -> Result<Vec<Item, A>, AllocError>
    ensures { IfOk result (λ v. v.items ≡ front_items text.now) }
{
    let mut items = Vec::new(alloc);
    if is_one_part(text) {
        items.push(Item::Folders)?;
    }
    Ok(items)
}

// A pattern without the `/` in front of it.
fn unanchored(text: &[char]) -> &[char]
    ensures { result.now ≡ unanchored text.now }
{
    match text {
        ['/', rest @ ..] => rest,
        _ => text,
    }
}

// The items of a pattern without its `!`.
fn pattern_items<A: Allocator + Copy>(alloc: A, text: &[char]) -> Result<Vec<Item, A>, PatternFault>
    ensures { MatchResult result (λ v. pattern_items text.now ≡ Some v.items)
        (λ e. e ≡ PatternFault.BadPattern → pattern_items text.now ≡ None) }
{
    match text {
        [] => return Err(PatternFault::BadPattern),
        ['/'] => return Ok(Vec::new(alloc)),
        _ => {}
    }
    let mut items = front_items(alloc, text)?;
    push_items(alloc, unanchored(text), &mut items)?;
    Ok(items)
}

fn pattern_of<A: Allocator + Copy>(
    alloc: A,
    takes_back: bool,
    text: &[char],
) -> Result<Option<Pattern<A>>, PatternFault>
    ensures { GivesLine result (said takes_back (pattern_items text.now)) }
{
    let items = pattern_items(alloc, text)?;
    Ok(Some(Pattern { takes_back, items }))
}

/// The pattern of a line without white space at both ends. `None` where it says nothing.
pub fn read_line<A: Allocator + Copy>(
    alloc: A,
    line: &[char],
) -> Result<Option<Pattern<A>>, PatternFault>
    ensures { GivesLine result (line_of_chars line.now) }
{
    match line {
        [] | ['#', ..] | ['/'] => Ok(None),
        ['!', text @ ..] => pattern_of(alloc, true, text),
        text => pattern_of(alloc, false, text),
    }
}
