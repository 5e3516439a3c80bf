//! The pieces of a pattern's text: an item each.
ghost use Rattle.std.specs.Prelude.{◌≡◌, ◌<◌, ◌≤◌, IfSome, length};
ghost use Rattle.yl_patterns.specs.Reading.{class_piece, class_start, escaped, has, has_close, member, part_piece, piece, piece_of, star_piece};
ghost use Rattle.yl_patterns.specs.Tables.{IsTable};

use crate::item::Item;
use crate::tables::is_closed;

/// Where a piece of a pattern's text stands.
#[derive(Clone, Copy)]
pub enum Place {
    /// At the start, or after nothing but `**/`.
    Front,
    /// At the start of a part.
    Start,
    /// Behind the start of a part.
    Inside,
    /// In a class.
    InClass,
}

/// A piece of a pattern's text: its item, how many characters it is, and where the next one stands.
#[derive(Clone, Copy)]
pub struct Piece {
    pub item: Item,
    pub len: usize,
    pub next: Place,
}

fn made(item: Item, len: usize, next: Place) -> Option<Piece>
    ensures { result ≡ piece item len next }
{
    Some(Piece { item, len, next })
}

// Whether a character of the text is this one.
fn has(text: &[char], at: usize, c: char) -> bool
    ensures { result ≡ has text.now at c }
{
    at < text.len() && text[at] == c
}

fn member(text: &[char], first: char, last: char, len: usize) -> Option<Piece>
    requires some { 0 < len }
    requires within { len ≤ length text.now }
    ensures piece { result ≡ member text.now first last len }
    ensures within { IfSome result (λ p. (0 < p.len) × (p.len ≤ length text.now)) }
{
    let item = Item::Range { first, last };
    if has(text, len, ']') {
        made(item, len + 1, Place::Inside)
    } else {
        made(item, len, Place::InClass)
    }
}

fn class_piece(text: &[char]) -> Option<Piece>
    requires { 0 < length text.now }
    ensures piece { result ≡ class_piece text.now }
    ensures within { IfSome result (λ p. (0 < p.len) × (p.len ≤ length text.now)) }
{
    if !has(text, 1, '-') || text.len() <= 2 || has(text, 2, ']') {
        return member(text, text[0], text[0], 1);
    }
    if text[2] < text[0] {
        return None;
    }
    member(text, text[0], text[2], 3)
}

fn class_start(text: &[char], closes: &[bool]) -> Option<Piece>
    requires some { 0 < length text.now }
    requires closes { IsTable has_close text.now closes.now }
    ensures piece { result ≡ class_start text.now }
    ensures within { IfSome result (λ p. (0 < p.len) × (p.len ≤ length text.now)) }
{
    let is_negated = has(text, 1, '!');
    let len = if is_negated { 2 } else { 1 };
    if is_closed(text, closes, len) {
        made(Item::Class { is_negated }, len, Place::InClass)
    } else {
        made(Item::Character('['), 1, Place::Inside)
    }
}

fn star_piece(is_start: bool, place: Place, text: &[char]) -> Option<Piece>
    requires { 0 < length text.now }
    ensures piece { result ≡ star_piece is_start place text.now }
    ensures within { IfSome result (λ p. (0 < p.len) × (p.len ≤ length text.now)) }
{
    if is_start && has(text, 1, '*') && has(text, 2, '/') {
        made(Item::Folders, 3, place)
    } else {
        made(Item::Star, 1, Place::Inside)
    }
}

fn escaped(text: &[char]) -> Option<Piece>
    ensures piece { result ≡ escaped text.now }
    ensures within { IfSome result (λ p. (0 < p.len) × (p.len ≤ length text.now)) }
{
    if text.len() <= 1 || has(text, 1, '/') {
        return None;
    }
    made(Item::Character(text[1]), 2, Place::Inside)
}

fn part_piece(is_start: bool, place: Place, text: &[char], closes: &[bool]) -> Option<Piece>
    requires some { 0 < length text.now }
    requires closes { IsTable has_close text.now closes.now }
    ensures piece { result ≡ part_piece is_start place text.now }
    ensures within { IfSome result (λ p. (0 < p.len) × (p.len ≤ length text.now)) }
{
    match text[0] {
        '/' => made(Item::Character('/'), 1, Place::Start),
        '?' => made(Item::AnyCharacter, 1, Place::Inside),
        '*' => star_piece(is_start, place, text),
        '\\' => escaped(text),
        '[' => class_start(text, closes),
        c => made(Item::Character(c), 1, Place::Inside),
    }
}

/// The piece with which a pattern's text goes on, at which this is left of it. `None` where that is no pattern.
pub fn piece_of(place: Place, text: &[char], closes: &[bool]) -> Option<Piece>
    requires some { 0 < length text.now }
    requires closes { IsTable has_close text.now closes.now }
    ensures piece { result ≡ piece_of place text.now }
    ensures within { IfSome result (λ p. (0 < p.len) × (p.len ≤ length text.now)) }
{
    match place {
        Place::Front | Place::Start => part_piece(true, place, text, closes),
        Place::Inside => part_piece(false, place, text, closes),
        Place::InClass => class_piece(text),
    }
}
