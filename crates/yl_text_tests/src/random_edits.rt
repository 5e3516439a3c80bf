//! Tests of random edits between positions of small texts, with both stores, against the lines of
//! the edited text.

use crate::stores::{Heap, place};
use crate::texts::is_edited;
use failing_alloc::FailingAlloc;
use std::alloc::{AllocError, Global};
use std::test::Fail;
use test_cases::Random;
use yl_text::Pos;

// The characters of the texts. A line break is as likely as a letter.
const CHARACTERS: [char; 10] = [
    'a',
    'b',
    '\r',
    '\n',
    '\r',
    '\n',
    'ü',
    '値',
    '\u{1F600}',
    '\u{2028}',
];

// Returns a random text of `len` characters. The only error is out of memory.
fn random_text(alloc: Global, random: &mut Random, len: usize) -> Result<String, AllocError> {
    let mut text = String::new(alloc);
    for _ in 0..len {
        if let Some(c) = CHARACTERS.get(random.below(CHARACTERS.len())) {
            text.push(*c)?;
        }
    }
    Ok(text)
}

// Returns the position after the first `count` characters of a text, and the number of bytes before
// it. If a line begins there, the position after the line break before it is the same one, and
// `other_name` chooses that.
fn place_behind(text: &str, count: usize, other_name: bool) -> (Pos, usize) {
    let (mut line, mut col, mut byte) = (0usize, 0usize, 0usize);
    let mut last_cols = 0usize;
    let mut last = ' ';
    for c in text.chars().take(count) {
        let is_pair = last == '\r' && c == '\n';
        if (last == '\n' || last == '\r') && !is_pair {
            line = line.saturating_add(1);
            last_cols = 0;
        }
        last_cols = last_cols.saturating_add(1);
        col = last_cols;
        byte = byte.saturating_add(c.len_utf8());
        last = c;
    }
    let next = text.get(byte..).unwrap_or_default();
    let begins = last == '\n' || last == '\r' && !next.starts_with('\n');
    if begins && !other_name {
        return (place(line.saturating_add(1), 0), byte);
    }
    (place(line, col), byte)
}

// Makes a random edit of a random text. Returns `true` if it is made rightly.
fn is_random_edit_made(alloc: Global, heap: Heap<'_>, random: &mut Random) -> Result<bool, Fail> {
    let len = random.below(26);
    let text = random_text(alloc, random, len)?;
    let p = random.below(len.saturating_add(1));
    let q = random.below(len.saturating_add(1));
    let (from, start) = place_behind(text.as_str(), p.min(q), random.below(3) == 0);
    let (to, end) = place_behind(text.as_str(), p.max(q), random.below(3) == 0);
    let count = random.below(7);
    let bytes = random_text(alloc, random, count)?;
    let (range, places) = ((start, end), (from, to));
    Ok(is_edited(alloc, heap, text.as_str(), range, places, bytes.as_str())?)
}

#[test]
fn of_both_stores(rt: HostRuntime) -> Result<(), Fail> {
    let heap = FailingAlloc::new(rt.alloc());
    let mut random = Random::new(46);
    for n in 0..60_000 {
        assert!(rt;
            is_random_edit_made(rt.alloc(), &heap, &mut random)?,
            "edit {n}"
        );
    }
    Ok(())
}
