//! Tests of positions, with characters of one to four bytes, line breaks of each kind, and numbers
//! after the end of the text.

use crate::texts::opened;
use std::alloc::Global;
use yl_text::{Pos, TextFault};
use yl_units::{EditorPlace, Encoding, place_of, told_place};

const TEXT: &str = "a\u{e9}\r\n\u{1F600}b\n\n\u{20ac}end";

// Returns `true` if these lines and units name these lines and columns.
fn are_places(
    alloc: Global,
    encoding: Encoding,
    rows: &[((u64, u64), (u32, u32))],
) -> Result<bool, TextFault> {
    let lines = opened(alloc, TEXT)?;
    for ((line, units), (at, col)) in rows {
        let place = EditorPlace {
            line: *line,
            units: *units,
        };
        let want = Pos {
            line: *at,
            col: *col,
        };
        if place_of(encoding, &lines, place) != want {
            return Ok(false);
        }
    }
    Ok(true)
}

// Returns `true` if an editor is sent these lines and units for some positions of the text, in
// order.
fn are_told(alloc: Global, encoding: Encoding, rows: &[(u64, u64); 8]) -> Result<bool, TextFault> {
    let lines = opened(alloc, TEXT)?;
    let places = [
        (0, 0),
        (0, 2),
        (0, 9),
        (1, 1),
        (1, 2),
        (2, 0),
        (3, 1),
        (3, 4),
    ];
    for ((line, col), (at, units)) in places.iter().zip(rows) {
        let place = Pos {
            line: *line,
            col: *col,
        };
        let want = EditorPlace {
            line: *at,
            units: *units,
        };
        if told_place(encoding, &lines, place) != want {
            return Ok(false);
        }
    }
    Ok(true)
}

#[test]
fn places_in_bytes(rt: HostRuntime) {
    let rows = [
        ((0, 0), (0, 0)),
        ((0, 2), (0, 1)),
        ((0, 3), (0, 2)),
        ((0, 4), (0, 2)),
        ((1, 1), (1, 0)),
        ((1, 2), (1, 0)),
        ((1, 4), (1, 1)),
        ((1, u64::MAX), (1, 2)),
        ((2, 0), (2, 0)),
        ((2, 1), (2, 0)),
        ((3, 2), (3, 0)),
        ((3, 3), (3, 1)),
        ((4, 0), (3, 4)),
        ((u64::MAX, 0), (3, 4)),
    ];
    assert_eq!(rt; are_places(rt.alloc(), Encoding::Utf8, &rows), Ok(true));
    let told = [
        (0, 0),
        (0, 3),
        (0, 3),
        (1, 4),
        (1, 5),
        (2, 0),
        (3, 3),
        (3, 6),
    ];
    assert_eq!(rt; are_told(rt.alloc(), Encoding::Utf8, &told), Ok(true));
}

#[test]
fn places_in_utf16(rt: HostRuntime) {
    let rows = [
        ((0, 0), (0, 0)),
        ((0, 2), (0, 2)),
        ((0, 3), (0, 2)),
        ((0, 4), (0, 2)),
        ((1, 1), (1, 0)),
        ((1, 2), (1, 1)),
        ((1, 4), (1, 2)),
        ((1, u64::MAX), (1, 2)),
        ((2, 0), (2, 0)),
        ((2, 1), (2, 0)),
        ((3, 2), (3, 2)),
        ((3, 3), (3, 3)),
        ((4, 0), (3, 4)),
        ((u64::MAX, 0), (3, 4)),
    ];
    assert_eq!(rt; are_places(rt.alloc(), Encoding::Utf16, &rows), Ok(true));
    let told = [
        (0, 0),
        (0, 2),
        (0, 2),
        (1, 2),
        (1, 3),
        (2, 0),
        (3, 1),
        (3, 4),
    ];
    assert_eq!(rt; are_told(rt.alloc(), Encoding::Utf16, &told), Ok(true));
}

#[test]
fn places_in_characters(rt: HostRuntime) {
    let rows = [
        ((0, 2), (0, 2)),
        ((0, 3), (0, 2)),
        ((1, 1), (1, 1)),
        ((1, 4), (1, 2)),
        ((2, 1), (2, 0)),
        ((3, 3), (3, 3)),
        ((4, 0), (3, 4)),
    ];
    assert_eq!(rt; are_places(rt.alloc(), Encoding::Utf32, &rows), Ok(true));
    let told = [
        (0, 0),
        (0, 2),
        (0, 2),
        (1, 1),
        (1, 2),
        (2, 0),
        (3, 1),
        (3, 4),
    ];
    assert_eq!(rt; are_told(rt.alloc(), Encoding::Utf32, &told), Ok(true));
}
