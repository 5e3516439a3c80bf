//! Tests of ranges: of words, indicators and blanks, and of those that extend to the end of the
//! line.
ghost use Rattle.yl_text.specs.Store.{AreLines};

use crate::texts::opened;
use std::alloc::Global;
use yl_lsp::{Range, next_range};
use yl_text::{Lines, RuleId, TextFault};
use yl_units::{EditorPlace, Encoding, Reached};

// Returns `true` if the problems of a rule at these columns of the first line have ranges between
// these UTF-16 units. All of them are found in one walk.
fn are_ranges_of<S: Lines>(lines: &S, rule: RuleId, rows: &[(u64, u64, u64)]) -> bool
    requires { AreLines (S.rows lines.now) }
{
    let mut walk = Reached::start_of(0);
    for (col, start, end) in rows {
        let want = Range {
            start: EditorPlace {
                line: 0,
                units: *start,
            },
            end: EditorPlace {
                line: 0,
                units: *end,
            },
        };
        if next_range(Encoding::Utf16, lines, &mut walk, rule, 0, *col) != want {
            return false;
        }
    }
    true
}

// Returns `true` if the problems of a rule have these ranges in the first line of a text.
fn are_ranges(
    alloc: Global,
    text: &str,
    rule: RuleId,
    rows: &[(u64, u64, u64)],
) -> Result<bool, TextFault> {
    let lines = opened(alloc, text)?;
    Ok(are_ranges_of(&lines, rule, rows))
}

#[test]
fn words(rt: HostRuntime) {
    let text = "key: [\u{1F600}a,b:c]  # d:\nnext";
    let rows = [
        (0, 0, 3),
        (3, 3, 4),
        (4, 4, 5),
        (5, 5, 6),
        (6, 6, 9),
        (8, 9, 10),
        (9, 10, 13),
        (12, 13, 14),
        (15, 16, 17),
        (17, 18, 19),
        (19, 20, 20),
        (40, 20, 20),
        (1, 1, 3),
    ];
    assert_eq!(rt;
        are_ranges(rt.alloc(), text, RuleId::Colons, &rows),
        Ok(true)
    );
}

#[test]
fn line_ends(rt: HostRuntime) {
    let rows = [(1, 1, 4), (4, 4, 4), (0, 0, 4)];
    assert_eq!(rt;
        are_ranges(rt.alloc(), "a b \r\nc", RuleId::TrailingSpaces, &rows),
        Ok(true)
    );
}
