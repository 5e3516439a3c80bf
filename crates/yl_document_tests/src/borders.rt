//! Tests at each border above a sound row: machines that are resumed there go on as the machines
//! that read the rows above.
use crate::machines::Machines;
use crate::rows::{TextRow, rows_of};
use crate::told::are_findings_moved;
use std::alloc::{AllocError, Global};
use std::test::Fail;
use yl_text::Finding;

/// Returns `true` if both machines say the same of these rows and of the end of the document, and
/// hold the same after each row.
fn go_on_alike(
    one: &mut Machines<Global>,
    other: &mut Machines<Global>,
    rows: &[TextRow<Global>],
) -> Result<bool, AllocError> {
    for row in rows {
        if !one.tell_same(other, row)? {
            return Ok(false);
        }
        if !one.hold_same(other)? {
            return Ok(false);
        }
    }
    one.end_same(other)
}

/// Returns `true` if machines that are resumed between these rows hold the same as the machines
/// that read the rows above, also after those settle, and go on in the same way.
fn is_resumed(
    alloc: Global,
    above: &[TextRow<Global>],
    below: &[TextRow<Global>],
) -> Result<bool, AllocError> {
    let mut whole = Machines::behind(alloc, above)?;
    let states = whole.states()?;
    let mut resumed = whole.resumed(&states)?;
    let _ = whole.settle()?;
    if !whole.hold(&states)? {
        return Ok(false);
    }
    if !resumed.hold(&states)? {
        return Ok(false);
    }
    go_on_alike(&mut whole, &mut resumed, below)
}

/// Returns `true` if the state of the rules says that the latest lexeme of the rows is no opening
/// bracket.
fn is_settled(alloc: Global, above: &[TextRow<Global>]) -> Result<bool, AllocError> {
    let machines = Machines::behind(alloc, above)?;
    Ok(machines.rules.state().is_settled())
}

/// Settles the machines twice, and then reads a row with them. Returns the number of findings of
/// the first time, and all findings.
fn told_in_parts(
    machines: &mut Machines<Global>,
    next: &TextRow<Global>,
) -> Result<(usize, Vec<Finding<Global>>), AllocError> {
    let mut told = machines.settle()?;
    let count = told.len();
    let mut again = machines.settle()?;
    told.append(&mut again)?;
    let mut row = machines.read(next)?;
    told.append(&mut row.findings)?;
    Ok((count, told))
}

/// Returns the number of findings at the latest lexeme above a border with a settled state. Returns
/// `None` if these findings and those in the row below are not the findings of machines that did
/// not settle before they read that row.
fn settled(
    alloc: Global,
    above: &[TextRow<Global>],
    next: &TextRow<Global>,
) -> Result<Option<usize>, AllocError> {
    let mut machines = Machines::behind(alloc, above)?;
    let (count, told) = told_in_parts(&mut machines, next)?;
    let mut others = Machines::behind(alloc, above)?;
    let wanted = others.read(next)?;
    let is_same = are_findings_moved(&told, 0, &wanted.findings, 0);
    Ok(is_same.then_some(count))
}

/// Returns the tally of a border: 1, whether machines are resumed rightly there, whether the state
/// is settled, and the number of problems that wait there.
fn at_border(
    alloc: Global,
    above: &[TextRow<Global>],
    below: &[TextRow<Global>],
) -> Result<[usize; 4], AllocError> {
    let right = usize::from(is_resumed(alloc, above, below)?);
    if !is_settled(alloc, above)? {
        return Ok([1, right, 0, 0]);
    }
    let Some(next) = below.first() else {
        return Err(AllocError);
    };
    let problems = settled(alloc, above, next)?;
    Ok([1, right, 1, problems.unwrap_or(usize::MAX)])
}

/// Returns the sums of two tallies.
fn sums(one: [usize; 4], other: [usize; 4]) -> [usize; 4] {
    let [a, b, c, d] = one;
    let [e, f, g, h] = other;
    [
        a.saturating_add(e),
        b.saturating_add(f),
        c.saturating_add(g),
        d.saturating_add(h),
    ]
}

/// Returns the tally of a text: the number of its borders, of those at which machines are resumed
/// rightly, of those with a settled state, and of the problems that wait at these.
fn tally(alloc: Global, text: &str) -> Result<[usize; 4], AllocError> {
    let rows = rows_of(alloc, text)?;
    let mut tally = [0usize; 4];
    for (at, row) in rows.iter().enumerate() {
        if at > 0 && row.is_sound {
            let above = rows.get(..at).unwrap_or(&[]);
            let below = rows.get(at..).unwrap_or(&[]);
            tally = sums(tally, at_border(alloc, above, below)?);
        }
    }
    Ok(tally)
}

/// Texts, each with the number of its borders, of those above which the latest lexeme is no opening
/// bracket, and of the problems that wait there. A problem waits only if a row ends with an
/// indicator: at a `:` or a `,` after a space.
const TEXTS: [(&str, usize, usize, usize); 6] = [
    // A mapping is in a sequence, and a sequence is in that mapping.
    ("- a: 1\n  b :\n  - c\n-  d: 2\n", 3, 3, 1),
    // Brackets span rows.
    ("a: [1 ,\n  {b: c,\n  d}, [\n  ], e]\n", 3, 2, 1),
    // The nodes of tags and anchors are in the rows below.
    ("a: !t\n  - &x\n    b\n  - &y !u\n    c: 1\n", 4, 4, 0),
    // Keys have an indicator, and a scalar spans two rows.
    ("? a\n: b\n?\n  - c\n: 'd\n  e'\nf: g\n", 5, 5, 0),
    // A directive makes `yes` a string.
    ("%YAML 1.2\n---\na: yes\nb : yes\n", 3, 3, 0),
    // A comment and an empty row are among the rows.
    ("a:\n\n  # b\n  c: &d\n    - e\n", 3, 3, 0),
];

#[test]
fn of_small_texts(rt: HostRuntime) -> Result<(), Fail> {
    for (text, borders, settles, problems) in TEXTS {
        let wanted = [borders, borders, settles, problems];
        assert_eq!(rt; tally(rt.alloc(), text)?, wanted, "{text:?}");
    }
    Ok(())
}

/// Returns eight rows of this piece, each with one step more before it than the row above, and then
/// the last rows. The only error is out of memory.
fn deep(alloc: Global, step: &str, piece: &str, last: &str) -> Result<String, AllocError> {
    let mut text = String::new(alloc);
    let mut steps = String::new(alloc);
    for _i in 0..8 {
        text.push_str(&steps)?;
        text.push_str(piece)?;
        steps.push_str(step)?;
    }
    text.push_str(&steps)?;
    text.push_str(last)?;
    Ok(text)
}

/// The step, the piece and the last rows of a text, the number of its borders, and the number of
/// those with a settled state.
type DeepText = (&'static str, &'static str, &'static str, usize, usize);

/// The rows that close what eight rows of five brackets open.
const CLOSING: &str = "]]]]]\n]]]]]\n]]]]]\n]]]]]\n]]]]]\n]]]]]\n]]]]]\n]]]]]\n";

#[test]
fn of_forty_levels(rt: HostRuntime) -> Result<(), Fail> {
    let texts: [DeepText; 2] = [
        ("          ", "- - - - -\n", "a: 1\n- b\n", 9, 9),
        ("", "[[[[[\n", CLOSING, 15, 7),
    ];
    for (step, piece, last, borders, settles) in texts {
        let text = deep(rt.alloc(), step, piece, last)?;
        let wanted = [borders, borders, settles, 0];
        assert_eq!(rt; tally(rt.alloc(), text.as_str())?, wanted, "{piece:?}");
    }
    Ok(())
}
