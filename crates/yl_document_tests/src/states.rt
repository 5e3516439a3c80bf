//! Tests which states of the machines are equal after two texts.
use crate::machines::{Machines, States};
use crate::rows::rows_of;
use std::alloc::{AllocError, Global};
use std::test::Fail;

/// Returns the states after a text. The only error is out of memory.
fn states_after(alloc: Global, text: &str) -> Result<States<Global>, AllocError> {
    let rows = rows_of(alloc, text)?;
    let machines = Machines::behind(alloc, &rows)?;
    machines.states()
}

/// Two texts, and whether their states are equal: that of the marker, of the parser, of the fact
/// reader and of the rules on lexemes.
type Pair = (&'static str, &'static str, [bool; 4]);

const PAIRS: [Pair; 18] = [
    // The kind of a block collection differs.
    ("- a", "k: a", [false, false, false, true]),
    // The column of a block collection differs.
    (" k: a", "k: a", [false, true, false, true]),
    // A sequence has no block collection of its own.
    ("k:\n- a", "k: a", [true, false, false, true]),
    // The phase of an item differs.
    ("{? a", "{a", [true, false, true, true]),
    // The kind of a bracket differs.
    ("[a", "{a", [true, false, true, true]),
    // One more bracket is open.
    ("[[", "[", [false, false, false, true]),
    // Properties wait for their node.
    ("!t &x", "&x", [false, false, true, true]),
    ("&x !t", "!t", [true, false, true, true]),
    // A property is that of a key or of another node.
    ("? &x", "k: &x", [false, false, true, true]),
    // Items are expected in different columns.
    ("  [", "[", [true, true, false, true]),
    ("[a", "[ a", [true, true, false, true]),
    // The version differs.
    ("%YAML 1.2\n---", "---", [true, true, true, false]),
    // The kind of the latest lexeme differs.
    ("'a'", "a", [false, true, false, false]),
    // All states are equal, also if an anchor waits.
    ("", "# a", [true, true, true, true]),
    ("a: 1", "b: 2", [true, true, true, true]),
    ("- a\n- &x", "- &y", [true, true, true, true]),
    ("- [a, b", "- [c", [true, true, true, true]),
    ("%YAML 1.1\n---", "---", [true, true, true, true]),
];

#[test]
fn of_two_texts(rt: HostRuntime) -> Result<(), Fail> {
    for (one, other, same) in PAIRS {
        let states = states_after(rt.alloc(), one)?;
        let others = states_after(rt.alloc(), other)?;
        assert_eq!(rt; states.same_ones(&others), same, "{one:?} {other:?}");
        assert_eq!(rt; others.same_ones(&states), same, "{other:?} {one:?}");
        assert!(rt; states.are_same(&states) && others.are_same(&others));
    }
    Ok(())
}
