//! Tests of the calls that copy what the machines hold. Each of their allocations is refused in
//! turn, up to the first run without a refusal.
use crate::machines::{Machines, States};
use crate::rows::{TextRow, rows_of};
use failing_alloc::FailingAlloc;
use std::alloc::{AllocError, Global};
use std::test::Fail;
use yl_events::SymbolParser;
use yl_indentation::FactReader;
use yl_lexeme_rules::{LexemeOptions, LexemeRules};
use yl_marks::KeyMarker;

type Heap<'a> = &'a FailingAlloc<Global>;

/// A call that returns the state of a machine, or resumes a machine from a state.
#[derive(Clone, Copy, Debug, PartialEq, Eq)]
enum Call {
    MarkerState,
    MarkerResume,
    ParserState,
    ParserResume,
    ReaderState,
    ReaderResume,
}

/// Returns `true` if the call succeeds.
fn answers(machines: &Machines<Heap<'_>>, states: &States<Heap<'_>>, call: Call) -> bool {
    match call {
        Call::MarkerState => machines.marker.state().is_ok(),
        Call::MarkerResume => KeyMarker::resume(&states.marker).is_ok(),
        Call::ParserState => machines.parser.state().is_ok(),
        Call::ParserResume => SymbolParser::resume(&states.parser).is_ok(),
        Call::ReaderState => machines.reader.state().is_ok(),
        Call::ReaderResume => FactReader::resume(&states.reader).is_ok(),
    }
}

/// Returns the number of allocations that the call makes if none is refused. Returns `None` if the
/// call succeeds though one is refused, if it fails though none is, or if the machines hold
/// something else after a refusal.
fn refusals<'a>(
    heap: Heap<'a>,
    machines: &Machines<Heap<'a>>,
    states: &States<Heap<'a>>,
    call: Call,
) -> Result<Option<u64>, AllocError> {
    for n in 0..u64::MAX {
        heap.refuse(n.saturating_add(1));
        let is_answered = answers(machines, states, call);
        let is_armed = heap.is_armed();
        heap.refuse(0);
        if is_armed {
            return Ok(is_answered.then_some(n));
        }
        if is_answered || !machines.hold(states)? {
            return Ok(None);
        }
    }
    Ok(None)
}

/// Returns `true` if the call makes `count` allocations, and if machines for which it was refused
/// find the same in the next row, and hold the same after it, as machines for which it was not.
fn is_refused<'a>(
    heap: Heap<'a>,
    above: &[TextRow<Heap<'a>>],
    next: &TextRow<Heap<'a>>,
    call: Call,
    count: u64,
) -> Result<bool, AllocError> {
    let mut machines = Machines::behind(heap, above)?;
    let states = machines.states()?;
    let refused = refusals(heap, &machines, &states, call)?;
    let mut others = Machines::behind(heap, above)?;
    let is_told = machines.tell_same(&mut others, next)?;
    let is_held = machines.hold_same(&others)?;
    Ok(is_told && is_held && refused == Some(count))
}

/// Returns the first call between two rows of which a refusal is not handled rightly, if there is
/// one. `lists` are the numbers of lists that are copied of the marker, the parser and the fact
/// reader.
fn wrong_call<'a>(heap: Heap<'a>, text: &str, lists: [u64; 3]) -> Result<Option<Call>, AllocError> {
    let rows = rows_of(heap, text)?;
    let Some(next) = rows.get(1) else {
        return Err(AllocError);
    };
    let above = rows.get(..1).unwrap_or(&[]);
    let [marker, parser, reader] = lists;
    let calls = [
        (Call::MarkerState, marker),
        (Call::MarkerResume, marker),
        (Call::ParserState, parser),
        (Call::ParserResume, parser),
        (Call::ReaderState, reader),
        (Call::ReaderResume, reader),
    ];
    for (call, count) in calls {
        if !is_refused(heap, above, next, call, count)? {
            return Ok(Some(call));
        }
    }
    Ok(None)
}

/// Texts of two rows, and the numbers of lists that are copied between the rows: of the marker,
/// which holds block collections, of the parser, which holds goals and block collections, and of
/// the fact reader, which holds collections. A list without items needs no allocation.
const TEXTS: [(&str, [u64; 3]); 4] = [
    ("a # b\n\n", [0, 1, 0]),
    ("- &x\n  a\n", [1, 2, 1]),
    ("a: !t {? b,\n  c: d}\n", [1, 2, 1]),
    ("[a,\n b]\n", [0, 1, 1]),
];

#[test]
fn of_each_copy(rt: HostRuntime) -> Result<(), Fail> {
    let refusing = FailingAlloc::new(rt.alloc());
    for (text, lists) in TEXTS {
        assert_eq!(rt; wrong_call(&refusing, text, lists)?, None, "{text:?}");
    }
    Ok(())
}

/// Returns `true` if the rules on lexemes fail to settle without memory when a problem waits after
/// a row, and return this one problem with memory.
fn is_settling_refused(heap: Heap<'_>) -> Result<bool, AllocError> {
    let rows = rows_of(heap, "a :")?;
    let mut machines = Machines::behind(heap, &rows)?;
    heap.refuse(1);
    let is_refused = machines.settle().is_err();
    heap.refuse(0);
    let mut others = Machines::behind(heap, &rows)?;
    let told = others.settle()?;
    Ok(is_refused && told.len() == 1)
}

/// Returns `true` if the rules on lexemes do not allocate to return or take a state, nor to settle
/// if no problem waits.
fn takes_no_memory(heap: Heap<'_>) -> bool {
    heap.refuse(1);
    let mut rules = LexemeRules::resume(LexemeRules::new().state());
    let mut findings = Vec::new(heap);
    let is_settled = rules
        .settle(&LexemeOptions::standard(), &mut findings)
        .is_ok();
    let is_armed = heap.is_armed();
    heap.refuse(0);
    is_settled && is_armed && findings.is_empty() && rules.state().is_settled()
}

#[test]
fn of_rules_on_lexemes(rt: HostRuntime) -> Result<(), Fail> {
    let refusing = FailingAlloc::new(rt.alloc());
    assert!(rt; is_settling_refused(&refusing)?);
    assert!(rt; takes_no_memory(&refusing));
    Ok(())
}
