//! Edits and lists of edits in which each allocation is refused in turn, up to the first run in
//! which none is.
use crate::edits::Held;
use crate::sessions::{Replayed, make, opened, push_answer, push_state, replayed};
use failing_alloc::FailingAlloc;
use std::alloc::{AllocError, Global};
use yl_devices::RunFault;
use yl_session::{Edit, Session};
use yl_text::{LineStore, TextFault};

// Stops refusing allocations. Returns `true` if the `n`th allocation was refused.
fn disarm(heap: &FailingAlloc<Global>, n: u64) -> bool {
    let is_met = n > 0 && !heap.is_armed();
    heap.refuse(0);
    is_met
}

// Returns the text that must be shown if no allocation is refused: the answers from the index
// `begin` on, and the state of the session.
fn whole<S: LineStore>(alloc: Global, held: &Held<S>, begin: usize) -> Result<Vec<u8>, RunFault> {
    let answers = held.answers.as_slice().get(begin..).unwrap_or(&[]);
    let mut out = Vec::from_slice(alloc, answers)?;
    push_state(alloc, &held.session, &mut out)?;
    Ok(out)
}

// Returns a new session over the text, after the first `count` edits. The edit with the index
// `refused` is not made, and its answer is `Memory`. Appends the answer to each edit.
fn made<S: LineStore>(
    alloc: Global,
    held: &Held<S>,
    count: usize,
    refused: usize,
    out: &mut Vec<u8>,
) -> Result<Session<S>, RunFault> {
    let Ok(mut session) = opened(held.taken, &held.config, held.text.as_slice()) else {
        return Err(RunFault::Memory);
    };
    for (i, edit) in held.edits.as_slice().iter().take(count).enumerate() {
        let answer = if i == refused {
            Err(TextFault::Memory)
        } else {
            make(&mut session, edit)
        };
        push_answer(alloc, answer, out)?;
    }
    Ok(session)
}

// Makes an edit with the `n`th allocation refused, or none if `n` is 0. Appends the answer and the
// state of the session. Returns `true` if an allocation was refused.
fn try_edit<S: LineStore>(
    alloc: Global,
    heap: &FailingAlloc<Global>,
    n: u64,
    session: &mut Session<S>,
    edit: &Edit<S::Alloc>,
    out: &mut Vec<u8>,
) -> Result<bool, RunFault> {
    heap.refuse(n);
    let answer = make(session, edit);
    let is_met = disarm(heap, n);
    push_answer(alloc, answer, out)?;
    push_state(alloc, session, out)?;
    Ok(is_met)
}

// Makes the last edit in a new session with the `n`th allocation refused, and again if it was
// refused. Appends the answers and the states of the session. Returns `true` if an allocation was
// refused.
fn try_last<S: LineStore>(
    alloc: Global,
    heap: &FailingAlloc<Global>,
    held: &Held<S>,
    n: u64,
    out: &mut Vec<u8>,
) -> Result<bool, RunFault> {
    let Some((edit, earlier)) = held.edits.as_slice().split_last() else {
        return Ok(false);
    };
    let mut answers = Vec::new(alloc);
    let mut session: Session<S> = made(alloc, held, earlier.len(), usize::MAX, &mut answers)?;
    let is_met = try_edit(alloc, heap, n, &mut session, edit, out)?;
    if is_met {
        try_edit(alloc, heap, 0, &mut session, edit, out)?;
    }
    Ok(is_met)
}

// Returns the text that `try_last` must append if an allocation is refused: the edit fails with
// `Memory` and changes nothing, and the second edit is made as if no allocation was refused.
fn last_wanted<S: LineStore>(
    alloc: Global,
    held: &Held<S>,
    whole: &[u8],
) -> Result<Vec<u8>, RunFault> {
    let count = held.edits.len().saturating_sub(1);
    let mut answers = Vec::new(alloc);
    let session: Session<S> = made(alloc, held, count, usize::MAX, &mut answers)?;
    let mut out = Vec::from_slice(alloc, b"Memory\n")?;
    push_state(alloc, &session, &mut out)?;
    out.extend_from_slice(whole)?;
    Ok(out)
}

/// Returns the number of allocations of the last edit. If one is refused, the edit must fail with
/// `Memory` and change nothing, and a second edit must succeed. Returns `None` if this is not so.
pub fn edit_growths<S: LineStore>(
    alloc: Global,
    heap: &FailingAlloc<Global>,
    held: &Held<S>,
) -> Result<Option<u64>, RunFault> {
    let whole = whole(alloc, held, held.last)?;
    let wanted = last_wanted(alloc, held, whole.as_slice())?;
    for n in 1..u64::MAX {
        let mut shown = Vec::new(alloc);
        let is_met = try_last(alloc, heap, held, n, &mut shown)?;
        if !is_met {
            return Ok((shown.as_slice() == whole.as_slice()).then_some(n.saturating_sub(1)));
        }
        if shown.as_slice() != wanted.as_slice() {
            return Ok(None);
        }
    }
    Ok(None)
}

// Appends the answers to the edits of a list and the state of the session after them, or the fault
// if there is no session.
fn push_replayed<S: LineStore>(
    alloc: Global,
    answer: Result<Replayed<S>, TextFault>,
    out: &mut Vec<u8>,
) -> Result<(), RunFault> {
    let (session, answers) = match answer {
        Ok(replayed) => replayed,
        Err(fault) => return Ok(push_answer(alloc, Err(fault), out)?),
    };
    for answer in answers.as_slice() {
        push_answer(alloc, *answer, out)?;
    }
    push_state(alloc, &session, out)
}

// Makes all edits as a list with the `n`th allocation refused, or none if `n` is 0. Appends the
// result. Returns `true` if an allocation was refused.
fn try_list<S: LineStore>(
    alloc: Global,
    heap: &FailingAlloc<Global>,
    held: &Held<S>,
    n: u64,
    out: &mut Vec<u8>,
) -> Result<bool, RunFault> {
    heap.refuse(n);
    let answer = replayed::<S>(
        held.taken,
        &held.config,
        held.text.as_slice(),
        held.edits.as_slice(),
    );
    let is_met = disarm(heap, n);
    push_replayed(alloc, answer, out)?;
    Ok(is_met)
}

// Returns the text that `try_list` must append if an allocation is refused. If `number` is 0, there
// is no session. Otherwise the edit before this number in the list fails with `Memory` and changes
// nothing.
fn list_wanted<S: LineStore>(
    alloc: Global,
    held: &Held<S>,
    number: usize,
) -> Result<Vec<u8>, RunFault> {
    let Some(refused) = number.checked_sub(1) else {
        return Ok(Vec::from_slice(alloc, b"Memory\n")?);
    };
    let mut out = Vec::new(alloc);
    let session: Session<S> = made(alloc, held, held.edits.len(), refused, &mut out)?;
    push_state(alloc, &session, &mut out)?;
    Ok(out)
}

// Returns the first number, from `from` on, for which `try_list` must append this text.
fn number_of<S: LineStore>(
    alloc: Global,
    held: &Held<S>,
    from: usize,
    shown: &[u8],
) -> Result<Option<usize>, RunFault> {
    for number in from..held.edits.len().saturating_add(1) {
        let wanted = list_wanted(alloc, held, number)?;
        if wanted.as_slice() == shown {
            return Ok(Some(number));
        }
    }
    Ok(None)
}

/// Returns the number of allocations of opening the text and making all edits as a list. The result
/// must be that of making them one by one. Refuses each allocation in turn if `first` is 1, and
/// none if it is 0. If an allocation of opening or of the list of answers is refused, the whole
/// list must fail. If a later one is refused, its edit must fail and change nothing. Returns `None`
/// if this is not so.
pub fn list_growths<S: LineStore>(
    alloc: Global,
    heap: &FailingAlloc<Global>,
    held: &Held<S>,
    first: u64,
) -> Result<Option<u64>, RunFault> {
    let whole = whole(alloc, held, 0)?;
    let mut number = 0;
    let mut wanted = Vec::new(alloc);
    for n in first..u64::MAX {
        let mut shown = Vec::new(alloc);
        if !try_list(alloc, heap, held, n, &mut shown)? {
            return Ok((shown.as_slice() == whole.as_slice()).then_some(n.saturating_sub(1)));
        }
        if shown.as_slice() != wanted.as_slice() {
            match number_of(alloc, held, number, shown.as_slice())? {
                Some(later) => number = later,
                None => return Ok(None),
            }
            wanted = shown;
        }
    }
    Ok(None)
}
