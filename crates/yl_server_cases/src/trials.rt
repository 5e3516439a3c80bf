//! Runs of the server with devices that take few bytes or fail, on each prefix of its input, and
//! with refused allocations.
use crate::devices::{Devices, GOOD, Input};
use crate::runs::{Ran, run};
use failing_alloc::FailingAlloc;
use std::alloc::AllocError;
use test_cases::sum_of;
use yl_server::ServeFault;

/// An input, and its run without failures.
#[derive(Clone, Copy)]
pub struct Trial<'a> {
    /// The input.
    pub input: Input<'a>,
    /// The run without failures.
    pub whole: &'a Ran,
}

// Runs the server with these devices.
fn ran(trial: &Trial<'_>, devices: Devices) -> Ran {
    run(trial.input.alloc, trial.input, devices)
}

// Returns `true` if a run did the same as the run without failures.
fn did_all(trial: &Trial<'_>, ran: &Ran) -> bool {
    let whole = trial.whole;
    ran.answer == whole.answer && ran.out.as_slice() == whole.out.as_slice()
}

// Returns `true` if a run wrote a prefix of what the run without failures wrote.
fn has_begun(trial: &Trial<'_>, ran: &Ran) -> bool {
    trial.whole.out.as_slice().starts_with(ran.out.as_slice())
}

// Runs the server with devices that take few bytes a call. Returns `true` if each run is right.
fn goes_in_pieces(trial: &Trial<'_>) -> bool {
    for most in [1, 2, 3, 7, 100] {
        let mut devices = GOOD;
        devices.most = most;
        if !did_all(trial, &ran(trial, devices)) {
            return false;
        }
    }
    true
}

// Runs the server with a writer that fails or accepts no bytes at one call, each call in turn, up
// to the first run that does not make this call. Returns `true` if each run is right.
fn stops_at_each_write(trial: &Trial<'_>, fails: bool) -> bool {
    for nth in 1..u64::MAX {
        let ran = ran(
            trial,
            Devices {
                most: 50,
                bad_read: 0,
                bad_write: nth,
                fails,
            },
        );
        if ran.write_failures == 0 {
            return did_all(trial, &ran);
        }
        let is_cut = ran.write_failures == 1 && ran.out.len() < trial.whole.out.len();
        if !is_cut || !has_begun(trial, &ran) || ran.answer != Err(ServeFault::Write) {
            return false;
        }
    }
    false
}

// Returns the number of messages that end in the first `bytes` bytes, and whether one ends after
// exactly these.
fn messages_in(lengths: &[usize], bytes: usize) -> (usize, bool) {
    let mut end = 0usize;
    let mut count = 0usize;
    let mut is_between = bytes == 0;
    for length in lengths {
        end = end.saturating_add(*length);
        if end <= bytes {
            count = count.saturating_add(1);
            is_between = end == bytes;
        }
    }
    (count, is_between)
}

// Returns `true` if a run wrote exactly the answers to the first `count` messages.
fn has_answered(trial: &Trial<'_>, ran: &Ran, count: usize) -> bool {
    let owed = match trial.whole.noted.get(count) {
        Some(owed) => *owed,
        None => trial.whole.out.len() as u64,
    };
    has_begun(trial, ran) && ran.out.len() as u64 == owed
}

// Returns how a run ends that reads `count` messages, and then the end of the input or a prefix of
// the next message.
fn end_behind(trial: &Trial<'_>, count: usize, is_between: bool) -> Result<u8, ServeFault> {
    if count >= trial.whole.noted.len() {
        trial.whole.answer
    } else if is_between {
        Ok(1)
    } else {
        Err(ServeFault::Header)
    }
}

// Runs the server on the first `bytes` bytes of the input. Returns `true` if the run is right.
fn ends_behind(trial: &Trial<'_>, bytes: usize) -> bool {
    let (count, is_between) = messages_in(trial.input.lengths, bytes);
    let mut input = trial.input;
    input.bytes = input.bytes.get(..bytes).unwrap_or(&[]);
    let ran = run(input.alloc, input, GOOD);
    ran.answer == end_behind(trial, count, is_between) && has_answered(trial, &ran, count)
}

// Runs the server with a reader that fails after `bytes` bytes, which it gives one a call. Returns
// `true` if the run is right. The run may end before the failure.
fn stops_behind(trial: &Trial<'_>, bytes: usize) -> bool {
    let (count, _) = messages_in(trial.input.lengths, bytes);
    let mut devices = GOOD;
    devices.most = 1;
    devices.bad_read = (bytes as u64).saturating_add(1);
    let ran = ran(trial, devices);
    if count >= trial.whole.noted.len() {
        return did_all(trial, &ran);
    }
    let is_stopped = ran.answer == Err(ServeFault::Read) && ran.read_failures == 1;
    is_stopped && has_answered(trial, &ran, count)
}

/// Returns the first kind of run with a wrong answer, if there is one.
pub fn failure(trial: &Trial<'_>) -> Option<&'static str> {
    if !goes_in_pieces(trial) {
        return Some("is answered otherwise in pieces");
    }
    for bytes in 0..trial.input.bytes.len().saturating_add(1) {
        if !ends_behind(trial, bytes) {
            return Some("is answered otherwise where the input ends");
        }
        if !stops_behind(trial, bytes) {
            return Some("is answered otherwise where a read fails");
        }
    }
    if !stops_at_each_write(trial, true) || !stops_at_each_write(trial, false) {
        return Some("is answered otherwise where a write fails");
    }
    None
}

/// Returns a sum for each run with a refused allocation that differs from the run without failures,
/// each sum once. A sum covers the bytes that were sent and the status. Returns `None` if such a
/// run ends with a fault.
pub fn refused(trial: &Trial<'_>) -> Result<Option<Vec<u64>>, AllocError> {
    let heap = FailingAlloc::new(trial.input.alloc);
    let mut sums = Vec::new(trial.input.alloc);
    for nth in 1..u64::MAX {
        heap.refuse(nth);
        let ran = run(&heap, trial.input, GOOD);
        let is_whole = did_all(trial, &ran);
        if heap.is_armed() {
            return Ok(is_whole.then_some(sums));
        }
        let Ok(status) = ran.answer else {
            return Ok(None);
        };
        let sum = sum_of(ran.out.as_slice()) as u64 * 2 + (status as u64).min(1);
        if !is_whole && !sums.as_slice().contains(&sum) {
            sums.push(sum)?;
        }
    }
    Ok(None)
}
