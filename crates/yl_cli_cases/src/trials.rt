//! What a run has to do where its devices give and take little, where they fail, and where memory is refused.
use crate::runs::{Call, Ran, Task, run};
use failing_alloc::FailingAlloc;
use std::alloc::Global;
use test_cases::{MemoryReader, MemoryWriter};
use yl_devices::RunFault;

// A writer has room for fewer bytes than these where it is to have too little.
const MOST_ROOM: usize = 1000;

/// What is run again, what it did where nothing failed, and how often it asks for memory at least.
#[derive(Clone, Copy)]
pub struct Trial<'a> {
    pub alloc: Global,
    pub call: Call<'a>,
    pub input: &'a [u8],
    pub whole: &'a Ran,
    pub least: u64,
}

// A reader of bytes that all come at once.
fn reader(bytes: &[u8]) -> MemoryReader<'_> {
    MemoryReader::new(bytes, usize::MAX, 0)
}

/// A run in which nothing fails.
pub fn whole(alloc: Global, call: Call<'_>, input: &[u8]) -> Ran {
    run(alloc, call, reader(input), MemoryWriter::new(alloc))
}

// Whether a run did all.
fn did_all(trial: &Trial<'_>, ran: &Ran) -> bool {
    ran.answer == trial.whole.answer && ran.out.as_slice() == trial.whole.out.as_slice()
}

// Whether a run ended at a failed write, with so many bytes out.
fn is_cut(trial: &Trial<'_>, ran: &Ran, room: usize) -> bool {
    ran.answer == Err(RunFault::Write)
        && ran.write_failures == 1
        && ran.out.len() == room
        && trial.whole.out.as_slice().starts_with(ran.out.as_slice())
}

// Readers that give few bytes a call, and writers that take as many.
fn goes_in_pieces(trial: &Trial<'_>) -> bool {
    for most in [1, 2, 3, 4, 7, 100] {
        let reader = MemoryReader::new(trial.input, most, 0);
        let mut writer = MemoryWriter::new(trial.alloc);
        writer.most = most;
        if !did_all(trial, &run(trial.alloc, trial.call, reader, writer)) {
            return false;
        }
    }
    true
}

// A writer that takes so many bytes in all, and then fails or takes none.
fn stops_without_room(trial: &Trial<'_>, fails: bool) -> bool {
    for room in 0..trial.whole.out.len().min(MOST_ROOM) {
        let mut writer = MemoryWriter::new(trial.alloc);
        writer.most = 4;
        writer.room = room;
        writer.fails = fails;
        let ran = run(trial.alloc, trial.call, reader(trial.input), writer);
        if !is_cut(trial, &ran, room) {
            return false;
        }
    }
    true
}

// A writer that fails at one call or takes none, each call in turn, up to the first run that meets none.
fn stops_at_each_write(trial: &Trial<'_>, fails: bool) -> bool {
    for nth in 1..u64::MAX {
        let mut writer = MemoryWriter::new(trial.alloc);
        writer.most = 1000;
        writer.fails_at = nth;
        writer.fails = fails;
        let ran = run(trial.alloc, trial.call, reader(trial.input), writer);
        if ran.write_failures == 0 {
            return did_all(trial, &ran);
        }
        if ran.out.len() >= trial.whole.out.len() || !is_cut(trial, &ran, ran.out.len()) {
            return false;
        }
    }
    false
}

// Whether a run ended at a failed read, behind so many bytes, with all out that is answered of these.
fn is_ended(trial: &Trial<'_>, ran: &Ran, read: &[u8]) -> bool {
    let is_out = match trial.call.task {
        Task::Lint => ran.out.is_empty(),
        Task::Drive(_) => {
            let earlier = whole(trial.alloc, trial.call, read);
            earlier.out.as_slice() == ran.out.as_slice()
        }
    };
    is_out && ran.answer == Err(RunFault::Read) && ran.read_failures == 1
}

// A reader that gives a byte a call and fails behind so many, each number in turn. Commands may end before all is read.
fn stops_at_each_read(trial: &Trial<'_>) -> bool {
    for calls in 0..trial.input.len().saturating_add(1) {
        let reader = MemoryReader::new(trial.input, 1, (calls as u64).saturating_add(1));
        let ran = run(
            trial.alloc,
            trial.call,
            reader,
            MemoryWriter::new(trial.alloc),
        );
        if ran.read_failures == 0 {
            return matches!(&trial.call.task, Task::Drive(_)) && did_all(trial, &ran);
        }
        let read = trial.input.get(..calls).unwrap_or(&[]);
        if !is_ended(trial, &ran, read) {
            return false;
        }
    }
    true
}

// Each growth refused in turn: such a run wants memory and writes nothing.
fn wants_each_growth(trial: &Trial<'_>) -> bool {
    let heap = FailingAlloc::new(trial.alloc);
    for nth in 1..u64::MAX {
        heap.refuse(nth);
        let ran = run(
            &heap,
            trial.call,
            reader(trial.input),
            MemoryWriter::new(trial.alloc),
        );
        if heap.is_armed() {
            return did_all(trial, &ran) && nth > trial.least;
        }
        if ran.answer != Err(RunFault::Memory) || !ran.out.is_empty() {
            return false;
        }
    }
    false
}

/// What is answered otherwise than it has to be, if anything is.
pub fn failure(trial: &Trial<'_>) -> Option<&'static str> {
    if !goes_in_pieces(trial) {
        return Some("is answered otherwise in pieces");
    }
    if !stops_at_each_read(trial) {
        return Some("is answered otherwise where a read fails");
    }
    for fails in [true, false] {
        if !stops_without_room(trial, fails) || !stops_at_each_write(trial, fails) {
            return Some("is answered otherwise where a write fails");
        }
    }
    match trial.call.task {
        Task::Lint if !wants_each_growth(trial) => Some(
            "is answered otherwise where memory is refused",
        ),
        _ => None,
    }
}
