//! Bodies that are read.
use crate::calls::Told;
use failing_alloc::FailingAlloc;
use json::Scratch;
use std::alloc::{AllocError, Allocator, Global};
use test_cases::{say, write};
use yl_devices::RunFault;
use yl_rpc::{BodyFault, call_of, read_body};

// Larger bodies are read but once.
const SMALL: usize = 1000;

// What a body is, with this allocator.
fn told<A: Allocator + Copy>(heap: A, alloc: Global, bytes: &[u8]) -> Result<Told, RunFault> {
    let mut body = bytes.to_vec(alloc)?;
    let mut scratch = Scratch::new(heap);
    let mut told = Told {
        alloc,
        lines: Vec::new(alloc),
    };
    match read_body(heap, body.as_mut_slice(), &mut scratch) {
        Ok(value) => told.tell(call_of(&value))?,
        Err(fault) => told.refuse(fault)?,
    }
    Ok(told)
}

// Whether a body is not read for want of memory.
fn is_refused<A: Allocator + Copy>(
    heap: A,
    alloc: Global,
    bytes: &[u8],
) -> Result<bool, AllocError> {
    let mut body = bytes.to_vec(alloc)?;
    let mut scratch = Scratch::new(heap);
    match read_body(heap, body.as_mut_slice(), &mut scratch) {
        Ok(_) => Ok(false),
        Err(fault) => Ok(fault == BodyFault::Memory),
    }
}

// Whether each allocation that is refused, one after another, is told as such.
fn tells_each_refusal(alloc: Global, bytes: &[u8]) -> Result<bool, AllocError> {
    let heap = FailingAlloc::new(alloc);
    for nth in 1..u64::MAX {
        heap.refuse(nth);
        let is_refused = is_refused(&heap, alloc, bytes)?;
        if heap.is_armed() {
            return Ok(!is_refused);
        }
        if !is_refused {
            return Ok(false);
        }
    }
    Ok(false)
}

/// Prints what a body is.
pub fn show_body(rt: &HostRuntime, bytes: &[u8]) -> Result<(), RunFault> {
    let alloc = rt.alloc();
    let whole = told(alloc, alloc, bytes)?;
    write(rt, whole.lines.as_slice())?;
    if bytes.len() <= SMALL && !tells_each_refusal(alloc, bytes)? {
        say(rt, "is read otherwise where memory is refused")?;
    }
    Ok(())
}
