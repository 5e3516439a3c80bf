//! `yl_workloads JOB SEED COUNT`: does the work of a benchmark on texts that it makes, and prints
//! the job's name, a digest of all that was printed, and the number of bytes of that.
#![tactic(auto)]

mod commands;
mod digest;
mod jobs;
mod maker;
mod texts;

use digest::Digest;
use itoa::Buffer;
use jobs::{Job, done, job_of};
use std::process::ExitCode;
use yl_programs::{FAULT, words};

// Returns what the words ask for, if they are a job, a seed and a number.
fn asked(words: &[String]) -> Option<(Job, u64, u32)> {
    let [job, seed, count] = words else {
        return None;
    };
    let job = job_of(job.as_str())?;
    let seed: u64 = seed.as_str().parse().ok()?;
    let count: u32 = count.as_str().parse().ok()?;
    Some((job, seed, count))
}

// Prints the job's name, the digest and the number of bytes. Returns `true` if all is printed.
fn tell(rt: &HostRuntime, job: &str, digest: Digest) -> bool {
    let mut buffer = Buffer::new();
    let value = buffer.format(digest.value());
    let mut more = Buffer::new();
    let count = more.format(digest.count());
    for part in [job, " ", value, " ", count, "\n"] {
        if rt.print(part).is_err() {
            return false;
        }
    }
    true
}

fn answered(rt: &HostRuntime) -> u8 {
    let words = match words(rt) {
        Ok(words) => words,
        Err(_) => return FAULT,
    };
    let (job, seed, count) = match asked(words.as_slice()) {
        Some(asked) => asked,
        None => {
            let _ = rt.print("yl_workloads JOB SEED COUNT\n");
            return FAULT;
        }
    };
    let digest = match done(rt.alloc(), job, seed, count) {
        Ok(digest) => digest,
        Err(_) => return FAULT,
    };
    let name = match words.first() {
        Some(name) => name.as_str(),
        None => "",
    };
    if tell(rt, name, digest) { 0 } else { FAULT }
}

fn main(rt: HostRuntime) -> ExitCode {
    ExitCode::from(answered(&rt))
}
