//! Runs of `lint` and `drive`. What is called here has long clauses, and this function has none, so a call of it brings none with it.
use std::alloc::Allocator;
use std::io::Read;
use test_cases::MemoryWriter;
use yl_cli::{drive, lint};
use yl_config::Config;
use yl_devices::RunFault;
use yl_programs::Flags;
use yl_text::{PlainStore, Watched};

/// What is called: `lint` of what is read, or `drive` of this text by the commands that are read.
#[derive(Clone, Copy)]
pub enum Task<'a> {
    Lint,
    Drive(&'a [u8]),
}

/// A call, its configuration and its flags.
#[derive(Clone, Copy)]
pub struct Call<'a> {
    pub task: Task<'a>,
    pub config: Config,
    pub flags: Flags,
}

/// What a run answers, what it has written then, and how often its devices failed.
#[derive(Drop)]
pub struct Ran {
    pub answer: Result<u8, RunFault>,
    pub out: Vec<u8>,
    pub read_failures: u64,
    pub write_failures: u64,
}

/// A run of a call.
pub fn run<A: Allocator + Copy, R: Read + Drop>(
    taken: A,
    call: Call<'_>,
    reader: R,
    writer: MemoryWriter,
) -> Ran {
    let name = "f.yaml";
    let config = call.config;
    let flags = call.flags;
    let mut input = Watched::new(reader);
    let mut out = Watched::new(writer);
    let answer = match call.task {
        Task::Lint => lint(taken, name, &config, flags, &mut input, &mut out),
        Task::Drive(text) => {
            drive::<PlainStore<A>, _, _>(taken, name, config, flags, text, &mut input, &mut out)
        }
    };
    Ran {
        answer,
        read_failures: input.failures(),
        write_failures: out.failures(),
        out: out.into_inner().bytes,
    }
}
