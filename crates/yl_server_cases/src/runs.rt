//! Runs of `serve`. The functions that are called here have long contracts. This function has none,
//! so that a call of it brings in no contract.
use crate::devices::{Devices, EditorReader, EditorWriter, Files, Input};
use std::alloc::Allocator;
use std::cell::Cell;
use yl_config::Config;
use yl_frames::Output;
use yl_server::{ServeFault, serve};
use yl_text::{PlainStore, Watched};

/// The result of a run.
#[derive(Drop)]
pub struct Ran {
    /// The result of `serve`.
    pub answer: Result<u8, ServeFault>,
    /// The bytes that were written.
    pub out: Vec<u8>,
    /// The number of bytes that were written each time the reader waited for a piece.
    pub noted: Vec<u64>,
    /// The number of reads that failed.
    pub read_failures: u64,
    /// The number of writes that failed.
    pub write_failures: u64,
}

/// Runs the server on an input.
pub fn run<A: Allocator + Copy>(taken: A, input: Input<'_>, devices: Devices) -> Ran {
    let written = Cell::new(0);
    let mut files = Files::new(taken);
    let mut reader = Watched::new(EditorReader::new(input, devices, &written));
    let mut out = Output::new(Watched::new(EditorWriter::new(input.alloc, devices, &written)));
    let config = Config::standard();
    let answer = serve::<PlainStore<A>, _, _, _>(taken, config, &mut files, &mut reader, &mut out);
    let writer = out.into_inner();
    Ran {
        answer,
        read_failures: reader.failures(),
        write_failures: writer.failures(),
        out: writer.into_inner().bytes,
        noted: reader.into_inner().noted,
    }
}
