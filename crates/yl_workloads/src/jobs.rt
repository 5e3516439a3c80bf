//! The jobs. Each makes the calls that a user waits for on texts of its own, and adds all that they
//! print to a digest.
use crate::commands::Commands;
use crate::digest::Digest;
use crate::maker::Maker;
use crate::texts::{
    ENTRIES, ENTRIES_WITH_PROBLEMS, FLOW_END, FLOW_ENTRIES, FLOW_HEAD, HEAD, HURRIED_ENTRY,
    HURRIED_MANIFEST, MANIFESTS, WARNINGS,
};
use std::alloc::{AllocError, Global};
use yl_chunks::ChunkStore;
use yl_cli::{drive, lint};
use yl_config::Config;
use yl_devices::{RunFault, text_of};
use yl_dump::{DumpFault, write_events};
use yl_programs::Flags;
use yl_text::Watched;

const FLAGS: Flags = Flags {
    strict: true,
    no_warnings: false,
    work: false,
};

// Flags by which warnings are found, and not printed.
const NO_WARNINGS: Flags = Flags {
    strict: true,
    no_warnings: true,
    work: false,
};

// The name under which problems are printed.
const NAME: &str = "text.yaml";

/// The number of objects of a file of Kubernetes manifests, which has some 1 MB.
const OBJECTS: u32 = 1_800;
/// A small file has fewer entries than this.
const ENTRIES_OF_FILE: u32 = 60;
/// The number of lines of flow collections of a document, which has some 2 MB.
const FLOW_LINES: u32 = 6_000;
/// The number of entries of a long line of flow collections. One of `FLOW_LONG_EVERY` lines is
/// long.
const FLOW_LONG: u32 = 400;

const FLOW_LONG_EVERY: u32 = 64;
/// The number of documents of an edited text, and the number of entries of each.
const DOCUMENTS: u32 = 500;

const ENTRIES_OF_DOCUMENT: u32 = 120;
/// The number of entries of an edited text of one document.
const ENTRIES_OF_ONE: u32 = 2_500;
/// The approximate number of lines of two entries.
const LINES_OF_TWO: u32 = 9;
/// The number of documents of a text with many problems, the number of problems of each, and the
/// approximate number of its lines.
const DOCUMENTS_WITH_PROBLEMS: u32 = 4_000;

const PROBLEMS_OF_DOCUMENT: u32 = 5;

const LINES_OF_DOCUMENT: u32 = 44;

/// The work that is asked for.
#[derive(Clone, Copy)]
pub enum Job {
    /// Lints files of Kubernetes manifests.
    Manifests,
    /// Lints small files.
    Files,
    /// Lints documents of flow collections with some very long lines.
    Flow,
    /// Edits a text of many documents.
    Typing,
    /// Edits a text of one large document.
    Document,
    /// Prints the events of files of Kubernetes manifests.
    Events,
    /// Edits a text of many documents with problems.
    Problems,
}

/// Returns the job of this name, if there is one.
pub fn job_of(word: &str) -> Option<Job> {
    match word {
        "manifests" => Some(Job::Manifests),
        "files" => Some(Job::Files),
        "flow" => Some(Job::Flow),
        "typing" => Some(Job::Typing),
        "document" => Some(Job::Document),
        "events" => Some(Job::Events),
        "problems" => Some(Job::Problems),
        _ => None,
    }
}

fn put_objects(maker: &mut Maker, count: u32) -> Result<(), AllocError> {
    for _ in 0..count {
        maker.put_one(&MANIFESTS, HURRIED_MANIFEST, 100)?;
    }
    Ok(())
}

fn put_document(maker: &mut Maker, count: u32) -> Result<(), AllocError> {
    maker.put(HEAD)?;
    for _ in 0..count {
        maker.put_one(&ENTRIES, HURRIED_ENTRY, 1_000)?;
    }
    Ok(())
}

fn put_documents(maker: &mut Maker) -> Result<(), AllocError> {
    for _ in 0..DOCUMENTS {
        put_document(maker, ENTRIES_OF_DOCUMENT)?;
    }
    Ok(())
}

// Adds documents in which an entry with a problem follows each of some other entries.
fn put_documents_with_problems(maker: &mut Maker) -> Result<(), AllocError> {
    for _ in 0..DOCUMENTS_WITH_PROBLEMS {
        maker.put(HEAD)?;
        for _ in 0..PROBLEMS_OF_DOCUMENT {
            maker.put_one(&ENTRIES, HURRIED_ENTRY, 1_000)?;
            maker.put_one(&ENTRIES_WITH_PROBLEMS, HURRIED_ENTRY, 1_000)?;
        }
    }
    Ok(())
}

// Adds a line of entries of a flow sequence, each with a comma after it.
fn put_flow_line(maker: &mut Maker, count: u32) -> Result<(), AllocError> {
    let mut before = "  ";
    for _ in 0..count {
        maker.put(before)?;
        maker.put_one(&FLOW_ENTRIES, "[]", 100)?;
        maker.put(",")?;
        before = " ";
    }
    maker.put("\n")
}

fn put_flow(maker: &mut Maker) -> Result<(), AllocError> {
    maker.put(FLOW_HEAD)?;
    for _ in 0..FLOW_LINES {
        let count = if maker.below(FLOW_LONG_EVERY) == 0 {
            FLOW_LONG
        } else {
            maker.below(4)
        };
        put_flow_line(maker, count)?;
    }
    maker.put(FLOW_END)
}

fn see_lint(alloc: Global, text: &[u8], digest: &mut Digest) -> Result<(), RunFault> {
    let mut input = Watched::new(text);
    let mut out = Watched::new(Vec::new(alloc));
    let status = lint(
        alloc,
        NAME,
        &Config::standard(),
        FLAGS,
        &mut input,
        &mut out,
    )?;
    digest.see(out.into_inner().as_slice(), status);
    Ok(())
}

fn see_events(alloc: Global, text: &[u8], digest: &mut Digest) -> Result<(), RunFault> {
    let text = match text_of(text) {
        Ok(text) => text,
        Err(fault) => return Err(RunFault::Text(fault)),
    };
    let mut out = Vec::new(alloc);
    match write_events(alloc, text, &mut out) {
        Ok(()) => {
            digest.see(out.as_slice(), 0);
            Ok(())
        }
        Err(DumpFault::Write) => Err(RunFault::Write),
        Err(DumpFault::Memory) => Err(RunFault::Memory),
    }
}

fn see_edits(
    alloc: Global,
    config: Config,
    flags: Flags,
    text: &[u8],
    commands: &Commands,
    digest: &mut Digest,
) -> Result<(), RunFault> {
    let mut input = Watched::new(commands.as_slice());
    let mut out = Watched::new(Vec::new(alloc));
    let status = drive::<ChunkStore<_>, _, _>(
        alloc, NAME, config, flags, text, &mut input, &mut out,
    )?;
    digest.see(out.into_inner().as_slice(), status);
    Ok(())
}

fn see_file(
    alloc: Global,
    job: Job,
    mut maker: Maker,
    digest: &mut Digest,
) -> Result<(), RunFault> {
    match job {
        Job::Flow => put_flow(&mut maker)?,
        Job::Files => {
            let count = maker.below(ENTRIES_OF_FILE);
            put_document(&mut maker, count)?;
        }
        _ => put_objects(&mut maker, OBJECTS)?,
    }
    let text = maker.into_text();
    match job {
        Job::Events => see_events(alloc, text.as_slice(), digest),
        _ => see_lint(alloc, text.as_slice(), digest),
    }
}

// Edits a text at up to `count` places.
fn see_work(
    alloc: Global,
    job: Job,
    seed: u64,
    count: u32,
    digest: &mut Digest,
) -> Result<(), RunFault> {
    let mut maker = Maker::new(alloc, seed, 0);
    let entries = match job {
        Job::Typing => {
            put_documents(&mut maker)?;
            DOCUMENTS * ENTRIES_OF_DOCUMENT
        }
        _ => {
            put_document(&mut maker, ENTRIES_OF_ONE)?;
            ENTRIES_OF_ONE
        }
    };
    let text = maker.into_text();
    let mut commands = Commands::new(alloc);
    let mut choices = Maker::new(alloc, seed, 1);
    commands.work(
        text.as_slice(),
        &mut choices,
        entries * LINES_OF_TWO / 2,
        count,
    )?;
    let config = Config::standard();
    see_edits(alloc, config, FLAGS, text.as_slice(), &commands, digest)
}

// Edits a text with many problems, which are warnings, at up to `count` places.
fn see_problems(alloc: Global, seed: u64, count: u32, digest: &mut Digest) -> Result<(), RunFault> {
    let Ok(config) = Config::read(alloc, WARNINGS.as_bytes()) else {
        return Err(RunFault::Memory);
    };
    let mut maker = Maker::new(alloc, seed, 0);
    put_documents_with_problems(&mut maker)?;
    let text = maker.into_text();
    let mut commands = Commands::new(alloc);
    let mut choices = Maker::new(alloc, seed, 1);
    let lines = DOCUMENTS_WITH_PROBLEMS * LINES_OF_DOCUMENT;
    commands.words(text.as_slice(), &mut choices, lines, count)?;
    see_edits(
        alloc,
        config,
        NO_WARNINGS,
        text.as_slice(),
        &commands,
        digest,
    )
}

/// Does a job on `count` texts, or at up to `count` places of one text, and returns the digest of
/// what was printed. Each seed gives other texts. Returns the fault of a run, if it has one.
pub fn done(alloc: Global, job: Job, seed: u64, count: u32) -> Result<Digest, RunFault> {
    let mut digest = Digest::new();
    match job {
        Job::Typing | Job::Document => see_work(alloc, job, seed, count, &mut digest)?,
        Job::Problems => see_problems(alloc, seed, count, &mut digest)?,
        _ => {
            for stream in 0..count {
                let maker = Maker::new(alloc, seed, stream as u64);
                see_file(alloc, job, maker, &mut digest)?;
            }
        }
    }
    Ok(digest)
}
