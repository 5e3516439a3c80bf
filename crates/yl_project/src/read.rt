//! Reads configurations from their bytes.
ghost use Rattle.std.specs.Prelude.{◌≡◌, ◌<◌, ◌-◌, ◌^◌, All, IfOk, length, map, []};
ghost use Rattle.std.specs.Str.{chars};
ghost use Rattle.yl_text.specs.Lines.{lines_of};
ghost use Rattle.yl_events.specs.Event.{event_value};
ghost use Rattle.yl_scan.specs.Step.{characters_of};
ghost use Rattle.yl_config.specs.Outcome.{from_own};
ghost use Rattle.yl_config.specs.TextReading.{reading_of};
ghost use Rattle.yl_project.specs.Answered.{project_answer, project_value};
ghost use Rattle.yl_project.specs.Outcome.{IsNamedIn, IsProjectOver, Says, naming, next_place, own_events, projecting, told, told_of, told_own};

use crate::document::Document;
use crate::named::{Named, named_of};
use crate::project::Project;
use crate::texts::read_lines;
use std::alloc::{AllocError, Allocator};
use yl_config::{
    BuiltDocument, ConfigFault, Misfit, build_all, end_of, fault_of, from_one, from_own, in_text,
    place_behind, place_of_scan_fault, root_of, text_fault,
};
use yl_events::Event;
use yl_lexeme::Meter;
use yl_patterns::Patterns;
use yl_scan::scan;
use yl_text::{MAX_BYTES, Pos, Row, TextFault, split};

/// Returns the events of the first document, or none if there is no document.
fn own_events<'c, 'b, A: Allocator>(documents: &'c [BuiltDocument<'_, 'b, A>]) -> &'c [Event<'b>]
    ensures { map event_value result.now ≡ own_events documents.now }
{
    match documents {
        [] => &[],
        [own, ..] => &own.built.events,
    }
}

/// Returns the start of the second document, if there is one.
fn next_place<A: Allocator>(documents: &[BuiltDocument<'_, '_, A>]) -> Option<Pos>
    ensures { result ≡ next_place documents.now }
{
    match documents {
        [] => None,
        [_, later @ ..] => place_behind(None, from_own(later)),
    }
}

/// Returns the files that these documents name. The only error is out of memory.
fn named_own<A: Allocator + Copy>(
    alloc: A,
    documents: &[BuiltDocument<'_, '_, A>],
) -> Result<Named<A>, AllocError>
    ensures { IfOk result (λ named. Ok named ≡ told_own (naming []) (from_own documents.now)) }
{
    named_of(alloc, own_events(from_own(documents)))
}

/// Returns the files that the lines of a text name. The outer error is out of memory.
fn named_rows<A: Allocator + Copy>(
    alloc: A,
    rows: &[Row<A>],
) -> Result<Result<Named<A>, ConfigFault>, AllocError>
    requires few { length rows.now < 2 ^ 32 - 1 }
    requires fits { All (λ row. length (chars row.text) < 2 ^ 31) rows.now }
    ensures { IfOk result (λ answer. Says (naming rows.now) (reading_of (characters_of rows.now)) answer) }
{
    let scanned = scan(alloc, rows, &mut Meter::new())?;
    let scan_fault = place_of_scan_fault(scanned.fault)?;
    let lexemes = in_text(alloc, &scanned.lexemes)?;
    let documents = build_all(alloc, &lexemes)?;
    match text_fault(end_of(rows), scan_fault, &documents) {
        Some(place) => Ok(Err(ConfigFault::Syntax(from_one(place)))),
        None => Ok(Ok(named_own(alloc, &documents)?)),
    }
}

impl<A: Allocator + Copy> Named<A> {
    /// Returns the files that a configuration names. `bytes` are its text in UTF-8. Skips values
    /// that are not names, and everything that does not fit.
    ///
    /// Returns the first error that applies of `TooLarge`, `NotUtf8` and `Syntax`, or `Memory` if
    /// memory runs out. `Syntax` has the position of the first fault of the text.
    pub fn read(alloc: A, bytes: &[u8]) -> Result<Named<A>, ConfigFault>
        ensures { IsNamedIn bytes.now result }
    {
        if bytes.len() > MAX_BYTES {
            return Err(ConfigFault::TooLarge);
        }
        let rows = match split(alloc, bytes) {
            Ok(rows) => rows,
            Err(TextFault::NotUtf8 { .. }) => return Err(ConfigFault::NotUtf8),
            Err(_) => return Err(ConfigFault::Memory),
        };
        match named_rows(alloc, &rows) {
            Ok(answer) => answer,
            Err(AllocError) => Err(ConfigFault::Memory),
        }
    }
}

/// Returns the error of the misfit `first` if there is one, else the project `said`.
fn told<A: Allocator>(said: Project<A>, first: Option<Misfit>) -> Result<Project<A>, ConfigFault>
    ensures { project_answer result ≡ told (project_value said) first }
{
    match first {
        None => Ok(said),
        Some(misfit) => Err(fault_of(misfit)),
    }
}

/// Returns the project of a document, laid over the project `base` that is extended. The outer
/// error is out of memory.
fn project_document<A: Allocator + Copy>(
    document: &Document<'_, '_, A>,
    next: Option<Pos>,
    base: Project<A>,
    ignore_lines: &str,
) -> Result<Result<Project<A>, ConfigFault>, AllocError>
    ensures { IfOk result (λ answer. project_answer answer ≡ told_of (projecting (project_value base) (lines_of ignore_lines.now) document.now.rows.now) (map event_value document.now.events.now) next) }
{
    let root = root_of(document.events);
    let files = read_lines(document.alloc, ignore_lines)?;
    let first = document.first_misfit(files.is_some(), &root, next)?;
    let files = files.unwrap_or(Patterns::new(document.alloc));
    Ok(told(document.said_over(base, files, &root)?, first))
}

/// Returns the project of the documents of a text, laid over the project `base` that is extended.
/// The outer error is out of memory.
fn project_own<A: Allocator + Copy>(
    alloc: A,
    rows: &[Row<A>],
    documents: &[BuiltDocument<'_, '_, A>],
    base: Project<A>,
    ignore_lines: &str,
) -> Result<Result<Project<A>, ConfigFault>, AllocError>
    ensures { IfOk result (λ answer. project_answer answer ≡ told_own (projecting (project_value base) (lines_of ignore_lines.now) rows.now) (from_own documents.now)) }
{
    let own = from_own(documents);
    let document = Document {
        alloc,
        rows,
        events: own_events(own),
    };
    project_document(&document, next_place(own), base, ignore_lines)
}

/// Returns the project of the lines of a text, laid over the project `base` that is extended. The
/// outer error is out of memory.
fn project_rows<A: Allocator + Copy>(
    alloc: A,
    rows: &[Row<A>],
    base: Project<A>,
    ignore_lines: &str,
) -> Result<Result<Project<A>, ConfigFault>, AllocError>
    requires few { length rows.now < 2 ^ 32 - 1 }
    requires fits { All (λ row. length (chars row.text) < 2 ^ 31) rows.now }
    ensures { IfOk result (λ answer. Says (projecting (project_value base) (lines_of ignore_lines.now) rows.now) (reading_of (characters_of rows.now)) (project_answer answer)) }
{
    let scanned = scan(alloc, rows, &mut Meter::new())?;
    let scan_fault = place_of_scan_fault(scanned.fault)?;
    let lexemes = in_text(alloc, &scanned.lexemes)?;
    let documents = build_all(alloc, &lexemes)?;
    let documents = documents.as_slice();
    match text_fault(end_of(rows), scan_fault, documents) {
        Some(place) => Ok(Err(ConfigFault::Syntax(from_one(place)))),
        None => project_own(alloc, rows, documents, base, ignore_lines),
    }
}

impl<A: Allocator + Copy> Project<A> {
    /// Reads a configuration over the project `base`, which it extends. `bytes` are its text in
    /// UTF-8. `ignore_lines` are the lines of the files that it names under `ignore-from-file`.
    ///
    /// Returns the first error that applies of `TooLarge`, `NotUtf8` and `Syntax`, else the error
    /// of the first misfit in the text, or `Memory` if memory runs out. `Syntax` has the position
    /// of the first fault of the text. Of two misfits at one position, the one that `ConfigFault`
    /// declares first is returned.
    pub fn read(
        alloc: A,
        bytes: &[u8],
        base: Project<A>,
        ignore_lines: &str,
    ) -> Result<Project<A>, ConfigFault>
        ensures { IsProjectOver (project_value base) ignore_lines.now bytes.now (project_answer result) }
    {
        if bytes.len() > MAX_BYTES {
            return Err(ConfigFault::TooLarge);
        }
        let rows = match split(alloc, bytes) {
            Ok(rows) => rows,
            Err(TextFault::NotUtf8 { .. }) => return Err(ConfigFault::NotUtf8),
            Err(_) => return Err(ConfigFault::Memory),
        };
        match project_rows(alloc, &rows, base, ignore_lines) {
            Ok(answer) => answer,
            Err(AllocError) => Err(ConfigFault::Memory),
        }
    }
}
