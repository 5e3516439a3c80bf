//! Reads a configuration from its bytes.
ghost use Rattle.std.specs.Prelude.{◌≡◌, ◌<◌, ◌^◌, All, IfOk, length, ◌-◌};
ghost use Rattle.std.specs.Str.{chars};
ghost use Rattle.yl_scan.specs.Step.{characters_of};
ghost use Rattle.yl_config.specs.Answered.{settings_answer};
ghost use Rattle.yl_config.specs.Outcome.{IsConfigOf, Says, from_own, is_lone_end, judged_own};
ghost use Rattle.yl_config.specs.TextReading.{reading_of};

use crate::config::Config;
use crate::documents::{BuiltDocument, build_all};
use crate::fault::{ConfigFault, from_one};
use crate::syntax::{place_behind, text_fault};
use crate::text::{end_of, in_text, place_of_scan_fault};
use std::alloc::{AllocError, Allocator};
use yl_lexeme::{Kind, Meter};
use yl_scan::scan;
use yl_text::{MAX_BYTES, Row, TextFault, split};

/// Returns whether a document consists of a marker `...` alone.
fn is_lone_end<A: Allocator>(document: &BuiltDocument<'_, '_, A>) -> bool
    ensures { result ≡ is_lone_end document.now.lexemes }
{
    match document.lexemes {
        [lexeme] => lexeme.lexeme.kind() == Kind::DocEnd,
        _ => false,
    }
}

/// Returns these documents from the first one that is a document of a configuration on. A marker
/// `...` alone is none.
pub fn from_own<'c, 'a, 'b, A: Allocator>(
    documents: &'c [BuiltDocument<'a, 'b, A>],
) -> &'c [BuiltDocument<'a, 'b, A>]
    ensures { result.now ≡ from_own documents.now }
{
    let mut rest = documents;
    while let [document, later @ ..] = rest {
        if !is_lone_end(document) {
            return rest;
        }
        rest = later;
    }
    rest
}

/// Returns the configuration in the one document of a configuration among these, or its fault. A
/// second one is a misfit.
fn judge_documents<A: Allocator>(
    documents: &[BuiltDocument<'_, '_, A>],
) -> Result<Config, ConfigFault>
    ensures { settings_answer result ≡ judged_own (from_own documents.now) }
{
    match from_own(documents) {
        [] => Config::of_document(&[], None),
        [document, later @ ..] => {
            Config::of_document(&document.built.events, place_behind(None, from_own(later)))
        }
    }
}

/// Returns the configuration in the lines of a text, or its fault. The only error is out of memory.
fn judge_rows<A: Allocator + Copy>(
    alloc: A,
    rows: &[Row<A>],
) -> Result<Result<Config, ConfigFault>, AllocError>
    requires few { length rows.now < 2 ^ 32 - 1 }
    requires fits { All (λ row. length (chars row.text) < 2 ^ 31) rows.now }
    ensures { IfOk result (λ answer. Says (reading_of (characters_of rows.now)) (settings_answer answer)) }
{
    let scanned = scan(alloc, rows, &mut Meter::new())?;
    let scan_fault = place_of_scan_fault(scanned.fault)?;
    let lexemes = in_text(alloc, &scanned.lexemes)?;
    let documents = build_all(alloc, &lexemes)?;
    match text_fault(end_of(rows), scan_fault, &documents) {
        Some(place) => Ok(Err(ConfigFault::Syntax(from_one(place)))),
        None => Ok(judge_documents(&documents)),
    }
}

impl Config {
    /// Reads a configuration from the bytes of its text, in UTF-8.
    ///
    /// Returns the first fault that applies, in this order: `TooLarge`, `NotUtf8`, `Syntax` at the
    /// first fault of the text, then the first misfit in the text. Of two misfits at one position,
    /// the fault is the one that comes first among `NotAMapping`, `UnknownKey`, `UnknownRule`,
    /// `UnknownOption`, `BadValue`, `BadLevel` and `UnknownExtends`. Returns `Memory` if out of
    /// memory.
    pub fn read<A: Allocator + Copy>(alloc: A, bytes: &[u8]) -> Result<Config, ConfigFault>
        ensures { IsConfigOf bytes.now (settings_answer result) }
    {
        if bytes.len() > MAX_BYTES {
            return Err(ConfigFault::TooLarge);
        }
        let rows = match split(alloc, bytes) {
            Ok(rows) => rows,
            Err(TextFault::NotUtf8 { .. }) => return Err(ConfigFault::NotUtf8),
            Err(_) => return Err(ConfigFault::Memory),
        };
        match judge_rows(alloc, &rows) {
            Ok(answer) => answer,
            Err(AllocError) => Err(ConfigFault::Memory),
        }
    }
}
