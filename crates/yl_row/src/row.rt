//! Reads the lexemes of a row.

ghost use Rattle.std.specs.Prelude.{◌≡◌, ◌≤◌, ◌<◌, ◌+◌, ◌-◌, ◌++◌, ◌^◌, ◌∷◌, [], false, IfOk, List, Option, Some, None, ℕ, length};
ghost use Rattle.yl_lexeme.specs.Known.{SurroundingsValue, context_of, surroundings_at};
ghost use Rattle.yl_lexeme.specs.Surroundings.{surroundings_value};
ghost use Rattle.yl_row.specs.ScalarReader.{open_found};
ghost use Rattle.yl_row.specs.Begins.{Rests};
ghost use Rattle.yl_row.specs.Reader.{scalar_reader_value};
ghost use Rattle.yl_row.specs.Sign.{sign_at, sign_found};
ghost use Rattle.yl_row.specs.Step.{found_at, place_fault, found_in_row};
ghost use Rattle.yl_row.specs.Entries.{RowReading, lexeme_of, ends_document};
ghost use Rattle.yl_row.specs.Run.{lexeme_reading_by, row_reading_by};
ghost use Rattle.yl_row.specs.Beginning.{found_lexeme_value};
ghost use Rattle.yl_row.specs.Rows.{behind_sign, reading_with_lexemes, reading_after, row_end_reading, EndsInComment, NextRests, EndRests};

use crate::fault::{PlacedScanFault, or_else};
use crate::found::{Beginning, FoundLexeme, bad_in, found_at};
use crate::reader::ScalarReader;
use crate::sign::{place_fault, sign_at, sign_fault};
use crate::word::begins_comment;
use std::alloc::{AllocError, Allocator};
use yl_lexeme::{Comment, Kind, Lexeme, Style, Surroundings};
use yl_scalar::{is_white, text_of};
use yl_text::{InlineString, Pos};

/// A scalar that may go on in the row below, and the column at which it begins.
#[derive(Drop)]
pub struct OpenScalar<A: Allocator + Copy> {
    /// The style.
    pub style: Style,
    /// The column at which the scalar begins, in characters from 0.
    pub at: usize,
    /// The reader of the scalar, after the rows that were read.
    pub reader: ScalarReader<A>,
}

/// What follows a lexeme.
#[derive(Drop)]
pub enum Next<A: Allocator + Copy> {
    /// The lexeme ends before this column, and reading goes on there.
    Behind(usize),
    /// The lexeme is a scalar that may go on in the row below.
    Opens(Style, ScalarReader<A>),
    /// There is a fault, and nothing more is read.
    Stops(PlacedScanFault),
}

/// How the reading of a row ends.
#[derive(Drop)]
pub enum RowEnd<A: Allocator + Copy> {
    /// The row is read to its end, and has this comment, if any.
    Read(Option<Comment<A>>),
    /// The row ends with a scalar that may go on in the row below.
    Opens(OpenScalar<A>),
    /// There is a fault, and nothing more is read.
    Stops(PlacedScanFault),
}

/// Returns the lexeme that was found at the column `at`.
fn lexeme_of<A: Allocator>(at: usize, found: FoundLexeme<A>) -> Lexeme<A>
    requires { at < 2 ^ 32 }
    ensures { result ≡ lexeme_of at (found_lexeme_value found) }
{
    let FoundLexeme {
        kind,
        column,
        value,
        fault: _,
    } = found;
    let end = Pos {
        line: 0,
        col: column,
    };
    Lexeme::new(kind, at as u32, end, value)
}

/// Appends a lexeme of the row. Before the first one, reserves space for sixteen. The only error is
/// out of memory.
#[inline(always)]
fn add<A: Allocator>(lexemes: &mut Vec<Lexeme<A>, A>, lexeme: Lexeme<A>) -> Result<(), AllocError>
    ensures { IfOk result (λ _. lexemes.new.items ≡ lexemes.old.items ++ lexeme ∷ []) }
{
    if lexemes.is_empty() {
        lexemes.reserve(16)?;
    }
    lexemes.push(lexeme)?;
    Ok(())
}

/// Returns a lexeme of one character at the column `at`.
fn sign<A: Allocator>(kind: Kind, at: usize) -> Lexeme<A>
    requires { at < 2 ^ 31 }
    ensures { result ≡ lexeme_of at (found_in_row kind (at + 1) [] None) }
{
    let column = at as u32;
    let end = Pos {
        line: 0,
        col: column + 1,
    };
    Lexeme::new(kind, column, end, InlineString::new())
}

/// Passes a scalar that may go on in the row below, unless there is a fault before it. The only
/// error is out of memory.
#[tactic(auto, using(crate::proofs::Took::open_goes, crate::proofs::Took::open_stops))]
fn open_lexeme<A: Allocator + Copy>(
    surroundings: &mut Surroundings<'_, A>,
    before: Option<PlacedScanFault>,
    first: bool,
    at: usize,
    style: Style,
    reader: ScalarReader<A>,
) -> Result<Next<A>, AllocError>
    requires { at < 2 ^ 31 }
    ensures read { IfOk result (λ r. (rows : List (List ℕ)) (tab : Option ℕ) (more : ℕ → SurroundingsValue → RowReading SurroundingsValue) →
        before ≡ place_fault tab first at (context_of (surroundings_value surroundings.old)) →
        lexeme_reading_by tab first at (surroundings_value surroundings.old) more (open_found style at (scalar_reader_value reader) rows) ≡ reading_after rows at (surroundings_value surroundings.new) more r) }
    ensures rests { IfOk result (λ r. (text : List ℕ) → Rests at text (scalar_reader_value reader) → NextRests at text r) }
{
    match before {
        Some(fault) => Ok(Next::Stops(fault)),
        None => {
            surroundings.pass(Kind::Scalar(style), first, at)?;
            Ok(Next::Opens(style, reader))
        }
    }
}

/// Passes and appends a lexeme that ends in its row, unless there is a fault before it or in it.
/// The end marker of a document is appended in spite of a fault. The only error is out of memory.
#[tactic(auto, using(crate::proofs::Took::ended_goes, crate::proofs::Took::ended_stops, crate::proofs::Took::ended_document))]
fn ended_lexeme<A: Allocator + Copy>(
    surroundings: &mut Surroundings<'_, A>,
    lexemes: &mut Vec<Lexeme<A>, A>,
    before: Option<PlacedScanFault>,
    first: bool,
    at: usize,
    found: FoundLexeme<A>,
) -> Result<Next<A>, AllocError>
    requires { at < 2 ^ 31 }
    ensures read { IfOk result (λ r. (rows : List (List ℕ)) (tab : Option ℕ) (more : ℕ → SurroundingsValue → RowReading SurroundingsValue) →
        before ≡ place_fault tab first at (context_of (surroundings_value surroundings.old)) →
        reading_with_lexemes lexemes.old.items (lexeme_reading_by tab first at (surroundings_value surroundings.old) more (found_lexeme_value found))
        ≡ reading_with_lexemes lexemes.new.items (reading_after rows at (surroundings_value surroundings.new) more r)) }
    ensures rests { IfOk result (λ r. (text : List ℕ) → NextRests at text r) }
{
    let kind = found.kind;
    let column = found.column as usize;
    let fault = or_else(before, found.fault);
    let lexeme = lexeme_of(at, found);
    match fault {
        Some(fault) => {
            if ends_document(kind) {
                lexemes.push(lexeme)?;
                return Ok(Next::Stops(fault));
            }
            Ok(Next::Stops(fault))
        }
        None => {
            surroundings.pass(kind, first, at)?;
            add(lexemes, lexeme)?;
            Ok(Next::Behind(column))
        }
    }
}

/// Returns whether it is the end marker of a document.
fn ends_document(kind: Kind) -> bool
    ensures { result ≡ ends_document kind }
{
    match kind {
        Kind::DocEnd => true,
        _ => false,
    }
}

/// Passes and appends a lexeme of one character, of this kind, or returns the first fault before it
/// or in it. The only error is out of memory.
#[tactic(auto, using(crate::proofs::Took::ended_goes, crate::proofs::Took::ended_stops))]
fn take_sign<A: Allocator + Copy>(
    surroundings: &mut Surroundings<'_, A>,
    lexemes: &mut Vec<Lexeme<A>, A>,
    tab: Option<usize>,
    first: bool,
    at: usize,
    kind: Kind,
) -> Result<Option<PlacedScanFault>, AllocError>
    requires column { at < 2 ^ 31 }
    requires inside { ends_document kind ≡ false }
    ensures { IfOk result (λ fault. (more : ℕ → SurroundingsValue → RowReading SurroundingsValue) →
        reading_with_lexemes lexemes.old.items (lexeme_reading_by tab first at (surroundings_value surroundings.old) more (sign_found tab first at (context_of (surroundings_value surroundings.old)) kind))
        ≡ reading_with_lexemes lexemes.new.items (behind_sign (surroundings_value surroundings.new) more fault)) }
{
    let own = sign_fault(surroundings, tab, first, at, kind);
    match or_else(place_fault(surroundings, tab, first, at), own) {
        Some(fault) => Ok(Some(fault)),
        None => {
            surroundings.pass(kind, first, at)?;
            add(lexemes, sign(kind, at))?;
            Ok(None)
        }
    }
}

/// Reads the lexeme at the column `at`, if it is not of one character. `text` is the text of the
/// row from there on: the character `c`, and then `rest`. The only error is out of memory.
fn lexeme<A: Allocator + Copy>(
    alloc: A,
    surroundings: &mut Surroundings<'_, A>,
    lexemes: &mut Vec<Lexeme<A>, A>,
    tab: Option<usize>,
    first: bool,
    at: usize,
    c: char,
    rest: &[char],
    text: &[char],
) -> Result<Next<A>, AllocError>
    requires fits { at + length text.now < 2 ^ 31 }
    requires text { text.now ≡ c ∷ rest.now }
    requires word { sign_at (context_of (surroundings_value surroundings.old)) c rest.now ≡ None }
    ensures read { IfOk result (λ r. (rows : List (List ℕ)) (more : ℕ → SurroundingsValue → RowReading SurroundingsValue) →
        reading_with_lexemes lexemes.old.items (lexeme_reading_by tab first at (surroundings_value surroundings.old) more (found_at rows tab first at (context_of (surroundings_value surroundings.old)) c rest.now))
        ≡ reading_with_lexemes lexemes.new.items (reading_after rows at (surroundings_value surroundings.new) more r)) }
    ensures rests { IfOk result (λ r. NextRests at text.now r) }
{
    let before = place_fault(surroundings, tab, first, at);
    match found_at(alloc, at, surroundings, c, rest, text)? {
        Beginning::Open(style, reader) => {
            let opened = open_lexeme(surroundings, before, first, at, style, reader)?;
            Ok(opened)
        }
        Beginning::Ended(found) => {
            let ended = ended_lexeme(surroundings, lexemes, before, first, at, found)?;
            Ok(ended)
        }
    }
}

/// Reads the comment that begins at the column `at`, with which the row ends. `text` is its text.
/// The only error is out of memory.
fn comment<A: Allocator + Copy>(alloc: A, at: usize, text: &[char]) -> Result<RowEnd<A>, AllocError>
    requires { at + length text.now < 2 ^ 31 }
    ensures read { IfOk result (λ end. EndsInComment at text.now end) }
    ensures rests { IfOk result (λ end. (row : List ℕ) → EndRests row end) }
{
    if let Some(fault) = bad_in(at, text) {
        return Ok(RowEnd::Stops(fault));
    }
    Ok(RowEnd::Read(Some(Comment::new(at as u32, text_of(alloc, text)?))))
}

/// Reads a row, and appends its lexemes. `skip` is the number of characters at its start that
/// belong to a lexeme that began above. `fresh` says whether the row begins inside no lexeme. `tab`
/// is the column of its first tab, if the row begins inside no lexeme. The only error is out of
/// memory.
pub fn read_row<A: Allocator + Copy>(
    alloc: A,
    surroundings: &mut Surroundings<'_, A>,
    lexemes: &mut Vec<Lexeme<A>, A>,
    tab: Option<usize>,
    skip: usize,
    fresh: bool,
    row: &[char],
) -> Result<RowEnd<A>, AllocError>
    requires { length row.now < 2 ^ 31 }
    ensures read { IfOk result (λ end. (rows : List (List ℕ)) →
        reading_with_lexemes lexemes.old.items (row_reading_by rows tab skip fresh fresh 0 (surroundings_value surroundings.old) row.now)
        ≡ reading_with_lexemes lexemes.new.items (row_end_reading rows tab row.now (surroundings_value surroundings.new) end)) }
    ensures rests { IfOk result (λ end. EndRests row.now end) }
{
    let mut at = skip;
    let mut behind_space = fresh && skip == 0;
    let mut first = fresh;
    while at < row.len() {
        let c = row[at];
        if is_white(c) {
            behind_space = true;
            at += 1;
            continue;
        }
        if begins_comment(c, behind_space) {
            let end = comment(alloc, at, &row[at..])?;
            return Ok(end);
        }
        let rest = &row[at + 1..];
        let is_first = first;
        first = false;
        behind_space = false;
        surroundings.reach(is_first, at)?;
        if let Some(kind) = sign_at(surroundings, c, rest) {
            if let Some(fault) = take_sign(surroundings, lexemes, tab, is_first, at, kind)? {
                return Ok(RowEnd::Stops(fault));
            }
            at += 1;
            continue;
        }
        match lexeme(
            alloc,
            surroundings,
            lexemes,
            tab,
            is_first,
            at,
            c,
            rest,
            &row[at..],
        )? {
            Next::Behind(column) => at = column.max(at + 1),
            Next::Opens(style, reader) => return Ok(RowEnd::Opens(OpenScalar {
                style,
                at,
                reader,
            })),
            Next::Stops(fault) => return Ok(RowEnd::Stops(fault)),
        }
    }
    Ok(RowEnd::Read(None))
}
