//! Finds the lexeme at a position of a row.

ghost use Rattle.std.specs.Prelude.{◌≡◌, ◌≤◌, ◌<◌, ◌+◌, ◌-◌, ◌^◌, ◌∷◌, [], if◌then◌else◌, IfOk, Some, None, Option, option_map, Bool, List, ℕ, length, drop, string_bytes};
ghost use Rattle.std.specs.Str.{encode_utf8_all};
ghost use Rattle.yl_scalar.specs.Header.{misfit_behind};
ghost use Rattle.yl_scalar.specs.Reading.{outcome_of_lines, outcome_of_step};
ghost use Rattle.yl_scalar.specs.PlainLines.{plain_scalar};
ghost use Rattle.yl_scalar.specs.QuotedSteps.{quoted};
ghost use Rattle.yl_scalar.specs.BlockLines.{block_scalar};
ghost use Rattle.yl_row.specs.Begins.{BeginsAt};
ghost use Rattle.yl_lexeme.specs.declared.lexeme.Style.TheVariants.{Plain};
ghost use Rattle.yl_lexeme.specs.declared.lexeme.Kind.TheVariants.{Scalar};
ghost use Rattle.yl_row.specs.declared.fault.ScanFault.TheVariants.{NotAllowed, ContentAfterDocumentEnd};
ghost use Rattle.yl_row.specs.Fault.{fault_at};
ghost use Rattle.yl_lexeme.specs.Known.{context_of};
ghost use Rattle.yl_lexeme.specs.Surroundings.{surroundings_value};
ghost use Rattle.yl_row.specs.ScalarReader.{reader_step, reader_finish};
ghost use Rattle.yl_row.specs.Reader.{reader_step_value};
ghost use Rattle.yl_row.specs.Step.{found_in_row, bad_in, is_directive_place, is_plain_start, scalar_found, name_found, tag_found, tag_len, document_at, word_at, found_at};
ghost use Rattle.yl_row.specs.Sign.{named_at, sign_at};
ghost use Rattle.yl_row.specs.Beginning.{found_lexeme_value, beginning_value, found_option, EndsHere, BeginningRests};

use crate::fault::{PlacedScanFault, ScanFault, of_scalar, or_else, when};
use crate::reader::ScalarReader;
use crate::word::{
    directive, is_comment_next, is_flow_indicator_next, is_plain_start, is_space_next, name_len,
    tag_len,
};
use std::alloc::{AllocError, Allocator};
use yl_lexeme::{Kind, Style, Surroundings, near};
use yl_scalar::{
    BlockReader, PlainReader, QuotedReader, ScalarStep, first_bad, inline_text_of, is_blank,
    is_marker_of, leading_white, simple_quoted,
};
use yl_text::InlineString;

/// A lexeme that ends in its row, or has a fault.
#[derive(Drop)]
pub struct FoundLexeme<A: Allocator> {
    /// The kind.
    pub kind: Kind,
    /// The column after the last character. For a scalar with a fault it is the column of the first
    /// character, and for a bad tag the column after the `!`.
    pub column: u32,
    /// The value.
    pub value: InlineString<A>,
    /// The first fault in the lexeme.
    pub fault: Option<PlacedScanFault>,
}

/// What begins at a position.
#[derive(Drop)]
pub enum Beginning<A: Allocator + Copy> {
    /// A lexeme that ends in its row, or has a fault.
    Ended(FoundLexeme<A>),
    /// A scalar that may go on in the row below.
    Open(Style, ScalarReader<A>),
}

/// Returns the fault of the first character that is not allowed in the text that begins at
/// `column`.
pub fn bad_in(column: usize, text: &[char]) -> Option<PlacedScanFault>
    requires { column + length text.now < 2 ^ 63 }
    ensures { result ≡ bad_in column text.now }
{
    match first_bad(text) {
        None => None,
        Some(place) => when(true, ScanFault::NotAllowed, column + place),
    }
}

/// Returns the fault of anything but a comment after the end marker of a document. `text` is the
/// text after the marker, and begins at `column`.
fn behind_end(column: usize, text: &[char]) -> Option<PlacedScanFault>
    requires { column + length text.now < 2 ^ 63 }
    ensures { result ≡ option_map (λ i. fault_at ContentAfterDocumentEnd (column + i)) (misfit_behind text.now) }
{
    let white = leading_white(text);
    let is_content = !is_blank(text) && !(white > 0 && is_comment_next(&text[white..]));
    when(
        is_content,
        ScanFault::ContentAfterDocumentEnd,
        column + white,
    )
}

/// Returns a lexeme without a value that ends before `column`.
fn sign<A: Allocator>(kind: Kind, column: u32, fault: Option<PlacedScanFault>) -> FoundLexeme<A>
    ensures { found_lexeme_value result ≡ found_in_row kind column [] fault }
{
    FoundLexeme {
        kind,
        column,
        value: InlineString::new(),
        fault,
    }
}

/// Returns whether a directive may follow this last lexeme.
fn is_directive_place(last: Option<Kind>) -> bool
    ensures { result ≡ is_directive_place last }
{
    match last {
        None | Some(Kind::DocEnd | Kind::Directive) => true,
        Some(_) => false,
    }
}

/// Returns the document marker or the directive at the start of a row, if there is one. `text` is
/// the row: the character `c`, and then `rest`. The only error is out of memory.
fn document_at<A: Allocator + Copy>(
    alloc: A,
    surroundings: &Surroundings<'_, A>,
    c: char,
    rest: &[char],
    text: &[char],
) -> Result<Option<FoundLexeme<A>>, AllocError>
    requires fits { length text.now < 2 ^ 31 }
    requires text { text.now ≡ c ∷ rest.now }
    ensures { IfOk result (λ found. document_at c rest.now (context_of (surroundings_value surroundings.now)) ≡ found_option found) }
{
    if is_marker_of('-', text) {
        return Ok(Some(sign(Kind::DocStart, 3, None)));
    }
    if is_marker_of('.', text) {
        let fault = if rest.len() < 2 {
            None
        } else {
            behind_end(3, &rest[2..])
        };
        return Ok(Some(sign(Kind::DocEnd, 3, fault)));
    }
    if c == '%' && is_directive_place(surroundings.last) {
        let directive = directive(text);
        return Ok(Some(FoundLexeme {
            kind: Kind::Directive,
            column: directive.len() as u32,
            value: inline_text_of(alloc, directive)?,
            fault: bad_in(0, directive),
        }));
    }
    Ok(None)
}

/// Returns an anchor or an alias at the column `at`. `text` is the text after its indicator. The
/// only error is out of memory.
fn name_found<A: Allocator + Copy>(
    alloc: A,
    kind: Kind,
    at: usize,
    text: &[char],
) -> Result<FoundLexeme<A>, AllocError>
    requires fits { at + length text.now < 2 ^ 31 }
    ensures { IfOk result (λ found. found_lexeme_value found ≡ name_found kind at text.now) }
{
    let len = name_len(text);
    let name = &text[..len];
    Ok(FoundLexeme {
        kind,
        column: (at + 1 + len) as u32,
        value: inline_text_of(alloc, name)?,
        fault: or_else(
            when(len == 0, ScanFault::EmptyName, at),
            bad_in(at + 1, name),
        ),
    })
}

/// Returns a tag at the column `at`. `text` is the text after the `!`.
fn tag_found<A: Allocator>(at: usize, text: &[char]) -> FoundLexeme<A>
    requires fits { at + length text.now < 2 ^ 31 }
    ensures { found_lexeme_value result ≡ tag_found at text.now (tag_len text.now) }
{
    match tag_len(text) {
        None => sign(Kind::Tag, at as u32 + 1, when(true, ScanFault::BadTag, at)),
        Some(len) => sign(
            Kind::Tag,
            (at + 1 + len) as u32,
            bad_in(at + 1, &text[..len]),
        ),
    }
}

/// Returns an anchor, an alias or a tag at the column `at`. Its indicator is `c`, and `rest` is the
/// text after it. The only error is out of memory.
#[inline(never)]
fn named_at<A: Allocator + Copy>(
    alloc: A,
    at: usize,
    c: char,
    rest: &[char],
) -> Result<FoundLexeme<A>, AllocError>
    requires fits { at + length rest.now < 2 ^ 31 }
    ensures { IfOk result (λ found. found_lexeme_value found ≡ named_at at c rest.now) }
{
    if c == '&' {
        return name_found(alloc, Kind::Anchor, at, rest);
    }
    if c == '*' {
        return name_found(alloc, Kind::Alias, at, rest);
    }
    Ok(tag_found(at, rest))
}

/// Returns a scalar at the column `at` whose first row was read. `line` says what that row is to
/// the scalar. The only error is out of memory.
#[inline(always)]
fn begun<A: Allocator + Copy>(
    alloc: A,
    style: Style,
    at: usize,
    reader: ScalarReader<A>,
    line: ScalarStep,
) -> Result<Beginning<A>, AllocError>
    requires fits { at < 2 ^ 31 }
    requires here { EndsHere (reader_step_value line reader) }
    ensures found { IfOk result (λ s. (rows : List (List ℕ)) →
        scalar_found style at (outcome_of_step (λ m. outcome_of_lines reader_step reader_finish m rows) (reader_step_value line reader)) ≡ beginning_value at rows s) }
    ensures rests { IfOk result (λ s. (text : List ℕ) → BeginsAt at text (reader_step_value line reader) → BeginningRests at text s) }
{
    match line {
        ScalarStep::GoesOn => Ok(Beginning::Open(style, reader)),
        ScalarStep::EndsIn(place) | ScalarStep::EndedAbove(place) => Ok(Beginning::Ended(
            FoundLexeme {
                kind: Kind::Scalar(style),
                column: place.column as u32,
                value: reader.into_value(alloc)?,
                fault: None,
            },
        )),
        ScalarStep::Fails(fault, place) => Ok(Beginning::Ended(FoundLexeme {
            kind: Kind::Scalar(style),
            column: at as u32,
            value: InlineString::new(),
            fault: Some(PlacedScanFault {
                fault: of_scalar(fault),
                down: place.down,
                column: place.column,
            }),
        })),
    }
}

/// Returns a quoted scalar at the column `at` whose quotes are in one row. `part` is the text
/// between them, in which each character stands for itself. The only error is out of memory.
fn simple_found<A: Allocator + Copy>(
    alloc: A,
    style: Style,
    at: usize,
    part: &[char],
) -> Result<FoundLexeme<A>, AllocError>
    requires { at + length part.now + 2 < 2 ^ 32 }
    ensures { IfOk result (λ found. found_lexeme_value found ≡ found_in_row (Scalar style) (at + 1 + (length part.now + 1)) (encode_utf8_all part.now) None) }
{
    Ok(FoundLexeme {
        kind: Kind::Scalar(style),
        column: (at + part.len() + 2) as u32,
        value: inline_text_of(alloc, part)?,
        fault: None,
    })
}

/// Returns the quoted scalar at the column `at`. `double` says whether the quotes are double ones,
/// and `rest` is the text after the opening quote. The only error is out of memory.
#[tactic(auto, using(crate::proofs::Modes::said_by_style, crate::proofs::Modes::quoted_alike, crate::proofs::Modes::quoted_ends, crate::proofs::Modes::ends_by))]
#[inline(always)]
fn quoted_found<A: Allocator + Copy>(
    alloc: A,
    style: Style,
    double: bool,
    at: usize,
    rest: &[char],
) -> Result<Beginning<A>, AllocError>
    requires fits { at + length rest.now < 2 ^ 31 }
    ensures found { IfOk result (λ s. (rows : List (List ℕ)) → scalar_found style at (quoted double at rest.now rows) ≡ beginning_value at rows s) }
    ensures rests { IfOk result (λ s. (text : List ℕ) → BeginningRests at text s) }
{
    if let Some(part) = simple_quoted(double, rest) {
        let quoted = simple_found(alloc, style, at, part)?;
        return Ok(Beginning::Ended(quoted));
    }
    let (reader, line) = QuotedReader::begin(alloc, double, at, rest)?;
    begun(alloc, style, at, ScalarReader::Quoted(reader), line)
}

/// Returns the block scalar at the column `at`. `least` is the least indentation of its content,
/// and `rest` is the text after its indicator. The only error is out of memory.
#[tactic(auto, using(crate::proofs::Modes::said_by_style, crate::proofs::Modes::block_alike, crate::proofs::Modes::block_ends, crate::proofs::Modes::ends_by))]
fn block_found<A: Allocator + Copy>(
    alloc: A,
    style: Style,
    least: usize,
    at: usize,
    rest: &[char],
) -> Result<Beginning<A>, AllocError>
    requires fits { at + length rest.now < 2 ^ 31 }
    requires small { least < 2 ^ 63 }
    ensures found { IfOk result (λ s. (rows : List (List ℕ)) → scalar_found style at (block_scalar least at rest.now rows) ≡ beginning_value at rows s) }
    ensures rests { IfOk result (λ s. (c : ℕ) → BeginningRests at (c ∷ rest.now) s) }
{
    let (reader, line) = BlockReader::begin(alloc, least, at, rest);
    begun(alloc, style, at, ScalarReader::Block(reader), line)
}

/// Returns the plain scalar at the column `at`, or a fault if none may begin there. `flow` says
/// whether a bracket is open, and `least` is the least indentation of the rows below that go on
/// with the scalar outside of brackets. `text` is the text from `at` on: the character `c`, and
/// then `rest`. The only error is out of memory.
#[tactic(auto, using(crate::proofs::Modes::said_by_style, crate::proofs::Modes::plain_alike, crate::proofs::Modes::plain_ends, crate::proofs::Modes::ends_by))]
#[inline(always)]
fn plain_found<A: Allocator + Copy>(
    alloc: A,
    flow: bool,
    least: usize,
    at: usize,
    c: char,
    rest: &[char],
    text: &[char],
) -> Result<Beginning<A>, AllocError>
    requires fits { at + length text.now < 2 ^ 31 }
    requires text { text.now ≡ c ∷ rest.now }
    ensures found { IfOk result (λ s. (rows : List (List ℕ)) →
        (if is_plain_start flow c rest.now then scalar_found Plain at (plain_scalar flow least at (c ∷ rest.now) rows) else found_in_row (Scalar Plain) at [] (Some (fault_at NotAllowed at))) ≡ beginning_value at rows s) }
    ensures rests { IfOk result (λ s. BeginningRests at text.now s) }
{
    if !is_plain_start(flow, c, rest) {
        let fault = when(true, ScanFault::NotAllowed, at);
        return Ok(Beginning::Ended(sign(Kind::Scalar(Style::Plain), at as u32, fault)));
    }
    let (reader, line) = PlainReader::begin(alloc, flow, least, at, text)?;
    begun(alloc, Style::Plain, at, ScalarReader::Plain(reader), line)
}

/// Returns the anchor, the alias, the tag or the scalar at the column `at`. `text` is the text from
/// there on: the character `c`, and then `rest`. The only error is out of memory.
#[inline(always)]
fn word_at<A: Allocator + Copy>(
    alloc: A,
    at: usize,
    surroundings: &Surroundings<'_, A>,
    c: char,
    rest: &[char],
    text: &[char],
) -> Result<Beginning<A>, AllocError>
    requires fits { at + length text.now < 2 ^ 31 }
    requires text { text.now ≡ c ∷ rest.now }
    ensures found { IfOk result (λ s. (rows : List (List ℕ)) →
        word_at rows at (context_of (surroundings_value surroundings.now)) c rest.now ≡ beginning_value at rows s) }
    ensures rests { IfOk result (λ s. BeginningRests at text.now s) }
{
    if matches!(c, '&' | '*' | '!') {
        return Ok(Beginning::Ended(named_at(alloc, at, c, rest)?));
    }
    if c == '\'' {
        return quoted_found(alloc, Style::Single, false, at, rest);
    }
    if c == '"' {
        return quoted_found(alloc, Style::Double, true, at, rest);
    }
    let flow = surroundings.in_flow();
    let least = surroundings.level();
    if c == '|' && !flow {
        return block_found(alloc, Style::Literal, least, at, rest);
    }
    if c == '>' && !flow {
        return block_found(alloc, Style::Folded, least, at, rest);
    }
    plain_found(alloc, flow, least, at, c, rest, text)
}

/// Returns the lexeme at the column `at`, which is not the indicator of a collection. `text` is the
/// text of the row from there on: the character `c`, and then `rest`. The only error is out of
/// memory.
#[tactic(auto, unfolding(crate::specs::Step::found_at))]
pub fn found_at<A: Allocator + Copy>(
    alloc: A,
    at: usize,
    surroundings: &Surroundings<'_, A>,
    c: char,
    rest: &[char],
    text: &[char],
) -> Result<Beginning<A>, AllocError>
    requires fits { at + length text.now < 2 ^ 31 }
    requires text { text.now ≡ c ∷ rest.now }
    requires word { sign_at (context_of (surroundings_value surroundings.now)) c rest.now ≡ None }
    ensures found { IfOk result (λ s. (rows : List (List ℕ)) (tab : Option ℕ) (first : Bool) →
        found_at rows tab first at (context_of (surroundings_value surroundings.now)) c rest.now ≡ beginning_value at rows s) }
    ensures rests { IfOk result (λ s. BeginningRests at text.now s) }
{
    if at == 0
        && let Some(found) = document_at(alloc, surroundings, c, rest, text)?
    {
        return Ok(Beginning::Ended(found));
    }
    word_at(alloc, at, surroundings, c, rest, text)
}
