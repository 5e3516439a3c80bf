//! The lines of a header.
ghost use Rattle.std.specs.Prelude.{◌≡◌, ◌<◌, ◌==◌, IfSome, length, position, take_while};
ghost use Rattle.std.specs.List.{list_all};
ghost use Rattle.std.specs.Char.{is_ascii_digit};
ghost use Rattle.yl_frames.specs.Header.{field_of, field_of_parts, is_blank, length_of_value, line_of, number_before_blanks, number_of_word};

/// What a line of a header is.
#[derive(Clone, Copy)]
pub enum HeaderLine {
    /// The line after the fields.
    Empty,
    /// `Content-Length` with this number.
    Length(u64),
    /// Another field.
    Other,
    /// No field, or a `Content-Length` without a number.
    Bad,
}

const NAME: &[u8] = b"content-length";

fn is_blank(byte: u8) -> bool
    ensures { result ≡ is_blank byte }
{
    byte == b' ' || byte == b'\t'
}

/// The number that a word of 1 to 10 decimal digits is.
fn number(word: &[u8]) -> Option<u64>
    ensures { result ≡ number_of_word word.now }
{
    if word.is_empty() || word.len() > 10 {
        return None;
    }
    let mut value = 0u64;
    for c in word {
        if !c.is_ascii_digit() {
            return None;
        }
        value = value * 10 + (*c - b'0') as u64;
    }
    Some(value)
}

// How many spaces and tabs the bytes begin with.
fn blanks_len(bytes: &[u8]) -> usize
    ensures { result ≡ length (take_while is_blank bytes.now) }
{
    bytes.iter().take_while(|c| is_blank(**c)).count()
}

// How many digits the bytes begin with.
fn digits_len(bytes: &[u8]) -> usize
    ensures { result ≡ length (take_while is_ascii_digit bytes.now) }
{
    bytes.iter().take_while(|c| c.is_ascii_digit()).count()
}

fn are_blank(bytes: &[u8]) -> bool
    ensures { result ≡ list_all is_blank bytes.now }
{
    bytes.iter().all(|c| is_blank(*c))
}

// The number of a word that only spaces and tabs follow.
fn number_before_blanks(value: &[u8]) -> Option<u64>
    ensures { result ≡ number_before_blanks value.now }
{
    let digits = digits_len(value);
    if !are_blank(&value[digits..]) {
        return None;
    }
    number(&value[..digits])
}

// The number in a field's value, which may have spaces and tabs about it.
fn length_of_value(value: &[u8]) -> Option<u64>
    ensures { result ≡ length_of_value value.now }
{
    let blanks = blanks_len(value);
    number_before_blanks(&value[blanks..])
}

fn field_of_parts(name: &[u8], value: &[u8]) -> HeaderLine
    ensures { result ≡ field_of_parts name.now value.now }
{
    if !name.eq_ignore_ascii_case(NAME) {
        return HeaderLine::Other;
    }
    match length_of_value(value) {
        Some(length) => HeaderLine::Length(length),
        None => HeaderLine::Bad,
    }
}

// Where the first colon is.
fn colon_in(field: &[u8]) -> Option<usize>
    ensures value { result ≡ position (λ c. c == 0x3A) field.now }
    ensures inside { IfSome result (λ colon. colon < length field.now) }
{
    field.iter().position(|c| *c == b':')
}

fn field_of(field: &[u8]) -> HeaderLine
    ensures { result ≡ field_of field.now }
{
    if field.is_empty() {
        return HeaderLine::Empty;
    }
    match colon_in(field) {
        Some(colon) => field_of_parts(&field[..colon], &field[colon + 1..]),
        None => HeaderLine::Bad,
    }
}

/// What a line is, without its line feed.
#[tactic(auto, unfolding(crate::specs::Header::line_of))]
pub(crate) fn line_of(line: &[u8]) -> HeaderLine
    ensures { result ≡ line_of line.now }
{
    if !line.ends_with(b"\r") {
        return HeaderLine::Bad;
    }
    field_of(&line[..line.len() - 1])
}
