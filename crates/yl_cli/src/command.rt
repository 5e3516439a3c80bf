//! Reads the line of a command.
ghost use Rattle.std.specs.Prelude.{◌≡◌, ◌==◌, ◌<◌, length, map, MatchOption};
ghost use Rattle.std.specs.List.{slice_split};
ghost use Rattle.yl_cli.specs.Command.{line_of_places, line_of_words, number_of_word, place_at, place_of_words};

use arrayvec::ArrayVec;
use yl_text::Pos;

/// The maximum number of bytes that a command puts into a text.
const MOST_BYTES: u64 = 67_108_864;

/// The maximum line or column of a position.
const MOST_OF_PLACE: u64 = 4_294_967_295;

/// A position that is in no text, since a text has fewer lines.
const NOWHERE: Pos = Pos {
    line: u32::MAX,
    col: u32::MAX,
};

// The words of a command: its name, and five numbers.
type Words<'a> = ArrayVec<&'a [u8], 6>;

/// The line of a command that replaces the range between two positions by `size` bytes.
#[derive(Clone, Copy)]
pub struct CommandLine {
    /// The start of the range.
    pub from: Pos,
    /// The end of the range.
    pub to: Pos,
    /// The number of bytes that replace the range.
    pub size: u64,
}

/// Returns the number that a word is, or `None` if the word is not 1 to 10 decimal digits.
fn number(word: &[u8]) -> Option<u64>
    ensures { result ≡ number_of_word word.now }
{
    if word.is_empty() || word.len() > 10 {
        return None;
    }
    let mut value = 0u64;
    for c in word {
        if !c.is_ascii_digit() {
            return None;
        }
        value = value * 10 + (*c - b'0') as u64;
    }
    Some(value)
}

/// Returns the position at a line and a column. Returns `NOWHERE` if one of them is greater than
/// `MOST_OF_PLACE`.
fn place_at(line: u64, col: u64) -> Pos
    ensures { result ≡ place_at line col }
{
    if line > MOST_OF_PLACE || col > MOST_OF_PLACE {
        return NOWHERE;
    }
    Pos {
        line: line as u32,
        col: col as u32,
    }
}

fn place_of_words(line: &[u8], col: &[u8]) -> Option<Pos>
    ensures { result ≡ place_of_words line.now col.now }
{
    let line = number(line)?;
    let col = number(col)?;
    Some(place_at(line, col))
}

fn line_of_places(from: Option<Pos>, to: Option<Pos>, size: Option<u64>) -> Option<CommandLine>
    ensures { result ≡ line_of_places from to size }
{
    let from = from?;
    let to = to?;
    let size = size?;
    if size > MOST_BYTES {
        return None;
    }
    Some(CommandLine { from, to, size })
}

fn line_of_words(words: &[&[u8]]) -> Option<CommandLine>
    ensures { result ≡ line_of_words (map (λ word. word.now) words.now) }
{
    let [name, line, col, end_line, end_col, size] = words else {
        return None;
    };
    if *name != b"replace".as_slice() {
        return None;
    }
    let from = place_of_words(line, col);
    let to = place_of_words(end_line, end_col);
    line_of_places(from, to, number(size))
}

// Returns the words of a line, which stand between single spaces, or `None` if there are more than
// a command has. Does not allocate.
fn words_of(line: &[u8]) -> Option<Words<'_>>
    ensures { MatchOption result (6 < length (slice_split (λ c. c == 0x20) line.now))
        (λ words. map (λ word. word.now) words.items ≡ slice_split (λ c. c == 0x20) line.now) }
{
    let mut words = Words::new();
    for word in line.split(|c| *c == b' ') {
        if words.try_push(word).is_err() {
            return None;
        }
    }
    Some(words)
}

/// Reads the line of a command. Returns `None` if the line is not one. Does not allocate.
pub(crate) fn command_line(line: &[u8]) -> Option<CommandLine>
    ensures { result ≡ line_of_words (slice_split (λ c. c == 0x20) line.now) }
{
    let words = words_of(line)?;
    line_of_words(words.as_slice())
}
