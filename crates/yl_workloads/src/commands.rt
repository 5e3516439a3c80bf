//! Commands as an editor sends them while somebody works at some places of a text.
use crate::maker::Maker;
use itoa::Buffer;
use std::alloc::{AllocError, Global};

/// What is typed after a value, one letter at a time.
const TYPED: &[u8] = b"-candidate";

/// The line below a place, as it is inserted and then changed.
const ADDED: [&[u8]; 2] = [b"note-1: draft", b"note-1: final"];

/// The line below a place, while something is opened and closed in it.
const OPENED: [&[u8]; 4] = [
    b"title: \"draft",
    b"title: \"draft\"",
    b"title: [draft",
    b"title: [draft]",
];

/// What is typed after a value until its line is too long.
const SENTENCE: &[u8] =
    b" of the team that answers for it, and of each one that calls it while it is moved";

/// The number of letters of `SENTENCE` that are typed first, blanks included.
const FIRST_LETTERS: usize = 12;

/// A line with more bytes than this is too long.
const WIDTH: usize = 80;

/// The number of letters that are typed up to that column, and the number of those past it.
const LETTERS_BEFORE: usize = 2;

const LETTERS_PAST: usize = 6;

/// What is typed after the line below an open quote.
const UNDER_QUOTE: &[u8] = b"two";

/// Commands as `yl_cli::drive` reads them, one after another. Lines count from 0. Each command
/// replaces whole lines, so all its columns are 0.
#[derive(Drop)]
pub struct Commands {
    bytes: Vec<u8>,
}

impl Commands {
    /// Creates an empty list of commands.
    pub fn new(alloc: Global) -> Commands {
        Commands {
            bytes: Vec::new(alloc),
        }
    }

    /// Returns the bytes of the commands.
    pub fn as_slice(&self) -> &[u8] {
        self.bytes.as_slice()
    }

    fn number(&mut self, n: u64, behind: u8) -> Result<(), AllocError> {
        let mut buffer = Buffer::new();
        self.bytes.extend_from_slice(buffer.format(n).as_bytes())?;
        self.bytes.push(behind)?;
        Ok(())
    }

    // Appends the front of a command that replaces `count` lines from line `first` on.
    fn lines(&mut self, first: u64, count: u64) -> Result<(), AllocError> {
        self.bytes.extend_from_slice(b"replace ")?;
        self.number(first, b' ')?;
        self.bytes.extend_from_slice(b"0 ")?;
        self.number(first.wrapping_add(count), b' ')?;
        self.bytes.extend_from_slice(b"0 ")
    }

    // Appends a command that puts one line, given in two parts, in place of `count` lines from line
    // `first` on.
    fn line(
        &mut self,
        first: u64,
        count: u64,
        front: &[u8],
        back: &[u8],
    ) -> Result<(), AllocError> {
        self.lines(first, count)?;
        let size = front.len().wrapping_add(back.len()).wrapping_add(1);
        self.number(size as u64, b'\n')?;
        self.bytes.extend_from_slice(front)?;
        self.bytes.extend_from_slice(back)?;
        self.bytes.push(b'\n')?;
        Ok(())
    }

    // Appends a command that removes the line `first`.
    fn without(&mut self, first: u64) -> Result<(), AllocError> {
        self.lines(first, 1)?;
        self.bytes.extend_from_slice(b"0\n")
    }

    // Appends commands that insert the first of these lines below a place, put each of the others
    // in its place, and remove it.
    fn lines_under(&mut self, at: u64, blanks: &[u8], lines: &[&[u8]]) -> Result<(), AllocError> {
        let under = at.wrapping_add(1);
        let mut count = 0;
        for line in lines {
            self.line(under, count, blanks, line)?;
            count = 1;
        }
        self.without(under)
    }

    // Appends commands that type after the value of a line, and then edit lines below it.
    fn work_at(&mut self, at: u64, line: &[u8]) -> Result<(), AllocError> {
        for end in 1..=TYPED.len() {
            self.line(at, 1, line, &TYPED[..end])?;
        }
        let blanks = blanks_of(line);
        self.lines_under(at, blanks, &ADDED)?;
        self.lines_under(at, blanks, &OPENED)
    }

    // Appends commands that type words after the value of a line: the first letters, and those that
    // make the line too long.
    fn words_at(&mut self, at: u64, line: &[u8]) -> Result<(), AllocError> {
        for end in 1..=SENTENCE.len() {
            let column = line.len().wrapping_add(end);
            let is_late = column > WIDTH - LETTERS_BEFORE && column <= WIDTH + LETTERS_PAST;
            if end <= FIRST_LETTERS || is_late {
                self.line(at, 1, line, &SENTENCE[..end])?;
            }
        }
        Ok(())
    }

    // Appends commands that open a quote in a new line, type after the line below it, close the
    // quote, and remove the new line.
    fn quote_above(&mut self, at: u64, under: &[u8]) -> Result<(), AllocError> {
        let blanks = blanks_of(under);
        self.line(at, 0, blanks, OPENED[0])?;
        for end in 1..=UNDER_QUOTE.len() {
            self.line(at.wrapping_add(1), 1, under, &UNDER_QUOTE[..end])?;
        }
        self.line(at, 1, blanks, OPENED[1])?;
        self.without(at)
    }

    /// Appends the commands of work on words at up to `count` places, in order, all over a text of
    /// about `lines` lines. At two lines with values, words are typed after the first one, and then
    /// a quote is opened and closed between them. The only error is out of memory.
    pub fn words(
        &mut self,
        text: &[u8],
        maker: &mut Maker,
        lines: u32,
        count: u32,
    ) -> Result<(), AllocError> {
        let step = lines / count.max(1);
        let mut left = count;
        let mut from = 0u32;
        let mut next = maker.below(step) as u64;
        let mut at = 0u64;
        let mut line: &[u8] = &[];
        for under in text.split(|c| *c == b'\n') {
            if left > 0 && at > next && is_words(line) && is_words(under) {
                self.words_at(at.wrapping_sub(1), line)?;
                self.quote_above(at, under)?;
                left -= 1;
                from = from.wrapping_add(step);
                next = from.wrapping_add(maker.below(step)) as u64;
            }
            line = under;
            at = at.wrapping_add(1);
        }
        Ok(())
    }

    /// Appends the commands of work at up to `count` places, in order, all over a text of about
    /// `lines` lines. The only error is out of memory.
    pub fn work(
        &mut self,
        text: &[u8],
        maker: &mut Maker,
        lines: u32,
        count: u32,
    ) -> Result<(), AllocError> {
        let step = lines / count.max(1);
        let mut left = count;
        let mut from = 0u32;
        let mut next = maker.below(step) as u64;
        let mut at = 0u64;
        for line in text.split(|c| *c == b'\n') {
            if left > 0 && at >= next && is_value(line) {
                self.work_at(at, line)?;
                left -= 1;
                from = from.wrapping_add(step);
                next = from.wrapping_add(maker.below(step)) as u64;
            }
            at = at.wrapping_add(1);
        }
        Ok(())
    }
}

// Returns the blanks at the start of a line.
fn blanks_of(line: &[u8]) -> &[u8] {
    match line.iter().position(|c| *c != b' ') {
        Some(end) if end <= line.len() => &line[..end],
        _ => line,
    }
}

// Returns `true` if a line ends in a value to which letters can be added.
fn is_value(line: &[u8]) -> bool {
    let ends_so = match line.last() {
        Some(last) => last.is_ascii_alphanumeric(),
        None => false,
    };
    ends_so && line.contains(&b':') && !line.contains(&b'|') && !line.contains(&b'#')
}

// Returns `true` if a line ends in a value to which words can be added.
fn is_words(line: &[u8]) -> bool {
    is_value(line) && !line.contains(&b'*') && !line.contains(&b'"')
}
