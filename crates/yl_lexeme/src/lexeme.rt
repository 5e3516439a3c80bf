//! Lexemes and comments, which the scanner reads from a text.

use crate::version::is_version_1_2;
use std::alloc::Allocator;
use std::marker::Model;
use yl_text::{InlineString, Pos, ShortText, Storage};

/// The style of a scalar (YAML 1.2.2, 7.3 and 8.1).
#[derive(Clone, Copy, Debug, PartialEq, Eq)]
pub enum Style {
    /// A plain scalar.
    Plain,
    /// A scalar in single quotes.
    Single,
    /// A scalar in double quotes.
    Double,
    /// A literal block scalar: `|`.
    Literal,
    /// A folded block scalar: `>`.
    Folded,
}

/// The kind of a lexeme: the indicators and markers of YAML 1.2.2, chapters 6 to 9, and its
/// scalars. The default value has no meaning. A `SmallVec` fills its unused capacity with it.
#[derive(Clone, Copy, Debug, Default, PartialEq, Eq)]
pub enum Kind {
    /// A directive: `%` and the text after it.
    Directive,
    /// The marker `---`.
    #[default]
    DocStart,
    /// The marker `...`.
    DocEnd,
    /// The indicator `-` of an entry.
    Entry,
    /// The indicator `?` of a key.
    Key,
    /// The indicator `:` of a value.
    Value,
    /// The indicator `,`.
    Comma,
    /// The bracket `[`.
    SeqOpen,
    /// The bracket `]`.
    SeqClose,
    /// The bracket `{`.
    MapOpen,
    /// The bracket `}`.
    MapClose,
    /// An alias: `*` and its name.
    Alias,
    /// An anchor: `&` and its name.
    Anchor,
    /// A tag: `!` and the text after it.
    Tag,
    /// A scalar of a style.
    Scalar(Style),
}

impl Kind {
    ghost use Rattle.std.specs.Prelude.{◌≡◌, Some};
    ghost use Rattle.yl_lexeme.specs.Lexeme.{is_document_marker, is_opening, is_closing};
    ghost use Rattle.yl_lexeme.specs.Past.{opens_item, asks_behind};

    /// Returns whether it is `---` or `...`.
    pub fn is_document_marker(self) -> bool
        ensures { result ≡ is_document_marker self }
    {
        matches!(self, Kind::DocStart | Kind::DocEnd)
    }

    /// Returns whether it is `[` or `{`.
    pub fn is_opening(self) -> bool
        ensures { result ≡ is_opening self }
    {
        matches!(self, Kind::SeqOpen | Kind::MapOpen)
    }

    /// Returns whether it is `]` or `}`.
    pub fn is_closing(self) -> bool
        ensures { result ≡ is_closing self }
    {
        matches!(self, Kind::SeqClose | Kind::MapClose)
    }

    /// Returns whether an item of a flow collection may begin after it: whether it is `[`, `{` or
    /// `,`.
    pub fn opens_item(self) -> bool
        ensures { result ≡ opens_item (Some self) }
    {
        self.is_opening() || matches!(self, Kind::Comma)
    }

    /// Returns whether a node of a block collection may follow it in its line: whether it is an
    /// entry, a key, or a value without a key. `key` is the column of the key of a value, if it has
    /// one.
    pub fn asks(self, key: Option<usize>) -> bool
        ensures { result ≡ asks_behind self key }
    {
        match self {
            Kind::Entry | Kind::Key => true,
            Kind::Value => key.is_none(),
            _ => false,
        }
    }
}

/// The fields of a lexeme, whose value is either in the lexeme or allocated. Each variant has all
/// fields, so that the tag of the enum takes bytes that are unused between the kind and the column.
#[derive(Drop)]
enum Parts<A: Allocator> {
    /// A value that is in the lexeme.
    Short {
        kind: Kind,
        column: u32,
        end: Pos,
        value: ShortText,
    },
    /// A value that is allocated.
    Long {
        kind: Kind,
        column: u32,
        end: Pos,
        value: String<A>,
    },
}

/// A lexeme. Lines count from the line in which it begins, which is line 0. Columns count from 0,
/// in characters. The end is the position after the last character. The value is that of a plain or
/// quoted scalar, the name of an anchor or an alias, or the text of a directive. It is empty for
/// all other kinds.
#[derive(Drop)]
pub struct Lexeme<A: Allocator> {
    parts: Parts<A>,
}

impl<A: Allocator> Model for Lexeme<A> {
    ghost use Rattle.yl_lexeme.specs.Lexeme.{LexemeValue};
    ghost use Rattle.yl_lexeme.specs.Parts.{lexeme_of};

    ghost Value = { LexemeValue };

    ghost view = { λ x. lexeme_of x.parts };
}

impl<A: Allocator> Lexeme<A> {
    ghost use Rattle.std.specs.Prelude.{◌≡◌};
    ghost use Rattle.std.specs.Str.{encode_utf8_all};
    ghost use Rattle.yl_lexeme.specs.Version.{is_yaml_1_2};

    /// Creates a lexeme that begins at this column of line 0.
    pub fn new(kind: Kind, column: u32, end: Pos, value: InlineString<A>) -> Lexeme<A>
        ensures { result ≡ record { kind = kind; start = record { line = 0; col = column }; end = end; value = encode_utf8_all value } }
    {
        match value.into_storage() {
            Storage::Short(value) => Lexeme {
                parts: Parts::Short {
                    kind,
                    column,
                    end,
                    value,
                },
            },
            Storage::Long(value) => Lexeme {
                parts: Parts::Long {
                    kind,
                    column,
                    end,
                    value,
                },
            },
        }
    }

    /// Returns the kind.
    pub fn kind(&self) -> Kind
        ensures { result ≡ self.now.kind }
    {
        match &self.parts {
            Parts::Short { kind, .. } => *kind,
            Parts::Long { kind, .. } => *kind,
        }
    }

    /// Returns the position of the first character. Its line is 0.
    pub fn start(&self) -> Pos
        ensures { result ≡ self.now.start }
    {
        let column = match &self.parts {
            Parts::Short { column, .. } => *column,
            Parts::Long { column, .. } => *column,
        };
        Pos {
            line: 0,
            col: column,
        }
    }

    /// Returns the position after the last character. Its line counts from the line in which the
    /// lexeme begins.
    pub fn end(&self) -> Pos
        ensures { result ≡ self.now.end }
    {
        match &self.parts {
            Parts::Short { end, .. } => *end,
            Parts::Long { end, .. } => *end,
        }
    }

    /// Returns the value.
    pub fn value(&self) -> &str
        ensures { result.now ≡ self.now.value }
    {
        match &self.parts {
            Parts::Short { value, .. } => value.as_str(),
            Parts::Long { value, .. } => value.as_str(),
        }
    }

    /// Returns whether it is the directive of a document of YAML 1.2: the words `%YAML` and `1.2`
    /// with white space between them.
    pub fn is_yaml_1_2(&self) -> bool
        ensures { result ≡ is_yaml_1_2 self.now }
    {
        matches!(self.kind(), Kind::Directive) && is_version_1_2(self.value().as_bytes())
    }
}

/// A comment: the column of its `#`, in characters from 0, and its text from the `#` to the end of
/// the line, without the line break.
#[derive(Drop)]
pub struct Comment<A: Allocator> {
    col: u32,
    text: String<A>,
}

impl<A: Allocator> Model for Comment<A> {
    ghost use Rattle.std.specs.Prelude.{string_bytes};
    ghost use Rattle.yl_lexeme.specs.Lexeme.{CommentValue};

    ghost Value = { CommentValue };

    ghost view = { λ c. record { column = c.col; text = string_bytes c.text } };
}

impl<A: Allocator> Comment<A> {
    ghost use Rattle.std.specs.Prelude.{◌≡◌, string_bytes};

    /// Creates a comment from the column of its `#` and its text.
    pub fn new(col: u32, text: String<A>) -> Comment<A>
        ensures { result ≡ record { column = col; text = string_bytes text } }
    {
        Comment { col, text }
    }

    /// Returns the column of the `#`, in characters from 0.
    pub fn col(&self) -> u32
        ensures { result ≡ self.now.column }
    {
        self.col
    }

    /// Returns the text, with the `#`.
    pub fn text(&self) -> &str
        ensures { result.now ≡ self.now.text }
    {
        self.text.as_str()
    }
}

/// A lexeme and the line of the text in which it begins.
#[derive(Clone, Copy)]
pub struct LexemeAtLine<'a, A: Allocator> {
    /// The line in which the lexeme begins, counted from 0.
    pub line: u32,
    /// The lexeme.
    pub lexeme: &'a Lexeme<A>,
}

impl<'a, A: Allocator> LexemeAtLine<'a, A> {
    ghost use Rattle.std.specs.Prelude.{◌≡◌};

    /// Returns the position in the text at which the lexeme begins.
    pub fn start(&self) -> Pos
        ensures { result ≡ record { line = self.now.line; col = self.now.lexeme.now.start.col } }
    {
        Pos {
            line: self.line,
            col: self.lexeme.start().col,
        }
    }
}
