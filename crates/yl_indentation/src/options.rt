//! The options of the rule `indentation`.
ghost use Rattle.std.specs.Prelude.{◌≡◌};

/// The width of an indentation, which is yamllint's option `spaces`.
#[derive(Clone, Copy)]
pub enum Spaces {
    /// The width of the first indentation in the text.
    Consistent,
    /// This number of characters.
    Every(u32),
}

/// Whether sequences in mappings are indented, which is yamllint's option `indent-sequences`.
#[derive(Clone, Copy)]
pub enum IndentSequences {
    /// They are indented from the mapping's column.
    Indented,
    /// They stand in the mapping's column.
    NotIndented,
    /// Both are allowed.
    Whatever,
    /// They are indented if and only if the first one in the text is.
    Consistent,
}

/// The options of the rule `indentation`.
#[derive(Clone, Copy)]
pub struct IndentationOptions {
    /// The width of an indentation.
    pub spaces: Spaces,
    /// Whether sequences in mappings are indented.
    pub indent_sequences: IndentSequences,
}

impl IndentationOptions {
    /// Returns the options of yamllint's default configuration.
    pub fn standard() -> IndentationOptions
        ensures { result ≡ record {
          spaces = Spaces.Consistent;
          indent_sequences = IndentSequences.Indented;
        } }
    {
        IndentationOptions {
            spaces: Spaces::Consistent,
            indent_sequences: IndentSequences::Indented,
        }
    }
}
