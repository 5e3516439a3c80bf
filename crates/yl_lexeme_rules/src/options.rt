//! The options of the rules on lexemes.
ghost use Rattle.std.specs.Prelude.{◌≡◌};

use crate::brackets::BracketsOptions;
use crate::colons::ColonsOptions;
use crate::commas::CommasOptions;
use crate::document_start::DocumentStartOptions;
use crate::hyphens::HyphensOptions;
use crate::quoted_strings::QuotedStringsOptions;
use crate::truthy::TruthyOptions;

/// The options of each rule on lexemes, or `None` for a rule that is off.
#[derive(Clone, Copy)]
pub struct LexemeOptions {
    /// The options of the rule `braces`.
    pub braces: Option<BracketsOptions>,
    /// The options of the rule `brackets`.
    pub brackets: Option<BracketsOptions>,
    /// The options of the rule `colons`.
    pub colons: Option<ColonsOptions>,
    /// The options of the rule `commas`.
    pub commas: Option<CommasOptions>,
    /// The options of the rule `hyphens`.
    pub hyphens: Option<HyphensOptions>,
    /// The options of the rule `document-start`.
    pub document_start: Option<DocumentStartOptions>,
    /// The options of the rule `truthy`.
    pub truthy: Option<TruthyOptions>,
    /// The options of the rule `quoted-strings`.
    pub quoted_strings: Option<QuotedStringsOptions>,
}

impl LexemeOptions {
    ghost use Rattle.yl_lexeme_rules.specs.Standard.{standard_options};

    /// Returns the options of yamllint's default configuration, in which `quoted-strings` is off.
    pub fn standard() -> LexemeOptions
        ensures { result ≡ standard_options }
    {
        LexemeOptions {
            braces: Some(BracketsOptions::standard()),
            brackets: Some(BracketsOptions::standard()),
            colons: Some(ColonsOptions::standard()),
            commas: Some(CommasOptions::standard()),
            hyphens: Some(HyphensOptions::standard()),
            document_start: Some(DocumentStartOptions::standard()),
            truthy: Some(TruthyOptions::standard()),
            quoted_strings: None,
        }
    }
}
