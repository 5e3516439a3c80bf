//! The options of all rules.
ghost use Rattle.std.specs.Prelude.{◌≡◌};
ghost use Rattle.yl_settings.specs.Standard.{standard_rule_options};

use yl_indentation::IndentationOptions;
use yl_lexeme_rules::{
    BracketsOptions, ColonsOptions, CommasOptions, DocumentStartOptions, HyphensOptions,
    QuotedStringsOptions, TruthyOptions,
};
use yl_rules::{CommentsOptions, RowOptions, RunOptions};
use yl_tree::{AnchorsOptions, KeyDuplicatesOptions};

/// The options of each rule that has any.
#[derive(Clone, Copy)]
pub struct RuleOptions {
    /// The options of the rule `anchors`.
    pub anchors: AnchorsOptions,
    /// The options of the rule `braces`.
    pub braces: BracketsOptions,
    /// The options of the rule `brackets`.
    pub brackets: BracketsOptions,
    /// The options of the rule `colons`.
    pub colons: ColonsOptions,
    /// The options of the rule `commas`.
    pub commas: CommasOptions,
    /// The options of the rule `comments`.
    pub comments: CommentsOptions,
    /// The options of the rule `document-start`.
    pub document_start: DocumentStartOptions,
    /// The options of the rule `hyphens`.
    pub hyphens: HyphensOptions,
    /// The options of the rule `indentation`.
    pub indentation: IndentationOptions,
    /// The options of the rule `key-duplicates`.
    pub key_duplicates: KeyDuplicatesOptions,
    /// The options of the rule `quoted-strings`.
    pub quoted_strings: QuotedStringsOptions,
    /// The options of the rule `line-length`.
    pub row: RowOptions,
    /// The options of the rules `empty-lines` and `new-lines`.
    pub run: RunOptions,
    /// The options of the rule `truthy`.
    pub truthy: TruthyOptions,
}

/// Returns the options of yamllint's default configuration.
#[tactic(auto, unfolding(crate::specs::Standard::standard_rule_options))]
pub fn standard_rule_options() -> RuleOptions
    ensures { result ≡ standard_rule_options }
{
    RuleOptions {
        anchors: AnchorsOptions::standard(),
        braces: BracketsOptions::standard(),
        brackets: BracketsOptions::standard(),
        colons: ColonsOptions::standard(),
        commas: CommasOptions::standard(),
        comments: CommentsOptions::standard(),
        document_start: DocumentStartOptions::standard(),
        hyphens: HyphensOptions::standard(),
        indentation: IndentationOptions::standard(),
        key_duplicates: KeyDuplicatesOptions::standard(),
        quoted_strings: QuotedStringsOptions::standard(),
        row: RowOptions::standard(),
        run: RunOptions::standard(),
        truthy: TruthyOptions::standard(),
    }
}
