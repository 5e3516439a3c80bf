//! Where the first lexeme of a line is expected.
ghost use Rattle.std.specs.Prelude.{◌≡◌, ◌||◌, not, nat_lt, true, false, [], ◌∷◌, None};
ghost use Rattle.std.specs.Option.{option_map_or};
ghost use Rattle.yl_lexeme.specs.Directives.{is_directive};
ghost use Rattle.yl_lexeme.specs.Lexeme.{is_document_marker, is_key, is_value, is_property};
ghost use Rattle.yl_indentation.specs.declared.context.OpenCollection.TheVariants.{Block, Brackets};
ghost use Rattle.yl_indentation.specs.Expected.{expectation_of_items, expectation_in};

use crate::element::Site;
use crate::fact::Expectation;
use yl_lexeme::Kind;
use yl_marks::{Collection, Token};

/// Returns whether no earlier lexeme ends in the line in which this one begins.
pub fn begins_line(token: Token, latest: Option<Token>) -> bool
    ensures { result ≡ option_map_or (λ l. nat_lt l.end_line token.start.line) latest true }
{
    match latest {
        None => true,
        Some(latest) => latest.end_line < u64::from(token.start.line),
    }
}

/// Returns whether the kind is neither `---`, `...` nor a directive.
pub fn is_content(kind: Kind) -> bool
    ensures { result ≡ not (is_document_marker kind || is_directive kind) }
{
    !matches!(kind, Kind::DocStart | Kind::DocEnd | Kind::Directive)
}

/// Returns whether the latest lexeme is a Key, a Value or a property. After it a lexeme in brackets
/// may stand in any column.
fn is_after_freeing(latest: Option<Token>) -> bool
    ensures { result
        ≡ option_map_or (λ l. is_key l.kind || is_value l.kind || is_property l.kind) latest false }
{
    match latest {
        None => false,
        Some(latest) => matches!(
            latest.kind,
            Kind::Key | Kind::Value | Kind::Anchor | Kind::Tag
        ),
    }
}

/// Returns where items are expected in the brackets that open here: at the column of the next
/// lexeme if it is in the same line, and else beyond the indentation of the line.
pub fn expectation_of_items(site: Site) -> Expectation
    ensures { result ≡ expectation_of_items site }
{
    match site.next {
        Some(next) if next.start.line == site.token.start.line => Expectation::At(next.start.col),
        _ => Expectation::Beyond(site.indentation),
    }
}

/// Returns where a lexeme is expected in brackets, or `None` if its place is not checked.
/// `indentation` is the number of spaces at the beginning of the line of the opening bracket, and
/// `items` is where items are expected.
pub fn expectation_in_brackets(
    indentation: u32,
    items: Expectation,
    latest: Option<Token>,
    token: Token,
) -> Option<Expectation>
    ensures { result ≡ expectation_in (Brackets indentation items ∷ []) latest token }
{
    match token.kind {
        Kind::SeqClose | Kind::MapClose => Some(Expectation::At(indentation)),
        Kind::Comma | Kind::Value => None,
        _ if is_after_freeing(latest) => None,
        _ => Some(items),
    }
}

/// Returns where a lexeme is expected in a block collection, or `None` if its place is not checked.
/// `in_entries` says whether the latest of the collection's own entries, keys and values is an
/// entry.
pub fn expectation_in_block(
    collection: Collection,
    column: u32,
    in_entries: bool,
    token: Token,
) -> Option<Expectation>
    ensures { result ≡ expectation_in (Block collection column in_entries ∷ []) None token }
{
    let at = token.start.col;
    match (token.kind, collection) {
        (Kind::Entry, Collection::Mapping) => {
            (!(at == column && in_entries)).then_some(Expectation::EntryIn(column))
        }
        _ => (at != column).then_some(Expectation::Beyond(column)),
    }
}
