//! Reads the parameters of messages.
ghost use Rattle.std.specs.Prelude.{◌≡◌, [], ◌∷◌, map, option_and_then, true};
ghost use Rattle.std.specs.Char.{is_ascii_digit};
ghost use Rattle.std.specs.List.{list_all};
ghost use Rattle.std.specs.Option.{option_map, option_map_or};
ghost use Rattle.json.specs.Find.{as_array, get};
ghost use Rattle.json.specs.Value.{value_view, items_view};
ghost use Rattle.yl_lsp.specs.Params.{Unread};
ghost use Rattle.yl_lsp.specs.Params as spec;
ghost use Rattle.yl_lsp.specs.Read.{change_value, opened_value};

use crate::Range;
use json::Value;
use std::alloc::Allocator;
use yl_units::EditorPlace;

/// A change of a text.
#[derive(Clone, Copy)]
pub enum Change<'a> {
    /// This text replaces the whole text.
    Whole(&'a str),
    /// This text replaces the text in a range.
    Within(Range, &'a str),
    /// The change has another shape.
    Unread,
}

/// A document that was opened.
#[derive(Clone, Copy)]
pub struct Opened<'a> {
    /// Its URI.
    pub uri: &'a str,
    /// Its version, as it was written.
    pub version: &'a str,
    /// Its text.
    pub text: &'a str,
}

/// Returns the text of a string that is a member of an object, if there is one.
fn text_at<'a, A: Allocator>(value: &Value<'a, A>, name: &str) -> Option<&'a str>
    ensures { option_map (λ t. t.now) result ≡ spec.text_at name.now (value_view value.now) }
{
    value.get(name)?.as_str()
}

/// Returns a number that is a member of an object, as it was written, if there is one.
fn digits_at<'a, A: Allocator>(value: &Value<'a, A>, name: &str) -> Option<&'a str>
    ensures { option_map (λ t. t.now) result ≡ spec.digits_at name.now (value_view value.now) }
{
    value.get(name)?.as_number()
}

/// Returns `true` if all bytes are decimal digits.
fn are_digits(bytes: &[u8]) -> bool
    ensures { result ≡ list_all is_ascii_digit bytes.now }
{
    bytes.iter().all(|byte| byte.is_ascii_digit())
}

/// Returns the value of decimal digits, or `None` if there are none or the value does not fit in a
/// `u64`.
fn number_of(digits: &str) -> Option<u64>
    requires { list_all is_ascii_digit digits.now ≡ true }
    ensures { result ≡ spec.whole_number digits.now }
{
    match digits.parse::<u64>() {
        Ok(number) => Some(number),
        Err(_) => None,
    }
}

/// Returns the value of a number that is written in decimal digits only, or `None` if it is not or
/// the value does not fit in a `u64`.
pub(crate) fn whole_number(digits: &str) -> Option<u64>
    ensures { result ≡ spec.whole_number digits.now }
{
    if are_digits(digits.as_bytes()) {
        number_of(digits)
    } else {
        None
    }
}

/// Returns a whole number that is a member of an object, if there is one and it fits in a `u64`.
fn number_at<A: Allocator>(value: &Value<'_, A>, name: &str) -> Option<u64>
    ensures { result ≡ spec.number_at name.now (value_view value.now) }
{
    whole_number(digits_at(value, name)?)
}

/// Returns the position that a `Position` names, or `None` if it has another shape.
fn place_in<A: Allocator>(value: &Value<'_, A>) -> Option<EditorPlace>
    ensures { result ≡ spec.place_in (value_view value.now) }
{
    Some(EditorPlace {
        line: number_at(value, "line")?,
        units: number_at(value, "character")?,
    })
}

/// Returns the position that is a member of an object, if there is one.
fn place_at<A: Allocator>(value: &Value<'_, A>, name: &str) -> Option<EditorPlace>
    ensures { result ≡ option_and_then spec.place_in (get name.now (value_view value.now)) }
{
    place_in(value.get(name)?)
}

/// Returns the range that a `Range` names, or `None` if it has another shape.
fn range_in<A: Allocator>(value: &Value<'_, A>) -> Option<Range>
    ensures { result ≡ spec.range_in (value_view value.now) }
{
    Some(Range {
        start: place_at(value, "start")?,
        end: place_at(value, "end")?,
    })
}

/// Returns the change of a `TextDocumentContentChangeEvent`.
pub fn change_of<'a, A: Allocator>(value: &Value<'a, A>) -> Change<'a>
    ensures { change_value result ≡ spec.change_in (value_view value.now) }
{
    let Some(text) = text_at(value, "text") else {
        return Change::Unread;
    };
    let Some(range) = value.get("range") else {
        return Change::Whole(text);
    };
    match range_in(range) {
        Some(range) => Change::Within(range, text),
        None => Change::Unread,
    }
}

/// Returns the document that the parameters of `textDocument/didOpen` open, or `None` if they have
/// another shape.
pub fn opened_in<'a, A: Allocator>(params: &Value<'a, A>) -> Option<Opened<'a>>
    ensures { option_map opened_value result ≡ spec.opened_in (value_view params.now) }
{
    opened_document(params.get("textDocument")?)
}

/// Returns the document of a `TextDocumentItem`, or `None` if it has another shape.
fn opened_document<'a, A: Allocator>(document: &Value<'a, A>) -> Option<Opened<'a>>
    ensures { option_map opened_value result ≡ spec.opened_document (value_view document.now) }
{
    Some(Opened {
        uri: text_at(document, "uri")?,
        version: digits_at(document, "version")?,
        text: text_at(document, "text")?,
    })
}

/// Returns the URI of the document that a message is about, if it has one.
pub fn document_in<'a, A: Allocator>(params: &Value<'a, A>) -> Option<&'a str>
    ensures { option_map (λ t. t.now) result ≡ spec.document_in (value_view params.now) }
{
    text_at(params.get("textDocument")?, "uri")
}

/// Returns the version of the document that a message is about, as it was written, if it has one.
pub fn version_in<'a, A: Allocator>(params: &Value<'a, A>) -> Option<&'a str>
    ensures { option_map (λ t. t.now) result ≡ spec.version_in (value_view params.now) }
{
    digits_at(params.get("textDocument")?, "version")
}

/// Returns the elements of a list, or `None` if the value is not a list.
pub(crate) fn list_of<'v, 'a, A: Allocator>(value: &'v Value<'a, A>) -> Option<&'v [Value<'a, A>]>
    ensures { option_map (λ vs. items_view vs.now) result ≡ as_array (value_view value.now) }
{
    match value {
        Value::Array(items) => Some(items.as_slice()),
        _ => None,
    }
}

/// Returns the changes in the parameters of `textDocument/didChange`, in order. `None` means that
/// they are not a list, and counts as one change of another shape.
pub fn changes_in<'v, 'a, A: Allocator>(params: &'v Value<'a, A>) -> Option<&'v [Value<'a, A>]>
    ensures { spec.changes_in (value_view params.now)
        ≡ option_map_or (λ vs. map (λ v. spec.change_in (value_view v)) vs.now) result (Unread ∷ []) }
{
    list_of(params.get("contentChanges")?)
}
