//! Reads the capabilities of an editor, and the settings of its user.
ghost use Rattle.std.specs.Prelude.{◌≡◌, codes, option_and_then, ◌∷◌, []};
ghost use Rattle.std.specs.Option.{option_map};
ghost use Rattle.json.specs.Find.{as_array, as_bool, as_str, as_number};
ghost use Rattle.json.specs.Value.{value_view, items_view};
ghost use Rattle.yl_lsp.specs.Params as spec;
ghost use Rattle.yl_lsp.specs.Read.{settings_value};

use crate::params::{list_of, whole_number};
use json::Value;
use std::alloc::Allocator;
use yl_units::Encoding;

/// The settings of this program, each if it is set.
#[derive(Clone, Copy)]
pub struct Settings<'a> {
    /// The text of a configuration.
    pub config: Option<&'a str>,
    /// The path of the file of a configuration.
    pub config_file: Option<&'a str>,
    /// The maximum number of problems that are shown for a text.
    pub most: Option<u64>,
}

/// Returns the encoding that a value names, if it is a known one.
fn encoding_of<A: Allocator>(value: &Value<'_, A>) -> Option<Encoding>
    ensures { result ≡ option_and_then spec.encoding_named (as_str (value_view value.now)) }
{
    match value.as_str()? {
        "utf-8" => Some(Encoding::Utf8),
        "utf-16" => Some(Encoding::Utf16),
        "utf-32" => Some(Encoding::Utf32),
        _ => None,
    }
}

/// Returns the first known encoding in a list, or UTF-16 if there is none.
fn first_encoding<A: Allocator>(list: &[Value<'_, A>]) -> Encoding
    ensures { result ≡ spec.first_encoding (items_view list.now) }
{
    for value in list {
        if let Some(encoding) = encoding_of(value) {
            return encoding;
        }
    }
    Encoding::Utf16
}

/// Returns the encodings that an editor supports, if it lists them.
fn encodings_in<'v, 'a, A: Allocator>(params: &'v Value<'a, A>) -> Option<&'v [Value<'a, A>]>
    ensures { option_map (λ vs. items_view vs.now) result
        ≡ option_and_then as_array (spec.path (codes "capabilities" ∷ codes "general" ∷ codes "positionEncodings" ∷ []) (value_view params.now)) }
{
    list_of(
        params
            .get("capabilities")?
            .get("general")?
            .get("positionEncodings")?,
    )
}

/// Returns the encoding of columns according to the parameters of `initialize`: the first known one
/// of those that the editor supports, or UTF-16 if there is none.
pub fn encoding_in<A: Allocator>(params: &Value<'_, A>) -> Encoding
    ensures { result ≡ spec.encoding_in (value_view params.now) }
{
    match encodings_in(params) {
        Some(list) => first_encoding(list),
        None => Encoding::Utf16,
    }
}

/// Returns the capability `publishDiagnostics.codeDescriptionSupport` in the parameters of
/// `initialize`, if it is a boolean.
fn links_in<A: Allocator>(params: &Value<'_, A>) -> Option<bool>
    ensures { result ≡ option_and_then as_bool (spec.path (codes "capabilities" ∷ codes "textDocument" ∷ codes "publishDiagnostics"
        ∷ codes "codeDescriptionSupport" ∷ []) (value_view params.now)) }
{
    params
        .get("capabilities")?
        .get("textDocument")?
        .get("publishDiagnostics")?
        .get("codeDescriptionSupport")?
        .as_bool()
}

/// Returns `true` if the editor supports links for the codes of diagnostics, according to the
/// parameters of `initialize`.
pub fn takes_links<A: Allocator>(params: &Value<'_, A>) -> bool
    ensures { result ≡ spec.takes_links (value_view params.now) }
{
    links_in(params).unwrap_or(false)
}

/// Returns the capability `didChangeWatchedFiles.dynamicRegistration` in the parameters of
/// `initialize`, if it is a boolean.
fn watchers_in<A: Allocator>(params: &Value<'_, A>) -> Option<bool>
    ensures { result ≡ option_and_then as_bool (spec.path (codes "capabilities" ∷ codes "workspace" ∷ codes "didChangeWatchedFiles"
        ∷ codes "dynamicRegistration" ∷ []) (value_view params.now)) }
{
    params
        .get("capabilities")?
        .get("workspace")?
        .get("didChangeWatchedFiles")?
        .get("dynamicRegistration")?
        .as_bool()
}

/// Returns `true` if the editor supports the registration of files to watch, according to the
/// parameters of `initialize`.
pub fn takes_watchers<A: Allocator>(params: &Value<'_, A>) -> bool
    ensures { result ≡ spec.takes_watchers (value_view params.now) }
{
    watchers_in(params).unwrap_or(false)
}

/// Returns a setting that is a string. The inner `None` is a setting that is absent, and the outer
/// `None` is a value of another type.
fn text_setting<'a, A: Allocator>(value: Option<&Value<'a, A>>) -> Option<Option<&'a str>>
    ensures { option_map (λ o. option_map (λ t. t.now) o) result ≡ spec.setting as_str (option_map (λ v. value_view v.now) value.entry) }
{
    match value {
        Some(value) => Some(Some(value.as_str()?)),
        None => Some(None),
    }
}

/// Returns a setting that is a whole number. The inner `None` is a setting that is absent, and the
/// outer `None` is a value that is not a whole number or does not fit in a `u64`.
fn number_setting<A: Allocator>(value: Option<&Value<'_, A>>) -> Option<Option<u64>>
    ensures { result ≡ spec.setting (λ n. option_and_then spec.whole_number (as_number n)) (option_map (λ v. value_view v.now) value.entry) }
{
    match value {
        Some(value) => Some(Some(whole_number(value.as_number()?)?)),
        None => Some(None),
    }
}

/// Returns the settings in an object, or `None` if the value is not an object or one of its
/// settings is not valid.
pub fn settings_in<'a, A: Allocator>(value: &Value<'a, A>) -> Option<Settings<'a>>
    ensures { option_map settings_value result ≡ spec.settings_in (value_view value.now) }
{
    if !matches!(value, Value::Object(_)) {
        return None;
    }
    Some(Settings {
        config: text_setting(value.get("config"))?,
        config_file: text_setting(value.get("configFile"))?,
        most: number_setting(value.get("maxProblems"))?,
    })
}

/// Returns the settings of this program in the parameters of `initialize`, if there are some.
pub fn first_settings<'v, 'a, A: Allocator>(params: &'v Value<'a, A>) -> Option<&'v Value<'a, A>>
    ensures { option_map (λ v. value_view v.now) result ≡ spec.first_settings (value_view params.now) }
{
    params.get("initializationOptions")?.get("zutkrad")
}

/// Returns the settings of this program in the parameters of `workspace/didChangeConfiguration`, if
/// there are some.
pub fn changed_settings<'v, 'a, A: Allocator>(params: &'v Value<'a, A>) -> Option<&'v Value<'a, A>>
    ensures { option_map (λ v. value_view v.now) result ≡ spec.changed_settings (value_view params.now) }
{
    params.get("settings")?.get("zutkrad")
}
