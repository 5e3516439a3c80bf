//! Diagnostics, and their JSON texts.
ghost use Rattle.std.specs.Prelude.{◌≡◌, codes, OnOk, OnErr};
ghost use Rattle.yl_lsp.specs.Diagnostics.{severity_digit};
ghost use Rattle.yl_lsp.specs.Texts.{head_text, tail_text, diagnostic_text, separator, next_text};
ghost use Rattle.yl_lsp.specs.Shown.{diagnostic_value};

use crate::Range;
use itoa::Buffer;
use yl_devices::WriteFault;
use yl_frames::{Pieces, put_parts, put_text};
use yl_text::RuleId;

/// The severity of a diagnostic (LSP's `DiagnosticSeverity`).
#[derive(Clone, Copy, Debug, PartialEq, Eq)]
pub enum Severity {
    /// An error.
    Error,
    /// A warning.
    Warning,
    /// Information.
    Information,
}

impl Severity {
    /// Returns the number that LSP gives to the severity, as a digit.
    fn digit(self) -> &'static [u8]
        ensures { result.now ≡ severity_digit self }
    {
        match self {
            Severity::Error => b"1",
            Severity::Warning => b"2",
            Severity::Information => b"3",
        }
    }
}

/// The code of a diagnostic.
#[derive(Clone, Copy)]
pub enum Code {
    /// The name of a rule.
    Rule(RuleId),
    /// The name of a rule, with a link to its description.
    Linked(RuleId),
    /// The code `lost`, of a text that is not followed.
    Lost,
    /// The code `more`, of problems that are not shown.
    More,
}

/// A diagnostic.
#[derive(Clone, Copy)]
pub(crate) struct Diagnostic<'a> {
    pub(crate) range: Range,
    pub(crate) severity: Severity,
    pub(crate) code: Code,
    pub(crate) message: &'a str,
}

/// Puts the part of a diagnostic before its message.
fn put_head<P: Pieces>(to: &mut P, code: Code) -> Result<(), WriteFault>
    requires { P.can_put to.old }
    ensures ok { OnOk result (P.puts to.old (head_text code) to.new) }
    ensures err { OnErr result (P.breaks to.old (head_text code) to.new) }
{
    match code {
        Code::Rule(rule) => {
            let name = rule.name().as_bytes();
            put_parts(to, &[b"{\"code\":\"", name, b"\",\"message\":"])
        }
        Code::Linked(rule) => {
            let name = rule.name().as_bytes();
            let link: &[u8] =
                b"\",\"codeDescription\":{\"href\":\"https://yamllint.readthedocs.io/en/stable/rules.html#";
            put_parts(
                to,
                &[b"{\"code\":\"", name, link, name, b"\"},\"message\":"],
            )
        }
        Code::Lost => to.put(b"{\"code\":\"lost\",\"message\":"),
        Code::More => to.put(b"{\"code\":\"more\",\"message\":"),
    }
}

/// Puts the part of a diagnostic after its message.
pub(crate) fn put_tail<P: Pieces>(
    to: &mut P,
    range: Range,
    severity: Severity,
) -> Result<(), WriteFault>
    requires { P.can_put to.old }
    ensures ok { OnOk result (P.puts to.old (tail_text range severity) to.new) }
    ensures err { OnErr result (P.breaks to.old (tail_text range severity) to.new) }
{
    let mut end_units = Buffer::new();
    let mut end_line = Buffer::new();
    let mut start_units = Buffer::new();
    let mut start_line = Buffer::new();
    put_parts(
        to,
        &[
            b",\"range\":{\"end\":{\"character\":",
            end_units.format(range.end.units).as_bytes(),
            b",\"line\":",
            end_line.format(range.end.line).as_bytes(),
            b"},\"start\":{\"character\":",
            start_units.format(range.start.units).as_bytes(),
            b",\"line\":",
            start_line.format(range.start.line).as_bytes(),
            b"}},\"severity\":",
            severity.digit(),
            b",\"source\":\"zutkrad\"}",
        ],
    )
}

/// Puts a diagnostic.
fn put_diagnostic<P: Pieces>(to: &mut P, diagnostic: &Diagnostic<'_>) -> Result<(), WriteFault>
    requires { P.can_put to.old }
    ensures ok { OnOk result (P.puts to.old (diagnostic_text (diagnostic_value diagnostic.now)) to.new) }
    ensures err { OnErr result (P.breaks to.old (diagnostic_text (diagnostic_value diagnostic.now)) to.new) }
{
    put_head(to, diagnostic.code)?;
    put_text(to, diagnostic.message)?;
    put_tail(to, diagnostic.range, diagnostic.severity)
}

/// Returns the separator before a diagnostic in a list. It is empty if `is_first` is set.
pub(crate) fn separator(is_first: bool) -> &'static [u8]
    ensures { result.now ≡ separator is_first }
{
    if is_first { b"" } else { b"," }
}

/// Puts a diagnostic of a list, after its separator.
pub(crate) fn put_next<P: Pieces>(
    to: &mut P,
    is_first: bool,
    diagnostic: &Diagnostic<'_>,
) -> Result<(), WriteFault>
    requires { P.can_put to.old }
    ensures ok { OnOk result (P.puts to.old (next_text is_first (diagnostic_value diagnostic.now)) to.new) }
    ensures err { OnErr result (P.breaks to.old (next_text is_first (diagnostic_value diagnostic.now)) to.new) }
{
    to.put(separator(is_first))?;
    put_diagnostic(to, diagnostic)
}
