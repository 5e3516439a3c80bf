//! The diagnostics of a document.
ghost use Rattle.std.specs.Prelude.{◌≡◌, true, OnOk, OnErr};
ghost use Rattle.std.specs.Option.{option_map};
ghost use Rattle.yl_lsp.specs.Texts.{address_text, diagnostics_text, publication_text, version_text};
ghost use Rattle.yl_lsp.specs.Shown.{content_diagnostics};

use crate::diagnostic::{Code, Diagnostic, Severity, put_next};
use crate::report::{Report, TEXT_START, put_report};
use yl_devices::WriteFault;
use yl_frames::{Body, Pieces, put_parts, put_text};
use yl_text::Lines;

/// The content of a publication.
pub enum Content<'a, S: Lines> {
    /// The report of the document's text.
    Problems(Report<'a, S>),
    /// The text is not followed, for this reason.
    Lost(&'a str),
    /// No problems.
    Nothing,
}

impl<S: Lines> Drop for Content<'_, S> {
    fn drop(self) {
        match self {
            Content::Problems(report) => drop(report),
            Content::Lost(_) => {}
            Content::Nothing => {}
        }
    }
}

/// LSP's `textDocument/publishDiagnostics`: the diagnostics of a document.
pub struct Publication<'a, S: Lines> {
    /// The URI of the document.
    pub uri: &'a str,
    /// The version of the document, as it was written, if it has one.
    pub version: Option<&'a str>,
    /// The content that is shown.
    pub content: Content<'a, S>,
}

impl<S: Lines> Drop for Publication<'_, S> {
    fn drop(self) {
        let Publication {
            uri: _,
            version: _,
            content,
        } = self;
        drop(content);
    }
}

/// Puts the diagnostics of a publication, without the brackets of their list.
fn put_content<P: Pieces, S: Lines>(to: &mut P, content: &Content<'_, S>) -> Result<(), WriteFault>
    requires { P.can_put to.old }
    ensures ok { OnOk result (P.puts to.old (diagnostics_text true (content_diagnostics content.now)) to.new) }
    ensures err { OnErr result (P.breaks to.old (diagnostics_text true (content_diagnostics content.now)) to.new) }
{
    match content {
        Content::Problems(report) => put_report(to, report),
        Content::Lost(why) => put_next(
            to,
            true,
            &Diagnostic {
                range: TEXT_START,
                severity: Severity::Error,
                code: Code::Lost,
                message: why,
            },
        ),
        Content::Nothing => Ok(()),
    }
}

/// Puts the part of a publication after the URI.
fn put_version<P: Pieces>(to: &mut P, version: Option<&str>) -> Result<(), WriteFault>
    requires { P.can_put to.old }
    ensures ok { OnOk result (P.puts to.old (version_text (option_map (λ t. t.now) version.entry)) to.new) }
    ensures err { OnErr result (P.breaks to.old (version_text (option_map (λ t. t.now) version.entry)) to.new) }
{
    match version {
        Some(digits) => put_parts(to, &[b",\"version\":", digits.as_bytes(), b"}}"]),
        None => to.put(b"}}"),
    }
}

/// Puts the part of a publication after the diagnostics.
fn put_address<P: Pieces>(to: &mut P, uri: &str, version: Option<&str>) -> Result<(), WriteFault>
    requires { P.can_put to.old }
    ensures ok { OnOk result (P.puts to.old (address_text uri.now (option_map (λ t. t.now) version.entry)) to.new) }
    ensures err { OnErr result (P.breaks to.old (address_text uri.now (option_map (λ t. t.now) version.entry)) to.new) }
{
    to.put(b"],\"uri\":")?;
    put_text(to, uri)?;
    put_version(to, version)
}

impl<S: Lines> Body for Publication<'_, S> {
    ghost use Rattle.json.specs.Print.{print};
    ghost use Rattle.json.specs.Tree.{json_tokens};
    ghost use Rattle.yl_lsp.specs.Messages.{publication};
    ghost use Rattle.yl_lsp.specs.Shown.{publication_value};

    ghost text = { λ p. print (json_tokens (publication (publication_value p))) };

    fn put<P: Pieces>(&self, to: &mut P) -> Result<(), WriteFault> {
        to.put(
            b"{\"jsonrpc\":\"2.0\",\"method\":\"textDocument/publishDiagnostics\",\"params\":{\"diagnostics\":[",
        )?;
        put_content(to, &self.content)?;
        put_address(to, self.uri, self.version)
    }
}
