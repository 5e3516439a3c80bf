//! A document that an editor has open.
ghost use Rattle.std.specs.Prelude.{◌≡◌, Bool, if◌then◌else◌, List, None, Some, Err, IfOk, MatchResult, map};
ghost use Rattle.std.specs.Option.{is_none};
ghost use Rattle.yl_lsp.specs.Read.{change_value, opened_value};

use crate::Cause;
use crate::change::{changed_by_all, judged_by, opened_text};
use std::alloc::{AllocError, Allocator};
use std::marker::Model;
use std::mem;
use yl_config::Config;
use yl_lsp::{Change, Opened};
use yl_session::Session;
use yl_text::LineStore;
use yl_units::Encoding;

/// A document that an editor has open.
///
/// A document has its URI and its version as the editor sent them, the configuration by which it is
/// judged, and a session over its text, or the cause why the text is no longer followed. A document
/// may be ignored. A document whose text is lost keeps no session, but an ignored one keeps it.
#[derive(Drop)]
pub struct Document<S: LineStore> {
    uri: String<S::Alloc>,
    version: String<S::Alloc>,
    config: Config,
    is_ignored: bool,
    text: Result<Session<S>, Cause>,
}

impl<S: LineStore> Model for Document<S> {
    ghost use Rattle.std.specs.Prelude.{string_bytes, if◌then◌else◌, None, Some, IfOk};
    ghost use Rattle.yl_text.specs.Lines.{text_of};
    ghost use Rattle.yl_session.specs.State.{Shows};
    ghost use Rattle.yl_workspace.specs.Documents.{DocumentValue};
    ghost use Rattle.yl_workspace.specs.Shown.{text_value};

    ghost Value = { DocumentValue };

    ghost view = { λ d. record { uri = string_bytes d.uri; version = string_bytes d.version; config = if d.is_ignored then None else Some d.config; text = text_value d.text } };

    ghost invariant = { λ d. IfOk d.text (λ s. Shows d.config (text_of s.rows) s) };
}

impl<S: LineStore> Document<S> {
    ghost use Rattle.yl_workspace.specs.Changes.{Lost};
    ghost use Rattle.yl_workspace.specs.Documents.{changed_document, configured_document, lost_document, opened_document};
    ghost use Rattle.yl_workspace.specs.Shown.{IsFollowed, opened_again};

    /// Opens a document. Without a configuration the document is ignored. Returns an error if there
    /// is no memory for its URI or its version. If there is no memory for its text, the text is
    /// lost.
    pub(crate) fn opened(
        alloc: S::Alloc,
        config: Option<Config>,
        document: Opened<'_>,
    ) -> Result<Document<S>, AllocError>
        ensures { IfOk result (λ d. (granted : Bool) × (d ≡ opened_document config granted (opened_value document.entry))) }
    {
        match config {
            Some(config) => Document::judged(alloc, config, false, document),
            None => Document::judged(alloc, Config::standard(), true, document),
        }
    }

    // Opens a document under this configuration, ignored if `is_ignored` is set. The errors are
    // those of `opened`.
    fn judged(
        alloc: S::Alloc,
        config: Config,
        is_ignored: bool,
        document: Opened<'_>,
    ) -> Result<Document<S>, AllocError>
        ensures { IfOk result (λ d. (granted : Bool) × (d ≡ opened_document (if is_ignored then None else Some config) granted (opened_value document.entry))) }
    {
        let uri = String::from_str(alloc, document.uri)?;
        let version = String::from_str(alloc, document.version)?;
        let text = opened_text(alloc, config, document.text);
        Ok(Document {
            uri,
            version,
            config,
            is_ignored,
            text,
        })
    }

    /// Opens the document again. If there is no memory for that, its text is lost.
    pub(crate) fn open_again(
        &mut self,
        alloc: S::Alloc,
        config: Option<Config>,
        document: Opened<'_>,
    )
        ensures { (grants : List Bool) × (self.new ≡ opened_again config grants (opened_value document.entry) self.old) }
    {
        match Document::opened(alloc, config, document) {
            Ok(anew) => *self = anew,
            Err(AllocError) => self.lose(Cause::OutOfMemory),
        }
    }

    /// Returns the URI, as the editor sent it.
    pub fn uri(&self) -> &str
        ensures { result.now ≡ self.now.uri }
    {
        self.uri.as_str()
    }

    /// Returns the version, as the editor sent it.
    pub fn version(&self) -> &str
        ensures { result.now ≡ self.now.version }
    {
        self.version.as_str()
    }

    /// Returns `true` if the document is ignored.
    pub fn is_ignored(&self) -> bool
        ensures { result ≡ is_none self.now.config }
    {
        self.is_ignored
    }

    /// Returns the session over the text, or the cause why the text is no longer followed.
    pub fn session(&self) -> Result<&Session<S>, Cause>
        ensures { MatchResult result (λ session. IsFollowed self.now session.now) (λ cause. self.now.text ≡ Lost cause) }
    {
        match &self.text {
            Ok(session) => Ok(session),
            Err(cause) => Err(*cause),
        }
    }

    /// Drops the session over the text. From then on the text is lost for this cause.
    pub(crate) fn lose(&mut self, cause: Cause)
        ensures { self.new ≡ lost_document cause self.old }
    {
        self.text = Err(cause);
    }

    /// Applies the changes in order and sets the version.
    pub(crate) fn change(
        &mut self,
        alloc: S::Alloc,
        encoding: Encoding,
        version: &str,
        changes: &[Change<'_>],
    )
        ensures { (grants : List Bool) × (self.new ≡ changed_document encoding grants version.now (map change_value changes.now) self.old) }
    {
        let Ok(version) = String::from_str(alloc, version) else {
            self.lose(Cause::OutOfMemory);
            return;
        };
        let text = mem::replace(&mut self.text, Err(Cause::Missed));
        self.text = changed_by_all(alloc, self.config, encoding, text, changes);
        self.version = version;
    }

    /// Judges the text by another configuration. Without one the document is ignored.
    pub(crate) fn configure(&mut self, alloc: S::Alloc, config: Option<Config>)
        ensures { (granted : Bool) × (self.new ≡ configured_document config granted self.old) }
    {
        let Some(config) = config else {
            self.is_ignored = true;
            return;
        };
        let text = mem::replace(&mut self.text, Err(Cause::Missed));
        self.text = judged_by(alloc, config, text);
        self.config = config;
        self.is_ignored = false;
    }
}
