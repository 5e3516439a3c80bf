//! The documents that an editor has open.
ghost use Rattle.std.specs.Prelude.{◌≡◌, ◌<◌, Bool, List, length, [], IsSome, None, OnOk, OnErr, bytes_eq, option_copied, map};
ghost use Rattle.std.specs.List as list;
ghost use Rattle.yl_lsp.specs.Read.{change_value, opened_value};
ghost use Rattle.yl_workspace.specs.Documents.{all_lost, changed, closed, configured, configured_at, document_at, lost, opened};

use crate::{Cause, Document};
use std::alloc::AllocError;
use std::marker::Model;
use yl_config::Config;
use yl_lsp::{Change, Opened};
use yl_text::LineStore;
use yl_units::Encoding;

/// The documents that are open, in the order in which they were opened. Contracts view a workspace
/// as the list of its documents.
#[derive(Drop)]
pub struct Workspace<S: LineStore> {
    alloc: S::Alloc,
    documents: Vec<Document<S>, S::Alloc>,
}

impl<S: LineStore> Model for Workspace<S> {
    ghost use Rattle.std.specs.Prelude.{List};
    ghost use Rattle.yl_workspace.specs.Documents.{DocumentValue};

    ghost Value = { List DocumentValue };

    ghost view = { λ w. w.documents.items };
}

impl<S: LineStore> Workspace<S> {
    /// Creates a workspace without documents. Does not allocate.
    pub fn new(alloc: S::Alloc) -> Workspace<S>
        ensures { result ≡ [] }
    {
        Workspace {
            alloc,
            documents: Vec::new(alloc),
        }
    }

    /// Returns the documents.
    pub fn documents(&self) -> &[Document<S>]
        ensures { result.now ≡ self.now }
    {
        self.documents.as_slice()
    }

    /// Returns the document with this URI, if it is open.
    pub fn document(&self, uri: &str) -> Option<&Document<S>>
        ensures { option_copied result ≡ document_at uri.now self.now }
    {
        let i = position(self.documents.as_slice(), uri)?;
        Some(&self.documents[i])
    }

    /// Opens a document, or opens it again (`textDocument/didOpen`). Without a configuration the
    /// document is ignored. If there is no memory for its text, or for a document that is opened
    /// again, its text is lost. Returns an error if there is no memory for a document that is not
    /// open. Then nothing has changed.
    pub fn open(&mut self, config: Option<Config>, document: Opened<'_>) -> Result<(), AllocError>
        ensures opened { (grants : List Bool) × (self.new ≡ opened config grants (opened_value document.entry) self.old) }
        ensures ok { OnOk result (IsSome (document_at document.entry.uri.now self.new)) }
        ensures err { OnErr result (self.new ≡ self.old) }
        ensures absent { OnErr result (document_at document.entry.uri.now self.old ≡ None) }
    {
        let alloc = self.alloc;
        match position(self.documents.as_slice(), document.uri) {
            Some(i) => self.documents[i].open_again(alloc, config, document),
            None => {
                let document = Document::opened(alloc, config, document)?;
                self.documents.push(document)?;
            }
        }
        Ok(())
    }

    /// Applies the changes of one message in order (`textDocument/didChange`). If a change fails,
    /// the text is lost for the cause. If the document is not open, nothing changes.
    pub fn change(&mut self, encoding: Encoding, uri: &str, version: &str, changes: &[Change<'_>])
        ensures { (grants : List Bool) × (self.new ≡ changed encoding grants uri.now version.now (map change_value changes.now) self.old) }
    {
        let alloc = self.alloc;
        if let Some(i) = position(self.documents.as_slice(), uri) {
            self.documents[i].change(alloc, encoding, version, changes);
        }
    }

    /// Closes a document (`textDocument/didClose`). Does not allocate.
    pub fn close(&mut self, uri: &str)
        ensures { self.new ≡ closed uri.now self.old }
    {
        remove_each(&mut self.documents, uri);
    }

    /// Drops the text of a document, if the document is open. From then on the text is lost for
    /// this cause. Does not allocate.
    pub fn lose(&mut self, uri: &str, cause: Cause)
        ensures { self.new ≡ lost cause uri.now self.old }
    {
        if let Some(i) = position(self.documents.as_slice(), uri) {
            self.documents[i].lose(cause);
        }
    }

    /// Drops the texts of all documents. From then on they are lost for this cause. Does not
    /// allocate.
    pub fn lose_all(&mut self, cause: Cause)
        ensures { self.new ≡ all_lost cause self.old }
    {
        lose_each(&mut self.documents, cause);
    }

    /// Judges each text by another configuration. Without one all documents are ignored. A text for
    /// which there is no memory is lost.
    pub fn configure(&mut self, config: Option<Config>)
        ensures { (grants : List Bool) × (self.new ≡ configured config grants self.old) }
    {
        let alloc = self.alloc;
        configure_each(alloc, config, &mut self.documents);
    }

    /// Judges the text of the document at `index` by another configuration. Without one the
    /// document is ignored. If there is no memory, the text is lost.
    pub fn configure_at(&mut self, index: usize, config: Option<Config>)
        requires { index < length self.old }
        ensures { (granted : Bool) × (self.new ≡ configured_at index config granted self.old) }
    {
        let alloc = self.alloc;
        configure_one(alloc, index, config, &mut self.documents);
    }
}

/// Returns the index of the first document with this URI.
fn position<S: LineStore>(documents: &[Document<S>], uri: &str) -> Option<usize>
    ensures { result ≡ list.position (λ d. bytes_eq d.uri uri.now) documents.now }
{
    for (i, document) in documents.iter().enumerate() {
        if document.uri() == uri {
            return Some(i);
        }
    }
    None
}

/// Removes the documents with this URI.
fn remove_each<S: LineStore>(documents: &mut Vec<Document<S>, S::Alloc>, uri: &str)
    ensures { documents.new.items ≡ closed uri.now documents.old.items }
{
    documents.retain(|document| document.uri() != uri);
}

/// Drops the texts of these documents.
fn lose_each<S: LineStore>(documents: &mut [Document<S>], cause: Cause)
    ensures { documents.new ≡ all_lost cause documents.old }
{
    for document in documents {
        document.lose(cause);
    }
}

/// Judges the texts of these documents by another configuration.
fn configure_each<S: LineStore>(
    alloc: S::Alloc,
    config: Option<Config>,
    documents: &mut [Document<S>],
)
    ensures { (grants : List Bool) × (documents.new ≡ configured config grants documents.old) }
{
    for document in documents {
        document.configure(alloc, config);
    }
}

/// Judges the text of the document at `index` by another configuration.
fn configure_one<S: LineStore>(
    alloc: S::Alloc,
    index: usize,
    config: Option<Config>,
    documents: &mut [Document<S>],
)
    requires { index < length documents.old }
    ensures { (granted : Bool) × (documents.new ≡ configured_at index config granted documents.old) }
{
    documents[index].configure(alloc, config);
}
