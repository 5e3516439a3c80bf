//! Open documents, and their texts. These functions have no contracts, so that a call of one brings
//! in none of a workspace's contracts.

use std::alloc::{AllocError, Global};
use yl_chunks::ChunkStore;
use yl_config::Config;
use yl_lsp::{Change, Opened};
use yl_units::Encoding;
use yl_workspace::{Cause, Document, Workspace};

/// Open documents over a store in chunks.
pub type Open = Workspace<ChunkStore<Global>>;

/// The text of a document, or the cause for which it is not followed.
pub type TextOf = Result<Vec<u8>, Cause>;

/// Opens a document under the standard configuration.
pub fn open(documents: &mut Open, uri: &str, version: &str, text: &str) -> Result<(), AllocError> {
    let document = Opened { uri, version, text };
    documents.open(Some(Config::standard()), document)
}

/// Changes the text of a document.
pub fn change(documents: &mut Open, encoding: Encoding, uri: &str, changes: &[Change<'_>]) {
    documents.change(encoding, uri, "2", changes)
}

/// Returns the text of a document, or the cause for which it is not followed. The only error is out
/// of memory.
pub fn text_in(
    alloc: Global,
    document: &Document<ChunkStore<Global>>,
) -> Result<TextOf, AllocError> {
    match document.session() {
        Ok(session) => Ok(Ok(session.text(alloc)?)),
        Err(cause) => Ok(Err(cause)),
    }
}

/// Returns the number of problems of a document. It is 0 if the text of the document is not
/// followed.
pub fn problems(document: &Document<ChunkStore<Global>>) -> usize {
    match document.session() {
        Ok(session) => session.problems().len(),
        Err(_) => 0,
    }
}
