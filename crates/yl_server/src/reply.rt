//! What a server sends after an event.
ghost use Rattle.std.specs.Prelude.{◌≡◌, ◌-◌, ◌^◌, ◌<◌, [], ◌∷◌, OnOk, IfErr};
ghost use Rattle.yl_text.specs.Watched.{failures_of};
ghost use Rattle.yl_frames.specs.Sending.{watched_of};
ghost use Rattle.yl_rpc.specs.Views.{id_view};
ghost use Rattle.yl_lsp.specs.Shown.{content_diagnostics};
ghost use Rattle.yl_workspace.specs.Computed.{report};
ghost use Rattle.yl_server.specs.Messages.{Initialized, Done, Refused, Published, Told, Watches, Shown};
ghost use Rattle.yl_server.specs.Machine.{told_fault, told_of, told_of_all};
ghost use Rattle.yl_server.specs.Replies.{messages_of};
ghost use Rattle.yl_server.specs.Settings.{setting_words};
ghost use Rattle.yl_server.specs.Steps.{AreCut, AreSent, sink};
ghost use Rattle.yl_server.specs.Written.{document_diagnostics, lost_words};

use crate::server::Server;
use crate::settings::SettingFault;
use std::io::Write;
use yl_frames::{Output, SendFault};
use yl_lsp::{
    Content, ErrorMessage, InitializeResult, PlacedError, Publication, Report, WatchRequest,
};
use yl_rpc::{Answer, Code, Failure, Id, Plain};
use yl_text::LineStore;
use yl_units::Encoding;
use yl_workspace::{Cause, Document, one_report};

/// The version of the server that it sends to an editor.
const VERSION: &str = "0.1.0";

/// What a server sends after an event.
#[derive(Clone, Copy)]
pub(crate) enum Reply<'a> {
    /// Nothing is sent.
    Nothing,
    /// The response to `initialize`, and the fault of the settings.
    Welcome(Id<'a>, Option<SettingFault>),
    /// The response to `shutdown`.
    Done(Id<'a>),
    /// The error response to a request.
    Refused(Id<'a>, Code, &'a str),
    /// The publication for the document with this URI, and the fault of its configuration, or that
    /// the document could not be opened for lack of memory.
    Document(&'a str, Option<SettingFault>),
    /// The publications for all documents, and the fault of their configurations.
    All(Option<SettingFault>),
    /// The error response to a body that was not read, and the publications for all documents.
    Missed(Code, &'a str),
    /// The fault of configurations or settings, if there is one.
    Fault(Option<SettingFault>),
    /// The request that the editor report changes of files.
    Watch,
}

// Sends an error response.
fn refuse<W: Write>(
    id: Id<'_>,
    code: Code,
    message: &str,
    out: &mut Output<W>,
) -> Result<(), SendFault>
    requires { failures_of (watched_of out.old) < 2 ^ 64 - 1 }
    ensures ok { OnOk result (AreSent (sink W.contents out.old out.new) (Refused (id_view id.entry) code message.now ∷ [])) }
    ensures err { IfErr result (AreCut (sink W.contents out.old out.new) (Refused (id_view id.entry) code message.now ∷ [])) }
{
    out.send(&Failure { id, code, message })
}

// Sends the user an error message.
fn tell<W: Write>(text: &str, out: &mut Output<W>) -> Result<(), SendFault>
    requires { failures_of (watched_of out.old) < 2 ^ 64 - 1 }
    ensures ok { OnOk result (AreSent (sink W.contents out.old out.new) (Told text.now ∷ [])) }
    ensures err { IfErr result (AreCut (sink W.contents out.old out.new) (Told text.now ∷ [])) }
{
    out.send(&ErrorMessage { text })
}

// Sends the user the fault of settings or configurations, with its position if it has one.
fn tell_one<W: Write>(fault: SettingFault, out: &mut Output<W>) -> Result<(), SendFault>
    requires { failures_of (watched_of out.old) < 2 ^ 64 - 1 }
    ensures ok { OnOk result (AreSent (sink W.contents out.old out.new) (Told (setting_words fault) ∷ [])) }
    ensures err { IfErr result (AreCut (sink W.contents out.old out.new) (Told (setting_words fault) ∷ [])) }
{
    let text = fault.words();
    match fault.place() {
        Some(place) => out.send(&PlacedError {
            text,
            line: place.line,
            column: place.column,
        }),
        None => tell(text, out),
    }
}

// Sends the user the fault, if there is one.
fn tell_fault<W: Write>(fault: Option<SettingFault>, out: &mut Output<W>) -> Result<(), SendFault>
    requires { failures_of (watched_of out.old) < 2 ^ 64 - 1 }
    ensures ok { OnOk result (AreSent (sink W.contents out.old out.new) (told_fault fault)) }
    ensures err { IfErr result (AreCut (sink W.contents out.old out.new) (told_fault fault)) }
{
    match fault {
        Some(fault) => tell_one(fault, out),
        None => Ok(()),
    }
}

// Sends the request that the editor report changes of files.
fn watch<W: Write>(out: &mut Output<W>) -> Result<(), SendFault>
    requires { failures_of (watched_of out.old) < 2 ^ 64 - 1 }
    ensures ok { OnOk result (AreSent (sink W.contents out.old out.new) (Watches ∷ [])) }
    ensures err { IfErr result (AreCut (sink W.contents out.old out.new) (Watches ∷ [])) }
{
    out.send(&WatchRequest)
}

// Sends the response to `initialize`.
fn welcome<W: Write>(id: Id<'_>, encoding: Encoding, out: &mut Output<W>) -> Result<(), SendFault>
    requires { failures_of (watched_of out.old) < 2 ^ 64 - 1 }
    ensures ok { OnOk result (AreSent (sink W.contents out.old out.new) (Initialized (id_view id.entry) encoding ∷ [])) }
    ensures err { IfErr result (AreCut (sink W.contents out.old out.new) (Initialized (id_view id.entry) encoding ∷ [])) }
{
    let outcome = InitializeResult {
        encoding,
        version: VERSION,
    };
    out.send(&Answer::new(id, outcome))
}

// Sends the response to `shutdown`.
fn finish<W: Write>(id: Id<'_>, out: &mut Output<W>) -> Result<(), SendFault>
    requires { failures_of (watched_of out.old) < 2 ^ 64 - 1 }
    ensures ok { OnOk result (AreSent (sink W.contents out.old out.new) (Done (id_view id.entry) ∷ [])) }
    ensures err { IfErr result (AreCut (sink W.contents out.old out.new) (Done (id_view id.entry) ∷ [])) }
{
    out.send(&Answer::new(id, Plain("null")))
}

/// Returns the message for users why a text is not followed.
fn lost_words(cause: Cause) -> &'static str
    ensures { result.now ≡ lost_words cause }
{
    match cause {
        Cause::OutOfMemory => "out of memory: the text is not followed until it is opened again",
        Cause::TooLarge => "too large: the text is not followed until it is opened again",
        Cause::BadChange => {
            "a change that cannot be made: the text is not followed until it is opened again"
        }
        Cause::Missed => {
            "a message was not read: the text is not followed until it is opened again"
        }
    }
}

impl<S: LineStore> Server<S> {
    /// Sends a reply. After an error a prefix of it is sent.
    pub(crate) fn send<W: Write>(
        &self,
        reply: Reply<'_>,
        out: &mut Output<W>,
    ) -> Result<(), SendFault>
        requires { failures_of (watched_of out.old) < 2 ^ 64 - 1 }
        ensures ok { OnOk result (AreSent (sink W.contents out.old out.new) (messages_of self.now reply.entry)) }
        ensures err { IfErr result (AreCut (sink W.contents out.old out.new) (messages_of self.now reply.entry)) }
    {
        match reply {
            Reply::Nothing => Ok(()),
            Reply::Welcome(id, fault) => {
                welcome(id, self.encoding(), out)?;
                tell_fault(fault, out)
            }
            Reply::Done(id) => finish(id, out),
            Reply::Refused(id, code, words) => refuse(id, code, words, out),
            Reply::Document(uri, fault) => {
                self.tell_of(uri, out)?;
                tell_fault(fault, out)
            }
            Reply::All(fault) => {
                self.tell_of_all(out)?;
                tell_fault(fault, out)
            }
            Reply::Missed(code, words) => {
                refuse(Id::Null, code, words, out)?;
                self.tell_of_all(out)
            }
            Reply::Fault(fault) => tell_fault(fault, out),
            Reply::Watch => watch(out),
        }
    }

    // Publishes the problems of a document if it is open, else that it has none.
    fn tell_of<W: Write>(&self, uri: &str, out: &mut Output<W>) -> Result<(), SendFault>
        requires { failures_of (watched_of out.old) < 2 ^ 64 - 1 }
        ensures ok { OnOk result (AreSent (sink W.contents out.old out.new) (told_of uri.now self.now ∷ [])) }
        ensures err { IfErr result (AreCut (sink W.contents out.old out.new) (told_of uri.now self.now ∷ [])) }
    {
        match self.document(uri) {
            Some(document) => self.show(uri, document, out),
            None => {
                let cleared: Publication<'_, S> = Publication {
                    uri,
                    version: None,
                    content: Content::Nothing,
                };
                out.send(&cleared)
            }
        }
    }

    // Publishes the problems of all documents.
    fn tell_of_all<W: Write>(&self, out: &mut Output<W>) -> Result<(), SendFault>
        requires { failures_of (watched_of out.old) < 2 ^ 64 - 1 }
        ensures ok { OnOk result (AreSent (sink W.contents out.old out.new) (told_of_all self.now)) }
        ensures err { IfErr result (AreCut (sink W.contents out.old out.new) (told_of_all self.now)) }
    {
        for document in self.documents() {
            self.show(document.uri(), document, out)?;
        }
        Ok(())
    }

    // Publishes the problems of a document.
    fn show<W: Write>(
        &self,
        uri: &str,
        document: &Document<S>,
        out: &mut Output<W>,
    ) -> Result<(), SendFault>
        requires { failures_of (watched_of out.old) < 2 ^ 64 - 1 }
        ensures ok { OnOk result (AreSent (sink W.contents out.old out.new) (Published uri.now (Shown self.now.how document.now) ∷ [])) }
        ensures err { IfErr result (AreCut (sink W.contents out.old out.new) (Published uri.now (Shown self.now.how document.now) ∷ [])) }
    {
        out.send(&Publication {
            uri,
            version: Some(document.version()),
            content: self.content(document),
        })
    }

    // Returns the content of the publication for a document.
    fn content<'d>(&self, document: &'d Document<S>) -> Content<'d, S>
        ensures { content_diagnostics result ≡ document_diagnostics report self.now.how document.now }
    {
        one_report();
        if document.is_ignored() {
            return Content::Nothing;
        }
        match document.session() {
            Ok(session) => {
                let report = Report::new(self.how(), session.lines(), session.problems());
                Content::Problems(report)
            }
            Err(cause) => Content::Lost(lost_words(cause)),
        }
    }
}
