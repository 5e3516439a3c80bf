//! A server, and how each message changes it.
ghost use Rattle.std.specs.Prelude.{◌≡◌, ℕ, ◌-◌, ◌^◌, ◌<◌, ◌∷◌, [], Bool, List, map, Option, IfErr, IfOk, Some, option_and_then, option_copied, string_bytes};
ghost use Rattle.std.specs.Option.{option_map, option_map_or};
ghost use Rattle.json.specs.Json.{Json};
ghost use Rattle.json.specs.Value.{value_view};
ghost use Rattle.yl_text.specs.Watched.{failures_of};
ghost use Rattle.yl_frames.specs.Sending.{watched_of};
ghost use Rattle.yl_rpc.specs.Views.{call_view, id_view};
ghost use Rattle.yl_lsp.specs.Params.{change_in, Unread};
ghost use Rattle.yl_lsp.specs.Params as params_spec;
ghost use Rattle.yl_lsp.specs.Read.{change_value};
ghost use Rattle.yl_workspace.specs.Documents as docs;
ghost use Rattle.yl_server.specs.Bodies.{IsFound, noticed_settings, requested_settings, settings_of_notice, text_set};
ghost use Rattle.yl_server.specs.Events.{Event, Read as Came};
ghost use Rattle.yl_server.specs.Folders.{config_at_first, fault_anew, fault_at_first};
ghost use Rattle.yl_server.specs.declared.governed.Governed.{Governed};
ghost use Rattle.yl_server.specs.Requests as spec;
ghost use Rattle.yl_server.specs.Machine as machine;
ghost use Rattle.yl_server.specs.declared.settings.Setting.TheVariants.{Faulty};
ghost use Rattle.yl_server.specs.Replies.{IsReplied};
ghost use Rattle.yl_server.specs.Steps.{AreCut, IsBodyMet, IsDone, IsHandled, IsHandlingCut, IsMet, sink, unread_answer};

use crate::governed::{fault_in, judged_at_first, refresh};
use crate::phase::Phase;
use crate::reply::Reply;
use crate::settings::{ConfigFiles, Setting, SettingFault, file_named, setting_found, setting_of};
use crate::words::{INITIALIZED, MEMORY, NO_JSON, NO_REQUEST, PARAMS, STOPPED, UNKNOWN, WAITING};
use json::{Scratch, Value};
use std::alloc::{AllocError, Allocator};
use std::io::Write;
use std::marker::Model;
use yl_config::Config;
use yl_frames::{Output, SendFault};
use yl_lsp::{
    Change, MOST_PROBLEMS, Presentation, change_of, changed_settings, changes_in, document_in,
    encoding_in, first_settings, opened_in, takes_links, takes_watchers, version_in,
};
use yl_rpc::{BodyFault, Call, Code, Id, call_of, read_body};
use yl_text::LineStore;
use yl_units::Encoding;
use yl_workspace::{Cause, Document, Workspace};

/// A server.
///
/// A server has a phase, and knows how problems are shown and whether its editor reports changes of
/// files. It has the standard configuration, the configuration that the settings name and its file,
/// and the documents that are open.
#[derive(Drop)]
pub struct Server<S: LineStore> {
    alloc: S::Alloc,
    phase: Phase,
    how: Presentation,
    watches: bool,
    standard: Config,
    config: Option<Config>,
    file: Option<String<S::Alloc>>,
    workspace: Workspace<S>,
}

/// Returns `true` if a notification with this method reports that files may have changed.
fn tells_of_files(method: &str) -> bool
    ensures { result ≡ spec.tells_of_files method.now }
{
    method == "textDocument/didSave"
        || method == "workspace/didChangeWatchedFiles"
        || method == "workspace/didChangeWorkspaceFolders"
}

/// Returns the params if they are an object.
fn object_of<'v, 'a, A: Allocator>(params: Option<&'v Value<'a, A>>) -> Option<&'v Value<'a, A>>
    ensures { option_map (λ v. value_view v.now) result ≡ spec.object_of (option_map (λ v. value_view v.now) params.entry) }
{
    match params {
        Some(value) if matches!(value, Value::Object(_)) => Some(value),
        _ => None,
    }
}

/// Reads the values as changes. The only error is out of memory.
fn changes_of<'a, A: Allocator + Copy>(
    alloc: A,
    values: &[Value<'a, A>],
) -> Result<Vec<Change<'a>, A>, AllocError>
    ensures { IfOk result (λ changes. map change_value changes.items ≡ map (λ v. change_in (value_view v)) values.now) }
{
    let mut changes = Vec::with_capacity(alloc, values.len())?;
    for value in values {
        changes.push(change_of(value))?;
    }
    Ok(changes)
}

impl<S: LineStore> Model for Server<S> {
    ghost use Rattle.std.specs.Prelude.{string_bytes};
    ghost use Rattle.std.specs.Option.{option_map};
    ghost use Rattle.yl_server.specs.Machine.{ServerValue};

    ghost Value = { ServerValue };

    ghost view = { λ s. record { phase = s.phase; how = s.how; watches = s.watches; standard = s.standard; config = s.config; file = option_map string_bytes s.file; documents = s.workspace } };
}

impl<S: LineStore> Server<S> {
    /// Creates a server that waits for `initialize`. A document is judged by `standard` if no other
    /// configuration is found for it. Does not allocate.
    pub fn new(alloc: S::Alloc, standard: Config) -> Server<S>
        ensures { result ≡ machine.started standard }
    {
        Server {
            alloc,
            phase: Phase::Waiting,
            how: Presentation {
                encoding: Encoding::Utf16,
                links: false,
                most: MOST_PROBLEMS,
            },
            watches: false,
            standard,
            config: None,
            file: None,
            workspace: Workspace::new(alloc),
        }
    }

    /// Returns how problems are shown.
    pub(crate) fn how(&self) -> Presentation
        ensures { result ≡ self.now.how }
    {
        self.how
    }

    /// Returns the unit in which columns are counted.
    pub(crate) fn encoding(&self) -> Encoding
        ensures { result ≡ self.now.how.encoding }
    {
        self.how.encoding
    }

    /// Returns the documents that are open.
    pub(crate) fn documents(&self) -> &[Document<S>]
        ensures { result.now ≡ self.now.documents }
    {
        self.workspace.documents()
    }

    /// Returns the document with this URI, if it is open.
    pub(crate) fn document(&self, uri: &str) -> Option<&Document<S>>
        ensures { option_copied result ≡ docs.document_at uri.now self.now.documents }
    {
        self.workspace.document(uri)
    }

    /// Handles a body, and sends the response and the publications. Returns the exit status if the
    /// body asks for the end. After an error a prefix of the messages is sent.
    pub fn handle<F: ConfigFiles, W: Write>(
        &mut self,
        body: &mut [u8],
        files: &mut F,
        out: &mut Output<W>,
    ) -> Result<Option<u8>, SendFault>
        requires { failures_of (watched_of out.old) < 2 ^ 64 - 1 }
        ensures ok { IfOk result (IsHandled body.old self.old self.new (sink W.contents out.old out.new)) }
        ensures err { IfErr result (IsHandlingCut body.old self.old (sink W.contents out.old out.new)) }
    {
        let mut scratch = Scratch::new(self.alloc);
        let (reply, ended) = self.meet_body(body, &mut scratch, files);
        self.send(reply, out)?;
        Ok(ended)
    }

    // Handles a body. Returns the reply, and the exit status if the body asks for the end.
    fn meet_body<'a, F: ConfigFiles>(
        &mut self,
        body: &'a mut [u8],
        scratch: &'a mut Scratch<S::Alloc>,
        files: &mut F,
    ) -> (Reply<'a>, Option<u8>)
        ensures { IsBodyMet body.old self.old self.new result.0 result.1 }
    {
        match read_body(self.alloc, body, scratch) {
            Ok(message) => self.meet(call_of(&message), files),
            Err(fault) => (self.miss_body(fault), None),
        }
    }

    // Handles a body that could not be read.
    fn miss_body<'a>(&mut self, fault: BodyFault) -> Reply<'a>
        ensures { IsReplied self.new result (machine.missed (unread_answer fault) self.old) }
    {
        match fault {
            BodyFault::NoJson | BodyFault::TooDeep => self.miss(Code::ParseError, NO_JSON),
            BodyFault::Memory => self.miss(Code::InternalError, MEMORY),
        }
    }

    /// Handles a body for which there was no memory, and sends the response and the publications.
    /// After an error a prefix of the messages is sent.
    pub fn drop_body<W: Write>(&mut self, out: &mut Output<W>) -> Result<(), SendFault>
        requires { failures_of (watched_of out.old) < 2 ^ 64 - 1 }
        ensures ok { IfOk result (λ _. IsDone self.new (sink W.contents out.old out.new) (machine.missed_for_memory self.old)) }
        ensures err { IfErr result (AreCut (sink W.contents out.old out.new) ((machine.missed_for_memory self.old).1)) }
    {
        let reply = self.miss(Code::InternalError, MEMORY);
        self.send(reply, out)
    }

    // Drops the texts of all documents, since a body was not read and may have been a change.
    fn miss<'a>(&mut self, code: Code, words: &'a str) -> Reply<'a>
        ensures { IsReplied self.new result (machine.missed (machine.not_read code words.entry.now) self.old) }
    {
        self.workspace.lose_all(Cause::Missed);
        Reply::Missed(code, words)
    }

    // Handles a call. Returns the reply, and the exit status if the call asks for the end.
    fn meet<'a, F: ConfigFiles>(
        &mut self,
        call: Call<'_, 'a, S::Alloc>,
        files: &mut F,
    ) -> (Reply<'a>, Option<u8>)
        ensures { IsMet (Came (call_view call.entry)) self.old self.new result.0 result.1 }
    {
        match call {
            Call::Request { id, method, params } => (self.answer(id, method, params, files), None),
            Call::Notification { method, params } => {
                if method == "exit" {
                    return (Reply::Nothing, Some(self.status()));
                }
                (self.notice(method, params, files), None)
            }
            Call::Response => (Reply::Nothing, None),
            Call::Invalid { id } => (Reply::Refused(id, Code::InvalidRequest, NO_REQUEST), None),
        }
    }

    // Returns the exit status.
    fn status(&self) -> u8
        ensures { result ≡ machine.status_in self.now.phase }
    {
        match self.phase {
            Phase::Stopped => 0,
            Phase::Waiting | Phase::Running => 1,
        }
    }

    // ---- requests

    fn answer<'a, F: ConfigFiles>(
        &mut self,
        id: Id<'a>,
        method: &str,
        params: Option<&Value<'a, S::Alloc>>,
        files: &mut F,
    ) -> Reply<'a>
        ensures { (e : Event) × IsFound (text_set (requested_settings (spec.request_of method.now (option_map (λ v. value_view v.now) params.entry)) self.old.phase)) e.found
            × IsReplied self.new result (machine.answered e (id_view id.entry) (spec.request_of method.now (option_map (λ v. value_view v.now) params.entry)) self.old.phase self.old) }
    {
        match self.phase {
            Phase::Waiting => {
                if method == "initialize" {
                    self.initialize(id, params, files)
                } else {
                    Reply::Refused(id, Code::ServerNotInitialized, WAITING)
                }
            }
            Phase::Running => self.answer_running(id, method),
            Phase::Stopped => Reply::Refused(id, Code::InvalidRequest, STOPPED),
        }
    }

    fn answer_running<'a>(&mut self, id: Id<'a>, method: &str) -> Reply<'a>
        ensures { (params : Option Json) → IsReplied self.new result (machine.answered_running (id_view id.entry) (spec.request_of method.now params) self.old) }
    {
        if method == "initialize" {
            return Reply::Refused(id, Code::InvalidRequest, INITIALIZED);
        }
        if method == "shutdown" {
            self.phase = Phase::Stopped;
            return Reply::Done(id);
        }
        Reply::Refused(id, Code::MethodNotFound, UNKNOWN)
    }

    fn initialize<'a, F: ConfigFiles>(
        &mut self,
        id: Id<'a>,
        params: Option<&Value<'a, S::Alloc>>,
        files: &mut F,
    ) -> Reply<'a>
        ensures { (e : Event) × IsFound (text_set (option_and_then params_spec.first_settings (spec.object_of (option_map (λ v. value_view v.now) params.entry)))) e.found
            × IsReplied self.new result (machine.initialized_with e (id_view id.entry) (spec.object_of (option_map (λ v. value_view v.now) params.entry)) self.old) }
    {
        match object_of(params) {
            Some(params) => self.initialize_with(id, params, files),
            None => Reply::Refused(id, Code::InvalidParams, PARAMS),
        }
    }

    fn initialize_with<'a, F: ConfigFiles>(
        &mut self,
        id: Id<'a>,
        params: &Value<'a, S::Alloc>,
        files: &mut F,
    ) -> Reply<'a>
        ensures { (e : Event) × IsFound (text_set (params_spec.first_settings (value_view params.now))) e.found
            × IsReplied self.new result (machine.initialized_with e (id_view id.entry) (Some (value_view params.now)) self.old) }
    {
        let settings = first_settings(params);
        let Ok(file) = file_named(self.alloc, settings) else {
            return Reply::Refused(id, Code::InternalError, MEMORY);
        };
        match setting_of(self.alloc, settings, files) {
            Setting::Set(config, most) => {
                self.begin(params);
                self.set(config, file, most, files);
                Reply::Welcome(id, None)
            }
            Setting::Faulty(fault) => self.begin_faulty(id, params, fault),
        }
    }

    // Starts to run although the settings are faulty, unless the fault is a lack of memory.
    fn begin_faulty<'a>(
        &mut self,
        id: Id<'a>,
        params: &Value<'_, S::Alloc>,
        fault: SettingFault,
    ) -> Reply<'a>
        ensures { (e : Event) (file : Option (List ℕ)) → IsReplied self.new result (machine.initialized_by e (id_view id.entry) (value_view params.now) file (Faulty fault) self.old) }
    {
        match fault {
            SettingFault::Memory => Reply::Refused(id, Code::InternalError, MEMORY),
            SettingFault::Shape | SettingFault::Unreadable | SettingFault::Refused(_) => {
                self.begin(params);
                Reply::Welcome(id, Some(fault))
            }
        }
    }

    // Starts to run as the params of `initialize` ask for.
    fn begin(&mut self, params: &Value<'_, S::Alloc>)
        ensures { self.new ≡ machine.initialized (value_view params.now) self.old }
    {
        self.phase = Phase::Running;
        self.how.encoding = encoding_in(params);
        self.how.links = takes_links(params);
        self.watches = takes_watchers(params);
    }

    // Applies the values that settings set, with the file of the configuration. Returns the first
    // fault of what is found for documents.
    fn set<F: ConfigFiles>(
        &mut self,
        config: Option<Config>,
        file: Option<String<S::Alloc>>,
        most: Option<u64>,
        files: &mut F,
    ) -> Option<SettingFault>
        ensures { (granted : List Bool) × (found : List Governed) × (self.new ≡ machine.with_setting granted found config (option_map string_bytes file) most self.old)
            × (result ≡ fault_anew config found) }
    {
        self.file = file;
        self.judge_by(config, most, files)
    }

    // Applies a configuration, or none, and a maximum number of problems. The file stays. Returns
    // the first fault of what is found for documents.
    fn judge_by<F: ConfigFiles>(
        &mut self,
        config: Option<Config>,
        most: Option<u64>,
        files: &mut F,
    ) -> Option<SettingFault>
        ensures { (granted : List Bool) × (found : List Governed) × (self.new ≡ machine.with_setting granted found config self.old.file most self.old)
            × (result ≡ fault_anew config found) }
    {
        let is_known = self.config.is_none();
        let most = most.unwrap_or(self.how.most);
        self.how.most = most;
        self.config = config;
        if config.is_some() {
            self.workspace.configure(config);
            return None;
        }
        refresh(&mut self.workspace, is_known, files).fault
    }

    // ---- notifications

    fn notice<'a, F: ConfigFiles>(
        &mut self,
        method: &str,
        params: Option<&Value<'a, S::Alloc>>,
        files: &mut F,
    ) -> Reply<'a>
        ensures { (e : Event) × IsFound (text_set (noticed_settings (option_map_or (spec.notice_with method.now) (option_map (λ v. value_view v.now) params.entry) spec.Passed) self.old.phase)) e.found
            × IsReplied self.new result (machine.noticed e (option_map_or (spec.notice_with method.now) (option_map (λ v. value_view v.now) params.entry) spec.Passed) self.old.phase self.old) }
    {
        let Some(params) = params else {
            return Reply::Nothing;
        };
        match self.phase {
            Phase::Running => self.notice_running(method, params, files),
            Phase::Waiting | Phase::Stopped => Reply::Nothing,
        }
    }

    fn notice_running<'a, F: ConfigFiles>(
        &mut self,
        method: &str,
        params: &Value<'a, S::Alloc>,
        files: &mut F,
    ) -> Reply<'a>
        ensures { (e : Event) × IsFound (text_set (settings_of_notice (spec.notice_with method.now (value_view params.now)))) e.found
            × IsReplied self.new result (machine.noticed_running e (spec.notice_with method.now (value_view params.now)) self.old) }
    {
        if method == "textDocument/didOpen" {
            return self.open(params, files);
        }
        if method == "textDocument/didChange" {
            return self.change(params);
        }
        if method == "textDocument/didClose" {
            return self.close(params, files);
        }
        if method == "workspace/didChangeConfiguration" {
            return self.configure(params, files);
        }
        if method == "initialized" {
            return self.start();
        }
        if tells_of_files(method) {
            return self.refresh_by(files);
        }
        Reply::Nothing
    }

    // Handles `initialized`: asks the editor to report changes of files, if it can.
    fn start<'a>(&self) -> Reply<'a>
        ensures { (e : Event) → IsReplied self.now result (machine.noticed_running e spec.Starts self.now) }
    {
        if self.watches {
            Reply::Watch
        } else {
            Reply::Nothing
        }
    }

    fn open<'a, F: ConfigFiles>(&mut self, params: &Value<'a, S::Alloc>, files: &mut F) -> Reply<'a>
        ensures { (e : Event) × IsReplied self.new result (machine.noticed_running e (spec.opens (value_view params.now)) self.old) }
    {
        let Some(opened) = opened_in(params) else {
            return self.spoil(params);
        };
        let (config, fault) = self.found_at_first(opened.uri, files);
        // A document that could not be opened is not open after this, and the user gets a message.
        drop(self.workspace.open(config, opened));
        if self.workspace.document(opened.uri).is_none() {
            return Reply::Document(opened.uri, Some(SettingFault::Memory));
        }
        Reply::Document(opened.uri, fault)
    }

    // Returns the configuration by which a document is judged that is opened, and the fault of what
    // is found for it.
    fn found_at_first<F: ConfigFiles>(
        &self,
        uri: &str,
        files: &mut F,
    ) -> (Option<Config>, Option<SettingFault>)
        ensures { (found : List Governed) × (result.0 ≡ config_at_first self.now.standard self.now.config found) × (result.1 ≡ fault_at_first self.now.config found) }
    {
        if self.config.is_some() {
            return (self.config, None);
        }
        let found = files.of_document(uri, false);
        (judged_at_first(self.standard, found), fault_in(found))
    }

    fn change<'a>(&mut self, params: &Value<'a, S::Alloc>) -> Reply<'a>
        ensures { (granted : List Bool) × ((e : Event) → e.granted ≡ granted → IsReplied self.new result (machine.noticed_running e (spec.changes (value_view params.now)) self.old)) }
    {
        let Some(uri) = document_in(params) else {
            return self.spoil(params);
        };
        let Some(version) = version_in(params) else {
            return self.spoil(params);
        };
        if self.workspace.document(uri).is_none() {
            return Reply::Nothing;
        }
        self.change_text(uri, version, changes_in(params));
        Reply::Document(uri, None)
    }

    // Applies the changes that the values are. Without values, applies a change of the wrong shape.
    fn change_text(&mut self, uri: &str, version: &str, values: Option<&[Value<'_, S::Alloc>]>)
        ensures { (granted : List Bool) × (self.new ≡ machine.with_documents (docs.changed self.old.how.encoding granted uri.now version.now
            (option_map_or (λ vs. map (λ v. change_in (value_view v)) vs.now) values.entry (Unread ∷ [])) self.old.documents) self.old) }
    {
        let encoding = self.how.encoding;
        let Some(values) = values else {
            self.workspace
                .change(encoding, uri, version, &[Change::Unread]);
            return;
        };
        match changes_of(self.alloc, values) {
            Ok(changes) => self
                .workspace
                .change(encoding, uri, version, changes.as_slice()),
            Err(AllocError) => self.workspace.lose(uri, Cause::OutOfMemory),
        }
    }

    // Drops the text of the document of a message that has the wrong shape.
    fn spoil<'a>(&mut self, params: &Value<'a, S::Alloc>) -> Reply<'a>
        ensures { (e : Event) → IsReplied self.new result (machine.noticed_running e (spec.spoils (value_view params.now)) self.old) }
    {
        let Some(uri) = document_in(params) else {
            return Reply::Nothing;
        };
        if self.workspace.document(uri).is_none() {
            return Reply::Nothing;
        }
        self.workspace.lose(uri, Cause::BadChange);
        Reply::Document(uri, None)
    }

    fn close<'a, F: ConfigFiles>(
        &mut self,
        params: &Value<'a, S::Alloc>,
        files: &mut F,
    ) -> Reply<'a>
        ensures { (e : Event) → IsReplied self.new result (machine.noticed_running e (spec.closes (value_view params.now)) self.old) }
    {
        let Some(uri) = document_in(params) else {
            return Reply::Nothing;
        };
        if self.workspace.document(uri).is_none() {
            return Reply::Nothing;
        }
        self.workspace.close(uri);
        files.closed(uri);
        Reply::Document(uri, None)
    }

    fn configure<'a, F: ConfigFiles>(
        &mut self,
        params: &Value<'a, S::Alloc>,
        files: &mut F,
    ) -> Reply<'a>
        ensures { (e : Event) × IsFound (text_set (params_spec.changed_settings (value_view params.now))) e.found
            × IsReplied self.new result (machine.set_with e (params_spec.changed_settings (value_view params.now)) self.old) }
    {
        let Some(settings) = changed_settings(params) else {
            return Reply::Nothing;
        };
        let Ok(file) = file_named(self.alloc, Some(settings)) else {
            return Reply::Fault(Some(SettingFault::Memory));
        };
        match setting_of(self.alloc, Some(settings), files) {
            Setting::Set(config, most) => Reply::All(self.set(config, file, most, files)),
            Setting::Faulty(fault) => Reply::Fault(Some(fault)),
        }
    }

    // Looks for the configurations again, since files may have changed.
    fn refresh_by<'a, F: ConfigFiles>(&mut self, files: &mut F) -> Reply<'a>
        ensures { (e : Event) × IsReplied self.new result (machine.refreshed_by e self.old.config self.old) }
    {
        if self.config.is_some() {
            return self.read_again(files);
        }
        let refreshed = refresh(&mut self.workspace, true, files);
        if refreshed.is_changed {
            return Reply::All(refreshed.fault);
        }
        Reply::Fault(refreshed.fault)
    }

    // Reads the file of the configuration again, if the settings name a file.
    fn read_again<'a, F: ConfigFiles>(&mut self, files: &mut F) -> Reply<'a>
        ensures { (e : Event) × IsReplied self.new result (machine.read_again e self.old.file self.old) }
    {
        let found = match &self.file {
            Some(path) => files.read(path.as_str()),
            None => return Reply::Nothing,
        };
        match setting_found(found, None) {
            Setting::Set(config, most) => Reply::All(self.judge_by(config, most, files)),
            Setting::Faulty(fault) => Reply::Fault(Some(fault)),
        }
    }
}
