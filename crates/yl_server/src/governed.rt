//! The configurations by which documents are judged, according to the files of their folders.
ghost use Rattle.std.specs.Prelude.{◌≡◌, ◌<◌, ◌||◌, Bool, List, [], ◌∷◌, None, length, is_some};
ghost use Rattle.std.specs.Option.{option_or};
ghost use Rattle.yl_workspace.specs.Documents.{with_document_at};
ghost use Rattle.yl_server.specs.Folders as spec;

use crate::settings::{ConfigFiles, SettingFault, refused_by};
use yl_config::{Config, ConfigFault};
use yl_text::LineStore;
use yl_workspace::Workspace;

/// The configuration by which a document is judged, according to files.
#[derive(Clone, Copy)]
pub enum Governed {
    /// The document is judged by this configuration.
    By(Config),
    /// The document is ignored: nothing is published about it.
    Ignored,
    /// The document is judged as it was when it was last asked for.
    Same,
    /// A file of the configuration has a fault.
    Faulty(ConfigFault),
    /// A file of the configuration could not be read.
    Unreadable,
    /// There was no memory to read a file of the configuration.
    NoMemory,
}

/// Returns the configuration by which a document is judged from now on, or `Some(None)` if it is
/// ignored, or `None` if nothing changes.
fn judged(found: Governed) -> Option<Option<Config>>
    ensures { result ≡ spec.judged found }
{
    match found {
        Governed::By(config) => Some(Some(config)),
        Governed::Ignored => Some(None),
        Governed::Same | Governed::Faulty(_) | Governed::Unreadable | Governed::NoMemory => None,
    }
}

/// Returns the fault of what was found, if it has one.
pub(crate) fn fault_in(found: Governed) -> Option<SettingFault>
    ensures { result ≡ spec.fault_in found }
{
    match found {
        Governed::By(_) | Governed::Ignored | Governed::Same => None,
        Governed::Faulty(fault) => Some(refused_by(fault)),
        Governed::Unreadable => Some(SettingFault::Unreadable),
        Governed::NoMemory => Some(SettingFault::Memory),
    }
}

/// Returns the configuration by which a document is judged that is opened, or `None` if it is
/// ignored. If `found` is neither a configuration nor `Ignored`, the configuration is `standard`.
pub(crate) fn judged_at_first(standard: Config, found: Governed) -> Option<Config>
    ensures { result ≡ spec.config_at_first standard None (found ∷ []) }
{
    judged(found).unwrap_or(Some(standard))
}

/// What was found for documents: whether one was judged again, and the first fault.
#[derive(Clone, Copy)]
pub(crate) struct Refreshed {
    /// Whether a document was judged again.
    pub is_changed: bool,
    /// The first fault that was found.
    pub fault: Option<SettingFault>,
}

impl Refreshed {
    /// Returns `self` with what was found for one more document.
    fn and(self, found: Governed) -> Refreshed
        ensures changed { result.is_changed ≡ self.is_changed || is_some (spec.judged found) }
        ensures fault { result.fault ≡ option_or self.fault (spec.fault_in found) }
    {
        Refreshed {
            is_changed: self.is_changed || judged(found).is_some(),
            fault: self.fault.or(fault_in(found)),
        }
    }
}

/// Judges the document at `index` by what was found for it.
fn govern<S: LineStore>(workspace: &mut Workspace<S>, index: usize, found: Governed)
    requires { index < length workspace.old }
    ensures { (granted : Bool) × (workspace.new ≡ with_document_at index (spec.governed_document found granted) workspace.old) }
{
    if let Some(config) = judged(found) {
        workspace.configure_at(index, config);
    }
}

/// Judges each document by what is found for it, and returns what was found. `is_known` means that
/// each document was asked for since it was opened.
pub(crate) fn refresh<S: LineStore, F: ConfigFiles>(
    workspace: &mut Workspace<S>,
    is_known: bool,
    files: &mut F,
) -> Refreshed
    ensures { (found : List Governed) × (grants : List Bool) × (workspace.new ≡ spec.governed_each found grants workspace.old)
        × (result.is_changed ≡ spec.is_changed found) × (result.fault ≡ spec.first_fault found) }
{
    let mut refreshed = Refreshed {
        is_changed: false,
        fault: None,
    };
    for i in 0..workspace.documents().len() {
        let found = files.of_document(workspace.documents()[i].uri(), is_known);
        govern(workspace, i, found);
        refreshed = refreshed.and(found);
    }
    refreshed
}
