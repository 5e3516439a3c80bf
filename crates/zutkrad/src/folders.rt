//! The configurations of the folders of documents, for `zutkrad server`.
use percent_encoding::{DecodeError, percent_decode_str};
use std::alloc::{AllocError, Global};
use std::collections::BTreeMap;
use yl_config::{Config, ConfigFault};
use yl_devices::RunFault;
use yl_project::Project;
use yl_search::{LoadCause, Loader, Opened, Origin, project_file, user_file};
use yl_server::Governed;

// A configuration that was loaded, the files from which it was loaded, and the number of the load.
#[derive(Drop)]
struct Loaded {
    project: Result<Project<Global>, LoadCause>,
    opened: Vec<Opened>,
    loading: u64,
    // The number of documents that are judged by it.
    documents: u64,
}

impl Loaded {
    fn is_current(&self, rt: &HostRuntime) -> Result<bool, AllocError> {
        for opened in &self.opened {
            if !opened.is_unchanged(rt)? {
                return Ok(false);
            }
        }
        Ok(true)
    }

    // Returns the configuration of a document. `path` is its path from the folder of the
    // configuration.
    fn found_for(&self, path: &str) -> Result<Governed, AllocError> {
        match &self.project {
            Ok(project) => Ok(match project.config_for(path)? {
                Some(config) => Governed::By(config),
                None => Governed::Ignored,
            }),
            Err(cause) => Ok(fault_of(*cause)),
        }
    }
}

fn fault_of(cause: LoadCause) -> Governed {
    match cause {
        LoadCause::Config(fault) => Governed::Faulty(fault),
        LoadCause::Run(RunFault::Memory) => Governed::NoMemory,
        LoadCause::Run(_) => Governed::Unreadable,
        LoadCause::TooLong => Governed::Faulty(ConfigFault::TooLarge),
    }
}

// Returns the folder of a file, with `/` at its end, or an empty path if `path` is only a name.
fn folder_of(path: &str) -> &str {
    match path.rsplit_once('/') {
        Some((_, name)) => path.strip_suffix(name).unwrap_or(path),
        None => "",
    }
}

// Returns a path relative to a folder, if it is below the folder, else `path`.
fn path_from<'a>(folder: &str, path: &'a str) -> &'a str {
    path.strip_prefix(folder).unwrap_or(path)
}

// Returns the path of the file that a URI names, if it names a file of this machine.
fn path_of(rt: &HostRuntime, uri: &str) -> Result<Option<String>, AllocError> {
    let Some(rest) = uri.strip_prefix("file://") else {
        return Ok(None);
    };
    let path = rest.strip_prefix("localhost").unwrap_or(rest);
    if !path.starts_with('/') {
        return Ok(None);
    }
    match percent_decode_str(path).decode_utf8(rt.alloc()) {
        Ok(path) => Ok(Some(String::from_str(rt.alloc(), path.as_str())?)),
        Err(DecodeError::OutOfMemory) => Err(AllocError),
        Err(_) => Ok(None),
    }
}

// The configuration by which a document was judged when it was last asked for: its file and the
// number of its load. Without a file it is the standard configuration.
#[derive(Drop)]
struct Judged {
    file: Option<String>,
    loading: u64,
}

/// A cache of the configurations of folders, and the one by which each open document is judged.
#[derive(Drop)]
pub struct Folders<'a> {
    rt: &'a HostRuntime,
    // The configurations, by the path of their file.
    loaded: BTreeMap<String, Loaded>,
    // The configuration of each document, by the URI of the document.
    judged: BTreeMap<String, Judged>,
    loadings: u64,
}

impl<'a> Folders<'a> {
    /// Creates an empty cache.
    pub fn new(rt: &'a HostRuntime) -> Folders<'a> {
        Folders {
            rt,
            loaded: BTreeMap::new(rt.alloc()),
            judged: BTreeMap::new(rt.alloc()),
            loadings: 0,
        }
    }

    /// Returns the configuration by which a document is judged. `is_known` means that the document
    /// was asked for since it was opened. Only then may the result be `Same`.
    pub fn of_document(&mut self, uri: &str, is_known: bool) -> Governed {
        match self.found(uri, is_known) {
            Ok(found) => found,
            Err(AllocError) => Governed::NoMemory,
        }
    }

    /// Drops what is cached for a document that was closed.
    pub fn closed(&mut self, uri: &str) {
        if let Some(judged) = self.judged.remove(uri) {
            self.release(judged);
        }
    }

    fn found(&mut self, uri: &str, is_known: bool) -> Result<Governed, AllocError> {
        let Some(path) = path_of(self.rt, uri)? else {
            return self.found_none(uri, is_known);
        };
        let Some(file) = self.file_for(path.as_str())? else {
            return self.found_none(uri, is_known);
        };
        let loading = self.loading_of(file.as_str())?;
        if is_known && self.is_judged_by(uri, Some(file.as_str()), loading) {
            return Ok(Governed::Same);
        }
        let found = match self.loaded.get(file.as_str()) {
            Some(loaded) => loaded.found_for(path_from(folder_of(file.as_str()), path.as_str()))?,
            None => Governed::Unreadable,
        };
        self.note(uri, Some(file), loading)?;
        Ok(found)
    }

    // Returns the standard configuration for a document for which no file is found, or `Same` if
    // the document is judged by it already.
    fn found_none(&mut self, uri: &str, is_known: bool) -> Result<Governed, AllocError> {
        if is_known && self.is_judged_by(uri, None, 0) {
            return Ok(Governed::Same);
        }
        self.note(uri, None, 0)?;
        Ok(Governed::By(Config::standard()))
    }

    // Returns the file of the configuration for a path, if there is one.
    fn file_for(&self, path: &str) -> Result<Option<String>, AllocError> {
        let folder = match folder_of(path).strip_suffix('/') {
            Some("") | None => "/",
            Some(folder) => folder,
        };
        match project_file(self.rt, folder, false)? {
            Some(file) => Ok(Some(file)),
            None => user_file(self.rt),
        }
    }

    // Returns the number of the load of a configuration. Loads it if it is not cached or its files
    // have changed.
    fn loading_of(&mut self, file: &str) -> Result<u64, AllocError> {
        let documents = match self.loaded.get(file) {
            Some(loaded) => {
                if loaded.is_current(self.rt)? {
                    return Ok(loaded.loading);
                }
                loaded.documents
            }
            None => 0,
        };
        let mut loader = Loader::new(self.rt, folder_of(file));
        let project = match loader.load(Origin::File(file)) {
            Ok(project) => Ok(project),
            Err(fault) if fault.cause == LoadCause::Run(RunFault::Memory) => return Err(AllocError),
            Err(fault) => Err(fault.cause),
        };
        self.loadings = self.loadings.saturating_add(1);
        let loading = self.loadings;
        let loaded = Loaded {
            project,
            opened: loader.into_opened(),
            loading,
            documents,
        };
        self.loaded
            .insert(String::from_str(self.rt.alloc(), file)?, loaded)?;
        Ok(loading)
    }

    fn is_judged_by(&self, uri: &str, file: Option<&str>, loading: u64) -> bool {
        match self.judged.get(uri) {
            Some(judged) => judged.loading == loading && judged.file.as_deref() == file,
            None => false,
        }
    }

    // Records the configuration by which a document is judged from now on.
    fn note(&mut self, uri: &str, file: Option<String>, loading: u64) -> Result<(), AllocError> {
        let key = String::from_str(self.rt.alloc(), uri)?;
        let held = match &file {
            Some(file) => Some(String::from_str(self.rt.alloc(), file.as_str())?),
            None => None,
        };
        let before = self.judged.insert(key, Judged { file, loading })?;
        if let Some(file) = held
            && let Some(loaded) = self.loaded.get_mut(file.as_str())
        {
            loaded.documents = loaded.documents.saturating_add(1);
        }
        if let Some(before) = before {
            self.release(before);
        }
        Ok(())
    }

    // Counts one document less for its configuration, and drops the configuration if no document is
    // judged by it any more.
    fn release(&mut self, judged: Judged) {
        let Some(file) = &judged.file else {
            return;
        };
        let is_held = match self.loaded.get_mut(file.as_str()) {
            Some(loaded) => {
                loaded.documents = loaded.documents.saturating_sub(1);
                loaded.documents > 0
            }
            None => true,
        };
        if !is_held {
            let _ = self.loaded.remove(file.as_str());
        }
    }
}
