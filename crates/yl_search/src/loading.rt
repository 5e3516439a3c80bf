//! Loads a configuration with all that it extends.
use crate::metadata::metadata_of;
use std::alloc::{AllocError, AllocFailed, Global};
use std::mem;
use std::time::SystemTime;
use yl_config::ConfigFault;
use yl_devices::{RunFault, without_mark};
use yl_programs::bytes_of;
use yl_project::{Named, Project};

/// The maximum number of texts in a chain of `extends`.
const MOST_EXTENDED: usize = 64;

/// The cause why a configuration could not be loaded.
#[derive(Clone, Copy, Debug, PartialEq, Eq)]
pub enum LoadCause {
    /// The text of the configuration has a fault.
    Config(ConfigFault),
    /// The file could not be read, or memory ran out.
    Run(RunFault),
    /// More than 64 texts extend each other.
    TooLong,
}

/// The error of loading a configuration.
#[derive(Drop)]
pub struct LoadFault {
    /// The path of the file that has the fault. It is `None` if the fault is in a text of the
    /// command line, and may be `None` if memory ran out.
    pub file: Option<String>,
    /// The cause.
    pub cause: LoadCause,
}

impl From<AllocError> for LoadFault {
    fn from(_error: AllocError) -> LoadFault {
        LoadFault {
            file: None,
            cause: LoadCause::Run(RunFault::Memory),
        }
    }
}

impl<T: Drop> From<AllocFailed<T>> for LoadFault {
    fn from(_error: AllocFailed<T>) -> LoadFault {
        LoadFault::from(AllocError)
    }
}

/// The source from which a configuration is read.
#[derive(Clone, Copy)]
pub enum Origin<'a> {
    /// A text.
    Text(&'a str),
    /// The file of this path.
    File(&'a str),
}

// The time of the last change of a file and its length in bytes, or `None` if they cannot be read.
type Stamp = Option<(SystemTime, u64)>;

fn stamp_of(rt: &HostRuntime, file: &str) -> Result<Stamp, AllocError> {
    let Some(metadata) = metadata_of(rt, file)? else {
        return Ok(None);
    };
    Ok(match metadata.modified() {
        Ok(time) => Some((time, metadata.len())),
        Err(_) => None,
    })
}

/// A file that was opened, or that could not be opened, with its state just before.
#[derive(Drop)]
pub struct Opened {
    file: String,
    stamp: Stamp,
}

impl Opened {
    fn new(rt: &HostRuntime, file: &str) -> Result<Opened, AllocError> {
        Ok(Opened {
            file: String::from_str(rt.alloc(), file)?,
            stamp: stamp_of(rt, file)?,
        })
    }

    /// Returns `true` if the time of the last change of the file and its length are as they were.
    /// The only error is out of memory.
    pub fn is_unchanged(&self, rt: &HostRuntime) -> Result<bool, AllocError> {
        Ok(stamp_of(rt, self.file.as_str())? == self.stamp)
    }
}

// A text of a configuration, the path of its file if it has one, and the lines of the files that
// its `ignore-from-file` names.
#[derive(Drop)]
struct Layer {
    file: Option<String>,
    bytes: Vec<u8>,
    ignore_lines: String,
}

impl Layer {
    fn new(rt: &HostRuntime, file: Option<String>, bytes: &[u8]) -> Result<Layer, AllocError> {
        Ok(Layer {
            file,
            bytes: Vec::from_slice(rt.alloc(), bytes)?,
            ignore_lines: String::new(rt.alloc()),
        })
    }

    fn fault(self, fault: ConfigFault) -> LoadFault {
        let Layer { file, .. } = self;
        LoadFault {
            file,
            cause: LoadCause::Config(fault),
        }
    }

    // Applies the text to the configuration that it extends.
    fn over(self, rt: &HostRuntime, base: Project<Global>) -> Result<Project<Global>, LoadFault> {
        let bytes = self.bytes.as_slice();
        match Project::read(rt.alloc(), bytes, base, self.ignore_lines.as_str()) {
            Ok(project) => Ok(project),
            Err(fault) => Err(self.fault(fault)),
        }
    }
}

// Returns the built-in configuration with this name, if there is one.
fn built_in(rt: &HostRuntime, name: &str) -> Result<Option<Project<Global>>, AllocError> {
    Ok(match name {
        "default" => Some(Project::standard(rt.alloc())?),
        "relaxed" => Some(Project::relaxed(rt.alloc())?),
        _ => None,
    })
}

// The texts of a configuration, each before the one that it extends, and the configuration that the
// last one extends.
#[derive(Drop)]
struct Chain {
    layers: Vec<Layer>,
    base: Project<Global>,
}

/// A loader of configurations with all that they extend: `default`, `relaxed` or files, at most 64
/// texts. Relative paths in them start from a folder.
#[derive(Drop)]
pub struct Loader<'a> {
    rt: &'a HostRuntime,
    folder: &'a str,
    opened: Vec<Opened>,
}

impl<'a> Loader<'a> {
    /// Creates a loader. Relative paths in configurations start from `folder`, which ends with `/`,
    /// or is empty for the working folder.
    pub fn new(rt: &'a HostRuntime, folder: &'a str) -> Loader<'a> {
        Loader {
            rt,
            folder,
            opened: Vec::new(rt.alloc()),
        }
    }

    /// Returns the files that were opened, or that could not be opened.
    pub fn into_opened(self) -> Vec<Opened> {
        let Loader { opened, .. } = self;
        opened
    }

    // Returns a path, joined to the folder if it is relative.
    fn path_of(&self, path: &str) -> Result<String, AllocError> {
        let mut full = String::new(self.rt.alloc());
        if !path.starts_with('/') {
            full.push_str(self.folder)?;
        }
        full.push_str(path)?;
        Ok(full)
    }

    fn bytes_in(&mut self, file: &str) -> Result<Vec<u8>, LoadFault> {
        self.opened.push(Opened::new(self.rt, file)?)?;
        match bytes_of(self.rt, file) {
            Ok(bytes) => Ok(bytes),
            Err(fault) => Err(LoadFault {
                file: Some(String::from_str(self.rt.alloc(), file)?),
                cause: LoadCause::Run(fault),
            }),
        }
    }

    fn layer_of(&mut self, origin: Origin<'_>) -> Result<Layer, LoadFault> {
        match origin {
            Origin::Text(text) => Ok(Layer::new(self.rt, None, text.as_bytes())?),
            Origin::File(file) => {
                let bytes = self.bytes_in(file)?;
                let file = String::from_str(self.rt.alloc(), file)?;
                Ok(Layer::new(self.rt, Some(file), without_mark(bytes.as_slice()))?)
            }
        }
    }

    // Returns the lines of these files.
    fn lines_of(&mut self, files: &[String]) -> Result<String, LoadFault> {
        let mut lines = String::new(self.rt.alloc());
        for file in files {
            let path = self.path_of(file.as_str())?;
            let bytes = self.bytes_in(path.as_str())?;
            match str::from_utf8(without_mark(bytes.as_slice())) {
                Ok(text) => lines.push_str(text)?,
                Err(_) => {
                    return Err(LoadFault {
                        file: Some(path),
                        cause: LoadCause::Config(ConfigFault::NotUtf8),
                    });
                }
            }
            lines.push('\n')?;
        }
        Ok(lines)
    }

    fn chain_of(&mut self, first: Layer) -> Result<Chain, LoadFault> {
        let mut layers = Vec::new(self.rt.alloc());
        let mut layer = first;
        for _ in 0..MOST_EXTENDED {
            let named = match Named::read(self.rt.alloc(), layer.bytes.as_slice()) {
                Ok(named) => named,
                Err(fault) => return Err(layer.fault(fault)),
            };
            layer.ignore_lines = self.lines_of(named.ignore_from())?;
            layers.push(layer)?;
            let Some(name) = named.extends() else {
                let base = Project::empty(self.rt.alloc())?;
                return Ok(Chain { layers, base });
            };
            if let Some(base) = built_in(self.rt, name)? {
                return Ok(Chain { layers, base });
            }
            let path = self.path_of(name)?;
            layer = self.layer_of(Origin::File(path.as_str()))?;
        }
        Err(LoadFault {
            file: mem::take(&mut layer.file),
            cause: LoadCause::TooLong,
        })
    }

    /// Loads a configuration from this origin, with all that it extends.
    pub fn load(&mut self, origin: Origin<'_>) -> Result<Project<Global>, LoadFault> {
        let first = self.layer_of(origin)?;
        let Chain { layers, base } = self.chain_of(first)?;
        let mut layers = layers;
        let mut project = base;
        for _ in 0..layers.len() {
            if let Some(layer) = layers.pop() {
                project = layer.over(self.rt, project)?;
            }
        }
        Ok(project)
    }
}
