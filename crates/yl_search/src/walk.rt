//! Finds the files that a run lints.
use crate::metadata::metadata_of;
use std::alloc::{AllocError, Global};
use std::fs::DirEntry;
use std::io::ErrorKind;
use std::{fs, io};
use yl_project::Project;

/// An item of a walk.
#[derive(Drop)]
pub enum Found {
    /// Standard input.
    Input,
    /// The file at this path. A walk does not check whether it can be read.
    File(String),
    /// A folder that cannot be read, or not to its end.
    Unreadable(String),
    /// A folder that contains a name that is not UTF-8.
    BadName(String),
}

/// A walk over paths: files as they are named, and the YAML files in folders and in the folders
/// below. Of a folder, the files come first and then its folders, both in the order of their names.
/// Links to files are followed. Links to folders are followed only if they are named. Pipes,
/// devices and sockets in folders are skipped.
#[derive(Drop)]
pub struct Walk<'a> {
    rt: &'a HostRuntime,
    project: &'a Project<Global>,
    paths: &'a [String],
    // The items that are not yet returned, the last one first.
    ready: Vec<Found>,
    // The folders that are not yet read, the last one first.
    folders: Vec<String>,
}

// The contents of a folder.
#[derive(Drop)]
struct Listing {
    files: Vec<String>,
    folders: Vec<String>,
    has_bad_name: bool,
    is_cut: bool,
}

impl<'a> Walk<'a> {
    /// Creates a walk over these paths. `-` stands for standard input.
    pub fn new(rt: &'a HostRuntime, project: &'a Project<Global>, paths: &'a [String]) -> Walk<'a> {
        Walk {
            rt,
            project,
            paths,
            ready: Vec::new(rt.alloc()),
            folders: Vec::new(rt.alloc()),
        }
    }

    /// Returns the next item, or `None` at the end. The only error is out of memory.
    pub fn next(&mut self) -> Result<Option<Found>, AllocError> {
        for _ in 0..u64::MAX {
            if let Some(found) = self.ready.pop() {
                return Ok(Some(found));
            }
            if let Some(folder) = self.folders.pop() {
                self.enter(folder)?;
            } else if !self.begin()? {
                return Ok(None);
            }
        }
        Ok(None)
    }

    // Takes the next path. Returns `false` if there is none.
    fn begin(&mut self) -> Result<bool, AllocError> {
        let Some((path, rest)) = self.paths.split_first() else {
            return Ok(false);
        };
        self.paths = rest;
        let path = path.as_str();
        if path == "-" {
            self.ready.push(Found::Input)?;
            return Ok(true);
        }
        let is_folder = match metadata_of(self.rt, path)? {
            Some(metadata) => metadata.is_dir(),
            None => false,
        };
        let path = String::from_str(self.rt.alloc(), path)?;
        if is_folder {
            self.folders.push(path)?;
        } else {
            self.ready.push(Found::File(path))?;
        }
        Ok(true)
    }

    // Reads a folder and queues its contents.
    fn enter(&mut self, folder: String) -> Result<(), AllocError> {
        let Some(listing) = self.list(folder.as_str())? else {
            self.ready.push(Found::Unreadable(folder))?;
            return Ok(());
        };
        let Listing {
            files,
            folders,
            has_bad_name,
            is_cut,
        } = listing;
        let mut files = files;
        let mut folders = folders;
        for _ in 0..files.len() {
            if let Some(file) = files.pop() {
                self.ready.push(Found::File(file))?;
            }
        }
        for _ in 0..folders.len() {
            if let Some(folder) = folders.pop() {
                self.folders.push(folder)?;
            }
        }
        if has_bad_name {
            let folder = String::from_str(self.rt.alloc(), folder.as_str())?;
            self.ready.push(Found::BadName(folder))?;
        }
        if is_cut {
            self.ready.push(Found::Unreadable(folder))?;
        }
        Ok(())
    }

    // Returns the contents of a folder, or `None` if it cannot be read.
    fn list(&self, folder: &str) -> Result<Option<Listing>, AllocError> {
        let entries = match fs::read_dir(self.rt, folder) {
            Ok(entries) => entries,
            Err(error) if error.kind() == ErrorKind::OutOfMemory => return Err(AllocError),
            Err(_) => return Ok(None),
        };
        let mut listing = Listing {
            files: Vec::new(self.rt.alloc()),
            folders: Vec::new(self.rt.alloc()),
            has_bad_name: false,
            is_cut: false,
        };
        for entry in entries {
            match entry {
                Ok(entry) => self.take(&entry, &mut listing)?,
                Err(error) => note_fault(&error, &mut listing)?,
            }
        }
        listing.files.sort()?;
        listing.folders.sort()?;
        Ok(Some(listing))
    }

    // Adds an entry to the listing, if it is a folder or a YAML file.
    fn take(&self, entry: &DirEntry, listing: &mut Listing) -> Result<(), AllocError> {
        let path = entry.path();
        let kind = match entry.file_type() {
            Ok(kind) => Some(kind),
            Err(error) if error.kind() == ErrorKind::OutOfMemory => return Err(AllocError),
            Err(_) => None,
        };
        if let Some(kind) = &kind
            && kind.is_dir()
        {
            listing
                .folders
                .push(String::from_str(self.rt.alloc(), path.as_str())?)?;
            return Ok(());
        }
        if !self.project.is_yaml(entry.file_name())? {
            return Ok(());
        }
        let is_other = match kind {
            Some(kind) if kind.is_symlink() => match metadata_of(self.rt, path.as_str())? {
                Some(metadata) => !metadata.is_file(),
                None => false,
            },
            Some(kind) => !kind.is_file(),
            None => false,
        };
        if !is_other {
            listing
                .files
                .push(String::from_str(self.rt.alloc(), path.as_str())?)?;
        }
        Ok(())
    }
}

// Records in the listing why an entry could not be read. The only error is out of memory.
fn note_fault(error: &io::Error, listing: &mut Listing) -> Result<(), AllocError> {
    match error.kind() {
        ErrorKind::OutOfMemory => return Err(AllocError),
        ErrorKind::InvalidFilename => listing.has_bad_name = true,
        _ => listing.is_cut = true,
    }
    Ok(())
}
