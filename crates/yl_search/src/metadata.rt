//! Reads the metadata of paths.
use std::alloc::AllocError;
use std::fs;
use std::fs::Metadata;
use std::io::ErrorKind;

/// Returns the metadata of a path, or `None` if they cannot be read. Follows links. The only error
/// is out of memory.
pub fn metadata_of(rt: &HostRuntime, path: &str) -> Result<Option<Metadata>, AllocError> {
    match fs::metadata(rt, path) {
        Ok(metadata) => Ok(Some(metadata)),
        Err(error) if error.kind() == ErrorKind::OutOfMemory => Err(AllocError),
        Err(_) => Ok(None),
    }
}
