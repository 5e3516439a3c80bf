//! Finds the files of configurations.
use crate::metadata::metadata_of;
use std::alloc::AllocError;
use std::env;
use std::env::VarError;
use std::io::ErrorKind;

// The names that the configuration of a project may have.
const NAMES: [&str; 3] = [".yamllint", ".yamllint.yaml", ".yamllint.yml"];

// The maximum length of a path on this system, in bytes. A path has at most that many folders.
const MOST_FOLDERS: usize = 4096;

/// Returns `true` if there is a file at this path, or a link to one. The only error is out of
/// memory.
fn is_file(rt: &HostRuntime, path: &str) -> Result<bool, AllocError> {
    Ok(match metadata_of(rt, path)? {
        Some(metadata) => metadata.is_file(),
        None => false,
    })
}

fn joined(rt: &HostRuntime, folder: &str, name: &str) -> Result<String, AllocError> {
    let mut path = String::from_str(rt.alloc(), folder)?;
    path.push_str(name)?;
    Ok(path)
}

// Returns the path of the first of the names that is a file in a folder. The path of the folder
// ends with `/` or is empty.
fn file_in(rt: &HostRuntime, folder: &str) -> Result<Option<String>, AllocError> {
    for name in NAMES {
        let path = joined(rt, folder, name)?;
        if is_file(rt, path.as_str())? {
            return Ok(Some(path));
        }
    }
    Ok(None)
}

// Returns the parent of a folder. The parent of `/` is `/`.
fn above(folder: &str) -> &str {
    match folder.rsplit_once('/') {
        Some(("", _)) | None => "/",
        Some((above, _)) => above,
    }
}

// Returns the path of the home folder without `/` at its end, or an empty path if it is not known.
fn home(rt: &HostRuntime) -> Result<String, AllocError> {
    match env::home_dir(rt) {
        Ok(Some(home)) => String::from_str(rt.alloc(), home.as_str().trim_end_matches('/')),
        Err(error) if error.kind() == ErrorKind::OutOfMemory => Err(AllocError),
        _ => Ok(String::new(rt.alloc())),
    }
}

/// Returns the path of the configuration of a project, if there is one. This is the first file with
/// the name `.yamllint`, `.yamllint.yaml` or `.yamllint.yml` in `folder`, or else in the folders
/// above it, up to the home folder or the root. `folder` is absolute. If `is_here` is set, `folder`
/// is the working folder, and the result is a path relative to it, such as `../.yamllint`.
/// Otherwise the result is absolute. The only error is out of memory.
pub fn project_file(
    rt: &HostRuntime,
    folder: &str,
    is_here: bool,
) -> Result<Option<String>, AllocError> {
    let home = home(rt)?;
    let mut folder = folder;
    let mut front = String::new(rt.alloc());
    for _ in 0..MOST_FOLDERS {
        if !is_here {
            front = joined(rt, folder.trim_end_matches('/'), "/")?;
        }
        if let Some(file) = file_in(rt, front.as_str())? {
            return Ok(Some(file));
        }
        if folder == "/" || folder == home.as_str() {
            return Ok(None);
        }
        folder = above(folder);
        front.push_str("../")?;
    }
    Ok(None)
}

// Returns the value of an environment variable, if it is set and is UTF-8.
fn variable(rt: &HostRuntime, name: &str) -> Result<Option<String>, AllocError> {
    match env::var(rt, name) {
        Ok(value) => Ok(Some(value)),
        Err(VarError::OutOfMemory) => Err(AllocError),
        Err(_) => Ok(None),
    }
}

// Returns the path of the configuration of the user, whether there is such a file or not.
fn user_path(rt: &HostRuntime) -> Result<String, AllocError> {
    if let Some(path) = variable(rt, "YAMLLINT_CONFIG_FILE")? {
        return match path.as_str().strip_prefix('~') {
            Some(rest) if rest.is_empty() || rest.starts_with('/') => {
                joined(rt, home(rt)?.as_str(), rest)
            }
            _ => Ok(path),
        };
    }
    match variable(rt, "XDG_CONFIG_HOME")? {
        // An empty value stands for the working folder, as in yamllint.
        Some(folder) if folder.is_empty() => String::from_str(rt.alloc(), "yamllint/config"),
        Some(folder) => joined(rt, folder.as_str(), "/yamllint/config"),
        None => joined(rt, home(rt)?.as_str(), "/.config/yamllint/config"),
    }
}

/// Returns the path of the configuration of the user, if it is a file. This is the path in
/// `YAMLLINT_CONFIG_FILE`, where a leading `~/` stands for the home folder, else `yamllint/config`
/// in `XDG_CONFIG_HOME`, else `.config/yamllint/config` in the home folder. The only error is out
/// of memory.
pub fn user_file(rt: &HostRuntime) -> Result<Option<String>, AllocError> {
    let path = user_path(rt)?;
    Ok(if is_file(rt, path.as_str())? {
        Some(path)
    } else {
        None
    })
}
