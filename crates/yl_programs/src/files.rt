//! Files that programs read.
use std::fs;
use yl_devices::{RunFault, read_text};
use yl_text::Watched;

/// Returns the bytes of the file at this path. Reads at most `MOST_READ` bytes, which is more than
/// a text has. Returns `Read` if the file cannot be opened or read, and `Memory` if there is no
/// memory for its bytes.
pub fn bytes_of(rt: &HostRuntime, file: &str) -> Result<Vec<u8>, RunFault> {
    match fs::open(rt, file) {
        Ok(opened) => read_text(rt.alloc(), &mut Watched::new(opened)),
        Err(_) => Err(RunFault::Read),
    }
}
