//! Tests of the first byte that is not printable ASCII, against a plain scan, in bytes of each
//! length up to 130.

use std::alloc::{AllocError, Global};
use std::test::Fail;
use yl_text::first_special;

// Returns the index of the first byte that is not from 0x20 to 0x7E, or the length if there is
// none.
fn scanned(bytes: &[u8]) -> usize {
    for (place, byte) in bytes.iter().enumerate() {
        if *byte < 0x20 || *byte > 0x7E {
            return place;
        }
    }
    bytes.len()
}

// Returns `len` printable bytes, the first and the last of these in turn. The only error is out of
// memory.
fn printable(alloc: Global, len: usize) -> Result<Vec<u8>, AllocError> {
    let mut bytes = Vec::new(alloc);
    for _ in 0..len {
        bytes.extend_from_slice(b" ~")?;
    }
    bytes.truncate(len);
    Ok(bytes)
}

// Returns the first index, and the byte there, for which `first_special` and the scan differ, if
// there is one. Each of these bytes stands alone among printable ones; at the index `len` there is
// none of them.
fn missed(alloc: Global, len: usize) -> Result<Option<(usize, u8)>, AllocError> {
    for place in 0..=len {
        for byte in [b'\n', b'\r', b'\t', 0xC3] {
            let mut bytes = printable(alloc, len)?;
            if let Some(here) = bytes.get_mut(place) {
                *here = byte;
            }
            if first_special(bytes.as_slice()) != scanned(bytes.as_slice()) {
                return Ok(Some((place, byte)));
            }
        }
    }
    Ok(None)
}

#[test]
fn bytes_at_each_place(rt: HostRuntime) -> Result<(), Fail> {
    for len in 0..131 {
        assert_eq!(rt; missed(rt.alloc(), len)?, None, "of {len}");
    }
    Ok(())
}
