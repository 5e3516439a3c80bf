//! The bytes of a line. An ASCII byte is a character.
ghost use Rattle.std.specs.Prelude.{◌≡◌, ◌==◌, drop};
ghost use Rattle.std.specs.List.{prefix_len};

/// Returns how many times this byte occurs at the start.
pub(crate) fn count_front(bytes: &[u8], wanted: u8) -> usize
    ensures { result ≡ prefix_len (λ b. b == wanted) bytes.now }
{
    for (i, byte) in bytes.iter().enumerate() {
        if *byte != wanted {
            return i;
        }
    }
    bytes.len()
}

/// Returns the bytes after the first `count` ones, or none if there are fewer.
pub(crate) fn past(bytes: &[u8], count: usize) -> &[u8]
    ensures { result.now ≡ drop count bytes.now }
{
    if count < bytes.len() {
        let (_, rest) = bytes.split_at(count);
        rest
    } else {
        &[]
    }
}
