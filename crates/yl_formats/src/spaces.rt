//! The spaces between the columns of a line.
ghost use Rattle.std.specs.Prelude.{◌≡◌, ◌-◌, ◌≤◌, length, replicate};
ghost use Rattle.std.specs.List.{flat_map};

// The maximum number of spaces between two parts of a line.
static SPACES: [u8; 38] = [b' '; 38];

/// Returns the spaces that pad a line of these parts to `width` bytes. Returns none if the line has
/// at least `width` bytes.
pub(crate) fn spaces_after(parts: &[&[u8]], width: usize) -> &'static [u8]
    requires { width ≤ 38 }
    ensures { result.now ≡ replicate (width - length (flat_map (λ part. part.now) parts.now)) 32 }
{
    let mut left = width;
    for part in parts {
        left = left.saturating_sub(part.len());
    }
    &SPACES[..left]
}
