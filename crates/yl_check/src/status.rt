//! The status of a run.
ghost use Rattle.std.specs.Prelude.{◌≡◌};
ghost use Rattle.yl_check.specs.Check.{joined_status};

/// Returns the status of two parts of a run: 255 if one of them is 255, which stands for a fault,
/// else 1 if one is 1, which stands for an error, else 2 if one is 2, which stands for a warning,
/// else 0.
pub fn joined(a: u8, b: u8) -> u8
    ensures { result ≡ joined_status a b }
{
    match (a, b) {
        (255, _) | (_, 255) => 255,
        (1, _) | (_, 1) => 1,
        (2, _) | (_, 2) => 2,
        _ => 0,
    }
}
