//! Finds the bytes that are not printable ASCII.
ghost use Rattle.std.specs.Prelude.{◌≡◌, ◌+◌, ◌≤◌, drop, length, map, slice_range};
ghost use Rattle.yl_text.specs.Special.{is_special, special_place};
ghost use Rattle.std.specs.Simd.Lanes.{mask_l};

use std::simd::prelude::*;

/// Returns the index of the first byte that is not printable ASCII, or the length if there is none.
/// Printable ASCII is 0x20 to 0x7E: `c-printable` of YAML 1.2.2, chapter 5, without the tab. Does
/// not allocate.
pub fn first_special(bytes: &[u8]) -> usize
    ensures within { result ≤ length bytes.now }
    ensures place { result ≡ special_place bytes.now }
{
    let mut at = 0;
    while 32 <= bytes.len() - at {
        let place = special_lane(bytes, at);
        if place < 32 {
            return at + place;
        }
        at += 32;
    }
    special_from(bytes, at)
}

/// Returns the index, counted from `at`, of the first of the 32 bytes from `at` on that is not
/// printable ASCII, or 32 if there is none. Compares all of them at once.
#[inline(always)]
fn special_lane(bytes: &[u8], at: usize) -> usize
    requires { at + 32 ≤ length bytes.now }
    ensures { result ≡ special_place (slice_range bytes.now at (at + 32)) }
{
    let special = special_lanes(bytes, at);
    if special == 0 {
        32
    } else {
        special.trailing_zeros() as usize
    }
}

/// Returns one bit for each of the 32 bytes from `at` on, the lowest for the first byte. A bit is
/// set if its byte is not printable ASCII.
#[inline(always)]
fn special_lanes(bytes: &[u8], at: usize) -> u64
    requires { at + 32 ≤ length bytes.now }
    ensures { result ≡ mask_l (map is_special (slice_range bytes.now at (at + 32))) }
{
    // Minus 0x7F, modulo 256, the printable bytes are 0xA1 to 0xFF, and the others 0 to 0xA0.
    let moved = u8x32::from_slice(&bytes[at..]) - u8x32::splat(0x7F);
    moved.simd_le(u8x32::splat(0xA0)).to_bitmask()
}

/// Returns the index of the first byte from `at` on that is not printable ASCII, or the length if
/// there is none. Looks at one byte after another.
fn special_from(bytes: &[u8], at: usize) -> usize
    requires { at ≤ length bytes.now }
    ensures { result ≡ at + special_place (drop at bytes.now) }
{
    for i in at..bytes.len() {
        if bytes[i] < 0x20 || bytes[i] > 0x7E {
            return i;
        }
    }
    bytes.len()
}
