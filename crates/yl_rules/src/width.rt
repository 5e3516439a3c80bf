//! Counts the characters of a line.
ghost use Rattle.std.specs.Prelude.{◌≡◌, ◌<◌, ◌≤◌, ◌^◌, length};
ghost use Rattle.std.specs.Str.{chars};

/// Returns the number of characters of the text. Counts the bytes at which a character begins.
pub fn character_count(text: &str) -> usize
    ensures exact { result ≡ length (chars text.now) }
    ensures within { result ≤ length text.now }
{
    let mut count = 0;
    for byte in text.as_bytes() {
        if *byte < 0x80 || *byte >= 0xc0 {
            count += 1;
        }
    }
    count
}
