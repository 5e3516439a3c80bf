//! Recognizes the directive of a document of YAML 1.2 (YAML 1.2.2, 6.8.1).
ghost use Rattle.std.specs.Prelude.{◌≡◌, ◌&&◌, bytes_eq, codes, drop, take};
ghost use Rattle.yl_text.specs.Character.{is_white};
ghost use Rattle.yl_lexeme.specs.Version.{is_behind_white};

/// Returns whether the byte is a space or a tab.
fn is_white(c: u8) -> bool
    ensures { result ≡ is_white c }
{
    c == b' ' || c == b'\t'
}

/// Returns whether the text is one or more characters of white space and then the word `1.2`.
fn is_behind_white(text: &[u8]) -> bool
    ensures { result ≡ is_behind_white (codes "1.2") text.now }
{
    for (i, c) in text.iter().enumerate() {
        if !is_white(*c) {
            return false;
        }
        let (_, rest) = text.split_at(i + 1);
        if rest == b"1.2".as_slice() {
            return true;
        }
    }
    false
}

/// Returns whether the text consists of the words `%YAML` and `1.2` with white space between them.
pub(crate) fn is_version_1_2(text: &[u8]) -> bool
    ensures { result ≡ (bytes_eq (take 5 text.now) (codes "%YAML") && is_behind_white (codes "1.2") (drop 5 text.now)) }
{
    match text.strip_prefix(b"%YAML") {
        None => false,
        Some(rest) => is_behind_white(rest),
    }
}
