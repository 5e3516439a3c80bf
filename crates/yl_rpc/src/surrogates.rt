//! Escapes of surrogates without their partner.
ghost use Rattle.std.specs.Prelude.{◌≡◌, ◌+◌, ◌≤◌, ◌<◌, ◌&&◌, ◌++◌, codes, length, take, drop, cond};
ghost use Rattle.std.specs.Option.{SomeIff};
ghost use Rattle.std.specs.Char.{digit_value};
ghost use Rattle.yl_rpc.specs.Surrogates.{begins_high, begins_low, digits_read, has_partner, is_lone, mended, next_within, unit_of};

/// Where a byte stands. The next escape, or the one that it is in, may be the second half of a pair.
#[derive(Clone, Copy)]
pub enum Within {
    Plain { is_partner: bool },
    AfterBackslash { is_partner: bool },
    AfterU { is_partner: bool },
}

// Where the byte after this one stands.
fn next_within(within: Within, byte: u8) -> Within
    ensures { result ≡ next_within within byte }
{
    match within {
        Within::Plain { is_partner } if byte == b'\\' => Within::AfterBackslash { is_partner },
        Within::AfterBackslash { is_partner } if byte == b'u' => Within::AfterU { is_partner },
        _ => Within::Plain { is_partner: false },
    }
}

fn hex_digit(byte: u8) -> Option<u32>
    ensures { SomeIff result (digit_value byte < 16) (digit_value byte) }
{
    (byte as char).to_digit(16)
}

// The code unit that the first four digits write.
#[tactic(auto, using(crate::proofs::Digits::unit_at, crate::proofs::Digits::unit_short), unfolding(json::specs::Text::code_unit))]
fn unit_of(digits: &[u8]) -> Option<u32>
    ensures { result ≡ unit_of digits.now }
{
    if digits.len() < 4 {
        return None;
    }
    let a = hex_digit(digits[0])?;
    let b = hex_digit(digits[1])?;
    let c = hex_digit(digits[2])?;
    let d = hex_digit(digits[3])?;
    Some(a * 4096 + b * 256 + c * 16 + d)
}

fn begins_high(digits: &[u8]) -> bool
    ensures { result ≡ begins_high digits.now }
{
    match unit_of(digits) {
        Some(unit) => unit >= 0xD800 && unit < 0xDC00,
        None => false,
    }
}

fn begins_low(digits: &[u8]) -> bool
    ensures { result ≡ begins_low digits.now }
{
    match unit_of(digits) {
        Some(unit) => unit >= 0xDC00 && unit < 0xE000,
        None => false,
    }
}

// The bytes after four digits are the escape of a second half.
#[tactic(auto, using(crate::proofs::Digits::partner_at, crate::proofs::Digits::partner_short))]
fn has_partner(digits: &[u8]) -> bool
    ensures { result ≡ has_partner digits.now }
{
    if digits.len() < 6 {
        return false;
    }
    digits[4] == b'\\' && digits[5] == b'u' && begins_low(&digits[6..])
}

// The digits are of half a pair, and the other half does not stand beside it.
fn is_lone(is_partner: bool, digits: &[u8]) -> bool
    ensures { result ≡ is_lone is_partner digits.now }
{
    (begins_high(digits) && !has_partner(digits)) || (begins_low(digits) && !is_partner)
}

fn begins_pair(digits: &[u8]) -> bool
    ensures { result ≡ (begins_high digits.now && has_partner digits.now) }
{
    begins_high(digits) && has_partner(digits)
}

// Puts the digits of U+FFFD at a place.
fn put_replacement(body: &mut [u8], i: usize)
    requires { i + 4 ≤ length body.old }
    ensures { body.new ≡ take i body.old ++ (codes "FFFD" ++ drop (i + 4) body.old) }
{
    body[i..i + 4].copy_from_slice(b"FFFD");
}

// Puts U+FFFD in place of half a pair at a place, if the other half does not stand beside it.
fn mend_digits(body: &mut [u8], i: usize, is_partner: bool)
    requires { i + 4 ≤ length body.old }
    ensures { body.new ≡ take i body.old ++ (digits_read is_partner (drop i body.old) ++ drop (i + 4) body.old) }
{
    if is_lone(is_partner, &body[i..]) {
        put_replacement(body, i);
    }
}

/// Puts U+FFFD in place of each half of a pair without the other.
pub(crate) fn mend(body: &mut [u8])
    ensures { body.new ≡ mended body.old }
{
    let mut within = Within::Plain { is_partner: false };
    let mut i = 0;
    while i < body.len() {
        let Within::AfterU { is_partner } = within else {
            within = next_within(within, body[i]);
            i += 1;
            continue;
        };
        if body.len() - i < 4 {
            return;
        }
        let is_pair = begins_pair(&body[i..]);
        mend_digits(body, i, is_partner);
        within = Within::Plain {
            is_partner: is_pair,
        };
        i += 4;
    }
}

#[cfg(test)]
mod tests {
    use super::*;
    use std::alloc::Global;
    use std::test::Fail;

    const ROWS: [(&str, &str); 6] = [
        ("a\\ud83d\\ude00b", "a\\ud83d\\ude00b"),
        (
            "\\ud83d\\ud83d\\ude00\\ude00",
            "\\uFFFD\\ud83d\\ude00\\uFFFD",
        ),
        ("\\\\ud83d\\uD83", "\\\\ud83d\\uD83"),
        ("\\uDC00", "\\uFFFD"),
        ("\\uD800\\n", "\\uFFFD\\n"),
        ("\\uD800x\\uDC00", "\\uFFFDx\\uFFFD"),
    ];

    fn is_mended(alloc: Global, text: &str, wanted: &str) -> Result<bool, Fail> {
        let mut body = text.as_bytes().to_vec(alloc)?;
        mend(body.as_mut_slice());
        Ok(body.as_slice() == wanted.as_bytes())
    }

    #[test]
    fn halves(rt: HostRuntime) -> Result<(), Fail> {
        for (text, wanted) in ROWS {
            assert!(rt; is_mended(rt.alloc(), text, wanted)?);
        }
        Ok(())
    }
}
