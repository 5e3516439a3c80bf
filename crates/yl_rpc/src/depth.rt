//! How deep a body nests.
ghost use Rattle.std.specs.Prelude.{◌≡◌, ◌≤◌};
ghost use Rattle.yl_rpc.specs.Depth.{is_too_deep, most_open, next_stand, open_after};

/// Where a byte stands.
#[derive(Clone, Copy)]
pub enum Stand {
    Outside,
    InString,
    InEscape,
}

// Where the byte after this one stands.
fn next_stand(stand: Stand, byte: u8) -> Stand
    ensures { result ≡ next_stand stand byte }
{
    match stand {
        Stand::Outside if byte == b'"' => Stand::InString,
        Stand::InString if byte == b'"' => Stand::Outside,
        Stand::InString if byte == b'\\' => Stand::InEscape,
        Stand::InEscape => Stand::InString,
        _ => stand,
    }
}

// How many brackets are open after a byte.
fn open_after(stand: Stand, levels: usize, byte: u8) -> usize
    requires { levels ≤ most_open }
    ensures { result ≡ open_after stand levels byte }
{
    match stand {
        Stand::Outside if byte == b'[' || byte == b'{' => levels + 1,
        Stand::Outside if byte == b']' || byte == b'}' => levels.saturating_sub(1),
        _ => levels,
    }
}

/// Whether more brackets are open at once than are read.
pub(crate) fn is_too_deep(body: &[u8]) -> bool
    ensures { result ≡ is_too_deep body.now }
{
    let mut stand = Stand::Outside;
    let mut levels = 0;
    for byte in body {
        levels = open_after(stand, levels, *byte);
        stand = next_stand(stand, *byte);
        if levels > 128 {
            return true;
        }
    }
    false
}
