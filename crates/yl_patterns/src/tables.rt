//! Where a part of a pattern has a `]`.
ghost use Rattle.std.specs.Prelude.{◌≡◌, ◌+◌, ◌≤◌, IfOk, drop, length};
ghost use Rattle.yl_patterns.specs.Reading.{has_close, is_closed};
ghost use Rattle.yl_patterns.specs.Tables.{IsTable};

use std::alloc::{AllocError, Allocator};

fn put_closes(text: &[char], table: &mut [bool])
    requires { length table.old ≡ length text.now + 1 }
    ensures { IsTable has_close text.now table.new }
{
    table[text.len()] = false;
    for k in (0..text.len()).rev() {
        let c = text[k];
        table[k] = (c != '/') & ((c == ']') | table[k + 1]);
    }
}

/// For each place of the text and for its end, whether what is left of the part there has a `]`.
pub fn closes<A: Allocator>(alloc: A, text: &[char]) -> Result<Vec<bool, A>, AllocError>
    ensures { IfOk result (λ table. IsTable has_close text.now table.items) }
{
    let mut table = vec![in alloc; false; text.len() + 1]?;
    put_closes(text, table.as_mut_slice());
    Ok(table)
}

/// Whether a class that begins at a place of the text ends in its part.
pub fn is_closed(text: &[char], closes: &[bool], at: usize) -> bool
    requires { IsTable has_close text.now closes.now }
    ensures { result ≡ is_closed (drop at text.now) }
{
    at < text.len() && text[at] != '/' && closes[at + 1]
}
