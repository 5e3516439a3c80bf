//! Stores of the lines of texts.
ghost use Rattle.std.specs.Prelude.{IfOk};
ghost use Rattle.yl_text.specs.Store.{AreLines};

use std::alloc::Global;
use yl_text::{LineStore, PlainStore, TextFault, split};

// Opens a store with the lines of a text.
pub(crate) fn opened(alloc: Global, text: &str) -> Result<PlainStore<Global>, TextFault>
    ensures { IfOk result (λ lines. AreLines lines) }
{
    let mut rows = split(alloc, text.as_bytes())?;
    let Ok(lines) = PlainStore::from_rows(&mut rows) else {
        return Err(TextFault::Memory);
    };
    Ok(lines)
}
