//! The JSON value that a body is.
ghost use Rattle.std.specs.Prelude.{◌≡◌, ◌≢◌, ◌≤◌, true, false, Some, IfOk, IfErr};
ghost use Rattle.std.specs.Str.{IsUtf8};
ghost use Rattle.json.specs.Json.{document, max_depth};
ghost use Rattle.json.specs.Scratch.{room};
ghost use Rattle.json.specs.Tree.{HasNumbers, depth as nesting};
ghost use Rattle.json.specs.Value.{value_view};
ghost use Rattle.yl_rpc.specs.Bodies.{IsUnread};
ghost use Rattle.yl_rpc.specs.Depth.{is_too_deep};
ghost use Rattle.yl_rpc.specs.Surrogates.{mended};

use crate::depth::is_too_deep;
use crate::surrogates::mend;
use json::{Error, Scratch, Value};
use std::alloc::Allocator;

/// Why a body was not read.
#[derive(Clone, Copy, Debug, PartialEq, Eq)]
pub enum BodyFault {
    /// It is no JSON or no UTF-8.
    NoJson,
    /// More than 128 arrays and objects are open at once.
    TooDeep,
    /// An allocation failed.
    Memory,
}

// Why a text is no value.
fn fault_of(body: &[u8]) -> BodyFault
    ensures no_json { result ≡ BodyFault.NoJson → is_too_deep body.now ≡ false }
    ensures too_deep { result ≡ BodyFault.TooDeep → is_too_deep body.now ≡ true }
    ensures memory { result ≢ BodyFault.Memory }
{
    if is_too_deep(body) {
        BodyFault::TooDeep
    } else {
        BodyFault::NoJson
    }
}

/// Reads a body (RFC 8259), with U+FFFD for each escape of half a surrogate pair without the other half, which is put into the body
/// itself. `Memory` comes only where an array or an object opens, or where the scratch has no room for the body.
pub fn read_body<'a, A: Allocator + Copy, S: Allocator>(
    alloc: A,
    body: &'a mut [u8],
    scratch: &'a mut Scratch<S>,
) -> Result<Value<'a, A>, BodyFault>
    ensures ok { IfOk result (λ value. IsUtf8 (mended body.old) × (document (mended body.old) ≡ Some (value_view value))) }
    ensures writable { IfOk result (λ value. HasNumbers (value_view value)) }
    ensures nests { IfOk result (λ value. nesting (value_view value) ≤ max_depth) }
    ensures fault { IfErr result (IsUnread (mended body.old) (room scratch.old)) }
{
    mend(body);
    let body = &*body;
    match Value::from_slice(alloc, body, scratch) {
        Ok(value) => Ok(value),
        Err(Error::OutOfMemory) => Err(BodyFault::Memory),
        Err(_) => Err(fault_of(body)),
    }
}
