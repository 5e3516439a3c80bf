//! Calls.
ghost use Rattle.std.specs.Prelude.{◌≡◌};
ghost use Rattle.json.specs.Value.{value_view};
ghost use Rattle.yl_rpc.specs.Calls.{call_of, call_with, id_in, id_of, is_version};
ghost use Rattle.yl_rpc.specs.Views.{call_view, id_view};

use crate::id::Id;
use json::Value;
use std::alloc::Allocator;

/// A message of JSON-RPC.
#[derive(Clone, Copy)]
pub enum Call<'v, 'a, A: Allocator> {
    /// A call that has to be answered.
    Request {
        id: Id<'a>,
        method: &'a str,
        params: Option<&'v Value<'a, A>>,
    },
    /// A call without an answer.
    Notification {
        method: &'a str,
        params: Option<&'v Value<'a, A>>,
    },
    /// An answer to a request.
    Response,
    /// None of these.
    Invalid {
        id: Id<'a>,
    },
}

fn id_of<'a, A: Allocator>(value: &Value<'a, A>) -> Id<'a>
    ensures { id_view result ≡ id_of (value_view value.now) }
{
    match value {
        Value::Number(digits) => Id::Number(digits),
        Value::String(text) => Id::Text(text),
        _ => Id::Null,
    }
}

// The id of a message that is no request.
fn id_in<'a, A: Allocator>(message: &Value<'a, A>) -> Id<'a>
    ensures { id_view result ≡ id_in (value_view message.now) }
{
    match message.get("id") {
        Some(id) => id_of(id),
        None => Id::Null,
    }
}

fn is_version<A: Allocator>(message: &Value<'_, A>) -> bool
    ensures { result ≡ is_version (value_view message.now) }
{
    match message.get("jsonrpc") {
        Some(version) => version.as_str() == Some("2.0"),
        None => false,
    }
}

// A message with this method.
fn call_with<'v, 'a, A: Allocator>(message: &'v Value<'a, A>, method: &'a str) -> Call<'v, 'a, A>
    ensures { call_view result ≡ call_with (value_view message.now) method.now }
{
    let params = message.get("params");
    let Some(id) = message.get("id") else {
        return Call::Notification { method, params };
    };
    match id_of(id) {
        Id::Null => Call::Invalid { id: Id::Null },
        id => Call::Request { id, method, params },
    }
}

/// What a JSON value is as a message.
pub fn call_of<'v, 'a, A: Allocator>(message: &'v Value<'a, A>) -> Call<'v, 'a, A>
    ensures { call_view result ≡ call_of (value_view message.now) }
{
    let invalid = Call::Invalid { id: id_in(message) };
    if !is_version(message) {
        return invalid;
    }
    match message.get("method") {
        Some(method) => match method.as_str() {
            Some(method) => call_with(message, method),
            None => invalid,
        },
        None if message.get("result").is_some() || message.get("error").is_some() => Call::Response,
        None => invalid,
    }
}
