//! Answers to requests.
ghost use Rattle.std.specs.Prelude.{◌≡◌};

use crate::id::Id;
use crate::parts::{Joined, Lent, Plain, Quoted};
use yl_devices::WriteFault;
use yl_frames::{Body, Pieces};

/// Why a request is not met.
#[derive(Clone, Copy, PartialEq, Eq)]
pub enum Code {
    ParseError,
    InvalidRequest,
    MethodNotFound,
    InvalidParams,
    InternalError,
    ServerNotInitialized,
}

impl Code {
    ghost use Rattle.yl_rpc.specs.Answers.{code_text};

    /// The number in decimal digits.
    pub fn text(self) -> &'static str
        ensures { result.now ≡ code_text self }
    {
        match self {
            Code::ParseError => "-32700",
            Code::InvalidRequest => "-32600",
            Code::MethodNotFound => "-32601",
            Code::InvalidParams => "-32602",
            Code::InternalError => "-32603",
            Code::ServerNotInitialized => "-32002",
        }
    }
}

/// The answer to a request that is met, with its result as JSON.
#[derive(Drop)]
pub struct Answer<'a, R> {
    id: Id<'a>,
    outcome: R,
}

impl<'a, R: Body> Answer<'a, R> {
    ghost use Rattle.json.specs.Json.{Json};
    ghost use Rattle.yl_rpc.specs.Answers.{answer, answer_text, json_text};
    ghost use Rattle.yl_rpc.specs.Views.{id_view};

    /// The answer with this result.
    pub fn new(id: Id<'a>, outcome: R) -> Answer<'a, R>
        ensures made { (result.id ≡ id.entry) × (result.outcome ≡ outcome) }
        ensures json { (j : Json) → R.text result.outcome ≡ json_text j
            → answer_text (id_view result.id) (R.text result.outcome) ≡ json_text (answer (id_view result.id) j) }
    {
        Answer { id, outcome }
    }
}

impl<R: Body> Body for Answer<'_, R> {
    ghost use Rattle.yl_rpc.specs.Answers.{answer_text};
    ghost use Rattle.yl_rpc.specs.Views.{id_view};

    ghost text = { λ a. answer_text (id_view a.id) (R.text a.outcome) };

    fn put<P: Pieces>(&self, to: &mut P) -> Result<(), WriteFault> {
        let outcome = Joined(Lent(&self.outcome), Plain("}"));
        let rest = Joined(Plain(",\"jsonrpc\":\"2.0\",\"result\":"), outcome);
        let all = Joined(Plain("{\"id\":"), Joined(self.id, rest));
        all.put(to)
    }
}

/// The answer to a request that is not met, with a message for people.
#[derive(Clone, Copy)]
pub struct Failure<'a> {
    pub id: Id<'a>,
    pub code: Code,
    pub message: &'a str,
}

impl Body for Failure<'_> {
    ghost use Rattle.yl_rpc.specs.Answers.{failure, json_text};
    ghost use Rattle.yl_rpc.specs.Views.{id_view};

    ghost text = { λ f. json_text (failure (id_view f.id) f.code f.message.now) };

    fn put<P: Pieces>(&self, to: &mut P) -> Result<(), WriteFault> {
        let error = Joined(
            Plain(self.code.text()),
            Joined(Plain(",\"message\":"), Quoted(self.message)),
        );
        let id = Joined(self.id, Plain(",\"jsonrpc\":\"2.0\"}"));
        let all = Joined(
            Plain("{\"error\":{\"code\":"),
            Joined(error, Joined(Plain("},\"id\":"), id)),
        );
        all.put(to)
    }
}
