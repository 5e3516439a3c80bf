//! What calls are, and what they are answered.
use crate::lines::{push_line, push_lines};
use json::Value;
use std::alloc::{Allocator, Global};
use yl_devices::RunFault;
use yl_frames::{Body, Output};
use yl_rpc::{Answer, BodyFault, Call, Code, Failure, Id, Plain};
use yl_text::Watched;

/// Where the lines go.
#[derive(Drop)]
pub struct Told {
    pub alloc: Global,
    pub lines: Vec<u8>,
}

impl Told {
    // Puts a line of these words.
    fn say(&mut self, words: &[&[u8]]) -> Result<(), RunFault> {
        let mut line = Vec::new(self.alloc);
        for word in words {
            line.extend_from_slice(word)?;
        }
        push_line(&mut self.lines, line.as_slice())?;
        Ok(())
    }

    // Puts a message as it is sent.
    fn send<B: Body>(&mut self, body: &B) -> Result<(), RunFault> {
        let mut out = Output::new(Watched::new(Vec::new(self.alloc)));
        if out.send(body).is_err() {
            self.say(&[b"is not sent"])?;
        }
        push_lines(&mut self.lines, out.into_inner().into_inner().as_slice())?;
        Ok(())
    }

    fn fail(&mut self, id: Id<'_>, code: Code, message: &str) -> Result<(), RunFault> {
        self.send(&Failure { id, code, message })
    }

    // Puts what a call is.
    fn name<A: Allocator>(
        &mut self,
        kind: &[u8],
        method: &str,
        params: Option<&Value<'_, A>>,
    ) -> Result<(), RunFault> {
        let with: &[u8] = if params.is_some() {
            b", with params"
        } else {
            b""
        };
        self.say(&[kind, method.as_bytes(), with])
    }

    /// Puts what a call is, and its answers.
    pub fn tell<A: Allocator>(&mut self, call: Call<'_, '_, A>) -> Result<(), RunFault> {
        match call {
            Call::Request { id, method, params } => {
                self.name(b"= request ", method, params)?;
                self.send(&Answer::new(id, Plain("null")))?;
                self.fail(id, Code::MethodNotFound, "unknown method")
            }
            Call::Notification { method, params } => {
                self.name(b"= notification ", method, params)
            }
            Call::Response => self.say(&[b"= response"]),
            Call::Invalid { id } => {
                self.say(&[b"= invalid"])?;
                self.fail(id, Code::InvalidRequest, "no call")
            }
        }
    }

    /// Puts why a body is not read, and its answer.
    pub fn refuse(&mut self, fault: BodyFault) -> Result<(), RunFault> {
        match fault {
            BodyFault::NoJson => {
                self.say(&[b"= no JSON"])?;
                self.fail(Id::Null, Code::ParseError, "no JSON")
            }
            BodyFault::TooDeep => {
                self.say(&[b"= too deep"])?;
                self.fail(Id::Null, Code::ParseError, "too deep")
            }
            BodyFault::Memory => {
                self.say(&[b"= no memory"])?;
                self.fail(Id::Null, Code::InternalError, "out of memory")
            }
        }
    }
}
