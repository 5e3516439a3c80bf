//! JSON-RPC 2.0: from the body of a message to a call, and answers.
#![tactic(auto)]

mod answers;
mod body;
mod call;
mod depth;
mod id;
mod parts;
mod surrogates;

pub use answers::{Answer, Code, Failure};
pub use body::{BodyFault, read_body};
pub use call::{Call, call_of};
pub use id::Id;
pub use parts::{Joined, Lent, Plain, Quoted};
