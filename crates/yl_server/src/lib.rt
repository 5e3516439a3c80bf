//! A Language Server (LSP 3.17): how each message changes it, and what it sends.
#![tactic(auto)]

mod governed;
mod laws;
mod phase;
mod reply;
mod server;
mod serving;
mod settings;
mod words;

pub use governed::Governed;
pub use laws::{documents_are_shown, one_answer_to_a_request, texts_are_lost_for_a_cause};
pub use phase::Phase;
pub use server::Server;
pub use serving::{ServeFault, serve};
pub use settings::{ConfigFiles, Found};
