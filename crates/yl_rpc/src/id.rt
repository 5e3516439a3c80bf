//! What tells a request from others.
use yl_devices::WriteFault;
use yl_frames::{Body, Pieces, put_text};

/// The id of a request, as it came.
#[derive(Clone, Copy)]
pub enum Id<'a> {
    /// A number, by its digits.
    Number(&'a str),
    Text(&'a str),
    /// No id: what is answered was no request.
    Null,
}

impl Body for Id<'_> {
    ghost use Rattle.yl_rpc.specs.Answers.{id_json, json_text};
    ghost use Rattle.yl_rpc.specs.Views.{id_view};

    ghost text = { λ id. json_text (id_json (id_view id)) };

    fn put<P: Pieces>(&self, to: &mut P) -> Result<(), WriteFault> {
        match *self {
            Id::Number(digits) => to.put(digits.as_bytes()),
            Id::Text(text) => put_text(to, text),
            Id::Null => to.put(b"null"),
        }
    }
}
