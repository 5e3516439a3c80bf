//! The messages of a server that are not about a document.
ghost use Rattle.std.specs.Prelude.{◌≡◌};
ghost use Rattle.json.specs.Print.{escape};
ghost use Rattle.yl_lsp.specs.Messages.{encoding_name};

use itoa::Buffer;
use yl_devices::WriteFault;
use yl_frames::{Body, Pieces, put_parts, put_text};
use yl_units::Encoding;

/// LSP's `window/showMessage` of type `Error`.
#[derive(Clone, Copy)]
pub struct ErrorMessage<'a> {
    /// The text of the message.
    pub text: &'a str,
}

/// LSP's `window/showMessage` of type `Error` about a position. ` at LINE:COLUMN` follows its text.
#[derive(Clone, Copy)]
pub struct PlacedError<'a> {
    /// The text of the message before the position. JSON writes it without escapes.
    pub text: &'a str,
    /// The line, counted from 1.
    pub line: u64,
    /// The column in characters, counted from 1.
    pub column: u64,
    pub ghost plain: { escape text.now ≡ text.now },
}

/// LSP's `InitializeResult`: the capabilities of the server, and its version.
#[derive(Clone, Copy)]
pub struct InitializeResult<'a> {
    /// The encoding of columns.
    pub encoding: Encoding,
    /// The version of the server.
    pub version: &'a str,
}

/// LSP's `client/registerCapability`: the editor is asked to notify of changes of files that have
/// the name of a configuration.
#[derive(Clone, Copy)]
pub struct WatchRequest;

/// The start of a message of type `Error`, before its text.
const ERROR_START: &[u8] =
    b"{\"jsonrpc\":\"2.0\",\"method\":\"window/showMessage\",\"params\":{\"message\":";

/// The end of a message of type `Error`, after its text.
const ERROR_END: &[u8] = b",\"type\":1}}";

/// Returns the name of an encoding (LSP's `PositionEncodingKind`).
fn encoding_name(encoding: Encoding) -> &'static str
    ensures { result.now ≡ encoding_name encoding }
{
    match encoding {
        Encoding::Utf8 => "utf-8",
        Encoding::Utf16 => "utf-16",
        Encoding::Utf32 => "utf-32",
    }
}

impl Body for ErrorMessage<'_> {
    ghost use Rattle.json.specs.Print.{print};
    ghost use Rattle.json.specs.Tree.{json_tokens};
    ghost use Rattle.yl_lsp.specs.Messages.{error_message};

    ghost text = { λ m. print (json_tokens (error_message m.text.now)) };

    fn put<P: Pieces>(&self, to: &mut P) -> Result<(), WriteFault> {
        to.put(ERROR_START)?;
        put_text(to, self.text)?;
        to.put(ERROR_END)
    }
}

impl Body for PlacedError<'_> {
    ghost use Rattle.json.specs.Print.{print};
    ghost use Rattle.json.specs.Tree.{json_tokens};
    ghost use Rattle.yl_lsp.specs.Messages.{error_message, placed_words};

    ghost text = { λ m. print (json_tokens (error_message (placed_words m.text.now m.line m.column))) };

    fn put<P: Pieces>(&self, to: &mut P) -> Result<(), WriteFault> {
        let mut line = Buffer::new();
        let mut column = Buffer::new();
        put_parts(
            to,
            &[
                ERROR_START,
                b"\"",
                self.text.as_bytes(),
                b" at ",
                line.format(self.line).as_bytes(),
                b":",
                column.format(self.column).as_bytes(),
                b"\"",
                ERROR_END,
            ],
        )
    }
}

impl Body for InitializeResult<'_> {
    ghost use Rattle.json.specs.Print.{print};
    ghost use Rattle.json.specs.Tree.{json_tokens};
    ghost use Rattle.yl_lsp.specs.Messages.{initialize_result};

    ghost text = { λ r. print (json_tokens (initialize_result r.encoding r.version.now)) };

    fn put<P: Pieces>(&self, to: &mut P) -> Result<(), WriteFault> {
        put_parts(
            to,
            &[
                b"{\"capabilities\":{\"positionEncoding\":\"",
                encoding_name(self.encoding).as_bytes(),
                b"\",\"textDocumentSync\":{\"change\":2,\"openClose\":true,\"save\":true},\"workspace\":{\"workspaceFolders\":{\"changeNotifications\":true,\"supported\":true}}},\"serverInfo\":{\"name\":\"zutkrad\",\"version\":",
            ],
        )?;
        put_text(to, self.version)?;
        to.put(b"}}")
    }
}

impl Body for WatchRequest {
    ghost use Rattle.json.specs.Print.{print};
    ghost use Rattle.json.specs.Tree.{json_tokens};
    ghost use Rattle.yl_lsp.specs.Messages.{watch_request};

    ghost text = { λ _. print (json_tokens watch_request) };

    fn put<P: Pieces>(&self, to: &mut P) -> Result<(), WriteFault> {
        to.put(
            b"{\"id\":\"configurations\",\"jsonrpc\":\"2.0\",\"method\":\"client/registerCapability\",\"params\":{\"registrations\":[{\"id\":\"configurations\",\"method\":\"workspace/didChangeWatchedFiles\",\"registerOptions\":{\"watchers\":[{\"globPattern\":\"**/.yamllint\"},{\"globPattern\":\"**/.yamllint.yaml\"},{\"globPattern\":\"**/.yamllint.yml\"}]}}]}}",
        )
    }
}
