//! Sessions over either store, their edits, and configurations. These functions have no contracts,
//! so that a call of one brings in none of a session's contracts.
use std::alloc::Global;
use yl_config::{Config, ConfigFault};
use yl_session::{Session, Work};
use yl_text::{LineStore, Pos, TextFault};

/// Opens a session over a text under the standard configuration.
pub fn opened<S: LineStore>(alloc: S::Alloc, text: &[u8]) -> Result<Session<S>, TextFault> {
    Session::open(alloc, Config::standard(), text)
}

/// Replaces the range between two positions by these bytes.
pub fn edit<S: LineStore>(
    session: &mut Session<S>,
    from: Pos,
    to: Pos,
    bytes: &[u8],
) -> Result<Work, TextFault> {
    session.edit(from, to, bytes)
}

/// Replaces the lines `a..b`, counted from 0, by these bytes. The edit is one of the range between
/// the starts of the lines `a` and `b`.
pub fn edit_lines<S: LineStore>(
    session: &mut Session<S>,
    a: u32,
    b: u32,
    bytes: &[u8],
) -> Result<Work, TextFault> {
    edit(
        session,
        Pos { line: a, col: 0 },
        Pos { line: b, col: 0 },
        bytes,
    )
}

/// Returns the fault of these bytes as a configuration, if they have one.
pub fn config_fault(alloc: Global, bytes: &[u8]) -> Option<ConfigFault> {
    Config::read(alloc, bytes).err()
}
