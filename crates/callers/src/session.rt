//! `yl_session`: a text that is kept open and edited, with its report.

ghost use Rattle.std.specs.Prelude.{◌≡◌, false, IfOk, OnErr, OnOk};
ghost use Rattle.yl_text.specs.Edit.{edited_text};
ghost use Rattle.yl_report.specs.Report.{status_of};
ghost use Rattle.yl_session.specs.State.{Shows};

use yl_session::Session;
use yl_text::{LineStore, Pos, TextFault};

/// Types these bytes at a place of an open text, and answers the status of the text then.
pub fn type_at<S: LineStore>(
    session: &mut Session<S>,
    place: Pos,
    bytes: &[u8],
) -> Result<u8, TextFault>
    ensures shown { OnOk result (Shows session.old.config (edited_text session.old.rows place place bytes.now) session.new) }
    ensures status { IfOk result (λ status. status ≡ status_of session.new.problems false) }
    ensures refused { OnErr result (session.new ≡ session.old) }
{
    session.edit(place, place, bytes)?;
    Ok(session.status(false))
}
