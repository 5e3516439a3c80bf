//! Applies changes to a text that is followed or is not.
ghost use Rattle.std.specs.Prelude.{◌≡◌, ◌≤◌, Bool, List, Ok, IfOk, length, map};
ghost use Rattle.yl_text.specs.Lines.{text_of};
ghost use Rattle.yl_text.specs.declared.TheConstants.{MAX_BYTES};
ghost use Rattle.yl_lsp.specs.Read.{change_value};
ghost use Rattle.yl_session.specs.State.{Shows};
ghost use Rattle.yl_workspace.specs.Changes.{changed_text, followed_if, text_after_change, text_after_changes, within_bounds};
ghost use Rattle.yl_workspace.specs.Documents.{text_judged};
ghost use Rattle.yl_workspace.specs.Shown.{text_value};
ghost use Rattle.yl_workspace.specs.Shown as spec;

use crate::Cause;
use yl_config::Config;
use yl_difference::Difference;
use yl_lsp::{Change, Range};
use yl_session::Session;
use yl_text::{LineStore, MAX_BYTES, TextFault};
use yl_units::{Encoding, place_of};

/// Returns the cause why a text is not followed after an edit failed with `fault`.
fn cause_of(fault: TextFault) -> Cause
    ensures { result ≡ spec.cause_of fault }
{
    match fault {
        TextFault::Memory => Cause::OutOfMemory,
        TextFault::TooLarge => Cause::TooLarge,
        TextFault::NotUtf8 { .. } | TextFault::Range => Cause::BadChange,
    }
}

/// Opens a session over a text. Returns the cause if the text cannot be followed.
pub(crate) fn opened_text<S: LineStore>(
    alloc: S::Alloc,
    config: Config,
    text: &str,
) -> Result<Session<S>, Cause>
    ensures shown { IfOk result (λ s. Shows config (text_of s.rows) s) }
    ensures text { (granted : Bool) × (text_value result ≡ followed_if granted (within_bounds text.now)) }
{
    match Session::open(alloc, config, text.as_bytes()) {
        Ok(session) => Ok(session),
        Err(fault) => Err(cause_of(fault)),
    }
}

/// Returns the session after an edit of the range that an editor names, or the cause if the edit
/// fails.
fn edited<S: LineStore>(
    mut session: Session<S>,
    encoding: Encoding,
    range: Range,
    new: &str,
) -> Result<Session<S>, Cause>
    ensures shown { IfOk result (λ s. Shows session.config (text_of s.rows) s) }
    ensures text { (granted : Bool) × (text_value result ≡ followed_if granted (changed_text encoding (text_of session.rows) range new.now)) }
{
    let from = place_of(encoding, session.lines(), range.start);
    let to = place_of(encoding, session.lines(), range.end);
    match session.edit(from, to, new.as_bytes()) {
        Ok(_) => Ok(session),
        Err(fault) => Err(cause_of(fault)),
    }
}

/// Returns the session after its text was replaced by `new`, by an edit of the range that differs.
fn replaced<S: LineStore>(
    alloc: S::Alloc,
    mut session: Session<S>,
    new: &str,
) -> Result<Session<S>, Cause>
    requires { length new.now ≤ MAX_BYTES }
    ensures shown { IfOk result (λ s. Shows session.config (text_of s.rows) s) }
    ensures text { (granted : Bool) × (text_value result ≡ followed_if granted (Ok new.now)) }
{
    let Ok(old) = session.text(alloc) else {
        return Err(Cause::OutOfMemory);
    };
    let Some(edit) = Difference::between(old.as_slice(), new) else {
        return opened_text(alloc, session.config(), new);
    };
    match session.edit(edit.from, edit.to, edit.text.as_bytes()) {
        Ok(_) => Ok(session),
        Err(fault) => Err(cause_of(fault)),
    }
}

/// Returns a text, followed or not, after it was replaced by `new`.
fn renewed<S: LineStore>(
    alloc: S::Alloc,
    config: Config,
    text: Result<Session<S>, Cause>,
    new: &str,
) -> Result<Session<S>, Cause>
    requires { IfOk text (λ s. Shows config (text_of s.rows) s) }
    ensures shown { IfOk result (λ s. Shows config (text_of s.rows) s) }
    ensures text { (granted : Bool) × (text_value result ≡ followed_if granted (within_bounds new.now)) }
{
    if new.len() > MAX_BYTES {
        return Err(Cause::TooLarge);
    }
    match text {
        Ok(session) => replaced(alloc, session, new),
        Err(_) => opened_text(alloc, config, new),
    }
}

/// Returns a text, followed or not, after a change.
fn changed<S: LineStore>(
    alloc: S::Alloc,
    config: Config,
    encoding: Encoding,
    text: Result<Session<S>, Cause>,
    change: Change<'_>,
) -> Result<Session<S>, Cause>
    requires { IfOk text (λ s. Shows config (text_of s.rows) s) }
    ensures shown { IfOk result (λ s. Shows config (text_of s.rows) s) }
    ensures text { (granted : Bool) × (text_value result ≡ text_after_change encoding granted (text_value text) (change_value change.entry)) }
{
    match change {
        Change::Whole(new) => renewed(alloc, config, text, new),
        Change::Within(range, new) => edited(text?, encoding, range, new),
        Change::Unread => Err(Cause::BadChange),
    }
}

/// Returns a text, followed or not, after the changes, applied in order.
pub(crate) fn changed_by_all<S: LineStore>(
    alloc: S::Alloc,
    config: Config,
    encoding: Encoding,
    mut text: Result<Session<S>, Cause>,
    changes: &[Change<'_>],
) -> Result<Session<S>, Cause>
    requires { IfOk text (λ s. Shows config (text_of s.rows) s) }
    ensures shown { IfOk result (λ s. Shows config (text_of s.rows) s) }
    ensures text { (grants : List Bool) × (text_value result ≡ text_after_changes encoding grants (text_value text) (map change_value changes.now)) }
{
    for change in changes {
        text = changed(alloc, config, encoding, text, *change);
    }
    text
}

/// Returns a text, followed or not, judged by this configuration.
pub(crate) fn judged_by<S: LineStore>(
    alloc: S::Alloc,
    config: Config,
    text: Result<Session<S>, Cause>,
) -> Result<Session<S>, Cause>
    ensures shown { IfOk result (λ s. Shows config (text_of s.rows) s) }
    ensures text { (granted : Bool) × (text_value result ≡ text_judged granted (text_value text)) }
{
    let session = text?;
    let Ok(bytes) = session.text(alloc) else {
        return Err(Cause::OutOfMemory);
    };
    drop(session);
    // The bytes are those of a text, so the only error is out of memory.
    match Session::open(alloc, config, bytes.as_slice()) {
        Ok(session) => Ok(session),
        Err(_) => Err(Cause::OutOfMemory),
    }
}
