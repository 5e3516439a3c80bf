//! Reads a configuration from the events of its document.
ghost use Rattle.std.specs.Prelude.{◌≡◌, ◌≤◌, length, map};
ghost use Rattle.yl_events.specs.Event.{event_value};
ghost use Rattle.yl_settings.specs.Item.{item_value};
ghost use Rattle.yl_config.specs.Document.{document_judgement, next_misfits, root_of};
ghost use Rattle.yl_config.specs.Answered.{settings_answer};
ghost use Rattle.yl_config.specs.Misfits.{earliest};

use crate::config::Config;
use crate::fault::{ConfigFault, fault_of};
use crate::misfit::MisfitKind;
use crate::reading::{Reading, read_root};
use yl_events::{Event, EventKind};
use yl_settings::{Item, first_item};
use yl_text::Pos;

/// Returns the root node of a document with these events. Returns an item of the kind
/// `DocumentEnd`, without a place, if there is none.
pub fn root_of<'a>(events: &[Event<'a>]) -> Item<'a>
    ensures root { item_value events.now result ≡ root_of (map event_value events.now) }
    ensures inside { result.inside ≤ length events.now }
{
    let none = Item {
        kind: EventKind::DocumentEnd,
        place: None,
        inside: events.len(),
    };
    match first_item(events, 0) {
        None => none,
        Some(document) => match first_item(events, document.item.inside) {
            None => none,
            Some(root) => root.item,
        },
    }
}

#[tactic(auto, unfolding(crate::specs::Misfits::earliest))]
impl Reading {
    /// Notes a second document as a misfit, if there is one. `next` is the position at which it
    /// begins.
    pub fn note_next(&mut self, next: Option<Pos>)
        ensures first { self.new.first ≡ earliest self.old.first (next_misfits next) }
        ensures config { self.new.config ≡ self.old.config }
    {
        match next {
            None => {}
            Some(place) => self.note_key(MisfitKind::NotAMapping, place),
        }
    }
}

impl Config {
    /// Returns the configuration in a document with these events, or its fault. `events` is empty
    /// if there is no document. `next` is the position at which a second document begins, if there
    /// is one. Its line and its column count from 0.
    ///
    /// The fault is the first misfit in the text. Of two misfits at one position, the fault is the
    /// one that comes first among `NotAMapping`, `UnknownKey`, `UnknownRule`, `UnknownOption`,
    /// `BadValue`, `BadLevel` and `UnknownExtends`.
    pub fn of_document(events: &[Event<'_>], next: Option<Pos>) -> Result<Config, ConfigFault>
        ensures { settings_answer result ≡ document_judgement (map event_value events.now) next }
    {
        let root = root_of(events);
        let mut reading = read_root(events, &root);
        reading.note_next(next);
        match reading.first {
            Some(misfit) => Err(fault_of(misfit)),
            None => Ok(reading.config),
        }
    }
}
