//! Laws of the events of rows. No function here does anything.
ghost use Rattle.yl_pieces.specs.Events.{EventsAreBelow, EventsAreJoined, EventsOfSection, StartEventsAreBelow};

/// A law: rows and the rows after them, none of which has a fault, tell the events that the former
/// do, and then those that the latter do by the state between.
pub fn events_are_joined()
    ensures { EventsAreJoined }
{}

/// Laws: the same rows so many lines further down tell the same events, so many lines below. They
/// begin below line 0, in which the latest lexeme above them stands (`rows`), or at a document's
/// start, where none stands above them (`start`).
pub fn events_are_below()
    ensures rows { EventsAreBelow }
    ensures start { StartEventsAreBelow }
{}

/// A law: the events of a section's document that has no fault, without their anchors, are its
/// start, those of its rows from the state at a document's start, and those of its end by the state
/// after them.
pub fn events_of_section()
    ensures { EventsOfSection }
{}
