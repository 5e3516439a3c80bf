//! Laws of the machine. A server sends exactly what the machine sends, so they hold for a server
//! too.
ghost use Rattle.yl_server.specs.Laws.{AreAnswered, AreLostForCause, AreShown};

/// A law: each request has one response, and so has each body that is not a message of JSON-RPC.
/// The responses are sent in order.
pub fn one_answer_to_a_request()
    ensures { AreAnswered }
{}

/// A law: the last publication for an open document shows what is found in the document as it is
/// now, and a document that was closed was cleared.
pub fn documents_are_shown()
    ensures { AreShown }
{}

/// A law: the text of an open document is lost only after an event that may lose it for that cause.
pub fn texts_are_lost_for_a_cause()
    ensures { AreLostForCause }
{}
