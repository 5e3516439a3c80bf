//! The phases of a server.

/// A phase of a server. Each phase comes once, in this order.
#[derive(Clone, Copy, Debug, PartialEq, Eq)]
pub enum Phase {
    /// The server waits for `initialize`.
    Waiting,
    /// The server runs.
    Running,
    /// The server was asked to shut down.
    Stopped,
}
