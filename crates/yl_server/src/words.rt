//! The messages for users.

/// Memory ran out.
pub(crate) const MEMORY: &str = "out of memory";

/// A body is not JSON.
pub(crate) const NO_JSON: &str = "the message is no JSON";

/// A body is not a request and not a notification.
pub(crate) const NO_REQUEST: &str = "the message is no request and no notification";

/// A request came before `initialize`.
pub(crate) const WAITING: &str = "the server waits for initialize";

/// A second `initialize` came.
pub(crate) const INITIALIZED: &str = "the server is initialized";

/// A request came after `shutdown`.
pub(crate) const STOPPED: &str = "the server is shut down";

/// A request has an unknown method.
pub(crate) const UNKNOWN: &str = "the server has no such method";

/// The params of `initialize` are not an object.
pub(crate) const PARAMS: &str = "the params are no object";
