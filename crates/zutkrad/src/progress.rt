//! Shows the progress of a long run on a terminal.
use std::io::{IsTerminal, Write};
use std::time::{Duration, Instant};

// The time, in milliseconds, before the first number is shown.
const PATIENCE: u64 = 1000;

// The time, in milliseconds, between two numbers.
const PAUSE: u64 = 100;

/// A line on standard error that shows a number of files. There is none if standard error is not a
/// terminal.
pub struct Progress<'a> {
    rt: &'a HostRuntime,
    // The time at which the run started or the last number was shown.
    since: Option<Instant>,
    is_shown: bool,
}

impl Drop for Progress<'_> {
    fn drop(self) {
        let Progress {
            rt: _,
            since: _,
            is_shown: _,
        } = self;
    }
}

impl<'a> Progress<'a> {
    /// Creates a progress line. It is not shown yet.
    pub fn new(rt: &'a HostRuntime) -> Progress<'a> {
        let since = if rt.stderr().is_terminal() {
            Instant::now(rt).ok()
        } else {
            None
        };
        Progress {
            rt,
            since,
            is_shown: false,
        }
    }

    // Returns `true` if it is time for the next number.
    fn is_due(&self, now: Instant, since: Instant) -> bool {
        let pause = if self.is_shown { PAUSE } else { PATIENCE };
        now.duration_since(since) >= Duration::from_millis(pause)
    }

    /// Shows the number of files, if it is time.
    pub fn tell(&mut self, files: u64) {
        let (Some(since), Ok(now)) = (self.since, Instant::now(self.rt)) else {
            return;
        };
        if self.is_due(now, since) {
            let mut out = self.rt.stderr();
            let _ = write!(out, "\r\x1b[2K{files} files");
            self.since = Some(now);
            self.is_shown = true;
        }
    }

    /// Clears the line, before something else is printed.
    pub fn clear(&mut self) {
        if self.is_shown {
            let mut out = self.rt.stderr();
            let _ = write!(out, "\r\x1b[2K");
            self.is_shown = false;
        }
    }
}
