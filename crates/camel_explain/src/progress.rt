//! How far a long run is, on standard error.

use std::rt::Clock;
use std::time::{Duration, Instant};

/// After how many records the clock is read.
const BETWEEN: u64 = 8192;

/// Says once a second how many records were read, if it is to be said.
#[derive(Drop)]
pub(crate) struct Progress {
    next: Option<Instant>,
    has_said: bool,
}

impl Progress {
    /// Begins; a clock that can't be read says nothing.
    pub(crate) fn new(rt: &HostRuntime, is_said: bool) -> Progress {
        let now = if is_said { Instant::now(rt).ok() } else { None };
        Progress {
            next: now.and_then(|now| now.checked_add(Duration::from_secs(1))),
            has_said: false,
        }
    }

    /// Says how many records were read, if a second has gone by.
    pub(crate) fn tick(&mut self, rt: &HostRuntime, records: u64) {
        if records % BETWEEN != 0 {
            return;
        }
        let (Some(next), Ok(now)) = (self.next, Instant::now(rt)) else {
            return;
        };
        if now < next {
            return;
        }
        let _ = eprint!(rt; "\r{records} records");
        self.has_said = true;
        self.next = now.checked_add(Duration::from_secs(1));
    }

    /// Takes what was said off the line.
    pub(crate) fn end(&self, rt: &HostRuntime) {
        if self.has_said {
            let _ = eprint!(rt; "\r\x1b[K");
        }
    }
}
