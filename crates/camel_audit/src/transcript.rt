use camel_rows::{Answer, CallEvent};
use std::marker::Model;

/// A call that is to be decided.
#[derive(Clone, Copy, Debug)]
pub struct Job {
    /// The call's number, from 0.
    pub call: u64,
    /// The call event.
    pub event: CallEvent,
}

/// A call that was decided.
#[derive(Clone, Copy, Debug)]
pub struct Entry {
    /// The call's number, from 0.
    pub call: u64,
    /// The call event.
    pub event: CallEvent,
    /// What was decided, and over how many updates.
    pub answer: Answer,
}

/// What one session answered, in its order. Contracts see the list of its entries.
#[derive(Debug, Drop)]
pub struct Transcript {
    /// The calls that the session decided, the first one first.
    pub entries: Vec<Entry>,
}

impl Model for Transcript {
    ghost use Rattle.std.specs.Prelude.{List};
    ghost use Rattle.camel_audit.specs.declared.transcript.Entry.{Entry};

    ghost Value = { List Entry };

    ghost view = { λ a. a.entries.items };
}
