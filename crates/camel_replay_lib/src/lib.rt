//! The library of the program `camel_replay`, which replays a script of subscriber data updates and calls.
//!
//! - [`run`] is the whole program but for its streams: it reads the options of the command line, replays the script
//!   that its reader gives, and returns the status. A fault is a line on standard error.
//! - [`replay_threads`] is the replay with threads: sessions of a shared store answer the calls, each in a thread of
//!   its own, beside the writer, and what they answered is audited before a line is written. Its workers and its audit
//!   are those of `camel_audit`, which is also for switches that replay nothing.
//!
//! The replay on one thread is that of `camel_script_replay`, whose public items are here too. The output with threads
//! is stated in `specs/ThreadsOutput.antt`, and the contracts of `replay_threads` and `run` state it over a reader and
//! a writer whose bytes a contract knows, as slices and vectors. What a file, a pipe or a terminal gives and takes, no
//! contract can say.
#![tactic(auto)]

mod command;
mod threaded_replay;

pub use camel_audit::{
    AuditFault, Ended, Entry, Gate, Job, OpenGate, Served, Transcript, audit, serve,
};
pub use camel_script_replay::{
    MAX_LIMIT, MAX_RECORDS, ReplayFault, Store, WRITE_FAULT, WriteFault, published_fronts, replay,
    write_all,
};
pub use command::words::{MAX_THREADS, options};
pub use command::{FAULT_STATUS, Options, REJECTED_STATUS, run};
pub use threaded_replay::replay_threads;
