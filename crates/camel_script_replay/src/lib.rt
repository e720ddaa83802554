//! Scripts of subscriber data updates and calls, replayed on one thread.
//!
//! - [`replay`] reads a record, answers it over its store, writes the record's line, and only then reads the next one.
//! - [`Store`] is the subscriber data of one thread: a call is decided over the published updates, and an update is
//!   pending until the next `publish`.
//! - [`published_fronts`] is a law of every replay: what is published is a front, and only grows.
//!
//! Which records the bytes of a script give, and the text of each line, is stated in `camel_script`; the output of all
//! records is stated in `specs/Output.antt`. The contracts state the output over a reader and a writer whose bytes a
//! contract knows, as slices and vectors. What a file, a pipe or a terminal gives and takes, no contract can say.
#![tactic(auto)]

mod laws;
mod script_replay;
mod store;
mod update_list;
mod write;

pub use laws::published_fronts;
pub use script_replay::{MAX_LIMIT, MAX_RECORDS, ReplayFault, WRITE_FAULT, replay};
pub use store::Store;
pub use write::{WriteFault, write_all};
