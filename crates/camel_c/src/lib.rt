//! The store of `camel_vlr` for switches in C and Rust: a static library.
//!
//! C keeps stores, sessions, records of subscribers, updates and lists of IMSIs by handles, and a [`CamelHandle`] says
//! what one is. A call returns 0 if it did what it says, and else the number of a [`Failure`], of a fault of the data
//! that were passed, or of the reason why updates are not joined: then nothing is changed, unless the call says
//! otherwise.
//!
//! What no check reaches, the caller owes: a handle is empty, that is all zeros, or as a call left it; one call at a
//! time takes a handle, and none takes the same one twice; pointers are not null; and `malloc`, `realloc` and `free`
//! are those of one allocator. A handle may go to another thread.
#![tactic(auto)]

mod data;
mod failure;
mod handle;
mod imsis;
mod layouts;
mod object;
mod session;
mod store;
mod subscriber;
mod update;

pub use data::CamelArgument;
pub use failure::Failure;
pub use handle::CamelHandle;
pub use update::CamelUpdateParts;
