//! The subscriber data of a visitor location register (3GPP TS 23.078, CAMEL phase 3), shared by one writer and many
//! sessions.
//!
//! This is *left-right* publication: of two copies sessions look at one while the writer changes the other, and a
//! publication exchanges them. A look takes no lock, does not wait and takes no memory. A session has *monotonic
//! reads*: the front of each look, the list of the updates that it shows, extends that of each look before. It has
//! *read-your-writes* by receipts: a publication gives one, and a session that learns it sees at least that front from
//! then on.
//!
//! The writer's loop has the [`Vlr`] to itself, and answers the HLR once the update is published:
//!
//! ```text
//! store.submit(update)?;
//! let receipt = store.publish(rt)?;   // to be sent to the sessions that have to see the update
//! ```
//!
//! The reader's loop, in a thread of its own, has one [`Session`] of those that [`Vlr::open`] gives:
//!
//! ```text
//! session.learn(receipt);             // if one has come
//! let Ok(look) = session.look() else { .. };
//! let outcome = Outcome::of(&look.decide(&event));
//! look.leave();
//! ```
//!
//! The trigger rules are those of the profile with which the store was opened. A [`Look`] shows one front as long as it
//! is held, and what it lends ends with it. A held look lets the next publication go through, and stalls the second one
//! after it, and with it the writer: keep of a decision what is needed, as `camel_rows::Outcome` does, and leave the
//! look. Calls that may wait take a handle that is `Wait`: what their clauses say holds if they return, and that they
//! return is not proved.
#![tactic(auto)]

mod base;
mod history;
mod of_store;
mod published_copy;
mod receipt;
mod session;
mod writer;

pub use of_store::{HasStore, Of, StoreName};
pub use receipt::Receipt;
pub use session::Session;
pub use session::look::{Look, NoLook};
pub use two_copies::Unpublished;
pub use writer::closing::CloseRefused;
pub use writer::group::Rejected;
pub use writer::wait_free::{Closing, WaitFreeLook, WaitFreeSession, WaitFreeVlr};
pub use writer::{MAX_PLACES, MAX_UPDATES, Vlr};
