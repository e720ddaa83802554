//! Answers calls in threads, and audits what was answered: whether a list of updates explains it (3GPP TS 23.078).
//!
//! [`serve`] is what a worker does, in a thread of its own: it learns a receipt, answers its jobs in their order, and
//! gives back the session and the transcript of what it answered. A [`Gate`] may hold it before each call, or stop it.
//! It takes no handle: it takes no lock, and waits only when its gate does.
//!
//! A transcript is what one session answered, in its order. Each answer says over how many updates it was decided.
//! [`audit`] decides each call once more, over that many updates, and says where an answer differs. Threads may each
//! take a [`Part`] of the subscribers ([`passes_in_part`]). An audit asks for no store, so a switch may audit logs of
//! its own.
#![tactic(auto)]

mod audit_fault;
mod checks;
mod gate;
mod laws;
mod one_pass;
mod part;
mod transcript;
mod worker;

pub use audit_fault::AuditFault;
pub use checks::audit;
pub use gate::{Gate, OpenGate};
pub use laws::parts_make_the_whole;
pub use one_pass::passes_in_part;
pub use part::Part;
pub use transcript::{Entry, Job, Transcript};
pub use worker::{Ended, Served, serve};
