//! The arguments of the MAP operations by which an HLR changes subscriber data (3GPP TS 29.002), decoded from their
//! octets and encoded: InsertSubscriberData, DeleteSubscriberData and CancelLocation.
//!
//! [`decode`] gives the [`Arrival`] that an argument brings, with its [`Update`](camel_rows::Update), or the first
//! fault with its place. [`encode`] appends the octets of the argument that says an update, and [`encode_record`] those
//! of the Insert that makes a record. TCAP and the dialogue that an argument comes in are the caller's.
#![tactic(auto)]

mod argument;
mod arrival;
mod cancel;
mod criteria;
mod delete;
mod encoding;
mod entry;
mod field;
mod imsi;
mod insert;
mod item;
mod items;
mod join;
mod map_fault;
mod operation;
mod reading;
mod row;
mod tag;
mod value;

pub use argument::decode;
pub use arrival::{Arrival, CapabilityHandling, ItemCounts};
pub use encoding::encode;
pub use encoding::record::encode_record;
pub use encoding::writer::MAX_ARGUMENT_OCTETS;
pub use join::JoinFault;
pub use map_fault::{MapFault, MapFaultKind};
pub use operation::Operation;
