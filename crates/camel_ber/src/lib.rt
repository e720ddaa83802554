//! Elements of BER, the basic encoding rules of ITU-T X.690, within the octets that hold them.
//!
//! [`series`] reads [`Octets`] as [`Element`]s, each with its identifier octets, its contents octets and its place.
//! Octets spell at most one list of elements, and those that spell none have a [`Fault`]: the first from left to right.
#![tactic(auto)]

mod element;
mod fault;
mod identifier;
mod length;
mod octets;

pub use element::{Element, series};
pub use fault::{Fault, FaultKind, ReadError};
pub use octets::Octets;
