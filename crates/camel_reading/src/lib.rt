//! Lists that are read item by item, up to the first fault, whatever the fault is.
#![tactic(auto)]

mod fault;
mod lists;

pub use fault::Fault;
pub use lists::{read_each, read_into};
