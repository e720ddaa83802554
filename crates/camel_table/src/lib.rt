//! A table from IMSIs to values that finds a value in few places of memory, and grows a bucket at a time.
#![tactic(auto)]

mod addressing;
mod bucket;
mod entry;
mod seed;
mod segments;
mod table;
mod tags;

pub use seed::Seed;
pub use table::Table;
