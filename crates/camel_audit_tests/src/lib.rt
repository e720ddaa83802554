//! The tests of `camel_audit`, which call it from outside, as its users do.
#![tactic(auto)]

#[cfg(test)]
mod faults;
#[cfg(test)]
mod parts;
#[cfg(test)]
mod serving;
#[cfg(test)]
mod transcripts;
