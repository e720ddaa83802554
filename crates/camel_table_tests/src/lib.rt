//! The tests of `camel_table`, which call it from outside, as its users do: what its growth costs.
#![tactic(auto)]

#[cfg(test)]
mod growth;
