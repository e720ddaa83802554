//! The tests of `two_copies`, which call it from outside, as its users do.
#![tactic(auto)]

#[cfg(test)]
mod ending;
#[cfg(test)]
mod freeing;
#[cfg(test)]
mod held_looks;
#[cfg(test)]
mod holders;
#[cfg(test)]
mod looking;
#[cfg(test)]
mod places;
#[cfg(test)]
mod refusals;
#[cfg(test)]
mod sum;
#[cfg(test)]
mod threads;
