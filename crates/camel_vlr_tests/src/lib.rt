//! The tests of `camel_vlr`, which call it from outside, as its users do.
#![tactic(auto)]

#[cfg(test)]
mod bases;
#[cfg(test)]
mod closing;
#[cfg(test)]
mod fronts;
#[cfg(test)]
mod holders;
#[cfg(test)]
mod limits;
#[cfg(test)]
mod lives;
#[cfg(test)]
mod seeds;
#[cfg(test)]
mod threads;
#[cfg(test)]
mod together;
#[cfg(test)]
mod wait_free;
