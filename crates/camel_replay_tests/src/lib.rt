//! What the scripts of `tests/`, beside the crates, do not show of `camel_script`, `camel_audit` and
//! `camel_replay_lib`, which are called from outside here, as their users do: gates, a flush that fails, and the
//! texts of errors.
#![tactic(auto)]

#[cfg(test)]
mod flush;
#[cfg(test)]
mod gated;
#[cfg(test)]
mod texts;
