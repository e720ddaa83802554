//! What is decided of a call event at a trigger detection point.

pub(crate) mod decision;
pub(crate) mod event;
pub(crate) mod laws;
pub(crate) mod outcome;
