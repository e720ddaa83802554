//! A switch around the store of `camel_vlr`, to be copied and changed: what stands between dialogues with the HLR,
//! threads of call control, and the store. In C it is `examples/switch.c`, in Rust `bindings/rust/examples/switch.rs`.
//!
//! - `switch.rt` opens the store, and runs the writer and the callers, each in a thread of its own ([`run_switch`]).
//! - `change.rt` makes a [`Change`] of the octets that the HLR sends, and `map_error.rt` says what it is answered if not.
//! - `writer.rt` takes such changes, publishes, hands receipts to the callers, and answers the HLR.
//! - `caller.rt` learns the latest receipt, and decides calls at their set-up. [`SetUp`] keeps what a later detection
//!   point needs.
//!
//! A receipt crosses to its caller as an `Of<S, Receipt>`. So the condition of `learn`, that the receipt is of the
//! session's store, is proved from the types, however many stores the program has.
#![tactic(auto)]

mod caller;
mod change;
mod map_error;
mod set_up;
mod switch;
#[cfg(test)]
mod tests;
mod writer;

pub use caller::Call;
pub use change::Change;
pub use map_error::MapError;
pub use set_up::SetUp;
pub use switch::{SwitchFault, run_switch};
pub use writer::Request;
