use crate::set_up::SetUp;
use camel_criteria::Refusal;
use camel_rows::CallEvent;
use camel_vlr::{Of, Receipt, Session, StoreName};
use crossbeam_channel::{Receiver, Sender};
use std::alloc::Global;
use std::sync::{Arc, Mutex, Wait};

/// One receipt on its way to a caller: the writer puts it there, and the caller takes it. A later one says more.
pub(crate) type Latest<S> = Arc<Mutex<Option<Of<S, Receipt>>>, Global>;

/// A call that is set up.
#[derive(Drop)]
pub struct Call {
    /// Its event at DP 2 or DP 12.
    pub event: CallEvent,
    /// Takes what is decided.
    pub reply: Sender<Result<SetUp, Refusal>>,
}

/// A call-control thread: it decides calls, which such threads share, until nobody can send one any more. It takes no
/// lock of the store, and waits for the writer only while that puts a receipt there.
pub(crate) fn decide_calls<S: StoreName, R: Wait>(
    rt: &R,
    session: &mut Of<S, Session>,
    latest: &Latest<S>,
    calls: &Receiver<Call>,
) {
    for _ in rt.forever() {
        let Ok(call) = calls.recv(rt) else {
            return;
        };
        let receipt = latest.lock(rt).take();
        if let Some(receipt) = receipt {
            session.value.learn(receipt.value);
        }
        // Nobody waits for the call if its receiver is gone.
        let _ = call
            .reply
            .send(rt, SetUp::of(&mut session.value, &call.event));
    }
}
