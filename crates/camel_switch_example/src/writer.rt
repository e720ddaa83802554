use crate::caller::Latest;
use crate::change::Change;
use crate::map_error::MapError;
use camel_criteria::Refusal;
use camel_rows::Update;
use camel_vlr::{Of, StoreName, Vlr};
use crossbeam_channel::{Receiver, Sender};
use std::sync::Wait;

/// What the HLR has sent.
#[derive(Drop)]
pub struct Request {
    pub change: Change,
    /// Takes what the HLR is answered.
    pub reply: Sender<Result<(), MapError>>,
}

/// Carries requests out, and answers each, until nobody can send one any more.
pub(crate) fn run_writer<S: StoreName, R: Wait>(
    rt: &R,
    store: &mut Of<S, Vlr>,
    requests: &Receiver<Request>,
    receipts: &[Latest<S>],
) {
    for _ in rt.forever() {
        let Ok(Request { change, reply }) = requests.recv(rt) else {
            return;
        };
        let done = carry_out(rt, store, change, receipts);
        // Nobody waits for the answer if its receiver is gone.
        let _ = reply.send(rt, done.map_err(MapError::from));
    }
}

fn carry_out<S: StoreName, R: Wait>(
    rt: &R,
    store: &mut Of<S, Vlr>,
    change: Change,
    receipts: &[Latest<S>],
) -> Result<(), Refusal> {
    match change {
        Change::LocationUpdate(updates) => submit_all(store, updates)?,
        Change::One(update) => store.value.submit(update)?,
    };
    publish_to(rt, store, receipts)
}

/// Accepts all the updates of a location update, or none of them.
fn submit_all<S: StoreName>(store: &mut Of<S, Vlr>, updates: Vec<Update>) -> Result<u64, Refusal> {
    match store.value.submit_all(updates) {
        Ok(number) => Ok(number),
        Err(rejected) => Err(rejected.why),
    }
}

/// Publishes, and hands each caller the receipt, which takes no memory. So a call that is set up after the HLR was
/// answered finds a caller who learns of the change before it decides.
///
/// If memory is refused for the publication, the HLR is answered with a reject, and what is pending is dropped, so that
/// no later publication shows it. Dropping fails if the store's base, `left_right`, was handed what is pending, which
/// it keeps, or if memory is refused for it too. Then the next publication shows the change. The HLR may send it again:
/// what it leaves is the same a second time.
fn publish_to<S: StoreName, R: Wait>(
    rt: &R,
    store: &mut Of<S, Vlr>,
    receipts: &[Latest<S>],
) -> Result<(), Refusal> {
    if let Err(why) = store.value.publish(rt) {
        // If it can't be dropped, the next publication shows it.
        let _ = store.value.drop_pending();
        return Err(why);
    }
    for latest in receipts {
        *latest.lock(rt) = Some(Of::new(store.value.receipt()));
    }
    Ok(())
}
