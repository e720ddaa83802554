ghost use Rattle.std.specs.Prelude.{◌≡◌, ◌≤◌, All, Some};
ghost use Rattle.camel_vlr.specs.Store.{fresh_session};

use crate::caller::{Call, decide_calls};
use crate::writer::{Request, run_writer};
use camel_criteria::Refusal;
use camel_tbcd::Profile;
use camel_vlr::{MAX_PLACES, MAX_UPDATES, Of, Session, StoreName, Vlr};
use crossbeam_channel::Receiver;
use std::alloc::{AllocError, AllocFailed, Global};
use std::marker::Brand;
use std::random::RandomSource;
use std::sync::{Arc, Mutex, Wait};
use std::thread;
use std::thread::Threads;

/// Why a switch does not run.
#[derive(Clone, Copy, Debug, PartialEq, Eq)]
pub enum SwitchFault {
    /// The store was not opened, or memory was refused.
    Refused(Refusal),
    /// The system did not start a thread.
    NoThread,
}

impl From<Refusal> for SwitchFault {
    fn from(refusal: Refusal) -> SwitchFault {
        SwitchFault::Refused(refusal)
    }
}

impl From<AllocError> for SwitchFault {
    fn from(_error: AllocError) -> SwitchFault {
        SwitchFault::Refused(Refusal::OutOfMemory)
    }
}

impl<T: Drop> From<AllocFailed<T>> for SwitchFault {
    fn from(_error: AllocFailed<T>) -> SwitchFault {
        SwitchFault::Refused(Refusal::OutOfMemory)
    }
}

/// Opens a store with so many sessions (1 to 64), and runs a caller for each session, in a thread of its own, and the
/// writer in this one, until nobody can send a request or a call any more. Then it ends the store.
///
/// It fails if the store is not opened, if memory is refused, or if a thread is not started. Then it takes no request,
/// and it waits for the threads that were started, which answer calls until nobody can send one any more.
pub fn run_switch<R: RandomSource + Threads + Wait + Sync>(
    rt: &R,
    alloc: Global,
    sessions: usize,
    requests: Receiver<Request>,
    calls: Receiver<Call>,
) -> Result<(), SwitchFault>
    requires { (1 ≤ sessions) × (sessions ≤ MAX_PLACES) }
{
    let (store, sessions) = Vlr::open(rt, alloc, sessions, MAX_UPDATES, Profile::One)?;
    run_store::<Brand, R>(rt, alloc, store, sessions, requests, calls)
}

/// Runs the threads of this store, and ends it. From here on `S` stands for this store in the types.
fn run_store<S: StoreName, R: Threads + Wait + Sync>(
    rt: &R,
    alloc: Global,
    store: Vlr,
    sessions: Vec<Session>,
    requests: Receiver<Request>,
    calls: Receiver<Call>,
) -> Result<(), SwitchFault>
    requires store { S.store ≡ Some store.store }
    requires sessions { All (λ session. session ≡ fresh_session store.store) sessions.items }
{
    let mut store = Of::<S, Vlr>::new(store);
    let done = match Of::<S, Session>::list(alloc, sessions) {
        Ok(sessions) => run_threads(rt, alloc, &mut store, sessions, requests, calls),
        Err(why) => Err(why.into()),
    };
    store.value.end(rt);
    done
}

/// Runs a caller for each session, and the writer, until they end.
fn run_threads<S: StoreName, R: Threads + Wait + Sync>(
    rt: &R,
    alloc: Global,
    store: &mut Of<S, Vlr>,
    sessions: Vec<Of<S, Session>>,
    requests: Receiver<Request>,
    calls: Receiver<Call>,
) -> Result<(), SwitchFault> {
    thread::scope(
        thread::scope_env(),
        rt,
        |scope| -> Result<(), SwitchFault> {
            let mut receipts = Vec::new(alloc);
            for session in sessions {
                let latest = Arc::new(alloc, Mutex::new(None))?;
                receipts.push(Arc::try_clone(&latest)?)?;
                let (mut session, calls) = (session, calls.clone()?);
                let thread = scope.spawn(move || decide_calls(rt, &mut session, &latest, &calls));
                if thread.is_err() {
                    return Err(SwitchFault::NoThread);
                }
            }
            run_writer(rt, store, &requests, &receipts);
            Ok(())
        },
    )
}
