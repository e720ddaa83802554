//! The calls of a store that was opened for them, and of its session.

ghost use Rattle.std.specs.Prelude.{◌≡◌, Some};

use crate::attempts::{Refusals, again};
use crate::failure::Failure;
use crate::publications::{Next, publish};
use crate::sessions::{answer_all, close, look};
use crate::stage::{Stage, open};
use crate::workers::serve_jobs;
use camel_vlr::{Session, StoreName, Vlr};
use std::marker::Brand;
use std::sync::Wait;

/// A call, or several that take no memory, on a stage.
#[derive(Clone, Copy)]
pub(crate) enum StageCall {
    /// The publication of this number, from 1, and what comes next.
    Publish(u64, Next),
    Look,
    AnswerAll,
    Close,
    Serve,
}

/// Opens a stage, and makes a call there. The store is ended or closed then.
pub(crate) fn make_on_stage<R: AllocGlobal + Print + Wait>(
    rt: &R,
    refusals: &mut Refusals,
    call: StageCall,
) -> Result<(), Failure> {
    let (store, session) = again(&mut refusals.stage, || open(rt, rt.alloc()))?;
    make_of_store::<Brand, R>(rt, refusals, call, store, session)
}

// The proof of `make_on_stage` picks the store that `S` stands for: it is the one that was opened.
fn make_of_store<S: StoreName, R: AllocGlobal + Print + Wait>(
    rt: &R,
    refusals: &mut Refusals,
    call: StageCall,
    store: Vlr,
    session: Session,
) -> Result<(), Failure>
    requires store { S.store ≡ Some store.store }
    requires session { S.store ≡ Some session.store }
{
    let mut stage = Stage::<S>::new(store, session);
    let done = match call {
        StageCall::Publish(number, next) => publish(rt, refusals, &mut stage, number, next),
        StageCall::Look => look(rt, refusals, &mut stage),
        StageCall::AnswerAll => answer_all(rt, refusals, &mut stage),
        StageCall::Close => return close(rt, refusals, stage),
        StageCall::Serve => return serve_jobs(rt, refusals, stage),
    };
    stage.end(rt);
    done
}
