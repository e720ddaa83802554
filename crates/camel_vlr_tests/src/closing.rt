//! The end of a store whose writer waits, and what its session sees then.

ghost use Rattle.std.specs.Prelude.{◌≡◌};

use crate::bases::opened;
use camel_criteria::Refusal;
use camel_fixtures::{call_of, imsi_of};
use camel_rows::{CallEvent, Outcome, Reason, Update};
use camel_tbcd::Imsi;
use camel_vlr::{CloseRefused, NoLook, Session, Vlr};
use std::alloc::Global;
use std::sync::Wait;
use std::test::Fail;

// How many subscribers a store leaves that is closed.
fn left_by<R: Wait>(rt: &R, store: Vlr, session: &mut Session) -> Option<usize>
    requires { session.old.store ≡ store.store }
{
    match store.close(rt, session) {
        Ok(records) => Some(records.len()),
        Err(CloseRefused { store, why: _why }) => {
            store.end(rt);
            None
        }
    }
}

// A subscriber is published, and its end is pending.
fn with_pending_cancel<R: Wait>(rt: &R, store: &mut Vlr, imsi: Imsi) -> Result<(), Refusal>
    ensures { store.new.store ≡ store.old.store }
{
    store.submit(Update::Register { imsi })?;
    store.publish(rt)?;
    store.submit(Update::Cancel { imsi })?;
    Ok(())
}

// Whether a session whose store has ended has no look, or one at the last front.
fn is_last(session: &mut Session, call: &CallEvent) -> bool {
    match session.answer(call) {
        Ok(answer) => answer.front == 1 && answer.outcome == Outcome::NoTrigger(Reason::NoCsi),
        Err(NoLook) => true,
    }
}

// How many subscribers a store leaves that is closed, and whether its session sees the last front then, if any.
fn left_by_new<R: Wait>(
    rt: &R,
    alloc: Global,
    imsi: Imsi,
    call: &CallEvent,
) -> Result<(Option<usize>, bool), Refusal> {
    let (mut store, mut session, _other) = opened(rt, alloc)?;
    let sent = with_pending_cancel(rt, &mut store, imsi);
    let left = left_by(rt, store, &mut session);
    sent?;
    Ok((left, is_last(&mut session, call)))
}

// Whether the session of a store that has ended sees the last front, if any.
fn outlives_new<R: Wait>(
    rt: &R,
    alloc: Global,
    imsi: Imsi,
    call: &CallEvent,
) -> Result<bool, Refusal> {
    let (mut store, mut session, _other) = opened(rt, alloc)?;
    let sent = with_pending_cancel(rt, &mut store, imsi);
    store.end(rt);
    sent?;
    Ok(is_last(&mut session, call))
}

#[test]
fn closing_gives_the_published_records_and_drops_what_is_pending(
    rt: HostRuntime,
) -> Result<(), Fail> {
    let imsi = imsi_of(1)?;
    assert!(rt; left_by_new(&rt, rt.alloc(), imsi, &call_of(imsi)?)? == (Some(1), true));
    Ok(())
}

#[test]
fn a_session_outlives_its_ended_store(rt: HostRuntime) -> Result<(), Fail> {
    let imsi = imsi_of(1)?;
    assert!(rt; outlives_new(&rt, rt.alloc(), imsi, &call_of(imsi)?)?);
    Ok(())
}
