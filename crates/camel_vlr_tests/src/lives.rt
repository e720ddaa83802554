//! That the calls of a store and of its sessions succeed, over both bases. What they give then is their contracts.

use crate::bases::{AnySession, AnyStore, Counts, Shown};
use camel_criteria::Refusal;
use camel_fixtures::{ARMED, LISTED, call_of, criteria_update, imsi_of, triggered};
use camel_rows::{Answer, CallEvent, Outcome, Reason, Update};
use camel_tbcd::{Imsi, Profile};
use camel_vlr::{Vlr, WaitFreeVlr};
use std::alloc::Global;
use std::test::Fail;

// The subscriber registers, and is sent a row and an entry.
fn located(alloc: Global, imsi: Imsi) -> Result<Vec<Update>, Refusal> {
    let mut updates = Vec::new(alloc);
    updates.push(Update::Register { imsi })?;
    updates.push(criteria_update(alloc, imsi)?)?;
    Ok(updates)
}

// How many updates a store has accepted once it took these together. Those before them were dropped.
fn accepted<R, W: AnyStore<R>>(store: &mut W, imsi: Imsi, updates: Vec<Update>) -> Option<u64> {
    store.accept_and_drop(Update::Register { imsi }).ok()?;
    store.accept_and_drop(Update::ClearAll).ok()?;
    store.accept_all(updates).ok()
}

/// What a session answers before a publication, the front that is published, and what a look shows then.
type Seen = (Option<Answer>, Option<u64>, Option<Shown>);

// The session learns nothing.
fn seen<R, W: AnyStore<R>>(
    rt: &R,
    store: &mut W,
    session: &mut W::Session,
    imsi: &Imsi,
    call: &CallEvent,
) -> Seen {
    let before = session.answered(call);
    let front = store.published_front(rt);
    (before, front, session.shown(imsi, call))
}

/// What a store comes to: what it accepts together, what is seen of that, its counts, its session's profile, and
/// whether calls are answered together.
type Life = (Option<u64>, Seen, Counts, Profile, Result<(), Refusal>);

fn life<R, W: AnyStore<R>>(
    rt: &R,
    alloc: Global,
    imsi: Imsi,
    answers: &mut Vec<Answer>,
) -> Result<Life, Fail> {
    let call = call_of(imsi)?;
    let updates = located(alloc, imsi)?;
    let (mut store, mut session, _other) = W::opened(rt, alloc)?;
    let accepted = accepted(&mut store, imsi, updates);
    let seen = seen(rt, &mut store, &mut session, &imsi, &call);
    let counts = store.counts();
    let profile = session.own_profile();
    let all_answered = session.all_answered(&[call, call], answers);
    store.ended(rt);
    Ok((accepted, seen, counts, profile, all_answered))
}

fn wanted() -> Result<Life, Refusal> {
    let before = Answer {
        front: 0,
        outcome: Outcome::NoTrigger(Reason::Unknown),
    };
    let stored = Some((Some(ARMED), Some(LISTED)));
    let shown = (2, triggered()?, Some(ARMED), Some(LISTED), stored);
    let seen = (Some(before), Some(2), Some(shown));
    let counts = (2, 0, 1, Profile::One);
    Ok((Some(2), seen, counts, Profile::One, Ok(())))
}

fn is_as_wanted<R, W: AnyStore<R>>(rt: &R, alloc: Global) -> Result<bool, Fail> {
    let mut answers = Vec::new(alloc);
    let life = life::<R, W>(rt, alloc, imsi_of(1)?, &mut answers)?;
    let service = Answer {
        front: 2,
        outcome: triggered()?,
    };
    Ok(life == wanted()? && answers.as_slice() == [service, service].as_slice())
}

#[test]
fn what_is_published_is_seen_over_both_bases(rt: HostRuntime) -> Result<(), Fail> {
    assert!(rt; is_as_wanted::<HostRuntime, Vlr>(&rt, rt.alloc())?);
    assert!(rt; is_as_wanted::<HostRuntime, WaitFreeVlr>(&rt, rt.alloc())?);
    Ok(())
}
