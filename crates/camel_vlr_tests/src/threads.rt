//! Publications beside sessions in threads of their own, over both bases.

use crate::bases::{AnySession, AnyStore, LIMIT};
use camel_criteria::Refusal;
use camel_fixtures::{call_of, imsi_of};
use camel_rows::{CallEvent, Outcome, Reason, Update};
use camel_tbcd::Imsi;
use camel_vlr::{Vlr, WaitFreeVlr};
use std::alloc::Global;
use std::sync::atomic::{AtomicBool, AtomicU64, Ordering};
use std::test::Fail;
use std::thread;
use std::thread::Threads;

fn waits_for(is_so: &AtomicBool) {
    for _ in 0..u64::MAX {
        if is_so.load(Ordering::SeqCst) {
            return;
        }
        thread::yield_now();
    }
}

// The front of a look; None if there is no look.
fn front_of<S: AnySession>(session: &mut S) -> Option<u64> {
    session.hold();
    let front = session.held_front();
    session.let_go();
    front
}

// Whether a session sees the front before a publication of two updates, or the one after it, and nothing else, until
// the publication has returned. Then it looks once more: the front is the one after it.
fn sees_both<S: AnySession>(session: &mut S, has_published: &AtomicBool) -> bool {
    for _ in 0..u64::MAX {
        let is_last = has_published.load(Ordering::SeqCst);
        let front = front_of(session);
        if is_last {
            return front == Some(2);
        }
        if front != Some(0) && front != Some(2) {
            return false;
        }
        thread::yield_now();
    }
    false
}

// Both sessions look before the publication, and one holds its look until the publication has returned. Whether both
// see the front before it, and then the one after it, though they learn nothing.
fn watches<S: AnySession>(
    first: &mut S,
    second: &mut S,
    is_held: &AtomicBool,
    has_published: &AtomicBool,
) -> bool {
    let before = front_of(second);
    first.hold();
    let held = first.held_front();
    is_held.store(true, Ordering::SeqCst);
    let sees_both = sees_both(second, has_published);
    let held_still = first.held_front();
    let after = front_of(first);
    (before, held, held_still, after) == (Some(0), Some(0), Some(0), Some(2)) && sees_both
}

// Publishes once the look is held.
fn publishes<R, W: AnyStore<R>>(
    rt: &R,
    store: &mut W,
    is_held: &AtomicBool,
    has_published: &AtomicBool,
) -> Option<u64> {
    waits_for(is_held);
    let front = store.published_front(rt);
    has_published.store(true, Ordering::SeqCst);
    front
}

fn is_seen_whole<R: Threads + Sync, W: AnyStore<R>>(
    rt: &R,
    store: &mut W,
    first: &mut W::Session,
    second: &mut W::Session,
) -> bool {
    let (is_held, has_published) = (AtomicBool::new(false), AtomicBool::new(false));
    thread::join(
        rt,
        || watches(first, second, &is_held, &has_published),
        || publishes(rt, store, &is_held, &has_published),
    ) == (true, Some(2))
}

fn two_are_seen_whole<R: Threads + Sync, W: AnyStore<R>>(
    rt: &R,
    alloc: Global,
) -> Result<bool, Fail> {
    let (imsi, other) = (imsi_of(1)?, imsi_of(2)?);
    let (mut store, mut first, mut second) = W::opened(rt, alloc)?;
    let one = store.accept(Update::Register { imsi });
    let two = store.accept(Update::Register { imsi: other });
    let is_whole = is_seen_whole(rt, &mut store, &mut first, &mut second);
    store.ended(rt);
    Ok((one, two) == (Ok(1), Ok(2)) && is_whole)
}

#[test]
fn a_publication_is_seen_whole(rt: HostRuntime) -> Result<(), Fail> {
    assert!(rt; two_are_seen_whole::<HostRuntime, Vlr>(&rt, rt.alloc())?);
    assert!(rt; two_are_seen_whole::<HostRuntime, WaitFreeVlr>(&rt, rt.alloc())?);
    Ok(())
}

/// What a writer and the sessions beside it tell one another.
#[derive(Drop)]
struct Beside {
    /// How many updates are published.
    published: AtomicU64,
    /// Whether a session has had a look at one of the publications, or will have no further one.
    has_looked: AtomicBool,
}

// Registers and cancels a subscriber in turn, and tries to publish after each update. Halfway it waits until a session
// has had a look.
fn publishes_each<R, W: AnyStore<R>>(
    rt: &R,
    store: &mut W,
    imsi: Imsi,
    beside: &Beside,
) -> Result<(), Refusal> {
    for update in 0..LIMIT {
        if update == LIMIT / 2 {
            waits_for(&beside.has_looked);
        }
        let next = if update % 2 == 0 {
            Update::Register { imsi }
        } else {
            Update::Cancel { imsi }
        };
        store.accept(next)?;
        if let Some(front) = store.published_front(rt) {
            beside.published.store(front, Ordering::SeqCst);
        }
    }
    Ok(())
}

// The front of an answer to a call; None if the answer is not that of its front.
fn seen<S: AnySession>(session: &mut S, call: &CallEvent) -> Option<u64> {
    let answer = session.answered(call)?;
    let reason = if answer.front % 2 == 0 {
        Reason::Unknown
    } else {
        Reason::NoCsi
    };
    (answer.outcome == Outcome::NoTrigger(reason)).then_some(answer.front)
}

// Whether each of so many answers to a call is that of its front, and no front is behind the one before, or behind a
// publication that had returned.
fn are_right<S: AnySession>(session: &mut S, call: &CallEvent, beside: &Beside) -> bool {
    let mut last: u64 = 0;
    for _ in 0..LIMIT {
        let least = beside.published.load(Ordering::SeqCst);
        match seen(session, call) {
            Some(front) if front >= last && front >= least => last = front,
            _ => return false,
        }
        if last > 0 {
            beside.has_looked.store(true, Ordering::SeqCst);
        }
    }
    true
}

// What a session sees beside the writer, which waits for it no longer then.
fn watches_each<S: AnySession>(session: &mut S, call: &CallEvent, beside: &Beside) -> bool {
    let are_right = are_right(session, call, beside);
    beside.has_looked.store(true, Ordering::SeqCst);
    are_right
}

// The writer has a thread of its own, and so has each session.
fn are_seen_beside<R: Threads + Sync, W: AnyStore<R>>(
    rt: &R,
    store: &mut W,
    first: &mut W::Session,
    second: &mut W::Session,
    imsi: Imsi,
    call: &CallEvent,
) -> bool {
    let beside = Beside {
        published: AtomicU64::new(0),
        has_looked: AtomicBool::new(false),
    };
    thread::join(
        rt,
        || publishes_each(rt, store, imsi, &beside),
        || thread::join(
            rt,
            || watches_each(first, call, &beside),
            || watches_each(second, call, &beside),
        ),
    ) == (Ok(()), (true, true))
}

// Behind the threads no look is held, so a publication goes through, and each session sees it.
fn each_is_seen<R: Threads + Sync, W: AnyStore<R>>(rt: &R, alloc: Global) -> Result<bool, Fail> {
    let imsi = imsi_of(1)?;
    let call = call_of(imsi)?;
    let (mut store, mut first, mut second) = W::opened(rt, alloc)?;
    let are_seen = are_seen_beside(rt, &mut store, &mut first, &mut second, imsi, &call);
    let front = store.published_front(rt);
    let last = (seen(&mut first, &call), seen(&mut second, &call));
    store.ended(rt);
    let all = Some(LIMIT);
    Ok(are_seen && (front, last) == (all, (all, all)))
}

#[test]
fn sessions_see_each_publication_beside_their_writer(rt: HostRuntime) -> Result<(), Fail> {
    assert!(rt; each_is_seen::<HostRuntime, Vlr>(&rt, rt.alloc())?);
    assert!(rt; each_is_seen::<HostRuntime, WaitFreeVlr>(&rt, rt.alloc())?);
    Ok(())
}
