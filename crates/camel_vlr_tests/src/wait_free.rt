//! The end of a store whose writer does not wait, and what its sessions see then.

use crate::bases::{AnySession, opened_wait_free};
use camel_fixtures::imsi_of;
use camel_rows::Update;
use camel_vlr::{Closing, WaitFreeSession, WaitFreeVlr};
use std::alloc::Global;
use std::test::Fail;

/// How a store is ended while a look is held.
#[derive(Clone, Copy)]
enum Way {
    /// It is given up at once.
    Abandon,
    /// It is given up after a close that the look holds up.
    CloseAndAbandon,
    /// It is closed once more when the look is left.
    CloseAgain,
}

fn is_published(store: &mut WaitFreeVlr, update: Update) -> bool {
    store.submit(update).is_ok() && store.publish().is_ok()
}

// Begins the end. The store comes back if it is to be closed again.
fn begun(store: WaitFreeVlr, way: Way) -> Option<Closing> {
    match way {
        Way::Abandon => {
            store.abandon();
            None
        }
        Way::CloseAndAbandon => {
            store.close().err()?.abandon();
            None
        }
        Way::CloseAgain => store.close().err(),
    }
}

// How many subscribers a store leaves that is closed again; None if it was given up.
fn closed_again(closing: Option<Closing>) -> Option<usize> {
    match closing?.close() {
        Ok(records) => Some(records.len()),
        Err(closing) => {
            closing.abandon();
            None
        }
    }
}

/// The front of a look that was held beside the end, how many subscribers a store leaves that is closed again, and
/// whether there is a look: of the other session during that look, and of each session behind it.
type End = (Option<u64>, Option<usize>, [bool; 3]);

// An update is published and the store is ended while a look is held.
fn end_beside_a_look(
    mut store: WaitFreeVlr,
    session: &mut WaitFreeSession,
    idle: &mut WaitFreeSession,
    update: Update,
    way: Way,
) -> End {
    session.hold();
    let is_published = is_published(&mut store, update);
    let closing = begun(store, way);
    let front = if is_published {
        session.held_front()
    } else {
        None
    };
    let during = idle.enter();
    session.leave();
    let left = closed_again(closing);
    (front, left, [during, session.enter(), idle.enter()])
}

fn end_of_new(alloc: Global, way: Way) -> Result<End, Fail> {
    let imsi = imsi_of(1)?;
    let (store, mut session, mut idle) = opened_wait_free(alloc)?;
    let update = Update::Register { imsi };
    Ok(end_beside_a_look(store, &mut session, &mut idle, update, way))
}

#[test]
fn a_held_look_holds_up_the_end(rt: HostRuntime) -> Result<(), Fail> {
    let none = [false, false, false];
    assert!(rt; end_of_new(rt.alloc(), Way::CloseAgain)? == (Some(0), Some(1), none));
    Ok(())
}

#[test]
fn a_look_beside_the_end_is_the_last_of_its_session(rt: HostRuntime) -> Result<(), Fail> {
    let wanted = (Some(0), None, [false, false, false]);
    assert!(rt; end_of_new(rt.alloc(), Way::Abandon)? == wanted);
    assert!(rt; end_of_new(rt.alloc(), Way::CloseAndAbandon)? == wanted);
    Ok(())
}

// How many subscribers a store leaves that is closed; None if a look holds that up.
fn left_by(store: WaitFreeVlr) -> Option<usize> {
    match store.close() {
        Ok(records) => Some(records.len()),
        Err(closing) => {
            closing.abandon();
            None
        }
    }
}

fn left_by_new(alloc: Global) -> Result<Option<usize>, Fail> {
    let imsi = imsi_of(1)?;
    let (mut store, _session, _idle) = opened_wait_free(alloc)?;
    is_published(&mut store, Update::Register { imsi });
    Ok(left_by(store))
}

#[test]
fn a_store_without_a_held_look_is_closed_at_once(rt: HostRuntime) -> Result<(), Fail> {
    assert!(rt; left_by_new(rt.alloc())? == Some(1));
    Ok(())
}
