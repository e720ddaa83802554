//! What the promises of a session come to for a caller: after a receipt was learnt, the front of the next look extends
//! the receipt's, and a second look extends the first. And what was dropped is in no front.

ghost use Rattle.std.specs.Prelude.{◌≡◌, ◌≤◌, length, true, IfOk, IfSome, OnSome};
ghost use Rattle.camel_rows.specs.Update.{Extends};
ghost use Rattle.camel_vlr.specs.Store.{ExtendsAll, with_none_pending};

use crate::bases::{opened, opened_wait_free};
use camel_criteria::Refusal;
use camel_fixtures::imsi_of;
use camel_rows::Update;
use camel_tbcd::Imsi;
use camel_vlr::{Receipt, Session, Vlr, WaitFreeSession, WaitFreeVlr};
use std::alloc::Global;
use std::sync::Wait;
use std::test::Fail;

/// How many updates the front of a look has. It extends the front of the look before, and all that was learnt.
fn front_of_look(session: &mut Session) -> Option<u64>
    ensures same { session.new.store ≡ session.old.store }
    ensures count { IfSome result (λ front. front ≡ length session.new.seen) }
    ensures later { Extends session.new.seen session.old.seen }
    ensures told { OnSome result (ExtendsAll session.new.seen session.old.told) }
{
    let Ok(look) = session.look() else {
        return None;
    };
    let front = look.front();
    look.leave();
    Some(front)
}

/// How many updates the front of a look has after a receipt: no fewer than the receipt's, which it extends.
fn front_after(session: &mut Session, receipt: Receipt) -> Option<u64>
    requires { receipt.store ≡ session.old.store }
    ensures count { IfSome result (λ front. front ≡ length session.new.seen) }
    ensures not_shorter { IfSome result (λ front. length receipt.updates ≤ front) }
    ensures extends { OnSome result (Extends session.new.seen receipt.updates) }
{
    session.learn(receipt);
    let front = front_of_look(session)?;
    Some(front)
}

/// How many updates the fronts of two looks after a receipt have: the second look extends the first, and so the
/// receipt.
fn fronts_after(session: &mut Session, receipt: Receipt) -> Option<(u64, u64)>
    requires { receipt.store ≡ session.old.store }
    ensures not_shorter { IfSome result (λ fronts. length receipt.updates ≤ fronts.0) }
    ensures second { IfSome result (λ fronts. fronts.0 ≤ fronts.1) }
    ensures extends { OnSome result (Extends session.new.seen receipt.updates) }
{
    let first = front_after(session, receipt)?;
    let second = front_of_look(session)?;
    Some((first, second))
}

// The receipt of a publication, as often as it is asked for.
fn published_once<R: Wait>(rt: &R, store: &mut Vlr, imsi: Imsi) -> Result<Receipt, Refusal>
    ensures same { store.new.store ≡ store.old.store }
    ensures own { IfOk result (λ receipt. receipt.store ≡ store.old.store) }
{
    store.submit(Update::Register { imsi })?;
    store.publish(rt)?;
    Ok(store.receipt().copy())
}

// Whether a session had seen a publication before it learnt of it, and the fronts of two looks then.
fn learnt(session: &mut Session, receipt: Receipt) -> (bool, Option<(u64, u64)>)
    requires { receipt.store ≡ session.old.store }
{
    let before = session.has_seen(&receipt);
    (before, fronts_after(session, receipt))
}

fn learnt_of_new<R: Wait>(
    rt: &R,
    alloc: Global,
    imsi: Imsi,
) -> Result<(bool, Option<(u64, u64)>), Refusal> {
    let (mut store, mut session, _other) = opened(rt, alloc)?;
    let learnt = match published_once(rt, &mut store, imsi) {
        Ok(receipt) => Ok(learnt(&mut session, receipt)),
        Err(why) => Err(why),
    };
    store.end(rt);
    learnt
}

#[test]
fn the_looks_after_a_receipt_extend_it(rt: HostRuntime) -> Result<(), Fail> {
    assert!(rt; learnt_of_new(&rt, rt.alloc(), imsi_of(1)?)? == (false, Some((1, 1))));
    Ok(())
}

// Whether a session had seen a publication before it learnt of it, whether it has a look then, and has seen it by that.
fn learnt_wait_free(session: &mut WaitFreeSession, receipt: Receipt) -> (bool, bool, bool)
    requires { receipt.store ≡ session.old.store }
{
    let before = session.has_seen(&receipt);
    session.learn(receipt.copy());
    if !session.enter() {
        return (before, false, false);
    }
    (before, true, session.has_seen(&receipt))
}

fn learnt_of_new_wait_free(alloc: Global, imsi: Imsi) -> Result<(bool, bool, bool), Refusal> {
    let (mut store, mut session, _other) = opened_wait_free(alloc)?;
    let is_accepted = store.submit(Update::Register { imsi }).is_ok();
    let learnt = match store.publish() {
        Ok(receipt) if is_accepted => Ok(learnt_wait_free(&mut session, receipt)),
        _ => Err(Refusal::OutOfMemory),
    };
    store.abandon();
    learnt
}

#[test]
fn a_look_after_a_receipt_has_seen_it(rt: HostRuntime) -> Result<(), Fail> {
    let learnt = learnt_of_new_wait_free(rt.alloc(), imsi_of(1)?)?;
    assert!(rt; learnt == (false, true, true));
    Ok(())
}

// Drops what is pending, and looks. Whatever was dropped, the front that the session saw last is of updates that were
// published before.
fn dropped_and_looked(store: &mut Vlr, session: &mut Session) -> Option<u64>
    requires { session.old.store ≡ store.old.store }
    ensures dropped { OnSome result (store.new ≡ with_none_pending store.old) }
    ensures published { OnSome result (Extends store.old.updates.published session.new.seen) }
{
    store.drop_pending().ok()?;
    let front = front_of_look(session)?;
    store.bounds(&session.seen());
    Some(front)
}

// The same over the base whose writer does not wait.
fn dropped_and_looked_wait_free(
    store: &mut WaitFreeVlr,
    session: &mut WaitFreeSession,
) -> Option<u64>
    requires { session.old.store ≡ store.old.store }
    ensures dropped { OnSome result (store.new ≡ with_none_pending store.old) }
    ensures published { OnSome result (Extends store.old.updates.published session.new.seen) }
{
    store.drop_pending().ok()?;
    if !session.enter() {
        return None;
    }
    let front = session.front();
    session.leave();
    store.bounds(&session.seen());
    Some(front)
}

// The front that is seen once an update is published and a second one dropped.
fn front_behind_a_drop<R: Wait>(rt: &R, alloc: Global, imsi: Imsi) -> Result<Option<u64>, Refusal> {
    let (mut store, mut session, _other) = opened(rt, alloc)?;
    let front = match published_once(rt, &mut store, imsi) {
        Ok(_) if store.submit(Update::Register { imsi }).is_ok() => {
            dropped_and_looked(&mut store, &mut session)
        }
        _ => None,
    };
    store.end(rt);
    Ok(front)
}

fn front_behind_a_drop_wait_free(alloc: Global, imsi: Imsi) -> Result<Option<u64>, Refusal> {
    let (mut store, mut session, _other) = opened_wait_free(alloc)?;
    let is_published = store.submit(Update::Register { imsi }).is_ok() && store.publish().is_ok();
    let front = if is_published && store.submit(Update::Register { imsi }).is_ok() {
        dropped_and_looked_wait_free(&mut store, &mut session)
    } else {
        None
    };
    store.abandon();
    Ok(front)
}

#[test]
fn what_was_dropped_is_in_no_front(rt: HostRuntime) -> Result<(), Fail> {
    let imsi = imsi_of(1)?;
    assert!(rt; front_behind_a_drop(&rt, rt.alloc(), imsi)? == Some(1));
    assert!(rt; front_behind_a_drop_wait_free(rt.alloc(), imsi)? == Some(1));
    Ok(())
}
