//! Publishing what is pending, or updates at once, and telling sessions of it.

ghost use Rattle.std.specs.Prelude.{◌≡◌, ◌≢◌, ◌⊎◌, ◌==◌, Some, true};
ghost use Rattle.camel_c.specs.Object.{HoldsDroppable, HoldsFreeStore, HoldsLevelStore, HoldsLiveStore};
ghost use Rattle.camel_c.specs.Publication.{AllLearn, AllMayLook, AllReady, Commits, CommitsTo, FirstUnready, IsReady};
ghost use Rattle.camel_c.specs.Publication.{IsUnready, PublishesTo, ShowsNoMore};
ghost use Rattle.camel_c.specs.Session.{ChangesStore, IsRefused, receipt_of, with_dropped, with_free, with_held};
ghost use Rattle.camel_c.specs.Session.{with_published};

use crate::session::{ThreadSession, camel_learn};
use crate::store::LiveStore;
use crate::update::{copies_of, hold_updates};
use crate::{CamelHandle, Failure};
use camel_c_data::CamelReceipt;
use camel_criteria::Refusal;
use camel_rows::Update;
use camel_vlr::{MAX_PLACES, Unpublished};
use std::alloc::Global;

impl LiveStore {
    /// Publishes all that is pending, also if nothing is, and counts it if a look holds that up. It does not wait.
    ///
    /// It fails with 501 if a look keeps the copy that is to be changed, and with 102 if memory was refused. Then
    /// nothing was published, and all is pending as before. It does not fail with 501 if `camel_holders` has told of no
    /// session, or it has failed with 102, since the last publication.
    pub(crate) fn publish(&mut self) -> u32
        ensures published { result ≡ 0 → self.new ≡ with_published self.old }
        ensures held { result ≡ 501 → self.new ≡ with_held self.old }
        ensures free { self.old.vlr.free ≡ true → result ≢ 501 }
        ensures refused { result ≡ 102 → IsRefused self.old self.new }
        ensures only { (result ≡ 0) ⊎ ((result ≡ 102) ⊎ (result ≡ 501)) }
    {
        match self.vlr.publish() {
            Ok(_) => 0,
            Err(Unpublished::Held) => {
                self.held = self.held.wrapping_add(1);
                Failure::Held.code()
            }
            Err(Unpublished::OutOfMemory) => Failure::Refused(Refusal::OutOfMemory).code(),
        }
    }
}

/// Tells whose looks hold the next publication up: bit i is that of the session in handle i of `camel_open`, from 0. It
/// takes no memory, and does not wait.
///
/// It fails with 503 if the handle holds no store that takes updates, and writes nothing.
#[unsafe(no_mangle)]
pub extern "C" fn camel_holders(store: &mut CamelHandle, sessions: &mut u64) -> u32
    ensures told { result ≡ 0 → ChangesStore (with_free (sessions.new == 0)) store.old.value store.new.value }
    ensures none { HoldsFreeStore store.old.value → sessions.new ≡ 0 }
    ensures unchanged { result ≢ 0 → (store.new.value ≡ store.old.value) × (sessions.new ≡ sessions.old) }
    ensures only { HoldsLiveStore store.old.value → result ≡ 0 }
    ensures wrong { HoldsLiveStore store.old.value ⊎ (result ≡ 503) }
{
    let Some(live) = store.lend::<LiveStore>() else {
        return Failure::WrongHandle.code();
    };
    *sessions = live.vlr.holders();
    0
}

/// Publishes all that is pending, also if nothing is, and has these sessions of the store learn a receipt of it, as
/// `camel_learn` does: each shows it from then on. It does not wait.
///
/// It fails with 502 if there are more than 64, with 503 if the first handle holds no store that takes updates, with
/// 503, 501 or 505 for the first session that is none, has begun a look or is of another store, with 501 if a look
/// keeps the copy that is to be changed, which is counted, and with 102 if memory was refused. Then nothing was
/// published, and all is pending as before. It names 104 and 505 too for a session that does not see what is published
/// then, which no run meets.
#[unsafe(no_mangle)]
pub extern "C" fn camel_publish_to_nonnull(
    store: &mut CamelHandle,
    sessions: &mut [CamelHandle],
) -> u32
    ensures { PublishesTo result store.old.value store.new.value sessions.old sessions.new }
{
    if MAX_PLACES < sessions.len() {
        return Failure::Malformed.code();
    }
    let Some(live) = store.lend::<LiveStore>() else {
        return Failure::WrongHandle.code();
    };
    live.publish_to(sessions)
}

impl LiveStore {
    /// Publishes all that is pending if the sessions are ready, and has them learn it.
    fn publish_to(&mut self, sessions: &mut [CamelHandle]) -> u32
        ensures published { result ≡ 0 → self.new ≡ with_published self.old }
        ensures learnt { result ≡ 0 → AllLearn (receipt_of self.new) sessions.old sessions.new }
        ensures held { AllReady self.old.number sessions.old → result ≡ 501
            → (self.new ≡ with_held self.old) × (sessions.new ≡ sessions.old) }
        ensures refused { AllReady self.old.number sessions.old → result ≡ 102
            → IsRefused self.old self.new × (sessions.new ≡ sessions.old) }
        ensures unseen { AllReady self.old.number sessions.old → (result ≡ 104) ⊎ (result ≡ 505)
            → (self.new ≡ with_published self.old) × AllMayLook sessions.old sessions.new }
        ensures only { AllReady self.old.number sessions.old
            → (result ≡ 0) ⊎ ((result ≡ 102) ⊎ ((result ≡ 501) ⊎ ((result ≡ 104) ⊎ (result ≡ 505)))) }
        ensures free { self.old.vlr.free ≡ true → AllReady self.old.number sessions.old → result ≢ 501 }
        ensures unready { AllReady self.old.number sessions.old
            ⊎ (FirstUnready self.old.number sessions.old result × (self.new ≡ self.old)
            × (sessions.new ≡ sessions.old)) }
    {
        match first_unready(sessions, self.number) {
            0 => match self.publish() {
                0 => learn_all(sessions, &self.receipt()),
                why => why,
            },
            why => why,
        }
    }
}

/// Why the first session that is not ready to learn a receipt of the store of this number is not, or 0 if all are.
pub(crate) fn first_unready(sessions: &mut [CamelHandle], number: u64) -> u32
    ensures ready { result ≡ 0 → AllReady number sessions.old }
    ensures only { AllReady number sessions.old → result ≡ 0 }
    ensures why { (result ≡ 0) ⊎ FirstUnready number sessions.old result }
    ensures same { sessions.new ≡ sessions.old }
{
    match sessions.split_first_mut() {
        Some((first, rest)) => match unready(first, number) {
            0 => first_unready(rest, number),
            why => why,
        },
        None => 0,
    }
}

/// Why a handle is not ready: it holds no session, or one of another store, or one that has begun a look.
fn unready(handle: &mut CamelHandle, number: u64) -> u32
    ensures ready { result ≡ 0 → IsReady number handle.old }
    ensures only { IsReady number handle.old → result ≡ 0 }
    ensures why { (result ≡ 0) ⊎ IsUnready number handle.old.value result }
    ensures same { handle.new ≡ handle.old }
{
    let Some(own) = handle.lend::<ThreadSession>() else {
        return Failure::WrongHandle.code();
    };
    if own.session.is_looking() {
        Failure::Held.code()
    } else if own.store != number {
        Failure::OtherStore.code()
    } else {
        0
    }
}

/// Has each session learn a receipt, up to the first that does not.
pub(crate) fn learn_all(sessions: &mut [CamelHandle], receipt: &CamelReceipt) -> u32
    requires { AllReady receipt.now.store sessions.old }
    ensures learnt { result ≡ 0 → AllLearn receipt.now sessions.old sessions.new }
    ensures looked { AllMayLook sessions.old sessions.new }
    ensures only { (result ≡ 0) ⊎ ((result ≡ 104) ⊎ (result ≡ 505)) }
{
    match sessions.split_first_mut() {
        Some((first, rest)) => match camel_learn(first, receipt) {
            0 => learn_all(rest, receipt),
            why => why,
        },
        None => 0,
    }
}

/// Drops what is pending, submits copies of these updates, as `camel_submit_all_nonnull` does, publishes them, and has
/// these sessions of the store learn it: each shows it from then on. Else no session shows any of it, and the next such
/// call drops what this one has left pending. It does not wait. It writes the index of the update that was rejected,
/// the first being 0, or how many there are if none was.
///
/// It fails with 502 if there are more than 64 sessions, with 503 if the first handle holds no store that takes updates
/// or one of the updates is none, and with 503, 501 or 505 for the first session that is none, has begun a look or is
/// of another store. Then all is as before. It fails with 501 if a look keeps the copy that is to be changed, which is
/// counted, and as `camel_submit_all_nonnull` does for the first update that is not accepted. Then nothing is pending.
/// It fails with 102 if memory was refused: then nothing is published, and something may be pending. It names 104 and
/// 505 too for a session that does not see what is published then, which no run meets.
#[unsafe(no_mangle)]
pub extern "C" fn camel_commit_nonnull(
    alloc: Global,
    store: &mut CamelHandle,
    updates: &mut [CamelHandle],
    sessions: &mut [CamelHandle],
    rejected: &mut usize,
) -> u32
    ensures commits { CommitsTo updates.old result rejected.new store.old.value store.new.value sessions.old
        sessions.new }
    ensures same { updates.new ≡ updates.old }
{
    *rejected = updates.len();
    if MAX_PLACES < sessions.len() {
        return Failure::Malformed.code();
    }
    if !hold_updates(updates) {
        return Failure::WrongHandle.code();
    }
    let Some(live) = store.lend::<LiveStore>() else {
        return Failure::WrongHandle.code();
    };
    let unready = first_unready(sessions, live.number);
    if unready != 0 {
        return unready;
    }
    match copies_of(alloc, updates) {
        Ok(copies) => live.commit(copies, sessions, rejected),
        Err(why) => why.code(),
    }
}

impl LiveStore {
    /// Publishes updates by themselves, and has sessions learn it.
    fn commit(
        &mut self,
        updates: Vec<Update>,
        sessions: &mut [CamelHandle],
        rejected: &mut usize,
    ) -> u32
        requires { AllReady self.old.number sessions.old }
        ensures { Commits updates.items result rejected.new self.old self.new sessions.old sessions.new }
    {
        *rejected = updates.len();
        if let Err(why) = self.vlr.drop_pending() {
            return u32::from(why.code());
        }
        if !self.vlr.is_free() {
            self.held = self.held.wrapping_add(1);
            return Failure::Held.code();
        }
        let taken = self.take_all(updates, rejected);
        if taken != 0 {
            return taken;
        }
        self.publish_or_drop(sessions)
    }

    /// Publishes all that is pending, and has sessions learn it, or drops it.
    fn publish_or_drop(&mut self, sessions: &mut [CamelHandle]) -> u32
        requires free { self.old.vlr.free ≡ true }
        requires ready { AllReady self.old.number sessions.old }
        ensures published { result ≡ 0
            → (self.new ≡ with_published self.old) × AllLearn (receipt_of self.new) sessions.old sessions.new }
        ensures refused { result ≡ 102 → ShowsNoMore self.old self.new × (sessions.new ≡ sessions.old) }
        ensures unseen { (result ≡ 104) ⊎ (result ≡ 505)
            → (self.new ≡ with_published self.old) × AllMayLook sessions.old sessions.new }
        ensures only { (result ≡ 0) ⊎ ((result ≡ 102) ⊎ ((result ≡ 104) ⊎ (result ≡ 505))) }
    {
        match self.publish() {
            0 => learn_all(sessions, &self.receipt()),
            why => {
                // If that is refused memory too, the next call drops it.
                let _ = self.vlr.drop_pending();
                why
            }
        }
    }
}

/// Drops all that is pending, as if it had not been submitted: the accepted updates are the published ones again, which
/// count for the limit. It may follow a publication that failed. It takes no memory if each pending update leaves a
/// record; if a Cancel or a ClearAll is pending, it goes through all published records.
///
/// It fails with 102 if memory was refused, and with 503 if the handle holds no store that takes updates. Then all is
/// pending as before.
#[unsafe(no_mangle)]
pub extern "C" fn camel_drop_pending(store: &mut CamelHandle) -> u32
    ensures dropped { result ≡ 0 → ChangesStore with_dropped store.old.value store.new.value }
    ensures droppable { HoldsDroppable store.old.value → result ≡ 0 }
    ensures level { result ≡ 0 → HoldsLevelStore store.new.value }
    ensures unchanged { result ≢ 0 → store.new.value ≡ store.old.value }
    ensures only { HoldsLiveStore store.old.value → (result ≡ 0) ⊎ (result ≡ 102) }
    ensures wrong { HoldsLiveStore store.old.value ⊎ (result ≡ 503) }
{
    let Some(live) = store.lend::<LiveStore>() else {
        return Failure::WrongHandle.code();
    };
    match live.vlr.drop_pending() {
        Ok(()) => 0,
        Err(why) => u32::from(why.code()),
    }
}
