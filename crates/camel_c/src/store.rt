//! Stores: how one is opened with its sessions and ends, and what it has counted.

ghost use Rattle.std.specs.Prelude.{◌≡◌, ◌≢◌, ◌≤◌, ◌⊎◌, Some, None, All, IfErr, OnErr, OnOk, List, length, suc, true};
ghost use Rattle.std.specs.Prelude.{false, vec_len};
ghost use Rattle.camel_rows.specs.Store.{accepted_updates};
ghost use Rattle.camel_rows.specs.Update.{Extends};
ghost use Rattle.camel_rows.specs.declared.subscriber.update.Update.{Update};
ghost use Rattle.camel_vlr.specs.Store.{SessionData};
ghost use Rattle.camel_c_data.specs.Event.{no_decisions};
ghost use Rattle.camel_c.specs.Object.{live_store, at_stage, AllEmpty, AllHold, CanOpen, Counts, HoldAsBefore};
ghost use Rattle.camel_c.specs.Object.{HoldsLiveStore, HoldsStore, IsNew, Opens, new_session, profile_of};
ghost use Rattle.camel_c.specs.Session.{GivesReceipt, IsHeldUp, receipt_of};
ghost use Rattle.camel_c.specs.declared.object.Object.TheVariants as object;
ghost use Rattle.camel_c.specs.declared.store.LiveStore.{LiveStore};
ghost use Rattle.camel_c.specs.declared.store.Stage.TheVariants as stage;

mod publication;
mod submission;

use crate::layouts::ABI_VERSION;
use crate::object::{Object, camel_empty, fill};
use crate::session::ThreadSession;
use crate::{CamelHandle, Failure};
use camel_c_data::{CamelCounts, CamelDecisions, CamelReceipt};
use camel_criteria::Refusal;
use camel_table::Seed;
use camel_tbcd::Profile;
use camel_vlr::{Closing, MAX_PLACES, MAX_UPDATES, WaitFreeSession, WaitFreeVlr};
use core::mem::replace_with;
use std::alloc::Global;

/// A store that takes updates.
pub struct LiveStore {
    pub vlr: WaitFreeVlr,
    /// Its seed, by which its sessions know its receipts.
    pub number: u64,
    /// How many publications a look held up, modulo 2^64.
    pub held: u64,
}

impl LiveStore {
    /// The store, without what is counted of it.
    pub(crate) fn into_vlr(self) -> WaitFreeVlr
        ensures { result ≡ self.vlr }
    {
        let LiveStore {
            vlr,
            number: _number,
            held: _held,
        } = self;
        vlr
    }
}

/// How far a store is.
pub enum Stage {
    /// It takes updates.
    Live(LiveStore),
    /// A look holds its end up.
    Closing(Closing),
    /// It has ended. A box that held a store has to hold something until it is freed.
    Closed,
}

/// A store that may be dropped, as an object of C has to be: a [`WaitFreeVlr`] may not. The looks that are held then
/// free what they keep.
pub struct Store {
    pub stage: Stage,
}

impl Drop for Store {
    fn drop(self) {
        let Store { stage } = self;
        match stage {
            Stage::Live(live) => live.into_vlr().abandon(),
            Stage::Closing(closing) => closing.abandon(),
            Stage::Closed => {}
        }
    }
}

/// Opens a store that takes at most `limit` updates (1 to 2^63 - 1), with 1 to 64 sessions, which decide under profile
/// 1 or 2, and fills the handles. The seed of its tables is secret and random: with one that is known, whoever chooses
/// IMSIs can make look-ups slow. It is the store's number too, so only receipts of stores with one seed are not told
/// apart.
///
/// It fails with 506 if the caller knows another version of the layouts, with 502 for an argument out of range, with
/// 504 if a handle is not empty, and with 102 if memory was refused; it names 103 too, which no run meets. Then all
/// handles are as before.
#[unsafe(no_mangle)]
pub extern "C" fn camel_open_version(
    alloc: Global,
    version: u32,
    store: &mut CamelHandle,
    sessions: &mut [CamelHandle],
    limit: u64,
    profile: u8,
    seed: u64,
) -> u32
    ensures opened { result ≡ 0 → Opens limit profile seed store.new.value sessions.new }
    ensures unchanged { result ≢ 0 → (store.new.value ≡ store.old.value) × HoldAsBefore sessions.old sessions.new }
    ensures version { (version ≡ 4) ⊎ (result ≡ 506) }
    ensures malformed { version ≡ 4 → CanOpen (length sessions.old) limit profile ⊎ (result ≡ 502) }
    ensures full { version ≡ 4 → CanOpen (length sessions.old) limit profile
        → ((store.old.value ≡ None) × AllEmpty sessions.old) ⊎ (result ≡ 504) }
    ensures only { version ≡ 4 → CanOpen (length sessions.old) limit profile → store.old.value ≡ None
        → AllEmpty sessions.old → (result ≡ 0) ⊎ ((result ≡ 102) ⊎ (result ≡ 103)) }
{
    if version != ABI_VERSION {
        return Failure::OtherVersion.code();
    }
    let count = sessions.len();
    if count < 1 || MAX_PLACES < count || limit < 1 || MAX_UPDATES < limit {
        return Failure::Malformed.code();
    }
    let Some(profile) = profile_of_number(profile) else {
        return Failure::Malformed.code();
    };
    if store.is_full() || !are_empty(sessions) {
        return Failure::FullHandle.code();
    }
    match open(alloc, store, sessions, limit, profile, seed) {
        Ok(()) => 0,
        Err(why) => u32::from(why.code()),
    }
}

/// The profile of this number.
fn profile_of_number(number: u8) -> Option<Profile>
    ensures { result ≡ profile_of number }
{
    match number {
        1 => Some(Profile::One),
        2 => Some(Profile::Two),
        _ => None,
    }
}

/// Whether no handle holds anything.
fn are_empty(handles: &mut [CamelHandle]) -> bool
    ensures same { handles.new ≡ handles.old }
    ensures yes { result ≡ true → AllEmpty handles.old }
    ensures no { AllEmpty handles.old → result ≡ true }
{
    match handles.split_first_mut() {
        Some((first, rest)) => !first.is_full() && are_empty(rest),
        None => true,
    }
}

fn open(
    alloc: Global,
    store: &mut CamelHandle,
    sessions: &mut [CamelHandle],
    limit: u64,
    profile: Profile,
    seed: u64,
) -> Result<(), Refusal>
    requires places { (1 ≤ length sessions.old) × (length sessions.old ≤ 64) }
    requires limit { (1 ≤ limit) × (limit ≤ 9223372036854775807) }
    requires empty { (store.old.value ≡ None) × AllEmpty sessions.old }
    ensures opened { OnOk result
        ((live : LiveStore) × (store.new.value ≡ Some (live_store live)) × IsNew limit profile seed live
        × AllHold (object.Session (new_session live.vlr.store live.number)) sessions.new) }
    ensures unchanged { OnErr result ((store.new.value ≡ store.old.value) × HoldAsBefore sessions.old sessions.new) }
    ensures only { IfErr result (λ why. (why ≡ Refusal.OutOfMemory) ⊎ (why ≡ Refusal.NoPlace)) }
{
    let (vlr, mut seated) = WaitFreeVlr::open_wait_free(
        alloc,
        sessions.len(),
        limit,
        profile,
        Seed::new(seed),
    )?;
    let live = LiveStore {
        vlr,
        number: seed,
        held: 0,
    };
    let made = Object::Store(Store {
        stage: Stage::Live(live),
    });
    match replace_with(store, (alloc, made), fill) {
        Ok(()) => match fill_all(alloc, seed, sessions, &mut seated) {
            Ok(()) => Ok(()),
            Err(why) => {
                camel_empty(alloc, store);
                Err(why)
            }
        },
        Err(_) => Err(Refusal::OutOfMemory),
    }
}

/// Puts a session into each handle, or leaves each empty.
fn fill_all(
    alloc: Global,
    number: u64,
    handles: &mut [CamelHandle],
    sessions: &mut Vec<WaitFreeSession>,
) -> Result<(), Refusal>
    requires count { length handles.old ≡ vec_len sessions.old }
    requires empty { AllEmpty handles.old }
    ensures filled { (fresh : SessionData) → All (λ session. session ≡ fresh) sessions.old.items
        → OnOk result (AllHold
        (object.Session (record { session = fresh; store = number; decisions = no_decisions })) handles.new) }
    ensures unchanged { OnErr result (HoldAsBefore handles.old handles.new) }
    ensures only { IfErr result (λ why. why ≡ Refusal.OutOfMemory) }
{
    let Some((last, others)) = handles.split_last_mut() else {
        return Ok(());
    };
    fill_last(alloc, number, sessions, last)?;
    match fill_all(alloc, number, others, sessions) {
        Ok(()) => Ok(()),
        Err(why) => {
            camel_empty(alloc, last);
            Err(why)
        }
    }
}

/// Puts the last session into a handle.
// The object is in the frame of this call and of no other, so that a small stack has room for the calls for 64 handles.
#[inline(never)]
fn fill_last(
    alloc: Global,
    number: u64,
    sessions: &mut Vec<WaitFreeSession>,
    handle: &mut CamelHandle,
) -> Result<(), Refusal>
    requires one { 1 ≤ vec_len sessions.old }
    ensures filled { (fresh : SessionData) → All (λ session. session ≡ fresh) sessions.old.items
        → OnOk result (handle.new.value
        ≡ Some (object.Session (record { session = fresh; store = number; decisions = no_decisions }))) }
    ensures others { (fresh : SessionData) → All (λ session. session ≡ fresh) sessions.old.items
        → All (λ session. session ≡ fresh) sessions.new.items }
    ensures count { vec_len sessions.old ≡ suc (vec_len sessions.new) }
    ensures empty { OnOk result (handle.old.value ≡ None) }
    ensures unchanged { OnErr result (handle.new.value ≡ handle.old.value) }
    ensures only { IfErr result (λ why. why ≡ Refusal.OutOfMemory) }
{
    let Some(session) = sessions.pop() else {
        return Err(Refusal::OutOfMemory);
    };
    let made = Object::Session(ThreadSession {
        session,
        store: number,
        decisions: CamelDecisions::none(),
    });
    match replace_with(handle, (alloc, made), fill) {
        Ok(()) => Ok(()),
        Err(_) => Err(Refusal::OutOfMemory),
    }
}

/// Ends a store and frees it, which leaves its handle empty. What is pending is dropped. It does not wait.
///
/// Each look that is held goes on until it is left, and no session begins another. It fails with 501 if one is held:
/// then the store takes no more updates, and it is to be called again once the look is left. It fails with 503 if the
/// handle holds no store; then nothing is changed.
#[unsafe(no_mangle)]
pub extern "C" fn camel_close(alloc: Global, store: &mut CamelHandle) -> u32
    ensures closed { result ≡ 0 → store.new.value ≡ None }
    ensures held { result ≡ 501 → IsHeldUp store.old.value store.new.value }
    ensures only { HoldsStore store.old.value → (result ≡ 0) ⊎ (result ≡ 501) }
    ensures wrong { HoldsStore store.old.value ⊎ ((result ≡ 503) × (store.new.value ≡ store.old.value)) }
{
    let Some(held) = store.lend::<Store>() else {
        return Failure::WrongHandle.code();
    };
    if !replace_with(&mut held.stage, (), close_stage) {
        return Failure::Held.code();
    }
    camel_empty(alloc, store);
    0
}

/// Ends a store, and tells whether it has ended.
fn close_stage(before: Stage, _with: ()) -> (Stage, bool)
    ensures closed { result.1 ≡ true → result.0 ≡ stage.Closed }
    ensures held { result.1 ≡ false → IsHeldUp (at_stage before) (at_stage result.0) }
{
    let closed = match before {
        Stage::Live(live) => live.into_vlr().close(),
        Stage::Closing(closing) => closing.close(),
        Stage::Closed => return (Stage::Closed, true),
    };
    match closed {
        Ok(records) => {
            drop(records);
            (Stage::Closed, true)
        }
        Err(closing) => (Stage::Closing(closing), false),
    }
}

/// Writes how many subscribers have a record in what is published, how many updates are published and pending, and how
/// many publications a look held up.
///
/// It fails with 503 if the handle holds no store that takes updates, and leaves the counts as they were.
#[unsafe(no_mangle)]
pub extern "C" fn camel_counts_of(store: &mut CamelHandle, counts: &mut CamelCounts) -> u32
    ensures counted { result ≡ 0 → Counts store.old.value counts.new }
    ensures same { store.new.value ≡ store.old.value }
    ensures unwritten { result ≢ 0 → counts.new ≡ counts.old }
    ensures only { HoldsLiveStore store.old.value → result ≡ 0 }
    ensures wrong { HoldsLiveStore store.old.value ⊎ (result ≡ 503) }
{
    let Some(live) = store.lend::<LiveStore>() else {
        return Failure::WrongHandle.code();
    };
    *counts = CamelCounts {
        subscribers: live.vlr.subscribers() as u64,
        published: live.vlr.published(),
        pending: live.vlr.pending(),
        held: live.held,
    };
    0
}

/// Writes a receipt of all that is published. It takes no memory. Any number of sessions may learn it.
///
/// It fails with 503 if the handle holds no store that takes updates, and leaves the receipt as it was.
#[unsafe(no_mangle)]
pub extern "C" fn camel_receipt_of(store: &mut CamelHandle, receipt: &mut CamelReceipt) -> u32
    ensures given { result ≡ 0 → GivesReceipt store.old.value receipt.new }
    ensures same { store.new.value ≡ store.old.value }
    ensures unwritten { result ≢ 0 → receipt.new ≡ receipt.old }
    ensures only { HoldsLiveStore store.old.value → result ≡ 0 }
    ensures wrong { HoldsLiveStore store.old.value ⊎ (result ≡ 503) }
{
    let Some(live) = store.lend::<LiveStore>() else {
        return Failure::WrongHandle.code();
    };
    *receipt = live.receipt();
    0
}

impl LiveStore {
    /// A receipt of all that is published.
    pub(crate) fn receipt(&self) -> CamelReceipt
        ensures { result ≡ receipt_of self.now }
    {
        CamelReceipt {
            store: self.number,
            front: self.vlr.published(),
        }
    }
}

impl LiveStore {
    /// A law, of which the call is only for its clauses: C has no call for it. What a session of the store saw last, by
    /// `camel_look`, `camel_decide` or any other call that looks, the store has published, unless a publication has
    /// failed once its front was made; then the store has accepted it. And if it has as many updates as a front that
    /// the store has published, as after `camel_learn` of a receipt, it extends that front.
    pub fn bounds(&mut self, own: &ThreadSession)
        requires { own.now.session.store ≡ self.old.vlr.store }
        ensures same { self.new ≡ self.old }
        ensures published { self.old.vlr.ahead ≡ false → Extends self.old.vlr.updates.published own.now.session.seen }
        ensures accepted { Extends (accepted_updates self.old.vlr.updates) own.now.session.seen }
        ensures told { (front : List Update) → Extends (accepted_updates self.old.vlr.updates) front
            → length front ≤ length own.now.session.seen → Extends own.now.session.seen front }
    {
        self.vlr.bounds(&own.session.seen());
    }
}
