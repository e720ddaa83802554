//! Submitting changes of subscriber data to a store.

ghost use Rattle.std.specs.Prelude.{◌≡◌, ◌≢◌, ◌⊎◌, Ok, List, [], ◌∷◌, length, IfErr, IfOk};
ghost use Rattle.camel_rows.specs.declared.subscriber.update.Update.{Update};
ghost use Rattle.camel_rows.specs.declared.subscriber.update.Update.TheVariants as update;
ghost use Rattle.camel_c_data.specs.Update.{delete_in, insert_in};
ghost use Rattle.camel_c.specs.Octets.{SubmitsOctets, octets_in, update_read};
ghost use Rattle.camel_c.specs.Submission.{IsNoKind, ReadsAndSubmits, ReadsAndSubmitsAll, Submits, SubmitsAll};
ghost use Rattle.camel_c.specs.Submission.{TakesAll, cancel_in, register_in};
ghost use Rattle.camel_c.specs.Updates.{HoldUpdates};

use crate::store::LiveStore;
use crate::update::octets::{NO_OCTET, OctetsFault, read_octets};
use crate::update::{
    CANCEL, CLEAR_ALL, DELETE, INSERT, REGISTER, copies_of, hold_updates, read_cancel,
    read_register,
};
use crate::{CamelHandle, Failure};
use camel_c_data::{CamelImsi, CamelLists, CamelWithdrawal, DataFault};
use camel_criteria::Refusal;
use camel_map::Arrival;
use camel_rows::Update;
use camel_vlr::Rejected;
use std::alloc::Global;

/// Submits a Register (kind 1), an Insert of the lists that are sent (2), a Delete of what is named (3), a Cancel (4)
/// or a ClearAll (5). Only an Insert looks at the lists, only a Delete at what is named, and all but a ClearAll at the
/// IMSI.
///
/// It fails with 502 if the kind is none of these, with 502 or 36 if the data are none, and with 35 if a list that is
/// sent has no items, or if criteria come without their CSI and that is not stored. It fails with 5 if an Insert or a
/// Delete is of an IMSI without a record, with 101 if the store has taken as many updates as it may, with 102 if memory
/// was refused, and with 503 if the handle holds no store that takes updates. Then it is as if it had not been
/// submitted.
#[unsafe(no_mangle)]
pub extern "C" fn camel_submit_change_nonnull(
    alloc: Global,
    store: &mut CamelHandle,
    kind: u8,
    imsi: &CamelImsi,
    what: &CamelWithdrawal,
    sent: &CamelLists,
) -> u32
    ensures register { kind ≡ 1 → Submits (register_in imsi.now) result store.old.value store.new.value }
    ensures insert { kind ≡ 2 → ReadsAndSubmits (insert_in sent.now imsi.now) result store.old.value store.new.value }
    ensures delete { kind ≡ 3 → Submits (delete_in what.now imsi.now) result store.old.value store.new.value }
    ensures cancel { kind ≡ 4 → Submits (cancel_in imsi.now) result store.old.value store.new.value }
    ensures clear_all { kind ≡ 5 → Submits (Ok update.ClearAll) result store.old.value store.new.value }
    ensures none { IsNoKind kind → (result ≡ 502) × (store.new.value ≡ store.old.value) }
{
    match kind {
        REGISTER => submit_register(store, imsi),
        INSERT => submit_insert(alloc, store, imsi, sent),
        DELETE => submit_delete(store, imsi, what),
        CANCEL => submit_cancel(store, imsi),
        CLEAR_ALL => submit_clear_all(store),
        _ => Failure::Malformed.code(),
    }
}

// Each kind is submitted by a call of its own. In one function the rooms of all their updates would be zeroed, and an
// Insert would be copied.
#[inline(never)]
fn submit_register(store: &mut CamelHandle, imsi: &CamelImsi) -> u32
    ensures { Submits (register_in imsi.now) result store.old.value store.new.value }
{
    submit(store, read_register(imsi))
}

#[inline(never)]
fn submit_delete(store: &mut CamelHandle, imsi: &CamelImsi, what: &CamelWithdrawal) -> u32
    ensures { Submits (delete_in what.now imsi.now) result store.old.value store.new.value }
{
    submit(store, what.read(imsi))
}

#[inline(never)]
fn submit_cancel(store: &mut CamelHandle, imsi: &CamelImsi) -> u32
    ensures { Submits (cancel_in imsi.now) result store.old.value store.new.value }
{
    submit(store, read_cancel(imsi))
}

#[inline(never)]
fn submit_clear_all(store: &mut CamelHandle) -> u32
    ensures { Submits (Ok update.ClearAll) result store.old.value store.new.value }
{
    submit(store, Ok(Update::ClearAll))
}

#[inline(never)]
fn submit_insert(alloc: Global, store: &mut CamelHandle, imsi: &CamelImsi, sent: &CamelLists) -> u32
    ensures { ReadsAndSubmits (insert_in sent.now imsi.now) result store.old.value store.new.value }
{
    submit(store, sent.read(alloc, imsi))
}

/// Submits the update that was read.
pub(crate) fn submit(store: &mut CamelHandle, read: Result<Update, DataFault>) -> u32
    ensures { Submits read result store.old.value store.new.value }
{
    let update = match read {
        Ok(update) => update,
        Err(fault) => return u32::from(fault.code()),
    };
    let Some(live) = store.lend::<LiveStore>() else {
        return Failure::WrongHandle.code();
    };
    match live.vlr.submit(update) {
        Ok(_) => 0,
        Err(why) => u32::from(why.code()),
    }
}

/// Submits what the octets of an argument of MAP are: once it is published, the subscriber has what the HLR sent.
///
/// The operation is cancelLocation (3), insertSubscriberData (7) or deleteSubscriberData (8). The IMSI is that of the
/// dialogue, and its number is 0 if the dialogue has none. The argument is the parameter of a TCAP invoke.
///
/// It fails with 502 if the operation is none of these or the IMSI is none, and with 401 to 407, 35 or 36 if the
/// argument has a fault, whose octet it writes to the place; else the place is 2^64 - 1. It fails with 5 or 35 if the
/// store does not accept the update, with 101 if it has taken as many as it may, with 102 if memory was refused, and
/// with 503 if the handle holds no store that takes updates. Then it is as if it had not been submitted.
#[unsafe(no_mangle)]
pub extern "C" fn camel_submit_map_nonnull(
    alloc: Global,
    store: &mut CamelHandle,
    operation: u8,
    imsi: &CamelImsi,
    argument: &[u8],
    place: &mut u64,
) -> u32
    ensures { SubmitsOctets (octets_in operation imsi.now argument.now)
        result place.new store.old.value store.new.value }
{
    let read = read_octets(alloc, operation, imsi, argument);
    submit_read(store, read, place)
}

// A call of its own, so that the stack of the reading is given back before.
#[inline(never)]
fn submit_read(store: &mut CamelHandle, read: Result<Arrival, OctetsFault>, place: &mut u64) -> u32
    ensures { SubmitsOctets (update_read read) result place.new store.old.value store.new.value }
{
    match read {
        Ok(arrival) => {
            *place = NO_OCTET;
            submit(store, Ok(arrival.update))
        }
        Err(fault) => {
            *place = fault.place();
            u32::from(fault.code())
        }
    }
}

/// Submits copies of updates, in their order: all of them are accepted, or none is. So a Register and the Inserts
/// behind it are one step, as a location update is. The handles keep the updates. It writes the index of the update
/// that was rejected, the first being 0, or how many there are if none was.
///
/// It fails for the first update that the store does not accept over those before it: with 5 or 35 for its data, with
/// 101 if the store has taken as many as it may, and with 36 for a Cancel and a ClearAll among several, which leave no
/// record; then that update was rejected. It fails with 102 if memory was refused, and with 503 if the first handle
/// holds no store that takes updates, or another one no update: then none was rejected. If it fails, it is as if
/// nothing had been submitted.
#[unsafe(no_mangle)]
pub extern "C" fn camel_submit_all_nonnull(
    alloc: Global,
    store: &mut CamelHandle,
    updates: &mut [CamelHandle],
    rejected: &mut usize,
) -> u32
    ensures submits { (held : List Update) → HoldUpdates updates.old held
        → ReadsAndSubmitsAll held result rejected.new store.old.value store.new.value }
    ensures same { updates.new ≡ updates.old }
    ensures unchanged { result ≢ 0 → store.new.value ≡ store.old.value }
    ensures wrong { ((held : List Update) × HoldUpdates updates.old held)
        ⊎ ((result ≡ 503) × (rejected.new ≡ length updates.old)) }
{
    *rejected = updates.len();
    if !hold_updates(updates) {
        return Failure::WrongHandle.code();
    }
    match copies_of(alloc, updates) {
        Ok(copies) => submit_copies(store, copies, rejected),
        Err(why) => why.code(),
    }
}

/// Submits updates together, and tells which one was rejected.
fn submit_copies(store: &mut CamelHandle, updates: Vec<Update>, rejected: &mut usize) -> u32
    ensures { SubmitsAll updates.items result rejected.new store.old.value store.new.value }
{
    *rejected = updates.len();
    let Some(live) = store.lend::<LiveStore>() else {
        return Failure::WrongHandle.code();
    };
    live.take_all(updates, rejected)
}

impl LiveStore {
    /// Takes updates together, or one by itself, of any kind, and tells which one was rejected.
    pub(crate) fn take_all(&mut self, updates: Vec<Update>, rejected: &mut usize) -> u32
        requires { rejected.old ≡ length updates.items }
        ensures { TakesAll updates.items result rejected.new self.old self.new }
    {
        match only_one(updates) {
            Ok(update) => self.take_one(update, rejected),
            Err(updates) => self.take_several(updates, rejected),
        }
    }

    fn take_one(&mut self, update: Update, rejected: &mut usize) -> u32
        requires { rejected.old ≡ 1 }
        ensures { TakesAll (update ∷ []) result rejected.new self.old self.new }
    {
        match self.vlr.submit(update) {
            Ok(_) => 0,
            Err(Refusal::OutOfMemory) => Failure::Refused(Refusal::OutOfMemory).code(),
            Err(why) => {
                *rejected = 0;
                u32::from(why.code())
            }
        }
    }

    fn take_several(&mut self, updates: Vec<Update>, rejected: &mut usize) -> u32
        requires count { rejected.old ≡ length updates.items }
        requires several { length updates.items ≢ 1 }
        ensures { TakesAll updates.items result rejected.new self.old self.new }
    {
        match self.vlr.submit_all(updates) {
            Ok(_) => 0,
            Err(
                Rejected {
                    why: Refusal::OutOfMemory,
                    ..
                },
            ) => Failure::Refused(Refusal::OutOfMemory).code(),
            Err(Rejected { at, why }) => {
                *rejected = at;
                u32::from(why.code())
            }
        }
    }
}

/// The update of a list of one, or the list.
fn only_one(updates: Vec<Update>) -> Result<Update, Vec<Update>>
    ensures one { IfOk result (λ update. updates.items ≡ update ∷ []) }
    ensures several { IfErr result (λ others. (others.items ≡ updates.items) × (length updates.items ≢ 1)) }
{
    let mut updates = updates;
    if updates.len() != 1 {
        return Err(updates);
    }
    match updates.pop() {
        Some(update) => Ok(update),
        None => Err(updates),
    }
}
