//! Updates that C keeps, and may submit: how they are made and joined, their parts, and their copies.

ghost use Rattle.std.specs.Prelude.{◌≡◌, ◌≢◌, ◌⊎◌, List, true, Ok, None, Some, IfErr, IfOk, is_some};
ghost use Rattle.camel_map.specs.Arrival.{IsOfLists};
ghost use Rattle.camel_c_data.specs.Update.{delete_in};
ghost use Rattle.camel_c.specs.Submission.{IsNoKind, cancel_in, register_in};
ghost use Rattle.camel_c.specs.Updates.{HoldUpdates, HoldsLists, HoldsUpdate, IsNoCopy, JoinsInto, Makes};
ghost use Rattle.camel_c.specs.Updates.{ReadsAndMakes, TellsCounts, alone, concerned_number, count_in, count_shown};
ghost use Rattle.camel_c.specs.Updates.{counted, counts_in, kind_number, lists_in, parts_of, update_held};
ghost use Rattle.camel_c.specs.Updates.{withdrawal_shown};
ghost use Rattle.camel_c.specs.declared.failure.Failure.TheVariants as failure;
ghost use Rattle.camel_c.specs.declared.object.Object.TheVariants as object;

pub(crate) mod octets;

use crate::object::{Object, put};
use crate::{CamelHandle, Failure};
use camel_c_data::{CamelImsi, CamelLists, CamelWithdrawal, DataFault};
use camel_criteria::Refusal;
use camel_map::{Arrival, CapabilityHandling, ItemCounts};
use camel_rows::Update;
use std::alloc::Global;
use std::mem::size_of;

/// What an update is, by the numbers of the header.
pub(crate) const REGISTER: u8 = 1;

pub(crate) const INSERT: u8 = 2;

pub(crate) const DELETE: u8 = 3;

pub(crate) const CANCEL: u8 = 4;

pub(crate) const CLEAR_ALL: u8 = 5;

/// Of an update that is no Insert no items came.
const NO_ITEMS: ItemCounts = ItemCounts {
    o: 0,
    o_criteria: 0,
    vt: 0,
    t_criteria: 0,
};

/// Fills an empty handle with the update that `camel_submit_change_nonnull` submits of the same data. An Insert has how
/// many items were sent in each list, and no camelCapabilityHandling.
///
/// It fails with 502 if the kind is none, with 502, 35 or 36 if the data are none, with 504 if the handle is not empty,
/// and with 102 if memory was refused. Then the handle is as before.
#[unsafe(no_mangle)]
pub extern "C" fn camel_update_of_nonnull(
    alloc: Global,
    kind: u8,
    imsi: &CamelImsi,
    what: &CamelWithdrawal,
    sent: &CamelLists,
    update: &mut CamelHandle,
) -> u32
    ensures register { kind ≡ 1 → Makes (alone (register_in imsi.now)) result update.old.value update.new.value }
    ensures insert { kind ≡ 2 → ReadsAndMakes (lists_in sent.now imsi.now) result update.old.value update.new.value }
    // It is of lists, so it may be joined with another Insert.
    ensures received { kind ≡ 2 → result ≡ 0 → HoldsLists update.new.value }
    ensures delete { kind ≡ 3 → Makes (alone (delete_in what.now imsi.now)) result update.old.value update.new.value }
    ensures cancel { kind ≡ 4 → Makes (alone (cancel_in imsi.now)) result update.old.value update.new.value }
    ensures clear_all { kind ≡ 5 → Makes (alone (Ok Update.ClearAll)) result update.old.value update.new.value }
    ensures none { IsNoKind kind → (result ≡ 502) × (update.new.value ≡ update.old.value) }
{
    match kind {
        REGISTER => keep(alloc, update, NO_ITEMS, read_register(imsi)),
        INSERT => keep_insert(alloc, update, imsi, sent),
        DELETE => keep(alloc, update, NO_ITEMS, what.read(imsi)),
        CANCEL => keep(alloc, update, NO_ITEMS, read_cancel(imsi)),
        CLEAR_ALL => keep(alloc, update, NO_ITEMS, Ok(Update::ClearAll)),
        _ => Failure::Malformed.code(),
    }
}

fn keep_insert(alloc: Global, update: &mut CamelHandle, imsi: &CamelImsi, sent: &CamelLists) -> u32
    ensures made { ReadsAndMakes (lists_in sent.now imsi.now) result update.old.value update.new.value }
    ensures received { result ≡ 0 → HoldsLists update.new.value }
{
    let read = sent.read(alloc, imsi);
    keep(alloc, update, counts_in(sent), read)
}

/// How many items came in each list that is sent.
fn counts_in(sent: &CamelLists) -> ItemCounts
    ensures { result ≡ counts_in sent.now }
{
    ItemCounts {
        o: count_of(sent.o.has_rows, sent.o.rows),
        o_criteria: count_of(sent.o.has_criteria, sent.o.criteria),
        vt: count_of(sent.vt.has_rows, sent.vt.rows),
        t_criteria: count_of(sent.vt.has_criteria, sent.vt.criteria),
    }
}

/// How many items came in a list, if it is sent.
fn count_of<T>(is_sent: u8, items: &[T]) -> usize
    ensures { result ≡ count_in is_sent items.now }
{
    if is_sent == 0 { 0 } else { items.len() }
}

/// Fills a handle with an update that was read, and of which so many items came.
fn keep(
    alloc: Global,
    handle: &mut CamelHandle,
    counts: ItemCounts,
    read: Result<Update, DataFault>,
) -> u32
    ensures { Makes (counted counts read) result handle.old.value handle.new.value }
{
    match read {
        Ok(update) => {
            let capabilities = CapabilityHandling { o: None, vt: None };
            let arrival = Arrival {
                update,
                counts,
                capabilities,
            };
            put(alloc, handle, Object::Update(arrival))
        }
        Err(fault) => u32::from(fault.code()),
    }
}

pub(crate) fn read_register(imsi: &CamelImsi) -> Result<Update, DataFault>
    ensures { result ≡ register_in imsi.now }
{
    Ok(Update::Register { imsi: imsi.read()? })
}

pub(crate) fn read_cancel(imsi: &CamelImsi) -> Result<Update, DataFault>
    ensures { result ≡ cancel_in imsi.now }
{
    Ok(Update::Cancel { imsi: imsi.read()? })
}

/// Fills an empty handle with the join of an Insert and the next one of its dialogue, which stay. A CSI that comes in
/// both is that of the next one (TS 29.002). An HLR may split criteria over several operations: those that come in both
/// are the first ones with those of the next one behind them, and all rules of received lists hold for the whole. Of a
/// camelCapabilityHandling that came in both, the one of the next stands.
///
/// It fails with 503 if one of the first two handles holds no update, with 504 if the one to be filled is not empty,
/// with 408 if one of the two is no Insert, with 409 if they are of different subscribers, with 36 for criteria of more
/// than 10 entries or of two of one detection point, and with 102 if memory was refused. Then the handle is as before.
#[unsafe(no_mangle)]
pub extern "C" fn camel_update_join(
    alloc: Global,
    one: &mut CamelHandle,
    next: &mut CamelHandle,
    joined: &mut CamelHandle,
) -> u32
    ensures joins { (first other : Arrival) → one.old.value ≡ Some (object.Update first)
        → next.old.value ≡ Some (object.Update other) → joined.old.value ≡ None
        → JoinsInto first other result joined.old.value joined.new.value }
    ensures same { (one.new.value ≡ one.old.value) × (next.new.value ≡ next.old.value) }
    ensures unchanged { result ≢ 0 → joined.new.value ≡ joined.old.value }
    ensures wrong { (HoldsUpdate one.old.value × HoldsUpdate next.old.value) ⊎ (result ≡ 503) }
    ensures full { (joined.old.value ≡ None) ⊎ ((result ≡ 503) ⊎ (result ≡ 504)) }
{
    let Some(first) = one.lend::<Arrival>() else {
        return Failure::WrongHandle.code();
    };
    let Some(other) = next.lend::<Arrival>() else {
        return Failure::WrongHandle.code();
    };
    if joined.is_full() {
        return Failure::FullHandle.code();
    }
    match first.join(alloc, other) {
        Ok(made) => put(alloc, joined, Object::Update(made)),
        Err(why) => u32::from(why.code()),
    }
}

/// Whether a handle holds an update.
fn holds_update(handle: &mut CamelHandle) -> bool
    ensures told { result ≡ is_some (update_held handle.old.value) }
    ensures same { handle.new ≡ handle.old }
{
    match handle.lend::<Arrival>() {
        Some(_) => true,
        None => false,
    }
}

/// A copy of the update that a handle holds. Fails with `WrongHandle` (503) if it holds none, and with `OutOfMemory`
/// (102).
fn copy_of(handle: &mut CamelHandle) -> Result<Update, Failure>
    ensures copied { IfOk result (λ copied. update_held handle.old.value ≡ Some copied) }
    ensures only { IfErr result (IsNoCopy (update_held handle.old.value)) }
    ensures same { handle.new ≡ handle.old }
{
    let Some(arrival) = handle.lend::<Arrival>() else {
        return Err(Failure::WrongHandle);
    };
    arrival.update.copy().map_err(Failure::Refused)
}

/// Whether each handle holds an update.
pub(crate) fn hold_updates(handles: &mut [CamelHandle]) -> bool
    ensures yes { result ≡ true → (held : List Update) × HoldUpdates handles.old held }
    ensures no { (held : List Update) → HoldUpdates handles.old held → result ≡ true }
    ensures same { handles.new ≡ handles.old }
{
    for at in 0..handles.len() {
        if !holds_update(&mut handles[at]) {
            return false;
        }
    }
    true
}

/// Copies of the updates that handles hold, in their order. Fails as [`copy_of`] does for the first that fails.
pub(crate) fn copies_of(alloc: Global, handles: &mut [CamelHandle]) -> Result<Vec<Update>, Failure>
    ensures copied { IfOk result (λ copies. HoldUpdates handles.old copies.items) }
    ensures only { IfErr result (λ why. (why ≡ failure.Refused Refusal.OutOfMemory) ⊎ (why ≡ failure.WrongHandle)) }
    ensures wrong { (held : List Update) → HoldUpdates handles.old held
        → IfErr result (λ why. why ≡ failure.Refused Refusal.OutOfMemory) }
    ensures same { handles.new ≡ handles.old }
{
    let mut copies = Vec::new(alloc);
    for at in 0..handles.len() {
        let copied = copy_of(&mut handles[at])?;
        if copies.push(copied).is_err() {
            return Err(Failure::Refused(Refusal::OutOfMemory));
        }
    }
    Ok(copies)
}

/// What came with an update.
#[repr(C)]
#[derive(Clone, Copy, Debug)]
pub struct CamelUpdateParts {
    /// Its number is 0 if the update is a ClearAll.
    pub imsi: CamelImsi,
    /// What the update is: 1 a Register, 2 an Insert, 3 a Delete, 4 a Cancel, 5 a ClearAll.
    pub kind: u8,
    /// How many items of the rows of the O-CSI came in an Insert, those that are ignored among them: 1 to 10, or 0 if
    /// the list did not come. The next three are those of the other lists.
    pub o_rows: u8,
    pub o_criteria: u8,
    pub vt_rows: u8,
    pub t_criteria: u8,
    /// 1 if camelCapabilityHandling of the O-CSI came (TS 29.002).
    pub has_o_capability: u8,
    /// 1 if camelCapabilityHandling of the VT-CSI came.
    pub has_vt_capability: u8,
    /// The phase of CAMEL, 1 to 16, or 0 if it did not come.
    pub o_capability: u32,
    /// The phase of CAMEL, 1 to 16, or 0 if it did not come.
    pub vt_capability: u32,
    /// What a Delete names. Of another update it names nothing.
    pub withdrawal: CamelWithdrawal,
}

const _: () = prove!(size_of::<CamelUpdateParts>() == 32);

impl CamelUpdateParts {
    /// The fields of an update. A count over 255, which no Insert has, is 255.
    #[tactic(auto, using(crate::proofs::ReadingLemmas::tells_counts))]
    fn of(arrival: &Arrival) -> CamelUpdateParts
        ensures told { result ≡ parts_of arrival.now }
        ensures counts { IsOfLists arrival.now → TellsCounts arrival.now.counts result }
    {
        let counts = &arrival.counts;
        let capabilities = &arrival.capabilities;
        CamelUpdateParts {
            imsi: concerned(&arrival.update),
            kind: kind_of(&arrival.update),
            o_rows: octet_of(counts.o),
            o_criteria: octet_of(counts.o_criteria),
            vt_rows: octet_of(counts.vt),
            t_criteria: octet_of(counts.t_criteria),
            has_o_capability: u8::from(capabilities.o.is_some()),
            has_vt_capability: u8::from(capabilities.vt.is_some()),
            o_capability: capabilities.o.unwrap_or(0),
            vt_capability: capabilities.vt.unwrap_or(0),
            withdrawal: withdrawal_of(&arrival.update),
        }
    }
}

/// The IMSI of an update, or the number 0 if it concerns all subscribers.
fn concerned(update: &Update) -> CamelImsi
    ensures { result.number ≡ concerned_number update.now }
{
    match update.imsi() {
        Some(imsi) => CamelImsi::of(&imsi),
        None => CamelImsi { number: 0 },
    }
}

/// The number of what an update is.
fn kind_of(update: &Update) -> u8
    ensures { result ≡ kind_number update.now }
{
    match update {
        Update::Register { .. } => REGISTER,
        Update::Insert { .. } => INSERT,
        Update::Delete { .. } => DELETE,
        Update::Cancel { .. } => CANCEL,
        Update::ClearAll => CLEAR_ALL,
    }
}

/// A count in an octet, or 255 if it is higher.
fn octet_of(count: usize) -> u8
    ensures { result ≡ count_shown count }
{
    count.min(usize::from(u8::MAX)) as u8
}

/// What a Delete names, and of another update nothing.
fn withdrawal_of(update: &Update) -> CamelWithdrawal
    ensures { result ≡ withdrawal_shown update.now }
{
    match update {
        Update::Delete { what, .. } => CamelWithdrawal {
            o: u8::from(what.o),
            vt: u8::from(what.vt),
            everything: u8::from(what.everything),
        },
        _ => CamelWithdrawal {
            o: 0,
            vt: 0,
            everything: 0,
        },
    }
}

/// Writes what came with an update.
///
/// It fails with 503 if the handle holds no update, and leaves the parts as they were.
#[unsafe(no_mangle)]
pub extern "C" fn camel_update_parts_of(
    update: &mut CamelHandle,
    parts: &mut CamelUpdateParts,
) -> u32
    ensures told { result ≡ 0
        → (held : Arrival) × (update.old.value ≡ Some (object.Update held)) × (parts.new ≡ parts_of held) }
    // The counts of an Insert of received lists are told whole.
    ensures counts { (held : Arrival) → update.old.value ≡ Some (object.Update held) → IsOfLists held
        → TellsCounts held.counts parts.new }
    ensures same { update.new.value ≡ update.old.value }
    ensures unwritten { result ≢ 0 → parts.new ≡ parts.old }
    ensures only { HoldsUpdate update.old.value → result ≡ 0 }
    ensures wrong { HoldsUpdate update.old.value ⊎ (result ≡ 503) }
{
    let Some(arrival) = update.lend::<Arrival>() else {
        return Failure::WrongHandle.code();
    };
    *parts = CamelUpdateParts::of(arrival);
    0
}
