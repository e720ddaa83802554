//! What a handle of C may hold, and the calls that fill and empty one: those that allocate and free.

ghost use Rattle.std.specs.Prelude.{◌≡◌, ◌≢◌, ◌⊎◌, Err, Some, None, IfErr, MatchOption, OnErr, OnOk};
ghost use Rattle.camel_c.specs.Object.{live_store, Fills};
ghost use Rattle.camel_c.specs.declared.failure.Failure.TheVariants as failure;
ghost use Rattle.camel_c.specs.declared.object.Object.TheVariants as object;

use crate::imsis::ImsiList;
use crate::session::ThreadSession;
use crate::store::{LiveStore, Stage, Store};
use crate::subscriber::KeptSubscriber;
use crate::{CamelHandle, Failure};
use camel_criteria::Refusal;
use camel_map::Arrival;
use core::mem::replace_with;
use std::alloc::Global;

/// What a handle of C may hold.
#[derive(Drop)]
pub enum Object {
    Store(Store),
    Session(ThreadSession),
    /// The record of a subscriber.
    Kept(KeptSubscriber),
    /// An update, and what came beside it.
    Update(Arrival),
    /// IMSIs that are still to be told.
    Imsis(ImsiList),
}

/// Puts an object into a handle that is empty.
pub(crate) fn fill(
    handle: CamelHandle,
    with: (Global, Object),
) -> (CamelHandle, Result<(), Failure>)
    ensures filled { OnOk result.1 ((handle.value ≡ None) × (result.0.value ≡ Some with.1)) }
    ensures unchanged { OnErr result.1 (result.0.value ≡ handle.value) }
    ensures only { handle.value ≡ None → IfErr result.1 (λ why. why ≡ failure.Refused Refusal.OutOfMemory) }
    ensures full { (handle.value ≡ None) ⊎ (result.1 ≡ Err failure.FullHandle) }
{
    let (alloc, object) = with;
    match handle.into_box(alloc) {
        Some(held) => {
            drop(object);
            (CamelHandle::of(held), Err(Failure::FullHandle))
        }
        None => match Box::new(alloc, object) {
            Ok(whole) => (CamelHandle::of(whole), Ok(())),
            Err(_) => (
                CamelHandle::empty(),
                Err(Failure::Refused(Refusal::OutOfMemory)),
            ),
        },
    }
}

/// Puts an object into the handle if that is empty, and gives the status: 504 if it is not, and 102 if memory was
/// refused.
pub(crate) fn put(alloc: Global, handle: &mut CamelHandle, object: Object) -> u32
    ensures { Fills object result handle.old.value handle.new.value }
{
    match replace_with(handle, (alloc, object), fill) {
        Ok(()) => 0,
        Err(why) => why.code(),
    }
}

/// Frees what a handle holds, and leaves it empty. An empty one stays so.
///
/// A store that was not closed ends too: each look that is held goes on until it is left, and no session begins
/// another. Its data are freed when the last of them is left.
#[inline(never)]
#[unsafe(no_mangle)]
pub extern "C" fn camel_empty(alloc: Global, handle: &mut CamelHandle)
    ensures { handle.new.value ≡ None }
{
    replace_with(handle, alloc, empty);
}

fn empty(handle: CamelHandle, alloc: Global) -> (CamelHandle, ())
    ensures { result.0.value ≡ None }
{
    if let Some(held) = handle.into_box(alloc) {
        drop(held);
    }
    (CamelHandle::empty(), ())
}

/// What a handle may be asked for: a kind of object, or a part of one.
pub(crate) trait Kind: Sized {
    ghost use Rattle.std.specs.Borrow.{LendsIf, sem};
    ghost use Rattle.std.specs.Option.{option_copied_mut};
    ghost use Rattle.camel_c.specs.contracts.object.Object.{the_row};
    ghost use Rattle.camel_c.specs.declared.object.Object.{Object};

    /// The object that has it.
    ghost whole: { Self → Object };

    /// What an object has of this kind, borrowed where it is.
    fn within(held: &mut Object) -> Option<&mut Self>
        ensures* writes_back { sem 𝓛 (LendsIf the_row Self.row held.entry result whole held.entry.now) }
        ensures value { MatchOption (option_copied_mut result) ((own : Self) → held.old ≢ whole own)
            (λ own. held.old ≡ whole own) };
}

impl Kind for Store {
    ghost whole = { object.Store };

    #[inline]
    fn within(held: &mut Object) -> Option<&mut Store> {
        match held {
            Object::Store(own) => Some(own),
            _ => None,
        }
    }
}

impl Kind for ThreadSession {
    ghost whole = { object.Session };

    #[inline]
    fn within(held: &mut Object) -> Option<&mut ThreadSession> {
        match held {
            Object::Session(own) => Some(own),
            _ => None,
        }
    }
}

impl Kind for KeptSubscriber {
    ghost whole = { object.Kept };

    #[inline]
    fn within(held: &mut Object) -> Option<&mut KeptSubscriber> {
        match held {
            Object::Kept(own) => Some(own),
            _ => None,
        }
    }
}

impl Kind for Arrival {
    ghost whole = { object.Update };

    #[inline]
    fn within(held: &mut Object) -> Option<&mut Arrival> {
        match held {
            Object::Update(own) => Some(own),
            _ => None,
        }
    }
}

impl Kind for ImsiList {
    ghost whole = { object.Imsis };

    #[inline]
    fn within(held: &mut Object) -> Option<&mut ImsiList> {
        match held {
            Object::Imsis(own) => Some(own),
            _ => None,
        }
    }
}

/// A store that takes updates.
impl Kind for LiveStore {
    ghost whole = { live_store };

    #[inline]
    fn within(held: &mut Object) -> Option<&mut LiveStore> {
        match held {
            Object::Store(store) => match &mut store.stage {
                Stage::Live(live) => Some(live),
                Stage::Closing(_) | Stage::Closed => None,
            },
            _ => None,
        }
    }
}

/// That this is proved shows that each kind of object is `Send`: C may hand any handle to another thread.
pub fn are_sendable(
    store: Store,
    session: ThreadSession,
    kept: KeptSubscriber,
    update: Arrival,
    imsis: ImsiList,
) {
    hand_over(store);
    hand_over(session);
    hand_over(kept);
    hand_over(update);
    hand_over(imsis);
}

fn hand_over<T: Send + Drop>(object: T) {
    drop(object);
}
