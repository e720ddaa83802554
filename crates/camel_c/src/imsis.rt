//! The IMSIs that have a record: a list that a session fills, and that tells them one by one.

ghost use Rattle.std.specs.Prelude.{◌≡◌, ◌≢◌, ◌⊎◌, ◌++◌, [], ◌∷◌, true, None, Option, Some, IfErr, IfOk, MatchOption};
ghost use Rattle.std.specs.Prelude.{List, ℕ};
ghost use Rattle.camel_criteria.specs.declared.refusal.Refusal.TheVariants as refusal;
ghost use Rattle.camel_rows.specs.Update.{records_of};
ghost use Rattle.camel_table.specs.ByImsi.{ListsEachOnce};
ghost use Rattle.camel_c.specs.Object.{FillsImsis, HoldsImsis, TellsNext};
ghost use Rattle.camel_c.specs.Session.{Fetches, Shows};
ghost use Rattle.camel_c.specs.declared.object.Object.TheVariants as object;

use crate::object::{Object, put};
use crate::session::ThreadSession;
use crate::{CamelHandle, Failure};
use camel_c_data::CamelImsi;
use camel_criteria::Refusal;
use camel_tbcd::Imsi;
use camel_vlr::WaitFreeSession;
use std::alloc::Global;
use std::marker::Model;

/// The IMSIs of one front that are still to be told, in no order that is promised.
///
/// Contracts see a list of them, of which the last one is the next.
#[derive(Drop)]
pub struct ImsiList {
    left: Vec<Imsi>,
}

impl Model for ImsiList {
    ghost use Rattle.std.specs.Prelude.{ℕ, List};
    ghost use Rattle.std.specs.Coded.{coded_ℕ, coded_list};

    ghost Value = { List (List ℕ) };

    ghost coded = { coded_list (coded_list coded_ℕ) };

    ghost view = { λ a. a.left.items };
}

impl ImsiList {
    /// The IMSIs that have a record over the front of a look. Fails with `OutOfMemory` (102) if memory is refused.
    pub(crate) fn shown_by(session: &WaitFreeSession) -> Result<ImsiList, Refusal>
        requires { session.now.looks ≡ true }
        ensures each_once { IfOk result (λ imsis. ListsEachOnce imsis (records_of session.now.seen)) }
        ensures only { IfErr result (λ why. why ≡ refusal.OutOfMemory) }
    {
        Ok(ImsiList {
            left: session.records().imsis()?,
        })
    }

    /// Takes the next IMSI out, if there is one.
    pub(crate) fn take_next(&mut self) -> Option<Imsi>
        ensures { MatchOption result ((self.old ≡ []) × (self.new ≡ [])) (λ next. self.old ≡ self.new ++ next ∷ []) }
    {
        self.left.pop()
    }
}

/// Fills an empty handle with the IMSIs that have a record, over the look that has begun, or else by a look of its own:
/// a list of one front, in no order that is promised, each once. `camel_next_imsi` tells them.
///
/// It fails with 503 if the first handle holds no session, with 504 if the one to be filled is not empty, and with 104
/// if the store has ended; then nothing is changed. It fails with 102 if memory was refused: then the session has
/// looked, and the handle to be filled is empty.
#[unsafe(no_mangle)]
pub extern "C" fn camel_imsis_of(
    alloc: Global,
    session: &mut CamelHandle,
    imsis: &mut CamelHandle,
) -> u32
    ensures fetches { Fetches ⊥ (imsis.old.value ≡ None)
        (λ own shown left. Shows own shown left × FillsImsis shown imsis.old.value imsis.new.value)
        result session.old.value session.new.value }
    ensures unwritten { result ≢ 0 → imsis.new.value ≡ imsis.old.value }
{
    let Some(own) = session.lend::<ThreadSession>() else {
        return Failure::WrongHandle.code();
    };
    if imsis.is_full() {
        return Failure::FullHandle.code();
    }
    let Some(had_begun) = own.begin() else {
        return Failure::Refused(Refusal::NoGuard).code();
    };
    let listed = ImsiList::shown_by(&own.session);
    own.end(had_begun);
    match listed {
        Ok(listed) => put(alloc, imsis, Object::Imsis(listed)),
        Err(why) => Failure::Refused(why).code(),
    }
}

/// Writes the next of the IMSIs that are listed, and tells whether there is one; behind the last one there is none, and
/// the IMSI is as it was. It takes no memory.
///
/// It fails with 503 if the handle holds no IMSIs. Then nothing is written.
#[unsafe(no_mangle)]
pub extern "C" fn camel_next_imsi(
    imsis: &mut CamelHandle,
    imsi: &mut CamelImsi,
    is_there: &mut u8,
) -> u32
    ensures told { result ≡ 0 → (listed left : List (List ℕ)) × (next : Option (List ℕ))
        × (imsis.old.value ≡ Some (object.Imsis listed)) × (imsis.new.value ≡ Some (object.Imsis left))
        × TellsNext next listed left imsi.old imsi.new is_there.new }
    ensures unchanged { result ≢ 0 → imsis.new.value ≡ imsis.old.value }
    ensures unwritten { result ≢ 0 → (imsi.new ≡ imsi.old) × (is_there.new ≡ is_there.old) }
    ensures only { HoldsImsis imsis.old.value → result ≡ 0 }
    ensures wrong { HoldsImsis imsis.old.value ⊎ (result ≡ 503) }
{
    let Some(listed) = imsis.lend::<ImsiList>() else {
        return Failure::WrongHandle.code();
    };
    match listed.take_next() {
        Some(next) => {
            *imsi = CamelImsi::of(&next);
            *is_there = 1;
        }
        None => *is_there = 0,
    }
    0
}
