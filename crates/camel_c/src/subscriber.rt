//! The records of subscribers: one that a call keeps, what is decided by it, and the argument that makes one.

ghost use Rattle.std.specs.Prelude.{◌≡◌, ◌≢◌, ◌⊎◌, Ok, None, Some, IfErr, IfOk, IsErr, OnErr, OnOk, List, ℕ, true};
ghost use Rattle.camel_criteria.specs.declared.refusal.Refusal.TheVariants as refusal;
ghost use Rattle.camel_rows.specs.Decision.{EventData, event_data};
ghost use Rattle.camel_rows.specs.Subscriber.{row_at};
ghost use Rattle.camel_map.specs.Encoding.{insert_of_record, octets_of_update};
ghost use Rattle.camel_c_data.specs.Event.{ShowsAnswer, event_in};
ghost use Rattle.camel_c_data.specs.Fields.{imsi_in};
ghost use Rattle.camel_c_data.specs.Update.{ShowsRow};
ghost use Rattle.camel_c.specs.Object.{HoldsAnySession, MakesRecord};
ghost use Rattle.camel_c.specs.Session.{CountsDecision, Fetches, FillsKept, Finds, HoldsKept, KeepsShown, SetsUp};
ghost use Rattle.camel_c.specs.Session.{Shows, ShowsWritten, answer_by, record_shown};
ghost use Rattle.camel_c.specs.declared.object.Object.TheVariants as object;
ghost use Rattle.camel_c.specs.declared.subscriber.KeptSubscriber.{KeptSubscriber};

use crate::object::{Object, fill};
use crate::session::ThreadSession;
use crate::session::shown::write;
use crate::{CamelArgument, CamelHandle, Failure};
use camel_c_data::{CamelAnswer, CamelEvent, CamelImsi, CamelRow};
use camel_criteria::Refusal;
use camel_map::encode_record;
use camel_rows::{Event, Subscriber};
use camel_tbcd::{Imsi, Profile};
use camel_vlr::WaitFreeSession;
use core::mem::replace_with;
use std::alloc::{AllocError, Global};

/// A copy of the record of a subscriber, which later updates do not change.
#[derive(Drop)]
pub struct KeptSubscriber {
    pub subscriber: Subscriber,
    /// The profile of the session that it is from.
    pub profile: Profile,
    /// How many updates the front has that it is from.
    pub front: u64,
}

impl KeptSubscriber {
    /// A copy of the record that the look of a session shows, if there is one. It fails with 102 if memory was refused.
    pub(crate) fn shown_by(
        session: &WaitFreeSession,
        imsi: &Imsi,
    ) -> Result<Option<KeptSubscriber>, Refusal>
        requires { session.now.looks ≡ true }
        ensures kept { IfOk result (KeepsShown session.now (record_shown session.now imsi.now)) }
        ensures only { IfErr result (λ why. why ≡ refusal.OutOfMemory) }
    {
        let Some(stored) = session.records().get(imsi) else {
            return Ok(None);
        };
        Ok(Some(KeptSubscriber {
            subscriber: stored.copy()?,
            profile: session.profile(),
            front: session.front(),
        }))
    }

    fn decide(&self, event: &Event, answer: &mut CamelAnswer)
        ensures { ShowsAnswer (answer_by self.now (event_data event.now)) answer.new }
    {
        answer.write(self.front, &self.subscriber.decide(event, self.profile));
    }
}

/// Fills an empty handle with a copy of the record of a subscriber, over the look that has begun, or else by a look of
/// its own, and tells whether there is a record; if there is none, the handle stays empty.
///
/// It fails with 502 if the IMSI is none, with 503 if the first handle holds no session, with 504 if the one to be
/// filled is not empty, and with 104 if the store has ended; then nothing is changed. It fails with 102 if memory was
/// refused: then the session has looked. Nothing is written if it fails.
#[unsafe(no_mangle)]
pub extern "C" fn camel_keep(
    alloc: Global,
    session: &mut CamelHandle,
    imsi: &CamelImsi,
    subscriber: &mut CamelHandle,
    is_there: &mut u8,
) -> u32
    ensures fetches { Fetches (IsErr (imsi_in imsi.now)) (subscriber.old.value ≡ None)
        (λ own shown left. Shows own shown left × (asked : List ℕ) × (imsi_in imsi.now ≡ Ok asked)
        × FillsKept shown (record_shown shown asked) subscriber.old.value subscriber.new.value is_there.new)
        result session.old.value session.new.value }
    ensures unwritten { result ≢ 0
        → (subscriber.new.value ≡ subscriber.old.value) × (is_there.new ≡ is_there.old) }
{
    let Ok(asked) = imsi.read() else {
        return Failure::Malformed.code();
    };
    let Some(own) = session.lend::<ThreadSession>() else {
        return Failure::WrongHandle.code();
    };
    if subscriber.is_full() {
        return Failure::FullHandle.code();
    }
    let Some(had_begun) = own.begin() else {
        return Failure::Refused(Refusal::NoGuard).code();
    };
    let kept = keep_shown(alloc, &own.session, &asked, subscriber, is_there);
    own.end(had_begun);
    match kept {
        Ok(()) => 0,
        Err(why) => Failure::Refused(why).code(),
    }
}

/// Fills an empty handle with a copy of the record that the look of a session shows, and tells whether there is one.
/// Fails with `OutOfMemory` (102).
pub(crate) fn keep_shown(
    alloc: Global,
    session: &WaitFreeSession,
    imsi: &Imsi,
    subscriber: &mut CamelHandle,
    is_there: &mut u8,
) -> Result<(), Refusal>
    requires looks { session.now.looks ≡ true }
    requires empty { subscriber.old.value ≡ None }
    ensures kept { OnOk result
        (FillsKept session.now (record_shown session.now imsi.now)
        subscriber.old.value subscriber.new.value is_there.new) }
    ensures unwritten { OnErr result
        ((subscriber.new.value ≡ subscriber.old.value) × (is_there.new ≡ is_there.old)) }
    ensures only { IfErr result (λ why. why ≡ refusal.OutOfMemory) }
{
    match KeptSubscriber::shown_by(session, imsi)? {
        Some(kept) => match replace_with(subscriber, (alloc, Object::Kept(kept)), fill) {
            Ok(()) => *is_there = 1,
            Err(_) => return Err(Refusal::OutOfMemory),
        },
        None => *is_there = 0,
    }
    Ok(())
}

/// Decides an event and counts it, as `camel_decide` does, and fills an empty handle with a copy of the record of its
/// subscriber, as `camel_keep` does, over one front: that of the look that has begun, or else of a look of its own. It
/// does not wait.
///
/// It fails with 502 if the event is none, with 503 if the first handle holds no session, with 504 if the one to be
/// filled is not empty, and with 104 if the store has ended; then nothing is changed. It fails with 102 if memory was
/// refused: then the session has looked, and nothing is decided. Nothing is written if it fails.
#[unsafe(no_mangle)]
pub extern "C" fn camel_set_up(
    alloc: Global,
    session: &mut CamelHandle,
    event: &CamelEvent,
    answer: &mut CamelAnswer,
    subscriber: &mut CamelHandle,
    is_there: &mut u8,
) -> u32
    ensures fetches { Fetches (IsErr (event_in event.now)) (subscriber.old.value ≡ None)
        (λ own shown left. (asked : EventData) × (event_in event.now ≡ Ok asked)
        × SetsUp asked answer.new subscriber.old.value subscriber.new.value is_there.new own shown left)
        result session.old.value session.new.value }
    ensures unwritten { result ≢ 0 → (answer.new ≡ answer.old)
        × (subscriber.new.value ≡ subscriber.old.value) × (is_there.new ≡ is_there.old) }
{
    let mut room = None;
    event.lend(&mut room);
    let Some(asked) = &room else {
        return Failure::Malformed.code();
    };
    let Some(own) = session.lend::<ThreadSession>() else {
        return Failure::WrongHandle.code();
    };
    if subscriber.is_full() {
        return Failure::FullHandle.code();
    }
    let Some(had_begun) = own.begin() else {
        return Failure::Refused(Refusal::NoGuard).code();
    };
    let kept = keep_shown(alloc, &own.session, &asked.imsi(), subscriber, is_there);
    let status = match kept {
        Ok(()) => {
            answer.write(own.session.front(), &own.session.decide(asked));
            own.decisions.count(asked, answer.reason);
            0
        }
        Err(why) => Failure::Refused(why).code(),
    };
    own.end(had_begun);
    status
}

/// Decides an event by a record that is kept, whatever was published since, writes the answer, with the front that the
/// record is from, and has a session count it. The IMSI of the event has to be one, and is not compared with that of
/// the record. The session may be of another store, or of one that has ended. It takes no memory and does not wait.
///
/// It fails with 502 if the event is none, and with 503 if the first handle holds no session or the other one no
/// record; then nothing is changed, and the answer is as it was.
#[unsafe(no_mangle)]
pub extern "C" fn camel_decide_kept(
    session: &mut CamelHandle,
    subscriber: &mut CamelHandle,
    event: &CamelEvent,
    answer: &mut CamelAnswer,
) -> u32
    ensures decided { result ≡ 0 → (asked : EventData) × (kept : KeptSubscriber) × (event_in event.now ≡ Ok asked)
        × (subscriber.old.value ≡ Some (object.Kept kept)) × ShowsAnswer (answer_by kept asked) answer.new
        × CountsDecision asked (answer_by kept asked) session.old.value session.new.value }
    ensures unwritten { result ≢ 0 → answer.new ≡ answer.old }
    ensures uncounted { result ≢ 0 → session.new.value ≡ session.old.value }
    ensures same { subscriber.new.value ≡ subscriber.old.value }
    ensures malformed { IsErr (event_in event.now) → result ≡ 502 }
    ensures only { HoldsAnySession session.old.value → HoldsKept subscriber.old.value
        → IsErr (event_in event.now) ⊎ (result ≡ 0) }
    ensures session { HoldsAnySession session.old.value ⊎ (IsErr (event_in event.now) ⊎ (result ≡ 503)) }
    ensures wrong { HoldsKept subscriber.old.value ⊎ (IsErr (event_in event.now) ⊎ (result ≡ 503)) }
{
    let mut room = None;
    event.lend(&mut room);
    let Some(asked) = &room else {
        return Failure::Malformed.code();
    };
    let Some(own) = session.lend::<ThreadSession>() else {
        return Failure::WrongHandle.code();
    };
    let Some(kept) = subscriber.lend::<KeptSubscriber>() else {
        return Failure::WrongHandle.code();
    };
    kept.decide(asked, answer);
    own.decisions.count(asked, answer.reason);
    0
}

/// Tells whether a record that is kept has a row at a detection point, and writes the row if there is one. It takes no
/// memory and does not wait.
///
/// It fails with 503 if the handle holds no record; then nothing is written.
#[unsafe(no_mangle)]
pub extern "C" fn camel_kept_row_at(
    subscriber: &mut CamelHandle,
    dp: u8,
    row: &mut CamelRow,
    is_there: &mut u8,
) -> u32
    ensures shown { result ≡ 0 → (kept : KeptSubscriber) × (subscriber.old.value ≡ Some (object.Kept kept))
        × ShowsWritten ShowsRow (row_at dp kept.subscriber) row.old row.new is_there.new }
    ensures unwritten { result ≢ 0 → (row.new ≡ row.old) × (is_there.new ≡ is_there.old) }
    ensures same { subscriber.new.value ≡ subscriber.old.value }
    ensures only { HoldsKept subscriber.old.value → result ≡ 0 }
    ensures wrong { HoldsKept subscriber.old.value ⊎ (result ≡ 503) }
{
    let Some(kept) = subscriber.lend::<KeptSubscriber>() else {
        return Failure::WrongHandle.code();
    };
    write(kept.subscriber.row(dp).map(CamelRow::of), row, is_there);
    0
}

/// Tells whether a subscriber has a record, over the look that has begun, or else by a look of its own, and writes the
/// argument of the InsertSubscriberData that makes it where the subscriber has just registered (TS 29.002): the
/// parameter of a TCAP invoke, in BER. Octets behind those of the argument are 0.
///
/// It fails with 502 if the IMSI is none, with 503 if the handle holds no session, and with 104 if the store has ended;
/// then nothing is changed. It fails with 102 if memory was refused: then the session has looked. Nothing is written if
/// it fails.
#[unsafe(no_mangle)]
pub extern "C" fn camel_encode_record(
    alloc: Global,
    session: &mut CamelHandle,
    imsi: &CamelImsi,
    argument: &mut CamelArgument,
    is_there: &mut u8,
) -> u32
    ensures fetches { Fetches (IsErr (imsi_in imsi.now)) (Unit {0})
        (λ own shown left. Shows own shown left × (asked : List ℕ) × (imsi_in imsi.now ≡ Ok asked)
        × ShowsWritten (MakesRecord asked) (record_shown shown asked) argument.old argument.new is_there.new)
        result session.old.value session.new.value }
    ensures unwritten { result ≢ 0 → (argument.new ≡ argument.old) × (is_there.new ≡ is_there.old) }
{
    let Ok(asked) = imsi.read() else {
        return Failure::Malformed.code();
    };
    let Some(own) = session.lend::<ThreadSession>() else {
        return Failure::WrongHandle.code();
    };
    let Some(had_begun) = own.begin() else {
        return Failure::Refused(Refusal::NoGuard).code();
    };
    let found = octets_shown(&own.session, alloc, &asked);
    own.end(had_begun);
    match found {
        Ok(Some(octets)) => match argument.set(&octets) {
            Ok(()) => *is_there = 1,
            // No record meets this: an argument has room for each.
            Err(_) => return Failure::Refused(Refusal::OutOfMemory).code(),
        },
        Ok(None) => *is_there = 0,
        Err(_) => return Failure::Refused(Refusal::OutOfMemory).code(),
    }
    0
}

/// The octets of the Insert that makes the record which the look of a session shows, if there is one.
///
/// Fails if memory is refused.
fn octets_shown(
    session: &WaitFreeSession,
    alloc: Global,
    imsi: &Imsi,
) -> Result<Option<Vec<u8>>, AllocError>
    requires { session.now.looks ≡ true }
    ensures { IfOk result (Finds (λ stored octets. octets.items ≡ octets_of_update (insert_of_record imsi.now stored))
        (record_shown session.now imsi.now)) }
{
    let Some(stored) = session.records().get(imsi) else {
        return Ok(None);
    };
    let mut octets = Vec::new(alloc);
    encode_record(imsi, stored, &mut octets)?;
    Ok(Some(octets))
}
