//! Sessions: their looks, what one decides, and what it learns.

ghost use Rattle.std.specs.Prelude.{◌≡◌, ◌≢◌, ◌⊎◌, true, false, Ok, Some, None, IfSome, IsErr};
ghost use Rattle.camel_rows.specs.Decision.{EventData, event_data};
ghost use Rattle.camel_rows.specs.declared.trigger.outcome.Answer.{Answer};
ghost use Rattle.camel_vlr.specs.Store.{Sees, SessionData};
ghost use Rattle.camel_c_data.specs.Event.{ShowsAnswer, event_in};
ghost use Rattle.camel_c.specs.Object.{HoldsAnySession, HoldsLook, HoldsSession};
ghost use Rattle.camel_c.specs.Session.{BeginsLook, Decides, IsForeign, IsWithoutLook, LearnsReceipt, Looks, MayLook};
ghost use Rattle.camel_c.specs.Session.{RejectsReceipt, with_session};
ghost use Rattle.camel_c.specs.declared.object.Object.TheVariants as object;
ghost use Rattle.camel_c.specs.declared.session.ThreadSession.{ThreadSession};

pub(crate) mod shown;

use crate::{CamelHandle, Failure};
use camel_c_data::{CamelAnswer, CamelDecisions, CamelEvent, CamelReceipt};
use camel_criteria::Refusal;
use camel_rows::Event;
use camel_vlr::WaitFreeSession;

/// A session with what C may ask of it. Each call that looks has a look of its own, or shares the one that has begun.
#[derive(Drop)]
pub struct ThreadSession {
    pub session: WaitFreeSession,
    /// The number of its store, which is that of its receipts.
    pub store: u64,
    /// How many events it has decided at each detection point with each reason.
    pub decisions: CamelDecisions,
}

impl ThreadSession {
    /// Begins a look, unless one has begun. Returns whether one had begun; None if the store has ended, and then
    /// nothing is changed.
    #[inline(always)]
    pub(crate) fn begin(&mut self) -> Option<bool>
        ensures same { self.new ≡ with_session self.old self.new.session }
        ensures looks { IfSome result
            (λ had_begun. (had_begun ≡ self.old.session.looks) × (self.new.session.looks ≡ true)) }
        ensures sees { IfSome result (λ had_begun. had_begun ≡ false → Sees self.old.session self.new.session) }
        ensures shares { self.old.session.looks ≡ true → (result ≡ Some true) × (self.new.session ≡ self.old.session) }
        ensures no_look { result ≡ None → self.new ≡ self.old }
    {
        if self.session.is_looking() {
            return Some(true);
        }
        if self.session.enter() {
            Some(false)
        } else {
            None
        }
    }

    /// Leaves the look, unless it had begun before.
    #[inline]
    pub(crate) fn end(&mut self, had_begun: bool)
        requires { self.old.session.looks ≡ true }
        ensures { self.new ≡ with_session self.old (record self.old.session { looks = had_begun }) }
    {
        if !had_begun {
            self.session.leave();
        }
    }
}

/// Begins a look, so that all calls until `camel_leave` are over one front, which extends all that the session saw and
/// learnt. It takes no memory and does not wait. It lets the next publication go through, and holds up the one after
/// it.
///
/// It fails with 501 if a look has begun, with 503 if the handle holds no session, and with 104 if the store has ended.
/// Then nothing is changed.
#[unsafe(no_mangle)]
pub extern "C" fn camel_look(session: &mut CamelHandle) -> u32
    ensures began { result ≡ 0 → BeginsLook session.old.value session.new.value }
    ensures unchanged { result ≢ 0 → session.new.value ≡ session.old.value }
    ensures only { HoldsSession session.old.value → (result ≡ 0) ⊎ (result ≡ 104) }
    ensures held { HoldsLook session.old.value → result ≡ 501 }
    ensures wrong { HoldsAnySession session.old.value ⊎ (result ≡ 503) }
{
    let Some(own) = session.lend::<ThreadSession>() else {
        return Failure::WrongHandle.code();
    };
    if own.session.is_looking() {
        Failure::Held.code()
    } else if own.session.enter() {
        0
    } else {
        Failure::Refused(Refusal::NoGuard).code()
    }
}

/// Leaves the look, if one has begun. It takes no memory and does not wait.
///
/// It fails with 503 if the handle holds no session; then nothing is changed.
#[unsafe(no_mangle)]
pub extern "C" fn camel_leave(session: &mut CamelHandle) -> u32
    ensures left { result ≡ 0 → IsWithoutLook session.old.value session.new.value }
    ensures unchanged { result ≢ 0 → session.new.value ≡ session.old.value }
    ensures only { HoldsAnySession session.old.value → result ≡ 0 }
    ensures wrong { HoldsAnySession session.old.value ⊎ (result ≡ 503) }
{
    let Some(own) = session.lend::<ThreadSession>() else {
        return Failure::WrongHandle.code();
    };
    own.session.leave();
    0
}

/// Decides an event, over the look that has begun, or else by a look of its own, writes the answer, and counts it. It
/// takes no memory and does not wait.
///
/// It fails with 502 if the event is none, with 503 if the handle holds no session, and with 104 if the store has
/// ended. Then nothing is changed, and the answer is as it was.
#[unsafe(no_mangle)]
pub extern "C" fn camel_decide(
    session: &mut CamelHandle,
    event: &CamelEvent,
    answer: &mut CamelAnswer,
) -> u32
    ensures looks { Looks (IsErr (event_in event.now))
        (λ own shown left. (asked : EventData) × (given : Answer) × (event_in event.now ≡ Ok asked)
        × ShowsAnswer given answer.new × Decides asked given own shown left)
        result session.old.value session.new.value }
    ensures unwritten { result ≢ 0 → answer.new ≡ answer.old }
{
    let mut room = None;
    event.lend(&mut room);
    let Some(asked) = &room else {
        return Failure::Malformed.code();
    };
    let Some(own) = session.lend::<ThreadSession>() else {
        return Failure::WrongHandle.code();
    };
    own.decide(asked, answer)
}

impl ThreadSession {
    // As a call of its own: put into its caller, the event would be moved in the pieces of its kinds, and a processor
    // waits when it reads a field that was written in pieces.
    #[inline(never)]
    fn decide(&mut self, event: &Event, answer: &mut CamelAnswer) -> u32
        ensures decided { result ≡ 0 → (given : Answer) × (shown : SessionData) × ShowsAnswer given answer.new
            × Decides (event_data event.now) given self.old shown self.new }
        ensures unchanged { result ≢ 0 → self.new ≡ self.old }
        ensures only { (result ≡ 0) ⊎ (result ≡ 104) }
        ensures looking { self.old.session.looks ≡ true → result ≡ 0 }
        ensures unwritten { result ≢ 0 → answer.new ≡ answer.old }
    {
        let Some(had_begun) = self.begin() else {
            return Failure::Refused(Refusal::NoGuard).code();
        };
        answer.write(self.session.front(), &self.session.decide(event));
        self.decisions.count(event, answer.reason);
        self.end(had_begun);
        0
    }
}

/// Writes how many events a session has decided at each detection point with each reason: by its looks, at set-ups, and
/// by records that are kept.
///
/// It fails with 503 if the handle holds no session, and leaves the counts as they were.
#[unsafe(no_mangle)]
pub extern "C" fn camel_decisions_of(
    session: &mut CamelHandle,
    decisions: &mut CamelDecisions,
) -> u32
    ensures counted { result ≡ 0 → (own : ThreadSession) × (session.old.value ≡ Some (object.Session own))
        × (decisions.new ≡ own.decisions) }
    ensures same { session.new.value ≡ session.old.value }
    ensures unwritten { result ≢ 0 → decisions.new ≡ decisions.old }
    ensures only { HoldsAnySession session.old.value → result ≡ 0 }
    ensures wrong { HoldsAnySession session.old.value ⊎ (result ≡ 503) }
{
    let Some(own) = session.lend::<ThreadSession>() else {
        return Failure::WrongHandle.code();
    };
    *decisions = own.decisions;
    0
}

/// Lets a session learn a receipt: it looks at what is published, and leaves the look, so its later looks show at least
/// what the receipt says. It takes no memory and does not wait.
///
/// It fails with 501 if a look has begun, with 503 if the handle holds no session, with 505 if the receipt is of
/// another store, and with 104 if the store has ended; then nothing is changed. It fails with 505 too if the receipt is
/// of more updates than the session's store has published: then the session has looked.
#[unsafe(no_mangle)]
pub extern "C" fn camel_learn(session: &mut CamelHandle, receipt: &CamelReceipt) -> u32
    ensures learnt { result ≡ 0 → (own : ThreadSession) × (shown : SessionData) × (left : ThreadSession)
        × (session.old.value ≡ Some (object.Session own)) × (session.new.value ≡ Some (object.Session left))
        × LearnsReceipt receipt.now own shown left }
    ensures other { result ≡ 505 → RejectsReceipt receipt.now session.old.value session.new.value }
    ensures foreign { IsForeign receipt.now session.old.value → result ≡ 505 }
    ensures unchanged { result ≢ 0 → result ≢ 505 → session.new.value ≡ session.old.value }
    ensures looked { MayLook session.old.value session.new.value }
    ensures only { HoldsSession session.old.value → (result ≡ 0) ⊎ ((result ≡ 104) ⊎ (result ≡ 505)) }
    ensures held { HoldsLook session.old.value → result ≡ 501 }
    ensures wrong { HoldsAnySession session.old.value ⊎ (result ≡ 503) }
{
    let Some(own) = session.lend::<ThreadSession>() else {
        return Failure::WrongHandle.code();
    };
    if own.session.is_looking() {
        return Failure::Held.code();
    }
    if own.store != receipt.store {
        return Failure::OtherStore.code();
    }
    let Some(had_begun) = own.begin() else {
        return Failure::Refused(Refusal::NoGuard).code();
    };
    let front = own.session.front();
    own.end(had_begun);
    if front < receipt.front {
        Failure::OtherStore.code()
    } else {
        0
    }
}
