//! Stores of both bases, by the calls that tests make of each.

ghost use Rattle.std.specs.Prelude.{◌≡◌, IfOk};

use camel_criteria::Refusal;
use camel_fixtures::{
    EntrySummary, RowSummary, StoredSummary, entry_summary, row_summary, stored_summary,
};
use camel_rows::{Answer, CallEvent, Outcome, Update};
use camel_table::Seed;
use camel_tbcd::{Imsi, Profile};
use camel_vlr::{Rejected, Session, Vlr, WaitFreeSession, WaitFreeVlr};
use std::alloc::Global;
use std::sync::Wait;

/// The most updates that a test's store takes.
pub(crate) const LIMIT: u64 = 20_000;

/// What a look shows of a subscriber: its front, the outcome of a call, and the row and the entry of detection point 2,
/// by the calls of the look and by its records.
pub(crate) type Shown = (
    u64,
    Outcome,
    Option<RowSummary>,
    Option<EntrySummary>,
    Option<StoredSummary>,
);

/// How many updates are published and pending, how many subscribers have a record, and the profile.
pub(crate) type Counts = (u64, u64, usize, Profile);

/// A session of either base.
pub(crate) trait AnySession: Drop + Send {
    fn own_profile(&self) -> Profile;

    /// What a look shows; None if there is no look.
    fn shown(&mut self, imsi: &Imsi, call: &CallEvent) -> Option<Shown>;

    fn answered(&mut self, call: &CallEvent) -> Option<Answer>;

    fn all_answered(
        &mut self,
        calls: &[CallEvent],
        answers: &mut Vec<Answer>,
    ) -> Result<(), Refusal>;

    /// Begins a look that is held, and returns whether there is one.
    fn hold(&mut self) -> bool;

    /// The front of the look that is held; None without one.
    fn held_front(&self) -> Option<u64>;

    fn let_go(&mut self);
}

/// A store of either base, whose writer has the handle `R`.
pub(crate) trait AnyStore<R>: Send + Sized {
    type Session: AnySession;

    /// An empty store, and two sessions of it.
    fn opened(rt: &R, alloc: Global) -> Result<(Self, Self::Session, Self::Session), Refusal>;

    fn accept(&mut self, update: Update) -> Result<u64, Refusal>;

    fn accept_all(&mut self, updates: Vec<Update>) -> Result<u64, Rejected>;

    /// Accepts an update, and drops it.
    fn accept_and_drop(&mut self, update: Update) -> Result<(), Refusal>;

    /// Publishes all that is pending. The front of the receipt; None if nothing is published.
    fn published_front(&mut self, rt: &R) -> Option<u64>;

    fn counts(&self) -> Counts;

    fn ended(self, rt: &R);
}

/// An empty store over `left_right`, and two sessions of it.
pub(crate) fn opened<R: Wait>(rt: &R, alloc: Global) -> Result<(Vlr, Session, Session), Refusal>
    ensures { IfOk result (λ opened. opened.1.store ≡ opened.0.store) }
{
    let seed = Seed::fixed();
    let (store, mut sessions) = Vlr::open_seeded(rt, alloc, 2, LIMIT, Profile::One, seed)?;
    match (sessions.pop(), sessions.pop()) {
        (Some(first), Some(second)) => Ok((store, first, second)),
        _ => {
            store.end(rt);
            Err(Refusal::NoPlace)
        }
    }
}

/// An empty store whose writer does not wait, and two sessions of it.
pub(crate) fn opened_wait_free(
    alloc: Global,
) -> Result<(WaitFreeVlr, WaitFreeSession, WaitFreeSession), Refusal>
    ensures { IfOk result (λ opened. opened.1.store ≡ opened.0.store) }
{
    let seed = Seed::fixed();
    let (store, mut sessions) = WaitFreeVlr::open_wait_free(alloc, 2, LIMIT, Profile::One, seed)?;
    match (sessions.pop(), sessions.pop()) {
        (Some(first), Some(second)) => Ok((store, first, second)),
        _ => {
            store.abandon();
            Err(Refusal::NoPlace)
        }
    }
}

impl AnySession for Session {
    fn own_profile(&self) -> Profile {
        self.profile()
    }

    fn shown(&mut self, imsi: &Imsi, call: &CallEvent) -> Option<Shown> {
        let look = self.look().ok()?;
        let outcome = Outcome::of(&look.decide(&call.lend()));
        let row = row_summary(look.row(imsi, 2));
        let entry = entry_summary(look.criteria(imsi, 2));
        let stored = stored_summary(look.records(), imsi, 2);
        let front = look.front();
        look.leave();
        Some((front, outcome, row, entry, stored))
    }

    fn answered(&mut self, call: &CallEvent) -> Option<Answer> {
        // The check needs this type named.
        let _: Option<Outcome> = None;
        self.answer(call).ok()
    }

    fn all_answered(
        &mut self,
        calls: &[CallEvent],
        answers: &mut Vec<Answer>,
    ) -> Result<(), Refusal> {
        self.answer_all(calls, answers)
    }

    fn hold(&mut self) -> bool {
        self.enter()
    }

    fn held_front(&self) -> Option<u64> {
        if self.is_looking() {
            Some(self.front())
        } else {
            None
        }
    }

    fn let_go(&mut self) {
        self.leave();
    }
}

impl AnySession for WaitFreeSession {
    fn own_profile(&self) -> Profile {
        self.profile()
    }

    fn shown(&mut self, imsi: &Imsi, call: &CallEvent) -> Option<Shown> {
        let look = self.look().ok()?;
        let outcome = Outcome::of(&look.decide(&call.lend()));
        let row = row_summary(look.row(imsi, 2));
        let entry = entry_summary(look.criteria(imsi, 2));
        let stored = stored_summary(look.records(), imsi, 2);
        let front = look.front();
        look.leave();
        Some((front, outcome, row, entry, stored))
    }

    fn answered(&mut self, call: &CallEvent) -> Option<Answer> {
        // The check needs this type named.
        let _: Option<Outcome> = None;
        self.answer(call).ok()
    }

    fn all_answered(
        &mut self,
        calls: &[CallEvent],
        answers: &mut Vec<Answer>,
    ) -> Result<(), Refusal> {
        self.answer_all(calls, answers)
    }

    fn hold(&mut self) -> bool {
        self.enter()
    }

    fn held_front(&self) -> Option<u64> {
        if self.is_looking() {
            Some(self.front())
        } else {
            None
        }
    }

    fn let_go(&mut self) {
        self.leave();
    }
}

impl<R: Wait> AnyStore<R> for Vlr {
    type Session = Session;

    fn opened(rt: &R, alloc: Global) -> Result<(Vlr, Session, Session), Refusal> {
        opened(rt, alloc)
    }

    fn accept(&mut self, update: Update) -> Result<u64, Refusal> {
        self.submit(update)
    }

    fn accept_all(&mut self, updates: Vec<Update>) -> Result<u64, Rejected> {
        self.submit_all(updates)
    }

    fn accept_and_drop(&mut self, update: Update) -> Result<(), Refusal> {
        self.submit(update)?;
        self.drop_pending()
    }

    fn published_front(&mut self, rt: &R) -> Option<u64> {
        Some(self.publish(rt).ok()?.front())
    }

    fn counts(&self) -> Counts {
        (
            self.published(),
            self.pending(),
            self.subscribers(),
            self.profile(),
        )
    }

    fn ended(self, rt: &R) {
        self.end(rt);
    }
}

impl<R> AnyStore<R> for WaitFreeVlr {
    type Session = WaitFreeSession;

    fn opened(
        _rt: &R,
        alloc: Global,
    ) -> Result<(WaitFreeVlr, WaitFreeSession, WaitFreeSession), Refusal> {
        opened_wait_free(alloc)
    }

    fn accept(&mut self, update: Update) -> Result<u64, Refusal> {
        self.submit(update)
    }

    fn accept_all(&mut self, updates: Vec<Update>) -> Result<u64, Rejected> {
        self.submit_all(updates)
    }

    fn accept_and_drop(&mut self, update: Update) -> Result<(), Refusal> {
        self.submit(update)?;
        self.drop_pending()
    }

    fn published_front(&mut self, _rt: &R) -> Option<u64> {
        Some(self.publish().ok()?.front())
    }

    fn counts(&self) -> Counts {
        (
            self.published(),
            self.pending(),
            self.subscribers(),
            self.profile(),
        )
    }

    fn ended(self, _rt: &R) {
        self.abandon();
    }
}
