//! A store with one session, on which the calls of a switch are made.

ghost use Rattle.std.specs.Prelude.{◌≡◌, IfOk, Some};

use crate::attempts::{Refusals, again};
use crate::failure::{Failure, Lost, check};
use crate::values::{KNOWN, SUBSCRIBERS};
use camel_criteria::Refusal;
use camel_fixtures::{
    EntrySummary, RowSummary, call_of, entry_summary, imsi_of, row_summary, row_update,
};
use camel_rows::{Answer, CallEvent, Records, Update};
use camel_table::Seed;
use camel_tbcd::{Imsi, Profile};
use camel_vlr::{CloseRefused, Of, Session, StoreName, Vlr};
use std::alloc::Global;
use std::sync::Wait;

/// How many updates a stage takes.
const LIMIT: u64 = 16;

/// The store `S` and a session of it.
pub(crate) struct Stage<S: StoreName> {
    store: Of<S, Vlr>,
    session: Of<S, Session>,
}

/// Whether the subscriber has a record, and the row and the entry of a detection point.
type PointShown = (bool, Option<RowSummary>, Option<EntrySummary>);

/// What looks show of a subscriber: the answer to a call, and all detection points.
#[derive(Clone, Copy, Debug, PartialEq, Eq)]
pub(crate) struct SubscriberShown {
    answer: Answer,
    points: [PointShown; 5],
}

/// What a store and its session show.
#[derive(Clone, Copy, Debug, PartialEq, Eq)]
pub(crate) struct Shown {
    pub(crate) published: u64,
    pub(crate) pending: u64,
    subscribers: [SubscriberShown; 7],
}

/// An empty store and its session.
pub(crate) fn open<R: Wait>(rt: &R, alloc: Global) -> Result<(Vlr, Session), Failure>
    ensures { IfOk result (λ opened. opened.1.store ≡ opened.0.store) }
{
    let seed = Seed::fixed();
    let (store, mut sessions) = Vlr::open_seeded(rt, alloc, 1, LIMIT, Profile::One, seed)?;
    match sessions.pop() {
        Some(session) => Ok((store, session)),
        None => {
            store.end(rt);
            Err(Failure::Lost(Lost::Session))
        }
    }
}

impl<S: StoreName> Stage<S> {
    /// A store and a session of it, which both have to be of the store `S`.
    pub(crate) fn new(store: Vlr, session: Session) -> Stage<S>
        requires store { S.store ≡ Some store.store }
        requires session { S.store ≡ Some session.store }
    {
        Stage {
            store: Of::new(store),
            session: Of::new(session),
        }
    }

    pub(crate) fn submit(&mut self, update: Update) -> Result<u64, Failure> {
        Ok(self.store.value.submit(update)?)
    }

    /// Publishes, and lets the session learn it. Returns the front.
    pub(crate) fn publish<R: Wait>(&mut self, rt: &R) -> Result<u64, Failure> {
        let receipt = self.store.value.publish(rt)?;
        let front = receipt.front();
        self.session.value.learn(receipt);
        Ok(front)
    }

    /// Lets the session learn all that is published.
    pub(crate) fn learn(&mut self) {
        let receipt = self.store.value.receipt();
        self.session.value.learn(receipt);
    }

    /// Whether the session has seen all that is published.
    pub(crate) fn has_seen_all(&self) -> bool {
        self.session.value.has_seen(&self.store.value.receipt())
    }

    pub(crate) fn answer(&mut self, call: &CallEvent) -> Result<Answer, Failure> {
        Ok(self.session.value.answer(call)?)
    }

    pub(crate) fn answer_all(
        &mut self,
        calls: &[CallEvent],
        answers: &mut Vec<Answer>,
    ) -> Result<(), Failure> {
        Ok(self.session.value.answer_all(calls, answers)?)
    }

    /// How many updates are published, and how many are pending.
    pub(crate) fn counts(&self) -> (u64, u64) {
        (self.store.value.published(), self.store.value.pending())
    }

    /// How many updates are accepted.
    pub(crate) fn accepted(&self) -> u64 {
        let (published, pending) = self.counts();
        published.saturating_add(pending)
    }

    pub(crate) fn shown(&mut self) -> Result<Shown, Failure> {
        let [known, second, stranger, fourth, fifth, sixth, seventh] = SUBSCRIBERS;
        let (published, pending) = self.counts();
        Ok(Shown {
            published,
            pending,
            subscribers: [
                self.subscriber_shown(known)?,
                self.subscriber_shown(second)?,
                self.subscriber_shown(stranger)?,
                self.subscriber_shown(fourth)?,
                self.subscriber_shown(fifth)?,
                self.subscriber_shown(sixth)?,
                self.subscriber_shown(seventh)?,
            ],
        })
    }

    fn subscriber_shown(&mut self, number: u64) -> Result<SubscriberShown, Failure> {
        let imsi = imsi_of(number)?;
        Ok(SubscriberShown {
            answer: self.answer(&call_of(imsi)?)?,
            points: [
                self.point_shown(&imsi, 2)?,
                self.point_shown(&imsi, 4)?,
                self.point_shown(&imsi, 12)?,
                self.point_shown(&imsi, 13)?,
                self.point_shown(&imsi, 14)?,
            ],
        })
    }

    fn point_shown(&mut self, imsi: &Imsi, dp: u8) -> Result<PointShown, Failure> {
        let Ok(look) = self.session.value.look() else {
            return Err(Failure::Lost(Lost::Look));
        };
        let is_known = look.records().get(imsi).is_some();
        let row = row_summary(look.row(imsi, dp));
        let entry = entry_summary(look.criteria(imsi, dp));
        look.leave();
        Ok((is_known, row, entry))
    }

    /// Fails unless the store and its session show what they showed.
    pub(crate) fn check_shown(&mut self, before: &Shown) -> Result<(), Failure> {
        let after = self.shown();
        check(after == Ok(*before), Lost::Shown)
    }

    /// Fails unless a row of a subscriber who has no record is rejected with `UnidentifiedSubscriber` (5).
    pub(crate) fn check_unknown(&mut self, number: u64) -> Result<(), Failure> {
        let rejected = self.submit(row_update(imsi_of(number)?)?);
        let unknown = Failure::from(Refusal::UnidentifiedSubscriber);
        check(rejected == Err(unknown), Lost::Unknown)
    }

    /// Prints what the store and its session show.
    pub(crate) fn print(&mut self, rt: &impl Print) -> Result<(), Failure> {
        let shown = self.shown()?;
        println!(rt; "{shown:?}")?;
        Ok(())
    }

    /// Closes the store. If it is not closed, it comes back.
    pub(crate) fn close<R: Wait>(self, rt: &R) -> Result<Records, (Refusal, Stage<S>)> {
        let Stage { store, mut session } = self;
        match store.value.close(rt, &mut session.value) {
            Ok(records) => Ok(records),
            Err(CloseRefused { why, store }) => Err((why, Stage::new(store, session.value))),
        }
    }

    /// The store and its session.
    pub(crate) fn into_parts(self) -> (Of<S, Vlr>, Of<S, Session>) {
        let Stage { store, session } = self;
        (store, session)
    }

    pub(crate) fn end<R: Wait>(self, rt: &R) {
        let (store, _session) = self.into_parts();
        store.value.end(rt);
    }
}

/// Registers the known subscriber, and publishes a row of it.
pub(crate) fn set<S: StoreName, R: AllocGlobal + Wait>(
    rt: &R,
    refusals: &mut Refusals,
    stage: &mut Stage<S>,
) -> Result<(), Failure> {
    let imsi = imsi_of(KNOWN)?;
    again(
        &mut refusals.stage,
        || stage.submit(Update::Register { imsi }),
    )?;
    again(&mut refusals.stage, || stage.submit(row_update(imsi)?))?;
    again(&mut refusals.stage, || stage.publish(rt))?;
    Ok(())
}
