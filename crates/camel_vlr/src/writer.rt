//! The writer of a store.

ghost use Rattle.std.specs.Prelude.{◌≡◌, ◌+◌, ◌⊎◌, [], ◌++◌, Some, None, fold, length, true, false, vec_len, All};
ghost use Rattle.std.specs.Prelude.{IfErr, IfOk, IfSome, OnErr, OnOk};
ghost use Rattle.camel_rows.specs.Update.{Extends, IsFront};
ghost use Rattle.std.specs.FinMap as map;
ghost use Rattle.camel_rows.specs.Update.{records_of};
ghost use Rattle.camel_rows.specs.Store.{accepted_updates, with_update};
ghost use Rattle.camel_vlr.specs.Store.{AcceptsAll, RejectsAt, fresh_session, submission_refusal, with_accepted};
ghost use Rattle.camel_vlr.specs.Store.{with_all_published};

pub(crate) mod closing;
pub(crate) mod dropping;
pub(crate) mod group;
pub(crate) mod opening;
pub(crate) mod operation;
pub(crate) mod publication;
pub(crate) mod state;
pub(crate) mod submission;
pub(crate) mod wait_free;

use crate::base::left_right_writer::LeftRightWriter;
use crate::base::publisher::{Publisher, Publishes};
use crate::writer::group::accept_all;
use crate::writer::publication::{extend_history, hand_over, make_room};
use crate::writer::state::State;
use crate::writer::submission::accept;
use crate::{Receipt, Rejected, Session};
use camel_criteria::Refusal;
use camel_rows::Update;
use camel_tbcd::Profile;
use std::marker::Model;

/// The most updates that a store may take: more than any switch lives to see.
pub const MAX_UPDATES: u64 = 0x7FFF_FFFF_FFFF_FFFF;

/// The most sessions that a store may have.
pub const MAX_PLACES: usize = 64;

/// The store's one writer. It takes updates, and publishes them.
///
/// Contracts see which store it is, with the most updates that it takes and its profile, the lists of the updates that
/// are published and pending, and what is known of the next publication. It can't be dropped: [`Vlr::close`] or
/// [`Vlr::end`] ends it.
pub struct Vlr<W: Publisher = LeftRightWriter> {
    writer: W,
    state: State,
}

impl<W: Publisher> Model for Vlr<W> {
    ghost use Rattle.camel_vlr.specs.Store.{StoreData};
    ghost use Rattle.camel_vlr.specs.StoreFields.{IsStore, store_of};

    ghost Value = { StoreData };

    ghost view = { store_of W.Publisher };

    ghost invariant = { IsStore W.Publisher };
}

impl<W: Publisher> Vlr<W> {
    /// So many sessions, none of which has seen or learnt anything.
    pub(crate) fn seat_all(&mut self, places: usize) -> Result<Vec<Session<W::Place>>, Refusal>
        requires empty { self.old.updates.published ≡ [] }
        requires free { (self.old.free ≡ false) × (self.old.held ≡ false) }
        ensures same { self.new ≡ self.old }
        ensures places { IfOk result (λ sessions. vec_len sessions ≡ places) }
        ensures sessions { IfOk result (λ sessions. All (λ s. s ≡ fresh_session self.new.store) sessions.items) }
        ensures only { IfErr result (λ why. (why ≡ Refusal.OutOfMemory) ⊎ (why ≡ Refusal.NoPlace)) }
    {
        let mut sessions = Vec::with_capacity(self.state.alloc, places)?;
        while sessions.len() < places {
            sessions.push_reserved(self.seat()?);
        }
        Ok(sessions)
    }

    /// A session that knows which store it is of.
    fn seat(&mut self) -> Result<Session<W::Place>, Refusal>
        requires empty { self.old.updates.published ≡ [] }
        requires free { (self.old.free ≡ false) × (self.old.held ≡ false) }
        ensures same { self.new ≡ self.old }
        ensures session { IfOk result (λ s. s ≡ fresh_session self.new.store) }
        ensures only { IfErr result (λ why. (why ≡ Refusal.OutOfMemory) ⊎ (why ≡ Refusal.NoPlace)) }
    {
        let place = self.writer.place()?;
        Ok(Session::new(place, self.receipt(), self.state.profile))
    }

    /// Accepts an update behind those that are pending, and returns its number, the first being 1.
    ///
    /// It is rejected, by the data that all accepted updates leave, with `UnidentifiedSubscriber` (5) or `DataMissing`
    /// (35) as `Records::apply` says, then with `HistoryFull` (101) if the store has accepted as many updates as its
    /// limit, then with `OutOfMemory` (102). A rejected update is as if it had not been submitted.
    #[inline(always)]
    pub fn submit(&mut self, update: Update) -> Result<u64, Refusal>
        ensures refused { IfSome (submission_refusal self.old update) (λ why. result ≡ Err why) }
        ensures only { IfErr result
            (λ why. (why ≡ Refusal.OutOfMemory) ⊎ (submission_refusal self.old update ≡ Some why)) }
        ensures accepted { OnOk result (self.new ≡ record self.old { updates = with_update self.old.updates update }) }
        ensures number { IfOk result (λ number. number ≡ length (accepted_updates self.new.updates)) }
        ensures unchanged { OnErr result (self.new ≡ self.old) }
    {
        let change = self.state.admission.change(&update)?;
        accept(
            &mut self.state.pending,
            &mut self.state.admission,
            self.state.alloc,
            update,
            change,
        )?;
        Ok(self.state.admission.accepted())
    }

    /// Accepts several updates in their order, behind those that are pending, or none of them, and returns the number
    /// of the last one. So a location update is one step: a Register and the Inserts behind it.
    ///
    /// It fails with the first update that is rejected by the data that those before it leave, as [`Vlr::submit`] says,
    /// and why. An update that leaves no record, a Cancel or a ClearAll, is rejected with `UnexpectedDataValue` (36),
    /// since taking it back could be refused memory. If memory is refused, it fails with `OutOfMemory` (102). Then it
    /// is as if none of them had been submitted.
    pub fn submit_all(&mut self, updates: Vec<Update>) -> Result<u64, Rejected>
        ensures all { OnOk result (AcceptsAll submission_refusal with_accepted self.old updates.items) }
        ensures accepted { OnOk result (self.new ≡ fold with_accepted self.old updates.items) }
        ensures pending { OnOk result (self.new.updates
            ≡ record { published = self.old.updates.published; pending = self.old.updates.pending ++ updates.items }) }
        ensures number { IfOk result (λ number. number ≡ length (accepted_updates self.new.updates)) }
        ensures rejected { IfErr result
            (λ r. (r.why ≡ Refusal.OutOfMemory)
            ⊎ RejectsAt submission_refusal with_accepted self.old updates.items r.at r.why) }
        ensures unchanged { OnErr result (self.new ≡ self.old) }
    {
        let taken = accept_all(
            &mut self.state.pending,
            &mut self.state.admission,
            self.state.alloc,
            updates,
        );
        if let Err(rejected) = taken {
            return Err(rejected);
        }
        Ok(self.state.admission.accepted())
    }

    /// Publishes all that is pending, at once, also if nothing is, by a handle of its base. If it fails, nothing was
    /// published, and all is pending as before.
    pub(crate) fn publish_by<H: Drop>(&mut self, by: H) -> Result<(), W::Why>
    where
        W: Publishes<H>,
        requires { self.old.held ≡ false }
        ensures published { OnOk result (self.new ≡ with_all_published self.old) }
        ensures unchanged { OnErr result (self.new ≡ record self.old { ahead = self.new.ahead }) }
        ensures held { self.old.free ≡ true → IfErr result (λ why. W.is_held why → ⊥) }
        ensures known { self.old.free ≡ true → (writer : W) × W.free writer }
    {
        // What the updates need is asked for before the history has them, so that they can be dropped if it is refused.
        let Ok(()) = make_room(&mut self.writer, &mut self.state.pending) else {
            return Err(W::out_of_memory());
        };
        extend_history(&mut self.state.history, &self.writer, &self.state.pending);
        self.state.is_ahead = true;
        let front = self.state.history.prefix();
        let Ok(()) = hand_over(&mut self.writer, &mut self.state.pending, front.copy()) else {
            return Err(W::out_of_memory());
        };
        if let Err(why) = self.writer.publish_all(by, front) {
            return Err(why);
        }
        self.state.is_ahead = false;
        self.state.is_free = None;
        Ok(())
    }

    /// A receipt of all that is published, as often as it is asked for. It takes no memory.
    pub fn receipt(&self) -> Receipt
        ensures receipt { result ≡ record { store = self.now.store; updates = self.now.updates.published } }
        ensures front { IsFront self.now.store.limit self.now.updates.published }
    {
        self.writer.published().receipt()
    }

    /// A law, of which the call is only for its clauses: no front that anybody has seen goes beyond what the store has
    /// published. So no session has seen an update that is pending or was dropped. Of what a session saw last,
    /// [`Session::seen`] gives a receipt.
    ///
    /// If a publication has failed once its front was made, it is shown for the accepted updates only; what is pending
    /// can't be dropped then. It changes nothing, takes no memory, and does not wait.
    pub fn bounds(&mut self, receipt: &Receipt)
        requires { receipt.now.store ≡ self.old.store }
        ensures same { self.new ≡ self.old }
        ensures published { self.old.ahead ≡ false → Extends self.old.updates.published receipt.now.updates }
        ensures accepted { Extends (accepted_updates self.old.updates) receipt.now.updates }
    {
        self.state.history.bounds(&receipt.prefix);
    }

    /// The profile under which its sessions decide: that with which it was opened.
    pub fn profile(&self) -> Profile
        ensures { result ≡ self.now.store.profile }
    {
        self.state.profile
    }

    /// How many subscribers have a record in what is published.
    pub fn subscribers(&self) -> usize
        ensures { result ≡ map.len (records_of self.now.updates.published) }
    {
        self.writer.published().records.len()
    }

    /// How many updates are published.
    pub fn published(&self) -> u64
        ensures { result ≡ length self.now.updates.published }
    {
        self.writer.published().count
    }

    /// How many updates are pending.
    pub fn pending(&self) -> u64
        ensures { result ≡ length self.now.updates.pending }
    {
        self.state.admission.accepted() - self.writer.published().count
    }
}
