ghost use Rattle.std.specs.Prelude.{◌≡◌, ◌+◌, ◌⊎◌, Some, None, IfErr, IfOk, OnErr, OnOk, length};
ghost use Rattle.std.specs.FinMap as map;
ghost use Rattle.std.specs.Option.{option_map};
ghost use Rattle.camel_rows.specs.Update.{csis_of, records_of};
ghost use Rattle.camel_rows.specs.Store.{accepted_updates, all_published, store_refusal, with_update};
ghost use Rattle.camel_script_replay.specs.Output.{answer_of, line_of};
ghost use Rattle.camel_script_replay.specs.Store.{IsRefusedMemory, PublishesFirst, StoreData, empty_store};
ghost use Rattle.camel_script_replay.specs.Store.{left_in_place, store_after};

use crate::update_list::UpdateList;
use camel_criteria::Refusal;
use camel_rows::{Admission, Answer, CallEvent, CsisPresent, Outcome, Records, Update};
use camel_script::{Line, Record};
use camel_tbcd::{Imsi, Profile};
use std::alloc::Global;
use std::collections::VecDeque;
use std::marker::Model;
use std::mem;
use std::snapshot::Snapshot;

/// The subscriber data of one thread: what is published, and the accepted updates that are pending.
///
/// Contracts see the profile, the limit, and the lists of the published and of the pending updates. It takes the memory
/// of the records and of the pending updates.
#[derive(Drop)]
pub struct Store {
    admission: Admission,
    records: Records,
    /// The updates that leave the records, for contracts only.
    published: Snapshot<UpdateList>,
    pending: VecDeque<Update>,
    profile: Profile,
}

impl Model for Store {
    ghost use Rattle.camel_script_replay.specs.Store.{IsSound, StoreData, store_code};

    ghost Value = { StoreData };

    ghost coded = { store_code };

    ghost view = { λ a. record {
      profile = a.profile;
      limit = a.admission.limit;
      updates = record { published = a.published.value; pending = a.pending.items };
    } };

    ghost invariant = { λ a. IsSound a.admission a.records
        (record { published = a.published.value; pending = a.pending.items }) };
}

impl Store {
    /// A store that accepts at most `limit` updates, with no records, and decides under the profile.
    pub fn new(alloc: Global, limit: u64, profile: Profile) -> Store
        ensures { result ≡ empty_store profile limit }
    {
        Store {
            admission: Admission::new(alloc, limit),
            records: Records::new(alloc),
            published: UpdateList::none(),
            pending: VecDeque::new(alloc),
            profile,
        }
    }

    /// The records that the published updates leave.
    pub fn records(&self) -> &Records
        ensures { result.now ≡ records_of self.now.updates.published }
    {
        &self.records
    }

    /// The accepted updates that are not published yet, in their order.
    pub fn pending(&self) -> &VecDeque<Update>
        ensures { result.now.items ≡ self.now.updates.pending }
    {
        &self.pending
    }

    /// How many updates are accepted.
    pub fn accepted(&self) -> u64
        ensures { result ≡ length (accepted_updates self.now.updates) }
    {
        self.admission.accepted()
    }

    /// The CSIs that all accepted updates leave in the record of an IMSI; None if they leave no record.
    pub fn csis(&self, imsi: &Imsi) -> Option<CsisPresent>
        ensures { result ≡ option_map csis_of (map.get (records_of (accepted_updates self.now.updates)) imsi.now) }
    {
        self.admission.csis(imsi)
    }

    /// The line of a record of a script, after which the store holds what the record asks.
    ///
    /// Fails only with `OutOfMemory` (102). The store is then as it was, but that a publication may have published the
    /// first of its updates; the next one publishes the others.
    pub fn answer(&mut self, script_record: Record) -> Result<Line, Refusal>
        ensures line { IfOk result
            (λ line. line ≡ line_of self.old.profile self.old.limit self.old.updates script_record) }
        ensures after { OnOk result (self.new ≡ store_after self.old script_record) }
        ensures refused { OnErr result (IsRefusedMemory self.old script_record self.new) }
        ensures only { IfErr result (λ why. why ≡ Refusal.OutOfMemory) }
    {
        match script_record {
            Record::Update(update) => self.line_of_update(update.into_inner()),
            Record::Publish => Ok(Line::Published(self.publish()?)),
            Record::Call(event) => Ok(Line::Decided(self.decide(&event))),
            Record::Refused(refusal) => Ok(Line::Refused(refusal.code())),
        }
    }

    /// As `answer`, of a record in its place. A call stays there. Of any other record a [`Record::Publish`] is there
    /// afterwards, also after a failure, so an update that was refused memory is gone.
    pub fn answer_from(&mut self, script_record: &mut Record) -> Result<Line, Refusal>
        ensures line { IfOk result
            (λ line. line ≡ line_of self.old.profile self.old.limit self.old.updates script_record.old) }
        ensures after { OnOk result (self.new ≡ store_after self.old script_record.old) }
        ensures refused { OnErr result (IsRefusedMemory self.old script_record.old self.new) }
        ensures place { script_record.new ≡ left_in_place script_record.old }
        ensures only { IfErr result (λ why. why ≡ Refusal.OutOfMemory) }
    {
        match script_record {
            Record::Call(event) => Ok(Line::Decided(self.decide(event))),
            _ => self.answer(mem::replace(script_record, Record::Publish)),
        }
    }

    /// Submits an update, and returns its line.
    fn line_of_update(&mut self, update: Update) -> Result<Line, Refusal>
        ensures line { IfOk result
            (λ line. line ≡ line_of self.old.profile self.old.limit self.old.updates (Record.Update update)) }
        ensures after { OnOk result (self.new ≡ store_after self.old (Record.Update update)) }
        ensures unchanged { OnErr result (self.new ≡ self.old) }
        ensures only { IfErr result (λ why. why ≡ Refusal.OutOfMemory) }
    {
        match self.submit(update) {
            Ok(number) => Ok(Line::Accepted(number)),
            Err(Refusal::OutOfMemory) => Err(Refusal::OutOfMemory),
            Err(refusal) => Ok(Line::Refused(refusal.code())),
        }
    }

    /// Accepts an update as pending, and returns its number, counted from 1.
    ///
    /// It is refused by the data that all accepted updates leave, and then if these updates are as many as the limit. A
    /// refused update leaves the store as it was, and so does `OutOfMemory` (102).
    fn submit(&mut self, update: Update) -> Result<u64, Refusal>
        ensures number { IfOk result (λ number. number ≡ length (accepted_updates self.old.updates) + 1) }
        ensures accepted { OnOk result (store_refusal self.old.limit self.old.updates update ≡ None) }
        ensures pending { OnOk result (self.new ≡ record self.old { updates = with_update self.old.updates update }) }
        ensures unchanged { OnErr result (self.new ≡ self.old) }
        ensures refused { IfErr result (λ why.
            (why ≡ Refusal.OutOfMemory) ⊎ (store_refusal self.old.limit self.old.updates update ≡ Some why)) }
    {
        let csis = self.admission.check(&update)?;
        self.pending.reserve(1)?;
        self.admission.accept(update.imsi(), csis)?;
        self.pending.push_back_reserved(update);
        Ok(self.admission.accepted())
    }

    /// Publishes the pending updates, and returns how many updates are published.
    ///
    /// They are published one by one, so that a store whose memory was refused still has fields that agree: of what was
    /// pending the first updates are published then, and the others are pending.
    fn publish(&mut self) -> Result<u64, Refusal>
        ensures front { IfOk result (λ front. front ≡ length (accepted_updates self.old.updates)) }
        ensures published { OnOk result (self.new ≡ record self.old { updates = all_published self.old.updates }) }
        ensures refused { OnErr result (PublishesFirst self.old self.new) }
        ensures only { IfErr result (λ why. why ≡ Refusal.OutOfMemory) }
    {
        'updates: while let Some(update) = self.pending.front() {
            self.records.apply(update)?;
            UpdateList::push(&mut self.published, update);
            self.pending.pop_front();
        }
        Ok(self.admission.accepted())
    }

    /// Decides a call over the published data.
    fn decide(&self, event: &CallEvent) -> Answer
        ensures { result ≡ answer_of self.now.profile self.now.updates event.now }
    {
        Answer {
            front: self.admission.accepted() - self.pending.len() as u64,
            outcome: Outcome::decide(&self.records, event, self.profile),
        }
    }
}
