ghost use Rattle.std.specs.Prelude.{◌≡◌, ◌≢◌, ◌⊎◌, ◌↔◌, None, Some, Err, IfErr, IfNone, IfOk, IfSome, IsErr, IsOk};
ghost use Rattle.std.specs.Prelude.{IsTrue, OnErr, OnOk};
ghost use Rattle.std.specs.FinMap as map;
ghost use Rattle.std.specs.Option.{option_copied, option_map};
ghost use Rattle.camel_table.specs.ByImsi.{ListsEachOnce};
ghost use Rattle.camel_rows.specs.Update.{value_of, with_value, csis_after, csis_of, insert_refusal, no_records};
ghost use Rattle.camel_rows.specs.Update.{is_insert, records_after, record_with_insert, record_without, refusal};
ghost use Rattle.camel_rows.specs.Update.{update_imsi};

use crate::subscriber::csis_present::{check_update, csis_after};
use crate::{CsisPresent, OCriteriaSet, OCsi, Subscriber, TCriteriaSet, Update, VtCsi, Withdrawal};
use camel_criteria::Refusal;
use camel_table::{Seed, Table};
use camel_tbcd::Imsi;
use std::alloc::{AllocError, Global};
use std::marker::Model;

/// The records of all subscribers, by IMSI.
///
/// Contracts see them as a finite map from IMSIs to records.
#[derive(Debug, Drop)]
pub struct Records {
    alloc: Global,
    table: Table<Subscriber, Seed>,
}

impl Model for Records {
    ghost use Rattle.std.specs.FinMap as map;
    ghost use Rattle.std.specs.Coded.{coded_ℕ, coded_list};
    ghost use Rattle.camel_rows.specs.Update.{RecordsData};
    ghost use Rattle.camel_rows.specs.contracts.subscriber.Subscriber as subscriber;

    ghost Value = { RecordsData };

    ghost coded = { map.code (coded_list coded_ℕ) subscriber.the_row.coded };

    ghost view = { λ a. a.table };
}

impl Records {
    /// No records. It takes no memory yet. Its seed is fixed: if others choose the IMSIs, [`Records::seeded`] is meant.
    pub fn new(alloc: Global) -> Records
        ensures { result ≡ no_records }
    {
        Records::seeded(alloc, Seed::fixed())
    }

    /// No records, in a table with this seed. It takes no memory yet.
    pub fn seeded(alloc: Global, seed: Seed) -> Records
        ensures { result ≡ no_records }
    {
        Records {
            alloc,
            table: Table::new(alloc, seed),
        }
    }

    /// The record of an IMSI, if there is one.
    pub fn get(&self, imsi: &Imsi) -> Option<&Subscriber>
        ensures { option_copied result ≡ map.get self.now imsi.now }
    {
        self.table.get(imsi)
    }

    /// How many subscribers have a record. It counts none, since their number is kept.
    pub fn len(&self) -> usize
        ensures { result ≡ map.len self.now }
    {
        self.table.len()
    }

    /// Each subscriber's IMSI, once, in no order that is promised.
    ///
    /// Fails with `OutOfMemory` (102) if memory is refused.
    pub fn imsis(&self) -> Result<Vec<Imsi>, Refusal>
        ensures each_once { IfOk result (λ imsis. ListsEachOnce imsis.items self.now) }
        ensures only { IfErr result (λ why. why ≡ Refusal.OutOfMemory) }
    {
        Ok(self.table.imsis()?)
    }

    /// Whether an update may be applied.
    ///
    /// Fails with `UnidentifiedSubscriber` (5) for an Insert or a Delete if the IMSI has no record, and with
    /// `DataMissing` (35) for an Insert of criteria without their CSI if that CSI is not stored.
    pub fn check(&self, update: &Update) -> Result<(), Refusal>
        ensures refused { IfSome (refusal self.now update.now) (λ why. result ≡ Err why) }
        ensures accepted { IfNone (refusal self.now update.now) (IsOk result) }
    {
        check_update(self.csis_before(update), update)
    }

    /// The CSIs that are stored in the record of an IMSI; None if there is no record.
    pub fn csis(&self, imsi: &Imsi) -> Option<CsisPresent>
        ensures { result ≡ option_map csis_of (map.get self.now imsi.now) }
    {
        Some(self.get(imsi)?.csis())
    }

    /// The CSIs in the record of the subscriber whom an update concerns; None if there is no record, or if it concerns
    /// all of them.
    fn csis_before(&self, update: &Update) -> Option<CsisPresent>
        ensures { result ≡ option_map csis_of (value_of self.now (update_imsi update.now)) }
    {
        Some(self.get(&update.imsi()?)?.csis())
    }

    /// Whether an update makes a record, or stores other CSIs in the one that its IMSI has. It reads that record.
    pub fn changes_csis(&self, update: &Update) -> bool
        ensures { IsTrue result ↔
            (csis_after (option_map csis_of (value_of self.now (update_imsi update.now))) update.now
            ≢ option_map csis_of (value_of self.now (update_imsi update.now))) }
    {
        let before = self.csis_before(update);
        csis_after(before, update) != before
    }

    /// Makes room in the table for so many records more, as far as it is asked for at once: each record may still ask
    /// for memory of its own. Fails with `AllocError` if memory is refused; either way the records stay.
    pub fn reserve(&mut self, additional: usize) -> Result<(), AllocError>
        ensures { self.new ≡ self.old }
    {
        self.table.reserve(additional)
    }

    /// Applies an update.
    ///
    /// Fails with the refusals of [`Records::check`], and with `OutOfMemory` (102) if memory is refused. After a
    /// refusal the records are as before. `ClearAll` takes no memory, and does not fail.
    pub fn apply(&mut self, update: &Update) -> Result<(), Refusal>
        ensures refused { IfSome (refusal self.old update.now) (λ why. result ≡ Err why) }
        ensures applied { OnOk result (self.new ≡ records_after self.old update.now) }
        ensures unchanged { OnErr result (self.new ≡ self.old) }
        ensures only { IfErr result (λ why.
            (why ≡ Refusal.OutOfMemory) ⊎ (refusal self.old update.now ≡ Some why)) }
        ensures clears { update.now ≡ Update.ClearAll → IsOk result }
    {
        match update {
            Update::Register { imsi } => self.put(*imsi, Subscriber::new())?,
            Update::Insert {
                imsi,
                o,
                o_criteria,
                vt,
                t_criteria,
            } => self.insert(imsi, o, o_criteria, vt, t_criteria)?,
            Update::Delete { imsi, what } => self.withdraw(imsi, *what)?,
            Update::Cancel { imsi } => self.take_out(imsi),
            Update::ClearAll => self.clear(),
        }
        Ok(())
    }

    /// Applies an update, as [`Records::apply`] does, and moves in what it brings. One that is refused is dropped, and
    /// the records are as before. If memory is refused, it comes back, and the records are as before.
    pub fn apply_owned(&mut self, update: Box<Update>) -> Result<(), Box<Update>>
        ensures applied { OnOk result (self.new ≡ records_after self.old update.value) }
        ensures back { IfErr result (λ back. back ≡ update) }
        ensures unchanged { OnErr result (self.new ≡ self.old) }
    {
        if let Update::Insert { imsi, .. } = &*update {
            let imsi = *imsi;
            return self.insert_owned(&imsi, update);
        }
        match self.apply(&update) {
            Err(Refusal::OutOfMemory) => Err(update),
            Ok(()) | Err(_) => Ok(()),
        }
    }

    /// Makes the record of an IMSI equal to the one that other records have, or leaves no record of it if they have
    /// none. The other subscribers keep theirs.
    ///
    /// Fails with `AllocError` if memory is refused; then the records are as before. It takes no memory, and does not
    /// fail, if the others have no record of the IMSI.
    pub fn restore(&mut self, imsi: &Imsi, from: &Records) -> Result<(), AllocError>
        ensures restored { OnOk result (self.new ≡ with_value self.old imsi.now (map.get from.now imsi.now)) }
        ensures unchanged { OnErr result (self.new ≡ self.old) }
    {
        match from.get(imsi) {
            Some(subscriber) => self.put(*imsi, subscriber.clone()?)?,
            None => self.take_out(imsi),
        }
        Ok(())
    }

    /// Equal records. Fails with `OutOfMemory` (102) if memory is refused.
    pub fn copy(&self) -> Result<Records, Refusal>
        ensures equal { IfOk result (λ copied. copied ≡ self.now) }
        ensures only { IfErr result (λ why. why ≡ Refusal.OutOfMemory) }
    {
        Ok(self.clone()?)
    }

    /// Puts what an Insert brings into the record of its IMSI, in its place.
    fn insert(
        &mut self,
        imsi: &Imsi,
        o: &Option<OCsi>,
        o_criteria: &Option<OCriteriaSet>,
        vt: &Option<VtCsi>,
        t_criteria: &Option<TCriteriaSet>,
    ) -> Result<(), Refusal>
        ensures refused { IfSome (insert_refusal
            (option_map csis_of (map.get self.old imsi.now)) o.now o_criteria.now vt.now t_criteria.now)
            (λ why. result ≡ Err why) }
        ensures only { IfErr result (λ why. (why ≡ Refusal.OutOfMemory)
            ⊎ (insert_refusal (option_map csis_of (map.get self.old imsi.now))
            o.now o_criteria.now vt.now t_criteria.now ≡ Some why)) }
        ensures inserted { OnOk result (self.new ≡ with_value self.old imsi.now
            (option_map (record_with_insert o.now o_criteria.now vt.now t_criteria.now) (map.get self.old imsi.now))) }
        ensures unchanged { OnErr result (self.new ≡ self.old) }
    {
        let alloc = self.alloc;
        let Some(subscriber) = self.table.get_mut(imsi) else {
            return Err(Refusal::UnidentifiedSubscriber);
        };
        subscriber.insert(alloc, o, o_criteria, vt, t_criteria)
    }

    /// Moves what an Insert brings into the record of its IMSI, in its place.
    fn insert_owned(&mut self, imsi: &Imsi, update: Box<Update>) -> Result<(), Box<Update>>
        requires insert { IsTrue (is_insert update.value) }
        requires imsi { update_imsi update.value ≡ Some imsi.now }
        ensures applied { OnOk result (self.new ≡ records_after self.old update.value) }
        ensures back { IfErr result (λ back. back ≡ update) }
        ensures unchanged { OnErr result (self.new ≡ self.old) }
    {
        let alloc = self.alloc;
        let Some(subscriber) = self.table.get_mut(imsi) else {
            return Ok(());
        };
        subscriber.insert_owned(alloc, update)
    }

    /// Removes what a Delete names from the record of its IMSI. Fails with `UnidentifiedSubscriber` (5) if there is
    /// none.
    fn withdraw(&mut self, imsi: &Imsi, what: Withdrawal) -> Result<(), Refusal>
        ensures refused { map.get self.old imsi.now ≡ None → result ≡ Err Refusal.UnidentifiedSubscriber }
        ensures there { IsErr result → map.get self.old imsi.now ≡ None }
        ensures withdrawn { OnOk result
            (self.new ≡ with_value self.old imsi.now (option_map (record_without what) (map.get self.old imsi.now))) }
        ensures unchanged { OnErr result (self.new ≡ self.old) }
    {
        match self.table.get_mut(imsi) {
            Some(subscriber) => {
                subscriber.withdraw(what);
                Ok(())
            }
            None => Err(Refusal::UnidentifiedSubscriber),
        }
    }

    /// Puts a record in the place of the one that is there.
    fn put(&mut self, imsi: Imsi, subscriber: Subscriber) -> Result<(), AllocError>
        ensures put { OnOk result (self.new ≡ map.insert self.old imsi subscriber) }
        ensures unchanged { OnErr result (self.new ≡ self.old) }
    {
        self.table.insert(&imsi, subscriber)
    }

    /// Takes the record of an IMSI out, if there is one.
    fn take_out(&mut self, imsi: &Imsi)
        ensures { self.new ≡ map.remove self.old imsi.now }
    {
        self.table.remove(imsi);
    }

    /// Takes all records out.
    fn clear(&mut self)
        ensures { self.new ≡ no_records }
    {
        self.table.clear();
    }
}

impl Clone for Records {
    ghost use Rattle.std.specs.Prelude.{◌≡◌};

    ghost is_clone = { λ old new. new ≡ old };

    fn clone(&self) -> Result<Records, AllocError> {
        Ok(Records {
            alloc: self.alloc,
            table: self.table.clone()?,
        })
    }
}
