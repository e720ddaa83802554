ghost use Rattle.std.specs.Prelude.{◌≡◌, ◌<◌, ◌≤◌, ◌-◌, Some, None, IfErr, IfOk, IsSome, OnErr, OnOk};
ghost use Rattle.std.specs.FinMap as map;
ghost use Rattle.camel_rows.specs.Store.{IsAdmissionOf, admission_refusal, no_admissions, with_admission};
ghost use Rattle.camel_rows.specs.Store.{IsDirectoryOf};
ghost use Rattle.camel_rows.specs.Update.{value_of, with_value, csis_after, update_imsi};

use crate::subscriber::csis_present::{check_update, csis_after};
use crate::{CsisChange, CsisPresent, Records, Update};
use camel_criteria::Refusal;
use camel_table::{Seed, Table};
use camel_tbcd::Imsi;
use std::alloc::{AllocError, Global};
use std::marker::Model;

/// Decides which updates a store accepts, by the CSIs that all accepted updates leave and by the store's limit.
///
/// Contracts see the limit, how many updates are accepted, and a finite map from the IMSIs that have a record to the
/// CSIs that are stored in it.
#[derive(Debug, Drop)]
pub struct Admission {
    // Which subscribers have a record, and which CSIs are stored in each: all that decides whether an update is
    // refused, in far less memory than the records take.
    directory: Table<CsisPresent, Seed>,
    // The seed of the directory, so that one that is made anew has the same.
    seed: Seed,
    accepted: u64,
    limit: u64,
}

impl Model for Admission {
    ghost use Rattle.std.specs.Prelude.{◌≤◌};
    ghost use Rattle.camel_rows.specs.Store.{AdmissionData};
    ghost use Rattle.camel_rows.specs.AdmissionCode.{admission_code};

    ghost Value = { AdmissionData };

    ghost coded = { admission_code };

    ghost view = { λ a. record { limit = a.limit; accepted = a.accepted; directory = a.directory } };

    ghost invariant = { λ a. a.accepted ≤ a.limit };
}

impl Admission {
    /// No update is accepted yet, and at most `limit` ever are. It takes no memory yet. Its seed is fixed: if others
    /// choose the IMSIs, [`Admission::seeded`] is meant.
    pub fn new(alloc: Global, limit: u64) -> Admission
        ensures { result ≡ no_admissions limit }
    {
        Admission::seeded(alloc, limit, Seed::fixed())
    }

    /// No update is accepted yet, and at most `limit` ever are, in a table with this seed. It takes no memory yet.
    pub fn seeded(alloc: Global, limit: u64, seed: Seed) -> Admission
        ensures { result ≡ no_admissions limit }
    {
        Admission {
            directory: Table::new(alloc, seed),
            seed,
            accepted: 0,
            limit,
        }
    }

    /// How many updates are accepted.
    pub fn accepted(&self) -> u64
        ensures { result ≡ self.now.accepted }
    {
        self.accepted
    }

    /// The CSIs that an update leaves in the record of its IMSI, if it may be accepted; None if it leaves no record, of
    /// its IMSI or of any. Nothing changes.
    ///
    /// Fails as `Records::check` with `UnidentifiedSubscriber` (5) and `DataMissing` (35) over the data that all
    /// accepted updates leave, and then with `HistoryFull` (101) if as many are accepted as the limit.
    pub fn check(&self, update: &Update) -> Result<Option<CsisPresent>, Refusal>
        ensures refused { IfErr result (λ why. admission_refusal self.now update.now ≡ Some why) }
        ensures taken { OnOk result (admission_refusal self.now update.now ≡ None) }
        ensures room { OnOk result (self.now.accepted < self.now.limit) }
        ensures csis { IfOk result
            (λ csis. csis ≡ csis_after (value_of self.now.directory (update_imsi update.now)) update.now) }
    {
        Ok(self.change(update)?.after)
    }

    /// What an update changes of the CSIs in the record of its IMSI, if it may be accepted. Nothing changes yet, and
    /// the table is asked once for both.
    ///
    /// Fails as [`Admission::check`] does.
    // As a call of its own: put into a caller that moves the update afterwards, the update would be moved field by
    // field.
    #[inline(never)]
    pub fn change(&self, update: &Update) -> Result<CsisChange, Refusal>
        ensures refused { IfErr result (λ why. admission_refusal self.now update.now ≡ Some why) }
        ensures taken { OnOk result (admission_refusal self.now update.now ≡ None) }
        ensures room { OnOk result (self.now.accepted < self.now.limit) }
        ensures before { IfOk result (λ change. change.before ≡ value_of self.now.directory (update_imsi update.now)) }
        ensures after { IfOk result (λ change. change.after ≡ csis_after change.before update.now) }
    {
        let before = self.csis_before(update);
        check_update(before, update)?;
        if self.accepted == self.limit {
            return Err(Refusal::HistoryFull);
        }
        Ok(CsisChange {
            before,
            after: csis_after(before, update),
        })
    }

    /// The CSIs in the record of the subscriber whom an update concerns; None if there is no record, or if it concerns
    /// all of them.
    fn csis_before(&self, update: &Update) -> Option<CsisPresent>
        ensures { result ≡ value_of self.now.directory (update_imsi update.now) }
    {
        self.csis(&update.imsi()?)
    }

    /// The CSIs that are stored in the record of an IMSI; None if there is no record.
    pub fn csis(&self, imsi: &Imsi) -> Option<CsisPresent>
        ensures { result ≡ map.get self.now.directory imsi.now }
    {
        self.directory.get(imsi).copied()
    }

    /// Accepts an update of this subscriber that leaves a record with these CSIs, or no record; if it concerns all of
    /// them, it leaves none. Fails with `AllocError` if memory is refused; then it is not accepted.
    pub fn accept(
        &mut self,
        imsi: Option<Imsi>,
        csis: Option<CsisPresent>,
    ) -> Result<(), AllocError>
        requires { self.old.accepted < self.old.limit }
        ensures accepted { OnOk result (self.new ≡ with_admission self.old imsi csis) }
        ensures unchanged { OnErr result (self.new ≡ self.old) }
    {
        match (imsi, csis) {
            (Some(imsi), Some(csis)) => {
                self.directory.insert(&imsi, csis)?;
                self.accepted += 1;
            }
            (imsi, _) => self.accept_removal(imsi),
        }
        Ok(())
    }

    /// Accepts an update of this subscriber, or of all of them, that makes this change, and no record where there was
    /// none. It takes no memory, and leaves the table as it is if the same CSIs are stored afterwards.
    pub fn accept_in_place(&mut self, imsi: Option<Imsi>, change: CsisChange)
        requires room { self.old.accepted < self.old.limit }
        requires before { change.before ≡ value_of self.old.directory imsi }
        requires in_place { IsSome imsi → change.before ≡ None → change.after ≡ None }
        ensures { self.new ≡ with_admission self.old imsi change.after }
    {
        match (imsi, change.before, change.after) {
            (Some(imsi), Some(before), Some(after)) => {
                replace_csis(&mut self.directory, &imsi, before, after);
                self.accepted += 1;
            }
            (imsi, _, _) => self.accept_removal(imsi),
        }
    }

    /// Accepts an update of this subscriber, or of all of them, that leaves no record. It takes no memory.
    pub fn accept_removal(&mut self, imsi: Option<Imsi>)
        requires { self.old.accepted < self.old.limit }
        ensures { self.new ≡ with_admission self.old imsi None }
    {
        match imsi {
            Some(imsi) => self.directory.remove(&imsi),
            None => self.directory.clear(),
        }
        self.accepted += 1;
    }

    /// Takes back the update that was accepted last and left a record, over the CSIs before it. It takes no memory.
    pub fn take_back(&mut self, imsi: &Imsi, before: Option<CsisPresent>)
        requires there { IsSome (map.get self.old.directory imsi.now) }
        requires accepted { 1 ≤ self.old.accepted }
        ensures { self.new ≡ record self.old {
          accepted = self.old.accepted - 1;
          directory = with_value self.old.directory imsi.now before;
        } }
    {
        match before {
            Some(csis) => *self.directory.value_mut(imsi) = csis,
            None => self.directory.remove(imsi),
        }
        self.accepted -= 1;
    }

    /// Puts back the CSIs that are stored in the record of an IMSI without the updates that are dropped, or that it has
    /// no record without them. It takes no memory, and so the IMSI has to have a record already if it keeps one. The
    /// count stays: [`Admission::restore_accepted`] sets it once all are put back.
    pub fn restore(&mut self, imsi: &Imsi, csis: Option<CsisPresent>)
        requires { IsSome csis → IsSome (map.get self.old.directory imsi.now) }
        ensures { self.new ≡ record self.old { directory = with_value self.old.directory imsi.now csis } }
    {
        match csis {
            Some(csis) => *self.directory.value_mut(imsi) = csis,
            None => self.directory.remove(imsi),
        }
    }

    /// Counts only so many updates as accepted, which are no more than before: the later ones are dropped.
    pub fn restore_accepted(&mut self, accepted: u64)
        requires { accepted ≤ self.old.accepted }
        ensures { self.new ≡ record self.old { accepted = accepted } }
    {
        self.accepted = accepted;
    }

    /// The admission of a store with the same limit that has accepted so many updates, which leave these records. Its
    /// table has the same seed. It goes through all records.
    ///
    /// Fails with `OutOfMemory` (102) if memory is refused; this admission stays as it is.
    pub fn made_anew(
        &self,
        alloc: Global,
        records: &Records,
        accepted: u64,
    ) -> Result<Admission, Refusal>
        requires { accepted ≤ self.now.limit }
        ensures admission { IfOk result (λ admission. IsAdmissionOf admission self.now.limit accepted records.now) }
        ensures only { IfErr result (λ why. why ≡ Refusal.OutOfMemory) }
    {
        Ok(Admission {
            directory: directory_of(alloc, self.seed, records)?,
            seed: self.seed,
            accepted,
            limit: self.limit,
        })
    }
}

/// The CSIs that are stored in each record, in a table with this seed. Fails with `OutOfMemory` (102) if memory is
/// refused.
fn directory_of(
    alloc: Global,
    seed: Seed,
    records: &Records,
) -> Result<Table<CsisPresent, Seed>, Refusal>
    ensures directory { IfOk result (λ directory. IsDirectoryOf directory records.now) }
    ensures only { IfErr result (λ why. why ≡ Refusal.OutOfMemory) }
{
    let mut directory = Table::new(alloc, seed);
    for imsi in records.imsis()? {
        if let Some(csis) = records.csis(&imsi) {
            directory.insert(&imsi, csis)?;
        }
    }
    Ok(directory)
}

/// Puts the CSIs after an update in the place of those before it, unless they are the same.
fn replace_csis(
    directory: &mut Table<CsisPresent, Seed>,
    imsi: &Imsi,
    before: CsisPresent,
    after: CsisPresent,
)
    requires { map.get directory.old imsi.now ≡ Some before }
    ensures { directory.new ≡ map.insert directory.old imsi.now after }
{
    if before.o != after.o || before.vt != after.vt {
        *directory.value_mut(imsi) = after;
    }
}
