//! What is stored: the record of a subscriber, the records of all, and the updates that change them.

ghost use Rattle.std.specs.Prelude.{◌≡◌, ◌⊎◌, Err, IfErr, IfOk, IfSome, IsSome, IsTrue, None, OnErr, OnOk, Some};
ghost use Rattle.std.specs.Option.{option_and_then, option_copied, option_map};
ghost use Rattle.camel_rows.specs.Subscriber.{stored_in, IsRoomFor, IsRoomForUpdate, empty_record, entry_at};
ghost use Rattle.camel_rows.specs.Subscriber.{entry_data, row_at, rows_of};
ghost use Rattle.camel_rows.specs.Update.{csis_of, csis_refusal, insert_refusal, is_insert, record_after};
ghost use Rattle.camel_rows.specs.Update.{record_with_insert, record_without, update_imsi};

pub(crate) mod admission;
pub(crate) mod boxed;
pub(crate) mod csis_present;
pub(crate) mod laws;
pub(crate) mod lent;
pub(crate) mod records;
pub(crate) mod stored_csi;
pub(crate) mod update;

use crate::subscriber::csis_present::{check_insert, check_update};
use crate::subscriber::stored_csi::StoredCsi;
use crate::{
    Boxed, CsisPresent, Lent, OCriteriaSet, OCsi, Originating, TCriteriaSet, TdpRow, Update,
    VmscTerminating, VtCsi, Withdrawal,
};
use camel_criteria::{OCriteria, Refusal, TCriteria, is_o_detection_point, is_vt_detection_point};
use camel_tbcd::Imsi;
use std::alloc::{AllocError, Global};
use std::fmt;
use std::marker::Model;
use std::mem::size_of;

/// A stored O-CSI with its criteria.
pub(crate) type StoredOCsi = StoredCsi<Originating, 2, OCriteria>;

/// A stored VT-CSI with its criteria.
pub(crate) type StoredVtCsi = StoredCsi<VmscTerminating, 3, TCriteria>;

/// The record of one subscriber: the O-CSI and the VT-CSI, if they are stored, each with its criteria.
///
/// Contracts see the two, each none or the list of its rows with the list of its criteria entries.
#[derive(Drop)]
pub struct Subscriber {
    // In place, so that a decision at detection point 2 or 4 reads it where it finds the subscriber.
    o: StoredOCsi,
    // In a block of its own, so that it takes little room if it is not stored.
    vt: Option<Boxed<StoredVtCsi>>,
}

const _: () = prove!(size_of::<Subscriber>() == 96);

impl Model for Subscriber {
    ghost use Rattle.std.specs.Option.{option_and_then};
    ghost use Rattle.camel_rows.specs.Subscriber.{stored_in, SubscriberData};

    ghost Value = { SubscriberData };

    ghost view = { λ a. record { o = stored_in a.o; vt = option_and_then stored_in a.vt } };
}

impl Subscriber {
    /// The record of a subscriber who has just registered: nothing is stored.
    pub(crate) fn new() -> Subscriber
        ensures { result ≡ empty_record }
    {
        Subscriber {
            o: StoredCsi::NotStored,
            vt: None,
        }
    }

    /// The O-CSI, if it is stored.
    pub fn o(&self) -> Option<&OCsi>
        ensures { option_copied result ≡ option_map rows_of self.now.o }
    {
        self.o.csi()
    }

    /// The VT-CSI, if it is stored.
    pub fn vt(&self) -> Option<&VtCsi>
        ensures { option_copied result ≡ option_map rows_of self.now.vt }
    {
        self.stored_vt()?.csi()
    }

    /// The TDP row of a detection point, if it is armed.
    pub fn row(&self, dp: u8) -> Option<&TdpRow>
        ensures { option_copied result ≡ row_at dp self.now }
    {
        if is_o_detection_point(dp) {
            self.o()?.row(dp)
        } else if is_vt_detection_point(dp) {
            self.vt()?.row(dp)
        } else {
            None
        }
    }

    /// The criteria entry of a detection point, if there is one. It may be there even if the detection point is not
    /// armed; it has no effect then.
    pub fn criteria(&self, dp: u8) -> Option<Lent<'_>>
        ensures { option_map entry_data result ≡ entry_at dp self.now }
    {
        if is_o_detection_point(dp) {
            Some(Lent::O(self.o.entry(dp)?))
        } else if is_vt_detection_point(dp) {
            Some(Lent::T(self.stored_vt()?.entry(dp)?))
        } else {
            None
        }
    }

    /// An Insert that is not refused if the IMSI has the empty record, and makes it equal to this one. Fails with
    /// `OutOfMemory` (102) if memory is refused.
    pub fn to_insert(&self, imsi: Imsi) -> Result<Update, Refusal>
        ensures equal { IfOk result (λ update. record_after (Some empty_record) update ≡ Some self.now) }
        ensures accepted { IfOk result (λ update. csis_refusal (Some (csis_of empty_record)) update ≡ None) }
        ensures imsi { IfOk result (λ update. update_imsi update ≡ Some imsi) }
        ensures insert { IfOk result (λ update. IsTrue (is_insert update)) }
        ensures only { IfErr result (λ why. why ≡ Refusal.OutOfMemory) }
    {
        Ok(Update::Insert {
            imsi,
            o: self.o().copied(),
            o_criteria: self.o.clone()?.into_criteria(),
            vt: self.vt().copied(),
            t_criteria: match self.stored_vt() {
                Some(vt) => vt.clone()?.into_criteria(),
                None => None,
            },
        })
    }

    /// An equal record, which later updates do not change: a call keeps the CSIs of its set-up by it (TS 23.078). Fails
    /// with `OutOfMemory` (102) if memory is refused.
    pub fn copy(&self) -> Result<Subscriber, Refusal>
        ensures equal { IfOk result (λ copied. copied ≡ self.now) }
        ensures only { IfErr result (λ why. why ≡ Refusal.OutOfMemory) }
    {
        Ok(self.clone()?)
    }

    /// What is stored of the O-CSI.
    pub(crate) fn stored_o(&self) -> &StoredOCsi
        ensures { stored_in result.now ≡ self.now.o }
    {
        &self.o
    }

    /// What is stored of the VT-CSI; None if nothing is.
    pub(crate) fn stored_vt(&self) -> Option<&StoredVtCsi>
        ensures { option_and_then stored_in (option_copied result) ≡ self.now.vt }
    {
        Some(self.vt.as_ref()?.get())
    }

    /// Which CSIs are stored.
    pub(crate) fn csis(&self) -> CsisPresent
        ensures { result ≡ csis_of self.now }
    {
        CsisPresent {
            o: self.o.is_stored(),
            vt: self.vt().is_some(),
        }
    }

    /// Stores what an Insert brings.
    ///
    /// Fails with `DataMissing` (35) for criteria without their CSI if that CSI is not stored, and with `OutOfMemory`
    /// (102) if memory is refused. Then nothing changes.
    pub(crate) fn insert(
        &mut self,
        alloc: Global,
        o: &Option<OCsi>,
        o_criteria: &Option<OCriteriaSet>,
        vt: &Option<VtCsi>,
        t_criteria: &Option<TCriteriaSet>,
    ) -> Result<(), Refusal>
        ensures refused { IfSome (insert_refusal (Some (csis_of self.old)) o.now o_criteria.now vt.now t_criteria.now)
            (λ why. result ≡ Err why) }
        ensures only { IfErr result (λ why. (why ≡ Refusal.OutOfMemory)
            ⊎ (insert_refusal (Some (csis_of self.old)) o.now o_criteria.now vt.now t_criteria.now ≡ Some why)) }
        ensures inserted { OnOk result
            (self.new ≡ record_with_insert o.now o_criteria.now vt.now t_criteria.now self.old) }
        ensures unchanged { OnErr result (self.new ≡ self.old) }
    {
        check_insert(self.csis(), o, o_criteria, vt, t_criteria)?;
        let room = self.room_for(alloc, vt)?;
        let o_criteria = o_criteria.clone()?;
        let t_criteria = t_criteria.clone()?;
        self.put(room, o, o_criteria, vt, t_criteria);
        Ok(())
    }

    /// Stores what an Insert brings, as [`Subscriber::insert`] does, and moves it in. One that is refused is dropped,
    /// and nothing changes. If memory is refused, it comes back, and nothing changes.
    pub(crate) fn insert_owned(
        &mut self,
        alloc: Global,
        update: Box<Update>,
    ) -> Result<(), Box<Update>>
        requires { IsTrue (is_insert update.value) }
        ensures refused { OnOk result
            (IsSome (csis_refusal (Some (csis_of self.old)) update.value) → self.new ≡ self.old) }
        ensures inserted { OnOk result (csis_refusal (Some (csis_of self.old)) update.value ≡ None
            → Some self.new ≡ record_after (Some self.old) update.value) }
        ensures back { IfErr result (λ back. back ≡ update) }
        ensures unchanged { OnErr result (self.new ≡ self.old) }
    {
        if check_update(Some(self.csis()), &update).is_err() {
            return Ok(());
        }
        let Ok(room) = self.room_for_update(alloc, &update) else {
            return Err(update);
        };
        let mut update = update;
        match &mut *update {
            Update::Insert {
                imsi: _,
                o,
                o_criteria,
                vt,
                t_criteria,
            } => self.put(room, o, o_criteria.take(), vt, t_criteria.take()),
            _ => unreachable!(),
        }
        Ok(())
    }

    /// A block for the VT-CSI that an update brings, if it brings one and none is stored.
    fn room_for_update(
        &self,
        alloc: Global,
        update: &Update,
    ) -> Result<Option<Boxed<StoredVtCsi>>, AllocError>
        ensures { IfOk result (λ room. IsRoomForUpdate update.now self.now room) }
    {
        match update {
            Update::Insert { vt, .. } => self.room_for(alloc, vt),
            _ => Ok(None),
        }
    }

    /// A block for the VT-CSI that an Insert brings, if it brings one and none is stored.
    fn room_for(
        &self,
        alloc: Global,
        vt: &Option<VtCsi>,
    ) -> Result<Option<Boxed<StoredVtCsi>>, AllocError>
        ensures { IfOk result (λ room. IsRoomFor vt.now self.now.vt room) }
    {
        if self.vt().is_some() || vt.is_none() {
            return Ok(None);
        }
        Ok(Some(Boxed::new(alloc, StoredCsi::NotStored)?))
    }

    /// Stores what an Insert brings, with a block for the VT-CSI if there is to be one. It takes no memory.
    // It is put into its callers, so that what it takes by value is moved from where it lies.
    #[inline(always)]
    fn put(
        &mut self,
        room: Option<Boxed<StoredVtCsi>>,
        o: &Option<OCsi>,
        o_criteria: Option<OCriteriaSet>,
        vt: &Option<VtCsi>,
        t_criteria: Option<TCriteriaSet>,
    )
        requires { IsRoomFor vt.now self.old.vt room }
        ensures { self.new ≡ record_with_insert o.now o_criteria vt.now t_criteria self.old }
    {
        if self.vt.is_none() {
            self.vt = room;
        }
        if let Some(block) = &mut self.vt {
            block.get_mut().insert(vt, t_criteria);
        }
        self.o.insert(o, o_criteria);
    }

    /// Removes what a Delete names.
    pub(crate) fn withdraw(&mut self, what: Withdrawal)
        ensures { self.new ≡ record_without what self.old }
    {
        if what.removes_o() {
            self.o = StoredCsi::NotStored;
        }
        if what.removes_vt() {
            self.vt = None;
        }
    }
}

impl Default for Subscriber {
    ghost use Rattle.std.specs.Prelude.{◌≡◌};
    ghost use Rattle.camel_rows.specs.Subscriber.{empty_record};

    ghost is_default = { λ subscriber. subscriber ≡ empty_record };

    fn default() -> Subscriber {
        Subscriber::new()
    }
}

impl Clone for Subscriber {
    ghost use Rattle.std.specs.Prelude.{◌≡◌};

    ghost is_clone = { λ old new. new ≡ old };

    fn clone(&self) -> Result<Subscriber, AllocError> {
        Ok(Subscriber {
            o: self.o.clone()?,
            vt: self.vt.clone()?,
        })
    }
}

impl fmt::Debug for Subscriber {
    fn fmt<W: fmt::Write>(&self, f: &mut fmt::Formatter<W>) -> fmt::Result {
        f.debug_struct("Subscriber")
            .field("o", &self.o())
            .field("o_criteria", &self.o.entries())
            .field("vt", &self.vt())
            .field("t_criteria", &self.stored_vt().and_then(StoredCsi::entries))
            .finish()
    }
}
