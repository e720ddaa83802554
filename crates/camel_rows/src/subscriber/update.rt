ghost use Rattle.std.specs.Prelude.{◌≡◌, IfErr, IfOk};
ghost use Rattle.camel_rows.specs.Update.{removes_o, removes_vt, leaves_record, update_imsi};

use crate::{OCriteriaSet, OCsi, TCriteriaSet, VtCsi};
use camel_criteria::Refusal;
use camel_tbcd::Imsi;
use std::alloc::AllocError;

/// What a Delete removes (DeleteSubscriberData of TS 29.002). Several may be named together, or none.
#[derive(Clone, Copy, Debug, PartialEq, Eq)]
pub struct Withdrawal {
    /// The O-CSI with its criteria.
    pub o: bool,
    /// The VT-CSI with its criteria.
    pub vt: bool,
    /// Both CSIs with their criteria.
    pub everything: bool,
}

impl Withdrawal {
    /// Whether it removes the O-CSI.
    pub(crate) fn removes_o(&self) -> bool
        ensures { result ≡ removes_o self.now }
    {
        self.o || self.everything
    }

    /// Whether it removes the VT-CSI.
    pub(crate) fn removes_vt(&self) -> bool
        ensures { result ≡ removes_vt self.now }
    {
        self.vt || self.everything
    }
}

/// A change of the subscriber data of one IMSI, or of all.
#[derive(Debug, Drop)]
pub enum Update {
    /// The subscriber registers: an empty record is stored, whatever was stored before. It is never refused. It is this
    /// product's own, in the place of the location update after which data are sent.
    Register {
        imsi: Imsi,
    },
    /// InsertSubscriberData of TS 29.002, from the HLR. A CSI that is present replaces the stored CSI and its criteria,
    /// by those that come with it or by none. Criteria without their CSI replace those of the stored CSI. What is
    /// omitted stays.
    ///
    /// It is refused with `UnidentifiedSubscriber` (5) if the IMSI has no record, and with `DataMissing` (35) if
    /// criteria come without their CSI and that CSI is not stored.
    Insert {
        imsi: Imsi,
        o: Option<OCsi>,
        o_criteria: Option<OCriteriaSet>,
        vt: Option<VtCsi>,
        t_criteria: Option<TCriteriaSet>,
    },
    /// DeleteSubscriberData of TS 29.002. What is named and not there is no fault. It is refused with
    /// `UnidentifiedSubscriber` (5) if the IMSI has no record.
    Delete {
        imsi: Imsi,
        what: Withdrawal,
    },
    /// CancelLocation of TS 29.002: no record is left. It is never refused, and changes nothing if there is no record.
    Cancel {
        imsi: Imsi,
    },
    /// No record of any subscriber is left. It is never refused. It is this product's own, for a switch that no longer
    /// relies on the data that it has stored.
    ClearAll,
}

impl Update {
    /// The subscriber whom it concerns; None if it concerns all of them.
    pub fn imsi(&self) -> Option<Imsi>
        ensures { result ≡ update_imsi self.now }
    {
        match self {
            Update::Register { imsi }
            | Update::Insert { imsi, .. }
            | Update::Delete { imsi, .. }
            | Update::Cancel { imsi } => Some(*imsi),
            Update::ClearAll => None,
        }
    }

    /// Whether it leaves a record, if it is accepted.
    pub fn leaves_record(&self) -> bool
        ensures { result ≡ leaves_record self.now }
    {
        !matches!(self, Update::Cancel { .. } | Update::ClearAll)
    }

    /// An equal update. Fails with `OutOfMemory` (102) if memory is refused.
    pub fn copy(&self) -> Result<Update, Refusal>
        ensures equal { IfOk result (λ copied. copied ≡ self.now) }
        ensures only { IfErr result (λ why. why ≡ Refusal.OutOfMemory) }
    {
        Ok(self.clone()?)
    }
}

impl Clone for Update {
    ghost use Rattle.std.specs.Prelude.{◌≡◌};

    ghost is_clone = { λ old new. new ≡ old };

    fn clone(&self) -> Result<Update, AllocError> {
        Ok(match self {
            Update::Register { imsi } => Update::Register { imsi: *imsi },
            Update::Insert {
                imsi,
                o,
                o_criteria,
                vt,
                t_criteria,
            } => Update::Insert {
                imsi: *imsi,
                o: *o,
                o_criteria: o_criteria.clone()?,
                vt: *vt,
                t_criteria: t_criteria.clone()?,
            },
            Update::Delete { imsi, what } => Update::Delete {
                imsi: *imsi,
                what: *what,
            },
            Update::Cancel { imsi } => Update::Cancel { imsi: *imsi },
            Update::ClearAll => Update::ClearAll,
        })
    }
}
