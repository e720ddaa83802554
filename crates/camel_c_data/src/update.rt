//! The updates that a C caller submits with data.

ghost use Rattle.std.specs.Prelude.{◌≡◌};
ghost use Rattle.camel_reading.specs.Reading.{ReadsAs};
ghost use Rattle.camel_c_data.specs.Fields.{IsMemory};
ghost use Rattle.camel_c_data.specs.Update.{delete_in, insert_in, withdrawal_in};

use crate::{CamelCsiLists, CamelImsi, DataFault};
use camel_rows::{Update, Withdrawal};
use std::alloc::Global;
use std::mem::size_of;

/// What an Insert sends.
#[repr(C)]
#[derive(Clone, Copy, Debug)]
pub struct CamelLists<'a> {
    pub o: CamelCsiLists<'a>,
    pub vt: CamelCsiLists<'a>,
}

const _: () = prove!(size_of::<CamelLists>() == 80);

impl CamelLists<'_> {
    /// The Insert of an IMSI and of the lists that are sent.
    ///
    /// Fails as the IMSI fails to read, and then as the first list that does, in the order of the fields. Fails with
    /// `DataMissing` (35) for a list that is sent without items, with `UnexpectedDataValue` (36) as [`Csi::new`] and
    /// [`CriteriaSet::new`] do, and with `OutOfMemory` (102) if memory is refused. Nothing was made then.
    ///
    /// [`Csi::new`]: camel_rows::Csi::new
    /// [`CriteriaSet::new`]: camel_rows::CriteriaSet::new
    #[tactic(auto, unfolding(crate::specs::Update::insert_in))]
    pub fn read(&self, alloc: Global, imsi: &CamelImsi) -> Result<Update, DataFault>
        ensures { ReadsAs IsMemory result (insert_in self.now imsi.now) }
    {
        Ok(Update::Insert {
            imsi: imsi.read()?,
            o: self.o.read_rows()?,
            o_criteria: self.o.read_criteria(alloc)?,
            vt: self.vt.read_rows()?,
            t_criteria: self.vt.read_criteria(alloc)?,
        })
    }
}

/// What a Delete removes (DeleteSubscriberData of TS 29.002). Several may be named together, or none.
#[repr(C)]
#[derive(Clone, Copy, Debug, PartialEq, Eq)]
pub struct CamelWithdrawal {
    /// Not 0 for the O-CSI with its criteria.
    pub o: u8,
    /// Not 0 for the VT-CSI with its criteria.
    pub vt: u8,
    /// Not 0 for both CSIs with their criteria.
    pub everything: u8,
}

const _: () = prove!(size_of::<CamelWithdrawal>() == 3);

impl CamelWithdrawal {
    /// The Delete of an IMSI and of what is named.
    ///
    /// Fails with `Malformed` (502) if the IMSI is none. Nothing was made then.
    #[tactic(auto, unfolding(crate::specs::Update::delete_in))]
    pub fn read(&self, imsi: &CamelImsi) -> Result<Update, DataFault>
        ensures { result ≡ delete_in self.now imsi.now }
    {
        Ok(Update::Delete {
            imsi: imsi.read()?,
            what: self.withdrawal(),
        })
    }

    fn withdrawal(&self) -> Withdrawal
        ensures { result ≡ withdrawal_in self.now }
    {
        Withdrawal {
            o: self.o != 0,
            vt: self.vt != 0,
            everything: self.everything != 0,
        }
    }
}
