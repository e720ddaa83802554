//! The entries of the criteria of both CSIs.

ghost use Rattle.std.specs.Prelude.{◌≡◌, Result};
ghost use Rattle.camel_c_data.specs.Update.{ShowsO, ShowsT, call_type_in, number_in};
ghost use Rattle.camel_reading.specs.Reading.{ReadsAs};
ghost use Rattle.camel_c_data.specs.Fields.{IsMemory};
ghost use Rattle.camel_c_data.specs.declared.data_fault.DataFault.{DataFault};
ghost use Rattle.camel_c_data.specs.declared.criteria.CamelCriteria.{CamelCriteria};

use crate::{CamelBasicServices, CamelCauses, CamelNumberCriterion, DataFault};
use camel_criteria::{CallType, CriteriaEntry, NumberCriterion, OCriteria, Refusal, TCriteria};
use std::alloc::Global;
use std::mem::size_of;

/// The criteria of a detection point of a CSI (O-BcsmCamelTDP-Criteria and T-BCSM-CAMEL-TDP-Criteria of TS 29.002).
/// Each criterion may be absent, and in the VT-CSI those of numbers and of the call type are.
#[repr(C)]
#[derive(Clone, Copy, Debug)]
pub struct CamelCriteria {
    /// The trigger detection point.
    pub dp: u8,
    /// Whether there is a destination number criterion. It is not looked at otherwise.
    pub has_number: u8,
    /// The destination number criterion.
    pub number: CamelNumberCriterion,
    /// The basic service criterion.
    pub basic: CamelBasicServices,
    /// Whether there is a call type criterion.
    pub has_call_type: u8,
    /// Whether the call type criterion asks for forwarded calls; else for those that are not forwarded.
    pub is_forwarded: u8,
    /// The cause criterion.
    pub causes: CamelCauses,
}

const _: () = prove!(size_of::<CamelCriteria>() == 127);

impl CamelCriteria {
    /// The fields of an entry of the O-CSI. Each is read as that part of it; what is absent has no items, and all its
    /// numbers are 0.
    pub fn of_o(entry: &OCriteria) -> CamelCriteria
        ensures { ShowsO entry.now result }
    {
        let call_type = entry.call_type();
        CamelCriteria {
            dp: entry.dp(),
            has_number: u8::from(entry.number().is_some()),
            number: match entry.number() {
                Some(number) => CamelNumberCriterion::of(number),
                None => CamelNumberCriterion::none(),
            },
            basic: CamelBasicServices::of(entry.basic()),
            has_call_type: u8::from(call_type.is_some()),
            is_forwarded: u8::from(matches!(call_type, Some(CallType::Forwarded))),
            causes: CamelCauses::of(entry.causes()),
        }
    }

    /// The fields of an entry of the VT-CSI, as [`CamelCriteria::of_o`] gives them.
    pub fn of_t(entry: &TCriteria) -> CamelCriteria
        ensures { ShowsT entry.now result }
    {
        CamelCriteria {
            dp: entry.dp(),
            has_number: 0,
            number: CamelNumberCriterion::none(),
            basic: CamelBasicServices::of(entry.basic()),
            has_call_type: 0,
            is_forwarded: 0,
            causes: CamelCauses::of(entry.causes()),
        }
    }

    #[tactic(auto, unfolding(crate::specs::Update::number_in))]
    fn read_number(&self, alloc: Global) -> Result<Option<NumberCriterion>, DataFault>
        ensures { ReadsAs IsMemory result (number_in self.now) }
    {
        if self.has_number == 0 {
            return Ok(None);
        }
        Ok(Some(self.number.read(alloc)?))
    }

    fn call_type(&self) -> Option<CallType>
        ensures { result ≡ call_type_in self.now }
    {
        if self.has_call_type == 0 {
            return None;
        }
        Some(if self.is_forwarded != 0 {
            CallType::Forwarded
        } else {
            CallType::NotForwarded
        })
    }
}

/// An entry of criteria that is read from its fields.
pub trait SentEntry: CriteriaEntry {
    ghost entry_in: { CamelCriteria → Result Self DataFault };

    /// The entry that the fields are.
    fn read(sent: &CamelCriteria, alloc: Global) -> Result<Self, DataFault>
        ensures { ReadsAs IsMemory result (entry_in sent.now) };
}

impl SentEntry for OCriteria {
    ghost use Rattle.camel_c_data.specs.Update.{o_entry_in};

    ghost entry_in = { o_entry_in };

    /// Fails as the destination number criterion, then the basic services and then the causes fail to read, then as
    /// [`OCriteria::new`], and with `OutOfMemory` (102) if memory is refused. Nothing was made then.
    #[tactic(auto, unfolding(crate::specs::Update::o_entry_in))]
    fn read(sent: &CamelCriteria, alloc: Global) -> Result<OCriteria, DataFault> {
        let number = sent.read_number(alloc)?;
        let basic = sent.basic.read(alloc)?;
        let causes = sent.causes.read()?;
        Ok(OCriteria::new(alloc, sent.dp, number, &basic, sent.call_type(), causes)?)
    }
}

impl SentEntry for TCriteria {
    ghost use Rattle.camel_c_data.specs.Update.{t_entry_in};

    ghost entry_in = { t_entry_in };

    /// Fails with `UnexpectedDataValue` (36) if there is a criterion of numbers or of the call type, then as the basic
    /// services and then the causes fail to read, then as [`TCriteria::new`], and with `OutOfMemory` (102) if memory is
    /// refused. Nothing was made then.
    #[tactic(auto, unfolding(crate::specs::Update::t_entry_in))]
    fn read(sent: &CamelCriteria, alloc: Global) -> Result<TCriteria, DataFault> {
        if sent.has_number != 0 || sent.has_call_type != 0 {
            return Err(DataFault::Refused(Refusal::UnexpectedDataValue));
        }
        let basic = sent.basic.read(alloc)?;
        let causes = sent.causes.read()?;
        Ok(TCriteria::new(sent.dp, &basic, causes)?)
    }
}
