ghost use Rattle.std.specs.Prelude.{◌≡◌};
ghost use Rattle.camel_c_data.specs.Fields.{data_fault_code};

use camel_criteria::Refusal;
use camel_reading::Fault;
use camel_tbcd::{AddressFault, ImsiFault};
use std::alloc::{AllocError, AllocFailed};

/// Why the data of a C caller are not taken. Nothing was made, and no memory is held.
#[derive(Clone, Copy, Debug, PartialEq, Eq)]
pub enum DataFault {
    /// 502: fields are not what they stand for: an IMSI, an address, a cause, a detection point, or a count of items
    /// for which there is room.
    Malformed,
    /// The data are refused, with the refusal's number. `OutOfMemory` (102) is one of these.
    Refused(Refusal),
}

impl DataFault {
    /// The fault's number.
    pub fn code(&self) -> u16
        ensures { result ≡ data_fault_code self.now }
    {
        match self {
            DataFault::Malformed => 502,
            DataFault::Refused(refusal) => refusal.code(),
        }
    }
}

impl Fault for DataFault {
    ghost use Rattle.camel_c_data.specs.Fields.{IsMemory};

    ghost is_out_of_memory = { IsMemory };

    fn out_of_memory() -> DataFault {
        DataFault::Refused(Refusal::OutOfMemory)
    }
}

impl From<Refusal> for DataFault {
    ghost use Rattle.std.specs.Prelude.{◌≡◌};
    ghost use Rattle.camel_c_data.specs.declared.data_fault.DataFault.{DataFault};

    ghost from_gives = { λ refusal fault. fault ≡ DataFault.Refused refusal };

    fn from(refusal: Refusal) -> DataFault {
        DataFault::Refused(refusal)
    }
}

impl From<AllocError> for DataFault {
    ghost use Rattle.std.specs.Prelude.{◌≡◌};
    ghost use Rattle.camel_c_data.specs.Fields.{out_of_memory};

    ghost from_gives = { λ _ fault. fault ≡ out_of_memory };

    fn from(_error: AllocError) -> DataFault {
        DataFault::Refused(Refusal::OutOfMemory)
    }
}

impl<T: Drop> From<AllocFailed<T>> for DataFault {
    ghost use Rattle.std.specs.Prelude.{◌≡◌};
    ghost use Rattle.camel_c_data.specs.Fields.{out_of_memory};

    ghost from_gives = { λ _ fault. fault ≡ out_of_memory };

    fn from(_error: AllocFailed<T>) -> DataFault {
        DataFault::Refused(Refusal::OutOfMemory)
    }
}

impl From<AddressFault> for DataFault {
    ghost use Rattle.std.specs.Prelude.{◌≡◌};
    ghost use Rattle.camel_c_data.specs.declared.data_fault.DataFault.{DataFault};

    ghost from_gives = { λ _ fault. fault ≡ DataFault.Malformed };

    fn from(_fault: AddressFault) -> DataFault {
        DataFault::Malformed
    }
}

impl From<ImsiFault> for DataFault {
    ghost use Rattle.std.specs.Prelude.{◌≡◌};
    ghost use Rattle.camel_c_data.specs.declared.data_fault.DataFault.{DataFault};

    ghost from_gives = { λ _ fault. fault ≡ DataFault.Malformed };

    fn from(_fault: ImsiFault) -> DataFault {
        DataFault::Malformed
    }
}
