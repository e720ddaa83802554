ghost use Rattle.std.specs.Prelude.{◌≡◌};
ghost use Rattle.camel_script.specs.Fields.{record_fault_code};

use camel_criteria::Refusal;
use camel_reading::Fault;
use std::alloc::{AllocError, AllocFailed};

/// Why a check of a record fails: out of memory, a fault of its text, or data that are refused.
#[derive(Clone, Copy, Debug, PartialEq, Eq)]
pub enum RecordFault {
    /// 102: out of memory.
    OutOfMemory,
    /// 202: a word, or a text that is one of few, is none of the format.
    Word,
    /// 203: there are too few or too many fields or parts.
    FieldCount,
    /// 204: a text is not pairs of hexadecimal digits.
    Hexadecimal,
    /// 205: a text is not an IMSI, or not a decimal in its range.
    Number,
    /// The texts that were read have no fault, and the data are refused: with `DataMissing` (35) or
    /// `UnexpectedDataValue` (36).
    Refused(Refusal),
}

impl RecordFault {
    /// The fault's number, or that of the refusal.
    pub fn code(&self) -> u16
        ensures { result ≡ record_fault_code self.now }
    {
        match self {
            RecordFault::OutOfMemory => 102,
            RecordFault::Word => 202,
            RecordFault::FieldCount => 203,
            RecordFault::Hexadecimal => 204,
            RecordFault::Number => 205,
            RecordFault::Refused(refusal) => refusal.code(),
        }
    }
}

impl Fault for RecordFault {
    ghost use Rattle.camel_script.specs.Fields.{IsMemory};

    ghost is_out_of_memory = { IsMemory };

    fn out_of_memory() -> RecordFault {
        RecordFault::OutOfMemory
    }
}

impl From<AllocError> for RecordFault {
    ghost use Rattle.std.specs.Prelude.{◌≡◌};
    ghost use Rattle.camel_script.specs.declared.text.record_fault.RecordFault.{RecordFault};

    ghost from_gives = { λ _ fault. fault ≡ RecordFault.OutOfMemory };

    fn from(_error: AllocError) -> RecordFault {
        RecordFault::OutOfMemory
    }
}

impl<T: Drop> From<AllocFailed<T>> for RecordFault {
    ghost use Rattle.std.specs.Prelude.{◌≡◌};
    ghost use Rattle.camel_script.specs.declared.text.record_fault.RecordFault.{RecordFault};

    ghost from_gives = { λ _ fault. fault ≡ RecordFault.OutOfMemory };

    fn from(_error: AllocFailed<T>) -> RecordFault {
        RecordFault::OutOfMemory
    }
}

impl From<Refusal> for RecordFault {
    ghost use Rattle.std.specs.Prelude.{◌≡◌};
    ghost use Rattle.camel_script.specs.Fields.{record_fault_of};

    ghost from_gives = { λ refusal fault. fault ≡ record_fault_of refusal };

    fn from(refusal: Refusal) -> RecordFault {
        match refusal {
            Refusal::OutOfMemory => RecordFault::OutOfMemory,
            refusal => RecordFault::Refused(refusal),
        }
    }
}
