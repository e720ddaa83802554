use camel_criteria::Refusal;
use camel_map::{JoinFault, MapFault, MapFaultKind};
use camel_script::{append_decimal, append_text};
use std::alloc::AllocError;

/// Why the arguments of a line bring nothing.
#[derive(Clone, Copy)]
pub(crate) enum ArgumentFault {
    /// One is not taken.
    Taken(MapFault),
    /// Two are not joined.
    Joined(JoinFault),
}

impl From<MapFault> for ArgumentFault {
    fn from(fault: MapFault) -> ArgumentFault {
        ArgumentFault::Taken(fault)
    }
}

impl From<JoinFault> for ArgumentFault {
    fn from(fault: JoinFault) -> ArgumentFault {
        ArgumentFault::Joined(fault)
    }
}

/// Appends the line of a fault. One of refused memory has none.
pub(crate) fn append_fault(out: &mut Vec<u8>, fault: ArgumentFault) -> Result<(), AllocError> {
    match fault {
        ArgumentFault::Taken(
            MapFault {
                kind: MapFaultKind::Refused(Refusal::OutOfMemory),
                ..
            },
        )
        | ArgumentFault::Joined(JoinFault::Refused(Refusal::OutOfMemory)) => Err(AllocError),
        ArgumentFault::Taken(fault) => {
            append_code(out, fault.code())?;
            append_text(out, " ")?;
            append_decimal(out, fault.place as u64)?;
            append_text(out, "\n")
        }
        ArgumentFault::Joined(fault) => {
            append_code(out, fault.code())?;
            append_text(out, "\n")
        }
    }
}

fn append_code(out: &mut Vec<u8>, code: u16) -> Result<(), AllocError> {
    append_text(out, "fault ")?;
    append_decimal(out, u64::from(code))
}
