use camel_criteria::Refusal;
use camel_tbcd::{AddressFault, ImsiFault};
use camel_vlr::NoLook;
use std::alloc::{AllocError, AllocFailed};
use std::io;
use thiserror::Error;

/// `OutOfMemory` (102): the number of an answer that memory was refused.
pub(crate) const OUT_OF_MEMORY: u16 = 102;

/// Why a step of a run failed.
#[derive(Clone, Copy, Debug, PartialEq, Eq, Error)]
pub(crate) enum Failure {
    /// Memory was refused, and the call answered with this number.
    #[error("memory was refused too often, at last with {0}")]
    Memory(u16),
    /// The call answered with this number, and memory was not refused.
    #[error("answered {0}")]
    Answer(u16),
    /// What has to hold does not.
    #[error("{0}")]
    Lost(Lost),
}

/// What a run does not find as it has to be.
#[derive(Clone, Copy, Debug, PartialEq, Eq, Error)]
pub(crate) enum Lost {
    #[error("there is no such call")]
    Name,
    #[error("the words or the output of the program failed")]
    Streams,
    #[error("a value was not made")]
    Value,
    #[error("a subscriber without a record is not unknown")]
    Unknown,
    #[error("a store does not open empty")]
    Empty,
    #[error("a store has no session")]
    Session,
    #[error("a session got no look")]
    Look,
    #[error("a refused call changed what the store shows")]
    Shown,
    #[error("an update has another number")]
    Number,
    #[error("a publication lacks updates")]
    Publication,
    #[error("a refused call left an answer")]
    Answer,
    #[error("a refused call looked, or an answered one did not")]
    Seen,
    #[error("a worker ended early")]
    Worker,
}

impl Failure {
    /// The failure of a call that answered with this number.
    pub(crate) fn of_code(code: u16) -> Failure {
        if code == OUT_OF_MEMORY {
            Failure::Memory(code)
        } else {
            Failure::Answer(code)
        }
    }
}

/// Fails with what is lost unless it holds.
pub(crate) fn check(holds: bool, lost: Lost) -> Result<(), Failure> {
    if holds {
        Ok(())
    } else {
        Err(Failure::Lost(lost))
    }
}

impl From<Refusal> for Failure {
    fn from(refusal: Refusal) -> Failure {
        Failure::of_code(refusal.code())
    }
}

impl From<AllocError> for Failure {
    fn from(_error: AllocError) -> Failure {
        Failure::Memory(OUT_OF_MEMORY)
    }
}

impl<T: Drop> From<AllocFailed<T>> for Failure {
    fn from(_error: AllocFailed<T>) -> Failure {
        Failure::Memory(OUT_OF_MEMORY)
    }
}

impl From<AddressFault> for Failure {
    fn from(_fault: AddressFault) -> Failure {
        Failure::Lost(Lost::Value)
    }
}

impl From<ImsiFault> for Failure {
    fn from(_fault: ImsiFault) -> Failure {
        Failure::Lost(Lost::Value)
    }
}

impl From<NoLook> for Failure {
    fn from(_no_look: NoLook) -> Failure {
        Failure::Lost(Lost::Look)
    }
}

impl From<io::Error> for Failure {
    fn from(error: io::Error) -> Failure {
        match error.kind() {
            io::ErrorKind::OutOfMemory => Failure::Memory(OUT_OF_MEMORY),
            _ => Failure::Lost(Lost::Streams),
        }
    }
}
