use camel_criteria::Refusal;
use std::alloc::AllocError;

/// Why a run stops before the end of the script.
#[derive(Clone, Copy)]
pub(crate) enum Stop {
    Memory,
    Read,
    TooManyRecords,
    Write,
}

impl From<AllocError> for Stop {
    fn from(_error: AllocError) -> Stop {
        Stop::Memory
    }
}

// Of the refusals only that of memory ends a run.
impl From<Refusal> for Stop {
    fn from(_refusal: Refusal) -> Stop {
        Stop::Memory
    }
}
