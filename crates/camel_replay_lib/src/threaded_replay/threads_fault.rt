ghost use Rattle.std.specs.Prelude.{◌≡◌};
ghost use Rattle.camel_replay_lib.specs.ThreadsOutput.{threads_fault_code};

use camel_audit::AuditFault;
use camel_criteria::Refusal;
use std::alloc::AllocError;

/// Why a replay with threads ended after its script was read and before a line was written.
#[derive(Clone, Copy, Debug)]
pub(crate) enum ThreadsFault {
    /// 102: out of memory.
    OutOfMemory,
    /// 103: a session got no place at the store.
    NoPlace,
    /// 104: a look failed.
    NoGuard,
    /// 105: the gate stopped a worker or the writer.
    Stopped,
    /// 106: a worker, or a thread that makes the lines of a session, was not started.
    NoWorker,
    /// The audit failed. `OutOfMemory` (102): memory was refused; `FrontTooLong` (301) to `BadHistory` (304): the
    /// published updates do not explain what was answered.
    Audit(AuditFault),
}

impl ThreadsFault {
    /// The fault's number.
    pub(crate) fn code(&self) -> u16
        ensures { result ≡ threads_fault_code self.now }
    {
        match self {
            ThreadsFault::OutOfMemory => 102,
            ThreadsFault::NoPlace => 103,
            ThreadsFault::NoGuard => 104,
            ThreadsFault::Stopped => 105,
            ThreadsFault::NoWorker => 106,
            ThreadsFault::Audit(fault) => fault.code(),
        }
    }
}

impl From<AllocError> for ThreadsFault {
    ghost use Rattle.std.specs.Prelude.{◌≡◌};
    ghost use Rattle.camel_replay_lib.specs.declared.threaded_replay.threads_fault.ThreadsFault.{ThreadsFault};

    ghost from_gives = { λ _ fault. fault ≡ ThreadsFault.OutOfMemory };

    fn from(_: AllocError) -> ThreadsFault {
        ThreadsFault::OutOfMemory
    }
}

impl From<AuditFault> for ThreadsFault {
    ghost use Rattle.std.specs.Prelude.{◌≡◌};
    ghost use Rattle.camel_replay_lib.specs.declared.threaded_replay.threads_fault.ThreadsFault.{ThreadsFault};

    ghost from_gives = { λ audit fault. fault ≡ ThreadsFault.Audit audit };

    fn from(fault: AuditFault) -> ThreadsFault {
        ThreadsFault::Audit(fault)
    }
}

impl From<Refusal> for ThreadsFault {
    ghost use Rattle.std.specs.Prelude.{◌≡◌};
    ghost use Rattle.camel_replay_lib.specs.ThreadsOutput.{threads_fault_of};

    ghost from_gives = { λ refusal fault. fault ≡ threads_fault_of refusal };

    /// The fault of a call that is refused only with `OutOfMemory` (102), `NoPlace` (103) or `NoGuard` (104).
    fn from(refusal: Refusal) -> ThreadsFault {
        match refusal {
            Refusal::NoPlace => ThreadsFault::NoPlace,
            Refusal::NoGuard => ThreadsFault::NoGuard,
            _ => ThreadsFault::OutOfMemory,
        }
    }
}
