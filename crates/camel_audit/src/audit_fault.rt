ghost use Rattle.std.specs.Prelude.{◌≡◌};
ghost use Rattle.camel_audit.specs.Audit.{audit_fault_code};

use thiserror::Error;

/// Why updates do not explain what sessions answered. Updates, sessions and entries are counted from 0. An audit
/// changes nothing.
#[derive(Clone, Copy, Debug, PartialEq, Eq, Error)]
pub enum AuditFault {
    /// 102: out of memory.
    #[error("out of memory")]
    OutOfMemory,
    /// 301: the front of this entry has more updates than there are.
    #[error("session {session}, entry {entry}: a front of more updates than there are")]
    FrontTooLong { session: u64, entry: u64 },
    /// 302: the front of this entry is shorter than that of the entry before it.
    #[error("session {session}, entry {entry}: a front that went back")]
    FrontWentBack { session: u64, entry: u64 },
    /// 303: the answer of this entry is not the decision over the updates of its front.
    #[error("session {session}, entry {entry}: another answer than the updates give")]
    AnswerDiffers { session: u64, entry: u64 },
    /// 304: the update at this place is refused by the data that those before it leave.
    #[error("update {at}: refused")]
    BadHistory { at: u64 },
}

impl AuditFault {
    /// The fault's number.
    pub fn code(&self) -> u16
        ensures { result ≡ audit_fault_code self.now }
    {
        match self {
            AuditFault::OutOfMemory => 102,
            AuditFault::FrontTooLong { .. } => 301,
            AuditFault::FrontWentBack { .. } => 302,
            AuditFault::AnswerDiffers { .. } => 303,
            AuditFault::BadHistory { .. } => 304,
        }
    }
}
