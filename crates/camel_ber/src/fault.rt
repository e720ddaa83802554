use std::alloc::{AllocError, AllocFailed};

/// What is wrong with octets that are to be elements of BER (ITU-T X.690).
#[derive(Clone, Copy, Debug, PartialEq, Eq)]
pub enum FaultKind {
    /// Octets are missing: of an identifier, of a length, of contents, or the two octets 0 that end contents.
    PastEnd,
    /// A length has more than four octets behind its first.
    LongLength,
    /// A primitive element has the indefinite form (8.1.3.2).
    IndefinitePrimitive,
    /// Indefinite forms are within one another deeper than the caller allows.
    TooDeep,
    /// An octet 0 stands where an identifier begins, and is not of an end of contents (8.1.5).
    LoneEndOfContents,
    /// A tag number has more octets than it needs (8.1.2.4).
    TagNumber,
}

/// The first fault of octets, from left to right.
#[derive(Clone, Copy, Debug, PartialEq, Eq)]
pub struct Fault {
    /// What is wrong.
    pub kind: FaultKind,
    /// Where the identifier, the length or the contents begin that are not as they must be: a number of octets of the
    /// argument. `IndefinitePrimitive` and `TooDeep` are where the contents begin. An end of contents is missing behind
    /// the last octet, or where its first octet is the last one.
    pub place: usize,
}

impl Fault {
    ghost use Rattle.std.specs.Prelude.{◌≡◌, ◌≤◌, length};
    ghost use Rattle.camel_ber.specs.Elements.{fault_at};

    // The fault of octets that end at a place, where these begin.
    pub(crate) fn of(kind: FaultKind, bytes: &[u8], end: usize) -> Fault
        requires { length bytes.now ≤ end }
        ensures { result ≡ fault_at kind end bytes.now }
    {
        Fault {
            kind,
            place: end - bytes.len(),
        }
    }
}

/// Why no elements were read.
#[derive(Debug, Drop)]
pub enum ReadError {
    /// Out of memory. The octets may be elements.
    Memory,
    /// The octets are no elements.
    Fault(Fault),
}

impl From<AllocError> for ReadError {
    ghost use Rattle.std.specs.Prelude.{◌≡◌};
    ghost use Rattle.camel_ber.specs.declared.fault.ReadError.{ReadError};

    ghost from_gives = { λ _ error. error ≡ ReadError.Memory };

    fn from(_error: AllocError) -> ReadError {
        ReadError::Memory
    }
}

impl<T: Drop> From<AllocFailed<T>> for ReadError {
    ghost use Rattle.std.specs.Prelude.{◌≡◌};
    ghost use Rattle.camel_ber.specs.declared.fault.ReadError.{ReadError};

    ghost from_gives = { λ _ error. error ≡ ReadError.Memory };

    fn from(_error: AllocFailed<T>) -> ReadError {
        ReadError::Memory
    }
}

impl From<Fault> for ReadError {
    ghost use Rattle.std.specs.Prelude.{◌≡◌};
    ghost use Rattle.camel_ber.specs.declared.fault.ReadError.{ReadError};

    ghost from_gives = { λ fault error. error ≡ ReadError.Fault fault };

    fn from(fault: Fault) -> ReadError {
        ReadError::Fault(fault)
    }
}
