ghost use Rattle.std.specs.Prelude.{◌≡◌};
ghost use Rattle.camel_criteria.specs.Refusal.{refusal_code};

use std::alloc::{AllocError, AllocFailed};
use std::error::Error;
use std::fmt;

/// Why data, an update or a call of the store is refused.
///
/// The numbers 5, 35 and 36 are those of the user errors of TS 29.002; those from 101 on are this product's own. What
/// is stored afterwards is said at each call that returns a refusal.
#[derive(Clone, Copy, Debug, PartialEq, Eq)]
pub enum Refusal {
    /// 5: there is no record of the IMSI.
    UnidentifiedSubscriber,
    /// 35: data that are needed are missing.
    DataMissing,
    /// 36: the data have the right form, but a value, a count of items or a repeated item is not allowed.
    UnexpectedDataValue,
    /// 101: the store has taken as many updates as it may.
    HistoryFull,
    /// 102: memory was refused.
    OutOfMemory,
    /// 103: a session got no place in the store.
    NoPlace,
    /// 104: the session got no look at the published front.
    NoGuard,
}

impl Refusal {
    /// The refusal's number.
    pub fn code(&self) -> u16
        ensures { result ≡ refusal_code self.now }
    {
        match self {
            Refusal::UnidentifiedSubscriber => 5,
            Refusal::DataMissing => 35,
            Refusal::UnexpectedDataValue => 36,
            Refusal::HistoryFull => 101,
            Refusal::OutOfMemory => 102,
            Refusal::NoPlace => 103,
            Refusal::NoGuard => 104,
        }
    }
}

impl fmt::Display for Refusal {
    fn fmt<W: fmt::Write>(&self, f: &mut fmt::Formatter<W>) -> fmt::Result {
        f.write_str(match self {
            Refusal::UnidentifiedSubscriber => "there is no record of the subscriber",
            Refusal::DataMissing => "data that are needed are missing",
            Refusal::UnexpectedDataValue => "a value, a count or a repeated item is not allowed",
            Refusal::HistoryFull => "the store has taken as many updates as it may",
            Refusal::OutOfMemory => "out of memory",
            Refusal::NoPlace => "there is no place for a further session",
            Refusal::NoGuard => "the session got no look",
        })
    }
}

impl Error for Refusal {}

impl From<AllocError> for Refusal {
    ghost use Rattle.std.specs.Prelude.{◌≡◌};
    ghost use Rattle.camel_criteria.specs.declared.refusal.Refusal.{Refusal};

    ghost from_gives = { λ _ refusal. refusal ≡ Refusal.OutOfMemory };

    fn from(_error: AllocError) -> Refusal {
        Refusal::OutOfMemory
    }
}

impl<T: Drop> From<AllocFailed<T>> for Refusal {
    ghost use Rattle.std.specs.Prelude.{◌≡◌};
    ghost use Rattle.camel_criteria.specs.declared.refusal.Refusal.{Refusal};

    ghost from_gives = { λ _ refusal. refusal ≡ Refusal.OutOfMemory };

    fn from(_error: AllocFailed<T>) -> Refusal {
        Refusal::OutOfMemory
    }
}
