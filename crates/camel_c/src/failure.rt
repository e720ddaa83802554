//! Why a call of C fails.

ghost use Rattle.std.specs.Prelude.{◌≡◌, ◌≢◌};
ghost use Rattle.camel_c.specs.Failure.{failure_code};

use camel_criteria::Refusal;

/// Why a call did not do what it says.
#[derive(Clone, Copy)]
pub enum Failure {
    /// 102: memory was refused. 104: the store has ended.
    Refused(Refusal),
    /// 501: a look that is held stands in the way. It may be tried again.
    Held,
    /// 502: what was passed is not what the call asks for.
    Malformed,
    /// 503: the handle is empty, or holds an object of another kind, or a store that has ended.
    WrongHandle,
    /// 504: the handle that the call is to fill holds an object.
    FullHandle,
    /// 505: the receipt is of another store than the session, or of more updates than are published.
    OtherStore,
    /// 506: the caller knows other layouts than the library has.
    OtherVersion,
}

impl Failure {
    /// The failure's number, which is never 0.
    pub fn code(&self) -> u32
        ensures code { result ≡ failure_code self.now }
        ensures some { result ≢ 0 }
    {
        match self {
            Failure::Refused(why) => u32::from(why.code()),
            Failure::Held => 501,
            Failure::Malformed => 502,
            Failure::WrongHandle => 503,
            Failure::FullHandle => 504,
            Failure::OtherStore => 505,
            Failure::OtherVersion => 506,
        }
    }
}
