ghost use Rattle.std.specs.Prelude.{◌≡◌, ◌≤◌};
ghost use Rattle.camel_criteria.specs.Cause.{cause_of, max_cause};

use std::marker::Model;

/// The greatest cause value.
pub const MAX_CAUSE: u8 = 127;

/// The cause with which a call was released, 0 to 127, without an extension bit (CauseValue of TS 29.002).
///
/// Contracts see it as its value.
#[derive(Clone, Copy, Debug, PartialEq, Eq)]
pub struct Cause {
    value: u8,
}

impl Model for Cause {
    ghost use Rattle.std.specs.Prelude.{ℕ, ◌≤◌};
    ghost use Rattle.camel_criteria.specs.Cause.{max_cause};

    ghost Value = { ℕ };

    ghost view = { λ a. a.value };

    ghost invariant = { λ a. a.value ≤ max_cause };

    ghost inverse = { λ value. record { value = value } };
}

impl Cause {
    /// The cause of this value; None over 127.
    pub fn new(value: u8) -> Option<Cause>
        ensures { result ≡ cause_of value }
    {
        if value > MAX_CAUSE {
            return None;
        }
        Some(Cause { value })
    }

    /// Its value, 0 to 127.
    pub fn value(&self) -> u8
        ensures value { result ≡ self.now }
        ensures range { result ≤ max_cause }
    {
        self.value
    }
}
