ghost use Rattle.std.specs.Prelude.{◌≡◌, ◌≤◌, ◌<◌, ◌++◌, ◌∷◌, [], length};
ghost use Rattle.camel_tbcd.specs.Imsi.{imsi_number};

use crate::imsi::VALUE_BITS;
use std::marker::Model;

// The first digits of an IMSI, as their count and their decimal value. Contracts see the list of the digits.
#[derive(Drop)]
pub(crate) struct FirstDigits {
    count: u64,
    value: u64,
}

impl Model for FirstDigits {
    ghost use Rattle.std.specs.Prelude.{ℕ, List, ◌<◌, ◌≤◌, ◌^◌};
    ghost use Rattle.camel_tbcd.specs.Imsi.{last_digits};

    ghost Value = { List ℕ };

    ghost view = { λ a. last_digits a.count a.value };

    ghost invariant = { λ a. (a.count ≤ 15) × (a.value < 10 ^ a.count) };
}

impl FirstDigits {
    // No digit.
    pub(crate) fn new() -> FirstDigits
        ensures { result ≡ [] }
    {
        FirstDigits { count: 0, value: 0 }
    }

    // Adds a digit behind the others.
    pub(crate) fn push(&mut self, digit: u8)
        requires room { length self.old < 15 }
        requires decimal { digit ≤ 9 }
        ensures { self.new ≡ self.old ++ digit ∷ [] }
    {
        self.value = self.value * 10 + u64::from(digit);
        self.count += 1;
    }

    // Their number as that of an IMSI.
    pub(crate) fn number(&self) -> u64
        ensures { result ≡ imsi_number self.now }
    {
        (self.count << VALUE_BITS) + self.value
    }
}
