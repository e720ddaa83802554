ghost use Rattle.std.specs.Prelude.{◌≡◌, ◌≤◌};
ghost use Rattle.camel_tbcd.specs.Imsi.{last_digits};

use crate::imsi::MAX_IMSI_DIGITS;
use crate::short_list::ShortList;
use std::marker::Model;

/// The digits of an IMSI, each as its value, in 16 octets.
///
/// Contracts see it as the list of the digits.
#[derive(Clone, Copy, Debug)]
pub struct ImsiDigits {
    digits: ShortList<MAX_IMSI_DIGITS>,
}

impl Model for ImsiDigits {
    ghost use Rattle.std.specs.Prelude.{ℕ, List};

    ghost Value = { List ℕ };

    ghost view = { λ a. a.digits };

    ghost inverse = { λ digits. record { digits = digits } };
}

impl ImsiDigits {
    // The last digits of a decimal value, with zeros before them if it has fewer.
    pub(crate) fn of_value(count: usize, value: u64) -> ImsiDigits
        requires { count ≤ 15 }
        ensures { result ≡ last_digits count value }
    {
        let mut room = [0; MAX_IMSI_DIGITS];
        let mut rest = value;
        for read in 0..count {
            room[count - 1 - read] = (rest % 10) as u8;
            rest /= 10;
        }
        ImsiDigits {
            digits: ShortList::from_slice(&room[..count]),
        }
    }

    /// The digits, the first one first.
    pub fn as_slice(&self) -> &[u8]
        ensures { result.now ≡ self.now }
    {
        self.digits.as_slice()
    }
}
