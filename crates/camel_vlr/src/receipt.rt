ghost use Rattle.std.specs.Prelude.{◌≡◌, length, true, false};
ghost use Rattle.camel_rows.specs.Update.{Extends, IsFront};

use crate::history::prefix::Prefix;
use std::marker::Model;

/// What a session learns of a publication by: a front that its store had published when the receipt was given.
///
/// Contracts see of which store it is, and the updates of the front.
#[derive(Drop)]
pub struct Receipt {
    pub(crate) count: u64,
    pub(crate) prefix: Prefix,
}

impl Model for Receipt {
    ghost use Rattle.camel_vlr.specs.History.{PrefixData, IsReceipt};

    ghost Value = { PrefixData };

    ghost view = { λ a. a.prefix };

    ghost invariant = { λ a. IsReceipt a.count a.prefix };
}

impl Receipt {
    /// How many updates the front has.
    pub fn front(&self) -> u64
        ensures count { result ≡ length self.now.updates }
        ensures front { IsFront self.now.store.limit self.now.updates }
    {
        self.count
    }

    /// A copy of the receipt, for another session. It takes no memory.
    pub fn copy(&self) -> Receipt
        ensures { result ≡ self.now }
    {
        Receipt {
            count: self.count,
            prefix: self.prefix.copy(),
        }
    }

    /// Whether the other's front extends this one. Of two fronts of one store one extends the other.
    pub(crate) fn is_prefix_of(&self, other: &Receipt) -> bool
        requires { other.now.store ≡ self.now.store }
        ensures yes { result ≡ true → Extends other.now.updates self.now.updates }
        ensures exact { Extends other.now.updates self.now.updates → result ≡ true }
        ensures no { result ≡ false → Extends self.now.updates other.now.updates }
    {
        self.prefix.are_comparable(&other.prefix);
        self.count <= other.count
    }
}
