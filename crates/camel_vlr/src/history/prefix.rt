ghost use Rattle.std.specs.Prelude.{◌≡◌, ◌⊎◌};
ghost use Rattle.camel_rows.specs.Update.{Extends};

use crate::history::link::SeenLinks;
use std::marker::Model;

/// A prefix of a store's history: what the history was when this was made. It takes no bytes.
///
/// Contracts see of which store it is, and its updates.
#[derive(Drop)]
pub struct Prefix {
    pub(crate) seen: SeenLinks,
    /// The links of which the last one names the cell at which the history begins.
    pub(crate) start: SeenLinks,
}

impl Model for Prefix {
    ghost use Rattle.camel_vlr.specs.History.{PrefixData, prefix_in};

    ghost Value = { PrefixData };

    ghost view = { λ a. prefix_in a.seen.book a.start.log a.seen.log };
}

impl Prefix {
    /// A copy of the prefix.
    pub(crate) fn copy(&self) -> Prefix
        ensures { result ≡ self.now }
    {
        Prefix {
            seen: self.seen.again(),
            start: self.start.again(),
        }
    }

    /// Of two prefixes of one store's history, one extends the other. It does nothing at run time.
    pub(crate) fn are_comparable(&self, other: &Prefix)
        requires { other.now.store ≡ self.now.store }
        ensures { Extends other.now.updates self.now.updates ⊎ Extends self.now.updates other.now.updates }
    {
        let mut both = self.seen.again();
        both.learn(&other.seen);
    }
}
