//! Parts of the subscribers. An update changes the record of its own subscriber only, so each part can be audited by
//! itself, with records of its own.

ghost use Rattle.std.specs.Prelude.{◌≡◌, ◌≤◌};

use camel_rows::Update;
use camel_tbcd::Imsi;

/// A part of the subscribers: those whose IMSI's [number](Imsi::number), divided by how many parts there are, leaves
/// the number of the part. So of IMSIs in a row each is in another part.
#[derive(Clone, Copy, Debug)]
pub struct Part {
    /// The part's number, from 0.
    pub number: u64,
    /// How many parts there are.
    pub count: u64,
    ghost some: { 1 ≤ count },
}

impl Part {
    ghost use Rattle.camel_audit.specs.Audit.{concerns_part, is_member};
    ghost use Rattle.camel_rows.specs.Update.{update_imsi};

    /// The only part, which has all subscribers.
    pub(crate) fn whole() -> Part
        ensures number { result.number ≡ 0 }
        ensures count { result.count ≡ 1 }
    {
        Part {
            number: 0,
            count: 1,
        }
    }

    /// Whether the part has the subscriber with this IMSI.
    pub(crate) fn has(&self, imsi: &Imsi) -> bool
        ensures { result ≡ is_member self.now imsi.now }
    {
        imsi.number() % self.count == self.number
    }

    /// Whether an update concerns a subscriber whom the part has, or all.
    pub(crate) fn is_concerned(&self, update: &Update) -> bool
        ensures { result ≡ concerns_part (is_member self.now) (update_imsi update.now) }
    {
        match update.imsi() {
            Some(imsi) => self.has(&imsi),
            None => true,
        }
    }
}
