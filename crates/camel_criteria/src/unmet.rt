ghost use Rattle.std.specs.Prelude.{◌≡◌, ◌↔◌, None, IsTrue};
ghost use Rattle.camel_criteria.specs.Met.{o_event_data, o_met, t_met};
ghost use Rattle.camel_criteria.specs.Unmet.{first_unmet, o_criterion_met, t_criterion_met};

use crate::met::{basic_met, cause_met, held_number_met, type_met};
use crate::{OCriteria, OEvent, TCriteria, TEvent};
use camel_tbcd::Profile;

/// The kinds of criterion that an entry may hold (TS 29.002), in the order of its sequence.
#[derive(Clone, Copy, Debug, PartialEq, Eq)]
pub enum Criterion {
    /// The destination number criterion, of the O-CSI only.
    DestinationNumber,
    /// The basic service criterion.
    BasicService,
    /// The call type criterion, of the O-CSI only.
    CallType,
    /// The cause criterion.
    Cause,
}

/// The first criterion of an entry of the O-CSI that an event doesn't meet, in the order of [`Criterion`]. None exactly
/// if [`crate::o_met`] is true. The detection points are not compared.
pub fn o_unmet(entry: &OCriteria, event: &OEvent, profile: Profile) -> Option<Criterion>
    ensures first { result ≡ first_unmet (o_criterion_met profile entry.now (o_event_data event.now)) }
    ensures none { (result ≡ None) ↔ IsTrue (o_met profile entry.now (o_event_data event.now)) }
{
    if !held_number_met(entry.number(), &event.destination, profile) {
        Some(Criterion::DestinationNumber)
    } else if !basic_met(entry.basic(), event.basic) {
        Some(Criterion::BasicService)
    } else if !type_met(entry.call_type(), event.forwarded) {
        Some(Criterion::CallType)
    } else if !cause_met(entry.causes(), event.cause) {
        Some(Criterion::Cause)
    } else {
        None
    }
}

/// The first criterion of an entry of the VT-CSI that an event doesn't meet, in the order of [`Criterion`]. None
/// exactly if [`crate::t_met`] is true. The detection points are not compared.
pub fn t_unmet(entry: &TCriteria, event: &TEvent) -> Option<Criterion>
    ensures first { result ≡ first_unmet (t_criterion_met entry.now event.now) }
    ensures none { (result ≡ None) ↔ IsTrue (t_met entry.now event.now) }
{
    if !basic_met(entry.basic(), event.basic) {
        Some(Criterion::BasicService)
    } else if !cause_met(entry.causes(), event.cause) {
        Some(Criterion::Cause)
    } else {
        None
    }
}
