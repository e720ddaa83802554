ghost use Rattle.std.specs.Prelude.{◌≡◌, ◌==◌, ◌&&◌};
ghost use Rattle.std.specs.List.{list_any};
ghost use Rattle.std.specs.Option.{option_copied};
ghost use Rattle.camel_tbcd.specs.Address.{octets};
ghost use Rattle.camel_criteria.specs.BasicService.{covers};
ghost use Rattle.camel_criteria.specs.Met.{o_event_data, basic_met, cause_met, held_number_met, o_met, t_met, type_met};

use crate::{
    BasicService, CallType, Cause, NumberCriterion, OCriteria, OEvent, TCriteria, TEvent, covers,
};
use camel_tbcd::{Address, Profile};

/// Whether an event meets each criterion that an entry of the O-CSI holds. One that holds none is met by every
/// event. The detection points are not compared. The profile says what of octet 1 a listed number and the destination
/// have to have in common.
#[inline(always)]
pub fn o_met(entry: &OCriteria, event: &OEvent, profile: Profile) -> bool
    ensures { result ≡ o_met profile entry.now (o_event_data event.now) }
{
    held_number_met(entry.number(), &event.destination, profile)
        && (entry.holds_no_other() || others_met(entry, event.basic, event.forwarded, event.cause))
}

// Whether an event meets each criterion of an entry but that of the number. Few entries hold others: this is a call of
// its own, and takes values, so that a decision by the number writes no event to memory.
#[inline(never)]
fn others_met(entry: &OCriteria, basic: BasicService, forwarded: bool, cause: Option<Cause>) -> bool
    ensures { result ≡ (basic_met entry.now.basic basic
        && (type_met entry.now.call_type forwarded && cause_met entry.now.causes cause)) }
{
    basic_met(entry.basic(), basic)
        && type_met(entry.call_type(), forwarded)
        && cause_met(entry.causes(), cause)
}

/// Whether an event meets each criterion that an entry of the VT-CSI holds. One that holds none is met by
/// every event. The detection points are not compared.
pub fn t_met(entry: &TCriteria, event: &TEvent) -> bool
    ensures { result ≡ t_met entry.now event.now }
{
    basic_met(entry.basic(), event.basic) && cause_met(entry.causes(), event.cause)
}

#[inline(always)]
pub(crate) fn held_number_met(
    criterion: Option<&NumberCriterion>,
    destination: &Address,
    profile: Profile,
) -> bool
    ensures { result ≡ held_number_met profile (option_copied criterion.entry) (octets destination.now) }
{
    match criterion {
        Some(criterion) => criterion.is_met_by(destination, profile),
        None => true,
    }
}

pub(crate) fn basic_met(listed: &[BasicService], call: BasicService) -> bool
    ensures { result ≡ basic_met listed.now call }
{
    listed.is_empty() || has_cover(listed, call)
}

fn has_cover(listed: &[BasicService], call: BasicService) -> bool
    ensures { result ≡ list_any (λ listed. covers listed call) listed.now }
{
    listed.iter().any(|listed| covers(*listed, call))
}

pub(crate) fn type_met(call_type: Option<CallType>, forwarded: bool) -> bool
    ensures { result ≡ type_met call_type forwarded }
{
    match call_type {
        None => true,
        Some(CallType::Forwarded) => forwarded,
        Some(CallType::NotForwarded) => !forwarded,
    }
}

pub(crate) fn cause_met(listed: &[u8], cause: Option<Cause>) -> bool
    ensures { result ≡ cause_met listed.now cause }
{
    match cause {
        _ if listed.is_empty() => true,
        Some(cause) => listed.contains(&cause.value()),
        None => false,
    }
}
