//! Which criterion of an entry a call doesn't meet.

mod number;

use crate::criteria::number::say_number;
use camel_criteria::{
    BasicService, CallType, Cause, Criterion, OCriteria, OEvent, TCriteria, TEvent, o_unmet,
    t_unmet,
};
use camel_rows::{CallEvent, Event, Lent, Subscriber};
use camel_tbcd::Profile;
use std::alloc::AllocError;

/// Appends the first criterion of the entry of a call's detection point that the call doesn't meet, and why.
pub(crate) fn say_unmet(
    out: &mut String,
    subscriber: &Subscriber,
    profile: Profile,
    call: &CallEvent,
) -> Result<(), AllocError> {
    write!(out, "criteria of DP {}: ", call.dp())?;
    match subscriber.criteria(call.dp()) {
        Some(Lent::O(entry)) => say_unmet_o(out, entry, profile, call),
        Some(Lent::T(entry)) => say_unmet_t(out, entry, call),
        None => Ok(()),
    }
}

fn say_unmet_o(
    out: &mut String,
    entry: &OCriteria,
    profile: Profile,
    call: &CallEvent,
) -> Result<(), AllocError> {
    let event = match call.lend() {
        Event::CollectedInfo {
            destination,
            basic,
            forwarded,
            ..
        }
        | Event::RouteSelectFailure {
            destination,
            basic,
            forwarded,
            ..
        } => OEvent {
            destination,
            basic,
            forwarded,
            cause: call.cause(),
        },
        _ => return Ok(()),
    };
    match o_unmet(entry, &event, profile) {
        Some(Criterion::DestinationNumber) => match entry.number() {
            Some(criterion) => say_number(out, criterion, &event.destination, profile),
            None => Ok(()),
        },
        Some(Criterion::BasicService) => say_basic(out, entry.basic(), event.basic),
        Some(Criterion::CallType) => say_call_type(out, entry.call_type()),
        Some(Criterion::Cause) => say_cause(out, entry.causes(), event.cause),
        None => Ok(()),
    }
}

fn say_unmet_t(out: &mut String, entry: &TCriteria, call: &CallEvent) -> Result<(), AllocError> {
    let event = TEvent {
        basic: call.basic(),
        cause: call.cause(),
    };
    match t_unmet(entry, &event) {
        Some(Criterion::BasicService) => say_basic(out, entry.basic(), event.basic),
        Some(Criterion::Cause) => say_cause(out, entry.causes(), event.cause),
        _ => Ok(()),
    }
}

fn say_basic(
    out: &mut String,
    listed: &[BasicService],
    call: BasicService,
) -> Result<(), AllocError> {
    write!(out, "BASICS ")?;
    for (at, service) in listed.iter().enumerate() {
        write!(out, "{}", if at == 0 { "" } else { "+" })?;
        say_service(out, *service)?;
    }
    write!(out, " doesn't cover BASIC ")?;
    say_service(out, call)
}

fn say_service(out: &mut String, service: BasicService) -> Result<(), AllocError> {
    match service {
        BasicService::Tele(octet) => write!(out, "t{octet:02x}"),
        BasicService::Bearer(octet) => write!(out, "b{octet:02x}"),
    }
}

fn say_call_type(out: &mut String, call_type: Option<CallType>) -> Result<(), AllocError> {
    match call_type {
        Some(CallType::Forwarded) => write!(out, "TYPE f, and the call is not forwarded"),
        Some(CallType::NotForwarded) => write!(out, "TYPE n, and the call is forwarded"),
        None => Ok(()),
    }
}

fn say_cause(out: &mut String, listed: &[u8], cause: Option<Cause>) -> Result<(), AllocError> {
    write!(out, "CAUSES ")?;
    for (at, value) in listed.iter().enumerate() {
        write!(out, "{}{value}", if at == 0 { "" } else { "+" })?;
    }
    match cause {
        Some(cause) => write!(out, " does not list {}", cause.value()),
        None => write!(out, ", and the call has no cause"),
    }
}
