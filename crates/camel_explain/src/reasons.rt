//! Why a call triggers no service.

use crate::criteria::say_unmet;
use crate::csi::CsiName;
use crate::shown::ShownImsi;
use camel_rows::{CallEvent, Csi, CsisPresent, Reason, Subscriber};
use camel_script_replay::Store;
use camel_tbcd::Profile;
use std::alloc::AllocError;

/// Appends why a call triggers no service, by the published data of its subscriber.
pub(crate) fn say_reason(
    out: &mut String,
    store: &Store,
    profile: Profile,
    call: &CallEvent,
    reason: Reason,
) -> Result<(), AllocError> {
    let imsi = call.imsi();
    let published = store.records().get(&imsi);
    let accepted = store.csis(&imsi);
    match (reason, published) {
        (Reason::Unknown, _) => {
            write!(out, "no record of {} is published", ShownImsi(&imsi))?;
            say_pending(out, accepted.is_some())
        }
        (Reason::Emergency, _) => {
            write!(out, "t12 is emergency calls, to which CAMEL does not apply")
        }
        (Reason::NoCsi, _) => say_no_csi(out, call, accepted),
        (Reason::NotArmed, Some(subscriber)) => say_not_armed(out, subscriber, call.dp()),
        (Reason::Criteria, Some(subscriber)) => say_unmet(out, subscriber, profile, call),
        // A decision for one of these reasons has a record.
        (Reason::NotArmed | Reason::Criteria, None) => Ok(()),
    }
}

/// Appends that something is accepted and not published, if it is.
fn say_pending(out: &mut String, is_accepted: bool) -> Result<(), AllocError> {
    if is_accepted {
        write!(out, "; one is pending, and calls see it after a publish")?;
    }
    Ok(())
}

fn say_no_csi(
    out: &mut String,
    call: &CallEvent,
    accepted: Option<CsisPresent>,
) -> Result<(), AllocError> {
    let csi = CsiName::of_call(call.dp());
    let imsi = call.imsi();
    write!(
        out,
        "no {} of {} is published",
        csi.name(),
        ShownImsi(&imsi)
    )?;
    say_pending(out, accepted.is_some_and(|csis| csi.is_in(csis)))
}

fn say_not_armed(out: &mut String, subscriber: &Subscriber, dp: u8) -> Result<(), AllocError> {
    match CsiName::of_call(dp) {
        CsiName::O => say_rows(out, subscriber.o(), dp),
        CsiName::Vt => say_rows(out, subscriber.vt(), dp),
    }
}

/// Appends that a CSI has no row of a detection point, and the detection points of those that it has.
fn say_rows<K: Copy, const MOST: usize>(
    out: &mut String,
    csi: Option<&Csi<K, MOST>>,
    dp: u8,
) -> Result<(), AllocError> {
    let name = CsiName::of_call(dp).name();
    let rows = match csi {
        Some(csi) => csi.as_slice(),
        None => &[],
    };
    if rows.is_empty() {
        return write!(
            out,
            "the {name} has no rows: items of detection points of other CSIs are ignored"
        );
    }
    write!(out, "the {name} has no row of DP {dp}, only of DP ")?;
    for (at, row) in rows.iter().enumerate() {
        let between = match at {
            0 => "",
            _ if at + 1 == rows.len() => " and ",
            _ => ", ",
        };
        write!(out, "{between}{}", row.dp())?;
    }
    Ok(())
}
