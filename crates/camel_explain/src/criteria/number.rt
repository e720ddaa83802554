//! Why a call doesn't meet a destination number criterion.

use crate::shown::{Octets, ShownDigits};
use camel_criteria::{MatchType, NumberCriterion};
use camel_tbcd::{Address, Profile};
use std::alloc::AllocError;

/// Appends why a destination doesn't meet a criterion.
pub(crate) fn say_number(
    out: &mut String,
    criterion: &NumberCriterion,
    destination: &Address,
    profile: Profile,
) -> Result<(), AllocError> {
    match criterion.match_type() {
        MatchType::Enabling => say_not_listed(out, criterion, destination, profile),
        MatchType::Inhibiting => say_listed(out, criterion, destination, profile),
    }
}

/// Appends that a destination is not listed.
fn say_not_listed(
    out: &mut String,
    criterion: &NumberCriterion,
    destination: &Address,
    profile: Profile,
) -> Result<(), AllocError> {
    let numbers = criterion.numbers();
    match numbers {
        [] => {}
        [number] => {
            write!(out, "listed number ")?;
            say_address(out, &number.lend(), profile)?;
            write!(out, " doesn't begin DEST ")?;
            say_address(out, destination, profile)?;
        }
        _ if destination.digits().is_empty() => {
            write!(
                out,
                "none of {} listed numbers begins a DEST of no digits",
                numbers.len()
            )?
        }
        _ => {
            let digits = ShownDigits(*destination);
            write!(
                out,
                "none of {} listed numbers begins {digits}",
                numbers.len()
            )?
        }
    }
    if !criterion.lengths().is_empty() {
        let between = if numbers.is_empty() { "" } else { "; " };
        let length = destination.digits().len();
        write!(out, "{between}length {length} is not listed")?;
    }
    if numbers.len() > 1 {
        say_other_nature(out, criterion, destination, profile)?;
    }
    Ok(())
}

/// Appends which listed number has the first digits of a destination, but another nature or plan, if one has.
fn say_other_nature(
    out: &mut String,
    criterion: &NumberCriterion,
    destination: &Address,
    profile: Profile,
) -> Result<(), AllocError> {
    for (at, number) in criterion.numbers().iter().enumerate() {
        let listed = number.lend();
        if destination.digits().begins_with(&listed.digits()) {
            write!(out, "; listed number {}, ", at.saturating_add(1))?;
            say_address(out, &listed, profile)?;
            write!(out, ", has the digits, but DEST is ")?;
            return say_address(out, destination, profile);
        }
    }
    Ok(())
}

/// Appends what of an inhibiting criterion lists a destination.
fn say_listed(
    out: &mut String,
    criterion: &NumberCriterion,
    destination: &Address,
    profile: Profile,
) -> Result<(), AllocError> {
    for (at, number) in criterion.numbers().iter().enumerate() {
        if number.is_front_of(destination, profile) {
            write!(
                out,
                "NUMBER is inhibiting, and listed number {}, ",
                at.saturating_add(1)
            )?;
            say_address(out, &number.lend(), profile)?;
            write!(out, ", begins DEST ")?;
            return say_address(out, destination, profile);
        }
    }
    let length = destination.digits().len();
    write!(out, "NUMBER is inhibiting, and length {length} is listed")
}

/// Appends the octets of an address, and what of it is compared: its nature, its digits, and its plan under profile 2.
fn say_address(out: &mut String, address: &Address, profile: Profile) -> Result<(), AllocError> {
    let octets = Octets(address.bytes());
    write!(out, "{octets} (nature {}, ", address.nature())?;
    if profile == Profile::Two {
        write!(out, "plan {}, ", address.plan())?;
    }
    write!(out, "digits {})", ShownDigits(*address))
}
