//! The numbers, codes and octets of a record.

use crate::line::append_address;
use crate::{append_decimal, append_text};
use camel_criteria::{BasicService, MatchType, NumberCriterion};
use std::alloc::AllocError;

/// What stands between the elements of a list.
const SEPARATOR: &str = "+";

/// Appends a destination number criterion: its match type, its numbers and its lengths.
pub(crate) fn append_number(
    out: &mut Vec<u8>,
    criterion: &NumberCriterion,
) -> Result<(), AllocError> {
    let match_type = match criterion.match_type() {
        MatchType::Enabling => "e/",
        MatchType::Inhibiting => "i/",
    };
    append_text(out, match_type)?;
    for (at, number) in criterion.numbers().iter().enumerate() {
        append_separator(out, at)?;
        append_address(out, number)?;
    }
    append_text(out, "/")?;
    append_decimals(out, criterion.lengths())
}

/// Appends the codes of basic services.
pub(crate) fn append_services(
    out: &mut Vec<u8>,
    services: &[BasicService],
) -> Result<(), AllocError> {
    for (at, service) in services.iter().enumerate() {
        append_separator(out, at)?;
        let (letter, octet) = match *service {
            BasicService::Tele(octet) => ("t", octet),
            BasicService::Bearer(octet) => ("b", octet),
        };
        append_text(out, letter)?;
        append_octet(out, octet)?;
    }
    Ok(())
}

/// Appends a list of numbers in decimal digits.
pub(crate) fn append_decimals(out: &mut Vec<u8>, numbers: &[u8]) -> Result<(), AllocError> {
    for (at, number) in numbers.iter().enumerate() {
        append_separator(out, at)?;
        append_decimal(out, u64::from(*number))?;
    }
    Ok(())
}

/// Appends what stands before the element of a list at a place, from 0.
fn append_separator(out: &mut Vec<u8>, at: usize) -> Result<(), AllocError> {
    if at == 0 {
        return Ok(());
    }
    append_text(out, SEPARATOR)
}

/// Appends an octet in two lower-case hexadecimal digits.
fn append_octet(out: &mut Vec<u8>, octet: u8) -> Result<(), AllocError> {
    let octets = [octet];
    let mut digits = [0; 2];
    match hex::encode_to_slice(octets.as_slice(), &mut digits) {
        Ok(()) => out.extend_from_slice(&digits),
        Err(_) => unreachable!(),
    }
}
