//! What is wrong with data that are refused, whose texts can be read.

use crate::mistakes::decimal;
use crate::shown::Shown;
use camel_criteria::{
    MAX_BASIC_SERVICES, MAX_CAUSE, MAX_CAUSES, MAX_LENGTHS, MAX_NUMBERS, Refusal,
};
use camel_rows::{MAX_SERVICE_KEY, MAX_TDP_DATA};
use camel_script::{Expected, Mistake};
use camel_tbcd::{MAX_ADDRESS_LENGTH, MAX_ISDN_ADDRESS_LENGTH};
use csv::ByteRecord;
use std::alloc::AllocError;

/// The greatest listed length, in digits.
const MAX_LENGTH: u32 = 15;

/// Appends why the data of a text are refused.
pub(crate) fn say_refused(
    out: &mut String,
    fields: &ByteRecord,
    mistake: &Mistake,
    refusal: Refusal,
    text: &[u8],
) -> Result<(), AllocError> {
    match mistake.expected {
        Expected::ServiceKey => write!(out, "over {MAX_SERVICE_KEY}"),
        Expected::GsmScfAddress => say_octets(out, text, MAX_ISDN_ADDRESS_LENGTH),
        Expected::Destination => say_octets(out, text, MAX_ADDRESS_LENGTH),
        Expected::Cause => say_cause(out, text),
        Expected::NumberCriterion if refusal == Refusal::DataMissing => {
            write!(out, "it has neither a listed number nor a length")
        }
        Expected::NumberCriterion => say_number(out, text),
        Expected::BasicServices => say_most(out, count_of(text), "codes", MAX_BASIC_SERVICES),
        Expected::Causes => say_causes(out, fields, mistake, text),
        Expected::ItemName => write!(
            out,
            "{MAX_TDP_DATA} items {} come before it, and {MAX_TDP_DATA} are the most",
            Shown(text)
        ),
        Expected::DetectionPoint => write!(out, "an item of the same name and DP comes before it"),
        _ => write!(out, "it is refused"),
    }
}

/// How many elements a list has.
fn count_of(text: &[u8]) -> usize {
    if text.is_empty() {
        return 0;
    }
    text.split(|octet| *octet == b'+').count()
}

fn say_most(out: &mut String, count: usize, name: &str, most: usize) -> Result<(), AllocError> {
    write!(out, "{count} {name}, and {most} are the most")
}

/// Appends that an address has no octets, or too many.
fn say_octets(out: &mut String, text: &[u8], most: usize) -> Result<(), AllocError> {
    match text.len() / 2 {
        0 => write!(out, "no octets, and 1 to {most} are needed"),
        count => write!(out, "{count} octets, and {most} are the most"),
    }
}

/// Appends that a cause is over 127, and what it is without bit 8 of its octet.
fn say_cause(out: &mut String, text: &[u8]) -> Result<(), AllocError> {
    write!(out, "over {MAX_CAUSE}")?;
    match decimal(text).unwrap_or(0) % 128 {
        0 => Ok(()),
        value => write!(out, "; without bit 8 of its octet it is {value}"),
    }
}

/// Appends what is wrong with the listed numbers or the lengths of NUMBER, in the order in which they are checked.
fn say_number(out: &mut String, text: &[u8]) -> Result<(), AllocError> {
    let mut parts = text.split(|octet| *octet == b'/').skip(1);
    let numbers = parts.next().unwrap_or(&[]);
    let lengths = parts.next().unwrap_or(&[]);
    let most = MAX_ISDN_ADDRESS_LENGTH * 2;
    for (at, number) in numbers.split(|octet| *octet == b'+').enumerate() {
        if number.len() > most || (number.is_empty() && !numbers.is_empty()) {
            write!(out, "listed number {}: ", at.saturating_add(1))?;
            return say_octets(out, number, MAX_ISDN_ADDRESS_LENGTH);
        }
    }
    if count_of(numbers) > MAX_NUMBERS {
        return say_most(out, count_of(numbers), "listed numbers", MAX_NUMBERS);
    }
    if count_of(lengths) > MAX_LENGTHS {
        return say_most(out, count_of(lengths), "lengths", MAX_LENGTHS);
    }
    for (at, length) in lengths.split(|octet| *octet == b'+').enumerate() {
        match decimal(length) {
            Some(1..=MAX_LENGTH) => {}
            _ => return write!(
                out,
                "length {} is {}, not 1 to {MAX_LENGTH}",
                at.saturating_add(1),
                Shown(length)
            ),
        }
    }
    Ok(())
}

/// Appends what is wrong with the causes of an entry, in the order in which they are checked.
fn say_causes(
    out: &mut String,
    fields: &ByteRecord,
    mistake: &Mistake,
    text: &[u8],
) -> Result<(), AllocError> {
    if count_of(text) > MAX_CAUSES {
        return say_most(out, count_of(text), "causes", MAX_CAUSES);
    }
    for (at, cause) in text.split(|octet| *octet == b'+').enumerate() {
        if decimal(cause).unwrap_or(0) > u32::from(MAX_CAUSE) {
            write!(out, "cause {} is {}: ", at.saturating_add(1), Shown(cause))?;
            return say_cause(out, cause);
        }
    }
    let item = fields.get(mistake.field.saturating_sub(1)).unwrap_or(&[]);
    let dp = item.split(|octet| *octet == b':').nth(1).unwrap_or(&[]);
    let dp = Shown(dp);
    write!(
        out,
        "an entry of DP {dp} has none, since no call is released before it"
    )
}
