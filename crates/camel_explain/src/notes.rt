//! Notes on an update or a call that is taken and perhaps not meant.

mod dropped;

use crate::csi::CsiName;
use crate::mistakes::{ADDRESS_FORM, is_like_digits};
use crate::notes::dropped::note_what_is_dropped;
use crate::shown::Shown;
use crate::stored::INDENT;
use camel_criteria::is_o_detection_point;
use camel_rows::{CallEvent, Update};
use camel_script::parse_small_decimal;
use camel_script_replay::Store;
use csv::ByteRecord;
use std::alloc::AllocError;

/// The field of the first item of an insert, from 0.
const FIRST_ITEM: usize = 2;

/// The field of the destination of a call, from 0.
const DESTINATION: usize = 4;

/// What begins a note.
const NOTE: &str = "note: ";

/// Appends the notes on an update, a line each, before it is made.
pub(crate) fn say_notes(
    out: &mut String,
    store: &Store,
    fields: &ByteRecord,
    update: &Update,
) -> Result<(), AllocError> {
    if let Update::Insert { .. } = update {
        for at in FIRST_ITEM..fields.len() {
            let number = at.saturating_sub(FIRST_ITEM).saturating_add(1);
            note_item(out, number, fields.get(at).unwrap_or(&[]))?;
        }
    }
    note_what_is_dropped(out, store, update)
}

/// Appends that the destination of a call looks like plain digits, if it does.
pub(crate) fn note_destination(
    out: &mut String,
    fields: &ByteRecord,
    call: &CallEvent,
) -> Result<(), AllocError> {
    let destination = fields.get(DESTINATION).unwrap_or(&[]);
    // Only a call at a detection point of the O-CSI has a destination.
    if !is_o_detection_point(call.dp()) || !is_like_digits(destination) {
        return Ok(());
    }
    write!(out, "{INDENT}{NOTE}DEST {}", Shown(destination))?;
    say_like_digits(out)
}

/// Appends the notes on an item of an insert, whose parts can be read.
fn note_item(out: &mut String, number: usize, item: &[u8]) -> Result<(), AllocError> {
    let mut parts = item.split(|octet| *octet == b':');
    let name = parts.next().unwrap_or(&[]);
    let dp = parts.next().unwrap_or(&[]);
    note_ignored(out, number, name, dp)?;
    match name {
        b"o" | b"t" => note_address(out, number, parts.nth(1).unwrap_or(&[])),
        b"oc" => note_listed_numbers(out, number, parts.next().unwrap_or(&[])),
        _ => Ok(()),
    }
}

/// Appends that an item is ignored, if its detection point is none of its CSI.
fn note_ignored(out: &mut String, number: usize, name: &[u8], dp: &[u8]) -> Result<(), AllocError> {
    let point = parse_small_decimal(dp).unwrap_or(0);
    let csi = CsiName::of_item(name);
    if csi.counts(point) {
        return Ok(());
    }
    let dp = Shown(dp);
    writeln!(
        out,
        "{INDENT}{NOTE}item {number}: DP {dp} is none of the {}, ignored",
        csi.name()
    )
}

/// Appends that a gsmSCF address looks like plain digits, if it does.
fn note_address(out: &mut String, number: usize, address: &[u8]) -> Result<(), AllocError> {
    if !is_like_digits(address) {
        return Ok(());
    }
    write!(out, "{INDENT}{NOTE}item {number}, SCF {}", Shown(address))?;
    say_like_digits(out)
}

/// Appends which numbers of NUMBER look like plain digits.
fn note_listed_numbers(out: &mut String, number: usize, text: &[u8]) -> Result<(), AllocError> {
    let listed = text.split(|octet| *octet == b'/').nth(1).unwrap_or(&[]);
    for (at, address) in listed.split(|octet| *octet == b'+').enumerate() {
        if is_like_digits(address) {
            let place = at.saturating_add(1);
            write!(
                out,
                "{INDENT}{NOTE}item {number}, listed number {place}, {}",
                Shown(address)
            )?;
            say_like_digits(out)?;
        }
    }
    Ok(())
}

fn say_like_digits(out: &mut String) -> Result<(), AllocError> {
    writeln!(out, ": it looks like plain digits; {ADDRESS_FORM}")
}
