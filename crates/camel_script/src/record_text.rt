//! Updates as the records that they are read from. They are tested, and not proved: the contracts say only that no call
//! fails but out of memory.

pub(crate) mod lists;

use crate::line::append_address;
use crate::record_text::lists::{append_decimals, append_number, append_services};
use crate::{append_decimal, append_text};
use camel_criteria::{CallType, CriteriaEntry, Handling, OCriteria, TCriteria};
use camel_rows::{CriteriaSet, Csi, TdpRow, Update, Withdrawal};
use camel_tbcd::Imsi;
use std::alloc::AllocError;

/// Appends the record of an update, without the end of its line.
///
/// A list of which each item was ignored gives one item of detection point 255, which is ignored too. A delete that
/// names nothing gives an insert of nothing, which changes as little. Out of memory, a part may be appended.
pub fn append_update(out: &mut Vec<u8>, update: &Update) -> Result<(), AllocError> {
    match update {
        Update::Insert {
            imsi,
            o,
            o_criteria,
            vt,
            t_criteria,
        } => {
            append_imsi(out, "insert,", imsi)?;
            append_csi(out, ",o:", o.as_ref())?;
            append_criteria(out, ",oc:255::::", o_criteria.as_ref(), append_o_entry)?;
            append_csi(out, ",t:", vt.as_ref())?;
            append_criteria(out, ",tc:255::", t_criteria.as_ref(), append_t_entry)?;
        }
        Update::Delete { imsi, what } => append_delete(out, imsi, *what)?,
        Update::Cancel { imsi } => append_imsi(out, "cancel,", imsi)?,
        Update::Register { imsi } => append_imsi(out, "register,", imsi)?,
        Update::ClearAll => append_text(out, "clear")?,
    }
    Ok(())
}

/// Appends a word and an IMSI.
fn append_imsi(out: &mut Vec<u8>, word: &str, imsi: &Imsi) -> Result<(), AllocError> {
    append_text(out, word)?;
    let digits = imsi.digits();
    for digit in digits.as_slice() {
        append_decimal(out, u64::from(*digit))?;
    }
    Ok(())
}

/// Appends a delete of what is named, or an insert of nothing if nothing is.
fn append_delete(out: &mut Vec<u8>, imsi: &Imsi, what: Withdrawal) -> Result<(), AllocError> {
    let names_any = what.o || what.vt || what.everything;
    append_imsi(out, if names_any { "delete," } else { "insert," }, imsi)?;
    if what.o {
        append_text(out, ",o")?;
    }
    if what.vt {
        append_text(out, ",vt")?;
    }
    if what.everything {
        append_text(out, ",all")?;
    }
    Ok(())
}

/// Appends the rows of a CSI, if it is there, each behind this name.
fn append_csi<K: Copy, const MOST: usize>(
    out: &mut Vec<u8>,
    name: &str,
    csi: Option<&Csi<K, MOST>>,
) -> Result<(), AllocError> {
    let Some(csi) = csi else {
        return Ok(());
    };
    if csi.is_empty() {
        append_text(out, name)?;
        append_text(out, "255:0:00:0")?;
    }
    for row in csi.as_slice() {
        append_text(out, name)?;
        append_row(out, row)?;
    }
    Ok(())
}

fn append_row(out: &mut Vec<u8>, row: &TdpRow) -> Result<(), AllocError> {
    append_decimal(out, u64::from(row.dp()))?;
    append_text(out, ":")?;
    append_decimal(out, u64::from(row.key()))?;
    append_text(out, ":")?;
    append_address(out, &row.scf_address())?;
    let handling = match row.handling() {
        Handling::Continue => ":0",
        Handling::Release => ":1",
    };
    append_text(out, handling)
}

/// Appends the entries of a set, if it is there. One of which each entry was ignored gives one that is ignored too.
fn append_criteria<E: CriteriaEntry, F: Fn(&mut Vec<u8>, &E) -> Result<(), AllocError>>(
    out: &mut Vec<u8>,
    ignored: &str,
    set: Option<&CriteriaSet<E>>,
    append: F,
) -> Result<(), AllocError>
    requires { F.IsAlwaysCallable append }
{
    let Some(set) = set else {
        return Ok(());
    };
    if set.is_empty() {
        append_text(out, ignored)?;
    }
    for entry in set.as_slice() {
        append(out, entry)?;
    }
    Ok(())
}

fn append_o_entry(out: &mut Vec<u8>, entry: &OCriteria) -> Result<(), AllocError> {
    append_text(out, ",oc:")?;
    append_decimal(out, u64::from(entry.dp()))?;
    append_text(out, ":")?;
    if let Some(number) = entry.number() {
        append_number(out, number)?;
    }
    append_text(out, ":")?;
    append_services(out, entry.basic())?;
    let call_type = match entry.call_type() {
        Some(CallType::Forwarded) => ":f:",
        Some(CallType::NotForwarded) => ":n:",
        None => "::",
    };
    append_text(out, call_type)?;
    append_decimals(out, entry.causes())
}

fn append_t_entry(out: &mut Vec<u8>, entry: &TCriteria) -> Result<(), AllocError> {
    append_text(out, ",tc:")?;
    append_decimal(out, u64::from(entry.dp()))?;
    append_text(out, ":")?;
    append_services(out, entry.basic())?;
    append_text(out, ":")?;
    append_decimals(out, entry.causes())
}
