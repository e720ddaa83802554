//! Why the store refuses an update whose data can be read.

use crate::csi::{CSIS, CsiName};
use crate::shown::{Shown, ShownImsi};
use camel_script_replay::Store;
use camel_tbcd::Imsi;
use csv::ByteRecord;
use std::alloc::AllocError;

/// Appends why an update was refused, by the number of its refusal. A refused update leaves the store as it was.
pub(crate) fn say_store_refusal(
    out: &mut String,
    store: &Store,
    fields: &ByteRecord,
    code: u16,
) -> Result<(), AllocError> {
    match code {
        5 => {
            let imsi = fields.get(1).unwrap_or(&[]);
            write!(
                out,
                "IMSI {} has no record: no register was accepted, or a cancel or clear came since",
                Shown(imsi)
            )
        }
        35 => say_lacking(out, store, fields),
        101 => write!(
            out,
            "{} updates are accepted already, as many as the limit",
            store.accepted()
        ),
        _ => Ok(()),
    }
}

/// Appends which criteria come without their CSI.
fn say_lacking(out: &mut String, store: &Store, fields: &ByteRecord) -> Result<(), AllocError> {
    let Ok(imsi) = Imsi::from_ascii(fields.get(1).unwrap_or(&[])) else {
        return Ok(());
    };
    let Some(stored) = store.csis(&imsi) else {
        return Ok(());
    };
    for csi in CSIS {
        let lacks = !csi.is_in(stored) && !has_item(fields, csi.row_item());
        if lacks && has_item(fields, csi.entry_item()) {
            return say_lacking_rows(out, csi, &imsi);
        }
    }
    Ok(())
}

/// Appends that criteria of this CSI come without it.
fn say_lacking_rows(out: &mut String, csi: CsiName, imsi: &Imsi) -> Result<(), AllocError> {
    let (name, row, entry) = (csi.name(), csi.row_item(), csi.entry_item());
    let imsi = ShownImsi(imsi);
    write!(
        out,
        "criteria of the {name} (items {entry}), but the record has no item {row}, and no {name} of {imsi} is stored"
    )
}

/// Whether an insert has an item of this name.
fn has_item(fields: &ByteRecord, name: &str) -> bool {
    for at in 2..fields.len() {
        let item = fields.get(at).unwrap_or(&[]);
        if item.split(|octet| *octet == b':').next() == Some(name.as_bytes()) {
            return true;
        }
    }
    false
}
