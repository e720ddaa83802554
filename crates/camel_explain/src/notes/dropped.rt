//! Notes on what an update removes besides what it names.

use crate::csi::{CSIS, CsiName};
use crate::notes::NOTE;
use crate::shown::ShownImsi;
use crate::stored::INDENT;
use camel_rows::{CsisPresent, Update};
use camel_script_replay::Store;
use camel_tbcd::Imsi;
use std::alloc::AllocError;

/// Appends what is stored and dropped by a register, or by an insert that replaces criteria.
pub(crate) fn note_what_is_dropped(
    out: &mut String,
    store: &Store,
    update: &Update,
) -> Result<(), AllocError> {
    match update {
        Update::Register { imsi } => match store.csis(imsi) {
            Some(csis) => note_emptied(out, imsi, csis),
            None => Ok(()),
        },
        Update::Insert { imsi, .. } => {
            let Some(csis) = store.csis(imsi) else {
                return Ok(());
            };
            for csi in CSIS {
                if csi.is_in(csis) {
                    note_entries(out, store, imsi, update, csi)?;
                }
            }
            Ok(())
        }
        _ => Ok(()),
    }
}

/// Appends that a register empties a record, if something is stored in it. Criteria are stored only with their CSI.
fn note_emptied(out: &mut String, imsi: &Imsi, csis: CsisPresent) -> Result<(), AllocError> {
    let mut before = "";
    let mut verb = "is";
    for csi in CSIS {
        if csi.is_in(csis) {
            if before.is_empty() {
                let imsi = ShownImsi(imsi);
                write!(
                    out,
                    "{INDENT}{NOTE}it empties the record of {imsi}, in which "
                )?;
            } else {
                verb = "are";
            }
            write!(out, "{before}{} {}", csi.article(), csi.name())?;
            before = " and ";
        }
    }
    if before.is_empty() {
        return Ok(());
    }
    writeln!(out, " {verb} stored")
}

/// How many pending updates are looked through. Of a script with more of them behind an update there is no note.
const LOOKED_BACK: usize = 1000;

/// Whether an entry of a detection point is stored, by the last pending update that leaves one or none, or else by what
/// is published.
fn has_entry(store: &Store, imsi: &Imsi, csi: CsiName, dp: u8) -> bool {
    let mut left = LOOKED_BACK;
    for update in store.pending().iter().rev() {
        if left == 0 {
            return false;
        }
        left = left.saturating_sub(1);
        if update.imsi().is_none_or(|of| of == *imsi) {
            if let Some(has) = csi.entry_after(update, dp) {
                return has;
            }
        }
    }
    match store.records().get(imsi) {
        Some(subscriber) => subscriber.criteria(dp).is_some(),
        None => false,
    }
}

/// Appends which stored entries of the criteria of a CSI an insert drops: those of which it leaves none.
fn note_entries(
    out: &mut String,
    store: &Store,
    imsi: &Imsi,
    update: &Update,
    csi: CsiName,
) -> Result<(), AllocError> {
    for dp in csi.points() {
        if csi.entry_after(update, *dp) == Some(false) && has_entry(store, imsi, csi, *dp) {
            let item = csi.entry_item();
            writeln!(
                out,
                "{INDENT}{NOTE}no item {item} of DP {dp}: the stored entry of DP {dp} is dropped"
            )?;
        }
    }
    Ok(())
}
