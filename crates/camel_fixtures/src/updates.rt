//! Rows, entries of criteria, and the updates that bring them.

use crate::calls::number_of;
use camel_criteria::{Handling, MatchType, NumberCriterion, OCriteria, Refusal};
use camel_rows::{OCriteriaSet, OCsi, Outcome, TdpRow, Update, Withdrawal};
use camel_tbcd::Imsi;
use std::alloc::Global;

/// The gsmSCF address of each row: the international number 4917610000.
pub const SCF: [u8; 6] = [0x91, 0x94, 0x71, 0x16, 0x00, 0x00];

/// Withdraws the O-CSI only.
pub const O_ALONE: Withdrawal = Withdrawal {
    o: true,
    vt: false,
    everything: false,
};

/// A row of a detection point, with a service key and a default call handling as received.
pub fn row_of(dp: u8, key: u32, handling: u32) -> Result<TdpRow, Refusal> {
    TdpRow::new(dp, key, number_of(&SCF)?, Handling::of_received(handling))
}

/// An O-CSI with one row, of detection point 2 and service key 100.
fn one_row() -> Result<OCsi, Refusal> {
    OCsi::new(&[row_of(2, 100, 0)?])
}

/// The service of the row of `one_row`.
pub fn triggered() -> Result<Outcome, Refusal> {
    Ok(Outcome::Trigger {
        dp: 2,
        key: 100,
        scf: number_of(&SCF)?,
        handling: Handling::Continue,
    })
}

/// Criteria of one entry, of detection point 2, which lists the digits 1 2 3.
fn one_entry(alloc: Global) -> Result<OCriteriaSet, Refusal> {
    let number = number_of(&[0x91, 0x21, 0xf3])?;
    let criterion = NumberCriterion::new(alloc, MatchType::Enabling, &[number], &[])?;
    let entry = OCriteria::new(alloc, 2, Some(criterion), &[], None, &[])?;
    let mut entries = Vec::new(alloc);
    entries.push(entry)?;
    OCriteriaSet::new(entries)
}

/// The Insert of `one_row`.
pub fn row_update(imsi: Imsi) -> Result<Update, Refusal> {
    o_insert(imsi, None)
}

/// The Insert of `one_row` and `one_entry`.
pub fn criteria_update(alloc: Global, imsi: Imsi) -> Result<Update, Refusal> {
    o_insert(imsi, Some(one_entry(alloc)?))
}

fn o_insert(imsi: Imsi, o_criteria: Option<OCriteriaSet>) -> Result<Update, Refusal> {
    Ok(Update::Insert {
        imsi,
        o: Some(one_row()?),
        o_criteria,
        vt: None,
        t_criteria: None,
    })
}
