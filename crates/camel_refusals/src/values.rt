//! Updates and calls that the stages are set with.

use crate::failure::Failure;
use camel_criteria::{BasicService, CallType, MatchType, NumberCriterion, OCriteria, TCriteria};
use camel_fixtures::{TELEPHONY, imsi_of, number_of, row_of};
use camel_rows::{OCriteriaSet, OCsi, TCriteriaSet, Update, VtCsi};
use camel_tbcd::{Imsi, IsdnAddress};
use std::alloc::Global;

/// The subscribers of a stage, of whom the first has data.
pub(crate) const SUBSCRIBERS: [u64; 7] = [KNOWN, SECOND, STRANGER, 4, 5, 6, 7];

pub(crate) const KNOWN: u64 = 1;

pub(crate) const SECOND: u64 = 2;

pub(crate) const STRANGER: u64 = 3;

/// Ten numbers, as many as a criterion lists.
fn ten_numbers() -> Result<[IsdnAddress; 10], Failure> {
    let mut numbers = [number_of(&[0x91, 0x21, 0xf3])?; 10];
    for (number, octet) in numbers.iter_mut().skip(1).zip(0x40u8..) {
        *number = number_of(&[0x91, octet])?;
    }
    Ok(numbers)
}

/// A criterion that lists ten numbers, of which the first is that of `DESTINATION`.
fn ten_listed(alloc: Global) -> Result<NumberCriterion, Failure> {
    Ok(NumberCriterion::new(alloc, MatchType::Enabling, &ten_numbers()?, &[4])?)
}

/// Entries of detection points 2 and 4, of which each lists ten numbers.
fn o_entries(alloc: Global) -> Result<Vec<OCriteria>, Failure> {
    let mut entries = Vec::new(alloc);
    for dp in [2, 4] {
        entries.push(o_entry(alloc, ten_listed(alloc)?, dp)?)?;
    }
    Ok(entries)
}

/// An entry of a detection point of the O-CSI.
fn o_entry(alloc: Global, number: NumberCriterion, dp: u8) -> Result<OCriteria, Failure> {
    let call_type = Some(CallType::NotForwarded);
    Ok(OCriteria::new(alloc, dp, Some(number), &[TELEPHONY], call_type, &[])?)
}

/// Entries of detection points 12, 13 and 14.
fn t_entries(alloc: Global) -> Result<Vec<TCriteria>, Failure> {
    let mut entries = Vec::new(alloc);
    for dp in [12, 13, 14] {
        entries.push(t_entry(dp)?)?;
    }
    Ok(entries)
}

/// An entry of a detection point of the VT-CSI.
fn t_entry(dp: u8) -> Result<TCriteria, Failure> {
    Ok(TCriteria::new(dp, &[TELEPHONY, BasicService::Bearer(0x11)], &[])?)
}

/// An O-CSI with rows of detection points 2 and 4.
fn o_csi() -> Result<OCsi, Failure> {
    Ok(OCsi::new(&[row_of(2, 100, 0)?, row_of(4, 104, 1)?])?)
}

/// A VT-CSI with a row of detection point 12.
fn vt_csi() -> Result<VtCsi, Failure> {
    Ok(VtCsi::new(&[row_of(12, 112, 0)?])?)
}

/// The Insert of both CSIs with entries for each of their detection points.
pub(crate) fn full_insert(alloc: Global, imsi: Imsi) -> Result<Update, Failure> {
    Ok(Update::Insert {
        imsi,
        o: Some(o_csi()?),
        o_criteria: Some(OCriteriaSet::new(o_entries(alloc)?)?),
        vt: Some(vt_csi()?),
        t_criteria: Some(TCriteriaSet::new(t_entries(alloc)?)?),
    })
}
