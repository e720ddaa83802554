//! What tests compare of rows and entries that are borrowed.

use crate::updates::SCF;
use camel_criteria::{BasicService, Handling, NumberCriterion};
use camel_rows::{Lent, Records, TdpRow};
use camel_tbcd::Imsi;

/// A row: its detection point and service key, whether its gsmSCF address is `SCF`, and its default call handling.
pub type RowSummary = (u8, u32, bool, Handling);

/// How many numbers a criterion lists, and the first four digits of the first one.
pub type ListedNumbers = (usize, [Option<u8>; 4]);

/// An entry of criteria: its detection point, the octet of its first code, and for the O-CSI the numbers that it lists.
#[derive(Clone, Copy, Debug, PartialEq, Eq)]
pub enum EntrySummary {
    /// An entry of the criteria of the O-CSI.
    O(u8, Option<u8>, Option<ListedNumbers>),
    /// An entry of the criteria of the VT-CSI.
    T(u8, Option<u8>),
}

/// The row and the entry of one detection point.
pub type StoredSummary = (Option<RowSummary>, Option<EntrySummary>);

/// The row of `one_row`.
pub const ARMED: RowSummary = (2, 100, true, Handling::Continue);

/// The entry of `one_entry`.
pub const LISTED: EntrySummary = EntrySummary::O(
    2,
    None,
    Some((1, [Some(1), Some(2), Some(3), None])),
);

/// What is compared of a row.
pub fn row_summary(row: Option<&TdpRow>) -> Option<RowSummary> {
    let row = row?;
    let is_scf = row.scf().bytes() == SCF.as_slice();
    Some((row.dp(), row.key(), is_scf, row.handling()))
}

/// What is compared of an entry.
pub fn entry_summary(entry: Option<Lent>) -> Option<EntrySummary> {
    Some(match entry? {
        Lent::O(entry) => {
            let numbers = listed_numbers(entry.number());
            EntrySummary::O(entry.dp(), first_octet(entry.basic()), numbers)
        }
        Lent::T(entry) => EntrySummary::T(entry.dp(), first_octet(entry.basic())),
    })
}

/// The octet of the first code.
fn first_octet(codes: &[BasicService]) -> Option<u8> {
    match codes.first()? {
        BasicService::Tele(octet) | BasicService::Bearer(octet) => Some(*octet),
    }
}

/// What is compared of the numbers of a criterion; None if it lists none.
fn listed_numbers(criterion: Option<&NumberCriterion>) -> Option<ListedNumbers> {
    let criterion = criterion?;
    let number = criterion.number(0)?;
    let digits = number.digits();
    Some((
        criterion.numbers().len(),
        [digits.get(0), digits.get(1), digits.get(2), digits.get(3)],
    ))
}

/// The row and the entry of a subscriber at a detection point; None if there is no record.
pub fn stored_summary(records: &Records, imsi: &Imsi, dp: u8) -> Option<StoredSummary> {
    let subscriber = records.get(imsi)?;
    Some((
        row_summary(subscriber.row(dp)),
        entry_summary(subscriber.criteria(dp)),
    ))
}
