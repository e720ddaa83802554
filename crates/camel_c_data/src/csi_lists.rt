//! What an Insert sends of a CSI.

ghost use Rattle.std.specs.Prelude.{◌≡◌, ◌<◌, ◌≤◌, length, take, IfErr, OnOk};
ghost use Rattle.camel_reading.specs.Reading.{ReadsAs, ReadsInto, ReadsList};
ghost use Rattle.camel_c_data.specs.Fields.{IsMemory};
ghost use Rattle.camel_c_data.specs.Update.{row_in, entries_in, rows_in, few_of};
ghost use Rattle.camel_c_data.specs.declared.data_fault.DataFault.TheVariants.{Refused};
ghost use Rattle.camel_criteria.specs.declared.refusal.Refusal.TheVariants.{UnexpectedDataValue};
ghost use Rattle.camel_rows.specs.TdpRow.{max_tdp_data};

use crate::{CamelCriteria, CamelRow, DataFault, SentEntry};
use camel_criteria::{Handling, Refusal};
use camel_reading::{read_each, read_into};
use camel_rows::{CriteriaSet, Csi, CsiKind, MAX_TDP_DATA, TdpRow};
use camel_tbcd::IsdnAddress;
use std::alloc::Global;

/// What an Insert sends of a CSI (InsertSubscriberData of TS 29.002). A list that is not sent is omitted from the
/// [`Update::Insert`], and is not looked at. One that is sent has 1 to 10 items; none of them needs to be of a
/// detection point of the CSI, so criteria can be replaced by none.
#[repr(C)]
#[derive(Clone, Copy, Debug)]
pub struct CamelCsiLists<'a> {
    pub rows: &'a [CamelRow],
    pub criteria: &'a [CamelCriteria],
    /// Not 0 if the rows are sent.
    pub has_rows: u8,
    /// Not 0 if the criteria are sent.
    pub has_criteria: u8,
}

impl CamelCsiLists<'_> {
    /// The rows of a CSI of this kind, or none if they are not sent: they are not looked at then. It takes no memory.
    ///
    /// Fails with `UnexpectedDataValue` (36) for more than 10 rows, then as the first row that fails to read, and then
    /// as [`Csi::of_received`].
    // As a call of its own: put into its caller, the list would be moved in pieces.
    #[inline(never)]
    #[tactic(auto, unfolding(crate::specs::Update::rows_in))]
    pub(crate) fn read_rows<K: CsiKind, const MOST: usize>(
        &self,
    ) -> Result<Option<Csi<K, MOST>>, DataFault>
        requires few { MOST ≤ 3 }
        requires points { length K.Entry.points ≡ MOST }
        ensures { ReadsAs IsMemory result (rows_in K.Entry.points self.now) }
    {
        if self.has_rows == 0 {
            return Ok(None);
        }
        let mut room = [no_row(); MAX_TDP_DATA];
        read_rows(self.rows, &mut room)?;
        Ok(Some(Csi::of_received(&room[..self.rows.len()])?))
    }

    /// The entries of criteria of this kind, or none if they are not sent: they are not looked at then.
    ///
    /// Fails with `UnexpectedDataValue` (36) for more than 10 entries, then as the first entry that fails to read, then
    /// as [`CriteriaSet::new`], and with `OutOfMemory` (102) if memory is refused. Nothing was made then.
    // As a call of its own: put into its caller, the list would be moved in pieces.
    #[inline(never)]
    #[tactic(auto, unfolding(crate::specs::Update::entries_in))]
    pub(crate) fn read_criteria<E: SentEntry>(
        &self,
        alloc: Global,
    ) -> Result<Option<CriteriaSet<E>>, DataFault>
        ensures { ReadsAs IsMemory result (entries_in E.entry_in E.points E.dp_of self.now) }
    {
        if self.has_criteria == 0 {
            return Ok(None);
        }
        let received = read_entries(alloc, self.criteria)?;
        Ok(Some(CriteriaSet::new(received)?))
    }
}

fn read_entries<E: SentEntry>(alloc: Global, entries: &[CamelCriteria]) -> Result<Vec<E>, DataFault>
    ensures { ReadsList IsMemory result (few_of E.entry_in entries.now) }
{
    check_count(entries.len())?;
    read_each(alloc, entries, |entry| E::read(entry, alloc))
}

// Reads rows into the first places of a room for as many as are sent.
fn read_rows(rows: &[CamelRow], room: &mut [TdpRow]) -> Result<(), DataFault>
    requires { length room.old ≡ MAX_TDP_DATA }
    ensures len { length room.new ≡ MAX_TDP_DATA }
    ensures few { OnOk result (length rows.now ≤ MAX_TDP_DATA) }
    ensures rows { ReadsInto IsMemory result (take (length rows.now) room.new) (few_of row_in rows.now) }
{
    check_count(rows.len())?;
    read_into(rows, |row| row.read(), room)
}

// What stands in a place for a row until one is read into it.
fn no_row() -> TdpRow {
    let no_address = IsdnAddress::from_bytes(&[0]).unwrap();
    TdpRow::new(0, 0, no_address, Handling::Continue).unwrap()
}

/// Fails with `UnexpectedDataValue` (36) for more items than a list is sent with. Nothing is read of such a list.
fn check_count(count: usize) -> Result<(), DataFault>
    ensures few { OnOk result (count ≤ max_tdp_data) }
    ensures many { IfErr result (λ fault. (max_tdp_data < count) × (fault ≡ Refused UnexpectedDataValue)) }
{
    if count > MAX_TDP_DATA {
        return Err(DataFault::Refused(Refusal::UnexpectedDataValue));
    }
    Ok(())
}
