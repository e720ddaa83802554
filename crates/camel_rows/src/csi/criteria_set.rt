ghost use Rattle.std.specs.Prelude.{◌≡◌, ◌↔◌, [], IsTrue, length, slice_get};
ghost use Rattle.std.specs.Option.{option_copied};
ghost use Rattle.camel_rows.specs.Entries.{entries_of};
ghost use Rattle.camel_rows.specs.TdpRow.{items_at, kept_of};
ghost use Rattle.camel_rows.specs.Subscriber.{item_among};

use crate::csi::entries::{Entries, find_entry};
use crate::csi::received::{check_list, has_no_two};
use camel_criteria::{CriteriaEntry, OCriteria, Refusal, TCriteria, is_among};
use std::alloc::AllocError;
use std::marker::Model;

/// The criteria entries of a CSI, in the order received, without the ignored ones.
///
/// Contracts see it as the list of its entries. It may hold none.
#[derive(Debug, Drop)]
pub struct CriteriaSet<E> {
    entries: Entries<E>,
}

/// The criteria entries of an O-CSI (O-BcsmCamelTDPCriteriaList of TS 29.002), of detection points 2 and 4.
pub type OCriteriaSet = CriteriaSet<OCriteria>;

/// The criteria entries of a VT-CSI (T-BCSM-CAMEL-TDP-CriteriaList of TS 29.002), of detection points 12, 13 and 14.
pub type TCriteriaSet = CriteriaSet<TCriteria>;

impl<E> Model for CriteriaSet<E> {
    ghost use Rattle.std.specs.Prelude.{List};
    ghost use Rattle.camel_rows.specs.Entries.{entries_of};

    ghost Value = { List E };

    ghost view = { λ a. entries_of a.entries };
}

impl<E: CriteriaEntry> CriteriaSet<E> {
    /// Takes the received entries, and keeps those of the CSI's detection points in their order. The others are
    /// ignored; a list of which all entries are ignored leaves a set without entries. It takes no memory.
    ///
    /// Fails with `DataMissing` (35) for no entries, and with `UnexpectedDataValue` (36) for more than 10, or for two
    /// of one of these detection points. The entries are dropped then.
    pub fn new(received: Vec<E>) -> Result<CriteriaSet<E>, Refusal>
        ensures { result ≡ kept_of E.points E.dp_of received.items }
    {
        let points = E::detection_points();
        check_list(received.len(), has_no_two(&received, points))?;
        Ok(CriteriaSet {
            entries: Entries::of(kept_entries(received, points)),
        })
    }

    /// The set of these entries.
    pub(crate) fn of(entries: Entries<E>) -> CriteriaSet<E>
        ensures { result ≡ entries_of entries }
    {
        CriteriaSet { entries }
    }

    /// Its entries.
    pub(crate) fn into_entries(self) -> Entries<E>
        ensures { entries_of result ≡ self }
    {
        self.entries
    }

    /// Whether it holds no entry.
    pub fn is_empty(&self) -> bool
        ensures { IsTrue result ↔ (self.now ≡ []) }
    {
        self.as_slice().is_empty()
    }

    /// Its entries.
    pub fn as_slice(&self) -> &[E]
        ensures { result.now ≡ self.now }
    {
        self.entries.as_slice()
    }

    /// How many entries it holds.
    pub fn len(&self) -> usize
        ensures { result ≡ length self.now }
    {
        self.as_slice().len()
    }

    /// The entry at a place, from 0; None from `len` on.
    pub fn get(&self, at: usize) -> Option<&E>
        ensures { option_copied result ≡ slice_get self.now at }
    {
        self.as_slice().get(at)
    }

    /// The entry of a detection point, if it has one.
    pub fn entry(&self, dp: u8) -> Option<&E>
        ensures { option_copied result ≡ item_among E.dp_of dp self.now }
    {
        find_entry(self.as_slice(), dp)
    }
}

impl<E: CriteriaEntry> Clone for CriteriaSet<E> {
    ghost use Rattle.std.specs.Prelude.{◌≡◌};

    ghost is_clone = { λ old new. new ≡ old };

    fn clone(&self) -> Result<CriteriaSet<E>, AllocError> {
        Ok(CriteriaSet {
            entries: self.entries.copy()?,
        })
    }
}

/// The entries of these detection points.
fn kept_entries<E: CriteriaEntry>(received: Vec<E>, points: &[u8]) -> Vec<E>
    ensures { result.items ≡ items_at E.dp_of points.now received.items }
{
    let mut entries = received;
    entries.retain(|entry| is_among(points, entry.detection_point()));
    entries
}
