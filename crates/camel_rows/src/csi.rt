//! What the HLR sends: TDP rows, CSIs and the entries of their criteria.

ghost use Rattle.std.specs.Prelude.{◌≡◌, ◌<◌, ◌≤◌, ◌++◌, ◌↔◌, ◌==◌, [], ◌∷◌, IsTrue, length, slice_get};
ghost use Rattle.std.specs.List.{position_or_len};
ghost use Rattle.std.specs.Option.{option_copied};
ghost use Rattle.camel_rows.specs.TdpRow.{kept_of, o_csi_of, vt_csi_of};
ghost use Rattle.camel_rows.specs.Subscriber.{item_among};

pub(crate) mod criteria_set;
pub(crate) mod entries;
pub(crate) mod kind;
pub(crate) mod received;
pub(crate) mod tdp_row;

use crate::csi::received::{check_list, has_no_two};
use crate::{CsiKind, Originating, TdpRow, VmscTerminating};
use camel_criteria::{CriteriaEntry, Refusal, is_among};
use std::fmt;
use std::marker::{Model, PhantomData};
use std::mem::size_of;

/// The TDP rows of a CSI of the kind `K` (TS 23.078), in the order received, without the ignored ones. `MOST` is the
/// number of the detection points that are tested against it.
///
/// Contracts see it as the list of its rows. It may hold none. It takes no memory.
#[derive(Clone, Copy)]
pub struct Csi<K, const MOST: usize> {
    // The rows, and fillers from `len` on, so that equal lists have equal fields.
    room: [TdpRow; MOST],
    len: u8,
    kind: PhantomData<K>,
}

const _: () = prove!(size_of::<OCsi>() == 36);

/// The O-CSI, whose rows are of detection points 2 and 4.
pub type OCsi = Csi<Originating, 2>;

/// The VT-CSI, whose rows are of detection points 12, 13 and 14.
pub type VtCsi = Csi<VmscTerminating, 3>;

impl<K, const MOST: usize> Model for Csi<K, MOST> {
    ghost use Rattle.std.specs.Prelude.{List, length, take};
    ghost use Rattle.std.proofs.Common.{sym};
    ghost use Rattle.camel_rows.specs.TdpRow.{IsKept, room_with, TdpRowData};

    ghost Value = { List TdpRowData };

    ghost view = { λ a. take a.len a.room };

    ghost invariant = { λ a. IsKept MOST a.room a.len };

    ghost inverse = { λ rows. record { room = room_with MOST rows; len = length rows; kind = record {} } };

    ghost inverse_ok = { λ a h i. record { room = sym h.fill i; len = sym h.counted i; kind = record {} } };
}

impl OCsi {
    /// Takes the received rows, and keeps those of detection points 2 and 4 in their order. The others are
    /// ignored; a list of which all rows are ignored leaves a CSI without rows.
    ///
    /// Fails with `DataMissing` (35) for no rows, and with `UnexpectedDataValue` (36) for more than 10, or for two of
    /// detection point 2 or two of 4.
    pub fn new(received: &[TdpRow]) -> Result<OCsi, Refusal>
        ensures { result ≡ o_csi_of received.now }
    {
        Csi::of_received(received)
    }
}

impl VtCsi {
    /// Takes the received rows, and keeps those of detection points 12, 13 and 14 in their order. The others are
    /// ignored; a list of which all rows are ignored leaves a CSI without rows.
    ///
    /// Fails with `DataMissing` (35) for no rows, and with `UnexpectedDataValue` (36) for more than 10, or for two of
    /// one of these detection points.
    pub fn new(received: &[TdpRow]) -> Result<VtCsi, Refusal>
        ensures { result ≡ vt_csi_of received.now }
    {
        Csi::of_received(received)
    }
}

impl<K: CsiKind, const MOST: usize> Csi<K, MOST> {
    /// Takes the received rows of any kind of CSI, and keeps those of its detection points, as [`OCsi::new`] and
    /// [`VtCsi::new`] do.
    ///
    /// Fails with `DataMissing` (35) for no rows, and with `UnexpectedDataValue` (36) for more than 10, or for two of
    /// one of its detection points.
    pub fn of_received(received: &[TdpRow]) -> Result<Csi<K, MOST>, Refusal>
        requires few { MOST ≤ 3 }
        requires points { length K.Entry.points ≡ MOST }
        ensures { result ≡ kept_of K.Entry.points (λ row. row.dp) received.now }
    {
        let points = K::Entry::detection_points();
        check_list(received.len(), has_no_two(received, points))?;
        let mut csi = Csi::without_rows();
        for row in received {
            if is_among(points, row.dp()) {
                csi.push(*row);
            }
        }
        Ok(csi)
    }
}

impl<K: Copy, const MOST: usize> Csi<K, MOST> {
    fn without_rows() -> Csi<K, MOST>
        requires { MOST ≤ 3 }
        ensures { result ≡ [] }
    {
        Csi {
            room: [TdpRow::filler(); MOST],
            len: 0,
            kind: PhantomData,
        }
    }

    fn push(&mut self, row: TdpRow)
        requires { length self.old < MOST }
        ensures { self.new ≡ self.old ++ row ∷ [] }
    {
        self.room[usize::from(self.len)] = row;
        self.len += 1;
    }

    /// Its rows.
    pub fn as_slice(&self) -> &[TdpRow]
        ensures rows { result.now ≡ self.now }
        ensures few { length self.now ≤ MOST }
    {
        &self.room[..usize::from(self.len)]
    }

    /// Whether it holds no row.
    pub fn is_empty(&self) -> bool
        ensures { IsTrue result ↔ (self.now ≡ []) }
    {
        self.len() == 0
    }

    /// How many rows it holds, 0 to `MOST`.
    pub fn len(&self) -> usize
        ensures len { result ≡ length self.now }
        ensures range { result ≤ MOST }
    {
        self.as_slice().len()
    }

    /// The row at a place, from 0; None from `len` on.
    pub fn get(&self, at: usize) -> Option<&TdpRow>
        ensures { option_copied result ≡ slice_get self.now at }
    {
        self.as_slice().get(at)
    }

    /// The row of a detection point, if it is armed.
    pub fn row(&self, dp: u8) -> Option<&TdpRow>
        ensures { option_copied result ≡ item_among (λ row. row.dp) dp self.now }
    {
        self.get(place_of(&self.room, dp))
    }
}

/// The place of the first row of a detection point, or how many places there are. Each place is looked at, from the
/// last one on, so that no branch depends on where the row lies, which cannot be foreseen.
fn place_of(rows: &[TdpRow], dp: u8) -> usize
    ensures { result ≡ position_or_len (λ row. row.dp == dp) rows.now }
{
    let mut place: usize = 0;
    let mut at = rows.len();
    while at > 0 {
        at -= 1;
        place = if rows[at].dp() == dp { 0 } else { place + 1 };
    }
    place
}

impl<K: Copy, const MOST: usize> fmt::Debug for Csi<K, MOST> {
    fn fmt<W: fmt::Write>(&self, f: &mut fmt::Formatter<W>) -> fmt::Result {
        f.debug_list().entries(self.as_slice()).finish()
    }
}
