//! What an argument brings: the update that it says, and what else a switch needs of it.

ghost use Rattle.std.specs.Prelude.{◌≡◌};
ghost use Rattle.camel_map.specs.Arrival.{bare, capability_in, count_of, insert_of, insert_with, kept_in, rows_in};

use crate::items::ReceivedList;
use crate::row::{ReceivedCsi, ReceivedLists};
use camel_rows::{OCriteriaSet, OCsi, TCriteriaSet, Update, VtCsi};
use camel_tbcd::Imsi;

/// What an argument brings. Of an Insert, a list that came is there in the update, and one that did not come is None.
#[derive(Debug, Drop)]
pub struct Arrival {
    /// The update that it says.
    pub update: Update,
    /// How many items came in each list of an Insert.
    pub counts: ItemCounts,
    /// The camelCapabilityHandling of each CSI of an Insert.
    pub capabilities: CapabilityHandling,
}

/// How many items came in each list of an Insert, those that are ignored among them: 1 to 10, or 0 if it did not come.
#[derive(Clone, Copy, Debug, Default, PartialEq, Eq)]
pub struct ItemCounts {
    /// The rows of the O-CSI.
    pub o: usize,
    /// The criteria of the O-CSI.
    pub o_criteria: usize,
    /// The rows of the VT-CSI.
    pub vt: usize,
    /// The criteria of the VT-CSI.
    pub t_criteria: usize,
}

/// The camelCapabilityHandling of each CSI as it came, by which a switch chooses the version of CAP: the phase of
/// CAMEL, 1 to 16 by TS 29.002, or None if the field is absent. Nothing here decides by it.
#[derive(Clone, Copy, Debug, Default, PartialEq, Eq)]
pub struct CapabilityHandling {
    /// Of the O-CSI.
    pub o: Option<u32>,
    /// Of the VT-CSI.
    pub vt: Option<u32>,
}

impl Arrival {
    /// An update, and nothing beside it.
    pub(crate) fn bare(update: Update) -> Arrival
        ensures { result ≡ bare update }
    {
        Arrival {
            update,
            counts: ItemCounts {
                o: 0,
                o_criteria: 0,
                vt: 0,
                t_criteria: 0,
            },
            capabilities: CapabilityHandling { o: None, vt: None },
        }
    }

    /// The Insert of lists, each if it came.
    pub(crate) fn insert(
        imsi: Imsi,
        o: Option<ReceivedList<OCsi>>,
        o_criteria: Option<ReceivedList<OCriteriaSet>>,
        vt: Option<ReceivedList<VtCsi>>,
        t_criteria: Option<ReceivedList<TCriteriaSet>>,
        capabilities: CapabilityHandling,
    ) -> Arrival
        ensures { result ≡ insert_with imsi o o_criteria vt t_criteria capabilities }
    {
        let counts = ItemCounts {
            o: count_of(&o),
            o_criteria: count_of(&o_criteria),
            vt: count_of(&vt),
            t_criteria: count_of(&t_criteria),
        };
        Arrival {
            update: Update::Insert {
                imsi,
                o: kept_in(o),
                o_criteria: kept_in(o_criteria),
                vt: kept_in(vt),
                t_criteria: kept_in(t_criteria),
            },
            counts,
            capabilities,
        }
    }

    /// The Insert of what came.
    pub(crate) fn insert_of(
        imsi: Imsi,
        o: ReceivedLists<OCsi, OCriteriaSet>,
        vt: ReceivedLists<VtCsi, TCriteriaSet>,
    ) -> Arrival
        ensures { result ≡ insert_of imsi o vt }
    {
        let (o_rows, o_capability) = parts_of(o.csi);
        let (vt_rows, vt_capability) = parts_of(vt.csi);
        let capabilities = CapabilityHandling {
            o: o_capability,
            vt: vt_capability,
        };
        Arrival::insert(imsi, o_rows, o.criteria, vt_rows, vt.criteria, capabilities)
    }
}

/// The rows of a CSI and its camelCapabilityHandling, if it came.
fn parts_of<C>(csi: Option<ReceivedCsi<C>>) -> (Option<ReceivedList<C>>, Option<u32>)
    ensures { result ≡ (rows_in csi, capability_in csi) }
{
    match csi {
        Some(ReceivedCsi { rows, capability }) => (Some(rows), capability),
        None => (None, None),
    }
}

/// How many items came in a list.
fn count_of<L>(list: &Option<ReceivedList<L>>) -> usize
    ensures { result ≡ count_of list.now }
{
    match list {
        Some(list) => list.count,
        None => 0,
    }
}

/// The items that are kept of a list, if it came.
fn kept_in<L>(list: Option<ReceivedList<L>>) -> Option<L>
    ensures { result ≡ kept_in list }
{
    match list {
        Some(ReceivedList { kept, count: _ }) => Some(kept),
        None => None,
    }
}
