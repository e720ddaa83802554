//! O-CSI and T-CSI, and their TDP rows.

ghost use Rattle.std.specs.Prelude.{◌≡◌, ◌≤◌, length};
ghost use Rattle.camel_ber.specs.Elements.{view, views};
ghost use Rattle.camel_map.specs.Reading.{IsMemory, LendsElement};
ghost use Rattle.camel_reading.specs.Reading.{ReadsAs};
ghost use Rattle.camel_map.specs.Csi.{csi_in, first_of};
ghost use Rattle.camel_rows.specs.TdpRow.{kept_of};

use crate::encoding::element::{put_leaf, put_number_leaf};
use crate::encoding::value::handling_number;
use crate::encoding::writer::{TooLong, Writer};
use crate::field::{find_field, identified, mandatory, read_present};
use crate::item::{MapItem, read_item};
use crate::items::{ReceivedList, read_items};
use crate::reading::{or_refused_at, read_elements};
use crate::tag::{
    CAMEL_CAPABILITY_HANDLING, DEFAULT_CALL_HANDLING, ENUMERATED, GSM_SCF_ADDRESS, INTEGER,
    SEQUENCE,
};
use crate::value::{read_detection_point, read_isdn_address, read_unsigned};
use crate::{MapFault, MapFaultKind};
use camel_ber::Element;
use camel_criteria::Handling;
use camel_rows::{Csi, CsiKind, TdpRow};
use std::alloc::{AllocError, Global};

/// A CSI that came.
#[derive(Drop)]
pub(crate) struct ReceivedCsi<C> {
    /// Its rows.
    pub rows: ReceivedList<C>,
    /// Its camelCapabilityHandling, if it is there.
    pub capability: Option<u32>,
}

/// A CSI and its criteria, each if it came.
#[derive(Drop)]
pub(crate) struct ReceivedLists<C, L> {
    /// The CSI.
    pub csi: Option<ReceivedCsi<C>>,
    /// Its criteria.
    pub criteria: Option<ReceivedList<L>>,
}

impl MapItem for TdpRow {
    ghost use Rattle.camel_map.specs.Encoding.{row_fields};
    ghost use Rattle.camel_map.specs.Csi.{row_of_fields};

    ghost of_fields = { row_of_fields };

    ghost fields_of = { row_fields };

    #[tactic(auto, unfolding(crate::specs::Csi::row_of_fields))]
    fn read_fields(
        _alloc: Global,
        item: &Element<'_>,
        fields: &[Element<'_>],
    ) -> Result<TdpRow, MapFault> {
        let dp = read_detection_point(&mandatory(item, ENUMERATED, fields)?)?;
        let key = read_unsigned(&mandatory(item, INTEGER, fields)?)?;
        let scf = read_isdn_address(&mandatory(item, GSM_SCF_ADDRESS, fields)?)?;
        let received = read_unsigned(&mandatory(item, DEFAULT_CALL_HANDLING, fields)?)?;
        let handling = Handling::of_received(received);
        or_refused_at(item.place, TdpRow::new(dp, key, scf, handling))
    }

    fn copy(&self) -> Result<TdpRow, AllocError> {
        Ok(*self)
    }

    fn put_fields(&self, writer: &mut Writer) -> Result<(), TooLong> {
        put_leaf(
            writer,
            DEFAULT_CALL_HANDLING,
            &[handling_number(self.handling())],
        )?;
        put_leaf(writer, GSM_SCF_ADDRESS, self.scf().bytes())?;
        put_number_leaf(writer, INTEGER, self.key())?;
        put_number_leaf(writer, ENUMERATED, u32::from(self.dp()))
    }
}

/// The first element of the contents of another.
pub(crate) fn first_of<'a>(
    element: &Element<'_>,
    elements: &[Element<'a>],
) -> Result<Element<'a>, MapFault>
    ensures { LendsElement result (first_of (view element.now) (views elements.now)) }
{
    match elements {
        [first, ..] => Ok(*first),
        [] => Err(MapFault::at(element.place, MapFaultKind::MissingField)),
    }
}

/// A CSI.
#[tactic(auto, unfolding(crate::specs::Csi::csi_in, crate::specs::Reading::received_as))]
pub(crate) fn read_csi<K: CsiKind, const MOST: usize>(
    alloc: Global,
    csi: &Element<'_>,
) -> Result<ReceivedCsi<Csi<K, MOST>>, MapFault>
    requires few { MOST ≤ 3 }
    requires points { length K.Entry.points ≡ MOST }
    ensures { ReadsAs IsMemory result (csi_in (kept_of K.Entry.points (λ row. row.dp)) (view csi.now)) }
{
    let fields = read_elements(alloc, csi.content)?;
    let list = identified(first_of(csi, &fields)?, SEQUENCE)?;
    let rows = read_items(alloc, &list, |item| read_item::<TdpRow>(alloc, item))?;
    let rows = ReceivedList {
        kept: or_refused_at(list.place, Csi::of_received(&rows))?,
        count: rows.len(),
    };
    Ok(ReceivedCsi {
        rows,
        capability: read_present(
            find_field(&fields, CAMEL_CAPABILITY_HANDLING)?,
            read_unsigned,
        )?,
    })
}
