//! InsertSubscriberDataArg.

ghost use Rattle.std.specs.Prelude.{◌≡◌, ◌≤◌, length};
ghost use Rattle.std.specs.Option.{option_map};
ghost use Rattle.camel_ber.specs.Elements.{view, views};
ghost use Rattle.camel_map.specs.Reading.{IsMemory, item_in, received_as};
ghost use Rattle.camel_reading.specs.Reading.{ReadsAs, ReadsBy};
ghost use Rattle.camel_map.specs.Update.{camel_fields, insert_in, insert_of_fields};
ghost use Rattle.camel_map.specs.Csi.{lists_of_fields};
ghost use Rattle.camel_rows.specs.TdpRow.{kept_of};

use crate::criteria::read_criteria;
use crate::field::{find_field, identified};
use crate::imsi::read_imsi_or_of_dialogue;
use crate::item::MapItem;
use crate::reading::read_elements;
use crate::row::{ReceivedLists, read_csi};
use crate::tag::{
    IMSI, O_BCSM_CAMEL_TDP_CRITERIA_LIST, O_CSI, SEQUENCE, VLR_CAMEL_SUBSCRIPTION_INFO,
    VT_BCSM_CAMEL_TDP_CRITERIA_LIST, VT_CSI,
};
use crate::{Arrival, MapFault};
use camel_ber::Element;
use camel_criteria::CriteriaEntry;
use camel_rows::{CriteriaSet, Csi, CsiKind};
use camel_tbcd::Imsi;
use std::alloc::Global;

/// The fields of VlrCamelSubscriptionInfo, if it is there.
fn read_camel_fields<'a>(
    alloc: Global,
    field: Option<Element<'a>>,
) -> Result<Vec<Element<'a>>, MapFault>
    ensures { ReadsBy IsMemory (λ elements. views elements.items) result (camel_fields (option_map view field.entry)) }
{
    match field {
        Some(field) => read_elements(alloc, field.content),
        None => Ok(Vec::new(alloc)),
    }
}

/// A CSI and its criteria, which are fields of these identifiers.
#[tactic(auto, unfolding(crate::specs::Csi::lists_of_fields))]
fn read_lists<K: CsiKind, E: CriteriaEntry + MapItem, const MOST: usize>(
    alloc: Global,
    csi: u8,
    criteria: u8,
    fields: &[Element<'_>],
) -> Result<ReceivedLists<Csi<K, MOST>, CriteriaSet<E>>, MapFault>
    requires few { MOST ≤ 3 }
    requires points { length K.Entry.points ≡ MOST }
    ensures { ReadsAs IsMemory result (lists_of_fields csi (kept_of K.Entry.points (λ row. row.dp))
        criteria (received_as (item_in E.of_fields) (kept_of E.points E.dp_of)) (views fields.now)) }
{
    let csi = match find_field(fields, csi)? {
        Some(csi) => Some(read_csi(alloc, &csi)?),
        None => None,
    };
    let criteria = match find_field(fields, criteria)? {
        Some(list) => Some(read_criteria(alloc, &list)?),
        None => None,
    };
    Ok(ReceivedLists { csi, criteria })
}

/// The Insert of an IMSI and of the fields of VlrCamelSubscriptionInfo.
#[tactic(auto, unfolding(crate::specs::Update::insert_of_fields))]
fn read_insert_fields(
    alloc: Global,
    imsi: Imsi,
    fields: &[Element<'_>],
) -> Result<Arrival, MapFault>
    ensures { ReadsAs IsMemory result (insert_of_fields imsi (views fields.now)) }
{
    let o = read_lists(alloc, O_CSI, O_BCSM_CAMEL_TDP_CRITERIA_LIST, fields)?;
    let vt = read_lists(alloc, VT_CSI, VT_BCSM_CAMEL_TDP_CRITERIA_LIST, fields)?;
    Ok(Arrival::insert_of(imsi, o, vt))
}

/// The Insert that an argument brings. Without CAMEL data it is an Insert of nothing.
#[tactic(auto, unfolding(crate::specs::Update::insert_in))]
pub(crate) fn read_insert(
    alloc: Global,
    dialogue_imsi: Option<Imsi>,
    element: &Element<'_>,
) -> Result<Arrival, MapFault>
    ensures { ReadsAs IsMemory result (insert_in dialogue_imsi (view element.now)) }
{
    let argument = identified(*element, SEQUENCE)?;
    let fields = read_elements(alloc, argument.content)?;
    let imsi = read_imsi_or_of_dialogue(&argument, dialogue_imsi, find_field(&fields, IMSI)?)?;
    let camel = read_camel_fields(alloc, find_field(&fields, VLR_CAMEL_SUBSCRIPTION_INFO)?)?;
    read_insert_fields(alloc, imsi, &camel)
}
