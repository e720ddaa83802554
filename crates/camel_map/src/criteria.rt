//! The lists of criteria, and what their entries have.

ghost use Rattle.std.specs.Prelude.{Result};
ghost use Rattle.std.specs.Fn.{FnReturnsAt};
ghost use Rattle.std.specs.Option.{option_map};
ghost use Rattle.camel_ber.specs.Elements.{PlacedData, view};
ghost use Rattle.camel_map.specs.Csi.{number_criterion_in};
ghost use Rattle.camel_map.specs.Reading.{if_listed, item_in, items_as, received_as, IsMemory};
ghost use Rattle.camel_reading.specs.Reading.{AnswersAs, ReadsAs, ReadsList};
ghost use Rattle.camel_map.specs.declared.map_fault.MapFault.{MapFault};
ghost use Rattle.camel_rows.specs.TdpRow.{kept_of};

use crate::field::{find_field, mandatory};
use crate::item::{MapItem, read_item};
use crate::items::{ReceivedList, read_items};
use crate::map_fault::MapFault;
use crate::reading::{or_refused_at, read_elements};
use crate::tag::{DESTINATION_NUMBER_LENGTH_LIST, DESTINATION_NUMBER_LIST, MATCH_TYPE};
use crate::value::{read_length, read_match_type, read_number};
use camel_ber::Element;
use camel_criteria::{CriteriaEntry, NumberCriterion};
use camel_rows::CriteriaSet;
use std::alloc::Global;

/// A list that a field is, or no items if the field is absent.
pub(crate) fn read_listed<T: Drop, F: Fn(&Element<'_>) -> Result<T, MapFault>>(
    alloc: Global,
    field: Option<Element<'_>>,
    read: F,
) -> Result<Vec<T>, MapFault>
    requires { F.IsAlwaysCallable read }
    ensures { (value_of : PlacedData → Result T MapFault)
        → AnswersAs IsMemory (FnReturnsAt F.Fn read) (λ item. value_of (view item))
        → ReadsList IsMemory result (if_listed (items_as value_of) (option_map view field.entry)) }
{
    match field {
        Some(list) => read_items(alloc, &list, read),
        None => Ok(Vec::new(alloc)),
    }
}

/// DestinationNumberCriteria.
#[tactic(auto, unfolding(crate::specs::Csi::number_criterion_in))]
pub(crate) fn read_number_criterion(
    alloc: Global,
    criterion: &Element<'_>,
) -> Result<NumberCriterion, MapFault>
    ensures { ReadsAs IsMemory result (number_criterion_in (view criterion.now)) }
{
    let fields = read_elements(alloc, criterion.content)?;
    let match_type = read_match_type(&mandatory(criterion, MATCH_TYPE, &fields)?)?;
    let numbers = read_listed(
        alloc,
        find_field(&fields, DESTINATION_NUMBER_LIST)?,
        read_number,
    )?;
    let lengths = read_listed(
        alloc,
        find_field(&fields, DESTINATION_NUMBER_LENGTH_LIST)?,
        read_length,
    )?;
    let made = NumberCriterion::new(alloc, match_type, &numbers, &lengths);
    or_refused_at(criterion.place, made)
}

/// The criteria of a CSI.
#[tactic(auto, unfolding(crate::specs::Reading::received_as))]
pub(crate) fn read_criteria<E: CriteriaEntry + MapItem>(
    alloc: Global,
    list: &Element<'_>,
) -> Result<ReceivedList<CriteriaSet<E>>, MapFault>
    ensures { ReadsAs IsMemory result (received_as (item_in E.of_fields) (kept_of E.points E.dp_of) (view list.now)) }
{
    let entries = read_items(alloc, list, |item| read_item::<E>(alloc, item))?;
    let count = entries.len();
    let kept = or_refused_at(list.place, CriteriaSet::new(entries))?;
    Ok(ReceivedList { kept, count })
}
