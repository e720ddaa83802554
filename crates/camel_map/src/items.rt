//! The items of a SEQUENCE OF.

ghost use Rattle.std.specs.Prelude.{Result};
ghost use Rattle.std.specs.Fn.{FnReturnsAt};
ghost use Rattle.camel_ber.specs.Elements.{PlacedData, view, views};
ghost use Rattle.camel_map.specs.Reading.{items_as, IsMemory};
ghost use Rattle.camel_reading.specs.Reading.{AnswersAs, ReadsList, each_of};
ghost use Rattle.camel_map.specs.declared.map_fault.MapFault.{MapFault};

use crate::reading::read_elements;
use crate::{MapFault, MapFaultKind};
use camel_ber::Element;
use camel_criteria::Refusal;
use camel_reading::read_each;
use std::alloc::Global;

/// A list that came.
#[derive(Drop)]
pub(crate) struct ReceivedList<L> {
    /// The items that are kept of those that are received.
    pub kept: L,
    /// How many items are received.
    pub count: usize,
}

/// What `read` returns for each item of a list, in their order, or the first fault. A list without items is refused.
#[tactic(auto, unfolding(crate::specs::Reading::items_as))]
pub(crate) fn read_items<T: Drop, F: Fn(&Element<'_>) -> Result<T, MapFault>>(
    alloc: Global,
    list: &Element<'_>,
    read: F,
) -> Result<Vec<T>, MapFault>
    requires { F.IsAlwaysCallable read }
    ensures { (value_of : PlacedData → Result T MapFault)
        → AnswersAs IsMemory (FnReturnsAt F.Fn read) (λ item. value_of (view item))
        → ReadsList IsMemory result (items_as value_of (view list.now)) }
{
    let items = read_elements(alloc, list.content)?;
    if items.is_empty() {
        return Err(MapFault::at(list.place, MapFaultKind::Refused(Refusal::DataMissing)));
    }
    read_all(alloc, &items, read)
}

/// What `read` returns for each element, in their order, or the first fault. It takes one block of memory.
fn read_all<T: Drop, F: Fn(&Element<'_>) -> Result<T, MapFault>>(
    alloc: Global,
    items: &[Element<'_>],
    read: F,
) -> Result<Vec<T>, MapFault>
    requires { F.IsAlwaysCallable read }
    ensures { (value_of : PlacedData → Result T MapFault)
        → AnswersAs IsMemory (FnReturnsAt F.Fn read) (λ item. value_of (view item))
        → ReadsList IsMemory result (each_of value_of (views items.now)) }
{
    read_each(alloc, items, read)
}
