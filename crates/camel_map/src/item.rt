//! An item of a list of a CSI: a TDP row, or an entry of its criteria.

ghost use Rattle.std.specs.Prelude.{◌≡◌, IfOk, OnOk};
ghost use Rattle.camel_ber.specs.Elements.{view, views};
ghost use Rattle.camel_map.specs.Encoding.{encoding, item_element, before};
ghost use Rattle.camel_map.specs.Reading.{item_in, IsMemory};
ghost use Rattle.camel_reading.specs.Reading.{ReadsAs};

use crate::encoding::element::close;
use crate::encoding::list::Part;
use crate::encoding::writer::{TooLong, Writer};
use crate::field::identified;
use crate::map_fault::MapFault;
use crate::reading::read_elements;
use crate::tag::SEQUENCE;
use camel_ber::Element;
use std::alloc::{AllocError, Global};

/// An item of a list of a CSI, which is a SEQUENCE (TS 29.002).
pub(crate) trait MapItem: Drop + Sized {
    ghost use Rattle.std.specs.Prelude.{List, Result};
    ghost use Rattle.camel_ber.specs.Elements.{ElementData, PlacedData};
    ghost use Rattle.camel_map.specs.declared.map_fault.MapFault.{MapFault};

    /// What an item is by its fields.
    ghost of_fields: { PlacedData → List PlacedData → Result Self MapFault };

    /// The fields that an item is encoded as.
    ghost fields_of: { Self → List ElementData };

    /// The item of its fields.
    fn read_fields(
        alloc: Global,
        item: &Element<'_>,
        fields: &[Element<'_>],
    ) -> Result<Self, MapFault>
        ensures { ReadsAs IsMemory result (of_fields (view item.now) (views fields.now)) };

    /// An equal item.
    fn copy(&self) -> Result<Self, AllocError>
        ensures { IfOk result (λ copied. copied ≡ self.now) };

    /// Writes its fields.
    fn put_fields(&self, writer: &mut Writer) -> Result<(), TooLong>
        ensures { OnOk result (writer.new ≡ before (fields_of self.now) writer.old) };
}

/// An item with its fields.
#[tactic(auto, unfolding(crate::specs::Reading::item_in))]
pub(crate) fn read_item<I: MapItem>(alloc: Global, item: &Element<'_>) -> Result<I, MapFault>
    ensures { ReadsAs IsMemory result (item_in I.of_fields (view item.now)) }
{
    let item = identified(*item, SEQUENCE)?;
    let fields = read_elements(alloc, item.content)?;
    I::read_fields(alloc, &item, &fields)
}

/// How an item is written.
pub(crate) struct Item;

#[tactic(auto, using(crate::proofs::Written::Elements::behind_before))]
impl<I: MapItem> Part<I> for Item {
    ghost element_of = { item_element I.fields_of };

    fn put(writer: &mut Writer, item: &I) -> Result<(), TooLong> {
        let behind = writer.len();
        item.put_fields(writer)?;
        close(writer, SEQUENCE, behind)
    }
}
