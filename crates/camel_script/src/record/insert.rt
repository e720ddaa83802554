ghost use Rattle.std.specs.Prelude.{◌≡◌, drop};
ghost use Rattle.csv.specs.Records.{fields_of};
ghost use Rattle.camel_reading.specs.Reading.{ReadsAs, ReadsInto};
ghost use Rattle.camel_script.specs.Item.{items_of};
ghost use Rattle.camel_script.specs.Fields.{IsMemoryMistake};
ghost use Rattle.camel_script.specs.Record.{insert_of, insert_of_items, list_or_mistake};

use crate::item::Items;
use crate::mistake::field_count;
use crate::record::field::field;
use crate::record::refused_item::refused_item;
use crate::record::{WORD_AND_IMSI, read_imsi};
use crate::{Mistake, Record};
use camel_criteria::{O_DETECTION_POINTS, Refusal, VT_DETECTION_POINTS};
use camel_rows::{Boxed, OCriteriaSet, OCsi, TCriteriaSet, Update, VtCsi};
use camel_tbcd::Imsi;
use csv::ByteRecord;
use std::alloc::Global;

/// Reads an insert with its items, if any.
#[tactic(auto, unfolding(crate::specs::Record::insert_of))]
#[inline(never)]
pub(crate) fn parse_insert(
    alloc: Global,
    fields: &ByteRecord,
    read: &mut Record,
) -> Result<(), Mistake>
    ensures { ReadsInto IsMemoryMistake result read.new (insert_of (fields_of fields.now)) }
{
    if fields.len() < 2 {
        return Err(field_count(&WORD_AND_IMSI, fields.len()));
    }
    let imsi = read_imsi(fields)?;
    make_insert(alloc, fields, imsi, parse_items(alloc, fields)?, read)
}

/// Reads the items of an insert, from its third field on.
fn parse_items(alloc: Global, fields: &ByteRecord) -> Result<Items, Mistake>
    ensures { ReadsAs IsMemoryMistake result (items_of (drop 2 (fields_of fields.now))) }
{
    let mut items = Items::new(alloc);
    for at in 2..fields.len() {
        items.push(alloc, at + 1, field(fields, at))?;
    }
    Ok(items)
}

#[tactic(auto, unfolding(crate::specs::Record::insert_of_items))]
fn make_insert(
    alloc: Global,
    fields: &ByteRecord,
    imsi: Imsi,
    items: Items,
    read: &mut Record,
) -> Result<(), Mistake>
    ensures { ReadsInto IsMemoryMistake result read.new (insert_of_items (fields_of fields.now) imsi items) }
{
    let o = list_or_mistake(fields, b"o", &O_DETECTION_POINTS, OCsi::new(&items.o))?;
    let o_criteria = OCriteriaSet::new(items.o_criteria);
    let o_criteria = list_or_mistake(fields, b"oc", &O_DETECTION_POINTS, o_criteria)?;
    let vt = list_or_mistake(fields, b"t", &VT_DETECTION_POINTS, VtCsi::new(&items.vt))?;
    let t_criteria = TCriteriaSet::new(items.t_criteria);
    let t_criteria = list_or_mistake(fields, b"tc", &VT_DETECTION_POINTS, t_criteria)?;
    let update = Update::Insert {
        imsi,
        o,
        o_criteria,
        vt,
        t_criteria,
    };
    *read = Record::Update(Boxed::new(alloc, update)?);
    Ok(())
}

/// The list that the items of a name make; without items it is omitted.
fn list_or_mistake<L: Drop>(
    fields: &ByteRecord,
    name: &[u8],
    points: &[u8],
    made: Result<L, Refusal>,
) -> Result<Option<L>, Mistake>
    ensures { result ≡ list_or_mistake name.now points.now (fields_of fields.now) made }
{
    match made {
        Ok(kept) => Ok(Some(kept)),
        Err(Refusal::DataMissing) => Ok(None),
        Err(refusal) => Err(refused_item(fields, name, points, refusal)),
    }
}
