//! The items of an insert.

ghost use Rattle.std.specs.Prelude.{◌≡◌, ◌≢◌, ◌++◌, ◌∷◌, [], IfErr, OnOk, length};
ghost use Rattle.camel_reading.specs.Reading.{ReadsAs, ReadsInto};
ghost use Rattle.camel_script.specs.Item.{item_into, no_items, o_entry_of, refused_part, row_of, t_entry_of};
ghost use Rattle.camel_script.specs.Fields.{part_count, IsMemoryMistake, item_part, item_separator, parts_of};

pub(crate) mod number;

use crate::item::number::{make_number_criterion, parse_number_texts};
use crate::mistake::Expected::{
    BasicServices, Causes, DetectionPoint, GsmScfAddress, ItemCallType, ItemName, NumberCriterion,
    ServiceKey,
};
use crate::mistake::{at_part, mistake_at, part_count, refused_at};
use crate::text::lists::{parse_basic_services, parse_small_decimals};
use crate::text::parts::{ITEM_SEPARATOR, count_parts, cut_part};
use crate::text::{make_isdn_address, parse_call_type, parse_octets};
use crate::{Expected, Mistake, RecordFault, parse_decimal, parse_small_decimal};
use camel_criteria::{BasicService, Handling, MAX_BASIC_SERVICES, OCriteria, TCriteria};
use camel_rows::TdpRow;
use std::alloc::Global;
use std::marker::Model;

/// The rows and entries of an insert, each list in the order of its items.
#[derive(Drop)]
pub(crate) struct Items {
    /// The TDP rows of the O-CSI: the items `o`.
    pub(crate) o: Vec<TdpRow>,
    /// The entries of the O-CSI's criteria: the items `oc`.
    pub(crate) o_criteria: Vec<OCriteria>,
    /// The TDP rows of the VT-CSI: the items `t`.
    pub(crate) vt: Vec<TdpRow>,
    /// The entries of the VT-CSI's criteria: the items `tc`.
    pub(crate) t_criteria: Vec<TCriteria>,
}

impl Model for Items {
    ghost use Rattle.camel_script.specs.Item.{ItemsData};

    ghost Value = { ItemsData };

    ghost view = { λ a. record {
      o = a.o.items;
      o_criteria = a.o_criteria.items;
      vt = a.vt.items;
      t_criteria = a.t_criteria.items;
    } };
}

impl Items {
    /// No row and no entry. It takes no memory.
    pub(crate) fn new(alloc: Global) -> Items
        ensures { result ≡ no_items }
    {
        Items {
            o: Vec::new(alloc),
            o_criteria: Vec::new(alloc),
            vt: Vec::new(alloc),
            t_criteria: Vec::new(alloc),
        }
    }

    /// Pushes the next item, a row or an entry, to the list that its name says. It is in the field of this number.
    /// After an Err the record has that mistake, and the lists are of no use.
    #[tactic(auto, unfolding(crate::specs::Item::item_into))]
    pub(crate) fn push(&mut self, alloc: Global, number: usize, item: &[u8]) -> Result<(), Mistake>
        ensures { ReadsInto IsMemoryMistake result self.new (item_into self.old (number, item.now)) }
    {
        match cut_part(item, ITEM_SEPARATOR).0 {
            b"o" => self.o.push(parse_row(alloc, number, item)?)?,
            b"t" => self.vt.push(parse_row(alloc, number, item)?)?,
            b"oc" => push_entry(&mut self.o_criteria, parse_o_entry(alloc, number, item)?)?,
            b"tc" => push_entry(&mut self.t_criteria, parse_t_entry(alloc, number, item)?)?,
            _ => return Err(mistake_at(number, 1, ItemName, RecordFault::Word)),
        }
        Ok(())
    }
}

const ROW: [Expected; 5] = [
    ItemName,
    DetectionPoint,
    ServiceKey,
    GsmScfAddress,
    Expected::Handling,
];

const O_ENTRY: [Expected; 6] = [
    ItemName,
    DetectionPoint,
    NumberCriterion,
    BasicServices,
    ItemCallType,
    Causes,
];

const T_ENTRY: [Expected; 4] = [ItemName, DetectionPoint, BasicServices, Causes];

/// Counts the parts of an item, of which these are expected.
fn check_parts(texts: &[Expected], number: usize, item: &[u8]) -> Result<(), Mistake>
    ensures counted { OnOk result (length (parts_of item_separator item.now) ≡ length texts.now) }
    ensures fails { IfErr result (λ mistake. (length (parts_of item_separator item.now) ≢ length texts.now)
        × (mistake ≡ part_count number texts.now (length (parts_of item_separator item.now)))) }
{
    let count = count_parts(item, ITEM_SEPARATOR);
    if count != texts.len() {
        return Err(part_count(number, texts, count));
    }
    Ok(())
}

/// Pushes an entry. A set of several keeps the vector itself: room for one more and no other.
fn push_entry<E: Drop>(entries: &mut Vec<E>, entry: E) -> Result<(), Mistake>
    ensures pushed { OnOk result (entries.new.items ≡ entries.old.items ++ entry ∷ []) }
    ensures fails { IfErr result IsMemoryMistake }
{
    entries.reserve_exact(1)?;
    entries.push(entry)?;
    Ok(())
}

/// The five parts of an item behind its name; empty past the last.
fn item_parts(item: &[u8]) -> (&[u8], &[u8], &[u8], &[u8], &[u8])
    ensures first { result.0.now ≡ item_part item.now 1 }
    ensures second { result.1.now ≡ item_part item.now 2 }
    ensures third { result.2.now ≡ item_part item.now 3 }
    ensures fourth { result.3.now ≡ item_part item.now 4 }
    ensures fifth { result.4.now ≡ item_part item.now 5 }
{
    let (_name, rest) = cut_part(item, ITEM_SEPARATOR);
    let (first, rest) = cut_part(rest, ITEM_SEPARATOR);
    let (second, rest) = cut_part(rest, ITEM_SEPARATOR);
    let (third, rest) = cut_part(rest, ITEM_SEPARATOR);
    let (fourth, rest) = cut_part(rest, ITEM_SEPARATOR);
    let (fifth, _rest) = cut_part(rest, ITEM_SEPARATOR);
    (first, second, third, fourth, fifth)
}

/// Reads a row. The texts of all its parts are read before its data are checked.
#[tactic(auto, unfolding(crate::specs::Item::row_of))]
fn parse_row(alloc: Global, number: usize, item: &[u8]) -> Result<TdpRow, Mistake>
    ensures { ReadsAs IsMemoryMistake result (row_of (number, item.now)) }
{
    check_parts(&ROW, number, item)?;
    let (dp, key, scf, handling, _) = item_parts(item);
    let dp = at_part(number, 2, DetectionPoint, parse_small_decimal(dp))?;
    let key = at_part(number, 3, ServiceKey, parse_decimal(key, u32::MAX))?;
    let octets = at_part(number, 4, GsmScfAddress, parse_octets(alloc, scf))?;
    let received = parse_decimal(handling, u32::MAX);
    let received = at_part(number, 5, Expected::Handling, received)?;
    let scf = at_part(number, 4, GsmScfAddress, make_isdn_address(&octets))?;
    let row = TdpRow::new(dp, key, scf, Handling::of_received(received));
    refused_at(number, 3, ServiceKey, row)
}

/// Reads an entry of the criteria of the O-CSI. The texts of all its parts are read before its data are checked.
#[tactic(auto, unfolding(crate::specs::Item::o_entry_of))]
fn parse_o_entry(alloc: Global, number: usize, item: &[u8]) -> Result<OCriteria, Mistake>
    ensures { ReadsAs IsMemoryMistake result (o_entry_of (number, item.now)) }
{
    check_parts(&O_ENTRY, number, item)?;
    let (dp, number_text, basic, call_type, causes) = item_parts(item);
    let dp = at_part(number, 2, DetectionPoint, parse_small_decimal(dp))?;
    let texts = parse_number_texts(alloc, number_text);
    let texts = at_part(number, 3, NumberCriterion, texts)?;
    let basic = parse_basic_services(alloc, basic);
    let basic = at_part(number, 4, BasicServices, basic)?;
    let call_type = at_part(number, 5, ItemCallType, parse_call_type(call_type))?;
    let causes = at_part(number, 6, Causes, parse_small_decimals(alloc, causes))?;
    let criterion = make_number_criterion(alloc, &texts);
    let criterion = at_part(number, 3, NumberCriterion, criterion)?;
    let entry = OCriteria::new(alloc, dp, criterion, &basic, call_type, &causes);
    let (part, expected) = refused_part(4, 6, &basic);
    refused_at(number, part, expected, entry)
}

/// Reads an entry of the criteria of the VT-CSI. The texts of all its parts are read before its data are checked.
#[tactic(auto, unfolding(crate::specs::Item::t_entry_of))]
fn parse_t_entry(alloc: Global, number: usize, item: &[u8]) -> Result<TCriteria, Mistake>
    ensures { ReadsAs IsMemoryMistake result (t_entry_of (number, item.now)) }
{
    check_parts(&T_ENTRY, number, item)?;
    let (dp, basic, causes, _, _) = item_parts(item);
    let dp = at_part(number, 2, DetectionPoint, parse_small_decimal(dp))?;
    let basic = parse_basic_services(alloc, basic);
    let basic = at_part(number, 3, BasicServices, basic)?;
    let causes = at_part(number, 4, Causes, parse_small_decimals(alloc, causes))?;
    let entry = TCriteria::new(dp, &basic, &causes);
    let (part, expected) = refused_part(3, 4, &basic);
    refused_at(number, part, expected, entry)
}

/// What of an entry is refused, and in which of these parts: its basic services if there are too many, else its causes.
fn refused_part(basic_part: usize, causes_part: usize, basic: &[BasicService]) -> (usize, Expected)
    ensures { result ≡ refused_part basic_part causes_part basic.now }
{
    if basic.len() > MAX_BASIC_SERVICES {
        (basic_part, BasicServices)
    } else {
        (causes_part, Causes)
    }
}
