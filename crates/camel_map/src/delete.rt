//! DeleteSubscriberDataArg.

ghost use Rattle.std.specs.Prelude.{◌≡◌, ◌≤◌};
ghost use Rattle.std.specs.Option.{option_map};
ghost use Rattle.camel_ber.specs.Elements.{view};
ghost use Rattle.camel_map.specs.Reading.{IsMemory};
ghost use Rattle.camel_reading.specs.Reading.{ReadsAs};
ghost use Rattle.camel_map.specs.Update.{delete_in, is_bit_set, is_bit_string, is_named, unused_bits, withdrawal_with};

use crate::field::{find_field, identified, mandatory};
use crate::imsi::read_own_imsi;
use crate::reading::read_elements;
use crate::tag::{CAMEL_SUBSCRIPTION_INFO_WITHDRAW, IMSI, SEQUENCE, SPECIFIC_CSI_WITHDRAW};
use crate::{MapFault, MapFaultKind};
use camel_ber::Element;
use camel_rows::{Update, Withdrawal};
use camel_tbcd::Imsi;
use std::alloc::Global;

/// Whether a NULL is there.
fn read_null(field: Option<Element<'_>>) -> Result<bool, MapFault>
    ensures { result ≡ is_named (option_map view field.entry) }
{
    match field {
        Some(field) if field.content.bytes().len() > 0 => {
            Err(MapFault::at(field.place, MapFaultKind::WrongLength))
        }
        Some(_) => Ok(true),
        None => Ok(false),
    }
}

/// Whether octets are the contents of a BIT STRING.
fn is_bit_string(content: &[u8]) -> bool
    ensures { result ≡ is_bit_string content.now }
{
    match content {
        [] => false,
        [unused] => *unused == 0,
        [unused, ..] => *unused <= 7,
    }
}

/// Whether one of the first eight bits of a BIT STRING, from 0 on, is there and set. `weight` is its value in an octet.
fn is_bit_set(content: &[u8], bit: u8, weight: u8) -> bool
    requires unused { unused_bits content.now ≤ 7 }
    requires bit { bit ≤ 7 }
    requires weight { 1 ≤ weight }
    ensures { result ≡ is_bit_set bit weight content.now }
{
    match content {
        [unused, bits] => bit + unused < 8 && bits / weight % 2 == 1,
        [_, bits, ..] => bits / weight % 2 == 1,
        _ => false,
    }
}

/// What DeleteSubscriberData names: everything, and what specificCSI-Withdraw says if it is there.
#[tactic(auto, unfolding(crate::specs::Update::withdrawal_in))]
fn read_withdrawal(everything: bool, field: Option<Element<'_>>) -> Result<Withdrawal, MapFault>
    ensures { result ≡ withdrawal_with everything (option_map view field.entry) }
{
    let Some(field) = field else {
        return Ok(Withdrawal {
            o: false,
            vt: false,
            everything,
        });
    };
    let content = field.content.bytes();
    if !is_bit_string(content) {
        return Err(MapFault::at(field.place, MapFaultKind::WrongLength));
    }
    Ok(Withdrawal {
        o: is_bit_set(content, 0, 128),
        vt: is_bit_set(content, 4, 8),
        everything,
    })
}

/// The Delete that an argument is. One that withdraws other data than CAMEL's names nothing.
#[tactic(auto, unfolding(crate::specs::Update::delete_in))]
pub(crate) fn read_delete(
    alloc: Global,
    dialogue_imsi: Option<Imsi>,
    element: &Element<'_>,
) -> Result<Update, MapFault>
    ensures { ReadsAs IsMemory result (delete_in dialogue_imsi (view element.now)) }
{
    let argument = identified(*element, SEQUENCE)?;
    let fields = read_elements(alloc, argument.content)?;
    let imsi = read_own_imsi(dialogue_imsi, &mandatory(&argument, IMSI, &fields)?)?;
    let everything = read_null(find_field(&fields, CAMEL_SUBSCRIPTION_INFO_WITHDRAW)?)?;
    let what = read_withdrawal(everything, find_field(&fields, SPECIFIC_CSI_WITHDRAW)?)?;
    Ok(Update::Delete { imsi, what })
}
