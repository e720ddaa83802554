//! What the octets of an argument bring.

ghost use Rattle.std.specs.Prelude.{IfOk, Ok};
ghost use Rattle.camel_ber.specs.Elements.{views};
ghost use Rattle.camel_map.specs.Encoding.{Encodes, IsInDialogue, IsKept};
ghost use Rattle.camel_map.specs.Arrival.{IsReceived};
ghost use Rattle.camel_map.specs.Reading.{IsMemory, LendsElement, whole};
ghost use Rattle.camel_reading.specs.Reading.{ReadsAs, ReadsBy};
ghost use Rattle.camel_map.specs.Update.{arrival_of, one_of, update_of};
ghost use Rattle.camel_rows.specs.declared.subscriber.update.Update.{Update};

use crate::cancel::read_cancel;
use crate::delete::read_delete;
use crate::insert::read_insert;
use crate::reading::read_elements;
use crate::{Arrival, MapFault, MapFaultKind, Operation};
use camel_ber::{Element, Octets};
use camel_tbcd::Imsi;
use std::alloc::Global;

/// The one element that an argument is, with no octet behind it.
fn one_of<'a>(elements: &[Element<'a>]) -> Result<Element<'a>, MapFault>
    ensures { LendsElement result (one_of 0 (views elements.now)) }
{
    match elements {
        [argument] => Ok(*argument),
        [_, next, ..] => Err(MapFault::at(next.place, MapFaultKind::WrongLength)),
        [] => Err(MapFault::at(0, MapFaultKind::MissingField)),
    }
}

/// What octets bring, as the argument of an operation in a dialogue of this IMSI, if the dialogue has one: the update,
/// and what came beside it.
///
/// The octets are those of the parameter of a TCAP invoke, in BER (ITU-T X.690), in the forms of docs/RULES.md: a
/// length is definite, in the short form or in up to four octets and not only in the fewest, or indefinite, up to 16
/// deep, and a field that is a string is in one piece. They are borrowed, and nothing of them is kept. Fields are known
/// by their tags (TS 29.002); those that are not needed, and extensions, are skipped. It takes memory for lists, and
/// gives back all but that of the update. Its steps are at most a constant times the number of octets.
///
/// Fails with the first fault, and says where it is: `Malformed` (401), `MissingField` (402), `FieldTwice` (403),
/// `WrongTag` (404), `WrongLength` (405), `NoImsi` (406) or `OtherImsi` (407) of the octets, and with `DataMissing`
/// (35), `UnexpectedDataValue` (36) or `OutOfMemory` (102) if the data are refused. Nothing was made then.
pub fn decode(
    alloc: Global,
    operation: Operation,
    dialogue_imsi: Option<Imsi>,
    octets: &[u8],
) -> Result<Arrival, MapFault>
    // It is what the octets bring, or has their first fault, unless memory runs out.
    ensures answer { ReadsAs IsMemory result (arrival_of operation dialogue_imsi (whole octets.now)) }
    // An Insert is of lists, so it can be joined with another one. Another update has nothing beside it.
    ensures received { IfOk result IsReceived }
    // Its update is that which the octets are.
    ensures update { ReadsBy IsMemory (λ arrival. arrival.update) result
        (update_of operation dialogue_imsi (whole octets.now)) }
    // Each update that an operation can say has an encoding that is decoded to it.
    ensures encoded { (update : Update) → IsKept update → Encodes operation update octets.now
        → IsInDialogue dialogue_imsi update → ReadsBy IsMemory (λ arrival. arrival.update) result (Ok update) }
{
    read_argument(alloc, operation, dialogue_imsi, octets)
}

/// What an argument brings.
#[tactic(auto, unfolding(crate::specs::Update::arrival_of))]
fn read_argument(
    alloc: Global,
    operation: Operation,
    dialogue_imsi: Option<Imsi>,
    octets: &[u8],
) -> Result<Arrival, MapFault>
    ensures { ReadsAs IsMemory result (arrival_of operation dialogue_imsi (whole octets.now)) }
{
    let elements = read_elements(alloc, Octets::new(octets))?;
    let argument = one_of(&elements)?;
    match operation {
        Operation::InsertSubscriberData => read_insert(alloc, dialogue_imsi, &argument),
        Operation::DeleteSubscriberData => Ok(Arrival::bare(read_delete(
            alloc,
            dialogue_imsi,
            &argument,
        )?)),
        Operation::CancelLocation => Ok(Arrival::bare(read_cancel(
            alloc,
            dialogue_imsi,
            &argument,
        )?)),
    }
}
