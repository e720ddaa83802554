//! Updates of the octets of arguments of MAP.

ghost use Rattle.std.specs.Prelude.{◌≡◌, IfOk};
ghost use Rattle.camel_map.specs.Arrival.{IsReceived};
ghost use Rattle.camel_map.specs.Reading.{whole};
ghost use Rattle.camel_map.specs.Update.{arrival_of};
ghost use Rattle.camel_c.specs.Octets.{ReadsOctets, arrival_in, dialogue_in, in_argument, octets_fault_code};
ghost use Rattle.camel_c.specs.Octets.{octets_fault_place, operation_in};
ghost use Rattle.camel_c.specs.Updates.{HoldsReceived, MakesOfOctets};

use crate::CamelHandle;
use crate::object::{Object, put};
use camel_c_data::CamelImsi;
use camel_criteria::Refusal;
use camel_map::{Arrival, MapFault, MapFaultKind, Operation, decode};
use camel_tbcd::Imsi;
use std::alloc::Global;

/// What is told as a place where no octet of the argument is at fault.
pub(crate) const NO_OCTET: u64 = u64::MAX;

/// Why octets of an argument are not read.
#[derive(Clone, Copy)]
pub(crate) enum OctetsFault {
    /// 502: the operation is none by which an HLR changes subscriber data, or the IMSI of the dialogue is none.
    Malformed,
    /// 102: memory was refused while the argument was decoded.
    OutOfMemory,
    /// 35, 36 and 401 to 407: the argument has this fault.
    Argument(MapFault),
}

impl OctetsFault {
    /// The fault's number.
    pub(crate) fn code(&self) -> u16
        ensures { result ≡ octets_fault_code self.now }
    {
        match self {
            OctetsFault::Malformed => 502,
            OctetsFault::OutOfMemory => 102,
            OctetsFault::Argument(fault) => fault.code(),
        }
    }

    /// The octet of the argument at which it is, or `NO_OCTET` if it is none of the argument.
    pub(crate) fn place(&self) -> u64
        ensures { result ≡ octets_fault_place self.now }
    {
        match self {
            OctetsFault::Malformed | OctetsFault::OutOfMemory => NO_OCTET,
            OctetsFault::Argument(fault) => fault.place as u64,
        }
    }
}

/// What octets bring, as the argument of the operation of a code in the dialogue of an IMSI.
#[tactic(auto, unfolding(crate::specs::Octets::arrival_in))]
pub(crate) fn read_octets(
    alloc: Global,
    operation: u8,
    imsi: &CamelImsi,
    argument: &[u8],
) -> Result<Arrival, OctetsFault>
    ensures read { ReadsOctets result (arrival_in operation imsi.now argument.now) }
    ensures received { IfOk result IsReceived }
{
    let operation = read_operation(operation)?;
    let dialogue = read_dialogue(imsi)?;
    read_argument(alloc, operation, dialogue, argument)
}

fn read_operation(code: u8) -> Result<Operation, OctetsFault>
    ensures { result ≡ operation_in code }
{
    Operation::of_code(code).ok_or(OctetsFault::Malformed)
}

/// The IMSI of a dialogue, of which the number 0 says that it has none.
fn read_dialogue(held: &CamelImsi) -> Result<Option<Imsi>, OctetsFault>
    ensures { result ≡ dialogue_in held.now }
{
    if held.number == 0 {
        return Ok(None);
    }
    match held.read() {
        Ok(imsi) => Ok(Some(imsi)),
        Err(_) => Err(OctetsFault::Malformed),
    }
}

/// What octets bring, as the argument of an operation.
fn read_argument(
    alloc: Global,
    operation: Operation,
    dialogue: Option<Imsi>,
    octets: &[u8],
) -> Result<Arrival, OctetsFault>
    ensures read { ReadsOctets result (in_argument (arrival_of operation dialogue (whole octets.now))) }
    ensures received { IfOk result IsReceived }
{
    match decode(alloc, operation, dialogue, octets) {
        Ok(arrival) => Ok(arrival),
        Err(
            MapFault {
                kind: MapFaultKind::Refused(Refusal::OutOfMemory),
                ..
            },
        ) => Err(OctetsFault::OutOfMemory),
        Err(fault) => Err(OctetsFault::Argument(fault)),
    }
}

/// Fills an empty handle with what the octets of an argument of MAP bring, as `camel_submit_map` submits it, with how
/// many items came in each list and with the camelCapabilityHandling of each CSI.
///
/// It fails with 502, 401 to 407, 35 or 36 as `camel_submit_map` does, and writes the octet of a fault of the argument
/// to the place; else the place is 2^64 - 1. It fails with 504 if the handle is not empty, and with 102 if memory was
/// refused. Then the handle is as before.
#[unsafe(no_mangle)]
pub extern "C" fn camel_update_of_map_nonnull(
    alloc: Global,
    operation: u8,
    imsi: &CamelImsi,
    argument: &[u8],
    update: &mut CamelHandle,
    place: &mut u64,
) -> u32
    ensures made { MakesOfOctets (arrival_in operation imsi.now argument.now) result place.new
        update.old.value update.new.value }
    // An Insert is of lists, so it may be joined with another one.
    ensures received { result ≡ 0 → HoldsReceived update.new.value }
{
    let read = read_octets(alloc, operation, imsi, argument);
    keep_read(alloc, update, read, place)
}

// A call of its own, so that the stack of the reading is given back before.
#[inline(never)]
fn keep_read(
    alloc: Global,
    handle: &mut CamelHandle,
    read: Result<Arrival, OctetsFault>,
    place: &mut u64,
) -> u32
    ensures made { MakesOfOctets read result place.new handle.old.value handle.new.value }
    ensures received { IfOk read IsReceived → result ≡ 0 → HoldsReceived handle.new.value }
{
    match read {
        Ok(arrival) => {
            *place = NO_OCTET;
            put(alloc, handle, Object::Update(arrival))
        }
        Err(fault) => {
            *place = fault.place();
            u32::from(fault.code())
        }
    }
}
