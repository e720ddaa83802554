ghost use Rattle.std.specs.Prelude.{◌≡◌};
ghost use Rattle.camel_map.specs.Update.{map_fault_code};

use camel_ber::{FaultKind, ReadError};
use camel_criteria::Refusal;
use camel_reading::Fault;
use std::error::Error;
use std::fmt;

/// Why an argument is not taken. Nothing was made, and no memory is held.
///
/// The numbers from 401 on are this product's own. TS 29.002 has a rejection of the argument for 401 to 406, and the
/// error UnexpectedDataValue for 407.
#[derive(Clone, Copy, Debug, PartialEq, Eq)]
pub enum MapFaultKind {
    /// 401: the octets are no elements (ITU-T X.690).
    Malformed(FaultKind),
    /// 402: a field that must be there is missing.
    MissingField,
    /// 403: a field comes twice.
    FieldTwice,
    /// 404: an element is none of the type that must be there, or a field has contents of elements where its type has
    /// octets, or the other way round.
    WrongTag,
    /// 405: contents have a length that their type has not, or octets follow the argument.
    WrongLength,
    /// 406: neither the argument nor the dialogue has an IMSI.
    NoImsi,
    /// 407: the argument has another IMSI than the dialogue.
    OtherImsi,
    /// The data are refused, with the refusal's number: `DataMissing` (35), `UnexpectedDataValue` (36) or `OutOfMemory`
    /// (102).
    Refused(Refusal),
}

impl MapFaultKind {
    /// Its number.
    pub fn code(&self) -> u16
        ensures { result ≡ map_fault_code self.now }
    {
        match self {
            MapFaultKind::Malformed(_) => 401,
            MapFaultKind::MissingField => 402,
            MapFaultKind::FieldTwice => 403,
            MapFaultKind::WrongTag => 404,
            MapFaultKind::WrongLength => 405,
            MapFaultKind::NoImsi => 406,
            MapFaultKind::OtherImsi => 407,
            MapFaultKind::Refused(refusal) => refusal.code(),
        }
    }
}

impl fmt::Display for MapFaultKind {
    fn fmt<W: fmt::Write>(&self, f: &mut fmt::Formatter<W>) -> fmt::Result {
        match self {
            MapFaultKind::Malformed(_) => f.write_str("the octets are no elements of BER"),
            MapFaultKind::MissingField => f.write_str("a field is missing"),
            MapFaultKind::FieldTwice => f.write_str("a field comes twice"),
            MapFaultKind::WrongTag => f.write_str("an element has a wrong tag"),
            MapFaultKind::WrongLength => f.write_str("the contents have a wrong length"),
            MapFaultKind::NoImsi => f.write_str("there is no IMSI"),
            MapFaultKind::OtherImsi => f.write_str("the IMSI is not that of the dialogue"),
            MapFaultKind::Refused(refusal) => refusal.fmt(f),
        }
    }
}

/// Why an argument is not taken, and where: the first fault, in the order in which a decoder comes to the fields.
#[derive(Clone, Copy, Debug, PartialEq, Eq)]
pub struct MapFault {
    /// What is wrong.
    pub kind: MapFaultKind,
    /// The octet of the argument, from 0, at which the element begins that is not as it must be, or that lacks a field.
    /// For malformed octets it is that of the fault itself ([`camel_ber::Fault`]), and out of memory it says nothing.
    pub place: usize,
}

impl MapFault {
    /// A fault of this kind at a place.
    pub(crate) fn at(place: usize, kind: MapFaultKind) -> MapFault
        ensures { result ≡ record { kind = kind; place = place } }
    {
        MapFault { kind, place }
    }

    /// Its number.
    pub fn code(&self) -> u16
        ensures { result ≡ map_fault_code self.now.kind }
    {
        self.kind.code()
    }
}

impl fmt::Display for MapFault {
    fn fmt<W: fmt::Write>(&self, f: &mut fmt::Formatter<W>) -> fmt::Result {
        write!(f, "{} at octet {}", self.kind, self.place)
    }
}

impl Error for MapFault {}

impl Fault for MapFault {
    ghost use Rattle.std.specs.Prelude.{◌≡◌};
    ghost use Rattle.camel_map.specs.Reading.{IsMemory, out_of_memory};

    ghost is_out_of_memory = { IsMemory };

    fn out_of_memory() -> MapFault
        ensures { result ≡ out_of_memory }
    {
        MapFault::at(0, MapFaultKind::Refused(Refusal::OutOfMemory))
    }
}

impl From<ReadError> for MapFault {
    ghost use Rattle.std.specs.Prelude.{◌≡◌};
    ghost use Rattle.camel_map.specs.Reading.{fault_of_error};

    ghost from_gives = { λ error fault. fault ≡ fault_of_error error };

    fn from(error: ReadError) -> MapFault {
        match error {
            ReadError::Memory => MapFault::out_of_memory(),
            ReadError::Fault(fault) => MapFault::at(
                fault.place,
                MapFaultKind::Malformed(fault.kind),
            ),
        }
    }
}
