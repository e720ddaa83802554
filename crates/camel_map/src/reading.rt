//! What every part of an argument is read by.

ghost use Rattle.std.specs.Prelude.{◌≡◌};
ghost use Rattle.camel_ber.specs.Elements.{octets_data, views};
ghost use Rattle.camel_map.specs.Reading.{IsMemory, elements_in, or_refused_at};
ghost use Rattle.camel_reading.specs.Reading.{ReadsBy};

use crate::{MapFault, MapFaultKind};
use camel_ber::{Element, Octets, series};
use camel_criteria::Refusal;
use std::alloc::Global;

/// How deep indefinite lengths may stand within one another.
pub(crate) const MAX_DEPTH: u32 = 16;

/// The elements that octets are.
pub(crate) fn read_elements<'a>(
    alloc: Global,
    octets: Octets<'a>,
) -> Result<Vec<Element<'a>>, MapFault>
    ensures { ReadsBy IsMemory (λ elements. views elements.items) result (elements_in (octets_data octets.entry)) }
{
    Ok(series(alloc, octets, MAX_DEPTH)?)
}

/// Data that may be refused, and then at a place.
pub(crate) fn or_refused_at<T>(place: usize, made: Result<T, Refusal>) -> Result<T, MapFault>
    ensures { result ≡ or_refused_at place made }
{
    match made {
        Ok(value) => Ok(value),
        Err(refusal) => Err(MapFault::at(place, MapFaultKind::Refused(refusal))),
    }
}
