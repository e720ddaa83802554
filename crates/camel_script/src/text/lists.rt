ghost use Rattle.std.specs.Prelude.{List, Result, ℕ};
ghost use Rattle.std.specs.Fn.{FnReturnsAt};
ghost use Rattle.camel_reading.specs.Reading.{AnswersAs, ReadsList, each_of};
ghost use Rattle.camel_script.specs.Fields.{IsMemory, elements_as, basic_service_of, decimal_of, isdn_address_of};
ghost use Rattle.camel_script.specs.Fields.{octets_of};

use crate::text::parts::{ELEMENT_SEPARATOR, split_part};
use crate::text::{Octets, make_isdn_address, parse_octets};
use crate::{RecordFault, parse_basic_service, parse_small_decimal};
use camel_criteria::BasicService;
use camel_reading::read_each;
use camel_tbcd::IsdnAddress;
use std::alloc::Global;

/// Reads the octets of each listed number.
pub(crate) fn parse_octets_list(alloc: Global, text: &[u8]) -> Result<Vec<Octets>, RecordFault>
    ensures { ReadsList IsMemory result (elements_as octets_of text.now) }
{
    read_elements(alloc, text, |element| parse_octets(alloc, element))
}

/// Reads decimals of value 0 to 255.
pub(crate) fn parse_small_decimals(alloc: Global, text: &[u8]) -> Result<Vec<u8>, RecordFault>
    ensures { ReadsList IsMemory result (elements_as (decimal_of 255) text.now) }
{
    read_elements(alloc, text, |element| parse_small_decimal(element))
}

/// Reads basic services.
pub(crate) fn parse_basic_services(
    alloc: Global,
    text: &[u8],
) -> Result<Vec<BasicService>, RecordFault>
    ensures { ReadsList IsMemory result (elements_as basic_service_of text.now) }
{
    read_elements(alloc, text, |element| parse_basic_service(element))
}

/// The listed numbers of these octets.
pub(crate) fn make_isdn_addresses(
    alloc: Global,
    numbers: &[Octets],
) -> Result<Vec<IsdnAddress>, RecordFault>
    ensures { ReadsList IsMemory result (each_of isdn_address_of numbers.now) }
{
    read_each(alloc, numbers, |octets| make_isdn_address(octets))
}

/// What `read` returns for each element of a list, in their order, or the first fault. An empty text has no element.
fn read_elements<T: Drop, F: Fn(&[u8]) -> Result<T, RecordFault>>(
    alloc: Global,
    text: &[u8],
    read: F,
) -> Result<Vec<T>, RecordFault>
    requires { F.IsAlwaysCallable read }
    ensures { (value_of : List ℕ → Result T RecordFault)
        → AnswersAs IsMemory (FnReturnsAt F.Fn read) value_of
        → ReadsList IsMemory result (elements_as value_of text.now) }
{
    let mut values = Vec::new(alloc);
    let mut left = if text.is_empty() { None } else { Some(text) };
    'elements: while let Some(rest) = left {
        let (element, behind) = split_part(rest, ELEMENT_SEPARATOR);
        values.push(read(element)?)?;
        left = behind;
    }
    Ok(values)
}
