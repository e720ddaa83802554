//! The fields of a SEQUENCE, by their tags.

ghost use Rattle.std.specs.Prelude.{◌≡◌, Result};
ghost use Rattle.std.specs.Fn.{FnReturnsAt};
ghost use Rattle.std.specs.Option.{option_map};
ghost use Rattle.camel_ber.specs.Elements.{PlacedData, view, views};
ghost use Rattle.camel_map.specs.Reading.{field_of, identified, if_present, is_identified, is_tagged, mandatory};
ghost use Rattle.camel_map.specs.Reading.{IsMemory, LendsElement, LendsField};
ghost use Rattle.camel_reading.specs.Reading.{AnswersAs, ReadsAs};
ghost use Rattle.camel_map.specs.declared.map_fault.MapFault.{MapFault};

use crate::{MapFault, MapFaultKind};
use camel_ber::Element;

/// Whether the identifier is this octet.
pub(crate) fn is_identified(element: &Element<'_>, octet: u8) -> bool
    ensures { result ≡ is_identified octet (view element.now) }
{
    element.identifier.len() == 1 && element.identifier[0] == octet
}

/// Whether the tag is that of this identifier octet, which may differ in bit 6.
fn is_tagged(element: &Element<'_>, octet: u8) -> bool
    ensures { result ≡ is_tagged octet (view element.now) }
{
    if element.identifier.len() != 1 {
        return false;
    }
    let first = element.identifier[0];
    first / 64 == octet / 64 && first % 32 == octet % 32
}

/// An element that has this identifier.
pub(crate) fn identified<'a>(element: Element<'a>, octet: u8) -> Result<Element<'a>, MapFault>
    ensures { LendsElement result (identified octet (view element.entry)) }
{
    if !is_identified(&element, octet) {
        return Err(MapFault::at(element.place, MapFaultKind::WrongTag));
    }
    Ok(element)
}

/// The field of this identifier octet, if it is there.
pub(crate) fn find_field<'a>(
    fields: &[Element<'a>],
    octet: u8,
) -> Result<Option<Element<'a>>, MapFault>
    ensures { LendsField result (field_of octet (views fields.now)) }
{
    let mut found: Option<Element<'a>> = None;
    for field in fields {
        if is_tagged(field, octet) {
            if found.is_some() {
                return Err(MapFault::at(field.place, MapFaultKind::FieldTwice));
            }
            found = Some(*field);
        }
    }
    match found {
        Some(field) => Ok(Some(identified(field, octet)?)),
        None => Ok(None),
    }
}

/// The field of this identifier octet, which an element must have among its fields.
#[tactic(auto, unfolding(crate::specs::Reading::mandatory))]
pub(crate) fn mandatory<'a>(
    element: &Element<'_>,
    octet: u8,
    fields: &[Element<'a>],
) -> Result<Element<'a>, MapFault>
    ensures { LendsElement result (mandatory (view element.now) octet (views fields.now)) }
{
    match find_field(fields, octet)? {
        Some(field) => Ok(field),
        None => Err(MapFault::at(element.place, MapFaultKind::MissingField)),
    }
}

/// What `read` returns for a field, if it is there.
pub(crate) fn read_present<T: Drop, F: Fn(&Element<'_>) -> Result<T, MapFault>>(
    field: Option<Element<'_>>,
    read: F,
) -> Result<Option<T>, MapFault>
    requires { F.IsAlwaysCallable read }
    ensures { (value_of : PlacedData → Result T MapFault)
        → AnswersAs IsMemory (FnReturnsAt F.Fn read) (λ item. value_of (view item))
        → ReadsAs IsMemory result (if_present value_of (option_map view field.entry)) }
{
    match field {
        Some(field) => Ok(Some(read(&field)?)),
        None => Ok(None),
    }
}
