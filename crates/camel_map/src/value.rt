//! What the contents of primitive elements stand for.

ghost use Rattle.std.specs.Prelude.{◌≡◌, min};
ghost use Rattle.camel_criteria.specs.declared.refusal.Refusal.TheVariants.{UnexpectedDataValue};
ghost use Rattle.camel_map.specs.declared.map_fault.MapFaultKind.TheVariants.{Refused};
ghost use Rattle.camel_ber.specs.Elements.{value_of, view};
ghost use Rattle.camel_map.specs.Reading.{basic_service_in, call_type_in, cause_in, detection_point_in, greatest};
ghost use Rattle.camel_map.specs.Reading.{isdn_address_in, length_in, match_type_in, number_in, service_code_in};
ghost use Rattle.camel_map.specs.Reading.{unsigned_in};

use crate::field::{identified, is_identified};
use crate::tag::{EXT_BEARER_SERVICE, EXT_TELESERVICE, INTEGER, OCTET_STRING};
use crate::{MapFault, MapFaultKind};
use camel_ber::Element;
use camel_criteria::{BasicService, CallType, MatchType, Refusal};
use camel_tbcd::IsdnAddress;

/// A value that is refused at a place.
pub(crate) fn refused_at(place: usize) -> MapFault
    ensures { result ≡ record { kind = Refused UnexpectedDataValue; place = place } }
{
    MapFault::at(place, MapFaultKind::Refused(Refusal::UnexpectedDataValue))
}

/// The number that octets are, the first of the greatest place; one over 4294967295 is as that.
fn magnitude(octets: &[u8]) -> u32
    ensures { result ≡ min (value_of octets.now) greatest }
{
    let mut value: u64 = 0;
    for octet in octets {
        value = (value * 256 + u64::from(*octet)).min(u64::from(u32::MAX));
    }
    value as u32
}

/// An INTEGER or ENUMERATED that is not below 0.
#[tactic(auto, unfolding(crate::specs::Reading::unsigned_in))]
pub(crate) fn read_unsigned(element: &Element<'_>) -> Result<u32, MapFault>
    ensures { result ≡ unsigned_in (view element.now) }
{
    let content = element.content.bytes();
    if content.len() == 0 {
        return Err(MapFault::at(element.place, MapFaultKind::WrongLength));
    }
    if content[0] >= 128 {
        return Err(refused_at(element.place));
    }
    Ok(magnitude(content))
}

/// A detection point; 255 for each that no octet holds.
#[tactic(auto, unfolding(crate::specs::Reading::detection_point_in))]
pub(crate) fn read_detection_point(element: &Element<'_>) -> Result<u8, MapFault>
    ensures { result ≡ detection_point_in (view element.now) }
{
    let content = element.content.bytes();
    if content.len() == 0 {
        return Err(MapFault::at(element.place, MapFaultKind::WrongLength));
    }
    if content[0] >= 128 {
        return Ok(255);
    }
    Ok(to_octet(magnitude(content)))
}

/// A value, or 255 if it is greater.
fn to_octet(value: u32) -> u8
    ensures { result ≡ min value 255 }
{
    value.min(255) as u8
}

/// A listed length, in digits.
#[tactic(auto, unfolding(crate::specs::Reading::length_in))]
pub(crate) fn read_length(item: &Element<'_>) -> Result<u8, MapFault>
    ensures { result ≡ length_in (view item.now) }
{
    let item = identified(*item, INTEGER)?;
    Ok(to_octet(read_unsigned(&item)?))
}

/// MatchType.
#[tactic(auto, unfolding(crate::specs::Reading::match_type_in))]
pub(crate) fn read_match_type(field: &Element<'_>) -> Result<MatchType, MapFault>
    ensures { result ≡ match_type_in (view field.now) }
{
    match read_unsigned(field)? {
        0 => Ok(MatchType::Inhibiting),
        1 => Ok(MatchType::Enabling),
        _ => Err(refused_at(field.place)),
    }
}

/// CallTypeCriteria.
#[tactic(auto, unfolding(crate::specs::Reading::call_type_in))]
pub(crate) fn read_call_type(field: &Element<'_>) -> Result<CallType, MapFault>
    ensures { result ≡ call_type_in (view field.now) }
{
    match read_unsigned(field)? {
        0 => Ok(CallType::Forwarded),
        1 => Ok(CallType::NotForwarded),
        _ => Err(refused_at(field.place)),
    }
}

/// ISDN-AddressString.
#[tactic(auto, unfolding(crate::specs::Reading::isdn_address_in))]
pub(crate) fn read_isdn_address(element: &Element<'_>) -> Result<IsdnAddress, MapFault>
    ensures { result ≡ isdn_address_in (view element.now) }
{
    match IsdnAddress::from_bytes(element.content.bytes()) {
        Ok(address) => Ok(address),
        Err(_) => Err(refused_at(element.place)),
    }
}

/// A listed number.
#[tactic(auto, unfolding(crate::specs::Reading::number_in))]
pub(crate) fn read_number(item: &Element<'_>) -> Result<IsdnAddress, MapFault>
    ensures { result ≡ number_in (view item.now) }
{
    read_isdn_address(&identified(*item, OCTET_STRING)?)
}

/// CauseValue: one octet, of which bit 8 says nothing.
#[tactic(auto, unfolding(crate::specs::Reading::cause_in))]
pub(crate) fn read_cause(item: &Element<'_>) -> Result<u8, MapFault>
    ensures { result ≡ cause_in (view item.now) }
{
    let cause = identified(*item, OCTET_STRING)?;
    match cause.content.bytes() {
        [octet] => Ok(octet % 128),
        _ => Err(MapFault::at(cause.place, MapFaultKind::WrongLength)),
    }
}

/// The first of the one to five octets of the code of a basic service.
#[tactic(auto, unfolding(crate::specs::Reading::service_code_in))]
fn read_service_code(item: &Element<'_>) -> Result<u8, MapFault>
    ensures { result ≡ service_code_in (view item.now) }
{
    let content = item.content.bytes();
    if content.len() < 1 || content.len() > 5 {
        return Err(MapFault::at(item.place, MapFaultKind::WrongLength));
    }
    Ok(content[0])
}

/// Ext-BasicServiceCode.
#[tactic(auto, unfolding(crate::specs::Reading::basic_service_in))]
pub(crate) fn read_basic_service(item: &Element<'_>) -> Result<BasicService, MapFault>
    ensures { result ≡ basic_service_in (view item.now) }
{
    if is_identified(item, EXT_BEARER_SERVICE) {
        return Ok(BasicService::Bearer(read_service_code(item)?));
    }
    if is_identified(item, EXT_TELESERVICE) {
        return Ok(BasicService::Tele(read_service_code(item)?));
    }
    Err(MapFault::at(item.place, MapFaultKind::WrongTag))
}
