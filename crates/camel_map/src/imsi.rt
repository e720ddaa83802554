//! The IMSI that an argument concerns.

ghost use Rattle.std.specs.Prelude.{◌≡◌};
ghost use Rattle.std.specs.Option.{option_map};
ghost use Rattle.camel_ber.specs.Elements.{view};
ghost use Rattle.camel_map.specs.Reading.{imsi_in, imsi_or_of_dialogue, own_imsi};

use crate::value::refused_at;
use crate::{MapFault, MapFaultKind};
use camel_ber::Element;
use camel_tbcd::Imsi;

/// The IMSI of TBCD octets.
#[tactic(auto, unfolding(crate::specs::Reading::imsi_in))]
fn read_imsi(element: &Element<'_>) -> Result<Imsi, MapFault>
    ensures { result ≡ imsi_in (view element.now) }
{
    match Imsi::from_tbcd(element.content.bytes()) {
        Ok(imsi) => Ok(imsi),
        Err(_) => Err(refused_at(element.place)),
    }
}

/// The IMSI of an element, which is that of the dialogue if the dialogue has one.
#[tactic(auto, unfolding(crate::specs::Reading::own_imsi))]
pub(crate) fn read_own_imsi(
    dialogue_imsi: Option<Imsi>,
    element: &Element<'_>,
) -> Result<Imsi, MapFault>
    ensures { result ≡ own_imsi dialogue_imsi (view element.now) }
{
    let Some(dialogue) = dialogue_imsi else {
        return read_imsi(element);
    };
    let imsi = read_imsi(element)?;
    if imsi == dialogue {
        return Ok(imsi);
    }
    Err(MapFault::at(element.place, MapFaultKind::OtherImsi))
}

/// The IMSI of an argument that may leave it to the dialogue.
#[tactic(auto, unfolding(crate::specs::Reading::imsi_or_of_dialogue))]
pub(crate) fn read_imsi_or_of_dialogue(
    argument: &Element<'_>,
    dialogue_imsi: Option<Imsi>,
    field: Option<Element<'_>>,
) -> Result<Imsi, MapFault>
    ensures { result ≡ imsi_or_of_dialogue (view argument.now) dialogue_imsi (option_map view field.entry) }
{
    match (field, dialogue_imsi) {
        (Some(field), dialogue_imsi) => read_own_imsi(dialogue_imsi, &field),
        (None, Some(imsi)) => Ok(imsi),
        (None, None) => Err(MapFault::at(argument.place, MapFaultKind::NoImsi)),
    }
}
