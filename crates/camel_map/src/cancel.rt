//! CancelLocationArg.

ghost use Rattle.camel_ber.specs.Elements.{view};
ghost use Rattle.camel_map.specs.Reading.{IsMemory};
ghost use Rattle.camel_reading.specs.Reading.{ReadsAs};
ghost use Rattle.camel_map.specs.Update.{cancel_in, cancelled_in, first_identity_in, identity_in, imsi_of_pair};

use crate::field::{identified, is_identified};
use crate::imsi::read_own_imsi;
use crate::map_fault::MapFault;
use crate::reading::read_elements;
use crate::row::first_of;
use crate::tag::{CANCEL_LOCATION_ARG, OCTET_STRING, SEQUENCE};
use camel_ber::Element;
use camel_rows::Update;
use camel_tbcd::Imsi;
use std::alloc::Global;

/// The IMSI of a SEQUENCE of an IMSI and an LMSI.
#[tactic(auto, unfolding(crate::specs::Update::imsi_of_pair))]
fn read_pair(
    alloc: Global,
    dialogue_imsi: Option<Imsi>,
    pair: &Element<'_>,
) -> Result<Imsi, MapFault>
    ensures { ReadsAs IsMemory result (imsi_of_pair dialogue_imsi (view pair.now)) }
{
    let elements = read_elements(alloc, pair.content)?;
    let imsi = identified(first_of(pair, &elements)?, OCTET_STRING)?;
    read_own_imsi(dialogue_imsi, &imsi)
}

/// Identity: an IMSI, or one with an LMSI.
#[tactic(auto, unfolding(crate::specs::Update::identity_in))]
fn read_identity(
    alloc: Global,
    dialogue_imsi: Option<Imsi>,
    identity: &Element<'_>,
) -> Result<Imsi, MapFault>
    ensures { ReadsAs IsMemory result (identity_in dialogue_imsi (view identity.now)) }
{
    if is_identified(identity, SEQUENCE) {
        return read_pair(alloc, dialogue_imsi, identity);
    }
    let imsi = identified(*identity, OCTET_STRING)?;
    read_own_imsi(dialogue_imsi, &imsi)
}

/// The identity that is the first element of an argument.
#[tactic(auto, unfolding(crate::specs::Update::first_identity_in))]
fn read_first_identity(
    alloc: Global,
    dialogue_imsi: Option<Imsi>,
    argument: &Element<'_>,
) -> Result<Imsi, MapFault>
    ensures { ReadsAs IsMemory result (first_identity_in dialogue_imsi (view argument.now)) }
{
    let elements = read_elements(alloc, argument.content)?;
    let identity = first_of(argument, &elements)?;
    read_identity(alloc, dialogue_imsi, &identity)
}

/// The IMSI of an argument of any version of the operation.
#[tactic(auto, unfolding(crate::specs::Update::cancelled_in))]
fn read_cancelled(
    alloc: Global,
    dialogue_imsi: Option<Imsi>,
    argument: &Element<'_>,
) -> Result<Imsi, MapFault>
    ensures { ReadsAs IsMemory result (cancelled_in dialogue_imsi (view argument.now)) }
{
    if is_identified(argument, CANCEL_LOCATION_ARG) {
        read_first_identity(alloc, dialogue_imsi, argument)
    } else {
        read_identity(alloc, dialogue_imsi, argument)
    }
}

/// The Cancel that an argument is.
#[tactic(auto, unfolding(crate::specs::Update::cancel_in))]
pub(crate) fn read_cancel(
    alloc: Global,
    dialogue_imsi: Option<Imsi>,
    argument: &Element<'_>,
) -> Result<Update, MapFault>
    ensures { ReadsAs IsMemory result (cancel_in dialogue_imsi (view argument.now)) }
{
    Ok(Update::Cancel {
        imsi: read_cancelled(alloc, dialogue_imsi, argument)?,
    })
}
