use crate::map_error::MapError;
use camel_criteria::Refusal;
use camel_map::{Arrival, Operation, decode};
use camel_rows::Update;
use camel_tbcd::Imsi;
use std::alloc::Global;

/// What the HLR sends, by the IMSI of its dialogue and the octets of arguments, each as it comes in a TCAP invoke.
#[derive(Drop)]
pub enum Change {
    /// A location update: all its updates are accepted, or none is.
    LocationUpdate(Vec<Update>),
    /// Any other operation.
    One(Update),
}

impl Change {
    /// What a location update brings: a Register, which empties the record, and behind it each InsertSubscriberData of
    /// the dialogue, joined to one Insert. So nothing else stays. A switch keeps the `capabilities` of the joined one.
    pub fn location_update(
        alloc: Global,
        imsi: Imsi,
        arguments: &[&[u8]],
    ) -> Result<Change, MapError> {
        let mut updates = vec![in alloc; Update::Register { imsi }].map_err(Refusal::from)?;
        let mut joined: Option<Arrival> = None;
        for octets in arguments {
            let next = decode(alloc, Operation::InsertSubscriberData, Some(imsi), octets)?;
            joined = match &joined {
                Some(before) => Some(before.join(alloc, &next)?),
                None => Some(next),
            };
        }
        if let Some(insert) = joined {
            updates.push(insert.update).map_err(Refusal::from)?;
        }
        Ok(Change::LocationUpdate(updates))
    }

    /// What an operation brings outside of a location update.
    pub fn from_map(
        alloc: Global,
        operation: Operation,
        imsi: Imsi,
        argument: &[u8],
    ) -> Result<Change, MapError> {
        Ok(Change::One(decode(alloc, operation, Some(imsi), argument)?.update))
    }
}
