use camel_criteria::Refusal;
use camel_map::{JoinFault, MapFault, MapFaultKind};

/// What the HLR is answered about what is not carried out (TS 29.002, ITU-T Q.773).
#[derive(Clone, Copy, Debug, PartialEq, Eq)]
pub enum MapError {
    /// The user error unidentifiedSubscriber (5).
    UnidentifiedSubscriber,
    /// The user error dataMissing (35).
    DataMissing,
    /// The user error unexpectedDataValue (36).
    UnexpectedDataValue,
    /// A reject, mistypedParameter: the octets are not as TS 29.002 has them.
    MistypedParameter,
    /// A reject, resourceLimitation: what failed is no fault of the data.
    ResourceLimitation,
}

impl From<Refusal> for MapError {
    fn from(refusal: Refusal) -> MapError {
        match refusal {
            Refusal::UnidentifiedSubscriber => MapError::UnidentifiedSubscriber,
            Refusal::DataMissing => MapError::DataMissing,
            Refusal::UnexpectedDataValue => MapError::UnexpectedDataValue,
            Refusal::HistoryFull | Refusal::OutOfMemory | Refusal::NoPlace | Refusal::NoGuard => {
                MapError::ResourceLimitation
            }
        }
    }
}

impl From<MapFault> for MapError {
    fn from(fault: MapFault) -> MapError {
        match fault.kind {
            MapFaultKind::Refused(refusal) => refusal.into(),
            MapFaultKind::OtherImsi => MapError::UnexpectedDataValue,
            _ => MapError::MistypedParameter,
        }
    }
}

impl From<JoinFault> for MapError {
    fn from(fault: JoinFault) -> MapError {
        match fault {
            JoinFault::Refused(refusal) => refusal.into(),
            JoinFault::OtherSubscriber => MapError::UnexpectedDataValue,
            JoinFault::NoInsert => MapError::ResourceLimitation,
        }
    }
}
