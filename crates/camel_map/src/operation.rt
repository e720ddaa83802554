ghost use Rattle.std.specs.Prelude.{◌≡◌};
ghost use Rattle.camel_map.specs.Update.{operation_code, operation_of};

/// An operation of MAP by which an HLR changes subscriber data.
#[derive(Clone, Copy, Debug, PartialEq, Eq)]
pub enum Operation {
    /// The HLR sends subscriber data.
    InsertSubscriberData,
    /// The HLR withdraws subscriber data.
    DeleteSubscriberData,
    /// The HLR ends the registration of a subscriber.
    CancelLocation,
}

impl Operation {
    /// The operation of a local code of TS 29.002: 3 is cancelLocation, 7 insertSubscriberData, and 8
    /// deleteSubscriberData. None for any other.
    pub fn of_code(code: u8) -> Option<Operation>
        ensures { result ≡ operation_of code }
    {
        match code {
            3 => Some(Operation::CancelLocation),
            7 => Some(Operation::InsertSubscriberData),
            8 => Some(Operation::DeleteSubscriberData),
            _ => None,
        }
    }

    /// Its local code.
    pub fn code(&self) -> u8
        ensures { result ≡ operation_code self.now }
    {
        match self {
            Operation::CancelLocation => 3,
            Operation::InsertSubscriberData => 7,
            Operation::DeleteSubscriberData => 8,
        }
    }
}
