use crate::{BasicService, Cause};
use camel_tbcd::Address;

/// What a call shows to the criteria of the O-CSI.
#[derive(Clone, Copy, Debug)]
pub struct OEvent<'a> {
    /// The destination of the call.
    pub destination: Address<'a>,
    /// Its basic service.
    pub basic: BasicService,
    /// Whether it is a forwarded call.
    pub forwarded: bool,
    /// The cause of its release, at a detection point that has one.
    pub cause: Option<Cause>,
}

/// What a call shows to the criteria of the VT-CSI.
#[derive(Clone, Copy, Debug)]
pub struct TEvent {
    /// Its basic service.
    pub basic: BasicService,
    /// The cause of its release, at a detection point that has one.
    pub cause: Option<Cause>,
}
