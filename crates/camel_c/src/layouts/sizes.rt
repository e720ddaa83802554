//! The types that the library has in common with C. `scripts/ffi` makes this file of `camel.h`.

use crate::*;
use camel_c_data::*;
use std::mem::size_of;

pub(super) const LAYOUT_COUNT: usize = 20;

/// The sizes of the types, and then of a handle.
pub(super) const LAYOUT_SIZES: [u32; LAYOUT_COUNT] = [
    size_of::<CamelReceipt>() as u32,
    size_of::<CamelImsi>() as u32,
    size_of::<CamelAddress>() as u32,
    size_of::<CamelIsdnAddress>() as u32,
    size_of::<CamelBasicService>() as u32,
    size_of::<CamelRow>() as u32,
    size_of::<CamelBasicServices>() as u32,
    size_of::<CamelCauses>() as u32,
    size_of::<CamelNumberCriterion>() as u32,
    size_of::<CamelCriteria>() as u32,
    size_of::<CamelCsiLists>() as u32,
    size_of::<CamelLists>() as u32,
    size_of::<CamelWithdrawal>() as u32,
    size_of::<CamelEvent>() as u32,
    size_of::<CamelAnswer>() as u32,
    size_of::<CamelCounts>() as u32,
    size_of::<CamelDecisions>() as u32,
    size_of::<CamelUpdateParts>() as u32,
    size_of::<CamelArgument>() as u32,
    size_of::<CamelHandle>() as u32,
];
