use std::mem::size_of;

/// Which updates a store has published: all that stands in a receipt, so it may be copied.
#[repr(C)]
#[derive(Clone, Copy, Debug, PartialEq, Eq)]
pub struct CamelReceipt {
    /// The number of the store.
    pub store: u64,
    /// How many updates it has published.
    pub front: u64,
}

const _: () = prove!(size_of::<CamelReceipt>() == 16);
