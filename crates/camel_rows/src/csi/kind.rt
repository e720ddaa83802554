use camel_criteria::{CriteriaEntry, OCriteria, TCriteria};

/// A kind of CSI (TS 23.078). The entries of its criteria say which detection points are tested against it. It is a
/// type of its own, since a CSI is copied and an entry is not.
pub trait CsiKind: Copy + Drop {
    /// An entry of its criteria.
    type Entry: CriteriaEntry;
}

/// The kind of the O-CSI: originating calls, and those that are forwarded.
#[derive(Clone, Copy, Debug)]
pub struct Originating;

/// The kind of the VT-CSI: calls that terminate at this VMSC.
#[derive(Clone, Copy, Debug)]
pub struct VmscTerminating;

impl CsiKind for Originating {
    type Entry = OCriteria;
}

impl CsiKind for VmscTerminating {
    type Entry = TCriteria;
}
