use camel_criteria::{OCriteria, TCriteria};

/// A stored entry of criteria, borrowed.
#[derive(Clone, Copy, Debug)]
pub enum Lent<'r> {
    /// An entry of the criteria of the O-CSI.
    O(&'r OCriteria),
    /// An entry of the criteria of the VT-CSI.
    T(&'r TCriteria),
}
