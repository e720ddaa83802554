/// Whether a destination number criterion asks that a number is listed or that none is: MatchType of
/// TS 29.002.
#[derive(Clone, Copy, Debug, PartialEq, Eq)]
pub enum MatchType {
    /// The criterion is met if the destination is not listed.
    Inhibiting,
    /// The criterion is met if the destination is listed.
    Enabling,
}

/// Which calls a call type criterion asks for: CallTypeCriteria of TS 29.002.
#[derive(Clone, Copy, Debug, PartialEq, Eq)]
pub enum CallType {
    /// Forwarded calls.
    Forwarded,
    /// Calls that are not forwarded.
    NotForwarded,
}
