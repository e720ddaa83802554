/// How the points that TS 23.078 leaves open are decided. Whoever opens a store, begins a replay or an audit, or
/// decides an event chooses a profile; it is no part of the subscriber data.
#[derive(Clone, Copy, Debug, PartialEq, Eq)]
pub enum Profile {
    /// Profile 1: the numbering plans of addresses are not compared.
    One,
    /// Profile 2: as profile 1, but the numbering plans of addresses are compared.
    Two,
}
