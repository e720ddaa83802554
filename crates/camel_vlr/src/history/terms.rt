use camel_tbcd::Profile;

/// What a store is opened with, and keeps for its life.
#[derive(Clone, Copy)]
pub(crate) struct Terms {
    /// The most updates that it takes.
    pub limit: u64,
    /// The profile under which its sessions decide.
    pub profile: Profile,
}

/// The terms of a link that begins no history.
pub(crate) const NO_TERMS: Terms = Terms {
    limit: 0,
    profile: Profile::One,
};
