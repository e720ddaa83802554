use camel_audit::Entry;
use camel_vlr::Session;

/// A session between two rounds, and what it has answered.
#[derive(Drop)]
pub(crate) struct Seat {
    /// The session's number, from 0.
    pub(crate) number: u64,
    pub(crate) session: Session,
    pub(crate) entries: Vec<Entry>,
}
