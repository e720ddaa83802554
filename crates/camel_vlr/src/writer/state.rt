ghost use Rattle.std.specs.Prelude.{◌≡◌};
ghost use Rattle.camel_vlr.specs.StoreFields.{IsNew};

use crate::history::History;
use crate::history::terms::Terms;
use crate::writer::operation::Operation;
use camel_rows::Admission;
use camel_table::Seed;
use camel_tbcd::Profile;
use std::alloc::Global;
use std::collections::VecDeque;

/// What the writer of a store keeps beside its base.
#[derive(Drop)]
pub(crate) struct State {
    pub(crate) history: History,
    /// Which updates are accepted, by the published and the pending ones.
    pub(crate) admission: Admission,
    /// The updates that were accepted since the last publication was tried. Its base has those before them.
    pub(crate) pending: VecDeque<Operation, Global>,
    /// The profile of its sessions.
    pub(crate) profile: Profile,
    /// Where the pending updates are.
    pub(crate) alloc: Global,
    /// Whether the history has updates that are not published.
    pub(crate) is_ahead: bool,
    /// Whether no look holds up the next publication, as far as it is known. Only clauses read it, but it is no
    /// `Snapshot`: that a structure with one is `Send` is searched for at each call, and not found for a store.
    pub(crate) is_free: Option<bool>,
}

impl State {
    /// The state of a store that is opened with these terms, and has no updates yet. Its table has this seed.
    pub(crate) fn new(alloc: Global, history: History, terms: Terms, seed: Seed) -> State
        requires limit { history.store.limit ≡ terms.limit }
        requires profile { history.store.profile ≡ terms.profile }
        ensures { IsNew history result }
    {
        State {
            history,
            admission: Admission::seeded(alloc, terms.limit, seed),
            pending: VecDeque::new(alloc),
            profile: terms.profile,
            alloc,
            is_ahead: false,
            is_free: None,
        }
    }
}
