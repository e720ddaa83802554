//! Subscribers, updates and calls that tests are made of, and what tests compare of the data that are borrowed from a
//! store.
#![tactic(auto)]

mod calls;
mod summaries;
mod updates;

pub use calls::{DESTINATION, TELEPHONY, call_of, imsi_of, number_of};
pub use summaries::{
    ARMED, EntrySummary, LISTED, ListedNumbers, RowSummary, StoredSummary, entry_summary,
    row_summary, stored_summary,
};
pub use updates::{O_ALONE, SCF, criteria_update, row_of, row_update, triggered};
