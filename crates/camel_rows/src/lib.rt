//! The subscriber data of CAMEL phase 3 and the trigger rules over them (3GPP TS 23.078 and TS 29.002): what the HLR
//! sends, what is stored of it, and what is decided of a call.
#![tactic(auto)]

mod csi;
mod subscriber;
mod trigger;

pub use csi::criteria_set::{CriteriaSet, OCriteriaSet, TCriteriaSet};
pub use csi::kind::{CsiKind, Originating, VmscTerminating};
pub use csi::received::MAX_TDP_DATA;
pub use csi::tdp_row::{MAX_SERVICE_KEY, TdpRow};
pub use csi::{Csi, OCsi, VtCsi};
pub use subscriber::Subscriber;
pub use subscriber::admission::Admission;
pub use subscriber::boxed::Boxed;
pub use subscriber::csis_present::{CsisChange, CsisPresent};
pub use subscriber::laws::{inserted_csi_stands, updates_change_own_records};
pub use subscriber::lent::Lent;
pub use subscriber::records::Records;
pub use subscriber::update::{Update, Withdrawal};
pub use trigger::decision::{Decision, Reason, decide_in};
pub use trigger::event::{CallEvent, Event, TdpEvent};
pub use trigger::laws::decisions_mean;
pub use trigger::outcome::{Answer, CallAction, Outcome, on_failure};
