//! The triggering criteria of CAMEL phase 3 (3GPP TS 23.078), whether an event meets them, and the numbers of
//! the product's refusals. Most criteria take no memory: lists of more than three numbers do, and of more than two with
//! lengths; criteria of the O-CSI of other kinds than the number do, and so do copies of these.
#![tactic(auto)]

mod basic_service;
mod cause;
mod criteria;
mod criteria_entry;
mod criterion_lists;
mod detection_point;
mod entry_limits;
mod event;
mod few_numbers;
mod handling;
mod held_criteria;
mod in_place;
mod laws;
mod met;
mod number_criterion;
mod o_criteria;
mod refusal;
mod t_criteria;
mod unmet;

pub use basic_service::{BasicService, EMERGENCY_CALLS, covers};
pub use cause::{Cause, MAX_CAUSE};
pub use criteria::{CallType, MatchType};
pub use criteria_entry::{AtDetectionPoint, CriteriaEntry};
pub use detection_point::{
    BUSY, COLLECTED_INFO, NO_ANSWER, O_DETECTION_POINTS, ROUTE_SELECT_FAILURE, TERMINATING_ATTEMPT,
    VT_DETECTION_POINTS, is_among, is_o_detection_point, is_vt_detection_point,
};
pub use entry_limits::{MAX_BASIC_SERVICES, MAX_CAUSES};
pub use event::{OEvent, TEvent};
pub use handling::Handling;
pub use laws::criteria_mean;
pub use met::{o_met, t_met};
pub use number_criterion::{MAX_LENGTHS, MAX_NUMBERS, NumberCriterion};
pub use o_criteria::OCriteria;
pub use refusal::Refusal;
pub use t_criteria::TCriteria;
pub use unmet::{Criterion, o_unmet, t_unmet};
