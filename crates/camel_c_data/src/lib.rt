//! The data of subscribers, call events and answers as a C caller has them, and what they are in the product's terms.
//!
//! Each type with a name that begins with `Camel` has the layout of a C structure of plain numbers. A C caller may
//! write any number into it, so a read checks its fields. A read that fails made nothing, and holds no memory.
#![tactic(auto)]

mod address;
mod answer;
mod basic_service;
mod counts;
mod criteria;
mod csi_lists;
mod data_fault;
mod entry_lists;
mod event;
mod first_items;
mod imsi;
mod number_criterion;
mod receipt;
mod row;
mod update;

pub use address::{CamelAddress, CamelIsdnAddress};
pub use answer::CamelAnswer;
pub use basic_service::CamelBasicService;
pub use counts::{CamelCounts, CamelDecisions};
pub use criteria::{CamelCriteria, SentEntry};
pub use csi_lists::CamelCsiLists;
pub use data_fault::DataFault;
pub use entry_lists::{CamelBasicServices, CamelCauses};
pub use event::CamelEvent;
pub use imsi::CamelImsi;
pub use number_criterion::CamelNumberCriterion;
pub use receipt::CamelReceipt;
pub use row::CamelRow;
pub use update::{CamelLists, CamelWithdrawal};
