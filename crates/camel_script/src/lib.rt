//! Scripts of subscriber data updates and calls, read record by record, and the lines that answer them.
#![tactic(auto)]

mod append;
mod item;
mod laws;
mod line;
mod mistake;
mod record;
mod record_text;
mod script;
mod script_fault;
mod text;

pub use append::{append_decimal, append_text};
pub use laws::refused_list_names_item;
pub use line::{Line, push_line};
pub use mistake::{Expected, Mistake};
pub use record::{Record, parse_fields, parse_record};
pub use record_text::append_update;
pub use script::Script;
pub use script_fault::ScriptFault;
pub use text::record_fault::RecordFault;
pub use text::{
    MAX_DECIMAL_DIGITS, is_octets, parse_basic_service, parse_decimal, parse_match_type,
    parse_small_decimal,
};
