use camel_map::{Operation, encode};
use camel_rows::Update;
use camel_script::append_text;
use std::alloc::{AllocError, Global};

/// Appends the line of the argument that says an update, without the IMSI of a dialogue.
pub(crate) fn append_argument(
    alloc: Global,
    out: &mut Vec<u8>,
    update: &Update,
) -> Result<(), AllocError> {
    let mut octets = Vec::new(alloc);
    // No argument gives an update that no operation says.
    if let Some(operation) = encode(update, &mut octets)? {
        append_text(out, name_of(operation))?;
        append_text(out, ",,")?;
        append_text(out, hex::encode(alloc, &octets)?.as_str())?;
    }
    append_text(out, "\n")
}

/// The name of an operation in TS 29.002.
fn name_of(operation: Operation) -> &'static str {
    match operation {
        Operation::InsertSubscriberData => "insertSubscriberData",
        Operation::DeleteSubscriberData => "deleteSubscriberData",
        Operation::CancelLocation => "cancelLocation",
    }
}
