use crate::fault::append_fault;
use crate::input::{LineFault, dumped_of};
use camel_map::{Operation, decode};
use camel_rows::Update;
use camel_script::{append_decimal, append_text, append_update};
use csv::ByteRecord;
use std::alloc::{AllocError, Global};
use std::io::Write;

/// Appends the line of an update.
pub(crate) fn append_record(out: &mut Vec<u8>, update: &Update) -> Result<(), AllocError> {
    append_update(out, update)?;
    append_text(out, "\n")
}

/// Appends the records of a script that make the record of the line of a dump with this number: a Register and an
/// Insert. Returns false if the line gives none. Why it does not is written to `told` then.
pub(crate) fn restore_line<E: Write>(
    alloc: Global,
    number: u64,
    fields: &ByteRecord,
    script: &mut Vec<u8>,
    told: &mut E,
) -> Result<bool, AllocError> {
    let mut said = Vec::new(alloc);
    append_text(&mut said, "camel_map_check: line ")?;
    append_decimal(&mut said, number)?;
    if append_restored(alloc, fields, script, &mut said)? {
        return Ok(true);
    }
    // There is nowhere else to say it.
    let _ = told.write_all(said.as_slice());
    Ok(false)
}

/// Appends the records that restore a line, or else what is wrong with it. Returns whether it is restored.
fn append_restored(
    alloc: Global,
    fields: &ByteRecord,
    script: &mut Vec<u8>,
    said: &mut Vec<u8>,
) -> Result<bool, AllocError> {
    let dumped = match dumped_of(alloc, fields) {
        Ok(dumped) => dumped,
        Err(LineFault::Memory) => return Err(AllocError),
        Err(LineFault::Form) => {
            append_text(said, " is no IMSI,HEX\n")?;
            return Ok(false);
        }
    };
    let imsi = dumped.imsi;
    match decode(
        alloc,
        Operation::InsertSubscriberData,
        Some(imsi),
        &dumped.octets,
    ) {
        Ok(arrival) => {
            append_record(script, &Update::Register { imsi })?;
            append_record(script, &arrival.update)?;
            Ok(true)
        }
        Err(fault) => {
            append_text(said, ": ")?;
            append_fault(said, fault.into())?;
            Ok(false)
        }
    }
}
