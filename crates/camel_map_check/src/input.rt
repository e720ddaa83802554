//! The lines of the input.

use camel_map::Operation;
use camel_tbcd::Imsi;
use csv::ByteRecord;
use hex::FromHexError;
use std::alloc::Global;

/// An argument of an operation.
#[derive(Drop)]
pub(crate) struct Argument {
    pub(crate) operation: Operation,
    /// The IMSI of the dialogue, if it has one.
    pub(crate) imsi: Option<Imsi>,
    pub(crate) octets: Vec<u8>,
    /// The octets of the arguments of further operations.
    pub(crate) more: Vec<Vec<u8>>,
}

/// A record of a dump.
#[derive(Drop)]
pub(crate) struct Dumped {
    pub(crate) imsi: Imsi,
    /// The octets of the argument of the Insert that makes it.
    pub(crate) octets: Vec<u8>,
}

/// Why a line gives no argument, or no record of a dump.
#[derive(Clone, Copy)]
pub(crate) enum LineFault {
    /// It is no `OPERATION,IMSI,HEX`, or in a dump no `IMSI,HEX`.
    Form,
    Memory,
}

/// The argument that a line gives.
pub(crate) fn argument_of(alloc: Global, fields: &ByteRecord) -> Result<Argument, LineFault> {
    if fields.len() < 3 {
        return Err(LineFault::Form);
    }
    let mut more = Vec::new(alloc);
    for at in 3..fields.len() {
        let octets = octets_of(alloc, field_of(fields, at))?;
        if more.push(octets).is_err() {
            return Err(LineFault::Memory);
        }
    }
    Ok(Argument {
        operation: operation_of(field_of(fields, 0))?,
        imsi: imsi_of(field_of(fields, 1))?,
        octets: octets_of(alloc, field_of(fields, 2))?,
        more,
    })
}

/// The record that a line of a dump gives.
pub(crate) fn dumped_of(alloc: Global, fields: &ByteRecord) -> Result<Dumped, LineFault> {
    match imsi_of(field_of(fields, 0))? {
        Some(imsi) if fields.len() == 2 => Ok(Dumped {
            imsi,
            octets: octets_of(alloc, field_of(fields, 1))?,
        }),
        _ => Err(LineFault::Form),
    }
}

/// The field at a place, from 0; one that is not there is empty.
fn field_of(fields: &ByteRecord, at: usize) -> &[u8] {
    fields.get(at).unwrap_or(&[])
}

/// The operation of this name.
fn operation_of(name: &[u8]) -> Result<Operation, LineFault> {
    match name {
        b"insertSubscriberData" => Ok(Operation::InsertSubscriberData),
        b"deleteSubscriberData" => Ok(Operation::DeleteSubscriberData),
        b"cancelLocation" => Ok(Operation::CancelLocation),
        _ => Err(LineFault::Form),
    }
}

/// The IMSI of these digits, or none if there are none.
fn imsi_of(digits: &[u8]) -> Result<Option<Imsi>, LineFault> {
    if digits.is_empty() {
        return Ok(None);
    }
    match Imsi::from_ascii(digits) {
        Ok(imsi) => Ok(Some(imsi)),
        Err(_) => Err(LineFault::Form),
    }
}

/// The octets that hexadecimal digits are.
fn octets_of(alloc: Global, digits: &[u8]) -> Result<Vec<u8>, LineFault> {
    match hex::decode(alloc, digits) {
        Ok(octets) => Ok(octets),
        Err(FromHexError::OutOfMemory) => Err(LineFault::Memory),
        Err(_) => Err(LineFault::Form),
    }
}
