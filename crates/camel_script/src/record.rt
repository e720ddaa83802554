//! The records of a script.

ghost use Rattle.std.specs.Prelude.{◌≡◌, ◌⊎◌, Err, IfErr, Ok, OnOk};
ghost use Rattle.csv.specs.Records.{fields_of};
ghost use Rattle.camel_reading.specs.Reading.{ReadsInto};
ghost use Rattle.camel_script.specs.Fields.{IsMemoryMistake};
ghost use Rattle.camel_script.specs.Record.{cancel_of, clear_of, imsi_alone_of, imsi_of, kind_of_word, publish_of};
ghost use Rattle.camel_script.specs.Record.{reading_of, record_of, register_of};
ghost use Rattle.camel_script.specs.Script.{IsRecordFault};

pub(crate) mod call;
pub(crate) mod delete;
pub(crate) mod field;
pub(crate) mod insert;
pub(crate) mod refused_item;

use crate::mistake::{at_field, check_fields};
use crate::record::call::parse_call;
use crate::record::delete::parse_delete;
use crate::record::field::field;
use crate::record::insert::parse_insert;
use crate::text::parse_imsi;
use crate::{Expected, Mistake, RecordFault, ScriptFault};
use camel_criteria::Refusal;
use camel_rows::{Boxed, CallEvent, Update};
use camel_tbcd::Imsi;
use csv::ByteRecord;
use std::alloc::Global;

/// A record of a script.
///
/// An update is large, so it lies in a block of its own: a list of records takes the room of calls. A record is read
/// into its place, and not moved there.
#[derive(Debug, Drop)]
pub enum Record {
    /// An update of the subscriber data.
    Update(Boxed<Update>),
    /// The pending updates are published.
    Publish,
    /// A call at a trigger detection point.
    Call(CallEvent),
    /// A record whose texts can be read and whose data are refused, with `DataMissing` (35) or
    /// `UnexpectedDataValue` (36).
    Refused(Refusal),
}

/// The kinds of record, each with a word of its own.
#[derive(Clone, Copy)]
pub(crate) enum RecordKind {
    Register,
    Insert,
    Delete,
    Cancel,
    Clear,
    Publish,
    Call,
}

const WORD: [Expected; 1] = [Expected::Word];

pub(crate) const WORD_AND_IMSI: [Expected; 2] = [Expected::Word, Expected::Imsi];

/// Reads the record that the fields of a CSV record stand for into its place, in the form that docs/SCRIPT.md states. A
/// record whose texts can be read and whose data are refused is read as [`Record::Refused`].
///
/// It takes time in proportion to the octets of the record. An update takes a block of memory of its own, and so may
/// the lists of an insert. Fails with the first fault of the texts, in the order of checks of docs/SCRIPT.md, or out of
/// memory; no clause says what the place holds then.
#[tactic(auto, unfolding(crate::specs::Record::record_of))]
pub fn parse_record(
    alloc: Global,
    fields: &ByteRecord,
    read: &mut Record,
) -> Result<(), ScriptFault>
    ensures record { OnOk result (record_of (fields_of fields.now) ≡ Ok read.new) }
    ensures fault { IfErr result (λ fault.
        (fault ≡ ScriptFault.OutOfMemory) ⊎ (record_of (fields_of fields.now) ≡ Err fault)) }
    ensures of_record { IfErr result IsRecordFault }
{
    if let Err(mistake) = parse_fields(alloc, fields, read) {
        *read = mistake.into_record()?;
    }
    Ok(())
}

/// Reads the record as [`parse_record`] does, and fails also if its data are refused: with its first mistake, which
/// [`Mistake::into_record`] makes what `parse_record` gives, or out of memory. No clause says what the place holds
/// then.
#[tactic(auto, unfolding(crate::specs::Record::reading_of))]
pub fn parse_fields(alloc: Global, fields: &ByteRecord, read: &mut Record) -> Result<(), Mistake>
    ensures { ReadsInto IsMemoryMistake result read.new (reading_of (fields_of fields.now)) }
{
    match at_field(1, Expected::Word, parse_kind(field(fields, 0)))? {
        RecordKind::Register => parse_register(alloc, fields, read),
        RecordKind::Insert => parse_insert(alloc, fields, read),
        RecordKind::Delete => parse_delete(alloc, fields, read),
        RecordKind::Cancel => parse_cancel(alloc, fields, read),
        RecordKind::Clear => parse_clear(alloc, fields, read),
        RecordKind::Publish => parse_publish(fields, read),
        RecordKind::Call => parse_call(alloc, fields, read),
    }
}

/// Reads the word of a record.
#[tactic(auto, unfolding(crate::specs::Record::kind_of_word))]
fn parse_kind(word: &[u8]) -> Result<RecordKind, RecordFault>
    ensures { result ≡ kind_of_word word.now }
{
    match word {
        b"register" => Ok(RecordKind::Register),
        b"insert" => Ok(RecordKind::Insert),
        b"delete" => Ok(RecordKind::Delete),
        b"cancel" => Ok(RecordKind::Cancel),
        b"clear" => Ok(RecordKind::Clear),
        b"publish" => Ok(RecordKind::Publish),
        b"call" => Ok(RecordKind::Call),
        _ => Err(RecordFault::Word),
    }
}

/// Reads the IMSI of an update, its second field.
pub(crate) fn read_imsi(fields: &ByteRecord) -> Result<Imsi, Mistake>
    ensures { result ≡ imsi_of (fields_of fields.now) }
{
    at_field(2, Expected::Imsi, parse_imsi(field(fields, 1)))
}

/// Reads the IMSI of a record that has only a word and an IMSI.
#[tactic(auto, unfolding(crate::specs::Record::imsi_alone_of))]
fn parse_imsi_alone(fields: &ByteRecord) -> Result<Imsi, Mistake>
    ensures { result ≡ imsi_alone_of (fields_of fields.now) }
{
    check_fields(&WORD_AND_IMSI, fields)?;
    read_imsi(fields)
}

#[inline(never)]
fn parse_register(alloc: Global, fields: &ByteRecord, read: &mut Record) -> Result<(), Mistake>
    ensures { ReadsInto IsMemoryMistake result read.new (register_of (fields_of fields.now)) }
{
    let imsi = parse_imsi_alone(fields)?;
    *read = Record::Update(Boxed::new(alloc, Update::Register { imsi })?);
    Ok(())
}

#[inline(never)]
fn parse_cancel(alloc: Global, fields: &ByteRecord, read: &mut Record) -> Result<(), Mistake>
    ensures { ReadsInto IsMemoryMistake result read.new (cancel_of (fields_of fields.now)) }
{
    let imsi = parse_imsi_alone(fields)?;
    *read = Record::Update(Boxed::new(alloc, Update::Cancel { imsi })?);
    Ok(())
}

#[inline(never)]
#[tactic(auto, unfolding(crate::specs::Record::word_alone_of))]
fn parse_clear(alloc: Global, fields: &ByteRecord, read: &mut Record) -> Result<(), Mistake>
    ensures { ReadsInto IsMemoryMistake result read.new (clear_of (fields_of fields.now)) }
{
    check_fields(&WORD, fields)?;
    *read = Record::Update(Boxed::new(alloc, Update::ClearAll)?);
    Ok(())
}

#[inline(never)]
#[tactic(auto, unfolding(crate::specs::Record::word_alone_of))]
fn parse_publish(fields: &ByteRecord, read: &mut Record) -> Result<(), Mistake>
    ensures { ReadsInto IsMemoryMistake result read.new (publish_of (fields_of fields.now)) }
{
    check_fields(&WORD, fields)?;
    *read = Record::Publish;
    Ok(())
}
