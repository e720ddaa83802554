//! Where a record has its first mistake.

ghost use Rattle.std.specs.Prelude.{◌≡◌, ◌≢◌, Err, IfErr, IfOk, IsErrAnd, Ok, OnOk, length};
ghost use Rattle.csv.specs.Records.{fields_of};
ghost use Rattle.camel_script.specs.Fields.{at_field, at_part, expected_behind, field_count, mistake_at, part_count};
ghost use Rattle.camel_script.specs.Fields.{record_fault_of};
ghost use Rattle.camel_script.specs.Record.{refused_or_fault};

use crate::{Record, RecordFault, ScriptFault};
use camel_criteria::Refusal;
use csv::ByteRecord;
use std::alloc::{AllocError, AllocFailed};

/// The texts of a record, by the names of docs/SCRIPT.md.
#[derive(Clone, Copy, Debug, PartialEq, Eq)]
pub enum Expected {
    /// The word, the first field.
    Word,
    /// IMSI.
    Imsi,
    /// WHAT of a delete.
    Withdrawal,
    /// DP of a call.
    CallDetectionPoint,
    /// BASIC of a call.
    BasicService,
    /// DEST.
    Destination,
    /// TYPE of a call.
    Forwarded,
    /// CAUSE of a call.
    Cause,
    /// The name of an item.
    ItemName,
    /// DP of an item.
    DetectionPoint,
    /// KEY.
    ServiceKey,
    /// SCF.
    GsmScfAddress,
    /// HANDLING.
    Handling,
    /// NUMBER.
    NumberCriterion,
    /// BASICS.
    BasicServices,
    /// TYPE of an item.
    ItemCallType,
    /// CAUSES.
    Causes,
    /// No text: one field or part too many stands there.
    Nothing,
}

impl Expected {
    /// The words of which one has to stand there; none if other texts may stand there too.
    pub fn words(self) -> &'static [&'static str] {
        match self {
            Expected::Word => &[
                "register", "insert", "delete", "cancel", "clear", "publish", "call",
            ],
            Expected::Withdrawal => &["o", "vt", "all"],
            Expected::CallDetectionPoint => &["2", "4", "12", "13", "14"],
            Expected::Forwarded | Expected::ItemCallType => &["f", "n"],
            Expected::ItemName => &["o", "oc", "t", "tc"],
            _ => &[],
        }
    }
}

/// Where a record has its first mistake: the place of the first check that fails, in the order of checks of
/// docs/SCRIPT.md.
#[derive(Clone, Copy, Debug, PartialEq, Eq)]
pub struct Mistake {
    /// The number of the field, from 1. It is one more than there are fields if one is missing.
    pub field: usize,
    /// The number of the part of an item, from 1; the name of the item is part 1. It is 0 if the mistake is that of a
    /// whole field, and one more than there are parts if one is missing.
    pub part: usize,
    /// The text that is expected there.
    pub expected: Expected,
    /// Which check fails: a fault of the text, or the refusal of the data. If memory was refused it is `OutOfMemory`,
    /// and the others say nothing.
    pub fault: RecordFault,
}

impl Mistake {
    /// What a script has in the place of a record with this mistake: the record of its refusal, with `DataMissing` (35)
    /// or `UnexpectedDataValue` (36), if only its data are refused, and else the fault that ends the script.
    pub fn into_record(self) -> Result<Record, ScriptFault>
        ensures { result ≡ refused_or_fault self.fault }
    {
        match self.fault {
            RecordFault::Refused(refusal) => Ok(Record::Refused(refusal)),
            RecordFault::OutOfMemory => Err(ScriptFault::OutOfMemory),
            RecordFault::Word => Err(ScriptFault::Word),
            RecordFault::FieldCount => Err(ScriptFault::FieldCount),
            RecordFault::Hexadecimal => Err(ScriptFault::Hexadecimal),
            RecordFault::Number => Err(ScriptFault::Number),
        }
    }
}

impl From<AllocError> for Mistake {
    ghost use Rattle.std.specs.Prelude.{◌≡◌};
    ghost use Rattle.camel_script.specs.declared.text.record_fault.RecordFault.{RecordFault};

    ghost from_gives = { λ _ mistake. mistake.fault ≡ RecordFault.OutOfMemory };

    fn from(_error: AllocError) -> Mistake {
        mistake_at(0, 0, Expected::Nothing, RecordFault::OutOfMemory)
    }
}

impl<T: Drop> From<AllocFailed<T>> for Mistake {
    ghost use Rattle.std.specs.Prelude.{◌≡◌};
    ghost use Rattle.camel_script.specs.declared.text.record_fault.RecordFault.{RecordFault};

    ghost from_gives = { λ _ mistake. mistake.fault ≡ RecordFault.OutOfMemory };

    fn from(_error: AllocFailed<T>) -> Mistake {
        mistake_at(0, 0, Expected::Nothing, RecordFault::OutOfMemory)
    }
}

/// A mistake in the part of an item, or in a whole field if the part is 0.
pub(crate) fn mistake_at(
    field: usize,
    part: usize,
    expected: Expected,
    fault: RecordFault,
) -> Mistake
    ensures { result ≡ mistake_at field part expected fault }
{
    Mistake {
        field,
        part,
        expected,
        fault,
    }
}

/// What a check of a part of an item reads, whose fault is a mistake there.
pub(crate) fn at_part<T: Drop>(
    field: usize,
    part: usize,
    expected: Expected,
    reading: Result<T, RecordFault>,
) -> Result<T, Mistake>
    ensures part { result ≡ at_part field part expected reading }
    ensures read { IfOk result (λ value. reading ≡ Ok value) }
    ensures fails { IfErr result (λ mistake. (reading ≡ Err mistake.fault)
        × (mistake ≡ mistake_at field part expected mistake.fault)) }
{
    match reading {
        Ok(value) => Ok(value),
        Err(fault) => Err(mistake_at(field, part, expected, fault)),
    }
}

/// What a check of a whole field reads, whose fault is a mistake there.
pub(crate) fn at_field<T: Drop>(
    field: usize,
    expected: Expected,
    reading: Result<T, RecordFault>,
) -> Result<T, Mistake>
    ensures field { result ≡ at_field field expected reading }
    ensures read { IfOk result (λ value. reading ≡ Ok value) }
    ensures fails { IfErr result (λ mistake. (reading ≡ Err mistake.fault)
        × (mistake ≡ mistake_at field 0 expected mistake.fault)) }
{
    at_part(field, 0, expected, reading)
}

/// What a part of an item makes, whose refusal is a mistake there.
pub(crate) fn refused_at<T: Drop>(
    field: usize,
    part: usize,
    expected: Expected,
    made: Result<T, Refusal>,
) -> Result<T, Mistake>
    ensures made { IfOk result (λ value. made ≡ Ok value) }
    ensures fails { IfErr result (λ mistake. IsErrAnd made (λ refusal.
        mistake ≡ mistake_at field part expected (record_fault_of refusal))) }
{
    match made {
        Ok(value) => Ok(value),
        Err(refusal) => Err(mistake_at(field, part, expected, refusal.into())),
    }
}

/// The text that is expected behind so many.
fn expected_behind(texts: &[Expected], count: usize) -> Expected
    ensures { result ≡ expected_behind texts.now count }
{
    texts.get(count).copied().unwrap_or(Expected::Nothing)
}

/// The mistake of a record of so many fields, which are too few or too many: the first that is missing, or the one
/// behind the last that is expected.
pub(crate) fn field_count(texts: &[Expected], count: usize) -> Mistake
    ensures { result ≡ field_count texts.now count }
{
    let present = count.min(texts.len());
    let expected = expected_behind(texts, present);
    mistake_at(present + 1, 0, expected, RecordFault::FieldCount)
}

/// The mistake of an item of so many parts, which are too few or too many.
pub(crate) fn part_count(field: usize, texts: &[Expected], count: usize) -> Mistake
    ensures { result ≡ part_count field texts.now count }
{
    let present = count.min(texts.len());
    let expected = expected_behind(texts, present);
    mistake_at(field, present + 1, expected, RecordFault::FieldCount)
}

/// Counts the fields of a record, of which these are expected.
pub(crate) fn check_fields(texts: &[Expected], fields: &ByteRecord) -> Result<(), Mistake>
    ensures counted { OnOk result (length (fields_of fields.now) ≡ length texts.now) }
    ensures fails { IfErr result (λ mistake. (length (fields_of fields.now) ≢ length texts.now)
        × (mistake ≡ field_count texts.now (length (fields_of fields.now)))) }
{
    if fields.len() != texts.len() {
        return Err(field_count(texts, fields.len()));
    }
    Ok(())
}
