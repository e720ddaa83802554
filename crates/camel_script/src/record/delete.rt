ghost use Rattle.std.specs.Prelude.{◌≡◌, drop};
ghost use Rattle.csv.specs.Records.{fields_of};
ghost use Rattle.camel_reading.specs.Reading.{ReadsInto};
ghost use Rattle.camel_script.specs.Fields.{IsMemoryMistake, in_turn, numbered};
ghost use Rattle.camel_script.specs.Record.{delete_of, no_withdrawal, withdrawal_with};

use crate::mistake::{field_count, mistake_at};
use crate::record::field::field;
use crate::record::read_imsi;
use crate::{Expected, Mistake, Record, RecordFault};
use camel_rows::{Boxed, Update, Withdrawal};
use csv::ByteRecord;
use std::alloc::Global;

const DELETE: [Expected; 3] = [Expected::Word, Expected::Imsi, Expected::Withdrawal];

/// Reads a delete with what it names.
#[tactic(auto, unfolding(crate::specs::Record::delete_of))]
#[inline(never)]
pub(crate) fn parse_delete(
    alloc: Global,
    fields: &ByteRecord,
    read: &mut Record,
) -> Result<(), Mistake>
    ensures { ReadsInto IsMemoryMistake result read.new (delete_of (fields_of fields.now)) }
{
    if fields.len() < 3 {
        return Err(field_count(&DELETE, fields.len()));
    }
    let imsi = read_imsi(fields)?;
    let what = parse_withdrawal(fields)?;
    *read = Record::Update(Boxed::new(alloc, Update::Delete { imsi, what })?);
    Ok(())
}

/// Reads what a delete names, from its third field on.
fn parse_withdrawal(fields: &ByteRecord) -> Result<Withdrawal, Mistake>
    ensures { result ≡ in_turn withdrawal_with no_withdrawal (numbered 3 (drop 2 (fields_of fields.now))) }
{
    let mut what = Withdrawal {
        o: false,
        vt: false,
        everything: false,
    };
    for at in 2..fields.len() {
        what = withdraw_named(what, at + 1, field(fields, at))?;
    }
    Ok(what)
}

#[tactic(auto, unfolding(crate::specs::Record::withdrawal_with))]
fn withdraw_named(what: Withdrawal, number: usize, text: &[u8]) -> Result<Withdrawal, Mistake>
    ensures { result ≡ withdrawal_with what (number, text.now) }
{
    match text {
        b"o" => Ok(Withdrawal { o: true, ..what }),
        b"vt" => Ok(Withdrawal { vt: true, ..what }),
        b"all" => Ok(Withdrawal {
            everything: true,
            ..what
        }),
        _ => Err(mistake_at(number, 0, Expected::Withdrawal, RecordFault::Word)),
    }
}
