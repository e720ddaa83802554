ghost use Rattle.std.specs.Prelude.{◌≡◌};
ghost use Rattle.csv.specs.Records.{fields_of};
ghost use Rattle.camel_script.specs.Fields.{field};

use csv::ByteRecord;

/// The field of a record at a place, from 0; empty past the last.
pub(crate) fn field(fields: &ByteRecord, at: usize) -> &[u8]
    ensures { result.now ≡ field (fields_of fields.now) at }
{
    match fields.get(at) {
        Some(text) => text,
        None => &[],
    }
}
