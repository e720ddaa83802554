//! The sentence of a mistake in a record.

mod data;
mod texts;

use crate::mistakes::data::say_refused;
use crate::mistakes::texts::{name_of, say_unreadable};
use crate::shown::Shown;
use camel_script::{Expected, Mistake, RecordFault, parse_decimal};
use csv::ByteRecord;
use std::alloc::AllocError;

/// The number of the field before the first item of an insert.
const FIELDS_BEFORE_ITEMS: usize = 2;

/// Appends where a record has a mistake, and what is wrong there.
pub(crate) fn say_mistake(
    out: &mut String,
    fields: &ByteRecord,
    mistake: &Mistake,
) -> Result<(), AllocError> {
    let field = fields.get(mistake.field.saturating_sub(1));
    let text = match field {
        Some(item) if mistake.part > 0 => item.split(|octet| *octet == b':').nth(mistake.part - 1),
        field => field,
    };
    if mistake.part > 0 {
        write!(
            out,
            "item {}",
            mistake.field.saturating_sub(FIELDS_BEFORE_ITEMS)
        )?;
    }
    match text {
        None => say_missing(out, mistake),
        Some(text) if mistake.expected == Expected::Nothing => say_too_many(out, mistake, text),
        Some(text) => {
            if mistake.part > 0 {
                write!(out, ", ")?;
            }
            say_wrong(out, fields, mistake, text)
        }
    }
}

fn say_missing(out: &mut String, mistake: &Mistake) -> Result<(), AllocError> {
    let name = name_of(mistake.expected);
    if mistake.part > 0 {
        write!(out, ", part {}: {name} is missing", mistake.part)
    } else {
        write!(out, "field {}: {name} is missing", mistake.field)
    }
}

/// Appends that a field or a part stands where none is expected.
fn say_too_many(out: &mut String, mistake: &Mistake, text: &[u8]) -> Result<(), AllocError> {
    let text = Shown(text);
    let (name, number) = if mistake.part > 0 {
        write!(out, ", ")?;
        ("part", mistake.part)
    } else {
        ("field", mistake.field)
    };
    let last = number.saturating_sub(1);
    write!(
        out,
        "{name} {number} \"{text}\": {name} {last} is the last that is expected"
    )
}

/// Appends the name of a text, the text, and what is wrong with it. A text that can't be read stands in quotes.
fn say_wrong(
    out: &mut String,
    fields: &ByteRecord,
    mistake: &Mistake,
    text: &[u8],
) -> Result<(), AllocError> {
    if mistake.expected == Expected::Withdrawal {
        write!(out, "field {}, ", mistake.field)?;
    }
    write!(out, "{} ", name_of(mistake.expected))?;
    match mistake.fault {
        RecordFault::Refused(refusal) => {
            say_data(out, text)?;
            say_refused(out, fields, mistake, refusal, text)
        }
        _ => {
            write!(out, "\"{}\": ", Shown(text))?;
            say_unreadable(out, mistake.expected, text)
        }
    }
}

/// Appends a text that was read, which stands in quotes only if it is empty.
fn say_data(out: &mut String, text: &[u8]) -> Result<(), AllocError> {
    if text.is_empty() {
        write!(out, "\"\": ")
    } else {
        write!(out, "{}: ", Shown(text))
    }
}

/// What an address is made of, for a user who wrote plain digits.
pub(crate) const ADDRESS_FORM: &str =
    "an address has an octet of nature and plan, then its digits in swapped pairs: +4912345 is 91942143f5";

/// Whether an address looks like the digits that are dialled: bit 8 of the first octet is clear, which is set in an
/// AddressString of TS 29.002 without an extension, or a sign comes first.
pub(crate) fn is_like_digits(address: &[u8]) -> bool {
    matches!(address.first(), Some(b'0'..=b'7' | b'+' | b'*' | b'#'))
}

/// The value of a text that is read as a decimal.
pub(crate) fn decimal(text: &[u8]) -> Option<u32> {
    parse_decimal(text, u32::MAX).ok()
}
