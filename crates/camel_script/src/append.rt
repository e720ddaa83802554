//! The pieces of which lines and records are put together.

ghost use Rattle.std.specs.Prelude.{◌≡◌, ◌++◌, ◌∷◌, [], OnOk, length, take};
ghost use Rattle.std.specs.Fmt.{decimal};

use itoa::Buffer;
use std::alloc::AllocError;

/// Appends a text. Out of memory, nothing is appended.
pub fn append_text(out: &mut Vec<u8>, text: &str) -> Result<(), AllocError>
    ensures appended { OnOk result (out.new.items ≡ out.old.items ++ text.now) }
    ensures kept { take (length out.old.items) out.new.items ≡ out.old.items }
{
    out.extend_from_slice(text.as_bytes())
}

/// Appends a character. Out of memory, nothing is appended.
pub(crate) fn append_character(out: &mut Vec<u8>, character: u8) -> Result<(), AllocError>
    ensures appended { OnOk result (out.new.items ≡ out.old.items ++ character ∷ []) }
    ensures kept { take (length out.old.items) out.new.items ≡ out.old.items }
{
    match out.push(character) {
        Ok(()) => Ok(()),
        Err(_) => Err(AllocError),
    }
}

/// Appends a number in decimal digits. Out of memory, nothing is appended.
pub fn append_decimal(out: &mut Vec<u8>, number: u64) -> Result<(), AllocError>
    ensures appended { OnOk result (out.new.items ≡ out.old.items ++ decimal number) }
    ensures kept { take (length out.old.items) out.new.items ≡ out.old.items }
{
    let mut digits = Buffer::new();
    append_text(out, digits.format(number))
}
