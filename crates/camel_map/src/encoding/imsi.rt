//! The IMSI that an argument concerns, in TBCD.

ghost use Rattle.std.specs.Prelude.{◌≡◌, ◌++◌, ◌≤◌, [], ◌∷◌, All, OnOk};
ghost use Rattle.camel_map.specs.Encoding.{leaf, tbcd_octets, before};

use crate::encoding::element::close_octets;
use crate::encoding::writer::{TooLong, Writer};
use camel_tbcd::Imsi;

/// The digits in TBCD, two in each octet, with a filler behind an odd number of them.
fn put_digits(writer: &mut Writer, digits: &[u8]) -> Result<(), TooLong>
    requires { All (λ digit. digit ≤ 9) digits.now }
    ensures { OnOk result (writer.new ≡ tbcd_octets digits.now ++ writer.old) }
{
    let mut at = digits.len();
    if at % 2 == 1 {
        at -= 1;
        writer.put(240 + digits[at])?;
    }
    while at > 0 {
        at -= 2;
        writer.put(digits[at + 1] * 16 + digits[at])?;
    }
    Ok(())
}

/// An IMSI as an element of this identifier.
pub(crate) fn put_imsi(writer: &mut Writer, identifier: u8, imsi: &Imsi) -> Result<(), TooLong>
    ensures { OnOk result (writer.new ≡ before (leaf identifier (tbcd_octets imsi.now) ∷ []) writer.old) }
{
    let behind = writer.len();
    put_digits(writer, imsi.digits().as_slice())?;
    close_octets(writer, identifier, behind)
}
