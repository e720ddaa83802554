//! Elements in front of what is written (ITU-T X.690, definite lengths in as few octets as hold them).

ghost use Rattle.std.specs.Prelude.{◌≡◌, ◌++◌, ◌≤◌, [], ◌∷◌, ℕ, List, length, OnOk};
ghost use Rattle.camel_ber.specs.Elements.{ElementData};
ghost use Rattle.camel_map.specs.Encoding.{encoding, leaf, length_octets, number_octets, parent, before};

use crate::encoding::writer::{TooLong, Writer};

/// The length octets of so many contents octets. Those of 65536 and more do not fit.
fn put_length(writer: &mut Writer, count: usize) -> Result<(), TooLong>
    ensures { OnOk result (writer.new ≡ length_octets count ++ writer.old) }
{
    if count < 128 {
        return writer.put(count as u8);
    }
    if count < 256 {
        writer.put(count as u8)?;
        return writer.put(129);
    }
    if count < 65536 {
        writer.put((count % 256) as u8)?;
        writer.put((count / 256) as u8)?;
        return writer.put(130);
    }
    Err(TooLong)
}

/// The contents of an INTEGER or ENUMERATED, in as few octets as hold it.
fn put_number(writer: &mut Writer, number: u32) -> Result<(), TooLong>
    ensures { OnOk result (writer.new ≡ number_octets number ++ writer.old) }
{
    if number < 128 {
        return writer.put(number as u8);
    }
    writer.put((number % 256) as u8)?;
    if number < 32768 {
        return writer.put((number / 256) as u8);
    }
    writer.put((number / 256 % 256) as u8)?;
    if number < 8388608 {
        return writer.put((number / 65536) as u8);
    }
    writer.put((number / 65536 % 256) as u8)?;
    writer.put((number / 16777216) as u8)
}

/// Makes an element with this identifier of the octets in front of the last `behind` ones.
pub(crate) fn close_octets(
    writer: &mut Writer,
    identifier: u8,
    behind: usize,
) -> Result<(), TooLong>
    requires { behind ≤ length writer.old }
    ensures { (content rest : List ℕ) → writer.old ≡ content ++ rest → behind ≡ length rest
        → OnOk result (writer.new ≡ before (leaf identifier content ∷ []) rest) }
{
    put_length(writer, writer.len() - behind)?;
    writer.put(identifier)
}

/// Makes an element with this identifier of the elements in front of the last `behind` octets.
pub(crate) fn close(writer: &mut Writer, identifier: u8, behind: usize) -> Result<(), TooLong>
    requires { behind ≤ length writer.old }
    ensures { (parts : List ElementData) (rest : List ℕ) → writer.old ≡ before parts rest → behind ≡ length rest
        → OnOk result (writer.new ≡ before (parent identifier parts ∷ []) rest) }
{
    close_octets(writer, identifier, behind)
}

/// An element of an identifier octet with these contents.
pub(crate) fn put_leaf(writer: &mut Writer, identifier: u8, content: &[u8]) -> Result<(), TooLong>
    ensures { OnOk result (writer.new ≡ before (leaf identifier content.now ∷ []) writer.old) }
{
    writer.put_all(content)?;
    put_length(writer, content.len())?;
    writer.put(identifier)
}

/// An element of an identifier octet with a number as its contents.
pub(crate) fn put_number_leaf(
    writer: &mut Writer,
    identifier: u8,
    number: u32,
) -> Result<(), TooLong>
    ensures { OnOk result (writer.new ≡ before (leaf identifier (number_octets number) ∷ []) writer.old) }
{
    let behind = writer.len();
    put_number(writer, number)?;
    close_octets(writer, identifier, behind)
}
