//! Lists of elements.

ghost use Rattle.std.specs.Prelude.{◌≡◌, ◌++◌, map, OnOk};
ghost use Rattle.std.specs.Option.{option_copied};
ghost use Rattle.camel_ber.specs.Elements.{ElementData};
ghost use Rattle.camel_map.specs.Encoding.{encoding, if_any, if_some, before};

use crate::encoding::element::close;
use crate::encoding::writer::{TooLong, Writer};

/// How an item of a list is written.
pub(crate) trait Part<T> {
    ghost element_of: { T → ElementData };

    /// Writes its element in front of what is written.
    fn put(writer: &mut Writer, item: &T) -> Result<(), TooLong>
        ensures { OnOk result (writer.new ≡ encoding (element_of item.now) ++ writer.old) };
}

/// The elements of items, from the last one to the first.
pub(crate) fn put_each<P: Part<T>, T>(writer: &mut Writer, items: &[T]) -> Result<(), TooLong>
    ensures { OnOk result (writer.new ≡ before (map P.element_of items.now) writer.old) }
{
    let mut at = items.len();
    while at > 0 {
        at -= 1;
        P::put(writer, &items[at])?;
    }
    Ok(())
}

/// A list that is absent if it has no items.
#[tactic(auto, using(crate::proofs::Written::Elements::behind_before))]
pub(crate) fn put_some<P: Part<T>, T>(
    writer: &mut Writer,
    identifier: u8,
    items: &[T],
) -> Result<(), TooLong>
    ensures { OnOk result (writer.new ≡ before (if_some identifier P.element_of items.now) writer.old) }
{
    if items.is_empty() {
        return Ok(());
    }
    let behind = writer.len();
    put_each::<P, T>(writer, items)?;
    close(writer, identifier, behind)
}

/// A field that may be absent.
pub(crate) fn put_any<P: Part<T>, T>(writer: &mut Writer, value: Option<&T>) -> Result<(), TooLong>
    ensures { OnOk result (writer.new ≡ before (if_any P.element_of (option_copied value.entry)) writer.old) }
{
    match value {
        Some(value) => P::put(writer, value),
        None => Ok(()),
    }
}
