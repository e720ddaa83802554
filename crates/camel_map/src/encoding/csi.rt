//! The fields of a CSI: O-CSI and T-CSI, and the lists of their criteria.

ghost use Rattle.std.specs.Prelude.{◌≡◌, [], ◌∷◌, map, OnOk};
ghost use Rattle.std.specs.Option.{option_copied};
ghost use Rattle.camel_map.specs.Encoding.{csi_element, if_any, ignored_in_o, ignored_in_vt, ignored_o_entry};
ghost use Rattle.camel_map.specs.Encoding.{ignored_row, ignored_t_entry, item_element, list_element, sent, before};

use crate::encoding::element::close;
use crate::encoding::list::put_each;
use crate::encoding::writer::{TooLong, Writer};
use crate::item::{Item, MapItem};
use crate::tag::SEQUENCE;
use camel_criteria::{CriteriaEntry, OCriteria, TCriteria};
use camel_rows::{CriteriaSet, Csi, Originating, TdpRow, VmscTerminating};

/// A kind of CSI, by the item that is sent for none of a list. Its detection point is one of the other CSI, so it is
/// ignored: 12 (termAttemptAuthorized) in an O-CSI, 2 (collectedInfo) in a VT-CSI.
pub(crate) trait SentForNone<I: MapItem> {
    ghost ignored: { I };

    /// Writes it.
    fn put_ignored(writer: &mut Writer) -> Result<(), TooLong>
        ensures { OnOk result (writer.new ≡ before (item_element I.fields_of ignored ∷ []) writer.old) };
}

impl SentForNone<TdpRow> for Originating {
    ghost ignored = { ignored_row ignored_in_o };

    #[tactic(auto, unfolding(crate::specs::Encoding::encodings))]
    fn put_ignored(writer: &mut Writer) -> Result<(), TooLong> {
        writer.put_all(&[0x30, 12, 0x0a, 1, 12, 0x02, 1, 0, 0x80, 1, 0, 0x81, 1, 0])
    }
}

impl SentForNone<OCriteria> for Originating {
    ghost ignored = { ignored_o_entry };

    #[tactic(auto, unfolding(crate::specs::Encoding::encodings))]
    fn put_ignored(writer: &mut Writer) -> Result<(), TooLong> {
        writer.put_all(&[0x30, 3, 0x0a, 1, 12])
    }
}

impl SentForNone<TdpRow> for VmscTerminating {
    ghost ignored = { ignored_row ignored_in_vt };

    #[tactic(auto, unfolding(crate::specs::Encoding::encodings))]
    fn put_ignored(writer: &mut Writer) -> Result<(), TooLong> {
        writer.put_all(&[0x30, 12, 0x0a, 1, 2, 0x02, 1, 0, 0x80, 1, 0, 0x81, 1, 0])
    }
}

impl SentForNone<TCriteria> for VmscTerminating {
    ghost ignored = { ignored_t_entry };

    #[tactic(auto, unfolding(crate::specs::Encoding::encodings))]
    fn put_ignored(writer: &mut Writer) -> Result<(), TooLong> {
        writer.put_all(&[0x30, 3, 0x0a, 1, 2])
    }
}

/// The items of a list, or the one that is sent for none.
fn put_sent<K: SentForNone<I>, I: MapItem>(writer: &mut Writer, items: &[I]) -> Result<(), TooLong>
    ensures { OnOk result (writer.new
        ≡ before (map (item_element I.fields_of) (sent K.ignored items.now)) writer.old) }
{
    if items.is_empty() {
        return K::put_ignored(writer);
    }
    put_each::<Item, I>(writer, items)
}

/// A list, as an element of this identifier.
#[tactic(auto, using(crate::proofs::Written::Elements::behind_before))]
fn put_list<K: SentForNone<I>, I: MapItem>(
    writer: &mut Writer,
    identifier: u8,
    items: &[I],
) -> Result<(), TooLong>
    ensures { OnOk result (writer.new
        ≡ before (list_element I.fields_of K.ignored identifier items.now ∷ []) writer.old) }
{
    let behind = writer.len();
    put_sent::<K, I>(writer, items)?;
    close(writer, identifier, behind)
}

/// The criteria of a CSI as a field of this identifier, if they are there.
pub(crate) fn put_csi_criteria<K: SentForNone<E>, E: CriteriaEntry + MapItem>(
    writer: &mut Writer,
    identifier: u8,
    criteria: Option<&CriteriaSet<E>>,
) -> Result<(), TooLong>
    ensures { OnOk result (writer.new
        ≡ before (if_any (list_element E.fields_of K.ignored identifier) (option_copied criteria.entry)) writer.old) }
{
    match criteria {
        Some(entries) => put_list::<K, E>(writer, identifier, entries.as_slice()),
        None => Ok(()),
    }
}

/// O-CSI and T-CSI, as a field of this identifier, if it is there.
#[tactic(auto, using(crate::proofs::Written::Elements::behind_before))]
pub(crate) fn put_csi<K: Copy + SentForNone<TdpRow>, const MOST: usize>(
    writer: &mut Writer,
    identifier: u8,
    csi: Option<&Csi<K, MOST>>,
) -> Result<(), TooLong>
    ensures { OnOk result (writer.new
        ≡ before (if_any (csi_element K.ignored identifier) (option_copied csi.entry)) writer.old) }
{
    let Some(csi) = csi else {
        return Ok(());
    };
    let behind = writer.len();
    put_list::<K, TdpRow>(writer, SEQUENCE, csi.as_slice())?;
    close(writer, identifier, behind)
}
