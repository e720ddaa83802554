//! The argument that makes a record.

ghost use Rattle.std.specs.Prelude.{◌≡◌, ◌++◌, List, Ok, Option, ℕ, OnErr, OnOk};
ghost use Rattle.std.specs.FinMap as map;
ghost use Rattle.std.specs.Option.{option_and_then};
ghost use Rattle.camel_map.specs.Encoding.{IsInDialogue, IsKept, insert_of_record, some_entries, with_some_entries};
ghost use Rattle.camel_map.specs.Encoding.{octets_of_update};
ghost use Rattle.camel_map.specs.Reading.{whole};
ghost use Rattle.camel_map.specs.Update.{update_of};
ghost use Rattle.camel_rows.specs.Update.{no_records, records_after};

use crate::encoding::append;
use crate::operation::Operation;
use camel_criteria::CriteriaEntry;
use camel_rows::{CriteriaSet, Subscriber, Update};
use camel_tbcd::Imsi;
use std::alloc::AllocError;

/// Criteria, if they have entries.
fn some_criteria<E: CriteriaEntry>(criteria: Option<CriteriaSet<E>>) -> Option<CriteriaSet<E>>
    ensures { result ≡ option_and_then some_entries criteria }
{
    match criteria {
        Some(entries) if !entries.is_empty() => Some(entries),
        _ => None,
    }
}

/// An update without lists of criteria that have no entries.
fn with_some_entries(update: Update) -> Update
    ensures { result ≡ with_some_entries update }
{
    match update {
        Update::Insert {
            imsi,
            o,
            o_criteria,
            vt,
            t_criteria,
        } => Update::Insert {
            imsi,
            o,
            o_criteria: some_criteria(o_criteria),
            vt,
            t_criteria: some_criteria(t_criteria),
        },
        other => other,
    }
}

/// Appends the octets of the argument of the Insert of a record.
fn append_record(imsi: &Imsi, subscriber: &Subscriber, out: &mut Vec<u8>) -> Result<(), AllocError>
    ensures appended { OnOk result (out.new.items
        ≡ out.old.items ++ octets_of_update (insert_of_record imsi.now subscriber.now)) }
    ensures unchanged { OnErr result (out.new.items ≡ out.old.items) }
{
    let Ok(update) = subscriber.to_insert(*imsi) else {
        return Err(AllocError);
    };
    append(&with_some_entries(update), out)?;
    Ok(())
}

/// Appends the octets of the InsertSubscriberData argument (TS 29.002) that makes a record, where its subscriber has
/// just registered: each CSI that is stored, with its criteria. Criteria are absent if the CSI has no entries. The
/// octets are as those of [`encode`](crate::encode).
///
/// It takes memory for a copy of the criteria, which it gives back, and at most once for the octets that `out` has no
/// room for. Its steps are at most a constant times the octets.
///
/// Fails if memory is refused, and as [`encode`](crate::encode) does. `out` is as before then.
pub fn encode_record(
    imsi: &Imsi,
    subscriber: &Subscriber,
    out: &mut Vec<u8>,
) -> Result<(), AllocError>
    ensures appended { OnOk result (out.new.items
        ≡ out.old.items ++ octets_of_update (insert_of_record imsi.now subscriber.now)) }
    // Over no records, a Register and that Insert leave this record, and no other.
    ensures stands { records_after (records_after no_records (Update.Register imsi.now))
        (insert_of_record imsi.now subscriber.now) ≡ map.insert no_records imsi.now subscriber.now }
    // The octets are decoded to that Insert, in each dialogue that is its subscriber's.
    ensures decoded { (dialogue : Option (List ℕ)) → IsKept (insert_of_record imsi.now subscriber.now)
        → IsInDialogue dialogue (insert_of_record imsi.now subscriber.now)
        → update_of Operation.InsertSubscriberData dialogue
        (whole (octets_of_update (insert_of_record imsi.now subscriber.now)))
        ≡ Ok (insert_of_record imsi.now subscriber.now) }
    ensures unchanged { OnErr result (out.new.items ≡ out.old.items) }
{
    append_record(imsi, subscriber, out)
}
