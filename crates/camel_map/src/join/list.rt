//! Criteria that come in two operations.

ghost use Rattle.std.specs.Prelude.{◌≡◌, ◌≤◌, ◌++◌, length, IfOk, OnOk};
ghost use Rattle.camel_rows.specs.TdpRow.{kept_of};
ghost use Rattle.camel_map.specs.Arrival.{JoinsLists, JoinsTwo};

use crate::item::MapItem;
use crate::items::ReceivedList;
use camel_criteria::{CriteriaEntry, Refusal};
use camel_rows::{CriteriaSet, MAX_TDP_DATA};
use std::alloc::{AllocError, Global};

/// Appends a copy of each entry.
fn append_copies<E: MapItem>(received: &mut Vec<E>, entries: &[E]) -> Result<(), AllocError>
    ensures { OnOk result (received.new.items ≡ received.old.items ++ entries.now) }
{
    for entry in entries {
        received.push(entry.copy()?)?;
    }
    Ok(())
}

/// The entries of two lists.
fn entries_of_both<E: MapItem>(alloc: Global, one: &[E], other: &[E]) -> Result<Vec<E>, AllocError>
    ensures { IfOk result (λ all. all.items ≡ one.now ++ other.now) }
{
    let mut all = Vec::new(alloc);
    append_copies(&mut all, one)?;
    append_copies(&mut all, other)?;
    Ok(all)
}

/// Criteria that came, or did not, with those behind them. `count` and `more` say how many entries came in each.
pub(crate) fn join_lists<E: CriteriaEntry + MapItem>(
    alloc: Global,
    one: &Option<CriteriaSet<E>>,
    count: usize,
    other: &Option<CriteriaSet<E>>,
    more: usize,
) -> Result<Option<ReceivedList<CriteriaSet<E>>>, Refusal>
    ensures { JoinsLists (kept_of E.points E.dp_of) one.now count other.now more result }
{
    match (one, other) {
        (None, None) => Ok(None),
        (Some(list), None) => Ok(Some(ReceivedList {
            kept: list.clone()?,
            count,
        })),
        (None, Some(list)) => Ok(Some(ReceivedList {
            kept: list.clone()?,
            count: more,
        })),
        (Some(one), Some(other)) => Ok(Some(join_two(alloc, one, count, other, more)?)),
    }
}

/// Criteria with others behind them.
fn join_two<E: CriteriaEntry + MapItem>(
    alloc: Global,
    one: &CriteriaSet<E>,
    count: usize,
    other: &CriteriaSet<E>,
    more: usize,
) -> Result<ReceivedList<CriteriaSet<E>>, Refusal>
    ensures { JoinsTwo (kept_of E.points E.dp_of) one.now count other.now more result }
{
    let count = count.saturating_add(more);
    if count > MAX_TDP_DATA {
        return Err(Refusal::UnexpectedDataValue);
    }
    let received = entries_of_both(alloc, one.as_slice(), other.as_slice())?;
    // Of two lists of which all entries are ignored there is nothing to make one of.
    let kept = if received.is_empty() {
        one.clone()?
    } else {
        CriteriaSet::new(received)?
    };
    Ok(ReceivedList { kept, count })
}
