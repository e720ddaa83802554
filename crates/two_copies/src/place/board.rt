//! The table of a place.
ghost use Rattle.std.specs.Prelude.{◌≡◌, [], ◌∷◌, ◌++◌, Some, None, IfOk, OnOk, replicate};
ghost use Rattle.std.specs.Arc.{arc_value};
ghost use Rattle.two_copies.specs.Place.{amid};
ghost use Rattle.two_copies.specs.Slot.{IsSeated, Holds};
ghost use Rattle.two_copies.specs.declared.place.Part.TheVariants.{Whole};

use crate::place::{Board, PlaceSeat, Slot};
use crate::rule::CopyRule;
use atomic_table::Table;
use std::alloc::{AllocError, Global};
use std::snapshot::Snapshot;
use std::sync::Arc;

/// Where the word lies among the words of its block. The others keep all else 128 octets away from it, so no other
/// place is on its cache line, nor on the one that the processor may fetch with it.
pub(crate) const WORD: usize = 16;

/// What the word has more while the reader looks.
pub(crate) const LOOKING: u64 = 2;

/// What the word has more while the slot that is not the newest lies there to be taken by the writer.
pub(crate) const RETURNED: u64 = 4;

/// What the word has more once the place is closed.
pub(crate) const CLOSED: u64 = 8;

const WORDS: usize = 33;

/// Where the first slot lies among those of its block, for the same reason: a slot has 16 octets.
pub(crate) const FIRST_SLOT: usize = 8;

/// A place that shows this copy, and the seat of both its ends.
pub(crate) fn lay<T: Drop, F: CopyRule<T>>(
    alloc: Global,
    first: Arc<T, Global>,
) -> Result<(Arc<Board<T, F>, Global>, PlaceSeat<T>), AllocError>
    requires { F.holds (arc_value first) }
    ensures seated { IfOk result (λ r. IsSeated r.1.table_id (arc_value r.0).shared.table_id) }
    ensures whole { IfOk result (λ r. r.1.me ≡ (Whole (Some first), [])) }
{
    let first = Some(first);
    let shown = Snapshot::of(&first);
    let slots = slots_with(alloc, first)?;
    let Ok((table, seat)) = Table::new(alloc, &[0; WORDS], slots, &shown) else {
        return Err(AllocError);
    };
    Ok((Arc::new(alloc, table)?, seat))
}

/// The two slots, of which the second has nothing yet, amid the others.
fn slots_with<T: Drop>(alloc: Global, first: Slot<T>) -> Result<Vec<Slot<T>, Global>, AllocError>
    ensures { IfOk result (λ slots. slots.items ≡ amid 8 None (first ∷ None ∷ [])) }
{
    let mut slots = Vec::new(alloc);
    push_fillers(&mut slots, FIRST_SLOT)?;
    slots.push(first)?;
    push_fillers(&mut slots, 1 + FIRST_SLOT)?;
    Ok(slots)
}

fn push_fillers<T: Drop>(slots: &mut Vec<Slot<T>, Global>, count: usize) -> Result<(), AllocError>
    ensures { OnOk result (slots.new.items ≡ slots.old.items ++ replicate count None) }
{
    let mut pushed: usize = 0;
    while pushed < count {
        slots.push(None)?;
        pushed += 1;
    }
    Ok(())
}
