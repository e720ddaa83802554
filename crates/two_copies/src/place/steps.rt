//! The steps at a place. Each is one change of its word, with the slot that it takes or gives back.
ghost use Rattle.std.specs.Prelude.{◌≡◌, ◌==◌, ◌%◌, [], IfSome, None, Some, not, true, false};
ghost use Rattle.atomic_table.specs.Table.{rest};
ghost use Rattle.two_copies.specs.Place.{AreEmpty, HasClosed, index_of, is_same, is_second, IsSlotIndex, known_of};
ghost use Rattle.two_copies.specs.Place.{looking, RefusesLooks, writing};
ghost use Rattle.two_copies.specs.Slot.{IsSeated, Follows, Holds};
ghost use Rattle.two_copies.specs.declared.place.Part.TheVariants.{Idle, Leaving, Whole};

use crate::CopyRule;
use crate::place::board::{CLOSED, FIRST_SLOT, LOOKING, RETURNED, WORD};
use crate::place::{
    Board, CloseWithNone, CloseWithOther, Divide, Enter, Leave, PlaceSeat, Reclaim, Settle, Show,
    Slot,
};
use std::alloc::Global;
use std::sync::Arc;

fn index(slot: bool) -> usize
    ensures { result ≡ index_of slot }
{
    if slot { FIRST_SLOT + 1 } else { FIRST_SLOT }
}

/// Where the newest slot lies, by the word of its place.
fn newest_in(word: u64) -> usize
    ensures slot { IsSlotIndex result }
    ensures newest { is_second result ≡ (word % 2 == 1) }
{
    FIRST_SLOT + (word % 2) as usize
}

fn is_newest(slot: usize, word: u64) -> bool
    requires { IsSlotIndex slot }
    ensures { result ≡ is_same (is_second slot) (word % 2 == 1) }
{
    slot == newest_in(word)
}

/// Splits the reader's seat off.
pub(crate) fn divide<T, F: CopyRule<T>>(
    board: &Board<T, F>,
    seat: &mut PlaceSeat<T>,
) -> PlaceSeat<T>
    requires seated { IsSeated seat.old.table_id board.now.shared.table_id }
    requires whole { seat.old.me ≡ (Whole (known_of seat.old.me.0), []) }
    ensures same { seat.new.table_id ≡ seat.old.table_id }
    ensures writes { seat.new.me ≡ writing false false (known_of seat.old.me.0) }
    ensures reader { result.table_id ≡ seat.old.table_id }
    ensures idle { result.me ≡ (Idle (known_of seat.old.me.0), []) }
{
    let mut reader = board.shared.split_seat::<Divide>(seat);
    report(board, &mut reader);
    reader
}

/// The reader takes the newest slot, and what is in it. Returns where that slot lies, and the copy. At a closed place
/// it takes nothing, and from then on knows of nothing that is shown.
pub(crate) fn enter<T: Drop, F: CopyRule<T>>(
    board: &Board<T, F>,
    seat: &mut PlaceSeat<T>,
) -> Option<(usize, Arc<T, Global>)>
    requires seated { IsSeated seat.old.table_id board.now.shared.table_id }
    requires idle { seat.old.me ≡ (Idle (known_of seat.old.me.0), seat.old.me.1) }
    requires empty { AreEmpty seat.old.me.1 }
    ensures same { seat.new.table_id ≡ seat.old.table_id }
    ensures slot { IfSome result (λ r. IsSlotIndex r.0) }
    ensures looks { IfSome result (λ r. seat.new.me ≡ looking r.0 (Some r.1) (rest seat.new.me.1)) }
    ensures holds { IfSome result (λ r. Holds F.holds (Some r.1)) }
    ensures follows { IfSome result (λ r. Follows F.follows (known_of seat.old.me.0) (Some r.1)) }
    ensures refused { result ≡ None → seat.new.me ≡ (Idle None, seat.new.me.1) }
    ensures empty { AreEmpty seat.new.me.1 }
{
    let found = board.shared.fetch_add::<Enter<F>>(seat, WORD, LOOKING);
    if found >= CLOSED {
        board.shared.fetch_sub::<Settle>(seat, WORD, LOOKING);
        return None;
    }
    let slot = newest_in(found);
    let taken = board.shared.exchange(seat, slot, None);
    let Some(shown) = taken else { unreachable!() };
    Some((slot, shown))
}

/// The reader gives its slot back, with what was in it. At a closed place nobody takes it any more, so the reader keeps
/// it and empties it.
pub(crate) fn leave<T: Drop, F: CopyRule<T>>(
    board: &Board<T, F>,
    seat: &mut PlaceSeat<T>,
    slot: usize,
    shown: Arc<T, Global>,
)
    requires seated { IsSeated seat.old.table_id board.now.shared.table_id }
    requires slot { IsSlotIndex slot }
    requires looks { seat.old.me ≡ looking slot (Some shown) (rest seat.old.me.1) }
    requires empty { AreEmpty seat.old.me.1 }
    ensures same { seat.new.table_id ≡ seat.old.table_id }
    ensures idle { seat.new.me ≡ (Idle (Some shown), seat.new.me.1) }
    ensures empty { AreEmpty seat.new.me.1 }
{
    let emptied = board.shared.exchange(seat, slot, Some(shown));
    let None = emptied else { unreachable!() };
    let found = board.shared.fetch_sub::<Leave>(seat, WORD, LOOKING);
    if found >= CLOSED {
        drop_copy(board.shared.exchange(seat, slot, None));
        return;
    }
    if !is_newest(slot, found) {
        report(board, seat);
    }
}

// In a call of its own, since few looks end at a closed place, and all have their end in their callers.
#[inline(never)]
fn drop_copy<T: Drop>(copy: Slot<T>) {
    drop(copy);
}

/// The reader says that it gave back a slot which is no longer the newest.
fn report<T, F: CopyRule<T>>(board: &Board<T, F>, seat: &mut PlaceSeat<T>)
    requires seated { IsSeated seat.old.table_id board.now.shared.table_id }
    requires leaving { seat.old.me ≡ (Leaving (known_of seat.old.me.0), seat.old.me.1) }
    ensures same { seat.new.table_id ≡ seat.old.table_id }
    ensures idle { seat.new.me ≡ (Idle (known_of seat.old.me.0), seat.old.me.1) }
{
    board.shared.fetch_add::<Settle>(seat, WORD, RETURNED);
}

/// The writer takes the slot that is not the newest, if it lies there, and empties it. Returns whether it has it.
pub(crate) fn reclaim<T: Drop, F: CopyRule<T>>(
    board: &Board<T, F>,
    seat: &mut PlaceSeat<T>,
    newest: bool,
) -> bool
    requires seated { IsSeated seat.old.table_id board.now.shared.table_id }
    requires writes { seat.old.me ≡ writing newest false (known_of seat.old.me.0) }
    ensures same { seat.new.table_id ≡ seat.old.table_id }
    ensures writes { seat.new.me ≡ writing newest result (known_of seat.old.me.0) }
{
    let found = board.shared.fetch_and::<Reclaim>(seat, WORD, 3);
    if found < RETURNED {
        return false;
    }
    drop(board.shared.exchange(seat, index(!newest), None));
    true
}

/// The writer's slot becomes the newest, with this in it. Returns whether the writer has the other one then.
pub(crate) fn show<T: Drop, F: CopyRule<T>>(
    board: &Board<T, F>,
    seat: &mut PlaceSeat<T>,
    newest: bool,
    next: Slot<T>,
) -> bool
    requires seated { IsSeated seat.old.table_id board.now.shared.table_id }
    requires writes { seat.old.me ≡ writing newest true (known_of seat.old.me.0) }
    requires holds { Holds F.holds next }
    requires follows { Follows F.follows (known_of seat.old.me.0) next }
    ensures same { seat.new.table_id ≡ seat.old.table_id }
    ensures writes { seat.new.me ≡ writing (not newest) result next }
{
    let emptied = board.shared.exchange(seat, index(!newest), next);
    let None = emptied else { unreachable!() };
    let found = board.shared.fetch_xor::<Show>(seat, WORD, 1);
    if found >= LOOKING {
        return false;
    }
    drop(board.shared.exchange(seat, index(newest), None));
    true
}

/// The writer closes the place for good: it takes each slot that the reader does not have, and empties it.
pub(crate) fn close<T: Drop, F: CopyRule<T>>(
    board: &Board<T, F>,
    seat: &mut PlaceSeat<T>,
    newest: bool,
    has_other: bool,
)
    requires seated { IsSeated seat.old.table_id board.now.shared.table_id }
    requires writes { seat.old.me ≡ writing newest has_other (known_of seat.old.me.0) }
    ensures same { seat.new.table_id ≡ seat.old.table_id }
    ensures closed { HasClosed seat.new.me }
    ensures refuses { RefusesLooks (Holds F.holds) (Follows F.follows) seat.new.me.0 }
{
    if has_other {
        close_with_other(board, seat, newest);
    } else {
        close_with_none(board, seat, newest);
    }
}

/// The newest slot lies there unless the reader looks.
#[tactic(auto, using(crate::proofs::Steps::refuses_looks))]
fn close_with_other<T: Drop, F: CopyRule<T>>(
    board: &Board<T, F>,
    seat: &mut PlaceSeat<T>,
    newest: bool,
)
    requires seated { IsSeated seat.old.table_id board.now.shared.table_id }
    requires writes { seat.old.me ≡ writing newest true (known_of seat.old.me.0) }
    ensures same { seat.new.table_id ≡ seat.old.table_id }
    ensures closed { HasClosed seat.new.me }
    ensures refuses { RefusesLooks (Holds F.holds) (Follows F.follows) seat.new.me.0 }
{
    let found = board.shared.fetch_add::<CloseWithOther>(seat, WORD, CLOSED);
    if found < LOOKING {
        drop(board.shared.exchange(seat, index(newest), None));
    }
}

/// Both slots lie there unless the reader looks. If it does, the other one lies there if it was returned, since the
/// look then has the newest one; else the look has the other one.
#[tactic(auto, using(crate::proofs::Steps::refuses_looks))]
fn close_with_none<T: Drop, F: CopyRule<T>>(
    board: &Board<T, F>,
    seat: &mut PlaceSeat<T>,
    newest: bool,
)
    requires seated { IsSeated seat.old.table_id board.now.shared.table_id }
    requires writes { seat.old.me ≡ writing newest false (known_of seat.old.me.0) }
    ensures same { seat.new.table_id ≡ seat.old.table_id }
    ensures closed { HasClosed seat.new.me }
    ensures refuses { RefusesLooks (Holds F.holds) (Follows F.follows) seat.new.me.0 }
{
    let found = board.shared.fetch_add::<CloseWithNone>(seat, WORD, CLOSED);
    let looks = found % RETURNED >= LOOKING;
    if !looks {
        drop(board.shared.exchange(seat, index(newest), None));
        seat.turn();
        drop(board.shared.exchange(seat, index(!newest), None));
    } else if found < RETURNED {
        drop(board.shared.exchange(seat, index(newest), None));
    } else {
        drop(board.shared.exchange(seat, index(!newest), None));
    }
}
