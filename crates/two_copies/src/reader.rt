//! A reader and its looks.
ghost use Rattle.std.specs.Prelude.{◌≡◌, Some, None, IfErr, IfOk, IsErr, IsSomeAnd, MatchResult};
ghost use Rattle.std.specs.Arc.{arc_value};
ghost use Rattle.atomic_table.specs.Table.{rest};
ghost use Rattle.two_copies.specs.Place.{AreEmpty, IsSlotIndex, known_of, looking};
ghost use Rattle.two_copies.specs.Slot.{IsSeated};
ghost use Rattle.two_copies.specs.declared.place.Part.TheVariants.{Idle};

use crate::place::steps::{enter, leave};
use crate::place::{Board, PlaceSeat};
use crate::rule::CopyRule;
use std::alloc::Global;
use std::sync::Arc;

/// A reader, which looks at nothing. It has a place of its own, and may move to another thread.
///
/// Contracts see what it saw last (`seen_by`): what was shown when it was made, or what its last look found; nothing
/// once it found that the copies have ended.
#[derive(Drop)]
pub struct Reader<T: Drop, F: CopyRule<T>> {
    board: Arc<Board<T, F>, Global>,
    seat: PlaceSeat<T>,
    ghost seated: { IsSeated seat.table_id (arc_value board).shared.table_id },
    ghost idle: { seat.me ≡ (Idle (known_of seat.me.0), seat.me.1) },
    ghost empty: { AreEmpty seat.me.1 },
}

/// A look at the copy that was shown when it began. It shows the same value as long as it is held, lets the next
/// publication go through, and holds up the one after it. A look that is dropped leaves too, and one that is forgotten
/// holds publications up for good.
pub struct Look<T: Drop, F: CopyRule<T>> {
    board: Arc<Board<T, F>, Global>,
    seat: PlaceSeat<T>,
    /// Where its slot lies. A look is moved often, and with a `bool` it would be moved in pieces that overlap.
    slot: usize,
    shown: Arc<T, Global>,
    ghost seated: { IsSeated seat.table_id (arc_value board).shared.table_id },
    ghost is_slot: { IsSlotIndex slot },
    ghost looks: { seat.me ≡ looking slot (Some shown) (rest seat.me.1) },
    ghost empty: { AreEmpty seat.me.1 },
}

impl<T: Drop, F: CopyRule<T>> Reader<T, F> {
    ghost use Rattle.two_copies.specs.Reader.{place_in, place_of, seen_by, shown_in};

    pub(crate) fn new(board: Arc<Board<T, F>, Global>, seat: PlaceSeat<T>) -> Reader<T, F>
        requires seated { IsSeated seat.table_id (arc_value board).shared.table_id }
        requires idle { seat.me ≡ (Idle (known_of seat.me.0), seat.me.1) }
        requires empty { AreEmpty seat.me.1 }
        ensures { result.seat ≡ seat }
    {
        Reader { board, seat }
    }

    /// A look at the copy that is shown. It takes no lock and no memory, does not wait, and has no loop: one step on
    /// the word of its place.
    ///
    /// If the copies have ended, the reader comes back; then so it does from each later look.
    #[inline]
    pub fn look(self) -> Result<Look<T, F>, Reader<T, F>>
        ensures holds { IfOk result (λ look. F.holds (shown_in look)) }
        ensures follows { IfOk result (λ look. IsSomeAnd (seen_by self) (λ seen. F.follows seen (shown_in look))) }
        ensures ended { IfErr result (λ reader. seen_by reader ≡ None) }
        ensures for_good { seen_by self ≡ None → IsErr result }
        ensures place { MatchResult result (λ look. place_in look ≡ place_of self)
            (λ reader. place_of reader ≡ place_of self) }
    {
        let Reader { board, mut seat } = self;
        match enter(&board, &mut seat) {
            Some((slot, shown)) => Ok(Look {
                board,
                seat,
                slot,
                shown,
            }),
            None => Err(Reader { board, seat }),
        }
    }
}

impl<T: Drop, F: CopyRule<T>> Look<T, F> {
    ghost use Rattle.two_copies.specs.Reader.{place_in, place_of, seen_by, shown_in};

    /// The value. It costs nothing.
    #[inline]
    pub fn get(&self) -> &T
        ensures { result.now ≡ shown_in self.now }
    {
        &self.shown
    }

    /// Ends the look. It takes no lock and no memory, does not wait, and has no loop: one step on the word of its
    /// place, and a second one if a publication went through meanwhile. If the copies have ended, and nobody else has
    /// this one, it frees the copy.
    #[inline]
    pub fn leave(self) -> Reader<T, F>
        ensures seen { seen_by result ≡ Some (shown_in self) }
        ensures place { place_of result ≡ place_in self }
    {
        let Look {
            board,
            mut seat,
            slot,
            shown,
        } = self;
        leave(&board, &mut seat, slot, shown);
        Reader { board, seat }
    }
}

impl<T: Drop, F: CopyRule<T>> Drop for Look<T, F> {
    fn drop(self) {
        drop(self.leave());
    }
}
