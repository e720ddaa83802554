//! The writer's end of a place.
ghost use Rattle.std.specs.Prelude.{◌≡◌, true, Some, None, IfOk, MatchResult};
ghost use Rattle.std.specs.Arc.{arc_value};
ghost use Rattle.two_copies.specs.Place.{IsWriterSeat};
ghost use Rattle.two_copies.specs.Reader.{place_of, seen_by};
ghost use Rattle.two_copies.specs.Slot.{IsSeated, Follows, Holds};

use crate::place::board::lay;
use crate::place::steps::{close, divide, reclaim, show};
use crate::place::{Board, PlaceSeat, Slot};
use crate::{CopyRule, Reader};
use std::alloc::{AllocError, Global};
use std::mem;
use std::sync::Arc;

/// The writer's end.
#[derive(Drop)]
pub(crate) struct WriterEnd<T: Drop, F: CopyRule<T>> {
    board: Arc<Board<T, F>, Global>,
    seat: PlaceSeat<T>,
    newest: bool,
    /// Whether the writer has the slot that is not the newest.
    has_other: bool,
    /// What is to be shown next. Nothing, unless a publication is about to go through.
    next: Slot<T>,
    is_closed: bool,
    ghost seated: { IsSeated seat.table_id (arc_value board).shared.table_id },
    ghost writes: { IsWriterSeat is_closed newest has_other seat.me },
}

impl<T: Drop, F: CopyRule<T>> WriterEnd<T, F> {
    ghost use Rattle.two_copies.specs.WriterEnd.{IsClosedAt, place_at, shown_at, slot_at};

    /// A place that shows this copy, and its reader.
    pub(crate) fn new(
        alloc: Global,
        first: Arc<T, Global>,
    ) -> Result<(WriterEnd<T, F>, Reader<T, F>), AllocError>
        requires { F.holds (arc_value first) }
        ensures shown { IfOk result (λ r. shown_at r.0 ≡ Some (arc_value first)) }
        ensures seen { IfOk result (λ r. seen_by r.1 ≡ Some (arc_value first)) }
        ensures place { IfOk result (λ r. place_of r.1 ≡ place_at r.0) }
    {
        let (board, mut seat) = lay(alloc, first)?;
        let theirs = divide(&board, &mut seat);
        let reader = Reader::new(Arc::try_clone(&board)?, theirs);
        let end = WriterEnd {
            board,
            seat,
            newest: false,
            has_other: false,
            next: None,
            is_closed: false,
        };
        Ok((end, reader))
    }

    /// Takes the slot that is not the newest, if the reader does not have it, and drops what was to be shown next.
    /// Returns whether the writer has the slot.
    pub(crate) fn reclaim(&mut self) -> bool
        ensures has { self.new.has_other ≡ result }
        ensures keeps { self.old.has_other ≡ true → result ≡ true }
        ensures next { self.new.next ≡ None }
        ensures shown { slot_at self.new ≡ slot_at self.old }
        ensures place { place_at self.new ≡ place_at self.old }
    {
        self.next = None;
        if !self.is_closed && !self.has_other {
            self.has_other = reclaim(&self.board, &mut self.seat, self.newest);
        }
        self.has_other
    }

    /// Keeps what is to be shown next.
    pub(crate) fn prepare(&mut self, next: Arc<T, Global>)
        ensures next { self.new.next ≡ Some next }
        ensures has { self.new.has_other ≡ self.old.has_other }
        ensures shown { slot_at self.new ≡ slot_at self.old }
        ensures place { place_at self.new ≡ place_at self.old }
    {
        self.next = Some(next);
    }

    /// Shows what was to be shown next.
    pub(crate) fn show(&mut self)
        requires has { self.old.has_other ≡ true }
        requires holds { Holds F.holds self.old.next }
        requires follows { Follows F.follows (slot_at self.old) self.old.next }
        ensures shown { slot_at self.new ≡ self.old.next }
        ensures place { place_at self.new ≡ place_at self.old }
    {
        let next = mem::replace(&mut self.next, None);
        self.has_other = show(&self.board, &mut self.seat, self.newest, next);
        self.newest = !self.newest;
    }

    /// Closes the place: a look that its reader holds goes on, and each look that begins later finds nothing.
    pub(crate) fn close(&mut self)
        ensures { IsClosedAt self.new }
    {
        self.next = None;
        if !self.is_closed {
            close(&self.board, &mut self.seat, self.newest, self.has_other);
            self.has_other = false;
            self.is_closed = true;
        }
    }

    /// Whether its reader was dropped.
    pub(crate) fn is_left(&self) -> bool {
        Arc::strong_count(&self.board) == 1
    }

    /// Puts another end here, if the reader was dropped. The board that was here comes back then, which only the last
    /// owner gets out of its `Arc`. Else the other end comes back, and all is as before.
    pub(crate) fn replace(&mut self, end: WriterEnd<T, F>) -> Result<Board<T, F>, WriterEnd<T, F>>
        ensures left { MatchResult result
            (λ board. (board.shared.table_id ≡ place_at self.old) × (self.new ≡ end))
            (λ back. (back ≡ end) × (self.new ≡ self.old)) }
    {
        let WriterEnd {
            board,
            seat,
            newest,
            has_other,
            next,
            is_closed,
        } = mem::replace(self, end);
        match Arc::try_unwrap(board) {
            Ok(board) => Ok(board),
            Err(board) => Err(mem::replace(
                self,
                WriterEnd {
                    board,
                    seat,
                    newest,
                    has_other,
                    next,
                    is_closed,
                },
            )),
        }
    }
}
