//! A place, which the writer shares with one reader: a word and two slots.
//!
//! The word is the slot that is the newest, 0 or 1, and 2 more while the reader looks, and 4 more while the other slot
//! lies there to be taken by the writer.
//!
//! The writer closes a place by one step, which adds 8 for good. The word that this step finds says which slots lie
//! there: the writer takes these, and empties them. A slot that the reader has stays with it, and the reader empties it
//! when it leaves. It finds the 8 in the word that each of its steps gives.
mod board;
pub(crate) mod steps;
pub(crate) mod writer_end;

use crate::rule::CopyRule;
use atomic_table::{Play, Seat, Split, Table, TableRule};
use std::alloc::Global;
use std::marker::PhantomData;
use std::snapshot::Snapshot;
use std::sync::Arc;

/// A slot has a copy, or nothing: what the reader took is out, and at a closed place there is none.
pub(crate) type Slot<T> = Option<Arc<T, Global>>;

/// What one of the two seats at a place knows. No value of it is made.
pub(crate) enum Part<S> {
    /// The seat is the only one as yet, and this is shown.
    Whole(S),
    /// The reader looks at nothing, and saw this last.
    Idle(S),
    /// The reader took this out of that slot.
    Looking(bool, S),
    /// The reader gave back a slot that is no longer the newest, has not said so yet, and saw this last.
    Leaving(S),
    /// The reader found the place closed, has not taken its step back yet, and knows this.
    Refused(S),
    /// The newest slot is this one, with this in it, and the writer has the other.
    HasOther(bool, S),
    /// The newest slot is this one, with this in it, and the writer has none.
    HasNone(bool, S),
    /// The writer has closed the place, which showed this last.
    Closed(S),
}

/// The rule of each place: the states of `specs/Place.antt`.
pub(crate) struct PlaceRule<F> {
    rule: PhantomData<F>,
}

impl<T, F: CopyRule<T>> TableRule<Slot<T>, Part<Slot<T>>, Snapshot<Slot<T>>> for PlaceRule<F> {
    ghost use Rattle.two_copies.specs.Place.{Kept};
    ghost use Rattle.two_copies.specs.Slot.{Follows, Holds};
    ghost use Rattle.two_copies.specs.declared.place.Part.TheVariants.{Whole};

    ghost holds = { λ _. Kept (Holds F.holds) (Follows F.follows) };

    ghost first = { λ shown. Whole shown.value };
}

pub(crate) struct Enter<F> {
    rule: PhantomData<F>,
}

impl<T, F: CopyRule<T>> Play<Slot<T>, Part<Slot<T>>> for Enter<F> {
    ghost use Rattle.two_copies.specs.Place.{Enters};
    ghost use Rattle.two_copies.specs.Slot.{Follows, Holds};

    ghost then = { Enters (Holds F.holds) (Follows F.follows) };
}

pub(crate) struct Leave;

impl<T> Play<Slot<T>, Part<Slot<T>>> for Leave {
    ghost use Rattle.two_copies.specs.Place.{Leaves};

    ghost then = { Leaves };
}

/// The last step of a look that left, or that was refused.
pub(crate) struct Settle;

impl<T> Play<Slot<T>, Part<Slot<T>>> for Settle {
    ghost use Rattle.two_copies.specs.Place.{Settles};

    ghost then = { Settles };
}

pub(crate) struct Reclaim;

impl<T> Play<Slot<T>, Part<Slot<T>>> for Reclaim {
    ghost use Rattle.two_copies.specs.Place.{Reclaims};

    ghost then = { Reclaims };
}

pub(crate) struct Show;

impl<T> Play<Slot<T>, Part<Slot<T>>> for Show {
    ghost use Rattle.two_copies.specs.Place.{Shows};

    ghost then = { Shows };
}

pub(crate) struct CloseWithOther;

impl<T> Play<Slot<T>, Part<Slot<T>>> for CloseWithOther {
    ghost use Rattle.two_copies.specs.Place.{ClosesWithOther};

    ghost then = { ClosesWithOther };
}

pub(crate) struct CloseWithNone;

impl<T> Play<Slot<T>, Part<Slot<T>>> for CloseWithNone {
    ghost use Rattle.two_copies.specs.Place.{ClosesWithNone};

    ghost then = { ClosesWithNone };
}

pub(crate) struct Divide;

impl<T> Split<Part<Slot<T>>> for Divide {
    ghost use Rattle.std.specs.Prelude.{false};
    ghost use Rattle.two_copies.specs.Place.{known_of};
    ghost use Rattle.two_copies.specs.declared.place.Part.TheVariants.{HasNone, Leaving};

    ghost left = { λ part. HasNone false (known_of part) };

    ghost right = { λ part. Leaving (known_of part) };
}

/// The place itself, which both ends share.
pub(crate) type Board<T, F> = Table<
    Slot<T>,
    Part<Slot<T>>,
    Snapshot<Slot<T>>,
    PlaceRule<F>,
    Global,
>;

/// The right to an end of a place. It takes no bytes.
pub(crate) type PlaceSeat<T> = Seat<Slot<T>, Part<Slot<T>>>;
