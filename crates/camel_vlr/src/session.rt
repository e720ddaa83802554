//! The sessions of a store.

ghost use Rattle.std.specs.Prelude.{◌≡◌, ◌↔◌, None, true, false, length, IfOk, IsTrue};
ghost use Rattle.camel_rows.specs.Update.{Extends, IsFront, records_of};

pub(crate) mod answers;
pub(crate) mod look;
pub(crate) mod shown;

use crate::base::left_right_seat::LeftRightSeat;
use crate::base::seat::Seat;
use crate::history::told::Told;
use crate::published_copy::PublishedCopy;
use crate::{Look, NoLook, Receipt};
use camel_tbcd::Profile;
use std::marker::Model;
use std::mem;
use std::snapshot::Snapshot;

/// A call-control thread's access to its store. The front of each look extends all that the session saw
/// before, and all that it learnt.
///
/// Contracts see of which store it is, the front of its last look, the fronts that it learnt, and whether it is
/// looking.
#[derive(Drop)]
pub struct Session<S: Seat = LeftRightSeat> {
    seat: S,
    seen: Receipt,
    /// The longest front that it has learnt, which extends the others.
    longest: Receipt,
    /// Each front that it has learnt.
    told: Snapshot<Told>,
    /// The profile of its store.
    profile: Profile,
}

impl<S: Seat> Model for Session<S> {
    ghost use Rattle.camel_vlr.specs.Store.{SessionData};
    ghost use Rattle.camel_vlr.specs.SessionFields.{IsSession, session_of};

    ghost Value = { SessionData };

    ghost view = { session_of S.Seat };

    ghost invariant = { IsSession S.Seat };
}

impl<S: Seat> Session<S> {
    ghost use Rattle.std.specs.Borrow.{sem, RestsIfErr};
    ghost use Rattle.camel_vlr.specs.contracts.session.Session.{the_row};
    ghost use Rattle.camel_vlr.specs.Store.{LeavesLook, Learns, Sees, session_told_nothing};

    /// A session that has seen this front, and has learnt nothing. The profile is that of its store.
    pub(crate) fn new(seat: S, seen: Receipt, profile: Profile) -> Session<S>
        requires idle { S.copy_of seat ≡ None }
        requires knows { S.knows seat seen }
        requires profile { profile ≡ seen.store.profile }
        ensures { result ≡ session_told_nothing seen.store seen.updates }
    {
        let longest = seen.copy();
        Session {
            seat,
            seen,
            longest,
            told: Told::none(),
            profile,
        }
    }

    /// The profile under which its looks decide: that with which its store was opened.
    pub fn profile(&self) -> Profile
        ensures { result ≡ self.now.store.profile }
    {
        self.profile
    }

    /// Lets the session learn the front of a receipt: its later looks extend it. The receipt has to be of the session's
    /// own store. It takes no memory, and reads nothing that threads share.
    pub fn learn(&mut self, receipt: Receipt)
        requires { receipt.store ≡ self.old.store }
        ensures { Learns self.old receipt self.new }
    {
        self.leave();
        let before = mem::replace(&mut self.told, Told::none());
        self.told = Told::with(before, &receipt);
        if self.longest.is_prefix_of(&receipt) {
            self.longest = receipt;
        }
    }

    /// Whether the front that was last seen extends that of a receipt. If it does not, the receipt's front extends it:
    /// of two fronts of one store one extends the other. The receipt has to be of the session's own store.
    pub fn has_seen(&self, receipt: &Receipt) -> bool
        requires { receipt.now.store ≡ self.now.store }
        ensures seen { IsTrue result ↔ Extends self.now.seen receipt.now.updates }
        ensures ahead { result ≡ false → Extends receipt.now.updates self.now.seen }
    {
        receipt.is_prefix_of(&self.seen)
    }

    /// A receipt of the front that was last seen, for another session or for [`Vlr::bounds`](crate::Vlr::bounds). It
    /// takes no memory, and reads nothing that threads share.
    pub fn seen(&self) -> Receipt
        ensures { result ≡ record { store = self.now.store; updates = self.now.seen } }
    {
        self.seen.copy()
    }

    /// A look at a front that extends all that the session saw and learnt. It takes no lock, does not wait, and takes
    /// no memory.
    ///
    /// It fails with [`NoLook`] if the store has ended, or, which no run meets, if the published copy is older than
    /// what the session was told of. Then the session keeps what it had seen and learnt.
    #[inline]
    pub fn look(&mut self) -> Result<Look<'_, S>, NoLook>
        ensures* refused { sem 𝓛 (RestsIfErr (the_row S.row S.Seat) self.entry (λ l. l.session.ghost_name) result
            (LeavesLook self.old)) }
        ensures same_session { IfOk result (λ l. l.session.ghost_name ≡ self.entry.ghost_name) }
        ensures sees { IfOk result (λ l. Sees self.old l.session.now) }
    {
        if self.enter() {
            Ok(Look { session: self })
        } else {
            Err(NoLook)
        }
    }

    /// Begins a look that lasts until [`Session::leave`], and returns whether there is one: for a caller that cannot
    /// keep the borrow of a [`Look`], as one in C. What a look shows is lent by [`Session::decide`] and the calls
    /// beside it.
    ///
    /// If it returns false, [`Session::look`] says why. A look that has begun before is left first. It takes no lock,
    /// does not wait, and takes no memory.
    #[inline(always)]
    pub fn enter(&mut self) -> bool
        ensures looks { self.new.looks ≡ result }
        ensures yes { result ≡ true → Sees self.old self.new }
        ensures no { result ≡ false → LeavesLook self.old self.new }
    {
        if !self.seat.enter() {
            return false;
        }
        let front = self.seat.copy().receipt();
        if !self.longest.is_prefix_of(&front) {
            // No run comes here: docs/DECISIONS.md says why it stands.
            self.seat.leave();
            return false;
        }
        self.seen = front;
        true
    }

    /// Whether a look has begun that is not left yet.
    #[inline]
    pub fn is_looking(&self) -> bool
        ensures { result ≡ self.now.looks }
    {
        self.seat.has_copy()
    }

    /// Leaves the look, if one has begun.
    pub fn leave(&mut self)
        ensures { LeavesLook self.old self.new }
    {
        self.seat.leave();
    }

    /// The copy of the look.
    pub(crate) fn published(&self) -> &PublishedCopy
        requires { self.now.looks ≡ true }
        ensures records { result.now.records ≡ records_of self.now.seen }
        ensures count { result.now.count ≡ length self.now.seen }
        ensures front { IsFront self.now.store.limit self.now.seen }
    {
        self.seat.copy()
    }
}
