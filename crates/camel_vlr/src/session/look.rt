ghost use Rattle.std.specs.Prelude.{◌≡◌, true, length};
ghost use Rattle.std.specs.FinMap as map;
ghost use Rattle.std.specs.Option.{option_and_then, option_copied, option_map};
ghost use Rattle.camel_rows.specs.Decision.{decision, decision_data, event_data};
ghost use Rattle.camel_rows.specs.Subscriber.{entry_at, entry_data, row_at};
ghost use Rattle.camel_rows.specs.Update.{records_of};
ghost use Rattle.camel_vlr.specs.Store.{DecidedByOwn};

use crate::base::left_right_seat::LeftRightSeat;
use crate::base::seat::Seat;
use crate::session::Session;
use camel_rows::{Decision, Event, Lent, Records, TdpRow};
use camel_tbcd::Imsi;

/// The look failed: the store has ended, or, which no run meets, the published copy is older than what the session was
/// told of.
#[derive(Clone, Copy, Debug)]
pub struct NoLook;

/// A look at one front. All that it returns is of this front, whatever is published meanwhile.
///
/// It borrows its session, and all that it lends borrows from it. Until it is dropped, the second publication after it
/// waits for it. No public function of it takes memory.
pub struct Look<'s, S: Seat = LeftRightSeat> {
    pub(crate) session: &'s mut Session<S>,
}

impl<S: Seat> Look<'_, S> {
    ghost use Rattle.camel_vlr.specs.Store.{LeavesLook};

    /// Decides an event by the trigger rules of TS 23.078, over the data of the front, under the profile of the store.
    /// The row and the entry that it lends are the stored ones. The updates of the event's subscriber would leave the
    /// same decision by themselves; an update of all subscribers is one of them.
    #[inline(always)]
    pub fn decide(&self, event: &Event) -> Decision<'_>
        requires { self.now.session.now.looks ≡ true }
        ensures decision { decision_data result
            ≡ decision self.now.session.now.store.profile (records_of self.now.session.now.seen)
            (event_data event.now) }
        ensures own { DecidedByOwn self.now.session.now.store self.now.session.now.seen (event_data event.now)
            (decision_data result) }
    {
        self.session.decide(event)
    }

    /// How many updates the front has.
    pub fn front(&self) -> u64
        requires { self.now.session.now.looks ≡ true }
        ensures { result ≡ length self.now.session.now.seen }
    {
        self.session.front()
    }

    /// The TDP row of a subscriber at a detection point, if it is armed.
    pub fn row(&self, imsi: &Imsi, dp: u8) -> Option<&TdpRow>
        requires { self.now.session.now.looks ≡ true }
        ensures { option_copied result
            ≡ option_and_then (row_at dp) (map.get (records_of self.now.session.now.seen) imsi.now) }
    {
        self.session.row(imsi, dp)
    }

    /// The criteria entry of a subscriber at a detection point, if there is one.
    pub fn criteria(&self, imsi: &Imsi, dp: u8) -> Option<Lent<'_>>
        requires { self.now.session.now.looks ≡ true }
        ensures { option_map entry_data result
            ≡ option_and_then (entry_at dp) (map.get (records_of self.now.session.now.seen) imsi.now) }
    {
        self.session.criteria(imsi, dp)
    }

    /// The records of the front, so that a running store can be listed ([`Records::imsis`]) and read whole. They are
    /// borrowed from the look: it copies nothing. A look that is held over a long list holds up the writer; if that
    /// matters, list an equal copy of them ([`Records::copy`]) once the look is left.
    pub fn records(&self) -> &Records
        requires { self.now.session.now.looks ≡ true }
        ensures { result.now ≡ records_of self.now.session.now.seen }
    {
        self.session.records()
    }

    /// Ends the look, as dropping it does.
    pub fn leave(self)
        ensures { LeavesLook self.entry.session.now self.exit.0.now }
    {}
}

impl<S: Seat> Drop for Look<'_, S> {
    ghost use Rattle.std.specs.Prelude.{◌≡◌};
    ghost use Rattle.camel_vlr.specs.Store.{LeavesLook};

    fn drop(self)
        ensures { LeavesLook self.entry.session.now self.exit.0.now }
    {
        let Look { session } = self;
        session.leave();
    }
}
