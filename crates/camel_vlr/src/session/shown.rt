//! What a session gives while it looks.

ghost use Rattle.std.specs.Prelude.{◌≡◌, true, length};
ghost use Rattle.std.specs.FinMap as map;
ghost use Rattle.std.specs.Option.{option_and_then, option_copied, option_map};
ghost use Rattle.camel_rows.specs.Decision.{decision, decision_data, event_data};
ghost use Rattle.camel_rows.specs.Subscriber.{entry_at, entry_data, row_at};
ghost use Rattle.camel_rows.specs.Update.{records_of};
ghost use Rattle.camel_vlr.specs.Store.{DecidedByOwn};

use crate::base::seat::Seat;
use crate::session::Session;
use camel_rows::{Decision, Event, Lent, Records, TdpRow, decide_in};
use camel_tbcd::Imsi;

impl<S: Seat> Session<S> {
    /// Decides an event over the front of the look, as [`Look::decide`](crate::Look::decide) does.
    #[inline(always)]
    pub fn decide(&self, event: &Event) -> Decision<'_>
        requires { self.now.looks ≡ true }
        ensures decision { decision_data result
            ≡ decision self.now.store.profile (records_of self.now.seen) (event_data event.now) }
        ensures own { DecidedByOwn self.now.store self.now.seen (event_data event.now) (decision_data result) }
    {
        decide_in(&self.published().records, event, self.profile())
    }

    /// How many updates the front of the look has.
    #[inline]
    pub fn front(&self) -> u64
        requires { self.now.looks ≡ true }
        ensures { result ≡ length self.now.seen }
    {
        self.published().count
    }

    /// The TDP row of a subscriber at a detection point, if it is armed.
    pub fn row(&self, imsi: &Imsi, dp: u8) -> Option<&TdpRow>
        requires { self.now.looks ≡ true }
        ensures { option_copied result ≡ option_and_then (row_at dp) (map.get (records_of self.now.seen) imsi.now) }
    {
        self.published().records.get(imsi)?.row(dp)
    }

    /// The criteria entry of a subscriber at a detection point, if there is one.
    pub fn criteria(&self, imsi: &Imsi, dp: u8) -> Option<Lent<'_>>
        requires { self.now.looks ≡ true }
        ensures { option_map entry_data result
            ≡ option_and_then (entry_at dp) (map.get (records_of self.now.seen) imsi.now) }
    {
        self.published().records.get(imsi)?.criteria(dp)
    }

    /// The records of the front of the look.
    pub fn records(&self) -> &Records
        requires { self.now.looks ≡ true }
        ensures { result.now ≡ records_of self.now.seen }
    {
        &self.published().records
    }
}
