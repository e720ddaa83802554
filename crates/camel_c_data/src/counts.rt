//! Counts that a switch may ask for.

ghost use Rattle.std.specs.Prelude.{◌≡◌, ◌≤◌};
ghost use Rattle.camel_rows.specs.Decision.{event_data, event_dp};
ghost use Rattle.camel_c_data.specs.Event.{no_decisions, with_decision};

use camel_rows::Event;
use std::mem::size_of;

/// Counts of a store.
#[repr(C)]
#[derive(Clone, Copy, Debug)]
pub struct CamelCounts {
    /// How many subscribers have a record in what is published.
    pub subscribers: u64,
    /// How many updates are published.
    pub published: u64,
    /// How many updates are pending.
    pub pending: u64,
    /// How many publications a look held up, modulo 2^64.
    pub held: u64,
}

const _: () = prove!(size_of::<CamelCounts>() == 32);

/// How many places there are of detection points, by their numbers: the greatest one is 14.
const POINTS: usize = 15;

/// How many reasons an answer may have, that of an answer which invokes a service among them.
const REASONS: usize = 6;

/// How many events were decided at each detection point with each reason, by both numbers: the six of detection point 0
/// first, then those of 1, and so on. Reason 0 is of those that invoke a service. Each count is modulo 2^64.
#[repr(C)]
#[derive(Clone, Copy, Debug, Drop)]
pub struct CamelDecisions {
    pub by: [u64; POINTS * REASONS],
}

const _: () = prove!(size_of::<CamelDecisions>() == 720);

impl CamelDecisions {
    /// No event was decided.
    pub fn none() -> CamelDecisions
        ensures { result ≡ no_decisions }
    {
        CamelDecisions {
            by: [0; POINTS * REASONS],
        }
    }

    /// Counts the decision of an event with the reason of this number, 0 to 5.
    #[inline]
    #[tactic(auto, using(crate::proofs::PointLemmas::bound, crate::proofs::PointLemmas::same_dp))]
    pub fn count(&mut self, event: &Event, reason: u8)
        requires { reason ≤ 5 }
        ensures { self.new ≡ with_decision self.old (event_dp (event_data event.now)) reason }
    {
        let at = usize::from(event.dp()) * REASONS + usize::from(reason);
        self.by[at] = self.by[at].wrapping_add(1);
    }
}
