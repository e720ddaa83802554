//! The Inserts of a dialogue, joined.

ghost use Rattle.std.specs.Prelude.{◌≡◌, Err, IfOk, IfSome};
ghost use Rattle.std.specs.Option.{option_or};
ghost use Rattle.camel_map.specs.Arrival.{part_of, IsJoin, IsOfLists, IsReceived, join_fault};
ghost use Rattle.camel_map.specs.Update.{join_fault_code};

pub(crate) mod list;

use crate::items::ReceivedList;
use crate::join::list::join_lists;
use crate::{Arrival, CapabilityHandling};
use camel_criteria::Refusal;
use camel_rows::Update;
use std::alloc::Global;

/// Why two arrivals are not joined.
#[derive(Clone, Copy, Debug, PartialEq, Eq)]
pub enum JoinFault {
    /// 408: one of the two is no Insert.
    NoInsert,
    /// 409: the two are of different subscribers.
    OtherSubscriber,
    /// The criteria of a CSI are refused as one list would be that has the entries of both, with the refusal's number:
    /// `UnexpectedDataValue` (36) for more than 10 entries or two of one detection point, or `OutOfMemory` (102).
    Refused(Refusal),
}

impl JoinFault {
    /// Its number.
    pub fn code(&self) -> u16
        ensures { result ≡ join_fault_code self.now }
    {
        match self {
            JoinFault::NoInsert => 408,
            JoinFault::OtherSubscriber => 409,
            JoinFault::Refused(refusal) => refusal.code(),
        }
    }
}

impl From<Refusal> for JoinFault {
    ghost use Rattle.std.specs.Prelude.{◌≡◌};
    ghost use Rattle.camel_map.specs.declared.join.JoinFault.TheVariants.{Refused};

    ghost from_gives = { λ refusal fault. fault ≡ Refused refusal };

    fn from(refusal: Refusal) -> JoinFault {
        JoinFault::Refused(refusal)
    }
}

impl Arrival {
    /// This Insert and the next one of its dialogue, as one. A CSI of the next one stands in place of this one's, as an
    /// HLR does not split it over operations (TS 29.002); if the next one has none, this one's stays. An HLR may split
    /// lists of criteria: one that comes in both is the first one with the entries of the next one behind it, and all
    /// rules of received lists hold for the whole, as if one operation had brought it. Of a camelCapabilityHandling
    /// that came in both, the one of the next stands.
    ///
    /// Both are as before, and the criteria are copied: it takes memory for them.
    ///
    /// Fails with `NoInsert` (408) if one of the two is no Insert, with `OtherSubscriber` (409) if they are of
    /// different subscribers, and as a list of the criteria of both is refused, first the O-CSI's, then the VT-CSI's:
    /// with `UnexpectedDataValue` (36) for more than 10 entries, ignored ones among them, or for two of one detection
    /// point, and with `OutOfMemory` (102).
    pub fn join(&self, alloc: Global, next: &Arrival) -> Result<Arrival, JoinFault>
        ensures fault { IfSome (join_fault self.now.update next.now.update) (λ why. result ≡ Err why) }
        // It is what one operation brings that has the lists of both.
        ensures joined { IsJoin self.now next.now result }
        // So it can be joined with the next one of the dialogue, if both were decoded or joined.
        ensures received { IsReceived self.now → IsReceived next.now → IfOk result IsOfLists }
    {
        let Update::Insert {
            imsi,
            o,
            o_criteria: o_set,
            vt,
            t_criteria: t_set,
        } = &self.update
        else {
            return Err(JoinFault::NoInsert);
        };
        let Update::Insert {
            imsi: next_imsi,
            o: next_o,
            o_criteria: next_o_set,
            vt: next_vt,
            t_criteria: next_t_set,
        } = &next.update
        else {
            return Err(JoinFault::NoInsert);
        };
        if imsi != next_imsi {
            return Err(JoinFault::OtherSubscriber);
        }
        let (counts, more) = (&self.counts, &next.counts);
        let (earlier, later) = (&self.capabilities, &next.capabilities);
        Ok(Arrival::insert(
            *imsi,
            later_csi(*o, counts.o, *next_o, more.o),
            join_lists(alloc, o_set, counts.o_criteria, next_o_set, more.o_criteria)?,
            later_csi(*vt, counts.vt, *next_vt, more.vt),
            join_lists(alloc, t_set, counts.t_criteria, next_t_set, more.t_criteria)?,
            CapabilityHandling {
                o: later.o.or(earlier.o),
                vt: later.vt.or(earlier.vt),
            },
        ))
    }
}

/// The CSI of the next Insert with the count of its rows, or that of the first one if the next one has none.
fn later_csi<C: Copy>(
    one: Option<C>,
    count: usize,
    next: Option<C>,
    more: usize,
) -> Option<ReceivedList<C>>
    ensures { result ≡ option_or (part_of next more) (part_of one count) }
{
    match (one, next) {
        (_, Some(kept)) => Some(ReceivedList { kept, count: more }),
        (Some(kept), None) => Some(ReceivedList { kept, count }),
        (None, None) => None,
    }
}
