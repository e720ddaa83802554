ghost use Rattle.std.specs.Prelude.{◌≡◌, Ok, Err, None, IfSome};
ghost use Rattle.camel_c_data.specs.declared.data_fault.DataFault.TheVariants.{Malformed};
ghost use Rattle.camel_rows.specs.Decision.{event_data};
ghost use Rattle.camel_c_data.specs.Event.{busy_in, cause_in, collected_info_in, event_in, no_answer_in};
ghost use Rattle.camel_c_data.specs.Event.{route_select_failure_in, terminating_attempt_in};

use crate::{CamelAddress, CamelBasicService, CamelImsi, DataFault};
use camel_criteria::{
    BUSY, COLLECTED_INFO, Cause, NO_ANSWER, ROUTE_SELECT_FAILURE, TERMINATING_ATTEMPT,
};
use camel_rows::{Event, TdpEvent};
use std::mem::size_of;

/// A call event at a trigger detection point (TS 23.078): 2, 4, 12, 13 or 14.
///
/// The destination and whether the call is forwarded are read at detection points 2 and 4, and the cause of the release
/// at 4, 13 and 14. What is not read may be anything.
#[repr(C)]
#[derive(Clone, Copy, Debug)]
pub struct CamelEvent {
    /// The served subscriber.
    pub imsi: CamelImsi,
    /// The destination of the call.
    pub destination: CamelAddress,
    /// The basic service.
    pub basic: CamelBasicService,
    /// The trigger detection point.
    pub dp: u8,
    /// Whether the call is forwarded.
    pub is_forwarded: u8,
    /// The cause of the release, 0 to 127.
    pub cause: u8,
}

const _: () = prove!(size_of::<CamelEvent>() == 40);

impl CamelEvent {
    /// Makes the event that the fields are in a room of the caller's, with its destination borrowed where it lies: as a
    /// value that is returned, it would be moved.
    ///
    /// The room is `None` if the event is malformed (502): if the detection point is none of these, or if a field that is
    /// read is no IMSI, no address or no cause.
    #[inline]
    #[tactic(auto, unfolding(crate::specs::Event::event_in))]
    pub fn lend<'a>(&'a self, room: &mut Option<Event<'a>>)
        ensures lent { IfSome room.new (λ event. event_in self.now ≡ Ok (event_data event)) }
        ensures malformed { room.new ≡ None → event_in self.now ≡ Err Malformed }
    {
        *room = None;
        match self.dp {
            COLLECTED_INFO => self.collected_info(room),
            ROUTE_SELECT_FAILURE => self.route_select_failure(room),
            TERMINATING_ATTEMPT => self.terminating_attempt(room),
            BUSY => self.busy(room),
            NO_ANSWER => self.no_answer(room),
            _ => {}
        }
    }

    // Each kind of event is made by a call of its own. Put into one function, the fields of all kinds would be written
    // in the pieces of each other, and a processor waits when it reads a field that was written in pieces.
    #[inline(never)]
    #[tactic(auto, unfolding(crate::specs::Fields::call_address_in))]
    fn collected_info<'a>(&'a self, room: &mut Option<Event<'a>>)
        requires { room.old ≡ None }
        ensures lent { IfSome room.new (λ event. collected_info_in self.now ≡ Ok (event_data event)) }
        ensures malformed { room.new ≡ None → collected_info_in self.now ≡ Err Malformed }
    {
        let (Ok(imsi), Ok(destination)) = (self.imsi.read(), self.destination.lend()) else {
            return;
        };
        *room = Some(TdpEvent::CollectedInfo {
            imsi,
            destination,
            basic: self.basic.read(),
            forwarded: self.is_forwarded != 0,
        });
    }

    #[inline(never)]
    #[tactic(auto, unfolding(crate::specs::Fields::call_address_in))]
    fn route_select_failure<'a>(&'a self, room: &mut Option<Event<'a>>)
        requires { room.old ≡ None }
        ensures lent { IfSome room.new (λ event. route_select_failure_in self.now ≡ Ok (event_data event)) }
        ensures malformed { room.new ≡ None → route_select_failure_in self.now ≡ Err Malformed }
    {
        let (Ok(imsi), Ok(destination), Ok(cause)) = (
            self.imsi.read(),
            self.destination.lend(),
            read_cause(self.cause),
        ) else {
            return;
        };
        *room = Some(TdpEvent::RouteSelectFailure {
            imsi,
            destination,
            basic: self.basic.read(),
            forwarded: self.is_forwarded != 0,
            cause,
        });
    }

    #[inline(never)]
    fn terminating_attempt<'a>(&'a self, room: &mut Option<Event<'a>>)
        requires { room.old ≡ None }
        ensures lent { IfSome room.new (λ event. terminating_attempt_in self.now ≡ Ok (event_data event)) }
        ensures malformed { room.new ≡ None → terminating_attempt_in self.now ≡ Err Malformed }
    {
        let Ok(imsi) = self.imsi.read() else {
            return;
        };
        *room = Some(TdpEvent::TerminatingAttempt {
            imsi,
            basic: self.basic.read(),
        });
    }

    #[inline(never)]
    fn busy<'a>(&'a self, room: &mut Option<Event<'a>>)
        requires { room.old ≡ None }
        ensures lent { IfSome room.new (λ event. busy_in self.now ≡ Ok (event_data event)) }
        ensures malformed { room.new ≡ None → busy_in self.now ≡ Err Malformed }
    {
        let (Ok(imsi), Ok(cause)) = (self.imsi.read(), read_cause(self.cause)) else {
            return;
        };
        *room = Some(TdpEvent::Busy {
            imsi,
            basic: self.basic.read(),
            cause,
        });
    }

    #[inline(never)]
    fn no_answer<'a>(&'a self, room: &mut Option<Event<'a>>)
        requires { room.old ≡ None }
        ensures lent { IfSome room.new (λ event. no_answer_in self.now ≡ Ok (event_data event)) }
        ensures malformed { room.new ≡ None → no_answer_in self.now ≡ Err Malformed }
    {
        let (Ok(imsi), Ok(cause)) = (self.imsi.read(), read_cause(self.cause)) else {
            return;
        };
        *room = Some(TdpEvent::NoAnswer {
            imsi,
            basic: self.basic.read(),
            cause,
        });
    }
}

/// The cause of this value; over 127 it is malformed.
fn read_cause(value: u8) -> Result<Cause, DataFault>
    ensures { result ≡ cause_in value }
{
    match Cause::new(value) {
        Some(cause) => Ok(cause),
        None => Err(DataFault::Malformed),
    }
}
