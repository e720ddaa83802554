ghost use Rattle.std.specs.Prelude.{◌≡◌};
ghost use Rattle.camel_rows.specs.Decision.{event_basic, event_cause, event_data, event_dp, event_imsi, shown_as};
ghost use Rattle.camel_rows.specs.Decision.{shown_of, vt_event};

use camel_criteria::{
    BUSY, BasicService, COLLECTED_INFO, Cause, NO_ANSWER, OEvent, ROUTE_SELECT_FAILURE,
    TERMINATING_ATTEMPT, TEvent,
};
use camel_tbcd::{Address, CallAddress, Imsi};

/// A call event at a trigger detection point (TS 23.078), with its destination as an `A`.
///
/// Each has the IMSI of the served subscriber and the basic service. An originating or forwarded call has its
/// destination, and whether it is forwarded. An event after a release has the cause of it.
#[derive(Clone, Copy, Debug)]
pub enum TdpEvent<A> {
    /// DP 2, collectedInfo.
    CollectedInfo {
        imsi: Imsi,
        destination: A,
        basic: BasicService,
        forwarded: bool,
    },
    /// DP 4, routeSelectFailure.
    RouteSelectFailure {
        imsi: Imsi,
        destination: A,
        basic: BasicService,
        forwarded: bool,
        cause: Cause,
    },
    /// DP 12, termAttemptAuthorized.
    TerminatingAttempt {
        imsi: Imsi,
        basic: BasicService,
    },
    /// DP 13, tBusy.
    Busy {
        imsi: Imsi,
        basic: BasicService,
        cause: Cause,
    },
    /// DP 14, tNoAnswer.
    NoAnswer {
        imsi: Imsi,
        basic: BasicService,
        cause: Cause,
    },
}

/// A call event with a borrowed destination.
pub type Event<'a> = TdpEvent<Address<'a>>;

/// A call event with an owned destination.
pub type CallEvent = TdpEvent<CallAddress>;

impl<A> TdpEvent<A> {
    /// The trigger detection point.
    pub fn dp(&self) -> u8
        ensures { result ≡ event_dp self.now }
    {
        match self {
            TdpEvent::CollectedInfo { .. } => COLLECTED_INFO,
            TdpEvent::RouteSelectFailure { .. } => ROUTE_SELECT_FAILURE,
            TdpEvent::TerminatingAttempt { .. } => TERMINATING_ATTEMPT,
            TdpEvent::Busy { .. } => BUSY,
            TdpEvent::NoAnswer { .. } => NO_ANSWER,
        }
    }

    /// The served subscriber.
    pub fn imsi(&self) -> Imsi
        ensures { result ≡ event_imsi self.now }
    {
        match self {
            TdpEvent::CollectedInfo { imsi, .. }
            | TdpEvent::RouteSelectFailure { imsi, .. }
            | TdpEvent::TerminatingAttempt { imsi, .. }
            | TdpEvent::Busy { imsi, .. }
            | TdpEvent::NoAnswer { imsi, .. } => *imsi,
        }
    }

    /// The basic service.
    pub fn basic(&self) -> BasicService
        ensures { result ≡ event_basic self.now }
    {
        match self {
            TdpEvent::CollectedInfo { basic, .. }
            | TdpEvent::RouteSelectFailure { basic, .. }
            | TdpEvent::TerminatingAttempt { basic, .. }
            | TdpEvent::Busy { basic, .. }
            | TdpEvent::NoAnswer { basic, .. } => *basic,
        }
    }

    /// The cause of the release, if the detection point comes after one.
    pub fn cause(&self) -> Option<Cause>
        ensures { result ≡ event_cause self.now }
    {
        match self {
            TdpEvent::CollectedInfo { .. } | TdpEvent::TerminatingAttempt { .. } => None,
            TdpEvent::RouteSelectFailure { cause, .. }
            | TdpEvent::Busy { cause, .. }
            | TdpEvent::NoAnswer { cause, .. } => Some(*cause),
        }
    }
}

impl<'a> TdpEvent<Address<'a>> {
    /// What it shows to the criteria of the O-CSI, if it is tested against these.
    // Not an enum with what it shows to those of the VT-CSI: a processor would wait for fields of one kind that were
    // written in the pieces of the other.
    pub(crate) fn show_o(&self) -> Option<OEvent<'a>>
        ensures { shown_as result (vt_event (event_data self.now)) ≡ shown_of (event_data self.now) }
    {
        match self {
            TdpEvent::CollectedInfo {
                destination,
                basic,
                forwarded,
                ..
            }
            | TdpEvent::RouteSelectFailure {
                destination,
                basic,
                forwarded,
                ..
            } => Some(OEvent {
                destination: *destination,
                basic: *basic,
                forwarded: *forwarded,
                cause: self.cause(),
            }),
            TdpEvent::TerminatingAttempt { .. }
            | TdpEvent::Busy { .. }
            | TdpEvent::NoAnswer { .. } => None,
        }
    }

    /// What it shows to the criteria of the VT-CSI, if it is tested against these.
    pub(crate) fn show_vt(&self) -> TEvent
        ensures { result ≡ vt_event (event_data self.now) }
    {
        TEvent {
            basic: self.basic(),
            cause: self.cause(),
        }
    }
}

impl TdpEvent<CallAddress> {
    /// This event, with its destination borrowed.
    // As a call of its own: put into its caller, the fields of one kind of event would be written in the pieces of
    // another kind, and a processor waits when it reads a field that was written in pieces.
    #[inline(never)]
    pub fn lend(&self) -> Event<'_>
        ensures { event_data result ≡ self.now }
    {
        match *self {
            TdpEvent::CollectedInfo {
                imsi,
                ref destination,
                basic,
                forwarded,
            } => TdpEvent::CollectedInfo {
                imsi,
                destination: destination.lend(),
                basic,
                forwarded,
            },
            TdpEvent::RouteSelectFailure {
                imsi,
                ref destination,
                basic,
                forwarded,
                cause,
            } => TdpEvent::RouteSelectFailure {
                imsi,
                destination: destination.lend(),
                basic,
                forwarded,
                cause,
            },
            TdpEvent::TerminatingAttempt { imsi, basic } => {
                TdpEvent::TerminatingAttempt { imsi, basic }
            }
            TdpEvent::Busy { imsi, basic, cause } => TdpEvent::Busy { imsi, basic, cause },
            TdpEvent::NoAnswer { imsi, basic, cause } => TdpEvent::NoAnswer { imsi, basic, cause },
        }
    }
}
