//! A switch, an HLR and calls: what the HLR was answered is what a call finds.

use crate::MapError::{
    DataMissing, MistypedParameter as Mistyped, UnexpectedDataValue as Unexpected,
    UnidentifiedSubscriber as Unidentified,
};
use crate::{Call, Change, MapError, Request, SetUp, run_switch};
use camel_criteria::{BasicService, Cause};
use camel_map::Operation::{
    self, CancelLocation as Cancel, DeleteSubscriberData as Delete, InsertSubscriberData as Insert,
};
use camel_rows::Reason::{self, NoCsi, Unknown};
use camel_rows::{CallEvent, Outcome};
use camel_tbcd::{CallAddress, Imsi};
use crossbeam_channel::{Sender, unbounded};
use std::alloc::Global;
use std::random::RandomSource;
use std::sync::Wait;
use std::thread;
use std::thread::Threads;

// The two InsertSubscriberData of `examples/switch.c`, which names each field: rows at 2 and 4, and at 4 only for a
// destination that begins with 4316.
const ROWS: &[u8] = &[
    0x30, 0x2f, 0xad, 0x2d, 0xa0, 0x2b, 0x30, 0x26, 0x30, 0x11, 0x0a, 0x01, 0x02, 0x02, 0x01, 0x64,
    0x80, 0x06, 0x91, 0x94, 0x71, 0x16, 0x00, 0x00, 0x81, 0x01, 0x00, 0x30, 0x11, 0x0a, 0x01, 0x04,
    0x02, 0x01, 0x65, 0x80, 0x06, 0x91, 0x94, 0x71, 0x16, 0x00, 0x00, 0x81, 0x01, 0x01, 0x80, 0x01,
    0x03,
];

const CRITERIA: &[u8] = &[
    0x30, 0x15, 0xad, 0x13, 0xa4, 0x11, 0x30, 0x0f, 0x0a, 0x01, 0x04, 0xa0, 0x0a, 0x80, 0x01, 0x01,
    0xa1, 0x05, 0x04, 0x03, 0x91, 0x34, 0x61,
];

// The IMSI 26201 in TBCD octets, a DeleteSubscriberData of all CAMEL data, and a CancelLocation.
const IMSI: &[u8] = &[0x62, 0x02, 0xf1];

const DELETE: &[u8] = &[0x30, 0x07, 0x80, 0x03, 0x62, 0x02, 0xf1, 0x89, 0x00];

const CANCEL: &[u8] = &[0xa3, 0x05, 0x04, 0x03, 0x62, 0x02, 0xf1];

const DESTINATION: &[u8] = &[0x91, 0x34, 0x61, 0x05];

/// What the HLR sends, an operation or else a location update, with the arguments; the error that it is answered; and the
/// service key of a call then at DP 2, or why nothing triggers.
#[derive(Clone, Copy)]
struct Step(
    Option<Operation>,
    &'static [&'static [u8]],
    Option<MapError>,
    Result<u32, Reason>,
);

const STEPS: [Step; 13] = [
    // There is no record: an Insert makes none, and a location update that is refused leaves none behind.
    Step(Some(Insert), &[ROWS], Some(Unidentified), Err(Unknown)),
    Step(None, &[CRITERIA], Some(DataMissing), Err(Unknown)),
    Step(Some(Insert), &[ROWS], Some(Unidentified), Err(Unknown)),
    // There is a record: what is refused leaves it, also when another operation is published.
    Step(None, &[ROWS, CRITERIA], None, Ok(100)),
    Step(None, &[CRITERIA], Some(DataMissing), Ok(100)),
    Step(None, &[CRITERIA, CRITERIA], Some(Unexpected), Ok(100)),
    Step(Some(Insert), &[&[0x30]], Some(Mistyped), Ok(100)),
    Step(Some(Insert), &[CRITERIA], None, Ok(100)),
    // A location update leaves only what came.
    Step(None, &[], None, Err(NoCsi)),
    Step(Some(Insert), &[ROWS], None, Ok(100)),
    Step(Some(Delete), &[DELETE], None, Err(NoCsi)),
    Step(Some(Cancel), &[CANCEL], None, Err(Unknown)),
    Step(None, &[ROWS, CRITERIA], None, Ok(100)),
];

/// What the test sends to the switch.
#[derive(Drop)]
struct Network {
    alloc: Global,
    requests: Sender<Request>,
    calls: Sender<Call>,
}

impl Network {
    /// What a call is given at its set-up; None if it is not decided.
    fn set_up<R: Wait>(&self, rt: &R) -> Option<SetUp> {
        let (reply, decided) = unbounded(self.alloc).ok()?;
        let event = CallEvent::CollectedInfo {
            imsi: Imsi::from_tbcd(IMSI).ok()?,
            destination: CallAddress::from_bytes(DESTINATION).ok()?,
            basic: BasicService::Tele(0x11),
            forwarded: false,
        };
        self.calls.send(rt, Call { event, reply }).ok()?;
        decided.recv(rt).ok()?.ok()
    }

    /// What the HLR is answered; None if it is not answered.
    fn answer<R: Wait>(&self, rt: &R, step: &Step) -> Option<Result<(), MapError>> {
        let (reply, answered) = unbounded(self.alloc).ok()?;
        let imsi = Imsi::from_tbcd(IMSI).ok()?;
        let change = match step.0 {
            None => Change::location_update(self.alloc, imsi, step.1),
            Some(operation) => Change::from_map(self.alloc, operation, imsi, step.1.first()?),
        };
        match change {
            Ok(change) => self.requests.send(rt, Request { change, reply }).ok()?,
            Err(error) => return Some(Err(error)),
        }
        answered.recv(rt).ok()
    }

    fn is_so<R: Wait>(&self, rt: &R, step: &Step) -> Option<bool> {
        let answered = self.answer(rt, step)?;
        let found = match self.set_up(rt)?.outcome {
            Outcome::Trigger { key, .. } => Ok(key),
            Outcome::NoTrigger(reason) => Err(reason),
        };
        Some(answered.err() == step.2 && found == step.3)
    }

    fn are_so<R: Wait>(&self, rt: &R, steps: &[Step]) -> bool {
        steps.iter().all(|step| self.is_so(rt, step) == Some(true))
    }

    /// Whether a call keeps the record of its set-up over a DeleteSubscriberData.
    fn keeps_data<R: Wait>(&self, rt: &R) -> Option<bool> {
        let failure = CallEvent::RouteSelectFailure {
            imsi: Imsi::from_tbcd(IMSI).ok()?,
            destination: CallAddress::from_bytes(DESTINATION).ok()?,
            basic: BasicService::Tele(0x11),
            forwarded: false,
            cause: Cause::new(1)?,
        };
        let kept = self.set_up(rt)?;
        let is_deleted = self.is_so(rt, &Step(Some(Delete), &[DELETE], None, Err(NoCsi)))?;
        Some(is_deleted && matches!(kept.later(&failure), Outcome::Trigger { key: 101, .. }))
    }
}

// The senders end here, and with them the switch.
fn drive<R: Threads + Wait + Sync>(rt: &R, network: Network) -> bool {
    let again = [Step(Some(Insert), &[ROWS], None, Ok(100)); 200];
    let are_so = network.are_so(rt, &STEPS);
    let (one, other) = thread::join(
        rt,
        || network.are_so(rt, &again),
        || network.are_so(rt, &again),
    );
    are_so && one && other && network.keeps_data(rt) == Some(true)
}

fn run<R: RandomSource + Threads + Wait + Sync>(rt: &R, alloc: Global) -> Option<bool> {
    let (requests, to_writer) = unbounded(alloc).ok()?;
    let (calls, to_callers) = unbounded(alloc).ok()?;
    let network = Network {
        alloc,
        requests,
        calls,
    };
    let (ended, is_so) = thread::join(
        rt,
        || run_switch(rt, alloc, 2, to_writer, to_callers),
        || drive(rt, network),
    );
    Some(ended.is_ok() && is_so)
}

#[test]
fn a_call_finds_what_the_hlr_was_answered(rt: HostRuntime) {
    assert!(rt; run(&rt, rt.alloc()) == Some(true));
}
