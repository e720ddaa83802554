//! Runs with threads, which a gate holds until calls and a publication are made at once, or stops.

use camel_replay_lib::{Gate, MAX_LIMIT, ReplayFault, replay_threads};
use camel_tbcd::Profile;
use std::alloc::Global;
use std::sync::Wait;
use std::sync::atomic::{AtomicU64, Ordering};
use std::thread;
use std::thread::Threads;

/// What a gate refuses.
#[derive(Clone, Copy, PartialEq, Eq)]
enum Stops {
    Nothing,
    Calls,
    Publications,
}

// What has come, as bits.
const CALL_0_BEGAN: u64 = 1;

const CALL_1_BEGAN: u64 = 2;

const PUBLICATION_BEGAN: u64 = 4;

const CALL_0_ENDED: u64 = 8;

const CALL_1_ENDED: u64 = 16;

/// Lets the calls 0 and 1 be answered once both and the publication of 3 updates have begun, and lets that go on once
/// both are answered.
#[derive(Drop)]
struct Meeting {
    came: AtomicU64,
    stops: Stops,
}

// How many turns a gate waits at most.
const TURNS: u64 = 10_000_000;

impl Meeting {
    // Sets the first bits, and waits until all of the others are set. Whether they were in time.
    fn meets(&self, came: u64, wanted: u64) -> bool {
        self.came.fetch_or(came, Ordering::SeqCst);
        for _ in 0..TURNS {
            if self.came.load(Ordering::SeqCst) & wanted == wanted {
                return true;
            }
            thread::yield_now();
        }
        false
    }
}

impl Gate for Meeting {
    fn before(&self, call: u64) -> bool {
        let all = CALL_0_BEGAN | CALL_1_BEGAN | PUBLICATION_BEGAN;
        match call {
            _ if self.stops == Stops::Calls => false,
            0 => self.meets(CALL_0_BEGAN, all),
            1 => self.meets(CALL_1_BEGAN, all),
            _ => true,
        }
    }

    fn after(&self, call: u64) {
        match call {
            0 => self.came.fetch_or(CALL_0_ENDED, Ordering::SeqCst),
            1 => self.came.fetch_or(CALL_1_ENDED, Ordering::SeqCst),
            _ => 0,
        };
    }

    fn publishing(&self, front: u64) -> bool {
        match front {
            _ if self.stops == Stops::Publications => false,
            3 => self.meets(PUBLICATION_BEGAN, CALL_0_ENDED | CALL_1_ENDED),
            _ => true,
        }
    }
}

const SCRIPT: &str = "register,262010000000001
insert,262010000000001,o:2:100:919471160000:0
publish
call,2,262010000000001,t11,91214365,n
call,2,262010000000001,t11,912143,n
cancel,262010000000001
publish
call,2,262010000000001,t11,912143,n
";

const OUTPUT: &str = "accepted 1
accepted 2
published 2
accepted 3
published 3
session 0 call 0 front 2 trigger 2 100 919471160000 continue
session 0 call 2 front 3 none unknown
session 1 call 1 front 2 trigger 2 100 919471160000 continue
audit ok
";

// `Stopped` (105).
const STOPPED: u16 = 105;

// How often a run is repeated at most.
const REPEATS: usize = 100;

/// How a run of two sessions ends, with a new gate: with a fault or none, and its output. On a machine that has much else
/// to do it is repeated: if it ends with `NoPlace` (103), `NoGuard` (104) or `NoWorker` (106), or with `Stopped` of a
/// gate that only waits.
fn run<R: Threads + Wait>(rt: &R, alloc: Global, stops: Stops) -> (Option<u16>, Vec<u8>) {
    let mut ran = run_once(rt, alloc, stops);
    for _ in 0..REPEATS {
        match ran.0 {
            Some(103 | 104 | 106) => {}
            Some(STOPPED) if stops == Stops::Nothing => {}
            _ => break,
        }
        ran = run_once(rt, alloc, stops);
    }
    ran
}

fn run_once<R: Threads + Wait>(rt: &R, alloc: Global, stops: Stops) -> (Option<u16>, Vec<u8>) {
    let gate = Meeting {
        came: AtomicU64::new(0),
        stops,
    };
    let mut output = Vec::new(alloc);
    let ended = replay_threads(
        rt,
        alloc,
        SCRIPT.as_bytes(),
        &mut output,
        2,
        MAX_LIMIT,
        Profile::One,
        &gate,
    );
    (ended.err().map(|fault| fault.code), output)
}

// If one of them was made behind another, the run would end with `Stopped`. The calls see none of a publication that
// goes on behind them.
#[test]
fn two_calls_and_a_publication_are_made_at_once(rt: HostRuntime) {
    let (fault, output) = run(&rt, rt.alloc(), Stops::Nothing);
    assert_eq!(rt; fault, None);
    assert!(rt; output.as_slice() == OUTPUT.as_bytes());
}

#[test]
fn a_gate_stops_calls_and_publications(rt: HostRuntime) {
    for stops in [Stops::Calls, Stops::Publications] {
        let (fault, output) = run(&rt, rt.alloc(), stops);
        assert_eq!(rt; fault, Some(STOPPED));
        assert!(rt; output.is_empty());
    }
}
