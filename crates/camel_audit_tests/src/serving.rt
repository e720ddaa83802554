//! Workers that serve calls: that they answer all of them, or end where their gate refuses one.

use camel_audit::{Ended, Gate, Job, OpenGate, Served, audit, serve};
use camel_criteria::Refusal;
use camel_fixtures::{call_of, imsi_of};
use camel_table::Seed;
use camel_tbcd::Profile;
use camel_vlr::Vlr;
use std::alloc::Global;
use std::sync::Wait;
use std::sync::atomic::{AtomicU64, Ordering};
use std::test::Fail;

/// A gate that lets no call through from this number on, and counts those that were answered.
#[derive(Drop)]
struct StopAt {
    refused: u64,
    answered: AtomicU64,
}

impl Gate for StopAt {
    fn before(&self, call: u64) -> bool {
        call < self.refused
    }

    fn after(&self, call: u64) {
        self.answered
            .store(call.saturating_add(1), Ordering::SeqCst);
    }

    fn publishing(&self, _front: u64) -> bool {
        true
    }
}

// So many calls of a subscriber.
fn jobs(alloc: Global, count: u64) -> Result<Vec<Job>, Fail> {
    let event = call_of(imsi_of(1)?)?;
    let mut jobs = Vec::new(alloc);
    for call in 0..count {
        jobs.push(Job { call, event })?;
    }
    Ok(jobs)
}

// What the worker of an empty store gives back.
fn served<R: Wait, G: Gate>(
    rt: &R,
    alloc: Global,
    jobs: Vec<Job>,
    gate: &G,
) -> Result<Served, Refusal> {
    let (store, mut sessions) = Vlr::open_seeded(rt, alloc, 1, 1, Profile::One, Seed::fixed())?;
    let served = match sessions.pop() {
        Some(session) => Ok(serve(alloc, session, store.receipt(), jobs, gate)),
        None => Err(Refusal::NoPlace),
    };
    store.end(rt);
    served
}

#[test]
fn all_calls_are_answered(rt: HostRuntime) -> Result<(), Fail> {
    let jobs = jobs(rt.alloc(), 1000)?;
    let Served {
        transcript,
        ended,
        ..
    } = served(&rt, rt.alloc(), jobs, &OpenGate)?;
    assert_eq!(rt; (ended, transcript.entries.len()), (Ended::All, 1000));
    let audited = audit(rt.alloc(), &[], &[transcript], Profile::One);
    assert_eq!(rt; audited, Ok(()));
    Ok(())
}

#[test]
fn a_gate_stops_a_worker_at_a_call(rt: HostRuntime) -> Result<(), Fail> {
    let gate = StopAt {
        refused: 7,
        answered: AtomicU64::new(0),
    };
    let jobs = jobs(rt.alloc(), 1000)?;
    let Served {
        transcript,
        ended,
        ..
    } = served(&rt, rt.alloc(), jobs, &gate)?;
    assert_eq!(rt; (ended, transcript.entries.len()), (Ended::Stopped, 7));
    assert_eq!(rt; gate.answered.load(Ordering::SeqCst), 7);
    Ok(())
}
