//! What sessions answer, and the end of a store.

use crate::attempts::{MOST_ATTEMPTS, Refusals, again};
use crate::failure::{Failure, Lost, OUT_OF_MEMORY, check};
use crate::stage::{Stage, set};
use crate::values::{KNOWN, SECOND, STRANGER, SUBSCRIBERS, full_insert};
use camel_fixtures::{call_of, imsi_of};
use camel_rows::{Answer, Outcome, Reason, Records, Update};
use camel_vlr::StoreName;
use std::sync::Wait;

/// Learns a receipt, looks, decides and leaves.
pub(crate) fn look<S: StoreName, R: AllocGlobal + Print + Wait>(
    rt: &R,
    refusals: &mut Refusals,
    stage: &mut Stage<S>,
) -> Result<(), Failure> {
    set(rt, refusals, stage)?;
    stage.learn();
    stage.print(rt)?;
    for number in SUBSCRIBERS {
        println!(rt; "{:?}", stage.answer(&call_of(imsi_of(number)?)?)?)?;
    }
    Ok(())
}

/// Appends the answers to calls to a list that has one, at the first look of the session.
pub(crate) fn answer_all<S: StoreName, R: AllocGlobal + Print + Wait>(
    rt: &R,
    refusals: &mut Refusals,
    stage: &mut Stage<S>,
) -> Result<(), Failure> {
    set(rt, refusals, stage)?;
    let calls = [
        call_of(imsi_of(KNOWN)?)?,
        call_of(imsi_of(SECOND)?)?,
        call_of(imsi_of(STRANGER)?)?,
    ];
    let old = Answer {
        front: 0,
        outcome: Outcome::NoTrigger(Reason::NoCsi),
    };
    let mut answers = again(&mut refusals.stage, || {
        Ok(Vec::from_slice(rt.alloc(), &[old])?)
    })?;
    again(&mut refusals.call, || {
        match stage.answer_all(&calls, &mut answers) {
            Err(failure) => {
                check(answers.as_slice() == [old].as_slice(), Lost::Answer)?;
                check(!stage.has_seen_all(), Lost::Seen)?;
                Err(failure)
            }
            Ok(()) => Ok(()),
        }
    })?;
    check(stage.has_seen_all(), Lost::Seen)?;
    println!(rt; "{answers:?}")?;
    Ok(())
}

/// Closes a store that has a pending update.
pub(crate) fn close<S: StoreName, R: AllocGlobal + Print + Wait>(
    rt: &R,
    refusals: &mut Refusals,
    mut stage: Stage<S>,
) -> Result<(), Failure> {
    match fill(rt, refusals, &mut stage) {
        Ok(()) => {
            let records = close_again(rt, refusals, stage)?;
            print(rt, &records)
        }
        Err(failure) => {
            stage.end(rt);
            Err(failure)
        }
    }
}

fn print(rt: &impl Print, records: &Records) -> Result<(), Failure> {
    for number in SUBSCRIBERS {
        println!(rt; "{number}: {:?}", records.get(&imsi_of(number)?))?;
    }
    Ok(())
}

// Publishes data of two subscribers, and submits a Cancel, which the close drops.
fn fill<S: StoreName, R: AllocGlobal + Wait>(
    rt: &R,
    refusals: &mut Refusals,
    stage: &mut Stage<S>,
) -> Result<(), Failure> {
    set(rt, refusals, stage)?;
    let (known, second) = (imsi_of(KNOWN)?, imsi_of(SECOND)?);
    again(&mut refusals.stage, || {
        stage.submit(Update::Register { imsi: second })
    })?;
    again(&mut refusals.stage, || {
        stage.submit(full_insert(rt.alloc(), second)?)
    })?;
    again(&mut refusals.stage, || stage.publish(rt))?;
    again(&mut refusals.stage, || {
        stage.submit(Update::Cancel { imsi: known })
    })?;
    Ok(())
}

// Closes a store, and again if it came back, with all that it had.
fn close_again<S: StoreName, R: Wait>(
    rt: &R,
    refusals: &mut Refusals,
    stage: Stage<S>,
) -> Result<Records, Failure> {
    let mut left = stage;
    let before = left.shown();
    for _ in 0..MOST_ATTEMPTS {
        match left.close(rt) {
            Ok(records) => return Ok(records),
            Err((why, stage)) => {
                left = stage;
                refusals.call.add(why.code());
                if left.shown() != before {
                    left.end(rt);
                    return Err(Failure::Lost(Lost::Shown));
                }
            }
        }
    }
    left.end(rt);
    Err(Failure::Memory(OUT_OF_MEMORY))
}
