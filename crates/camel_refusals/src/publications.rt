//! Publications, each of which changes another copy than the one before it.

use crate::attempts::{Refusals, again};
use crate::failure::{Failure, Lost, check};
use crate::stage::{Shown, Stage};
use crate::values::full_insert;
use camel_fixtures::imsi_of;
use camel_rows::Update;
use camel_vlr::StoreName;
use std::sync::Wait;

/// What a writer does after a publication that was refused memory.
#[derive(Clone, Copy)]
pub(crate) enum Next {
    /// It publishes again.
    Publish,
    /// It submits an update, and publishes then.
    Submit,
}

/// Makes the publication of this number, of a subscriber who registers and is sent all data.
pub(crate) fn publish<S: StoreName, R: AllocGlobal + Print + Wait>(
    rt: &R,
    refusals: &mut Refusals,
    stage: &mut Stage<S>,
    number: u64,
    next: Next,
) -> Result<(), Failure> {
    for subscriber in 1..number {
        submit_both(rt, refusals, stage, subscriber)?;
        again(&mut refusals.stage, || stage.publish(rt))?;
    }
    submit_both(rt, refusals, stage, number)?;
    match next {
        Next::Publish => publish_again(rt, refusals, stage, number)?,
        Next::Submit => submit_and_publish(rt, refusals, stage, number)?,
    }
    stage.print(rt)
}

fn submit_both<S: StoreName, R: AllocGlobal>(
    rt: &R,
    refusals: &mut Refusals,
    stage: &mut Stage<S>,
    subscriber: u64,
) -> Result<(), Failure> {
    let imsi = imsi_of(subscriber)?;
    again(
        &mut refusals.stage,
        || stage.submit(Update::Register { imsi }),
    )?;
    again(
        &mut refusals.stage,
        || stage.submit(full_insert(rt.alloc(), imsi)?),
    )?;
    Ok(())
}

// Publishes, and again if memory was refused.
fn publish_again<S: StoreName, R: Wait>(
    rt: &R,
    refusals: &mut Refusals,
    stage: &mut Stage<S>,
    number: u64,
) -> Result<(), Failure> {
    let before = stage.shown()?;
    let front = again(&mut refusals.call, || match stage.publish(rt) {
        Err(failure) => {
            check_not_published(stage, &before, number)?;
            Err(failure)
        }
        published => published,
    })?;
    check_published(stage, front)
}

// Publishes, submits an update, and publishes again. If the first publication was refused memory, the update comes
// after what is pending, and the second one publishes all of it.
fn submit_and_publish<S: StoreName, R: Wait>(
    rt: &R,
    refusals: &mut Refusals,
    stage: &mut Stage<S>,
    number: u64,
) -> Result<(), Failure> {
    let before = stage.shown()?;
    match stage.publish(rt) {
        Ok(front) => check_published(stage, front)?,
        Err(Failure::Memory(code)) => {
            refusals.call.add(code);
            check_not_published(stage, &before, number)?;
        }
        Err(failure) => return Err(failure),
    }
    let wanted = stage.accepted().saturating_add(1);
    let imsi = imsi_of(number.saturating_add(1))?;
    let submitted = again(
        &mut refusals.end,
        || stage.submit(Update::Register { imsi }),
    )?;
    check(submitted == wanted, Lost::Number)?;
    let front = again(&mut refusals.end, || stage.publish(rt))?;
    check(front == wanted, Lost::Publication)?;
    check_published(stage, front)
}

// The store shows what it showed, and the next subscriber has no record.
fn check_not_published<S: StoreName>(
    stage: &mut Stage<S>,
    before: &Shown,
    number: u64,
) -> Result<(), Failure> {
    stage.check_shown(before)?;
    stage.check_unknown(number.saturating_add(1))
}

// A publication of this front has left nothing pending.
fn check_published<S: StoreName>(stage: &Stage<S>, front: u64) -> Result<(), Failure> {
    check(stage.counts() == (front, 0), Lost::Publication)
}
