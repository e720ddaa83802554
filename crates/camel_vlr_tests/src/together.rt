//! Updates that are submitted together and rejected: that the one which is rejected is named, and why.

use camel_criteria::Refusal;
use camel_fixtures::{imsi_of, row_update};
use camel_rows::Update;
use camel_table::Seed;
use camel_tbcd::Profile;
use camel_vlr::{Rejected, WaitFreeVlr};
use std::alloc::Global;
use std::test::Fail;

// The most updates that the store takes.
const MOST: u64 = 2;

/// Updates of which the last one is rejected.
#[derive(Drop)]
struct Groups {
    /// A row of a subscriber who has no record.
    unknown: Vec<Update>,
    /// A Cancel.
    cancelled: Vec<Update>,
    /// One more than the store takes.
    too_many: Vec<Update>,
}

fn rejected_groups(alloc: Global) -> Result<Groups, Fail> {
    let (imsi, other, third) = (imsi_of(1)?, imsi_of(2)?, imsi_of(3)?);
    let mut unknown = Vec::new(alloc);
    unknown.push(Update::Register { imsi: other })?;
    unknown.push(row_update(imsi)?)?;
    let mut cancelled = Vec::new(alloc);
    cancelled.push(Update::Register { imsi })?;
    cancelled.push(Update::Cancel { imsi })?;
    let mut too_many = Vec::new(alloc);
    too_many.push(Update::Register { imsi })?;
    too_many.push(Update::Register { imsi: other })?;
    too_many.push(Update::Register { imsi: third })?;
    Ok(Groups {
        unknown,
        cancelled,
        too_many,
    })
}

fn answers(alloc: Global, groups: Groups) -> Result<[Result<u64, Rejected>; 3], Refusal> {
    let (mut store, _sessions) = WaitFreeVlr::open_wait_free(
        alloc,
        1,
        MOST,
        Profile::One,
        Seed::fixed(),
    )?;
    let Groups {
        unknown,
        cancelled,
        too_many,
    } = groups;
    let answers = [
        store.submit_all(unknown),
        store.submit_all(cancelled),
        store.submit_all(too_many),
    ];
    store.abandon();
    Ok(answers)
}

const fn rejected(at: usize, why: Refusal) -> Result<u64, Rejected> {
    Err(Rejected { at, why })
}

#[test]
fn the_update_is_named_that_is_rejected_among_others(rt: HostRuntime) -> Result<(), Fail> {
    let wanted = [
        rejected(1, Refusal::UnidentifiedSubscriber),
        rejected(1, Refusal::UnexpectedDataValue),
        rejected(2, Refusal::HistoryFull),
    ];
    assert!(rt; answers(rt.alloc(), rejected_groups(rt.alloc())?)? == wanted);
    Ok(())
}
