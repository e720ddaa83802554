//! That what passes in a part is said to pass, which no contract says.

use crate::transcripts::{PlainAnswer, row_updates, transcript_of};
use camel_audit::{Part, passes_in_part};
use camel_fixtures::{imsi_of, row_update};
use camel_rows::Update;
use camel_tbcd::Profile;
use std::alloc::Global;
use std::test::Fail;

// Whether what a session answered passes in the part without the subscriber 1, and in that with the subscriber.
fn passes(
    alloc: Global,
    updates: &[Update],
    answers: &[PlainAnswer],
) -> Result<(bool, bool), Fail> {
    let transcripts = [transcript_of(alloc, answers)?];
    let other = Part {
        number: 0,
        count: 2,
    };
    let own = Part {
        number: 1,
        count: 2,
    };
    Ok((
        passes_in_part(alloc, updates, &transcripts, Profile::One, other)?,
        passes_in_part(alloc, updates, &transcripts, Profile::One, own)?,
    ))
}

#[test]
fn an_answer_is_of_the_part_of_its_subscriber(rt: HostRuntime) -> Result<(), Fail> {
    let updates = row_updates(rt.alloc(), imsi_of(1)?)?;
    let explained = passes(rt.alloc(), &updates, &[(1, false), (2, true)])?;
    let not_explained = passes(rt.alloc(), &updates, &[(1, true), (2, true)])?;
    assert!(rt; explained == (true, true));
    assert!(rt; not_explained == (true, false));
    Ok(())
}

#[test]
fn an_update_is_of_the_part_of_its_subscriber_and_clear_all_of_each(
    rt: HostRuntime,
) -> Result<(), Fail> {
    let mut updates = row_updates(rt.alloc(), imsi_of(1)?)?;
    updates.push(Update::ClearAll)?;
    updates.push(row_update(imsi_of(1)?)?)?;
    assert!(rt; passes(rt.alloc(), &updates, &[])? == (true, false));
    Ok(())
}
