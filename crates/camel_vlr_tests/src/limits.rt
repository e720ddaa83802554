use camel_criteria::Refusal;
use camel_table::Seed;
use camel_tbcd::Profile;
use camel_vlr::{MAX_PLACES, Receipt, Vlr, WaitFreeVlr};
use std::alloc::Global;
use std::mem::size_of;
use std::sync::Wait;
use std::test::Fail;

// Whether the last session of a store with all of its places has a look once the others are gone.
fn last_looks<R: Wait>(rt: &R, alloc: Global) -> Result<bool, Refusal> {
    let (store, mut sessions) = Vlr::open_seeded(
        rt,
        alloc,
        MAX_PLACES,
        1,
        Profile::One,
        Seed::fixed(),
    )?;
    let last = sessions.pop();
    drop(sessions);
    let looks = match last {
        Some(mut session) => session.enter(),
        None => false,
    };
    store.end(rt);
    Ok(looks)
}

// The same of a store whose writer does not wait.
fn last_looks_wait_free(alloc: Global) -> Result<bool, Refusal> {
    let (store, mut sessions) = WaitFreeVlr::open_wait_free(
        alloc,
        MAX_PLACES,
        1,
        Profile::One,
        Seed::fixed(),
    )?;
    let last = sessions.pop();
    drop(sessions);
    let looks = match last {
        Some(mut session) => session.enter(),
        None => false,
    };
    store.abandon();
    Ok(looks)
}

#[test]
fn the_last_of_64_sessions_looks_after_the_others_are_gone(rt: HostRuntime) -> Result<(), Fail> {
    assert!(rt; last_looks(&rt, rt.alloc())?);
    assert!(rt; last_looks_wait_free(rt.alloc())?);
    Ok(())
}

#[test]
fn a_receipt_has_only_the_bytes_of_its_number(rt: HostRuntime) {
    assert_eq!(rt; size_of::<Receipt>(), 8);
}
