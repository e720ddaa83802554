//! Which sessions hold up a publication of a store whose writer does not wait.

use camel_criteria::Refusal;
use camel_table::Seed;
use camel_tbcd::Profile;
use camel_vlr::{Unpublished, WaitFreeSession, WaitFreeVlr};
use std::alloc::Global;
use std::test::Fail;

// Who holds up the next publication: before a look, during it, and once it is left. One publication goes through during
// the look, and the next one is refused until it is left.
fn holders_beside_a_look(
    store: &mut WaitFreeVlr,
    session: &mut WaitFreeSession,
) -> Option<[u64; 3]> {
    let before = store.holders();
    let look = session.look().ok()?;
    store.publish().ok()?;
    let during = store.holders();
    if store.is_free() || !matches!(store.publish(), Err(Unpublished::Held)) {
        return None;
    }
    look.leave();
    let after = store.holders();
    store.publish().ok()?;
    Some([before, during, after])
}

// Who holds up a publication beside a look of each of three sessions.
fn holders_of_three(alloc: Global) -> Result<[Option<[u64; 3]>; 3], Refusal> {
    let (mut store, mut sessions) = WaitFreeVlr::open_wait_free(
        alloc,
        3,
        10,
        Profile::One,
        Seed::fixed(),
    )?;
    let mut holders = [None, None, None];
    for (session, holders) in sessions.iter_mut().zip(holders.iter_mut()) {
        *holders = holders_beside_a_look(&mut store, session);
    }
    store.abandon();
    Ok(holders)
}

#[test]
fn the_bit_of_a_session_is_set_while_its_look_holds_up_a_publication(
    rt: HostRuntime,
) -> Result<(), Fail> {
    let wanted = [Some([0, 1, 0]), Some([0, 2, 0]), Some([0, 4, 0])];
    assert!(rt; holders_of_three(rt.alloc())? == wanted);
    Ok(())
}
