//! The opening of a store.

use crate::attempts::{Refusals, again};
use crate::failure::{Failure, Lost, check};
use camel_tbcd::Profile;
use camel_vlr::{MAX_UPDATES, Session, Vlr};
use std::random::RandomSource;
use std::sync::Wait;

const PLACES: usize = 3;

/// Opens a store, of which nothing remains if memory is refused.
pub(crate) fn open<R: AllocGlobal + Print + RandomSource + Wait>(
    rt: &R,
    refusals: &mut Refusals,
) -> Result<(), Failure> {
    let (store, sessions) = again(&mut refusals.call, || {
        let opened = Vlr::open(rt, rt.alloc(), PLACES, MAX_UPDATES, Profile::Two)?;
        Ok(opened)
    })?;
    let counts = (store.published(), store.pending());
    store.end(rt);
    check(counts == (0, 0), Lost::Empty)?;
    check(sessions.len() == PLACES, Lost::Session)?;
    print(rt, &sessions)
}

fn print(rt: &impl Print, sessions: &[Session]) -> Result<(), Failure> {
    for session in sessions {
        println!(rt; "{:?}", session.profile())?;
    }
    Ok(())
}
