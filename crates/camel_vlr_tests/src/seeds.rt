//! The seed of a store, which shows in the order in which its records list their subscribers.

use camel_criteria::Refusal;
use camel_fixtures::imsi_of;
use camel_rows::Update;
use camel_table::Seed;
use camel_tbcd::{Imsi, Profile};
use camel_vlr::{MAX_UPDATES, Session, Vlr};
use std::alloc::Global;
use std::cell::Cell;
use std::io;
use std::io::ErrorKind;
use std::marker::PhantomData;
use std::random::RandomSource;
use std::sync::Wait;
use std::test::Fail;

/// A runtime whose random source gives one octet again and again, or fails, and counts how often it is asked.
#[derive(Drop)]
struct Source<R> {
    rt: PhantomData<R>,
    octet: Option<u8>,
    asked: Cell<u64>,
}

impl<R: Wait> Wait for Source<R> {}

impl<R> RandomSource for Source<R> {
    fn fill_bytes(&self, buf: &mut [u8]) -> io::Result<()> {
        self.asked.set(self.asked.get().saturating_add(1));
        match self.octet {
            Some(octet) => {
                buf.fill(octet);
                Ok(())
            }
            None => Err(io::Error::from(ErrorKind::Other)),
        }
    }
}

// So many subscribers that hardly two seeds list them in one order.
const SUBSCRIBERS: u64 = 100;

// The Registers of the subscribers.
fn registers(alloc: Global) -> Result<Vec<Update>, Fail> {
    let mut updates = Vec::new(alloc);
    for number in 0..SUBSCRIBERS {
        let imsi = imsi_of(number)?;
        updates.push(Update::Register { imsi })?;
    }
    Ok(updates)
}

// The order in which the records of a look list the subscribers.
fn order_in(session: &mut Session) -> Result<Vec<Imsi>, Refusal> {
    let Ok(look) = session.look() else {
        return Err(Refusal::NoGuard);
    };
    let order = look.records().imsis();
    look.leave();
    order
}

// The order in which the records of an opened store list the subscribers.
fn order_of<R: Wait>(
    rt: &R,
    opened: (Vlr, Vec<Session>),
    registers: Vec<Update>,
) -> Result<Vec<Imsi>, Refusal> {
    let (mut store, mut sessions) = opened;
    let are_published = store.submit_all(registers).is_ok() && store.publish(rt).is_ok();
    let order = match sessions.first_mut() {
        Some(session) if are_published => order_in(session),
        _ => Err(Refusal::NoPlace),
    };
    store.end(rt);
    order
}

fn order_of_seed<R: Wait>(rt: &R, alloc: Global, seed: Seed) -> Result<Vec<Imsi>, Fail> {
    let registers = registers(alloc)?;
    let opened = Vlr::open_seeded(rt, alloc, 1, MAX_UPDATES, Profile::One, seed)?;
    Ok(order_of(rt, opened, registers)?)
}

// The order that a source leads to, and how often it is asked.
fn order_of_source<R: Wait>(
    rt: &R,
    alloc: Global,
    octet: Option<u8>,
) -> Result<(Vec<Imsi>, u64), Fail> {
    let registers = registers(alloc)?;
    let source = Source::<R> {
        rt: PhantomData,
        octet,
        asked: Cell::new(0),
    };
    let opened = Vlr::open(&source, alloc, 1, MAX_UPDATES, Profile::One)?;
    let order = order_of(rt, opened, registers)?;
    Ok((order, source.asked.get()))
}

// Eight octets 7 are the number 0x0707_0707_0707_0707. If the source fails, the seed is the fixed one.
#[test]
fn opens_with_the_seed_that_the_random_source_gives(rt: HostRuntime) -> Result<(), Fail> {
    let alloc = rt.alloc();
    let fixed = order_of_seed(&rt, alloc, Seed::fixed())?;
    let sevens = order_of_seed(&rt, alloc, Seed::new(0x0707_0707_0707_0707))?;
    assert!(rt; fixed != sevens);
    assert!(rt; order_of_source(&rt, alloc, Some(7))? == (sevens, 1));
    assert!(rt; order_of_source(&rt, alloc, None)? == (fixed, 1));
    Ok(())
}
