//! The measurements.

use crate::calls::{Call, Filled, Subject, decide, sum_of, weighed};
use anyhow::{Context, Result, anyhow};
use camel_rows::Update;
use camel_script::{Record, Script};
use camel_table::Seed;
use camel_tbcd::Profile;
use camel_vlr::{MAX_PLACES, MAX_UPDATES, Session, Vlr};
use std::collections::VecDeque;
use std::io;
use std::io::Read;
use std::rt::Clock;
use std::sync::{Barrier, Wait};
use std::thread::{Threads, join, map_vec};
use std::time::Instant;

/// What a measurement needs of the system.
pub(crate) trait System: AllocGlobal + Clock + Print + Threads + Wait + Sync {}

impl<R: AllocGlobal + Clock + Print + Threads + Wait + Sync> System for R {}

/// The system, and what is still to be read of the script.
#[derive(Drop)]
pub(crate) struct Bench<'a, R, I: Read> {
    pub(crate) rt: &'a R,
    pub(crate) script: Script<I>,
}

/// The nanoseconds that something took, and the sum of what was found.
type Timed = (u64, u64);

impl<R: System, I: Read + Drop + Send> Bench<'_, R, I> {
    /// Prints the nanoseconds of each publication of the script, and the sum of the calls behind it, which a further
    /// publication ends: all that in the end, so that nothing is printed between two.
    pub(crate) fn publish_each(&mut self) -> Result<()> {
        let (mut store, mut sessions) = self.open(1)?;
        let made = match sessions.first_mut() {
            Some(session) => self.publish_into(&mut store, session),
            None => Err(anyhow!("no session")),
        };
        store.end(self.rt);
        for (nanoseconds, sum) in made? {
            println!(self.rt; "{nanoseconds} {sum:016x}")?;
        }
        Ok(())
    }

    fn publish_into(&mut self, store: &mut Vlr, session: &mut Session) -> Result<Vec<Timed>> {
        let mut batch = VecDeque::new(self.rt.alloc());
        let mut made = Vec::new(self.rt.alloc());
        for _ in 0..u64::MAX {
            if !read_batch(&mut self.script, &mut batch)? {
                break;
            }
            let nanoseconds = publish(self.rt, store, &mut batch)?;
            made.push((nanoseconds, self.sum_of_decisions(session)?))?;
        }
        Ok(made)
    }

    /// Times looks into records with no store, or into a table with no records, for all calls and so many times.
    pub(crate) fn look_into<S: Filled>(&mut self, looked: S, rounds: u64) -> Result<()> {
        let mut looked = looked;
        self.fill(&mut looked)?;
        let calls = self.read_calls()?;
        let (nanoseconds, sum) = find_all(self.rt, &mut looked, &calls, rounds)?;
        println!(self.rt; "reader {nanoseconds} {sum:016x}")?;
        Ok(())
    }

    fn fill<S: Filled>(&mut self, looked: &mut S) -> Result<()> {
        let mut batch = VecDeque::new(self.rt.alloc());
        for _ in 0..u64::MAX {
            if !read_batch(&mut self.script, &mut batch)? || batch.is_empty() {
                break;
            }
            fill_from(&mut batch, looked)?;
        }
        Ok(())
    }

    /// Fills a store by the script, has readers in threads of their own decide its calls so many times, and a writer
    /// make its further publications beside them. Prints what each took, and the sum of the calls in the end.
    pub(crate) fn run(&mut self, readers: usize, rounds: u64) -> Result<()> {
        // One session more looks at the data in the end.
        let (mut store, sessions) = self.open(readers.saturating_add(1))?;
        let ran = self.run_over(&mut store, sessions, rounds);
        store.end(self.rt);
        ran
    }

    fn run_over(&mut self, store: &mut Vlr, sessions: Vec<Session>, rounds: u64) -> Result<()> {
        let mut sessions = sessions;
        let mut last = sessions.pop().context("no session is left")?;
        self.publish_all(store)?;
        let nanoseconds = self.run_beside(store, sessions, rounds)?;
        let data = self.sum_of_decisions(&mut last)?;
        println!(self.rt; "writer {nanoseconds} {data:016x}")?;
        Ok(())
    }

    /// Prints what the readers took, and returns what the writer did.
    fn run_beside(&mut self, store: &mut Vlr, sessions: Vec<Session>, rounds: u64) -> Result<u64> {
        let calls = self.read_calls()?;
        let (read, published) = self.join_all(store, sessions, &calls, rounds);
        print_readers(self.rt, read?)?;
        published
    }

    fn join_all(
        &mut self,
        store: &mut Vlr,
        sessions: Vec<Session>,
        calls: &[Call],
        rounds: u64,
    ) -> (Result<Vec<Result<Timed>>>, Result<u64>) {
        let (rt, start) = (self.rt, Barrier::new(sessions.len().saturating_add(1)));
        join(
            rt,
            || decide_all(rt, &start, sessions, calls, rounds),
            || self.publish_from(&start, store),
        )
    }

    // As a thread beside the readers.
    fn publish_from(&mut self, start: &Barrier, store: &mut Vlr) -> Result<u64> {
        start.wait(self.rt);
        self.publish_all(store)
    }

    /// Makes the publications of the script, up to one of nothing, which leaves the second copy as the first one is.
    /// Returns the nanoseconds within them. Updates are read before that time, and submitted in it.
    fn publish_all(&mut self, store: &mut Vlr) -> Result<u64> {
        let mut batch = VecDeque::new(self.rt.alloc());
        let mut nanoseconds: u64 = 0;
        for _ in 0..u64::MAX {
            let goes_on = read_batch(&mut self.script, &mut batch)? && !batch.is_empty();
            nanoseconds = nanoseconds.saturating_add(publish(self.rt, store, &mut batch)?);
            if !goes_on {
                break;
            }
        }
        Ok(nanoseconds)
    }

    /// An empty store, and its sessions.
    fn open(&self, sessions: usize) -> Result<(Vlr, Vec<Session>)> {
        if sessions == 0 || sessions > MAX_PLACES {
            return Err(anyhow!("a store has not so many sessions"));
        }
        let (alloc, seed) = (self.rt.alloc(), Seed::fixed());
        Ok(Vlr::open_seeded(self.rt, alloc, sessions, MAX_UPDATES, Profile::One, seed)?)
    }

    /// The next calls of the script, up to a publication or its end.
    fn read_calls(&mut self) -> Result<Vec<Call>> {
        let mut calls = Vec::new(self.rt.alloc());
        for _ in 0..u64::MAX {
            let record = self.script.read_record()?;
            let Some(Record::Call(event)) = &record else {
                break;
            };
            calls.push(Call::of(event)?)?;
        }
        Ok(calls)
    }

    /// The sum of all that the decisions of the next calls of the script say.
    fn sum_of_decisions(&mut self, session: &mut Session) -> Result<u64> {
        let mut sum: u64 = 0;
        let mut place: u64 = 0;
        for call in self.read_calls()? {
            let said = decide(session, &call, u32::MAX).ok().context("no look")?;
            sum = sum.wrapping_add(weighed(said, place));
            place = place.wrapping_add(1);
        }
        Ok(sum)
    }
}

/// Fills something with a batch of updates, and leaves the batch empty.
fn fill_from<S: Filled>(batch: &mut VecDeque<Update>, looked: &mut S) -> Result<()> {
    for _ in 0..batch.len() {
        if let Some(update) = batch.pop_front() {
            looked.fill(&update)?;
        }
    }
    Ok(())
}

fn print_readers<R: AllocGlobal + Print>(rt: &R, read: Vec<Result<Timed>>) -> Result<()> {
    for timed in read {
        let (nanoseconds, sum) = timed?;
        println!(rt; "reader {nanoseconds} {sum:016x}")?;
    }
    Ok(())
}

/// Has each session decide all calls so many times, in a thread of its own.
fn decide_all<R: System>(
    rt: &R,
    start: &Barrier,
    sessions: Vec<Session>,
    calls: &[Call],
    rounds: u64,
) -> Result<Vec<Result<Timed>>> {
    let read = |session: Session| -> Result<Timed> {
        decide_from(rt, start, session, calls, rounds)
    };
    Ok(map_vec(rt, sessions, &read)?)
}

fn decide_from<R: System>(
    rt: &R,
    start: &Barrier,
    session: Session,
    calls: &[Call],
    rounds: u64,
) -> Result<Timed> {
    let mut session = session;
    start.wait(rt);
    find_all(rt, &mut session, calls, rounds)
}

/// Looks for all calls so many times.
fn find_all<R: Clock, S: Subject>(
    rt: &R,
    looked: &mut S,
    calls: &[Call],
    rounds: u64,
) -> Result<Timed> {
    let begin = Instant::now(rt)?;
    let mut sum: u64 = 0;
    for _ in 0..rounds {
        sum = sum.wrapping_add(sum_of(looked, calls).ok().context("no look")?);
    }
    Ok((nanoseconds_since(rt, begin)?, sum))
}

/// Puts the updates up to the next publication of the script into a batch. Whether there is one.
fn read_batch<I: Read + Drop>(
    script: &mut Script<I>,
    batch: &mut VecDeque<Update>,
) -> Result<bool> {
    for _ in 0..u64::MAX {
        match script.read_record()? {
            Some(Record::Update(update)) => batch.push_back(update.into_inner())?,
            Some(Record::Publish) => return Ok(true),
            Some(_) => return Err(anyhow!("no update and no publication")),
            None => return Ok(false),
        }
    }
    Ok(false)
}

/// Publishes a batch of updates, and leaves it empty. Each decision that begins afterwards is made over them all.
/// Returns the nanoseconds that this took.
#[inline(never)]
fn publish<R: Clock + Wait>(rt: &R, store: &mut Vlr, batch: &mut VecDeque<Update>) -> Result<u64> {
    let begin = Instant::now(rt)?;
    for _ in 0..batch.len() {
        if let Some(update) = batch.pop_front() {
            store.submit(update)?;
        }
    }
    store.publish(rt)?;
    Ok(nanoseconds_since(rt, begin)?)
}

/// The time since then. It is less than 2^64 nanoseconds, which are centuries.
fn nanoseconds_since<R: Clock>(rt: &R, start: Instant) -> io::Result<u64> {
    Ok(u64::try_from(start.elapsed(rt)?.as_nanos()).unwrap_or(u64::MAX))
}
