use crate::sum::{
    SumReader, Sums, finds_the_end, last_sum, publish, publish_ones, sums, three_readers,
};
use std::alloc::Global;
use std::mem;
use std::sync::atomic::{AtomicBool, Ordering};
use std::thread::{Threads, join};

// How often a reader looks, and how often the writer tries to publish.
const TURNS: u64 = 300_000;

// Looks so often. Whether no look goes back, shows half of an operation, or more than comes.
fn watch(mut reader: SumReader) -> bool {
    let mut last: u64 = 0;
    for _ in 0..TURNS {
        let Ok(look) = reader.look() else {
            return false;
        };
        let total = look.get().total();
        if total < last || total > TURNS || !look.get().is_whole() {
            return false;
        }
        last = total;
        reader = look.leave();
    }
    true
}

// Pushes 1 and tries to publish, so often, and then until nothing is held.
fn publish_all(copies: &mut Sums) {
    for _ in 0..TURNS {
        if copies.push(1).is_err() {
            return;
        }
        let _published = publish(copies).is_ok();
    }
    for _ in 0..u64::MAX {
        if publish(copies).is_ok() {
            return;
        }
    }
}

// The writer has a thread of its own, and so has each of two readers. Whether both see all well.
fn run<R: Threads + Sync>(rt: &R, copies: &mut Sums) -> bool {
    let (Ok(first), Ok(second)) = (copies.reader(), copies.reader()) else {
        return false;
    };
    let (_, (one, two)) = join(
        rt,
        || publish_all(copies),
        || join(rt, || watch(first), || watch(second)),
    );
    one && two
}

fn are_seen_whole<R: Threads + Sync>(rt: &R, alloc: Global) -> Option<bool> {
    let mut copies = sums(alloc, 0, 0).ok()?;
    let are_seen = run(rt, &mut copies);
    Some(last_sum(copies.end()) == Some(TURNS) && are_seen)
}

#[test]
fn readers_see_each_publication_whole(rt: HostRuntime) {
    assert!(rt; are_seen_whole(&rt, rt.alloc()) == Some(true));
}

// How many stores end beside readers that look.
const ENDS: u64 = 1_000;

// Looks until a look fails. Whether each look fails that begins once the end has returned, or after one that failed.
fn look_to_the_end(mut reader: SumReader, has_ended: &AtomicBool) -> bool {
    for _ in 0..u64::MAX {
        let fails = has_ended.load(Ordering::SeqCst);
        match reader.look() {
            Ok(look) => {
                if fails {
                    return false;
                }
                reader = look.leave();
            }
            Err(reader) => return finds_the_end(reader),
        }
    }
    false
}

// Publishes twice, unless a look holds it up, and ends the store, whatever the readers do.
fn give_up(mut copies: Sums) {
    let _published = publish_ones(&mut copies, 2);
    if let Err(ending) = copies.end() {
        ending.abandon();
    }
}

fn give_up_in(store: &mut Option<Sums>, has_ended: &AtomicBool) {
    if let Some(copies) = mem::replace(store, None) {
        give_up(copies);
    }
    has_ended.store(true, Ordering::SeqCst);
}

// Whether two readers that look in threads of their own, and one that does not look, find the end.
fn ends_beside_looks<R: Threads + Sync>(rt: &R, alloc: Global) -> Option<bool> {
    let mut copies = sums(alloc, 0, 0).ok()?;
    let Some((first, second, idle)) = three_readers(&mut copies) else {
        give_up(copies);
        return None;
    };
    let has_ended = AtomicBool::new(false);
    let mut store = Some(copies);
    let (_, (one, two)) = join(
        rt,
        || give_up_in(&mut store, &has_ended),
        || {
            join(
                rt,
                || look_to_the_end(first, &has_ended),
                || look_to_the_end(second, &has_ended),
            )
        },
    );
    if let Some(copies) = store {
        give_up(copies);
    }
    Some(one && two && finds_the_end(idle))
}

#[test]
fn each_reader_finds_an_end_in_another_thread(rt: HostRuntime) {
    for _ in 0..ENDS {
        assert!(rt; ends_beside_looks(&rt, rt.alloc()) == Some(true));
    }
}
