use crate::sum::{Sums, is_held, last_sum, look_once, look_twice, publish, publish_ones, sums};
use std::alloc::Global;

// What is shown, and what a look shows, before, between and after publications of 1 and of 2.
fn stalls_the_second(copies: &mut Sums) -> Option<[(u64, u64); 3]> {
    let look = copies.reader().ok()?.look().ok()?;
    publish_ones(copies, 1)?;
    let first = (copies.shown().total(), look.get().total());
    copies.push(2).ok()?;
    if copies.is_free() || !is_held(copies) || !is_held(copies) {
        return None;
    }
    let held = (copies.shown().total(), look.get().total());
    let reader = look.leave();
    if !copies.is_free() {
        return None;
    }
    publish(copies).ok()?;
    Some([first, held, (copies.shown().total(), look_once(reader)?)])
}

fn only_the_second_is_stalled(alloc: Global) -> Option<bool> {
    let mut copies = sums(alloc, 0, 0).ok()?;
    let shown = stalls_the_second(&mut copies);
    Some(last_sum(copies.end()) == Some(3) && shown == Some([(1, 0), (1, 0), (3, 3)]))
}

#[test]
fn a_held_look_stalls_the_second_publication_only(rt: HostRuntime) {
    assert!(rt; only_the_second_is_stalled(rt.alloc()) == Some(true));
}

// A look at what is shown stalls the next publication but one. What it shows, and what two looks show after it, each
// with whether a further publication is held.
fn stalls_the_next_but_one(copies: &mut Sums) -> Option<((u64, bool), (u64, u64, bool))> {
    let look = copies.reader().ok()?.look().ok()?;
    publish_ones(copies, 1)?;
    let look = look.leave().look().ok()?;
    copies.push(2).ok()?;
    publish(copies).ok()?;
    let during = (look.get().total(), is_held(copies));
    let (first, second, _reader) = look_twice(look.leave()).ok()?;
    Some((during, (first, second, is_held(copies))))
}

fn the_next_but_one_is_stalled(alloc: Global) -> Option<bool> {
    let mut copies = sums(alloc, 0, 0).ok()?;
    let shown = stalls_the_next_but_one(&mut copies);
    Some(last_sum(copies.end()) == Some(3) && shown == Some(((1, true), (3, 3, false))))
}

#[test]
fn a_new_look_stalls_the_next_publication_but_one(rt: HostRuntime) {
    assert!(rt; the_next_but_one_is_stalled(rt.alloc()) == Some(true));
}

// So many publications beside a reader that does not look, and then what it sees.
fn publishes_beside_an_idle_reader(copies: &mut Sums) -> Option<u64> {
    let reader = copies.reader().ok()?;
    publish_ones(copies, 20)?;
    look_once(reader)
}

fn all_are_seen_by_an_idle_reader(alloc: Global) -> Option<bool> {
    let mut copies = sums(alloc, 0, 0).ok()?;
    let seen = publishes_beside_an_idle_reader(&mut copies);
    Some(last_sum(copies.end()) == Some(20) && seen == Some(20))
}

#[test]
fn an_idle_reader_holds_nobody_up(rt: HostRuntime) {
    assert!(rt; all_are_seen_by_an_idle_reader(rt.alloc()) == Some(true));
}
