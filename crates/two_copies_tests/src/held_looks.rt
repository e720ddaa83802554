//! Looks that are held when the copies end.

use crate::sum::{
    SumEnding, SumLook, SumReader, Sums, finds_the_end, last_sum, publish_ones, sums, three_readers,
};
use std::alloc::Global;

// At which of three places a look is held, and how many publications come before it and during it.
#[derive(Clone, Copy)]
struct Held {
    place: usize,
    before: u64,
    during: u64,
}

// A look that is held, and the readers at the other two places.
type Looking = (SumLook, SumReader, SumReader);

fn look_at(copies: &mut Sums, held: Held) -> Option<Looking> {
    let (first, middle, last) = three_readers(copies)?;
    publish_ones(copies, held.before)?;
    let (reader, one, other) = match held.place {
        0 => (first, middle, last),
        1 => (middle, first, last),
        _ => (last, first, middle),
    };
    let look = reader.look().ok()?;
    publish_ones(copies, held.during)?;
    Some((look, one, other))
}

// Copies that end during a look.
fn ended_beside(alloc: Global, held: Held) -> Option<(SumEnding, Looking)> {
    let mut copies = sums(alloc, 0, 0).ok()?;
    let looking = look_at(&mut copies, held);
    let ending = copies.end().err()?;
    match looking {
        Some(looking) => Some((ending, looking)),
        None => {
            ending.abandon();
            None
        }
    }
}

// Whether the other readers find the end, the look goes on, and its reader finds the end once it has left.
fn ends_for_each(looking: Looking, held: Held) -> bool {
    let (look, one, other) = looking;
    if !finds_the_end(one) || !finds_the_end(other) {
        return false;
    }
    look.get().total() == held.before && look.get().is_whole() && finds_the_end(look.leave())
}

// Whether each reader finds the end of copies whose end is tried again behind the look.
fn is_found(alloc: Global, held: Held) -> Option<bool> {
    let (ending, looking) = ended_beside(alloc, held)?;
    let is_found = ends_for_each(looking, held);
    Some(last_sum(ending.end())? == held.before.saturating_add(held.during) && is_found)
}

// Whether each reader finds the end of abandoned copies.
fn is_found_if_abandoned(alloc: Global, held: Held) -> Option<bool> {
    let (ending, looking) = ended_beside(alloc, held)?;
    ending.abandon();
    Some(ends_for_each(looking, held))
}

fn is_found_beside_looks_at(alloc: Global, place: usize) -> Option<bool> {
    let mut is_found_in_all = true;
    for before in 0..3u64 {
        for during in 0..2u64 {
            let held = Held {
                place,
                before,
                during,
            };
            is_found_in_all &= is_found(alloc, held)? && is_found_if_abandoned(alloc, held)?;
        }
    }
    Some(is_found_in_all)
}

#[test]
fn each_reader_finds_an_end_beside_a_look(rt: HostRuntime) {
    assert!(rt; is_found_beside_looks_at(rt.alloc(), 0) == Some(true));
    assert!(rt; is_found_beside_looks_at(rt.alloc(), 1) == Some(true));
    assert!(rt; is_found_beside_looks_at(rt.alloc(), 2) == Some(true));
}
