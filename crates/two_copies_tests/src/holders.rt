//! Which readers hold up a publication.

use crate::sum::{Sums, all_readers, is_held, last_sum, publish_ones, sums, three_readers};
use std::alloc::Global;

// Who holds up the next publication: before a look of this one of three readers, during it, and once it has left. One
// publication goes through during the look, and one behind it.
fn holders_beside_a_look(copies: &mut Sums, place: usize) -> Option<[u64; 3]> {
    let (first, middle, last) = three_readers(copies)?;
    let (reader, _one, _other) = match place {
        0 => (first, middle, last),
        1 => (middle, first, last),
        _ => (last, first, middle),
    };
    let before = copies.holders();
    let look = reader.look().ok()?;
    publish_ones(copies, 1)?;
    let during = copies.holders();
    if copies.is_free() || !is_held(copies) || copies.holders() != during {
        return None;
    }
    let _reader = look.leave();
    let after = copies.holders();
    publish_ones(copies, 1)?;
    Some([before, during, after])
}

fn only_the_look_sets_the_bit(alloc: Global, place: usize, bit: u64) -> Option<bool> {
    let mut copies = sums(alloc, 0, 0).ok()?;
    let holders = holders_beside_a_look(&mut copies, place);
    Some(last_sum(copies.end()) == Some(2) && holders == Some([0, bit, 0]))
}

#[test]
fn the_bit_of_a_reader_is_set_while_its_look_holds_up_a_publication(rt: HostRuntime) {
    assert!(rt; only_the_look_sets_the_bit(rt.alloc(), 0, 0b001) == Some(true));
    assert!(rt; only_the_look_sets_the_bit(rt.alloc(), 1, 0b010) == Some(true));
    assert!(rt; only_the_look_sets_the_bit(rt.alloc(), 2, 0b100) == Some(true));
}

// A look at what is shown last holds nothing up, beside one that does.
fn holders_beside_two_looks(copies: &mut Sums) -> Option<u64> {
    let (first, middle, last) = three_readers(copies)?;
    let _held = middle.look().ok()?;
    publish_ones(copies, 1)?;
    let _newest = last.look().ok()?;
    let holders = copies.holders();
    drop(first);
    Some(holders)
}

fn only_the_older_look_holds_up(alloc: Global) -> Option<bool> {
    let mut copies = sums(alloc, 0, 0).ok()?;
    let holders = holders_beside_two_looks(&mut copies);
    Some(last_sum(copies.end()) == Some(1) && holders == Some(0b010))
}

#[test]
fn a_look_at_what_is_shown_holds_nothing_up(rt: HostRuntime) {
    assert!(rt; only_the_older_look_holds_up(rt.alloc()) == Some(true));
}

// The middle one of three readers is dropped, and then the first one. The last one looks all the while, and so does a
// further reader, once it is there.
fn holders_beside_dropped_readers(copies: &mut Sums) -> Option<[u64; 3]> {
    let (first, middle, last) = three_readers(copies)?;
    drop(middle);
    let look = last.look().ok()?;
    publish_ones(copies, 1)?;
    let without = copies.holders();
    let last = look.leave();
    let further = copies.reader().ok()?;
    let _last = last.look().ok()?;
    let _further = further.look().ok()?;
    publish_ones(copies, 1)?;
    let with = copies.holders();
    drop(first);
    Some([without, with, copies.holders()])
}

fn the_next_reader_gets_the_bit(alloc: Global) -> Option<bool> {
    let mut copies = sums(alloc, 0, 0).ok()?;
    let holders = holders_beside_dropped_readers(&mut copies);
    Some(last_sum(copies.end()) == Some(2) && holders == Some([0b100, 0b110, 0b110]))
}

#[test]
fn a_reader_that_is_dropped_leaves_its_bit_to_the_next_one(rt: HostRuntime) {
    assert!(rt; the_next_reader_gets_the_bit(rt.alloc()) == Some(true));
}

// Looks of the last two of 64 readers.
fn holders_at_the_last_places(alloc: Global, copies: &mut Sums) -> Option<u64> {
    let mut readers = all_readers(alloc, copies)?;
    let _last = readers.pop()?.look().ok()?;
    let _other = readers.pop()?.look().ok()?;
    publish_ones(copies, 1)?;
    Some(copies.holders())
}

fn the_last_places_have_the_highest_bits(alloc: Global) -> Option<bool> {
    let mut copies = sums(alloc, 0, 0).ok()?;
    let holders = holders_at_the_last_places(alloc, &mut copies);
    Some(last_sum(copies.end()) == Some(1) && holders == Some(0xC000_0000_0000_0000))
}

#[test]
fn each_of_64_readers_has_a_bit(rt: HostRuntime) {
    assert!(rt; the_last_places_have_the_highest_bits(rt.alloc()) == Some(true));
}
