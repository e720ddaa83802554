use crate::sum::{Sums, all_readers, last_sum, look_once, publish, sums};
use std::alloc::Global;
use two_copies::{MAX_READERS, NoReader};

// Whether each of 64 readers sees a publication, while a further reader is refused until one of them is dropped.
fn fills_each_place(alloc: Global, copies: &mut Sums) -> Option<bool> {
    let mut readers = all_readers(alloc, copies)?;
    if !matches!(copies.reader(), Err(NoReader::NoPlace)) {
        return None;
    }
    copies.push(7).ok()?;
    publish(copies).ok()?;
    drop(readers.pop());
    let further = copies.reader().ok()?;
    let mut all_see = look_once(further) == Some(7);
    for reader in readers {
        all_see = all_see && look_once(reader) == Some(7);
    }
    Some(all_see)
}

fn each_place_is_filled(alloc: Global) -> Option<bool> {
    let mut copies = sums(alloc, 0, 0).ok()?;
    let filled = fills_each_place(alloc, &mut copies);
    Some(last_sum(copies.end()) == Some(7) && filled == Some(true))
}

#[test]
fn there_are_64_places(rt: HostRuntime) {
    assert!(rt; MAX_READERS == 64);
    assert!(rt; each_place_is_filled(rt.alloc()) == Some(true));
}
