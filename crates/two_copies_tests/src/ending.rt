use crate::sum::{SumEnding, SumLook, SumReader, Sums, last_sum, look_once, publish_ones, sums};
use std::alloc::Global;

// A look at a sum of 1, beside an idle reader, while 5 are pending.
fn held_look(copies: &mut Sums) -> Option<(SumLook, SumReader)> {
    let idle = copies.reader().ok()?;
    let reader = copies.reader().ok()?;
    publish_ones(copies, 1)?;
    copies.push(5).ok()?;
    Some((reader.look().ok()?, idle))
}

// An end that is tried again during the look and after it. Whether the look shows 1 meanwhile, which is the last sum,
// and no reader finds a copy.
fn ends_after_the_look(ending: SumEnding, look: SumLook, idle: SumReader) -> bool {
    let goes_on = look.get().total() == 1 && look_once(idle).is_none();
    let Err(ending) = ending.end() else {
        return false;
    };
    let reader = look.leave();
    last_sum(ending.end()) == Some(1) && goes_on && look_once(reader).is_none()
}

fn is_held_up_by_a_look(alloc: Global) -> Option<bool> {
    let mut copies = sums(alloc, 0, 0).ok()?;
    let looking = held_look(&mut copies);
    let ending = copies.end().err()?;
    match looking {
        Some((look, idle)) => Some(ends_after_the_look(ending, look, idle)),
        None => {
            ending.abandon();
            None
        }
    }
}

#[test]
fn a_held_look_holds_up_the_end(rt: HostRuntime) {
    assert!(rt; is_held_up_by_a_look(rt.alloc()) == Some(true));
}

fn ends_beside_an_idle_reader(alloc: Global) -> Option<bool> {
    let mut copies = sums(alloc, 4, 0).ok()?;
    let reader = copies.reader();
    Some(last_sum(copies.end()) == Some(4) && reader.ok().and_then(look_once).is_none())
}

#[test]
fn idle_readers_do_not_hold_up_the_end(rt: HostRuntime) {
    assert!(rt; ends_beside_an_idle_reader(rt.alloc()) == Some(true));
}
