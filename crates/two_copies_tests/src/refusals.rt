use crate::sum::{Sums, last_sum, look_once, publish, sums};
use std::alloc::Global;
use two_copies::Unpublished;

// Publications of 1, 2 and 3, the first of which are refused memory: what is shown after each try.
fn goes_on_after_refusals(copies: &mut Sums) -> Option<[u64; 4]> {
    let reader = copies.reader().ok()?;
    for operation in 1..4u64 {
        copies.push(operation).ok()?;
    }
    let mut shown = [0; 4];
    for try_of in 0..3usize {
        let refused = publish(copies);
        if matches!(refused, Err(Unpublished::Held)) {
            return None;
        }
        shown[try_of] = copies.shown().total();
    }
    shown[3] = look_once(reader)?;
    Some(shown)
}

fn all_is_shown_after_two_refusals(alloc: Global) -> Option<bool> {
    let mut copies = sums(alloc, 10, 2).ok()?;
    let shown = goes_on_after_refusals(&mut copies);
    Some(last_sum(copies.end()) == Some(16) && shown == Some([10, 10, 16, 16]))
}

#[test]
fn refused_memory_leaves_all_as_it_was(rt: HostRuntime) {
    assert!(rt; all_is_shown_after_two_refusals(rt.alloc()) == Some(true));
}

// Publications of 5, of 7 and of nothing, after 1 and 2 were pending, applied to one copy, and dropped: what each
// shows.
fn drops_what_one_copy_has(copies: &mut Sums) -> Option<[u64; 3]> {
    copies.push(1).ok()?;
    copies.push(2).ok()?;
    copies.bring_up().ok()?;
    copies.drop_pending();
    let mut shown = [0; 3];
    for (at, operation) in [5u64, 7, 0].iter().enumerate() {
        copies.push(*operation).ok()?;
        publish(copies).ok()?;
        shown[at] = copies.shown().total();
    }
    Some(shown)
}

fn only_what_comes_later_is_shown(alloc: Global) -> Option<bool> {
    let mut copies = sums(alloc, 10, 0).ok()?;
    let shown = drops_what_one_copy_has(&mut copies);
    Some(last_sum(copies.end()) == Some(22) && shown == Some([15, 22, 22]))
}

#[test]
fn dropped_operations_are_in_neither_copy(rt: HostRuntime) {
    assert!(rt; only_what_comes_later_is_shown(rt.alloc()) == Some(true));
}
