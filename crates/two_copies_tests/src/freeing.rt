//! When the copies are freed.

use std::alloc::{AllocError, Global};
use std::sync::Arc;
use two_copies::{Apply, Copies, CopyRule, Look, Reader};

// A value that has a share of a token as long as it is there.
#[derive(Drop)]
struct Holder {
    token: Arc<u64, Global>,
}

impl Apply<u64> for Holder {
    ghost use Rattle.two_copies_tests.specs.Sum.{all_put_back};

    type State = u64;

    ghost state = { λ _. 0 };

    ghost applied = { λ state _. state };

    ghost restored = { λ now operation before. before };

    ghost restores = { all_put_back (λ state operation. state) };

    fn apply(&mut self, _operation: &u64) -> Result<(), AllocError> {
        Ok(())
    }

    fn restore(&mut self, _operation: &u64, _other: &Holder) -> Result<(), AllocError> {
        Ok(())
    }
}

// Any value may be shown after any other.
struct Any;

impl CopyRule<Holder> for Any {
    ghost holds = { λ _. Unit {0} };

    ghost follows = { λ _ _. Unit {0} };

    ghost follows_itself = { λ _. tt };

    ghost follows_through = { λ _ _ _ _ _. tt };
}

type Holders = Copies<Holder, u64, Any>;

fn holders(alloc: Global, token: &Arc<u64, Global>) -> Result<Holders, AllocError> {
    let first = Holder {
        token: Arc::try_clone(token)?,
    };
    let second = Holder {
        token: Arc::try_clone(token)?,
    };
    Holders::new(alloc, first, second)
}

// A look that is held, beside a reader that does not look, and then so many publications.
fn look_beside(
    copies: &mut Holders,
    during: u64,
) -> Option<(Look<Holder, Any>, Reader<Holder, Any>)> {
    let idle = copies.reader().ok()?;
    let look = copies.reader().ok()?.look().ok()?;
    for _ in 0..during {
        copies.publish().ok()?;
    }
    Some((look, idle))
}

// How many copies are there before the end and after it; none if no look holds it up.
fn counts_at_the_end(copies: Holders, token: &Arc<u64, Global>) -> Option<(usize, usize)> {
    let before = copies_of(token);
    let ending = copies.end().err()?;
    ending.abandon();
    Some((before, copies_of(token)))
}

// Whether one of two copies is there after the end during the look, and none once the look has left, while both readers
// are there.
fn is_freed_by_the_look(alloc: Global, during: u64) -> Option<bool> {
    let token = Arc::new(alloc, 0).ok()?;
    let mut copies = holders(alloc, &token).ok()?;
    let looking = look_beside(&mut copies, during);
    let counts = counts_at_the_end(copies, &token);
    let (look, idle) = looking?;
    let reader = look.leave();
    let after = copies_of(&token);
    drop(reader);
    drop(idle);
    Some(counts == Some((2, 1)) && after == 0)
}

// All shares but that of the test.
fn copies_of(token: &Arc<u64, Global>) -> usize {
    Arc::strong_count(token).saturating_sub(1)
}

#[test]
fn abandoned_copies_are_freed_when_the_last_look_is_left(rt: HostRuntime) {
    assert!(rt; is_freed_by_the_look(rt.alloc(), 0) == Some(true));
    assert!(rt; is_freed_by_the_look(rt.alloc(), 1) == Some(true));
}
