//! A sum that only rises, to try the copies with.
ghost use Rattle.std.specs.Prelude.{◌≡◌, ◌+◌, ◌-◌, ◌^◌, ◌≤◌, min, IfOk};
ghost use Rattle.two_copies.specs.Reader.{seen_by, shown_in};

use std::alloc::{AllocError, Global};
use two_copies::{Apply, Copies, CopyRule, Ending, Look, MAX_READERS, Reader, Unpublished};

/// The sum. It is written twice, one after the other, so that it can say whether it is whole, and it may be told to
/// refuse some operations as if memory was refused.
#[derive(Drop)]
pub struct Sum {
    total: u64,
    again: u64,
    refusals: u64,
}

impl Sum {
    /// A sum that refuses so often before it takes an operation.
    pub fn new(total: u64, refusals: u64) -> Sum
        ensures { result.total ≡ total }
    {
        Sum {
            total,
            again: total,
            refusals,
        }
    }

    pub fn total(&self) -> u64
        ensures { result ≡ self.now.total }
    {
        self.total
    }

    pub fn is_whole(&self) -> bool {
        self.total == self.again
    }
}

impl Apply<u64> for Sum {
    ghost use Rattle.two_copies_tests.specs.Sum.{added, all_put_back};

    type State = u64;

    ghost state = { λ sum. sum.total };

    ghost applied = { added };

    ghost restored = { λ now operation before. before };

    ghost restores = { all_put_back added };

    fn apply(&mut self, operation: &u64) -> Result<(), AllocError> {
        if self.refusals > 0 {
            self.refusals -= 1;
            return Err(AllocError);
        }
        self.total = self.total.saturating_add(*operation);
        self.again = self.again.saturating_add(*operation);
        Ok(())
    }

    fn restore(&mut self, _operation: &u64, other: &Sum) -> Result<(), AllocError> {
        self.total = other.total;
        self.again = other.again;
        Ok(())
    }
}

/// A sum is shown after one that is no greater.
pub struct Rises;

impl CopyRule<Sum> for Rises {
    ghost use Rattle.std.specs.Prelude.{◌≤◌};
    ghost use Rattle.std.proofs.Common.{arith};

    ghost holds = { λ _. Unit {0} };

    ghost follows = { λ earlier later. earlier.total ≤ later.total };

    ghost follows_itself = { λ x. Prim.omega arith };

    ghost follows_through = { λ x y z first second. Prim.omega (arith, first, second) };
}

pub type Sums = Copies<Sum, u64, Rises>;

pub type SumReader = Reader<Sum, Rises>;

pub type SumLook = Look<Sum, Rises>;

pub type SumEnding = Ending<Sum, Rises>;

/// Two equal sums, which refuse so often.
pub fn sums(alloc: Global, total: u64, refusals: u64) -> Result<Sums, AllocError> {
    Sums::new(alloc, Sum::new(total, 0), Sum::new(total, refusals))
}

/// Publishes what is pending.
pub fn publish(sums: &mut Sums) -> Result<(), Unpublished> {
    sums.publish()
}

/// Whether a publication is held.
pub fn is_held(sums: &mut Sums) -> bool {
    matches!(publish(sums), Err(Unpublished::Held))
}

/// The last sum of copies that were ended; none if a look holds up the end.
pub fn last_sum(ended: Result<Sum, SumEnding>) -> Option<u64> {
    match ended {
        Ok(sum) => Some(sum.total()),
        Err(ending) => {
            ending.abandon();
            None
        }
    }
}

/// Three readers, whose places lie in this order.
pub fn three_readers(sums: &mut Sums) -> Option<(SumReader, SumReader, SumReader)> {
    Some((
        sums.reader().ok()?,
        sums.reader().ok()?,
        sums.reader().ok()?,
    ))
}

/// As many readers as there may be.
pub fn all_readers(alloc: Global, sums: &mut Sums) -> Option<Vec<SumReader>> {
    let mut readers = Vec::new(alloc);
    for _ in 0..MAX_READERS {
        readers.push(sums.reader().ok()?).ok()?;
    }
    Some(readers)
}

/// Pushes 1 and publishes it, so often.
pub fn publish_ones(sums: &mut Sums, count: u64) -> Option<()> {
    for _ in 0..count {
        sums.push(1).ok()?;
        publish(sums).ok()?;
    }
    Some(())
}

/// Whether each of many looks finds that the copies have ended.
pub fn finds_the_end(mut reader: SumReader) -> bool {
    for _ in 0..100u64 {
        match reader.look() {
            Ok(_look) => return false,
            Err(same) => reader = same,
        }
    }
    true
}

/// Looks once.
pub fn look_once(reader: SumReader) -> Option<u64> {
    Some(reader.look().ok()?.get().total())
}

/// Looks twice, and returns both sums. The second is no less than the first, in every schedule.
pub fn look_twice(reader: SumReader) -> Result<(u64, u64, SumReader), SumReader>
    ensures { IfOk result (λ r. r.0 ≤ r.1) }
{
    let look = reader.look()?;
    let first = look.get().total();
    let look = look.leave().look()?;
    let second = look.get().total();
    Ok((first, second, look.leave()))
}
