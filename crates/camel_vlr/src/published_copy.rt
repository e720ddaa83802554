ghost use Rattle.std.specs.Prelude.{◌≡◌, ◌-◌, MatchResult};
ghost use Rattle.camel_rows.specs.Update.{no_records};
ghost use Rattle.camel_vlr.specs.Operation.{copy_after, copy_restored, data_of};
ghost use Rattle.camel_vlr.specs.Seat.{IsOfItsFront};

use crate::history::prefix::Prefix;
use crate::receipt::Receipt;
use crate::writer::operation::Operation;
use camel_criteria::Refusal;
use camel_rows::Records;
use camel_table::Seed;
use left_right::Absorb;
use std::alloc::{AllocError, Global};
use std::collections::VecDeque;
use two_copies::Apply;

/// So many records lie in the caches of a processor, and a publication gains nothing by reading them beforehand.
const FEW_RECORDS: usize = 10_000;

/// One of the two copies: the data that a front leaves, how many updates it has, and the front, which takes no bytes.
#[derive(Drop)]
pub struct PublishedCopy {
    pub records: Records,
    pub count: u64,
    pub front: Prefix,
}

impl PublishedCopy {
    /// A copy of no records, in a table with this seed.
    pub(crate) fn empty(alloc: Global, seed: Seed, front: Prefix) -> PublishedCopy
        ensures records { result.records ≡ no_records }
        ensures count { result.count ≡ 0 }
        ensures front { result.front ≡ front }
    {
        PublishedCopy {
            records: Records::seeded(alloc, seed),
            count: 0,
            front,
        }
    }

    /// A receipt of its front.
    pub(crate) fn receipt(&self) -> Receipt
        requires { IsOfItsFront self.now }
        ensures { result ≡ self.now.front }
    {
        Receipt {
            count: self.count,
            prefix: self.front.copy(),
        }
    }

    /// Applies an operation. If memory is refused, it is as before.
    fn apply_operation(&mut self, operation: &Operation) -> Result<(), AllocError>
        ensures { MatchResult result
            (λ _. data_of self.new ≡ copy_after (data_of self.old) operation.now)
            (λ _. data_of self.new ≡ data_of self.old) }
    {
        match operation {
            Operation::Update(update) => match self.records.apply(update) {
                Err(Refusal::OutOfMemory) => Err(AllocError),
                // No update among the operations is refused by its data; one that is would leave the data.
                Ok(()) | Err(_) => {
                    self.count = self.count.saturating_add(1);
                    Ok(())
                }
            },
            Operation::Front(front) => {
                self.front = front.copy();
                Ok(())
            }
        }
    }
}

impl PublishedCopy {
    /// Applies an operation, and moves in what it brings. If memory is refused, it comes back, and the copy is as
    /// before.
    fn move_operation(&mut self, operation: Operation) -> Result<(), Operation>
        ensures { MatchResult result
            (λ _. data_of self.new ≡ copy_after (data_of self.old) operation)
            (λ back. (back ≡ operation) × (data_of self.new ≡ data_of self.old)) }
    {
        match operation {
            Operation::Update(update) => {
                if let Err(update) = self.records.apply_owned(update) {
                    return Err(Operation::Update(update));
                }
                self.count = self.count.saturating_add(1);
            }
            Operation::Front(front) => self.front = front,
        }
        Ok(())
    }
}

impl PublishedCopy {
    /// Restores what an operation has changed, as another copy has it. If memory is refused, it is as before.
    fn restore_operation(
        &mut self,
        operation: &Operation,
        other: &PublishedCopy,
    ) -> Result<(), AllocError>
        ensures { MatchResult result
            (λ _. data_of self.new ≡ copy_restored (data_of self.old) operation.now (data_of other.now))
            (λ _. data_of self.new ≡ data_of self.old) }
    {
        if let Operation::Update(update) = operation {
            match update.imsi() {
                Some(imsi) => self.records.restore(&imsi, &other.records)?,
                None => self.records = other.records.clone()?,
            }
        }
        self.count = other.count;
        self.front = other.front.copy();
        Ok(())
    }
}

impl Absorb<Operation> for PublishedCopy {
    type State = (Records, u64, Prefix);

    ghost state = { data_of };

    ghost applied = { copy_after };

    fn absorb_first(
        &mut self,
        operation: &Operation,
        _other: &PublishedCopy,
    ) -> Result<(), AllocError> {
        self.apply_operation(operation)
    }

    fn absorb_second(
        &mut self,
        operation: Operation,
        _other: &PublishedCopy,
    ) -> Result<(), Operation> {
        self.move_operation(operation)
    }
}

impl Apply<Operation> for PublishedCopy {
    ghost use Rattle.camel_vlr.specs.Restoring.{copy_restores};

    type State = (Records, u64, Prefix);

    ghost state = { data_of };

    ghost applied = { copy_after };

    ghost restored = { copy_restored };

    ghost restores = { copy_restores };

    fn apply(&mut self, operation: &Operation) -> Result<(), AllocError> {
        self.apply_operation(operation)
    }

    fn restore(&mut self, operation: &Operation, other: &PublishedCopy) -> Result<(), AllocError> {
        self.restore_operation(operation, other)
    }

    fn make_ready(&mut self, operations: &VecDeque<Operation, Global>) -> Result<(), AllocError> {
        if self.records.len() < FEW_RECORDS {
            return Ok(());
        }
        match count_changes(&self.records, operations) {
            0 => Ok(()),
            more => self.records.reserve(more),
        }
    }

    fn apply_owned(&mut self, operation: Operation) -> Result<(), Operation> {
        self.move_operation(operation)
    }
}

/// How many operations make a record, or store other CSIs in one: the records become more by no more than that. Each
/// record that is to be changed is read, so that the processor waits for all of them together.
fn count_changes(records: &Records, operations: &VecDeque<Operation, Global>) -> usize {
    let mut changes: usize = 0;
    for operation in operations.iter() {
        if let Operation::Update(update) = operation {
            changes = changes.saturating_add(usize::from(records.changes_csis(update)));
        }
    }
    changes
}
