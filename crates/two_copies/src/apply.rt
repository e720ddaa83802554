//! Operations on a copy.
ghost use Rattle.std.specs.Prelude.{◌≡◌, MatchResult};

use std::alloc::{AllocError, Global};
use std::collections::VecDeque;

/// A value that operations change. Each operation is applied to both copies, one after the other.
pub trait Apply<O: Drop> {
    ghost use Rattle.std.specs.Prelude.{◌≡◌, List, fold};

    /// What two copies have in common if the same operations were applied to both. No value of it is made.
    type State;

    ghost state: { Self → Self.State };

    /// The state that an operation leaves.
    ghost applied: { Self.State → O → Self.State };

    /// The state in which what an operation changes is as in another one, the second.
    ghost restored: { Self.State → O → Self.State → Self.State };

    /// Restoring what operations have changed leads back to the state before them.
    ghost restores: { (before : Self.State) (operations : List O)
        → fold (λ now operation. restored now operation before) (fold applied before operations) operations ≡ before };

    /// Applies an operation. If memory is refused, the state is as before.
    fn apply(&mut self, operation: &O) -> Result<(), AllocError>
        ensures { MatchResult result
            (λ _. state self.new ≡ applied (state self.old) operation.now)
            (λ _. state self.new ≡ state self.old) };

    /// Restores what an operation has changed, as the other copy has it. If memory is refused, the state is as before.
    fn restore(&mut self, operation: &O, other: &Self) -> Result<(), AllocError>
        ensures { MatchResult result
            (λ _. state self.new ≡ restored (state self.old) operation.now (state other.now))
            (λ _. state self.new ≡ state self.old) };

    /// Gets ready for operations that are applied next, in their order: it may ask for memory that they will need, and
    /// read what they will change, so that these reads go to memory together. Either way the state is as before.
    fn make_ready(&mut self, operations: &VecDeque<O, Global>) -> Result<(), AllocError>
        ensures { state self.new ≡ state self.old }
    {
        Ok(())
    }

    /// Applies an operation that the other copy has already, and may move in what it brings. If memory is refused, it
    /// comes back, and the state is as before.
    fn apply_owned(&mut self, operation: O) -> Result<(), O>
        ensures { MatchResult result
            (λ _. state self.new ≡ applied (state self.old) operation)
            (λ back. (back ≡ operation) × (state self.new ≡ state self.old)) }
    {
        match self.apply(&operation) {
            Ok(()) => Ok(()),
            Err(_) => Err(operation),
        }
    }
}
