//! The operations that are pending, and those that the copy which is not shown lacks.
ghost use Rattle.std.specs.Prelude.{◌≡◌, ◌+◌, ◌<◌, ◌≤◌, [], ◌∷◌, ◌++◌, take, fold, length, MatchResult, OnOk};
ghost use Rattle.two_copies.specs.Restoring.{restored_from};

use crate::apply::Apply;
use std::alloc::{AllocError, Global};
use std::collections::VecDeque;
use std::mem;

/// The operations that the other copy has and that were dropped, those of the last publication that only the shown copy
/// has, and the pending ones, with how many of these the other copy has.
#[derive(Drop)]
pub(crate) struct Log<O: Drop> {
    dropped: VecDeque<O, Global>,
    last: VecDeque<O, Global>,
    pending: VecDeque<O, Global>,
    pending_done: usize,
    ghost bounds: { pending_done ≤ length pending.items },
    ghost order: { 0 < pending_done → length dropped.items + length last.items ≡ 0 },
}

impl<O: Drop> Log<O> {
    ghost use Rattle.two_copies.specs.Log.{IsAlike, IsBroughtUp, done_in, pending_in};

    pub(crate) fn new(alloc: Global) -> Log<O>
        ensures pending { pending_in result ≡ [] }
        ensures up { IsBroughtUp result }
    {
        Log {
            dropped: VecDeque::new(alloc),
            last: VecDeque::new(alloc),
            pending: VecDeque::new(alloc),
            pending_done: 0,
        }
    }

    /// Puts an operation behind the pending ones.
    pub(crate) fn push(&mut self, operation: O) -> Result<(), AllocError>
        ensures pending { MatchResult result
            (λ _. pending_in self.new ≡ pending_in self.old ++ operation ∷ [])
            (λ _. pending_in self.new ≡ pending_in self.old) }
        ensures dropped { self.new.dropped ≡ self.old.dropped }
        ensures last { self.new.last ≡ self.old.last }
        ensures done { done_in self.new ≡ done_in self.old }
    {
        self.pending.push_back(operation)?;
        Ok(())
    }

    /// Moves these operations behind the pending ones, all or none.
    pub(crate) fn push_all(
        &mut self,
        operations: &mut VecDeque<O, Global>,
    ) -> Result<(), AllocError>
        ensures pending { MatchResult result
            (λ _. pending_in self.new ≡ pending_in self.old ++ operations.old.items)
            (λ _. pending_in self.new ≡ pending_in self.old) }
        ensures rest { MatchResult result
            (λ _. operations.new.items ≡ [])
            (λ _. operations.new.items ≡ operations.old.items) }
        ensures dropped { self.new.dropped ≡ self.old.dropped }
        ensures last { self.new.last ≡ self.old.last }
        ensures done { done_in self.new ≡ done_in self.old }
    {
        if self.pending.is_empty() {
            mem::swap(&mut self.pending, operations);
            return Ok(());
        }
        self.pending.append(operations)
    }

    /// The pending operations.
    pub(crate) fn pending(&self) -> &VecDeque<O, Global>
        ensures { result.now.items ≡ pending_in self.now }
    {
        &self.pending
    }

    /// Makes room for so many pending operations more.
    pub(crate) fn reserve(&mut self, additional: usize) -> Result<(), AllocError>
        ensures pending { pending_in self.new ≡ pending_in self.old }
        ensures dropped { self.new.dropped ≡ self.old.dropped }
        ensures last { self.new.last ≡ self.old.last }
        ensures done { done_in self.new ≡ done_in self.old }
        ensures ready { IsBroughtUp self.old → IsBroughtUp self.new }
    {
        self.pending.reserve(additional)
    }

    /// Restores what the copy has of dropped operations as the shown copy has it, and applies what the copy lacks, as
    /// far as memory lasts. A later call goes on from there.
    pub(crate) fn bring_up<T: Apply<O>>(
        &mut self,
        copy: &mut T,
        shown: &T,
    ) -> Result<(), AllocError>
        ensures pending { pending_in self.new ≡ pending_in self.old }
        ensures alike { IsAlike T.applied T.restored (T.state copy.old) (T.state shown.now) self.old
            → IsAlike T.applied T.restored (T.state copy.new) (T.state shown.now) self.new }
        ensures up { OnOk result (IsBroughtUp self.new) }
    {
        restore_all(copy, shown, &mut self.dropped)?;
        // A call that goes on with the pending operations has been ready for them before.
        if self.pending_done == 0 {
            copy.make_ready(&self.last)?;
            copy.make_ready(&self.pending)?;
        }
        move_all(copy, &mut self.last)?;
        apply_from(copy, &self.pending, &mut self.pending_done)
    }

    /// Drops the pending operations. What the copy has of them is restored before it is changed again. It takes no
    /// memory.
    pub(crate) fn drop_pending<T: Apply<O>>(&mut self)
        ensures none { pending_in self.new ≡ [] }
        ensures alike { (spare shown : T.State) → IsAlike T.applied T.restored spare shown self.old
            → IsAlike T.applied T.restored spare shown self.new }
    {
        if self.pending_done > 0 {
            self.pending.truncate(self.pending_done);
            mem::swap(&mut self.dropped, &mut self.pending);
            self.pending_done = 0;
        }
        self.pending.clear();
    }

    /// The copies change their parts, and the one that is no longer shown lacks what was pending.
    pub(crate) fn turn(&mut self)
        requires { IsBroughtUp self.old }
        ensures pending { pending_in self.new ≡ [] }
        ensures done { done_in self.new ≡ [] }
        ensures dropped { self.new.dropped.items ≡ [] }
        ensures last { self.new.last.items ≡ pending_in self.old }
    {
        mem::swap(&mut self.last, &mut self.pending);
        self.pending.clear();
        self.pending_done = 0;
    }
}

/// Restores what the operations have changed, one after the other. One that is refused memory stays, with those behind
/// it.
fn restore_all<T: Apply<O>, O: Drop>(
    copy: &mut T,
    shown: &T,
    operations: &mut VecDeque<O>,
) -> Result<(), AllocError>
    ensures all { OnOk result (operations.new.items ≡ []) }
    ensures fewer { length operations.new.items ≤ length operations.old.items }
    ensures alike { restored_from T.restored (T.state shown.now) (T.state copy.new) operations.new.items
        ≡ restored_from T.restored (T.state shown.now) (T.state copy.old) operations.old.items }
{
    while let Some(operation) = operations.pop_front() {
        if let Err(error) = copy.restore(&operation, shown) {
            operations.push_front_reserved(operation);
            return Err(error);
        }
    }
    Ok(())
}

/// Moves the operations into a copy, one after the other. One that is refused memory stays, with those behind it.
fn move_all<T: Apply<O>, O: Drop>(
    copy: &mut T,
    operations: &mut VecDeque<O>,
) -> Result<(), AllocError>
    ensures all { OnOk result (operations.new.items ≡ []) }
    ensures fewer { length operations.new.items ≤ length operations.old.items }
    ensures alike { fold T.applied (T.state copy.new) operations.new.items
        ≡ fold T.applied (T.state copy.old) operations.old.items }
{
    while let Some(operation) = operations.pop_front() {
        if let Err(operation) = copy.apply_owned(operation) {
            operations.push_front_reserved(operation);
            return Err(AllocError);
        }
    }
    Ok(())
}

/// Applies the operations behind the first `done`, and counts them.
fn apply_from<T: Apply<O>, O: Drop>(
    copy: &mut T,
    operations: &VecDeque<O>,
    done: &mut usize,
) -> Result<(), AllocError>
    requires { done.old ≤ length operations.now.items }
    ensures bound { done.new ≤ length operations.now.items }
    ensures all { OnOk result (done.new ≡ length operations.now.items) }
    ensures alike { (first : T.State) → T.state copy.old ≡ fold T.applied first (take done.old operations.now.items)
        → T.state copy.new ≡ fold T.applied first (take done.new operations.now.items) }
{
    while *done < operations.len() {
        copy.apply(&operations[*done])?;
        *done += 1;
    }
    Ok(())
}
