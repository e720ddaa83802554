ghost use Rattle.std.specs.Prelude.{◌≡◌, ◌≤◌, ◌⊎◌, List, [], ◌∷◌, ◌++◌, None, IfErr, IfOk, OnErr, OnOk};
ghost use Rattle.camel_rows.specs.Update.{IsFront};
ghost use Rattle.camel_vlr.specs.Operation.{IsHandedOver, updates_among};
ghost use Rattle.camel_vlr.specs.History.{PrefixData};
ghost use Rattle.camel_vlr.specs.Seat.{IsOfItsFront, KnowsNoLess};
ghost use Rattle.camel_vlr.specs.declared.writer.operation.Operation.{Operation};
ghost use Rattle.camel_vlr.specs.declared.writer.operation.Operation.TheVariants as operation;

use crate::base::seat::Seat;
use crate::history::prefix::Prefix;
use crate::published_copy::PublishedCopy;
use crate::writer::MAX_UPDATES;
use crate::writer::operation::Operation;
use camel_criteria::Refusal;
use std::alloc::{AllocError, Global};
use std::collections::VecDeque;

/// What a base was handed over and has not published.
pub enum HandedOver<'a> {
    Nothing,
    Operations(&'a VecDeque<Operation, Global>),
    /// The base does not let it go.
    Kept,
}

/// The writer's part of a base. No other crate sees it.
pub trait Publisher: Sized {
    ghost use Rattle.std.specs.Prelude.{List};
    ghost use Rattle.camel_vlr.specs.History.{PrefixData};
    ghost use Rattle.camel_vlr.specs.declared.published_copy.PublishedCopy.{PublishedCopy};
    ghost use Rattle.camel_vlr.specs.declared.writer.operation.Operation.{Operation};

    /// A session's place.
    type Place: Seat;

    /// It is known to the writer that this front is published.
    ghost tells: { Self → PrefixData → Type 0 };

    /// The copy that is published.
    ghost shown: { Self → PublishedCopy };

    /// The operations that are pending.
    ghost pending: { Self → List Operation };

    /// What is pending can be dropped.
    ghost droppable: { Self → Type 0 };

    /// No look holds up the next publication, whatever sessions do until then.
    ghost free: { Self → Type 0 };

    /// A look was found that holds up the next publication.
    ghost held: { Self → Type 0 };

    /// Whatever is pending can be dropped, at any time.
    ghost always_droppable: { Type 0 };

    /// What is pending needs no memory any more that could be asked for without publishing it.
    ghost ready: { Self → Type 0 };

    /// The copy that is published.
    fn published(&self) -> &PublishedCopy
        ensures { result.now ≡ shown self.now };

    /// Moves operations behind what is pending, as far as memory lasts.
    fn append(&mut self, operations: &mut VecDeque<Operation, Global>) -> Result<(), AllocError>
        ensures shown { shown self.new ≡ shown self.old }
        ensures tells { KnowsNoLess tells self.old self.new }
        ensures pending { pending self.new ++ operations.new.items ≡ pending self.old ++ operations.old.items }
        ensures all { OnOk result (operations.new.items ≡ []) }
        ensures free { free self.old → free self.new };

    /// Asks for the memory that the pending operations need, as far as it can without publishing them.
    fn get_ready(&mut self) -> Result<(), AllocError>
        ensures shown { shown self.new ≡ shown self.old }
        ensures tells { KnowsNoLess tells self.old self.new }
        ensures pending { pending self.new ≡ pending self.old }
        ensures ready { OnOk result (ready self.new) }
        ensures free { free self.old → free self.new };

    /// The operations that are pending, if the base shows them and can drop them.
    fn handed_over(&self) -> HandedOver<'_>
        ensures { IsHandedOver result (pending self.now) (droppable self.now) always_droppable };

    /// Drops all that is pending.
    fn drop_pending(&mut self)
        requires { droppable self.old }
        ensures shown { shown self.new ≡ shown self.old }
        ensures tells { KnowsNoLess tells self.old self.new }
        ensures none { pending self.new ≡ [] }
        ensures free { free self.old → free self.new }
        ensures held { held self.old → held self.new };

    /// A place for a session, at which all is known that is known to the writer. It fails with `OutOfMemory` (102) if
    /// memory was refused, and with `NoPlace` (103) if there is none.
    fn place(&mut self) -> Result<Self::Place, Refusal>
        requires { IsOfItsFront (shown self.old) }
        ensures shown { shown self.new ≡ shown self.old }
        ensures tells { KnowsNoLess tells self.old self.new }
        ensures pending { pending self.new ≡ pending self.old }
        ensures idle { IfOk result (λ place. Self.Place.copy_of place ≡ None) }
        ensures knows { IfOk result
            (λ place. (prefix : PrefixData) → tells self.old prefix → Self.Place.knows place prefix) }
        ensures only { IfErr result (λ why. (why ≡ Refusal.OutOfMemory) ⊎ (why ≡ Refusal.NoPlace)) };
}

/// A base whose writer publishes by a handle `H`.
pub trait Publishes<H>: Publisher {
    /// Why nothing was published.
    type Why: Drop;

    /// It was because a look holds up the publication.
    ghost is_held: { Self.Why → Type 0 };

    /// It was because memory was refused.
    fn out_of_memory() -> Self::Why
        ensures { is_held result → ⊥ };

    /// Publishes all that is pending, of which the last is the front that all of it makes.
    fn publish_all(&mut self, by: H, front: Prefix) -> Result<(), Self::Why>
        requires shown { IsOfItsFront (Self.shown self.old) }
        requires store { front.store ≡ (Self.shown self.old).front.store }
        requires updates { front.updates ≡ (Self.shown self.old).front.updates
            ++ updates_among (Self.pending self.old) }
        requires front { IsFront front.store.limit front.updates }
        requires limit { front.store.limit ≤ MAX_UPDATES }
        requires last { (operations : List Operation)
            × (Self.pending self.old ≡ operations ++ operation.Front front ∷ []) }
        ensures shown { OnOk result (IsOfItsFront (Self.shown self.new) × ((Self.shown self.new).front ≡ front)) }
        ensures tells { OnOk result (Self.tells self.new front) }
        ensures none { OnOk result (Self.pending self.new ≡ []) }
        ensures unchanged { OnErr result ((Self.shown self.new ≡ Self.shown self.old)
            × KnowsNoLess Self.tells self.old self.new
            × (Self.pending self.new ≡ Self.pending self.old)) }
        ensures free { OnErr result (Self.free self.old → Self.free self.new) }
        ensures held { Self.free self.old → IfErr result (λ why. is_held why → ⊥) };
}
