ghost use Rattle.std.specs.Prelude.{◌≡◌, ◌≤◌, List, [], ◌∷◌, ◌++◌, OnErr, OnOk};
ghost use Rattle.left_right.specs.Sides.{view};
ghost use Rattle.camel_rows.specs.Update.{IsFront};
ghost use Rattle.camel_vlr.specs.Operation.{pending_operations, updates_among};
ghost use Rattle.camel_vlr.specs.Seat.{IsOfItsFront, Knows};
ghost use Rattle.camel_vlr.specs.declared.writer.operation.Operation.{Operation};
ghost use Rattle.camel_vlr.specs.declared.writer.operation.Operation.TheVariants as operation;

use crate::base::left_right_seat::LeftRightSeat;
use crate::base::publisher::{HandedOver, Publisher, Publishes};
use crate::history::prefix::Prefix;
use crate::history::rule::{Introducing, Known, PublicationRule, Publishing};
use crate::published_copy::PublishedCopy;
use crate::writer::MAX_UPDATES;
use crate::writer::operation::Operation;
use camel_criteria::Refusal;
use core::mem::replace_with;
use left_right::writer::Writer;
use std::alloc::{AllocError, Global};
use std::collections::VecDeque;
use std::sync::Wait;

/// The writer's part of a store over `left_right`.
pub type LeftRightWriter = Writer<PublishedCopy, Operation, Known, PublicationRule>;

impl Publisher for LeftRightWriter {
    ghost use Rattle.std.specs.Prelude.{◌≡◌, []};
    ghost use Rattle.left_right.specs.Sides.{view};
    ghost use Rattle.camel_vlr.specs.Operation.{pending_operations};
    ghost use Rattle.camel_vlr.specs.Seat.{Knows};

    type Place = LeftRightSeat;

    ghost tells = { λ writer. Knows (view writer.desk.place) };

    ghost shown = { λ writer. writer.desk.shown.value };

    ghost pending = { pending_operations };

    ghost droppable = { λ writer. pending_operations writer ≡ [] };

    // A publication waits for the looks that hold it up, so it is never known that there is none.
    ghost free = { λ _. ⊥ };

    // It waits for such a look.
    ghost held = { λ _. ⊥ };

    ghost always_droppable = { ⊥ };

    ghost ready = { λ _. Unit {0} };

    fn published(&self) -> &PublishedCopy {
        Writer::published(self)
    }

    fn append(&mut self, operations: &mut VecDeque<Operation, Global>) -> Result<(), AllocError> {
        while let Some(operation) = operations.pop_front() {
            if let Err(operation) = Writer::append(self, operation) {
                operations.push_front_reserved(operation);
                return Err(AllocError);
            }
        }
        Ok(())
    }

    // A publication asks for all of it at once.
    fn get_ready(&mut self) -> Result<(), AllocError> {
        Ok(())
    }

    fn handed_over(&self) -> HandedOver<'_> {
        if self.has_pending_operations() {
            HandedOver::Kept
        } else {
            HandedOver::Nothing
        }
    }

    fn drop_pending(&mut self) {}

    fn place(&mut self) -> Result<LeftRightSeat, Refusal> {
        let Ok(mut reader) = self.factory().reader() else {
            return Err(Refusal::NoPlace);
        };
        reader.learn::<Introducing>(self.tell::<Introducing>());
        Ok(LeftRightSeat::Idle(reader))
    }
}

impl<R: Wait> Publishes<&R> for LeftRightWriter {
    type Why = AllocError;

    // It waits for the look instead.
    ghost is_held = { λ _. ⊥ };

    fn out_of_memory() -> AllocError {
        AllocError
    }

    fn publish_all(&mut self, by: &R, front: Prefix) -> Result<(), AllocError> {
        replace_with(self, (by, front), publish_all)
    }
}

/// Publishes all that is pending, of which the last is the front that all of it makes.
pub(crate) fn publish_all<R: Wait>(
    writer: LeftRightWriter,
    with: (&R, Prefix),
) -> (LeftRightWriter, Result<(), AllocError>)
    requires shown { IsOfItsFront writer.desk.shown.value }
    requires store { with.1.store ≡ writer.desk.shown.value.front.store }
    requires updates { with.1.updates
        ≡ writer.desk.shown.value.front.updates ++ updates_among (pending_operations writer) }
    requires front { IsFront with.1.store.limit with.1.updates }
    requires limit { with.1.store.limit ≤ MAX_UPDATES }
    requires last { (operations : List Operation)
        × (pending_operations writer ≡ operations ++ operation.Front with.1 ∷ []) }
    ensures shown { OnOk result.1
        (IsOfItsFront result.0.desk.shown.value × (result.0.desk.shown.value.front ≡ with.entry.1)) }
    ensures seat { OnOk result.1 (Knows (view result.0.desk.place) with.entry.1) }
    ensures none { OnOk result.1 (pending_operations result.0 ≡ []) }
    ensures unchanged { OnErr result.1 ((result.0.desk.shown.value ≡ writer.desk.shown.value)
        × (view result.0.desk.place ≡ view writer.desk.place)
        × (pending_operations result.0 ≡ pending_operations writer)) }
{
    writer.publish_as::<Publishing, R>(with.0)
}
