ghost use Rattle.std.specs.Prelude.{◌≡◌};
ghost use Rattle.two_copies.specs.Copies.{pending_of, shown_by};
ghost use Rattle.camel_vlr.specs.Seat.{IsPrefixOf};

use crate::base::publisher::{HandedOver, Publisher, Publishes};
use crate::base::two_copies_seat::{FrontsGrow, TwoCopiesSeat};
use crate::history::prefix::Prefix;
use crate::published_copy::PublishedCopy;
use crate::writer::operation::Operation;
use camel_criteria::Refusal;
use std::alloc::{AllocError, Global};
use std::collections::VecDeque;
use two_copies::{Copies, NoReader, Unpublished};

/// The writer's part of a store over `two_copies`.
pub type TwoCopiesWriter = Copies<PublishedCopy, Operation, FrontsGrow>;

impl Publisher for TwoCopiesWriter {
    ghost use Rattle.two_copies.specs.Copies.{IsFree, IsReady, pending_of, shown_by};
    ghost use Rattle.camel_vlr.specs.Seat.{IsPrefixOf};

    type Place = TwoCopiesSeat;

    ghost tells = { λ writer prefix. IsPrefixOf prefix (shown_by writer).front };

    ghost shown = { shown_by };

    ghost pending = { pending_of };

    ghost droppable = { λ _. Unit {0} };

    ghost free = { IsFree };

    ghost held = { λ writer. IsFree writer → ⊥ };

    ghost always_droppable = { Unit {0} };

    ghost ready = { IsReady };

    fn published(&self) -> &PublishedCopy {
        self.shown()
    }

    fn append(&mut self, operations: &mut VecDeque<Operation, Global>) -> Result<(), AllocError> {
        self.push_all(operations)
    }

    fn get_ready(&mut self) -> Result<(), AllocError> {
        self.bring_up()?;
        // For the front that is put behind what is pending.
        self.reserve(1)
    }

    fn handed_over(&self) -> HandedOver<'_> {
        HandedOver::Operations(self.pending())
    }

    fn drop_pending(&mut self) {
        Copies::drop_pending(self);
    }

    fn place(&mut self) -> Result<TwoCopiesSeat, Refusal> {
        match self.reader() {
            Ok(reader) => Ok(TwoCopiesSeat::Idle(reader)),
            Err(NoReader::NoPlace) => Err(Refusal::NoPlace),
            Err(NoReader::OutOfMemory) => Err(Refusal::OutOfMemory),
        }
    }
}

impl Publishes<()> for TwoCopiesWriter {
    ghost use Rattle.std.specs.Prelude.{◌≡◌};
    ghost use Rattle.two_copies.specs.declared.copies.Unpublished.TheVariants.{Held};

    type Why = Unpublished;

    ghost is_held = { λ why. why ≡ Held };

    fn out_of_memory() -> Unpublished {
        Unpublished::OutOfMemory
    }

    fn publish_all(&mut self, _by: (), _front: Prefix) -> Result<(), Unpublished> {
        self.publish()
    }
}
