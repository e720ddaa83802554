ghost use Rattle.std.specs.Prelude.{◌≡◌, None, true, false, IsSomeAnd};
ghost use Rattle.left_right.specs.Sides.{view};
ghost use Rattle.camel_vlr.specs.LeftRightSeat.{copy_of, known_of};
ghost use Rattle.camel_vlr.specs.Seat.{Looks};

use crate::base::seat::Seat;
use crate::history::rule::{Known, Looking, PublicationRule};
use crate::published_copy::PublishedCopy;
use core::mem::replace_with;
use left_right::reader::{Reader, Reading};

/// A session's place at a store over `left_right`.
pub enum LeftRightSeat {
    /// With no copy.
    Idle(Reader<PublishedCopy, Known, PublicationRule>),
    /// With the copy of a look.
    Reading(Reading<PublishedCopy, Known, PublicationRule>),
}

impl Seat for LeftRightSeat {
    ghost use Rattle.camel_vlr.specs.LeftRightSeat.{copy_of, known_of};
    ghost use Rattle.camel_vlr.specs.Seat.{Knows};

    ghost knows = { λ seat. Knows (known_of seat) };

    ghost copy_of = { copy_of };

    fn enter(&mut self) -> bool {
        replace_with(self, (), LeftRightSeat::take_copy)
    }

    fn has_copy(&self) -> bool {
        matches!(self, LeftRightSeat::Reading(_))
    }

    fn copy(&self) -> &PublishedCopy {
        match self {
            LeftRightSeat::Reading(reading) => reading.get(),
            LeftRightSeat::Idle(_) => unreachable!(),
        }
    }

    fn leave(&mut self) {
        replace_with(self, (), LeftRightSeat::give_back);
    }
}

impl LeftRightSeat {
    /// Takes the copy that is published. Returns whether it has one then: if the store has ended, it has none.
    fn take_copy(self, _nothing: ()) -> (LeftRightSeat, bool)
        ensures yes { result.1 ≡ true
            → IsSomeAnd (copy_of result.0) (λ copy. Looks (known_of self) copy copy (known_of result.0)) }
        ensures no { result.1 ≡ false → (copy_of result.0 ≡ None) × (known_of result.0 ≡ known_of self) }
    {
        match self.into_reader().enter_as::<Looking>() {
            Ok(reading) => (LeftRightSeat::Reading(reading), true),
            Err(reader) => (LeftRightSeat::Idle(reader), false),
        }
    }

    /// Gives the copy back, if there is one.
    fn give_back(self, _nothing: ()) -> (LeftRightSeat, ())
        ensures { (copy_of result.0 ≡ None) × (known_of result.0 ≡ known_of self) }
    {
        LeftRightSeat::idle(self.into_reader())
    }

    /// A seat with no copy. It is a function of its own so that it begins once a copy is given back: the compiler
    /// clears a new seat where the function that makes it begins, and moves it in more steps over what is atomic.
    fn idle(reader: Reader<PublishedCopy, Known, PublicationRule>) -> (LeftRightSeat, ())
        ensures { (copy_of result.0 ≡ None) × (known_of result.0 ≡ view reader.place) }
    {
        (LeftRightSeat::Idle(reader), ())
    }

    /// Gives the copy back, if there is one.
    fn into_reader(self) -> Reader<PublishedCopy, Known, PublicationRule>
        ensures { view result.place ≡ known_of self }
    {
        match self {
            LeftRightSeat::Idle(reader) => reader,
            LeftRightSeat::Reading(reading) => reading.leave(),
        }
    }
}

impl Drop for LeftRightSeat {
    fn drop(self) {
        match self {
            LeftRightSeat::Idle(reader) => drop(reader),
            LeftRightSeat::Reading(reading) => drop(reading.leave()),
        }
    }
}
