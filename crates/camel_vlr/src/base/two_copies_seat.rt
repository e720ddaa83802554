ghost use Rattle.std.specs.Prelude.{◌≡◌, None, true, false, IsSomeAnd};
ghost use Rattle.camel_vlr.specs.Seat.{Enters, KnowsNoLess};
ghost use Rattle.camel_vlr.specs.TwoCopiesSeat.{Knows, copy_of, seen_at};

use crate::base::seat::Seat;
use crate::published_copy::PublishedCopy;
use core::mem::replace_with;
use two_copies::{CopyRule, Look, Reader};

/// Each copy that is shown is of its front, which extends the fronts that were shown before.
pub struct FrontsGrow;

impl CopyRule<PublishedCopy> for FrontsGrow {
    ghost use base.Growing.{prefix_refl, prefix_trans};
    ghost use Rattle.std.proofs.Common.{◌∙◌, refl};
    ghost use Rattle.camel_vlr.specs.Seat.{IsOfItsFront, IsPrefixOf};

    ghost holds = { IsOfItsFront };

    ghost follows = { λ earlier later. IsPrefixOf earlier.front later.front };

    ghost follows_itself = { λ copy. (refl, prefix_refl copy.front.updates) };

    ghost follows_through = { λ first second third one two.
        (one.0 ∙ two.0, prefix_trans first.front.updates second.front.updates third.front.updates one.1 two.1) };
}

/// A session's place at a store over `two_copies`.
pub enum TwoCopiesSeat {
    /// With no copy.
    Idle(Reader<PublishedCopy, FrontsGrow>),
    /// With the copy of a look.
    Looking(Look<PublishedCopy, FrontsGrow>),
}

impl Seat for TwoCopiesSeat {
    ghost use Rattle.camel_vlr.specs.TwoCopiesSeat.{Knows, copy_of};

    ghost knows = { Knows };

    ghost copy_of = { copy_of };

    #[inline(always)]
    fn enter(&mut self) -> bool {
        replace_with(self, (), TwoCopiesSeat::take_copy)
    }

    fn has_copy(&self) -> bool {
        matches!(self, TwoCopiesSeat::Looking(_))
    }

    fn copy(&self) -> &PublishedCopy {
        match self {
            TwoCopiesSeat::Looking(look) => look.get(),
            TwoCopiesSeat::Idle(_) => unreachable!(),
        }
    }

    #[inline(always)]
    fn leave(&mut self) {
        replace_with(self, (), TwoCopiesSeat::give_back);
    }
}

impl TwoCopiesSeat {
    /// Takes the copy that is published. Returns whether it has one then: if the store has ended, it has none.
    fn take_copy(self, _nothing: ()) -> (TwoCopiesSeat, bool)
        ensures yes { result.1 ≡ true → IsSomeAnd (copy_of result.0) (Enters Knows self result.0) }
        ensures no { result.1 ≡ false → (copy_of result.0 ≡ None) × KnowsNoLess Knows self result.0 }
    {
        match self.into_reader().look() {
            Ok(look) => (TwoCopiesSeat::Looking(look), true),
            Err(reader) => (TwoCopiesSeat::Idle(reader), false),
        }
    }

    /// Gives the copy back, if there is one.
    fn give_back(self, _nothing: ()) -> (TwoCopiesSeat, ())
        ensures { (copy_of result.0 ≡ None) × (seen_at result.0 ≡ seen_at self) }
    {
        let reader = match self {
            TwoCopiesSeat::Idle(reader) => reader,
            TwoCopiesSeat::Looking(look) => look.leave(),
        };
        (TwoCopiesSeat::Idle(reader), ())
    }

    /// Gives the copy back, if there is one, for a look that begins over another one, as few do.
    fn into_reader(self) -> Reader<PublishedCopy, FrontsGrow>
        ensures { seen_at (TwoCopiesSeat.Idle result) ≡ seen_at self }
    {
        match self {
            TwoCopiesSeat::Idle(reader) => reader,
            TwoCopiesSeat::Looking(look) => leave_first(look),
        }
    }
}

// In a call of its own, so that what all looks do is short enough to be in their callers.
#[inline(never)]
fn leave_first(look: Look<PublishedCopy, FrontsGrow>) -> Reader<PublishedCopy, FrontsGrow>
    ensures { seen_at (TwoCopiesSeat.Idle result) ≡ seen_at (TwoCopiesSeat.Looking look) }
{
    look.leave()
}

impl Drop for TwoCopiesSeat {
    fn drop(self) {
        match self {
            TwoCopiesSeat::Idle(reader) => drop(reader),
            TwoCopiesSeat::Looking(look) => drop(look.leave()),
        }
    }
}
