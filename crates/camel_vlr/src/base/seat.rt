ghost use Rattle.std.specs.Prelude.{◌≡◌, Some, None, true, false, IsSome, IsSomeAnd, is_some};
ghost use Rattle.camel_vlr.specs.Seat.{Enters, KnowsNoLess};

use crate::published_copy::PublishedCopy;

/// A session's place at a base. No other crate sees it.
pub trait Seat: Drop + Sized {
    ghost use Rattle.std.specs.Prelude.{Option};
    ghost use Rattle.camel_vlr.specs.History.{PrefixData};
    ghost use Rattle.camel_vlr.specs.declared.published_copy.PublishedCopy.{PublishedCopy};

    /// It is known at the place that this front is published.
    ghost knows: { Self → PrefixData → Type 0 };

    /// The copy of a look.
    ghost copy_of: { Self → Option PublishedCopy };

    /// Takes the copy that is published. Returns whether it has one then.
    fn enter(&mut self) -> bool
        ensures yes { result ≡ true → IsSomeAnd (copy_of self.new) (Enters knows self.old self.new) }
        ensures no { result ≡ false → (copy_of self.new ≡ None) × KnowsNoLess knows self.old self.new };

    /// Whether it has a copy.
    fn has_copy(&self) -> bool
        ensures { result ≡ is_some (copy_of self.now) };

    /// The copy of the look.
    fn copy(&self) -> &PublishedCopy
        requires { IsSome (copy_of self.now) }
        ensures { copy_of self.now ≡ Some result.now };

    /// Gives the copy back, if there is one.
    fn leave(&mut self)
        ensures none { copy_of self.new ≡ None }
        ensures knows { KnowsNoLess knows self.old self.new };
}
