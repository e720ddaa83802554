ghost use Rattle.std.specs.Prelude.{◌≡◌, IfOk};

use std::alloc::{AllocError, Global};
use std::marker::Model;

/// A value in a block of memory of its own, so that what holds it stays small. Contracts see the value.
#[derive(Debug, Drop)]
pub struct Boxed<T> {
    block: Box<T>,
}

impl<T> Model for Boxed<T> {
    ghost Value = { T };

    ghost view = { λ a. a.block.value };
}

impl<T: Drop> Boxed<T> {
    /// Fails if memory is refused.
    pub fn new(alloc: Global, value: T) -> Result<Boxed<T>, AllocError>
        ensures { IfOk result (λ made. made ≡ value) }
    {
        Ok(Boxed {
            block: Box::new(alloc, value)?,
        })
    }
}

impl<T> Boxed<T> {
    ghost use Rattle.std.specs.Borrow.{Lends, sem};
    ghost use Rattle.camel_rows.specs.contracts.subscriber.boxed.Boxed.{the_row};

    /// The value, where it is.
    pub fn get(&self) -> &T
        ensures { result.now ≡ self.now }
    {
        &self.block
    }

    /// The value, to be changed in its place.
    pub(crate) fn get_mut(&mut self) -> &mut T
        ensures* writes_back { sem 𝓛 (Lends (the_row T.row) T.row self.entry result (λ value. value)) }
        ensures value { result.now ≡ self.old }
    {
        &mut self.block
    }

    /// The value, out of its block.
    pub fn into_inner(self) -> T
        ensures { result ≡ self }
    {
        Box::into_inner(self.block)
    }
}

impl<T: Clone> Clone for Boxed<T> {
    ghost is_clone = { λ old new. T.is_clone old new };

    fn clone(&self) -> Result<Boxed<T>, AllocError> {
        Ok(Boxed {
            block: self.block.clone()?,
        })
    }
}
