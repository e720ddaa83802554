//! Of which store a value is, as a fact of its type, so that the fact crosses threads and channels with the value.

ghost use Rattle.std.specs.Prelude.{◌≡◌, IfOk, All, Some, map};

use crate::base::publisher::Publisher;
use crate::base::seat::Seat;
use crate::{Receipt, Session, Vlr};
use std::alloc::{AllocError, Global};
use std::marker::{Brand, PhantomData};

/// A parameter of a type that stands for a store. Functions that share a store are written for each `S: StoreName`, and
/// the first of them is called with `std::marker::Brand`, for which the proof of that call names the store.
pub trait StoreName: Send + Sync {
    ghost use Rattle.std.specs.Prelude.{Option};
    ghost use Rattle.camel_vlr.specs.History.{StoreId};

    ghost store: { Option StoreId };
}

impl StoreName for Brand {
    ghost use Rattle.std.specs.Prelude.{None};

    ghost store = { None };
}

/// What is of one store for good: its writer, its sessions and its receipts.
pub trait HasStore {
    ghost use Rattle.camel_vlr.specs.History.{StoreId};

    ghost store_of: { Self → StoreId };
}

impl<W: Publisher> HasStore for Vlr<W> {
    ghost store_of = { λ store. store.store };
}

impl<S: Seat> HasStore for Session<S> {
    ghost store_of = { λ session. session.store };
}

impl HasStore for Receipt {
    ghost store_of = { λ receipt. receipt.store };
}

/// A value of the store `S`. A session may learn a receipt if both are of one `S`, whatever way the receipt came.
#[derive(Drop)]
pub struct Of<S: StoreName, T: HasStore> {
    /// The writer, the session or the receipt. It is used in place, as in `session.value.learn(receipt.value)`.
    pub value: T,
    store: PhantomData<S>,
    pub ghost is_of: { S.store ≡ Some (T.store_of value) },
}

impl<S: StoreName, T: HasStore> Of<S, T> {
    /// The value, which has to be of the store `S`.
    pub fn new(value: T) -> Of<S, T>
        requires { S.store ≡ Some (T.store_of value) }
        ensures { result.value ≡ value }
    {
        Of {
            value,
            store: PhantomData,
        }
    }
}

impl<S: StoreName, T: HasStore + Drop> Of<S, T> {
    /// Each value of a list, in its order, as the sessions of a store that was opened. Each has to be of the store `S`.
    ///
    /// It fails if memory is refused; the values are dropped then.
    pub fn list(alloc: Global, values: Vec<T>) -> Result<Vec<Of<S, T>>, AllocError>
        requires { All (λ value. S.store ≡ Some (T.store_of value)) values.items }
        ensures { IfOk result (λ list. map (λ one. one.value) list.items ≡ values.items) }
    {
        let mut list = Vec::new(alloc);
        for value in values {
            list.push(Of::new(value))?;
        }
        Ok(list)
    }
}
