//! The handle by which C keeps an object.

ghost use Rattle.std.specs.Prelude.{◌≡◌, true, false, Option, Some, None, is_some, IsSome, MatchOption};
ghost use Rattle.std.specs.Coded.{coded_option};
ghost use Rattle.camel_c.specs.contracts.object.Object.{the_row};
ghost use Rattle.camel_c.specs.declared.object.Object.{Object};

use crate::object::{Kind, Object};
use std::alloc::Global;
use std::marker::Model;
use std::ptr::null_mut;

/// A handle of C: the pointer of a box that holds an object, or nothing. All zeros are an empty handle.
///
/// A call changes the object in its box: a call that fills the handle allocates the box, and one that empties it frees
/// it.
#[repr(C)]
pub struct CamelHandle {
    at: *mut u8,
    is_full: bool,
    /// The object, if there is one.
    pub ghost value: { Option Object } by { coded_option the_row.coded },
}

impl Model for CamelHandle {
    ghost use Rattle.camel_c.specs.contracts.object.Object.{the_row};
    ghost use Rattle.camel_c.specs.Handle.{handle_owns};

    ghost also_owns = { λ h. handle_owns the_row h.at h.is_full h.value };
}

impl CamelHandle {
    ghost use Rattle.std.specs.Borrow.{Lends, LendsIf, sem};
    ghost use Rattle.std.specs.Option.{option_copied_mut};
    ghost use Rattle.camel_c.specs.Object.{with_object};
    ghost use Rattle.camel_c.specs.contracts.handle.CamelHandle.{the_row as handle_row};

    /// An empty handle.
    pub(crate) fn empty() -> CamelHandle
        ensures { result.value ≡ None }
    {
        CamelHandle {
            at: null_mut(),
            is_full: false,
        }
    }

    /// A handle that holds the object of a box.
    pub(crate) fn of(whole: Box<Object, Global>) -> CamelHandle
        ensures { result.value ≡ Some whole.value }
    {
        CamelHandle {
            at: Box::into_raw(whole) as *mut u8,
            is_full: true,
        }
    }

    /// Whether there is an object.
    #[inline]
    pub(crate) fn is_full(&mut self) -> bool
        ensures { (result ≡ is_some self.old.value) × (self.new ≡ self.old) }
    {
        self.is_full
    }

    /// The object of a full handle, borrowed where it is.
    #[inline]
    pub(crate) fn get_mut(&mut self) -> &mut Object
        requires { IsSome self.old.value }
        ensures* writes_back { sem 𝓛 (Lends handle_row the_row self.entry result (with_object self.entry.now)) }
        ensures value { self.old.value ≡ Some result.now }
    {
        unsafe { &mut *(self.at as *mut Object) }
    }

    /// What a handle holds, if it is of this kind, borrowed where it is.
    #[inline]
    pub(crate) fn lend<K: Kind>(&mut self) -> Option<&mut K>
        ensures* writes_back { sem 𝓛
            (LendsIf handle_row K.row self.entry result
            (λ own. with_object self.entry.now (K.whole own)) self.entry.now) }
        ensures value { MatchOption (option_copied_mut result)
            ((own : K) × (self.old.value ≡ Some (K.whole own)) → ⊥) (λ own. self.old.value ≡ Some (K.whole own)) }
    {
        if !self.is_full() {
            return None;
        }
        let held = self.get_mut();
        K::within(held)
    }

    /// The box of a full handle. A `Global` takes no bytes, so C passes none, and whichever is given frees the box.
    pub(crate) fn into_box(self, alloc: Global) -> Option<Box<Object, Global>>
        ensures { MatchOption result (self.value ≡ None) (λ whole. self.value ≡ Some whole.value) }
    {
        let CamelHandle { at, is_full } = self;
        if !is_full {
            return None;
        }
        let whole = unsafe { Box::from_raw(alloc, at as *mut Object) };
        Some(whole)
    }
}
