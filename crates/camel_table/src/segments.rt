ghost use Rattle.std.specs.Prelude.{◌≡◌, ◌<◌, ◌^◌, ◌+◌, ◌/◌, ◌++◌, [], ◌∷◌, length, slice_index_or, vec_capacity};
ghost use Rattle.std.specs.Prelude.{vec_len, OnErr, OnOk};
ghost use Rattle.std.specs.Borrow.{sem};
ghost use Rattle.camel_table.specs.Lending.{lends_item};
ghost use Rattle.camel_table.specs.Buckets.{AreFull, HasRoom, joined, segment};

use std::alloc::{AllocError, Global};
use std::marker::Model;

/// How many items a segment has room for.
const SEGMENT: usize = 128;

/// A list that grows without moving what it holds: its items lie in segments, and a segment is never copied.
///
/// Contracts see it as a list.
#[derive(Debug, Drop)]
pub struct Segments<T> {
    alloc: Global,
    segments: Vec<Vec<T>>,
    len: usize,
}

impl<T> Model for Segments<T> {
    ghost use Rattle.std.specs.Prelude.{◌≡◌, List, length};
    ghost use Rattle.camel_table.specs.Buckets.{AreFull, joined};

    ghost Value = { List T };

    ghost view = { λ a. joined a.segments.items };

    ghost invariant = { λ a. AreFull a.segments.items × (a.len ≡ length (joined a.segments.items)) };
}

impl<T> Segments<T> {
    /// No items. It takes no memory yet.
    pub(crate) fn new(alloc: Global) -> Segments<T>
        ensures { result ≡ [] }
    {
        Segments {
            alloc,
            segments: Vec::new(alloc),
            len: 0,
        }
    }

    /// How many items there are.
    pub(crate) fn len(&self) -> usize
        ensures { result ≡ length self.now }
    {
        self.len
    }

    /// The item at a place, from 0.
    pub(crate) fn get(&self, at: usize) -> &T
        requires { at < length self.now }
        ensures { result.now ≡ slice_index_or self.now at result.now }
    {
        &self.segments[at / SEGMENT][at % SEGMENT]
    }

    /// The item at a place, from 0, to be changed there.
    pub(crate) fn get_mut(&mut self, at: usize) -> &mut T
        requires { at < length self.old }
        ensures* writes_back { sem 𝓛 (lends_item T.row self.entry at result) }
        ensures item { result.now ≡ slice_index_or self.old at result.now }
    {
        let segment = &mut self.segments[at / SEGMENT];
        &mut segment[at % SEGMENT]
    }
}

impl<T: Drop> Segments<T> {
    /// Makes room in the list of the segments for those of so many items more, so that it is not copied while they are
    /// pushed. Fails with `AllocError` if memory is refused; either way the items stay.
    pub(crate) fn reserve(&mut self, additional: usize) -> Result<(), AllocError>
        ensures { self.new ≡ self.old }
    {
        reserve_list(&mut self.segments, additional)
    }

    /// Puts an item after the last one. Fails with `AllocError` if memory is refused; then nothing changes.
    pub(crate) fn push(&mut self, item: T) -> Result<(), AllocError>
        requires { length self.old < 2 ^ 34 }
        ensures pushed { OnOk result (self.new ≡ self.old ++ item ∷ []) }
        ensures unchanged { OnErr result (self.new ≡ self.old) }
    {
        make_room(&mut self.segments, self.alloc)?;
        push_last(&mut self.segments, item)?;
        self.len += 1;
        Ok(())
    }

    /// Takes all items out. It takes no memory.
    pub(crate) fn clear(&mut self)
        ensures { self.new ≡ [] }
    {
        self.segments.clear();
        self.len = 0;
    }
}

impl<T: Clone> Clone for Segments<T> {
    ghost use Rattle.std.specs.List.{AllZip};

    ghost is_clone = { λ old new. AllZip T.is_clone old new };

    fn clone(&self) -> Result<Segments<T>, AllocError> {
        Ok(Segments {
            alloc: self.alloc,
            segments: self.segments.clone()?,
            len: self.len,
        })
    }
}

// Makes room for the segments of so many items more, of which the first may begin a segment.
fn reserve_list<T: Drop>(segments: &mut Vec<Vec<T>>, additional: usize) -> Result<(), AllocError>
    ensures same { segments.new.items ≡ segments.old.items }
    ensures room { OnOk result (vec_len segments.new + additional / segment < vec_capacity segments.new) }
{
    segments.reserve(additional / SEGMENT + 1)
}

// Adds a segment if the last one is full, with all the memory that it will need.
fn make_room<T: Drop>(segments: &mut Vec<Vec<T>>, alloc: Global) -> Result<(), AllocError>
    requires { AreFull segments.old.items }
    ensures full { AreFull segments.new.items }
    ensures room { OnOk result (HasRoom segments.new.items) }
    ensures same { joined segments.new.items ≡ joined segments.old.items }
{
    let count = segments.len();
    if count > 0 && segments[count - 1].len() < SEGMENT {
        return Ok(());
    }
    segments.push(Vec::with_capacity(alloc, SEGMENT)?)?;
    Ok(())
}

fn push_last<T: Drop>(segments: &mut Vec<Vec<T>>, item: T) -> Result<(), AllocError>
    requires full { AreFull segments.old.items }
    requires room { HasRoom segments.old.items }
    ensures full { AreFull segments.new.items }
    ensures pushed { OnOk result (joined segments.new.items ≡ joined segments.old.items ++ item ∷ []) }
    ensures unchanged { OnErr result (joined segments.new.items ≡ joined segments.old.items) }
{
    let last = segments.len() - 1;
    segments[last].push(item)?;
    Ok(())
}
