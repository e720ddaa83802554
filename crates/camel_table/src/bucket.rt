ghost use Rattle.std.specs.Prelude.{◌≡◌, ◌≤◌, ◌<◌, [], ◌∷◌, not, filter, vec_capacity, vec_len, IfOk, position, length};
ghost use Rattle.std.specs.Prelude.{OnErr, OnOk, IsSome, None, Some};
ghost use Rattle.std.specs.Borrow.{sem};
ghost use Rattle.std.specs.FinMap as map;
ghost use Rattle.std.specs.Option.{is_some, option_copied};
ghost use Rattle.camel_table.specs.ByImsi.{ListsEachOnceMore, is_same, keys_of};
ghost use Rattle.camel_table.specs.Buckets.{AreTagged, is_at};
ghost use Rattle.camel_table.specs.Lending.{lends_value};

use crate::addressing::Addressing;
use crate::entry::Entry;
use crate::tags::{Tags, tag_of};
use camel_tbcd::Imsi;
use std::alloc::{AllocError, Global};
use std::hash::BuildHasher;
use std::marker::Model;
use std::mem;

/// A bucket that has no room asks for room for so many entries: fewer would have it moved more often, and more would
/// leave more room unused.
const MORE_AT_ONCE: usize = 2;

/// The entries of the keys that have one bucket of a table.
///
/// Contracts see it as a finite map from the lists of their digits.
#[derive(Debug, Drop)]
pub(crate) struct Bucket<V> {
    // They lie in one block. The buckets themselves are small, so that those of many subscribers stay in a cache.
    entries: Vec<Entry<V>>,
    tags: Tags,
}

impl<V> Model for Bucket<V> {
    ghost use Rattle.std.specs.FinMap as map;
    ghost use Rattle.std.specs.Coded.{coded_ℕ, coded_list};
    ghost use Rattle.camel_table.specs.Buckets.{AreTagged};
    ghost use Rattle.camel_table.specs.ByImsi.{ByImsi, HasEachOnce, keys_of, map_of};

    ghost Value = { ByImsi V };

    ghost coded = { map.code (coded_list coded_ℕ) V.code };

    ghost view = { λ a. map_of a.entries.items };

    ghost invariant = { λ a. HasEachOnce a.entries.items × AreTagged a.tags (keys_of a.entries.items) };
}

impl<V> Bucket<V> {
    /// How many entries there are.
    pub(crate) fn len(&self) -> usize {
        self.entries.len()
    }

    /// The value of an IMSI, if there is one.
    #[inline(always)]
    pub(crate) fn get(&self, imsi: &Imsi) -> Option<&V>
        ensures { option_copied result ≡ map.get self.now imsi.now }
    {
        let at = place(&self.tags, &self.entries, imsi)?;
        Some(self.entries[at].value())
    }

    /// The value that an IMSI has, to be changed in its place.
    pub(crate) fn value_mut(&mut self, imsi: &Imsi) -> &mut V
        requires { IsSome (map.get self.old imsi.now) }
        ensures* writes_back { sem 𝓛 (lends_value V.row self.entry imsi.now result) }
        ensures value { Some result.now ≡ map.get self.old imsi.now }
    {
        let at = place(&self.tags, &self.entries, imsi).unwrap();
        let entry = &mut self.entries[at];
        entry.lend()
    }

    /// Lists each IMSI that has a value, after those that are listed. Fails with `AllocError` if memory is refused.
    pub(crate) fn push_imsis(&self, imsis: &mut Vec<Imsi>) -> Result<(), AllocError>
        ensures { OnOk result (ListsEachOnceMore imsis.old.items imsis.new.items self.now) }
    {
        for at in 0..self.entries.len() {
            imsis.push(self.entries[at].imsi())?;
        }
        Ok(())
    }
}

impl<V: Default + Drop> Bucket<V> {
    /// No entries. It takes no memory yet.
    pub(crate) fn new(alloc: Global) -> Bucket<V>
        ensures { result ≡ map.empty }
    {
        Bucket {
            entries: Vec::new(alloc),
            tags: Tags::none(),
        }
    }

    /// Puts a value in the place of the one that an IMSI has, or of none, and returns whether it had none. Fails with
    /// `AllocError` if memory is refused; then nothing changes.
    pub(crate) fn insert(&mut self, imsi: &Imsi, value: V) -> Result<bool, AllocError>
        ensures put { OnOk result (self.new ≡ map.insert self.old imsi.now value) }
        ensures is_new { IfOk result (λ is_new. is_new ≡ not (is_some (map.get self.old imsi.now))) }
        ensures unchanged { OnErr result (self.new ≡ self.old) }
    {
        let is_new = self.get(imsi).is_none();
        if is_new {
            self.add(imsi, value)?;
        } else {
            *self.value_mut(imsi) = value;
        }
        Ok(is_new)
    }

    /// Puts the value of an IMSI that has none. Fails with `AllocError` if memory is refused; then nothing changes.
    fn add(&mut self, imsi: &Imsi, value: V) -> Result<(), AllocError>
        requires { map.get self.old imsi.now ≡ None }
        ensures added { OnOk result (self.new ≡ map.insert self.old imsi.now value) }
        ensures unchanged { OnErr result (self.new ≡ self.old) }
    {
        make_room(&mut self.entries)?;
        let at = self.entries.len();
        self.entries.push(Entry { key: *imsi, value })?;
        self.tags.set(at, tag_of(imsi));
        Ok(())
    }

    /// Takes the entry of an IMSI out, and returns whether there was one.
    pub(crate) fn remove(&mut self, imsi: &Imsi) -> bool
        ensures removed { self.new ≡ map.remove self.old imsi.now }
        ensures was { result ≡ is_some (map.get self.old imsi.now) }
    {
        let Some(at) = place(&self.tags, &self.entries, imsi) else {
            return false;
        };
        self.entries.swap_remove(at);
        // The last entry has come into its place.
        if at < self.entries.len() {
            let key = self.entries[at].imsi();
            self.tags.set(at, tag_of(&key));
        }
        true
    }

    /// Splits the entries: those with this bucket stay, and the others are returned. Fails with `AllocError` if memory
    /// is refused; then nothing changes.
    pub(crate) fn split<S: BuildHasher>(
        &mut self,
        alloc: Global,
        addressing: &Addressing<S>,
        at: usize,
    ) -> Result<Bucket<V>, AllocError>
        requires { addressing.now.level ≤ 32 }
        ensures stay { OnOk result (self.new ≡ map.retain_keys self.old (λ key.
            is_at S.Hasher.finish S.Hasher.write S.build_hasher addressing.now at key)) }
        ensures leave { IfOk result (λ bucket. bucket ≡ map.retain_keys self.old (λ key.
            not (is_at S.Hasher.finish S.Hasher.write S.build_hasher addressing.now at key))) }
        ensures unchanged { OnErr result (self.new ≡ self.old) }
    {
        let mut stay = Vec::with_capacity(alloc, self.entries.len())?;
        let mut leave = Vec::with_capacity(alloc, self.entries.len())?;
        let entries = mem::replace(&mut self.entries, Vec::new(alloc));
        split(entries, addressing, at, &mut stay, &mut leave);
        stay.shrink_to_fit();
        leave.shrink_to_fit();
        self.tags = tags_of(&stay);
        self.entries = stay;
        Ok(Bucket {
            tags: tags_of(&leave),
            entries: leave,
        })
    }
}

impl<V: Clone> Clone for Bucket<V> {
    ghost use Rattle.std.specs.Prelude.{◌≡◌};
    ghost use Rattle.std.specs.FinMap as map;

    // A clone has the same keys, and the same values if a clone of a value is the same.
    ghost is_clone = { λ old new. (map.keys new ≡ map.keys old) × (((x y : V) → V.is_clone x y → y ≡ x) → new ≡ old) };

    fn clone(&self) -> Result<Bucket<V>, AllocError> {
        Ok(Bucket {
            entries: self.entries.clone()?,
            tags: self.tags.copy(),
        })
    }
}

/// Makes room for an entry more. Fails with `AllocError` if memory is refused; either way the entries stay.
fn make_room<V: Drop>(entries: &mut Vec<Entry<V>>) -> Result<(), AllocError>
    ensures { entries.new.items ≡ entries.old.items }
{
    if entries.len() == entries.capacity() {
        entries.reserve_exact(MORE_AT_ONCE)?;
    }
    Ok(())
}

/// The place of the entry of an IMSI, if there is one. If the entry with its tag is of another IMSI, all are searched.
#[inline(always)]
fn place<V>(tags: &Tags, entries: &[Entry<V>], imsi: &Imsi) -> Option<usize>
    requires { AreTagged tags.now (keys_of entries.now) }
    ensures { result ≡ position (λ entry. is_same imsi.now entry.0) entries.now }
{
    let at = tags.first(tag_of(imsi));
    if at >= entries.len() {
        return None;
    }
    if entries[at].is(imsi) {
        return Some(at);
    }
    position(entries, imsi)
}

/// The tags of entries.
fn tags_of<V>(entries: &[Entry<V>]) -> Tags
    ensures { AreTagged result (keys_of entries.now) }
{
    let mut tags = Tags::none();
    for at in 0..entries.len() {
        tags.set(at, tag_of(&entries[at].imsi()));
    }
    tags
}

/// Moves the entries with a bucket to one list, and the others to another, each in its order.
fn split<V: Drop, S: BuildHasher>(
    entries: Vec<Entry<V>>,
    addressing: &Addressing<S>,
    at: usize,
    stay: &mut Vec<Entry<V>>,
    leave: &mut Vec<Entry<V>>,
)
    requires level { addressing.now.level ≤ 32 }
    requires stay { (stay.old.items ≡ []) × (vec_len entries ≤ vec_capacity stay.old) }
    requires leave { (leave.old.items ≡ []) × (vec_len entries ≤ vec_capacity leave.old) }
    ensures stay { stay.new.items ≡ filter (λ entry.
        is_at S.Hasher.finish S.Hasher.write S.build_hasher addressing.now at entry.0) entries.items }
    ensures leave { leave.new.items ≡ filter (λ entry.
        not (is_at S.Hasher.finish S.Hasher.write S.build_hasher addressing.now at entry.0)) entries.items }
{
    for entry in entries {
        if entry.is_at(addressing, at) {
            stay.push_reserved(entry);
        } else {
            leave.push_reserved(entry);
        }
    }
}

#[inline(never)]
fn position<V>(entries: &[Entry<V>], imsi: &Imsi) -> Option<usize>
    ensures { result ≡ position (λ entry. is_same imsi.now entry.0) entries.now }
{
    entries.iter().position(|entry| entry.is(imsi))
}
