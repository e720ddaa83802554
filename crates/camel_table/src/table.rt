ghost use Rattle.std.specs.Prelude.{◌≡◌, ◌⊎◌, ◌<◌, ◌≤◌, ◌^◌, ◌++◌, [], ◌∷◌, length, IfOk, IsSome, OnErr, OnOk, Some};
ghost use Rattle.std.specs.Borrow.{Lends, LendsIf, sem};
ghost use Rattle.std.specs.FinMap as map;
ghost use Rattle.std.specs.Option.{option_copied, option_copied_mut};
ghost use Rattle.camel_table.specs.ByImsi.{ListsEachOnce};
ghost use Rattle.camel_table.specs.contracts.table.Table.{the_row};

use crate::addressing::Addressing;
use crate::bucket::Bucket;
use crate::segments::Segments;
use camel_tbcd::Imsi;
use std::alloc::{AllocError, Global};
use std::hash::BuildHasher;
use std::marker::Model;

/// A bucket that gets more entries than this asks for a bucket more. It has tags of 16.
const MOST_IN_BUCKET: usize = 15;

/// There are never more buckets than this. Further entries make the buckets longer.
const MOST_BUCKETS: usize = 1 << 32;

/// A table from IMSIs to values, by linear hashing: the hash of an IMSI chooses its bucket, and there is one bucket
/// more at a time, to which entries of one other bucket are moved, so that no change of one value waits for the growth
/// of all.
///
/// Contracts see it as a finite map from the lists of their digits.
#[derive(Debug, Drop)]
pub struct Table<V, S: BuildHasher> {
    alloc: Global,
    addressing: Addressing<S>,
    buckets: Segments<Bucket<V>>,
    // How many values there are.
    count: usize,
}

impl<V, S: BuildHasher> Model for Table<V, S> {
    ghost use Rattle.std.specs.FinMap as map;
    ghost use Rattle.std.specs.Coded.{coded_ℕ, coded_list};
    ghost use Rattle.camel_table.specs.ByImsi.{ByImsi};
    ghost use Rattle.camel_table.specs.Buckets.{IsTable, table_map, hash_of};

    ghost Value = { ByImsi V };

    ghost coded = { map.code (coded_list coded_ℕ) V.code };

    ghost view = { λ a. table_map a.buckets };

    ghost invariant = { λ a. IsTable
        (hash_of S.Hasher.finish S.Hasher.write (S.build_hasher a.addressing.hashes))
        a.addressing.level a.addressing.count a.count a.buckets };
}

impl<V, S: BuildHasher + Copy> Table<V, S> {
    /// No values. It takes no memory yet.
    pub fn new(alloc: Global, hashes: S) -> Table<V, S>
        ensures { result ≡ map.empty }
    {
        Table {
            alloc,
            addressing: Addressing::new(hashes, 0, 0),
            buckets: Segments::new(alloc),
            count: 0,
        }
    }

    /// The value of an IMSI, if there is one.
    pub fn get(&self, imsi: &Imsi) -> Option<&V>
        ensures { option_copied result ≡ map.get self.now imsi.now }
    {
        if self.addressing.count == 0 {
            return None;
        }
        let bucket = self.buckets.get(self.addressing.bucket(imsi.number()));
        bucket.get(imsi)
    }

    /// How many values there are. It counts none, since their number is kept.
    pub fn len(&self) -> usize
        ensures { result ≡ map.len self.now }
    {
        self.count
    }

    /// The IMSIs that have values, each once, in no order that is promised. Fails with `AllocError` if memory is
    /// refused.
    pub fn imsis(&self) -> Result<Vec<Imsi>, AllocError>
        ensures { IfOk result (λ imsis. ListsEachOnce imsis.items self.now) }
    {
        let mut imsis = Vec::new(self.alloc);
        for at in 0..self.buckets.len() {
            self.buckets.get(at).push_imsis(&mut imsis)?;
        }
        Ok(imsis)
    }
}

impl<V: Default + Drop, S: BuildHasher + Copy> Table<V, S> {
    /// Puts a value in the place of the one that an IMSI has, or of none. Fails with `AllocError` if memory is refused;
    /// then nothing changes.
    pub fn insert(&mut self, imsi: &Imsi, value: V) -> Result<(), AllocError>
        ensures put { OnOk result (self.new ≡ map.insert self.old imsi.now value) }
        ensures unchanged { OnErr result (self.new ≡ self.old) }
    {
        // No memory holds as many values as a count does.
        if self.count == usize::MAX {
            return Err(AllocError);
        }
        if self.addressing.count == 0 {
            return self.insert_first(imsi, value);
        }
        let bucket = self.buckets.get_mut(self.addressing.bucket(imsi.number()));
        let is_new = bucket.insert(imsi, value)?;
        // A value in the place of another one asks for no bucket more, so only more entries make more buckets.
        let is_long = is_new & (bucket.len() > MOST_IN_BUCKET);
        self.count += usize::from(is_new);
        if is_long {
            // If memory is refused, the bucket stays long.
            let _ = self.grow();
        }
        Ok(())
    }

    /// Makes room in the list of its buckets for so many values more. Fails with `AllocError` if memory is refused.
    pub fn reserve(&mut self, additional: usize) -> Result<(), AllocError>
        ensures { self.new ≡ self.old }
    {
        self.buckets.reserve(additional)
    }

    /// The value that an IMSI has, to be changed in its place. It takes no memory.
    pub fn value_mut(&mut self, imsi: &Imsi) -> &mut V
        requires { IsSome (map.get self.old imsi.now) }
        ensures* writes_back { sem 𝓛
            (Lends (the_row V.row S.row S.Hasher.row S.BuildHasher S.Hasher.Hasher) V.row self.entry result
            (map.insert self.entry.now imsi.now)) }
        ensures value { Some result.now ≡ map.get self.old imsi.now }
    {
        let bucket = self.buckets.get_mut(self.addressing.bucket(imsi.number()));
        bucket.value_mut(imsi)
    }

    /// The value that an IMSI has, if there is one, to be changed in its place. It takes no memory.
    pub fn get_mut(&mut self, imsi: &Imsi) -> Option<&mut V>
        ensures* writes_back { sem 𝓛
            (LendsIf (the_row V.row S.row S.Hasher.row S.BuildHasher S.Hasher.Hasher) V.row self.entry result
            (map.insert self.entry.now imsi.now) self.entry.now) }
        ensures value { option_copied_mut result ≡ map.get self.old imsi.now }
    {
        if self.get(imsi).is_none() {
            return None;
        }
        Some(self.value_mut(imsi))
    }

    /// Takes the value of an IMSI out, if there is one. It takes no memory.
    pub fn remove(&mut self, imsi: &Imsi)
        ensures { self.new ≡ map.remove self.old imsi.now }
    {
        if self.addressing.count == 0 {
            return;
        }
        let bucket = self.buckets.get_mut(self.addressing.bucket(imsi.number()));
        self.count -= usize::from(bucket.remove(imsi));
    }

    /// Takes all values out. It takes no memory.
    pub fn clear(&mut self)
        ensures { self.new ≡ map.empty }
    {
        self.buckets.clear();
        self.addressing = Addressing::new(self.addressing.hashes, 0, 0);
        self.count = 0;
    }

    /// Puts the first value, into one bucket.
    fn insert_first(&mut self, imsi: &Imsi, value: V) -> Result<(), AllocError>
        requires { self.old ≡ map.empty }
        ensures put { OnOk result (self.new ≡ map.insert self.old imsi.now value) }
        ensures unchanged { OnErr result (self.new ≡ self.old) }
    {
        let mut bucket = Bucket::new(self.alloc);
        bucket.insert(imsi, value)?;
        let mut buckets = Segments::new(self.alloc);
        buckets.push(bucket)?;
        self.buckets = buckets;
        self.addressing = Addressing::new(self.addressing.hashes, 0, 1);
        self.count = 1;
        Ok(())
    }

    /// Splits the next bucket of the round, if there may be one more. Fails with `AllocError` if memory is refused;
    /// then all buckets are as they were.
    fn grow(&mut self) -> Result<(), AllocError>
        ensures { self.new ≡ self.old }
    {
        let new = self.addressing.count;
        if new == 0 || new >= MOST_BUCKETS {
            return Ok(());
        }
        let addressing = self.addressing.with_bucket();
        let at = new - (1 << addressing.level);
        add_spare(&mut self.buckets, self.alloc, new)?;
        let bucket = self.buckets.get_mut(at);
        let others = bucket.split(self.alloc, &addressing, at)?;
        let spare = self.buckets.get_mut(new);
        *spare = others;
        self.addressing = addressing;
        Ok(())
    }
}

impl<V: Clone, S: BuildHasher + Copy> Clone for Table<V, S> {
    ghost use Rattle.std.specs.Prelude.{◌≡◌};

    ghost is_clone = { λ old new. ((x y : V) → V.is_clone x y → y ≡ x) → new ≡ old };

    fn clone(&self) -> Result<Table<V, S>, AllocError> {
        Ok(Table {
            alloc: self.alloc,
            addressing: self.addressing.copy(),
            buckets: self.buckets.clone()?,
            count: self.count,
        })
    }
}

/// Adds an empty bucket if there are no more than so many.
fn add_spare<V: Default + Drop>(
    buckets: &mut Segments<Bucket<V>>,
    alloc: Global,
    count: usize,
) -> Result<(), AllocError>
    requires within { count ≤ length buckets.old }
    requires few { (count < 2 ^ 32) × (length buckets.old ≤ 2 ^ 32) }
    ensures spare { OnOk result (count < length buckets.new) }
    ensures few { length buckets.new ≤ 2 ^ 32 }
    ensures buckets { (buckets.new ≡ buckets.old) ⊎ (buckets.new ≡ buckets.old ++ map.empty ∷ []) }
{
    if buckets.len() == count {
        buckets.push(Bucket::new(alloc))?;
    }
    Ok(())
}
