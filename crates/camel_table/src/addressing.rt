ghost use Rattle.std.specs.Prelude.{◌≡◌, ◌⊎◌, ◌+◌, ◌-◌, ◌≤◌, ◌<◌, ◌^◌};

use std::hash::BuildHasher;

/// Which bucket of a table a number is in.
#[derive(Debug, Drop)]
pub(crate) struct Addressing<S> {
    /// Makes the hashers of the numbers.
    pub(crate) hashes: S,
    /// The present round of divisions began with `2 ^ level` buckets.
    pub(crate) level: u32,
    /// How many buckets there are.
    pub(crate) count: usize,
    /// The bits of a hash that choose a bucket of the next round. Those of this round are the same but for the highest.
    pub(crate) mask: u64,
    ghost masks: { mask ≡ 2 ^ (1 + level) - 1 },
}

impl<S> Addressing<S> {
    /// The addressing of so many buckets, in the round that began with `2 ^ level` of them.
    pub(crate) fn new(hashes: S, level: u32, count: usize) -> Addressing<S>
        requires { level ≤ 32 }
        ensures hashes { result.hashes ≡ hashes }
        ensures level { result.level ≡ level }
        ensures count { result.count ≡ count }
    {
        Addressing {
            hashes,
            level,
            count,
            mask: (2 << level) - 1,
        }
    }
}

impl<S: BuildHasher> Addressing<S> {
    ghost use Rattle.camel_table.specs.Buckets.{hash_of, bucket_in};

    /// The number of its bucket, from 0.
    pub(crate) fn bucket(&self, number: u64) -> usize
        requires { self.now.level ≤ 32 }
        ensures { result ≡ bucket_in self.now.level self.now.count
            (hash_of S.Hasher.finish S.Hasher.write (S.build_hasher self.now.hashes) number) }
    {
        let hash = self.hashes.hash_one(number);
        let bucket = (hash & self.mask) as usize;
        // Both are made of one word before one is chosen, so that no code branches by what cannot be foreseen.
        let halved = (hash & (self.mask >> 1)) as usize;
        if bucket < self.count { bucket } else { halved }
    }
}

impl<S: Copy> Addressing<S> {
    /// The same addressing.
    pub(crate) fn copy(&self) -> Addressing<S>
        ensures { result ≡ self.now }
    {
        Addressing {
            hashes: self.hashes,
            level: self.level,
            count: self.count,
            mask: self.mask,
        }
    }

    /// The addressing with a bucket more, in this round or at the beginning of the next one.
    pub(crate) fn with_bucket(&self) -> Addressing<S>
        requires low { self.now.level ≤ 32 }
        requires began { 2 ^ self.now.level ≤ self.now.count }
        requires within { self.now.count ≤ 2 ^ (1 + self.now.level) }
        requires few { self.now.count < 2 ^ 32 }
        ensures count { result.count ≡ self.now.count + 1 }
        ensures hashes { result.hashes ≡ self.now.hashes }
        ensures low { result.level ≤ 32 }
        ensures level { (result.level ≡ self.now.level)
            ⊎ ((result.level ≡ 1 + self.now.level) × (self.now.count ≡ 2 ^ (1 + self.now.level))) }
        ensures began { 2 ^ result.level ≤ self.now.count }
        ensures within { result.count ≤ 2 ^ (1 + result.level) }
    {
        let is_over = self.count == 2 << self.level;
        let level = if is_over { self.level + 1 } else { self.level };
        Addressing::new(self.hashes, level, self.count + 1)
    }
}
