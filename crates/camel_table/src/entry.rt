ghost use Rattle.std.specs.Prelude.{◌≡◌, ◌≤◌};
ghost use Rattle.std.specs.Borrow.{sem};
ghost use Rattle.camel_table.specs.ByImsi.{is_same};
ghost use Rattle.camel_table.specs.Buckets.{is_at};
ghost use Rattle.camel_table.specs.Lending.{lends_entry};

use crate::addressing::Addressing;
use camel_tbcd::Imsi;
use std::alloc::AllocError;
use std::hash::BuildHasher;
use std::marker::Model;

/// A key with its value.
#[derive(Debug, Drop)]
pub(crate) struct Entry<V> {
    pub(crate) key: Imsi,
    pub(crate) value: V,
}

impl<V> Model for Entry<V> {
    ghost use Rattle.std.specs.Prelude.{ℕ, List};

    ghost Value = { List ℕ × V };

    ghost view = { λ a. (a.key, a.value) };
}

impl<V> Entry<V> {
    pub(crate) fn is(&self, imsi: &Imsi) -> bool
        ensures { result ≡ is_same imsi.now self.now.0 }
    {
        *imsi == self.key
    }

    pub(crate) fn imsi(&self) -> Imsi
        ensures { result ≡ self.now.0 }
    {
        self.key
    }

    pub(crate) fn value(&self) -> &V
        ensures { result.now ≡ self.now.1 }
    {
        &self.value
    }

    /// Its value, to be changed in its place.
    pub(crate) fn lend(&mut self) -> &mut V
        ensures* writes_back { sem 𝓛 (lends_entry V.row self.entry result) }
        ensures value { result.now ≡ self.old.1 }
    {
        &mut self.value
    }

    pub(crate) fn is_at<S: BuildHasher>(&self, addressing: &Addressing<S>, at: usize) -> bool
        requires { addressing.now.level ≤ 32 }
        ensures { result ≡ is_at S.Hasher.finish S.Hasher.write S.build_hasher addressing.now at self.now.0 }
    {
        addressing.bucket(self.key.number()) == at
    }
}

impl<V: Clone> Clone for Entry<V> {
    ghost use Rattle.std.specs.Prelude.{◌≡◌};

    ghost is_clone = { λ old new. (new.0 ≡ old.0) × V.is_clone old.1 new.1 };

    fn clone(&self) -> Result<Entry<V>, AllocError> {
        Ok(Entry {
            key: self.key,
            value: self.value.clone()?,
        })
    }
}
