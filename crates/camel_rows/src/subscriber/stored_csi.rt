ghost use Rattle.std.specs.Prelude.{◌≡◌, [], None, Some, is_some};
ghost use Rattle.std.specs.Option.{option_and_then, option_copied, option_map};
ghost use Rattle.camel_rows.specs.Subscriber.{stored_in, entry_of, rows_of};
ghost use Rattle.camel_rows.specs.Update.{csi_after};

use crate::csi::entries::{Entries, find_entry};
use crate::{CriteriaSet, Csi};
use camel_criteria::CriteriaEntry;
use std::alloc::AllocError;

/// What is stored of a CSI: nothing, or its rows with the entries of its criteria. One entry, as most CSIs have, lies
/// in place, so that it is read with the rows, and a filler lies there for none; several lie apart.
#[derive(Drop)]
pub(crate) enum StoredCsi<K, const MOST: usize, E> {
    NotStored,
    InPlace {
        has_entry: bool,
        csi: Csi<K, MOST>,
        entry: [E; 1],
    },
    Apart {
        csi: Csi<K, MOST>,
        entries: Vec<E>,
    },
}

impl<K: Copy + Drop, const MOST: usize, E: CriteriaEntry> StoredCsi<K, MOST, E> {
    /// Stores what an Insert brings of the CSI and its criteria, if it brings any. It takes no memory.
    // It is put into its callers, so that the criteria are moved from where they lie.
    #[inline(always)]
    pub(crate) fn insert(&mut self, csi: &Option<Csi<K, MOST>>, criteria: Option<CriteriaSet<E>>)
        ensures { stored_in self.new ≡ csi_after (stored_in self.old) csi.now criteria }
    {
        match (csi, criteria) {
            (Some(csi), Some(criteria)) => *self = StoredCsi::of(*csi, criteria),
            (Some(csi), None) => *self = StoredCsi::without_entries(*csi),
            (None, Some(criteria)) => self.replace_entries(criteria),
            (None, None) => {}
        }
    }

    /// Stores criteria in the place of those of the CSI, if it is stored.
    fn replace_entries(&mut self, criteria: CriteriaSet<E>)
        ensures { stored_in self.new ≡ csi_after (stored_in self.old) None (Some criteria) }
    {
        if let Some(csi) = self.csi() {
            *self = StoredCsi::of(*csi, criteria);
        }
    }

    fn of(csi: Csi<K, MOST>, criteria: CriteriaSet<E>) -> StoredCsi<K, MOST, E>
        ensures { stored_in result ≡ Some (record { rows = csi; entries = criteria }) }
    {
        match criteria.into_entries() {
            Entries::Empty => StoredCsi::without_entries(csi),
            Entries::One(entry) => StoredCsi::InPlace {
                has_entry: true,
                csi,
                entry,
            },
            Entries::Apart(entries) => StoredCsi::Apart { csi, entries },
        }
    }

    fn without_entries(csi: Csi<K, MOST>) -> StoredCsi<K, MOST, E>
        ensures { stored_in result ≡ Some (record { rows = csi; entries = [] }) }
    {
        StoredCsi::InPlace {
            has_entry: false,
            csi,
            entry: [E::filler()],
        }
    }

    /// Whether a CSI is stored.
    pub(crate) fn is_stored(&self) -> bool
        ensures { result ≡ is_some (stored_in self.now) }
    {
        !matches!(self, StoredCsi::NotStored)
    }

    /// The rows of the CSI, if it is stored.
    pub(crate) fn csi(&self) -> Option<&Csi<K, MOST>>
        ensures { option_copied result ≡ option_map rows_of (stored_in self.now) }
    {
        match self {
            StoredCsi::NotStored => None,
            StoredCsi::InPlace { csi, .. } | StoredCsi::Apart { csi, .. } => Some(csi),
        }
    }

    /// The entries of the CSI, if it is stored.
    pub(crate) fn entries(&self) -> Option<&[E]>
        ensures { option_copied result ≡ option_map (λ csi. csi.entries) (stored_in self.now) }
    {
        match self {
            StoredCsi::NotStored => None,
            StoredCsi::InPlace {
                has_entry,
                entry,
                ..
            } => Some(if *has_entry { entry } else { &[] }),
            StoredCsi::Apart { entries, .. } => Some(entries),
        }
    }

    /// The entry of a detection point, if the CSI is stored and has one.
    pub(crate) fn entry(&self, dp: u8) -> Option<&E>
        ensures { option_copied result ≡ option_and_then (entry_of E.dp_of dp) (stored_in self.now) }
    {
        match self {
            StoredCsi::NotStored => None,
            StoredCsi::InPlace {
                has_entry,
                entry,
                ..
            } => {
                if *has_entry && entry[0].detection_point() == dp {
                    Some(&entry[0])
                } else {
                    None
                }
            }
            StoredCsi::Apart { entries, .. } => find_entry(entries, dp),
        }
    }

    /// The criteria of the CSI, if it is stored.
    pub(crate) fn into_criteria(self) -> Option<CriteriaSet<E>>
        ensures { result ≡ option_map (λ csi. csi.entries) (stored_in self) }
    {
        let entries = match self {
            StoredCsi::NotStored => return None,
            StoredCsi::InPlace {
                has_entry,
                entry,
                ..
            } => {
                if has_entry {
                    Entries::One(entry)
                } else {
                    Entries::Empty
                }
            }
            StoredCsi::Apart { entries, .. } => Entries::Apart(entries),
        };
        Some(CriteriaSet::of(entries))
    }
}

impl<K: Copy + Drop, const MOST: usize, E: CriteriaEntry> Clone for StoredCsi<K, MOST, E> {
    ghost use Rattle.std.specs.Prelude.{◌≡◌};
    ghost use Rattle.camel_rows.specs.Subscriber.{stored_in};

    ghost is_clone = { λ old new. stored_in new ≡ stored_in old };

    fn clone(&self) -> Result<StoredCsi<K, MOST, E>, AllocError> {
        Ok(match self {
            StoredCsi::NotStored => StoredCsi::NotStored,
            StoredCsi::InPlace {
                has_entry,
                csi,
                entry,
            } => StoredCsi::InPlace {
                has_entry: *has_entry,
                csi: *csi,
                entry: entry.clone()?,
            },
            StoredCsi::Apart { csi, entries } => StoredCsi::Apart {
                csi: *csi,
                entries: entries.clone()?,
            },
        })
    }
}
