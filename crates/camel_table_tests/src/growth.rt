use camel_table::Table;
use camel_tbcd::Imsi;
use std::alloc::Global;
use std::cell::Cell;
use std::hash::{BuildHasher, FoldHasher, Hasher};

// Counts the hashes that are made: one for each question for an entry's bucket.
#[derive(Clone, Copy, Drop)]
struct Counted<'a> {
    hasher: FoldHasher,
    made: &'a Cell<u64>,
}

impl BuildHasher for Counted<'_> {
    type Hasher = FoldHasher;

    ghost build_hasher = { λ counted. counted.hasher };

    fn build_hasher(&self) -> FoldHasher {
        self.made.set(self.made.get().wrapping_add(1));
        self.hasher
    }
}

// The number of the IMSI 262010000000000.
const FIRST: u64 = 15 << 56 | 262_010_000_000_000;

fn imsi_of(number: u64) -> Option<Imsi> {
    Imsi::from_number(FIRST.wrapping_add(number))
}

type CountedTable<'a> = Table<u64, Counted<'a>>;

fn counted_table(alloc: Global, made: &Cell<u64>) -> CountedTable<'_> {
    let counted = Counted {
        hasher: FoldHasher::default(),
        made,
    };
    Table::new(alloc, counted)
}

/// Inserts a value, and returns how many hashes are made for it.
fn hashes_of_insert(table: &mut CountedTable, made: &Cell<u64>, imsi: &Imsi) -> Option<u64> {
    made.set(0);
    table.insert(imsi, 0).ok()?;
    Some(made.get())
}

const ORDERED: usize = 4_096;

// How many are tried, so that a hash with each end is found.
const TRIED: u64 = 100_000;

/// Subscribers whose hashes end in 0, 1, 2 and so on, in this order.
fn in_order_of_hashes(alloc: Global) -> Option<Vec<Option<Imsi>>> {
    let mut found = Vec::new(alloc);
    for _ in 0..ORDERED {
        found.push(None).ok()?;
    }
    for number in 0..TRIED {
        let imsi = imsi_of(number)?;
        let mut hasher = FoldHasher::default();
        hasher.write_u64(imsi.number());
        let end = hasher.finish() as usize % ORDERED;
        if let Some(place) = found.get_mut(end) {
            *place = Some(imsi);
        }
    }
    Some(found)
}

// In this order one bucket after the other gets its sixteenth entry, and is split. So there is never a longer bucket
// than of sixteen entries, nor a shorter one than of eight.
const LONGEST: u64 = 16;

// A value that is inserted is hashed once, and with it the entries of the bucket that is split. Two buckets would have
// twenty-three entries or more.
fn splits_of_one_bucket_each(alloc: Global) -> Option<usize> {
    let made = Cell::new(0);
    let mut table = counted_table(alloc, &made);
    let mut splits: usize = 0;
    for found in in_order_of_hashes(alloc)? {
        let hashes = hashes_of_insert(&mut table, &made, &found?)?;
        if hashes > 1 + LONGEST {
            return None;
        }
        splits = splits.wrapping_add(usize::from(hashes > 1));
    }
    Some(splits)
}

// The buckets become twice as many with each doubling of the entries: the 512 that 4,096 entries ask for are enough up
// to 7,680.
#[test]
fn an_insertion_moves_the_entries_of_one_bucket_at_most(rt: HostRuntime) {
    assert!(rt; splits_of_one_bucket_each(rt.alloc()) == Some(ORDERED / 8 - 1));
}

const REPLACED: u64 = 1_000;

const ROUNDS: u64 = 1_000;

// A value that is inserted in the place of another one is hashed once, also if its bucket is long: a table grows with
// its subscribers, and not with the updates.
fn hashes_of_replacements(alloc: Global) -> Option<u64> {
    let made = Cell::new(0);
    let mut table = counted_table(alloc, &made);
    insert_all(&mut table)?;
    made.set(0);
    for _ in 0..ROUNDS {
        insert_all(&mut table)?;
    }
    Some(made.get())
}

fn insert_all(table: &mut CountedTable) -> Option<()> {
    for number in 0..REPLACED {
        table.insert(&imsi_of(number)?, 0).ok()?;
    }
    Some(())
}

#[test]
fn a_million_replaced_values_split_no_bucket(rt: HostRuntime) {
    assert!(rt; hashes_of_replacements(rt.alloc()) == Some(ROUNDS * REPLACED));
}

const RANDOM: u64 = 200_000;

// No bucket of so many random ones has more entries when it is split: three times the sixteen that ask for a split.
const MOST_IN_A_BUCKET: u64 = 48;

// The most hashes of an insertion, and how many are made to find the last value.
fn hashes_of_random_ones(alloc: Global) -> Option<(u64, u64)> {
    let made = Cell::new(0);
    let mut table = counted_table(alloc, &made);
    let mut most = 0;
    for number in 0..RANDOM {
        most = most.max(hashes_of_insert(&mut table, &made, &imsi_of(number)?)?);
    }
    let last = imsi_of(RANDOM)?;
    table.insert(&last, 0).ok()?;
    made.set(0);
    table.get(&last).filter(|value| **value == 0)?;
    Some((most, made.get()))
}

#[test]
fn no_bucket_of_random_hashes_is_long(rt: HostRuntime) {
    let hashes = hashes_of_random_ones(rt.alloc());
    assert!(rt; hashes.is_some_and(|(most, to_find)| most <= 1 + MOST_IN_A_BUCKET && to_find == 1));
}
