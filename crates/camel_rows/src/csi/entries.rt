ghost use Rattle.std.specs.Prelude.{◌≡◌, IfOk};
ghost use Rattle.std.specs.Option.{option_copied};
ghost use Rattle.camel_rows.specs.Entries.{entries_of};
ghost use Rattle.camel_rows.specs.Subscriber.{item_among};

use camel_criteria::CriteriaEntry;
use std::alloc::AllocError;

// The entries of a set. A single one, as most sets have, is kept in place; several are kept apart.
#[derive(Debug, Drop)]
pub(crate) enum Entries<E> {
    Empty,
    One([E; 1]),
    Apart(Vec<E>),
}

impl<E: CriteriaEntry> Entries<E> {
    pub(crate) fn of(entries: Vec<E>) -> Entries<E>
        ensures { entries_of result ≡ entries.items }
    {
        if entries.is_empty() {
            return Entries::Empty;
        }
        match entries.try_into() {
            Ok(one) => Entries::One(one),
            Err(entries) => Entries::Apart(entries),
        }
    }

    pub(crate) fn as_slice(&self) -> &[E]
        ensures { result.now ≡ entries_of self.now }
    {
        match self {
            Entries::Empty => &[],
            Entries::One(entries) => entries,
            Entries::Apart(entries) => entries,
        }
    }

    pub(crate) fn copy(&self) -> Result<Entries<E>, AllocError>
        ensures { IfOk result (λ copied. entries_of copied ≡ entries_of self.now) }
    {
        Ok(match self {
            Entries::Empty => Entries::Empty,
            Entries::One(entries) => Entries::One(entries.clone()?),
            Entries::Apart(entries) => Entries::Apart(entries.clone()?),
        })
    }
}

/// The entry of a detection point, if there is one.
pub(crate) fn find_entry<E: CriteriaEntry>(entries: &[E], dp: u8) -> Option<&E>
    ensures { option_copied result ≡ item_among E.dp_of dp entries.now }
{
    entries.iter().find(|entry| entry.detection_point() == dp)
}
