//! What the writer does at each place in turn.
ghost use Rattle.std.specs.Prelude.{◌≡◌, ◌≤◌, ◌↔◌, true, length, map, option_map, All, Err, IfOk, IsTrue, OnErr, OnOk};
ghost use Rattle.std.specs.Arc.{arc_value};
ghost use Rattle.two_copies.specs.Place.{number};
ghost use Rattle.two_copies.specs.WriterEnd.{IsPut, IsClosedAt, IsFreeAt, IsNextAt, ShowsAt, held_in, place_at};
ghost use Rattle.two_copies.specs.declared.copies.NoReader.TheVariants.{NoPlace};
ghost use Rattle.two_copies.specs.declared.copies.TheConstants.{MAX_READERS};

use crate::place::Board;
use crate::place::writer_end::WriterEnd;
use crate::{CopyRule, MAX_READERS, NoReader};
use std::alloc::{AllocError, Global};
use std::sync::Arc;

pub(crate) type Places<T, F> = Vec<WriterEnd<T, F>, Global>;

/// The first place whose reader was dropped, or else where one behind the others goes.
pub(crate) fn next_place<T: Drop, F: CopyRule<T>>(places: &Places<T, F>) -> usize
    ensures { result ≤ length places.now.items }
{
    let mut next: usize = 0;
    while next < places.len() && !places[next].is_left() {
        next += 1;
    }
    next
}

/// Puts an end at the first place from this one on whose reader was dropped, or else behind all. So no place moves.
/// Returns the board that was there, if one was.
pub(crate) fn put<T: Drop, F: CopyRule<T>>(
    places: &mut Places<T, F>,
    first: usize,
    mut end: WriterEnd<T, F>,
) -> Result<Option<Board<T, F>>, NoReader>
    requires { length places.old.items ≤ MAX_READERS }
    ensures put { IfOk result
        (λ left. IsPut (option_map (λ board. board.shared.table_id) left) end places.old.items places.new.items) }
    ensures same { OnErr result (places.new.items ≡ places.old.items) }
    ensures no_place { result ≡ Err NoPlace → length places.old.items ≡ MAX_READERS }
    ensures room { length places.new.items ≤ MAX_READERS }
{
    let mut next = first;
    while next < places.len() {
        match places[next].replace(end) {
            Ok(board) => return Ok(Some(board)),
            Err(back) => end = back,
        }
        next += 1;
    }
    if places.len() >= MAX_READERS {
        return Err(NoReader::NoPlace);
    }
    places.reserve(1)?;
    places.push_reserved(end);
    Ok(None)
}

/// Takes the slot for the next copy from each place, until a reader has one. Returns whether it has all.
pub(crate) fn reclaim_all<T: Drop, F: CopyRule<T>>(places: &mut Places<T, F>) -> bool
    ensures free { IsTrue result ↔ All IsFreeAt places.new.items }
    ensures keeps { All IsFreeAt places.old.items → result ≡ true }
    ensures len { length places.new.items ≡ length places.old.items }
    ensures shown { (shown : T) → All (ShowsAt shown) places.old.items → All (ShowsAt shown) places.new.items }
    ensures places { map place_at places.new.items ≡ map place_at places.old.items }
{
    let mut next: usize = 0;
    while next < places.len() {
        if !places[next].reclaim() {
            return false;
        }
        next += 1;
    }
    true
}

/// Takes the slot for the next copy from each place whose reader does not have it. Returns which places are held.
pub(crate) fn reclaim_each<T: Drop, F: CopyRule<T>>(places: &mut Places<T, F>) -> u64
    requires { length places.old.items ≤ MAX_READERS }
    ensures held { result ≡ held_in places.new.items }
    ensures keeps { All IsFreeAt places.old.items → All IsFreeAt places.new.items }
    ensures len { length places.new.items ≡ length places.old.items }
    ensures shown { (shown : T) → All (ShowsAt shown) places.old.items → All (ShowsAt shown) places.new.items }
    ensures places { map place_at places.new.items ≡ map place_at places.old.items }
{
    let mut held: u64 = 0;
    let mut next = places.len();
    while next > 0 {
        next -= 1;
        held = 2 * held + bit(!places[next].reclaim());
    }
    held
}

/// The lowest bit for a place that is held or not.
fn bit(is_held: bool) -> u64
    ensures { result ≡ number is_held }
{
    if is_held { 1 } else { 0 }
}

/// Makes a share of this copy for each place, to be shown there next.
pub(crate) fn prepare_all<T: Drop, F: CopyRule<T>>(
    places: &mut Places<T, F>,
    copy: &Arc<T, Global>,
) -> Result<(), AllocError>
    requires { All IsFreeAt places.old.items }
    ensures free { All IsFreeAt places.new.items }
    ensures next { OnOk result (All (IsNextAt (arc_value copy.now)) places.new.items) }
    ensures len { length places.new.items ≡ length places.old.items }
    ensures shown { (shown : T) → All (ShowsAt shown) places.old.items → All (ShowsAt shown) places.new.items }
    ensures places { map place_at places.new.items ≡ map place_at places.old.items }
{
    let mut next: usize = 0;
    while next < places.len() {
        let share = Arc::try_clone(copy)?;
        places[next].prepare(share);
        next += 1;
    }
    Ok(())
}

/// Shows the copy of this value at each place, where a share of it is ready.
pub(crate) fn show_all<T: Drop, F: CopyRule<T>>(
    places: &mut Places<T, F>,
    shown: &Arc<T, Global>,
    copy: &Arc<T, Global>,
)
    requires free { All IsFreeAt places.old.items }
    requires next { All (IsNextAt (arc_value copy.now)) places.old.items }
    requires shown { All (ShowsAt (arc_value shown.now)) places.old.items }
    requires holds { F.holds (arc_value copy.now) }
    requires follows { F.follows (arc_value shown.now) (arc_value copy.now) }
    ensures shown { All (ShowsAt (arc_value copy.now)) places.new.items }
    ensures places { map place_at places.new.items ≡ map place_at places.old.items }
    ensures len { length places.new.items ≡ length places.old.items }
{
    let mut next: usize = 0;
    while next < places.len() {
        places[next].show();
        next += 1;
    }
}

/// Closes each place, whether or not its reader looks.
pub(crate) fn close_all<T: Drop, F: CopyRule<T>>(places: &mut Places<T, F>)
    ensures closed { All IsClosedAt places.new.items }
    ensures len { length places.new.items ≡ length places.old.items }
{
    let mut next: usize = 0;
    while next < places.len() {
        places[next].close();
        next += 1;
    }
}
