//! What a session shows of a subscriber at a detection point: its row, and its criteria.

ghost use Rattle.std.specs.Prelude.{◌≡◌, ◌≢◌, Ok, Option, IsErr, List, ℕ, true};
ghost use Rattle.camel_vlr.specs.Store.{SessionData};
ghost use Rattle.camel_c_data.specs.Fields.{imsi_in};
ghost use Rattle.camel_c_data.specs.Update.{ShowsRow};
ghost use Rattle.camel_c.specs.Session.{ShowsEntry, entry_shown, row_shown, Looks, Shows, ShowsWritten, Writes};

use crate::session::ThreadSession;
use crate::{CamelHandle, Failure};
use camel_c_data::{CamelCriteria, CamelImsi, CamelRow};
use camel_criteria::Refusal;
use camel_rows::Lent;
use camel_tbcd::Imsi;
use camel_vlr::WaitFreeSession;

/// Tells whether a subscriber has a row at a detection point, over the look that has begun, or else by a look of its
/// own, and writes the row if there is one. It takes no memory and does not wait.
///
/// It fails with 502 if the IMSI is none, with 503 if the handle holds no session, and with 104 if the store has ended.
/// Then nothing is changed, and nothing is written.
#[unsafe(no_mangle)]
pub extern "C" fn camel_row_at(
    session: &mut CamelHandle,
    imsi: &CamelImsi,
    dp: u8,
    row: &mut CamelRow,
    is_there: &mut u8,
) -> u32
    ensures looks { Looks (IsErr (imsi_in imsi.now))
        (λ own shown left. Shows own shown left × (asked : List ℕ) × (imsi_in imsi.now ≡ Ok asked)
        × ShowsWritten ShowsRow (row_shown shown asked dp) row.old row.new is_there.new)
        result session.old.value session.new.value }
    ensures unwritten { result ≢ 0 → (row.new ≡ row.old) × (is_there.new ≡ is_there.old) }
{
    show_at(session, imsi, dp, row, is_there)
}

/// Tells whether a subscriber has criteria at a detection point, over the look that has begun, or else by a look of its
/// own, and writes them if there are any. It takes no memory and does not wait.
///
/// Criteria are there even if the CSI has no row of the detection point; they have no effect then.
///
/// It fails with 502 if the IMSI is none, with 503 if the handle holds no session, and with 104 if the store has ended.
/// Then nothing is changed, and nothing is written.
#[unsafe(no_mangle)]
pub extern "C" fn camel_criteria_at(
    session: &mut CamelHandle,
    imsi: &CamelImsi,
    dp: u8,
    criteria: &mut CamelCriteria,
    is_there: &mut u8,
) -> u32
    ensures looks { Looks (IsErr (imsi_in imsi.now))
        (λ own shown left. Shows own shown left × (asked : List ℕ) × (imsi_in imsi.now ≡ Ok asked)
        × ShowsWritten ShowsEntry (entry_shown shown asked dp) criteria.old criteria.new is_there.new)
        result session.old.value session.new.value }
    ensures unwritten { result ≢ 0 → (criteria.new ≡ criteria.old) × (is_there.new ≡ is_there.old) }
{
    show_at(session, imsi, dp, criteria, is_there)
}

/// Looks for what a subscriber has at a detection point, and writes its fields if there is anything.
fn show_at<C: ShownAt>(
    session: &mut CamelHandle,
    imsi: &CamelImsi,
    dp: u8,
    place: &mut C,
    is_there: &mut u8,
) -> u32
    ensures looks { Looks (IsErr (imsi_in imsi.now))
        (λ own shown left. Shows own shown left × (asked : List ℕ) × (found : Option C) × (imsi_in imsi.now ≡ Ok asked)
        × C.is_found shown asked dp found × Writes found place.old place.new is_there.new)
        result session.old.value session.new.value }
    ensures unwritten { result ≢ 0 → (place.new ≡ place.old) × (is_there.new ≡ is_there.old) }
{
    let Ok(asked) = imsi.read() else {
        return Failure::Malformed.code();
    };
    let Some(own) = session.lend::<ThreadSession>() else {
        return Failure::WrongHandle.code();
    };
    let Some(had_begun) = own.begin() else {
        return Failure::Refused(Refusal::NoGuard).code();
    };
    write(C::find(&own.session, &asked, dp), place, is_there);
    own.end(had_begun);
    0
}

/// Writes what is found, and tells whether anything is.
pub(crate) fn write<C: Copy>(found: Option<C>, place: &mut C, is_there: &mut u8)
    ensures { Writes found place.old place.new is_there.new }
{
    match found {
        Some(fields) => {
            *place = fields;
            *is_there = 1;
        }
        None => *is_there = 0,
    }
}

/// Fields of C for what a subscriber has at a detection point.
pub(crate) trait ShownAt: Copy {
    ghost use Rattle.std.specs.Prelude.{ℕ, List, Option};
    ghost use Rattle.camel_vlr.specs.Store.{SessionData};

    /// What is found at the detection point, over the front of a look.
    ghost is_found: { SessionData → List ℕ → ℕ → Option Self → Type 0 };

    /// The fields of what the subscriber has at a detection point, if there is anything.
    fn find(session: &WaitFreeSession, imsi: &Imsi, dp: u8) -> Option<Self>
        requires { session.now.looks ≡ true }
        ensures { is_found session.now imsi.now dp result };
}

impl ShownAt for CamelRow {
    ghost use Rattle.camel_c_data.specs.Update.{ShowsRow};
    ghost use Rattle.camel_c.specs.Session.{row_shown, Finds};

    ghost is_found = { λ shown imsi dp found. Finds ShowsRow (row_shown shown imsi dp) found };

    fn find(session: &WaitFreeSession, imsi: &Imsi, dp: u8) -> Option<CamelRow> {
        Some(CamelRow::of(session.row(imsi, dp)?))
    }
}

impl ShownAt for CamelCriteria {
    ghost use Rattle.camel_c.specs.Session.{ShowsEntry, entry_shown, Finds};

    ghost is_found = { λ shown imsi dp found. Finds ShowsEntry (entry_shown shown imsi dp) found };

    fn find(session: &WaitFreeSession, imsi: &Imsi, dp: u8) -> Option<CamelCriteria> {
        match session.criteria(imsi, dp)? {
            Lent::O(entry) => Some(CamelCriteria::of_o(entry)),
            Lent::T(entry) => Some(CamelCriteria::of_t(entry)),
        }
    }
}
