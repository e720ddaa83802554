ghost use Rattle.std.specs.Prelude.{◌≡◌, Bool, [], ◌∷◌, Some, if◌then◌else◌};
ghost use Rattle.std.specs.FinMap as map;
ghost use Rattle.std.specs.Option.{option_copied};
ghost use Rattle.camel_tbcd.specs.declared.profile.Profile.{Profile};
ghost use Rattle.camel_criteria.specs.Met.{o_event_data, o_met, t_met};
ghost use Rattle.camel_rows.specs.Decision.{by_csi, by_entry, by_record, decision, decision_data, EventData};
ghost use Rattle.camel_rows.specs.Decision.{event_basic, event_data, event_dp, event_imsi};
ghost use Rattle.camel_rows.specs.Update.{RecordsData};
ghost use Rattle.camel_rows.specs.Subscriber.{stored_in, EntryData, O, T, entry_data, item_among};

use crate::subscriber::stored_csi::StoredCsi;
use crate::{Event, Lent, Records, Subscriber, TdpRow};
use camel_criteria::{
    BasicService, CriteriaEntry, OCriteria, OEvent, TCriteria, TEvent, o_met, t_met,
};
use camel_tbcd::Profile;

/// Why an event triggers nothing, in the order in which the reasons are looked at.
#[derive(Clone, Copy, Debug, PartialEq, Eq)]
pub enum Reason {
    /// There is no record of the IMSI.
    Unknown,
    /// The CSI that the detection point is tested against is not stored.
    NoCsi,
    /// The CSI has no row of the detection point.
    NotArmed,
    /// CAMEL does not apply to emergency calls.
    Emergency,
    /// The event does not meet the criteria of the detection point.
    Criteria,
}

/// Whether an event triggers a service, with what is stored borrowed.
#[derive(Clone, Copy, Debug)]
pub enum Decision<'r> {
    /// The service of this row is invoked at its gsmSCF. `criteria` is the entry of the detection point, which the
    /// event meets; None if there is none.
    Trigger {
        row: &'r TdpRow,
        criteria: Option<Lent<'r>>,
    },
    /// No service is invoked.
    NoTrigger(Reason),
}

/// Decides an event over the records by the trigger rules of TS 23.078, under a profile.
// It is put into its caller, so that an event whose detection point is known there is neither written to memory nor
// asked what it is, and of an answer only what is read is made. What few decisions need is in calls of its own.
#[inline(always)]
pub fn decide_in<'r>(records: &'r Records, event: &Event, profile: Profile) -> Decision<'r>
    ensures { decision_data result ≡ decision profile records.now (event_data event.now) }
{
    match records.get(&event.imsi()) {
        Some(subscriber) => subscriber.decide(event, profile),
        None => Decision::NoTrigger(Reason::Unknown),
    }
}

impl Subscriber {
    /// Decides an event by this record, under a profile: what [`decide_in`] gives over any records that hold this one
    /// under the IMSI of the event. It never gives [`Reason::Unknown`], and takes no memory.
    ///
    /// A call is decided at each detection point by the CSI of its set-up (TS 23.078), whatever updates come while it
    /// lasts: a switch keeps an equal record of the calling or called subscriber ([`Subscriber::copy`]) and asks that.
    #[inline(always)]
    pub fn decide<'r>(&'r self, event: &Event, profile: Profile) -> Decision<'r>
        ensures decision { decision_data result ≡ by_record profile (event_data event.now) (Some self.now) }
        ensures held { (m : RecordsData) → map.get m (event_imsi (event_data event.now)) ≡ Some self.now
            → decision_data result ≡ decision profile m (event_data event.now) }
    {
        match event.show_o() {
            Some(shown) => decide_by(self.stored_o(), event.dp(), event.basic(), &shown, profile),
            None => self.decide_by_vt(event.dp(), event.show_vt(), profile),
        }
    }

    /// Decides an event of this detection point by the VT-CSI, to whose criteria it shows `shown`.
    #[inline(never)]
    fn decide_by_vt<'r>(&'r self, dp: u8, shown: TEvent, profile: Profile) -> Decision<'r>
        ensures { (event : EventData) → event_dp event ≡ dp → event_basic event ≡ shown.basic
            → decision_data result ≡ by_csi (λ entry. entry.dp) (λ entry. t_met entry shown) T event self.now.vt }
    {
        match self.stored_vt() {
            Some(stored) => decide_by(stored, dp, shown.basic, &shown, profile),
            None => Decision::NoTrigger(Reason::NoCsi),
        }
    }
}

/// Decides an event of this detection point and this basic service by the CSI that it is tested against, to whose
/// criteria it shows `shown`.
#[inline(always)]
fn decide_by<'r, K: Copy + Drop, const MOST: usize, E: CriteriaEntry, S: ShownTo<E>>(
    stored: &'r StoredCsi<K, MOST, E>,
    dp: u8,
    basic: BasicService,
    shown: &S,
    profile: Profile,
) -> Decision<'r>
    ensures { (event : EventData) → event_dp event ≡ dp → event_basic event ≡ basic → decision_data result
        ≡ by_csi E.dp_of (S.is_met profile shown.now) S.entry_as event (stored_in stored.now) }
{
    let Some(csi) = stored.csi() else {
        return Decision::NoTrigger(Reason::NoCsi);
    };
    let Some(row) = csi.row(dp) else {
        return Decision::NoTrigger(Reason::NotArmed);
    };
    if basic.is_emergency() {
        return Decision::NoTrigger(Reason::Emergency);
    }
    match stored {
        StoredCsi::InPlace {
            has_entry,
            entry: [entry],
            ..
        } => decide_in_place(row, *has_entry, entry, dp, shown, profile),
        _ => decide_by_entry(row, stored.entry(dp), shown, profile),
    }
}

/// Decides an event whose row is armed by the entry that lies in place, if there is one and it is of this detection
/// point. What lies there is compared in each case, since it cannot be foreseen whether it is an entry: one branch is
/// left, for the answer.
#[inline(always)]
fn decide_in_place<'r, E: CriteriaEntry, S: ShownTo<E>>(
    row: &'r TdpRow,
    has_entry: bool,
    entry: &'r E,
    dp: u8,
    shown: &S,
    profile: Profile,
) -> Decision<'r>
    ensures { decision_data result ≡ by_entry E.dp_of (S.is_met profile shown.now) S.entry_as row.now
        (item_among E.dp_of dp (if has_entry then entry.now ∷ [] else [])) }
{
    let is_of_point = has_entry & (entry.detection_point() == dp);
    if shown.meets(entry, profile) {
        let criteria = if is_of_point {
            Some(S::lend(entry))
        } else {
            None
        };
        return Decision::Trigger { row, criteria };
    }
    if is_of_point {
        return Decision::NoTrigger(Reason::Criteria);
    }
    Decision::Trigger {
        row,
        criteria: None,
    }
}

/// Decides an event whose row is armed by the entry of its detection point, if there is one.
#[inline(always)]
fn decide_by_entry<'r, E: CriteriaEntry, S: ShownTo<E>>(
    row: &'r TdpRow,
    entry: Option<&'r E>,
    shown: &S,
    profile: Profile,
) -> Decision<'r>
    ensures { decision_data result
        ≡ by_entry E.dp_of (S.is_met profile shown.now) S.entry_as row.now (option_copied entry.entry) }
{
    match entry {
        None => Decision::Trigger {
            row,
            criteria: None,
        },
        Some(entry) if meets_apart(entry, shown.remake(), profile) => Decision::Trigger {
            row,
            criteria: Some(S::lend(entry)),
        },
        Some(_) => Decision::NoTrigger(Reason::Criteria),
    }
}

/// Whether what is shown meets an entry. Few CSIs have several entries: this is a call of its own, and takes what is
/// shown by value, so that most decisions write none to memory.
#[inline(never)]
fn meets_apart<E, S: ShownTo<E>>(entry: &E, shown: S, profile: Profile) -> bool
    ensures { result ≡ S.is_met profile shown entry.now }
{
    shown.meets(entry, profile)
}

/// What an event shows to the entries of one CSI.
trait ShownTo<E>: Copy {
    ghost is_met: { Profile → Self → E → Bool };

    ghost entry_as: { E → EntryData };

    /// Whether it meets an entry, under a profile.
    fn meets(&self, entry: &E, profile: Profile) -> bool
        ensures { result ≡ is_met profile self.now entry.now };

    fn lend<'r>(entry: &'r E) -> Lent<'r>
        ensures { entry_data result ≡ entry_as entry.now };

    /// This one, made of its parts: a copy would have each event written to memory (see [`Address::remake`]).
    ///
    /// [`Address::remake`]: camel_tbcd::Address::remake
    fn remake(&self) -> Self
        ensures { (profile : Profile) (entry : E) → is_met profile result entry ≡ is_met profile self.now entry };
}

impl ShownTo<OCriteria> for OEvent<'_> {
    ghost is_met = { λ profile shown entry. o_met profile entry (o_event_data shown) };

    ghost entry_as = { O };

    #[inline(always)]
    fn meets(&self, entry: &OCriteria, profile: Profile) -> bool {
        o_met(entry, self, profile)
    }

    fn lend<'r>(entry: &'r OCriteria) -> Lent<'r>
        ensures { entry_data result ≡ O entry.now }
    {
        Lent::O(entry)
    }

    #[inline(always)]
    fn remake(&self) -> Self {
        OEvent {
            destination: self.destination.remake(),
            basic: self.basic,
            forwarded: self.forwarded,
            cause: self.cause,
        }
    }
}

impl ShownTo<TCriteria> for TEvent {
    ghost is_met = { λ profile shown entry. t_met entry shown };

    ghost entry_as = { T };

    fn meets(&self, entry: &TCriteria, _profile: Profile) -> bool {
        t_met(entry, self)
    }

    fn lend<'r>(entry: &'r TCriteria) -> Lent<'r> {
        Lent::T(entry)
    }

    #[inline(always)]
    fn remake(&self) -> Self {
        TEvent {
            basic: self.basic,
            cause: self.cause,
        }
    }
}
