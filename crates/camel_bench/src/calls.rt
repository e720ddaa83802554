//! Calls, what is looked into for them, and the sums by which decisions are compared.

use anyhow::{Context, Result, anyhow};
use camel_criteria::{BasicService, Handling};
use camel_rows::{CallEvent, Decision, Event, Records, Update, decide_in};
use camel_table::{Seed, Table};
use camel_tbcd::{Imsi, IsdnAddress, Profile};
use camel_vlr::{NoLook, Session};

/// The bits of a service key that no update of a script changes.
const STABLE: u32 = 0xF_FFFF;

/// A call at detection point 2. Its destination has at most nine octets, so that it takes little room in a list.
#[derive(Clone, Copy)]
pub(crate) struct Call {
    imsi: Imsi,
    destination: IsdnAddress,
    basic: BasicService,
}

impl Call {
    pub(crate) fn of(event: &CallEvent) -> Result<Call> {
        match event {
            CallEvent::CollectedInfo {
                imsi,
                destination,
                basic,
                forwarded: false,
            } => Ok(Call {
                imsi: *imsi,
                destination: IsdnAddress::from_bytes(destination.lend().bytes())?,
                basic: *basic,
            }),
            _ => Err(anyhow!("a call of another kind")),
        }
    }

    fn event(&self) -> Event<'_> {
        Event::CollectedInfo {
            imsi: self.imsi,
            destination: self.destination.lend(),
            basic: self.basic,
            forwarded: false,
        }
    }
}

/// What is looked into.
pub(crate) trait Subject {
    /// What is found for a call. No update changes it, so the sum of a run does not depend on how looks and
    /// publications mingle.
    fn find(&mut self, call: &Call) -> Result<u64, NoLook>;
}

/// What updates fill with no publication.
pub(crate) trait Filled: Subject + Drop {
    fn fill(&mut self, update: &Update) -> Result<()>;
}

impl Subject for Session {
    fn find(&mut self, call: &Call) -> Result<u64, NoLook> {
        decide(self, call, STABLE)
    }
}

impl Subject for Records {
    fn find(&mut self, call: &Call) -> Result<u64, NoLook> {
        Ok(said(&decide_in(self, &call.event(), Profile::One), STABLE))
    }
}

impl Filled for Records {
    fn fill(&mut self, update: &Update) -> Result<()> {
        Ok(self.apply(update)?)
    }
}

// Each value has 96 octets, as a subscriber's record.
impl Subject for Table<[u64; 12], Seed> {
    fn find(&mut self, call: &Call) -> Result<u64, NoLook> {
        let words = self.get(&call.imsi).unwrap_or(&[0; 12]);
        Ok(words[0].wrapping_add(words[5]).wrapping_add(words[11]))
    }
}

impl Filled for Table<[u64; 12], Seed> {
    fn fill(&mut self, update: &Update) -> Result<()> {
        let imsi = update.imsi().context("no subscriber")?;
        self.insert(&imsi, [imsi.number(); 12])?;
        Ok(())
    }
}

/// The sum of what is found for calls.
pub(crate) fn sum_of<S: Subject>(looked: &mut S, calls: &[Call]) -> Result<u64, NoLook> {
    let mut sum: u64 = 0;
    let mut place: u64 = 0;
    for call in calls {
        sum = sum.wrapping_add(weighed(looked.find(call)?, place));
        place = place.wrapping_add(1);
    }
    Ok(sum)
}

/// What something found adds at a place of a list to its sum.
pub(crate) fn weighed(found: u64, place: u64) -> u64 {
    found.wrapping_mul(place.wrapping_mul(2).wrapping_add(1))
}

/// What the decision of a call says, by one look of the session, with these bits of the service key.
pub(crate) fn decide(session: &mut Session, call: &Call, key_bits: u32) -> Result<u64, NoLook> {
    let look = session.look()?;
    let said = said(&look.decide(&call.event()), key_bits);
    look.leave();
    Ok(said)
}

// The version of a row is in the bits of its key above the lowest 20, and in the second octet of its gsmSCF address,
// which two reads make a number of: so no branch depends on how many octets there are.
fn said(decision: &Decision, key_bits: u32) -> u64 {
    match decision {
        Decision::NoTrigger(reason) => mixed(!(*reason as u64), 0),
        Decision::Trigger { row, .. } => {
            let scf = row.scf().bytes();
            let (Some(first), Some(last)) = (scf.first_chunk::<4>(), scf.last_chunk::<4>()) else {
                return 0;
            };
            let version = row.key() >> 20 & 0x7F;
            let first = u32::from_le_bytes(*first) ^ version << 8;
            let scf = u64::from(first) | u64::from(u32::from_le_bytes(*last)) << 32;
            let release = u64::from(row.handling() == Handling::Release);
            let key = u64::from(row.key() & key_bits);
            mixed(u64::from(row.dp()) | release << 8 | key << 32, scf)
        }
    }
}

fn mixed(first: u64, second: u64) -> u64 {
    let sum = first.wrapping_mul(0x9E37_79B9_7F4A_7C15)
        ^ second.wrapping_mul(0xC2B2_AE3D_27D4_EB4F);
    sum ^ (sum >> 29)
}
