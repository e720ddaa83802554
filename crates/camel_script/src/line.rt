//! The lines of output. Their texts are put together piece by piece: `format!` takes twice the time for a line.
//! Each piece goes right behind the last one, so that a line takes no memory of its own.

ghost use Rattle.std.specs.Prelude.{◌≡◌, ◌++◌, IfErr, OnErr, OnOk, codes, length, take};
ghost use Rattle.std.specs.Fmt.{decimal};
ghost use Rattle.hex.specs.Hex.{encode_lower};
ghost use Rattle.camel_rows.specs.Decision.{action_of};
ghost use Rattle.camel_script.specs.Line.{action_text, decided_text, line_text, reason_text, served_text};

use crate::append::append_character;
use crate::{append_decimal, append_text};
use camel_criteria::{Handling, Refusal};
use camel_rows::{Answer, CallAction, Outcome, Reason, on_failure};
use camel_tbcd::{IsdnAddress, MAX_ISDN_ADDRESS_LENGTH};
use std::alloc::AllocError;

/// A line of output, in the texts of docs/SCRIPT.md.
#[derive(Clone, Copy, Debug)]
pub enum Line {
    /// An update was accepted, as the update of this number, from 1.
    Accepted(u64),
    /// A record was refused, with the refusal's number.
    Refused(u16),
    /// The updates up to this number are published.
    Published(u64),
    /// A call was decided.
    Decided(Answer),
    /// The call of this number (from 0, over the script) was decided by the session of this number (from 0).
    Served {
        session: u64,
        call: u64,
        answer: Answer,
    },
    /// The audit of all sessions found that the published updates explain each answer.
    AuditOk,
}

/// Appends the text of a line, with its line feed.
///
/// Fails only with `OutOfMemory` (102); the bytes are then as before.
pub fn push_line(out: &mut Vec<u8>, line: &Line) -> Result<(), Refusal>
    ensures appended { OnOk result (out.new.items ≡ out.old.items ++ line_text line.now) }
    ensures unchanged { OnErr result (out.new.items ≡ out.old.items) }
    ensures only { IfErr result (λ why. why ≡ Refusal.OutOfMemory) }
{
    let before = out.len();
    match append_line(out, line) {
        Ok(()) => Ok(()),
        Err(_) => {
            out.truncate(before);
            Err(Refusal::OutOfMemory)
        }
    }
}

/// Appends the text of a line. Out of memory, a part of it may be appended.
fn append_line(out: &mut Vec<u8>, line: &Line) -> Result<(), AllocError>
    ensures appended { OnOk result (out.new.items ≡ out.old.items ++ line_text line.now) }
    ensures kept { take (length out.old.items) out.new.items ≡ out.old.items }
{
    match line {
        Line::Accepted(number) => append_numbered(out, "accepted ", *number),
        Line::Refused(code) => append_numbered(out, "refused ", u64::from(*code)),
        Line::Published(front) => append_numbered(out, "published ", *front),
        Line::Decided(answer) => append_decided(out, answer),
        Line::Served {
            session,
            call,
            answer,
        } => append_served(out, *session, *call, answer),
        Line::AuditOk => append_text(out, "audit ok\n"),
    }
}

/// Appends the text of a line of a word and a number.
fn append_numbered(out: &mut Vec<u8>, word: &str, number: u64) -> Result<(), AllocError>
    ensures appended { OnOk result (out.new.items ≡ out.old.items ++ word.now ++ decimal number ++ codes "\n") }
    ensures kept { take (length out.old.items) out.new.items ≡ out.old.items }
{
    append_text(out, word)?;
    append_decimal(out, number)?;
    append_character(out, b'\n')
}

/// Appends the text of a call that a session decided.
fn append_served(
    out: &mut Vec<u8>,
    session: u64,
    call: u64,
    answer: &Answer,
) -> Result<(), AllocError>
    ensures appended { OnOk result (out.new.items ≡ out.old.items ++ served_text session call answer.now) }
    ensures kept { take (length out.old.items) out.new.items ≡ out.old.items }
{
    append_text(out, "session ")?;
    append_decimal(out, session)?;
    append_text(out, " call ")?;
    append_decimal(out, call)?;
    append_character(out, b' ')?;
    append_decided(out, answer)
}

/// Appends the text of a decided call.
fn append_decided(out: &mut Vec<u8>, answer: &Answer) -> Result<(), AllocError>
    ensures appended { OnOk result (out.new.items ≡ out.old.items ++ decided_text answer.now.front answer.now.outcome) }
    ensures kept { take (length out.old.items) out.new.items ≡ out.old.items }
{
    append_text(out, "front ")?;
    append_decimal(out, answer.front)?;
    match &answer.outcome {
        Outcome::Trigger {
            dp,
            key,
            scf,
            handling,
        } => append_trigger(out, *dp, *key, scf, *handling),
        Outcome::NoTrigger(reason) => append_text(out, reason_end(*reason)),
    }
}

/// Appends what follows the front of a call that triggers a service.
fn append_trigger(
    out: &mut Vec<u8>,
    dp: u8,
    key: u32,
    scf: &IsdnAddress,
    handling: Handling,
) -> Result<(), AllocError>
    ensures appended { OnOk result (out.new.items ≡ out.old.items
        ++ codes " trigger " ++ decimal dp ++ codes " " ++ decimal key ++ codes " " ++ encode_lower scf.now
        ++ codes " " ++ action_text (action_of handling) ++ codes "\n") }
    ensures kept { take (length out.old.items) out.new.items ≡ out.old.items }
{
    append_text(out, " trigger ")?;
    append_decimal(out, u64::from(dp))?;
    append_character(out, b' ')?;
    append_decimal(out, u64::from(key))?;
    append_character(out, b' ')?;
    append_address(out, scf)?;
    append_text(out, action_end(handling))
}

/// Appends the octets of an address in lower-case hexadecimal.
pub(crate) fn append_address(out: &mut Vec<u8>, address: &IsdnAddress) -> Result<(), AllocError>
    ensures appended { OnOk result (out.new.items ≡ out.old.items ++ encode_lower address.now) }
    ensures kept { take (length out.old.items) out.new.items ≡ out.old.items }
{
    let octets = address.lend().bytes();
    let mut digits = [0; 2 * MAX_ISDN_ADDRESS_LENGTH];
    let text = &mut digits[..2 * octets.len()];
    match hex::encode_to_slice(octets, text) {
        Ok(()) => out.extend_from_slice(text),
        Err(_) => unreachable!(),
    }
}

/// The end of a line: what is done with the call if the dialogue with the gsmSCF fails.
fn action_end(handling: Handling) -> &'static str
    ensures { result.now ≡ codes " " ++ action_text (action_of handling) ++ codes "\n" }
{
    match on_failure(handling) {
        CallAction::Continue => " continue\n",
        CallAction::Release => " release\n",
    }
}

/// The end of a line: why a call triggers no service.
fn reason_end(reason: Reason) -> &'static str
    ensures { result.now ≡ codes " none " ++ reason_text reason ++ codes "\n" }
{
    match reason {
        Reason::Unknown => " none unknown\n",
        Reason::NoCsi => " none no-csi\n",
        Reason::NotArmed => " none not-armed\n",
        Reason::Emergency => " none emergency\n",
        Reason::Criteria => " none criteria\n",
    }
}
