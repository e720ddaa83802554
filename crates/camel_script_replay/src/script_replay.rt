ghost use Rattle.std.specs.Prelude.{◌≡◌, ◌≢◌, ◌≤◌, ◌⊎◌, true, Some, IfErr, IfSome, OnOk};
ghost use Rattle.std.specs.Io.KnownBytes.{Appends, Keeps};
ghost use Rattle.camel_script.specs.Line.{line_text};
ghost use Rattle.camel_script.specs.Script.{Failed, records_left, script, still_gives};
ghost use Rattle.camel_script_replay.specs.Output.{max_records, is_replay_code, line_of, AppendsProperPart, Stops};
ghost use Rattle.camel_script_replay.specs.Output.{WritesAll};
ghost use Rattle.camel_script_replay.specs.Store.{empty_store, store_after};

use crate::store::Store;
use crate::write::write_all;
use camel_script::{Record, Script, push_line};
use camel_tbcd::Profile;
use std::alloc::Global;
use std::io::{Read, Write};

/// The greatest number of records of a script that are read.
pub const MAX_RECORDS: u64 = 1_000_000;

/// The greatest limit of updates, and the limit if none is given.
pub const MAX_LIMIT: u64 = 1_000_000;

/// The number of the fault of a write or a flush that failed, or of a write that took no octet.
pub const WRITE_FAULT: u16 = 208;

/// Why a replay ended.
#[derive(Clone, Copy, Debug, PartialEq, Eq)]
pub struct ReplayFault {
    /// The record that was being read or answered, from 1; for the flush at the end, the number of records that were
    /// read. None if memory was refused before the script was read, and with threads for each fault that comes after
    /// all records were read.
    pub number: Option<u64>,
    /// The fault's number: `OutOfMemory` (102), one of the script or of reading it, `Word` (202) to `TooManyRecords`
    /// (207), or [`WRITE_FAULT`] (208). With threads also `NoPlace` (103), `NoGuard` (104), `Stopped` (105), `NoWorker`
    /// (106), or one of the audit, `FrontTooLong` (301) to `BadHistory` (304).
    pub code: u16,
}

impl ReplayFault {
    /// The fault with this number that a replay meets at a record, counted from 1.
    pub fn in_record(number: u64, code: u16) -> ReplayFault
        ensures { result ≡ record { number = Some number; code = code } }
    {
        ReplayFault {
            number: Some(number),
            code,
        }
    }
}

/// Replays a script on one thread: the line of a record is written before the next record is read.
///
/// At most `limit` updates are accepted, and calls are decided under the profile. Ok: the script has no fault, and its
/// whole output was written, with nothing else. After a fault a part of the output was written, from its beginning, and
/// the fault names a record:
///
/// | Fault | Its number | What was written |
/// |---|---|---|
/// | `OutOfMemory` (102) | the record that was being read or answered | the lines of the records before it |
/// | `Word` (202) to `Number` (205) | the script's record with that fault | the lines of all records before it |
/// | `TooManyRecords` (207) | the script's record with that fault | the lines of all records before it |
/// | `Read` (206) | the record that was being read, or one more than were read | the lines of the records before it |
/// | [`WRITE_FAULT`] (208) of a write | the record whose line was being written | also a part of its line |
/// | [`WRITE_FAULT`] (208) of the flush at the end | the number of records that were read | all lines |
///
/// The clauses say so over a reader and a writer whose bytes a contract knows. Of others, as of the streams of the
/// process, they say which codes a fault may have.
pub fn replay<R: Read + Drop, W: Write>(
    alloc: Global,
    reader: R,
    writer: &mut W,
    limit: u64,
    profile: Profile,
) -> Result<(), ReplayFault>
    ensures whole { OnOk result (IfSome (R.remaining reader) (λ bytes.
        WritesAll (W.contents writer.old) (W.contents writer.new) profile limit (script bytes max_records))) }
    ensures stopped { IfErr result (λ fault. IfSome (R.remaining reader) (λ bytes.
        Stops (W.contents writer.old) (W.contents writer.new) profile limit (script bytes max_records) fault)) }
    ensures codes { IfErr result (λ fault. is_replay_code fault.code ≡ true) }
{
    let mut script = match Script::new(alloc, reader, MAX_RECORDS) {
        Ok(script) => script,
        Err(refusal) => return Err(ReplayFault::in_record(1, refusal.code())),
    };
    let mut store = Store::new(alloc, limit, profile);
    answer_all(alloc, &mut script, &mut store, writer)
}

/// Answers each record that the script still gives by the line of a store that is empty at first, and flushes.
fn answer_all<R: Read + Drop, W: Write>(
    alloc: Global,
    script: &mut Script<R>,
    store: &mut Store,
    writer: &mut W,
) -> Result<(), ReplayFault>
    requires reads { script.old ≢ Failed }
    requires empty { store.old ≡ empty_store store.old.profile store.old.limit }
    requires room { records_left script.old ≤ max_records }
    ensures whole { OnOk result (IfSome (still_gives script.old) (λ given.
        WritesAll (W.contents writer.old) (W.contents writer.new) store.old.profile store.old.limit given)) }
    ensures stopped { IfErr result (λ fault. IfSome (still_gives script.old) (λ given.
        Stops (W.contents writer.old) (W.contents writer.new) store.old.profile store.old.limit given fault)) }
    ensures codes { IfErr result (λ fault. is_replay_code fault.code ≡ true) }
{
    let mut number = 1;
    let mut text = Vec::new(alloc);
    let mut script_record = Record::Publish;
    'records: loop {
        match script.read_into(&mut script_record) {
            Ok(true) => {}
            Ok(false) => break,
            Err(fault) => return Err(ReplayFault::in_record(number, fault.code())),
        }
        match answer(store, writer, &mut text, &mut script_record) {
            Ok(()) => number += 1,
            Err(code) => return Err(ReplayFault::in_record(number, code)),
        }
    }
    match writer.flush() {
        Ok(()) => Ok(()),
        Err(_) => Err(ReplayFault::in_record(number - 1, WRITE_FAULT)),
    }
}

/// Answers a record, and writes its line. If memory is refused, nothing of the line is written.
///
/// `text` is room for the line: what it holds is cleared. An update leaves its place, where another record is put.
fn answer<W: Write>(
    store: &mut Store,
    writer: &mut W,
    text: &mut Vec<u8>,
    script_record: &mut Record,
) -> Result<(), u16>
    ensures line { OnOk result (Appends (W.contents writer.old) (W.contents writer.new)
        (line_text (line_of store.old.profile store.old.limit store.old.updates script_record.old))) }
    ensures after { OnOk result (store.new ≡ store_after store.old script_record.old) }
    ensures stopped { IfErr result (λ code. ((code ≡ 102) × Keeps (W.contents writer.old) (W.contents writer.new))
        ⊎ ((code ≡ 208) × AppendsProperPart (W.contents writer.old) (W.contents writer.new)
        (line_text (line_of store.old.profile store.old.limit store.old.updates script_record.old)))) }
{
    let line = match store.answer_from(script_record) {
        Ok(line) => line,
        Err(refusal) => return Err(refusal.code()),
    };
    text.clear();
    if let Err(refusal) = push_line(text, &line) {
        return Err(refusal.code());
    }
    match write_all(writer, text.as_slice()) {
        Ok(()) => Ok(()),
        Err(_) => Err(WRITE_FAULT),
    }
}
