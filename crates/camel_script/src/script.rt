ghost use Rattle.std.specs.Prelude.{◌≡◌, ◌≢◌, ◌+◌, Ok, Err, None, IfErr, IfOk, IfSome, IsOk, IsTrue, OnErr, false};
ghost use Rattle.std.specs.Prelude.{option_map, true};
ghost use Rattle.csv.specs.Reading.{error_kind, is_io};
ghost use Rattle.camel_script.specs.Script.{IsMemoryOrIo, Ended, Failed, FaultsAs, Gives, IsMemoryOrReadFault, Unread};
ghost use Rattle.camel_script.specs.Script.{read_if, records_left, script, still_gives};

use crate::{Record, ScriptFault, parse_record};
use camel_criteria::Refusal;
use csv::{ByteRecord, ErrorKind, Reader, ReaderBuilder};
use std::alloc::Global;
use std::io::Read;
use std::marker::Model;

/// What the reads so far have come to.
#[derive(Clone, Copy, PartialEq, Eq)]
enum Phase {
    Reading,
    Failed,
    Ended,
}

/// A script that is read record by record, in the form that docs/SCRIPT.md states.
///
/// Contracts see what it still gives if the bytes of the reader are known: records, and then a fault or the end.
#[derive(Drop)]
pub struct Script<R: Read> {
    alloc: Global,
    reader: Reader<R>,
    fields: ByteRecord,
    records_left: u64,
    phase: Phase,
}

impl<R: Read> Model for Script<R> {
    ghost use Rattle.csv.specs.Reading.{source_of, reader_state};
    ghost use Rattle.camel_script.specs.Script.{IsSetUp, script_state_of, ScriptState};

    ghost Value = { ScriptState };

    ghost view = { λ a.
        script_state_of a.phase (source_of R.remaining a.reader) (reader_state a.reader) a.records_left };

    ghost invariant = { λ a. IsSetUp a.phase a.reader };
}

impl<R: Read> Script<R> {
    /// A script of which nothing is read yet, and of which at most `max_records` records are read.
    ///
    /// It takes no memory, and is always Ok; a reader with a buffer of its own would fail with `OutOfMemory` (102).
    pub fn new(alloc: Global, reader: R, max_records: u64) -> Result<Script<R>, Refusal>
        ensures made { IsOk result }
        ensures unread { IfOk result (λ made. made ≡
            Unread max_records (option_map (λ bytes. script bytes max_records) (R.remaining reader))) }
    {
        let reader = ReaderBuilder::new()
            .has_headers(false)
            .flexible(true)
            .from_reader(alloc, reader);
        Ok(Script {
            alloc,
            reader,
            fields: ByteRecord::new(alloc),
            records_left: max_records,
            phase: Phase::Reading,
        })
    }

    /// The next record, or None at the end of the script.
    ///
    /// Fails with `Word` (202), `FieldCount` (203), `Hexadecimal` (204) or `Number` (205) for the first fault of a
    /// record's text, in the order of docs/SCRIPT.md; with `TooManyRecords` (207) for one record more than
    /// `max_records`, before any other fault of it; with `Read` (206) if the reader failed; and with
    /// `OutOfMemory` (102). After any fault each later call fails with `Failed` (209), and after None each returns
    /// None.
    pub fn read_record(&mut self) -> Result<Option<Record>, ScriptFault>
        ensures gives { IfOk result (λ read. Gives (still_gives self.old) (still_gives self.new) read) }
        ensures faults { IfErr result (λ fault. FaultsAs fault (still_gives self.old)) }
        ensures counts { IfOk result (λ read. IfSome read (λ _. records_left self.old ≡ records_left self.new + 1)) }

        // `Failed` comes only after a fault, and then for good. None is returned for good after the end.
        ensures fails { OnErr result (self.new ≡ Failed) }
        ensures failed { self.old ≡ Failed → result ≡ Err ScriptFault.Failed }
        ensures failed_only { result ≡ Err ScriptFault.Failed → self.old ≡ Failed }
        ensures reads_on { IfOk result (λ read. IfSome read (λ _. self.new ≢ Failed)) }
        ensures ends { result ≡ Ok None → self.new ≡ Ended }
        ensures ended { self.old ≡ Ended → result ≡ Ok None }
    {
        let mut record = Record::Publish;
        match self.read_into(&mut record) {
            Ok(true) => Ok(Some(record)),
            Ok(false) => Ok(None),
            Err(fault) => Err(fault),
        }
    }

    /// Reads the next record into its place, and returns whether there is one. At the end of the script, and after a
    /// fault, what the place holds is not specified.
    ///
    /// It is for a loop over records: `read_record` moves each, and a record is large. Its faults are the same.
    pub fn read_into(&mut self, read: &mut Record) -> Result<bool, ScriptFault>
        ensures gives { IfOk result
            (λ found. Gives (still_gives self.old) (still_gives self.new) (read_if found read.new)) }
        ensures faults { IfErr result (λ fault. FaultsAs fault (still_gives self.old)) }
        ensures counts { result ≡ Ok true → records_left self.old ≡ records_left self.new + 1 }

        // As of `read_record`.
        ensures fails { OnErr result (self.new ≡ Failed) }
        ensures failed { self.old ≡ Failed → result ≡ Err ScriptFault.Failed }
        ensures failed_only { result ≡ Err ScriptFault.Failed → self.old ≡ Failed }
        ensures reads_on { result ≡ Ok true → self.new ≢ Failed }
        ensures ends { result ≡ Ok false → self.new ≡ Ended }
        ensures ended { self.old ≡ Ended → result ≡ Ok false }
    {
        match self.phase {
            Phase::Failed => return Err(ScriptFault::Failed),
            Phase::Ended => return Ok(false),
            Phase::Reading => {}
        }
        let found = match self.reader.read_byte_record(&mut self.fields) {
            Ok(found) => found,
            Err(error) => {
                self.phase = Phase::Failed;
                return Err(fault_of(&error));
            }
        };
        if !found {
            self.phase = Phase::Ended;
            return Ok(false);
        }
        if self.records_left == 0 {
            self.phase = Phase::Failed;
            return Err(ScriptFault::TooManyRecords);
        }
        match parse_record(self.alloc, &self.fields, read) {
            Ok(()) => {
                self.records_left -= 1;
                Ok(true)
            }
            Err(fault) => {
                self.phase = Phase::Failed;
                Err(fault)
            }
        }
    }
}

/// The fault of a CSV error, which is of memory or of the reader: a flexible reader of byte records has no other.
fn fault_of(error: &csv::Error) -> ScriptFault
    requires { IsMemoryOrIo (error_kind error.now) }
    ensures memory { error_kind error.now ≡ ErrorKind.OutOfMemory → result ≡ ScriptFault.OutOfMemory }
    ensures read { IsTrue (is_io (error_kind error.now)) → result ≡ ScriptFault.Read }
    ensures outside { IsMemoryOrReadFault result }
{
    match error.kind() {
        ErrorKind::OutOfMemory => ScriptFault::OutOfMemory,
        ErrorKind::Io(_) => ScriptFault::Read,
        _ => unreachable!(),
    }
}
