ghost use Rattle.std.specs.Prelude.{◌≡◌, ◌≢◌, ◌≤◌, true, IfErr, IfOk, IfSome};
ghost use Rattle.camel_script.specs.Script.{Failed, records_left, script, still_gives};
ghost use Rattle.camel_script_replay.specs.Output.{max_records, is_reading_code};
ghost use Rattle.camel_replay_lib.specs.ThreadsOutput.{IsAllOf, StopsReading};

use camel_script::{Record, Script};
use camel_script_replay::{MAX_RECORDS, ReplayFault};
use std::alloc::Global;
use std::collections::VecDeque;
use std::io::Read;
use std::mem;

/// Reads a script whole. A fault names the record that was being read.
pub(crate) fn read_script<I: Read + Drop>(
    alloc: Global,
    reader: I,
) -> Result<VecDeque<Record>, ReplayFault>
    ensures whole { IfOk result
        (λ records. IfSome (I.remaining reader) (λ bytes. IsAllOf (script bytes max_records) records.items)) }
    ensures stopped { IfErr result
        (λ fault. IfSome (I.remaining reader) (λ bytes. StopsReading (script bytes max_records) fault)) }
    ensures codes { IfErr result (λ fault. is_reading_code fault.code ≡ true) }
{
    let mut script = match Script::new(alloc, reader, MAX_RECORDS) {
        Ok(script) => script,
        Err(refusal) => return Err(ReplayFault::in_record(1, refusal.code())),
    };
    read_all(alloc, &mut script)
}

/// Reads all records that the script still gives.
fn read_all<I: Read + Drop>(
    alloc: Global,
    script: &mut Script<I>,
) -> Result<VecDeque<Record>, ReplayFault>
    requires reads { script.old ≢ Failed }
    requires room { records_left script.old ≤ max_records }
    ensures whole { IfOk result (λ records. IfSome (still_gives script.old) (λ given. IsAllOf given records.items)) }
    ensures stopped { IfErr result (λ fault. IfSome (still_gives script.old) (λ given. StopsReading given fault)) }
    ensures codes { IfErr result (λ fault. is_reading_code fault.code ≡ true) }
{
    let mut number = 1;
    let mut records = VecDeque::new(alloc);
    let mut next = Record::Publish;
    'records: loop {
        match script.read_into(&mut next) {
            Ok(true) => {}
            Ok(false) => return Ok(records),
            Err(fault) => return Err(ReplayFault::in_record(number, fault.code())),
        }
        let read = mem::replace(&mut next, Record::Publish);
        let Ok(()) = records.push_back(read) else {
            return Err(ReplayFault::in_record(number, OUT_OF_MEMORY));
        };
        number += 1;
    }
}

const OUT_OF_MEMORY: u16 = 102;
