ghost use Rattle.std.specs.Prelude.{◌≡◌};
ghost use Rattle.csv.specs.Records.{fields_of};
ghost use Rattle.camel_reading.specs.Reading.{ReadsInto};
ghost use Rattle.camel_script.specs.Record.{call_of, collected_info_of, collected_info_texts, not_reached_of};
ghost use Rattle.camel_script.specs.Record.{route_select_failure_of, route_select_failure_texts, subscriber_of};
ghost use Rattle.camel_script.specs.Record.{terminating_attempt_of, terminating_attempt_texts};
ghost use Rattle.camel_script.specs.Fields.{with_fields, IsMemoryMistake};

use crate::mistake::{at_field, check_fields, field_count, mistake_at};
use crate::record::field::field;
use crate::text::{make_call_address, make_cause, parse_forwarded, parse_imsi, parse_octets};
use crate::{Expected, Mistake, Record, RecordFault, parse_basic_service, parse_small_decimal};
use camel_criteria::{BasicService, Cause};
use camel_rows::CallEvent;
use camel_tbcd::Imsi;
use csv::ByteRecord;
use std::alloc::Global;

const CALL: [Expected; 2] = [Expected::Word, Expected::CallDetectionPoint];

const COLLECTED_INFO: [Expected; 6] = [
    Expected::Word,
    Expected::CallDetectionPoint,
    Expected::Imsi,
    Expected::BasicService,
    Expected::Destination,
    Expected::Forwarded,
];

const ROUTE_SELECT_FAILURE: [Expected; 7] = [
    Expected::Word,
    Expected::CallDetectionPoint,
    Expected::Imsi,
    Expected::BasicService,
    Expected::Destination,
    Expected::Forwarded,
    Expected::Cause,
];

const TERMINATING_ATTEMPT: [Expected; 4] = [
    Expected::Word,
    Expected::CallDetectionPoint,
    Expected::Imsi,
    Expected::BasicService,
];

const NOT_REACHED: [Expected; 5] = [
    Expected::Word,
    Expected::CallDetectionPoint,
    Expected::Imsi,
    Expected::BasicService,
    Expected::Cause,
];

/// Reads a call at a trigger detection point, which says how many fields there are. A call is put right into its place:
/// one that is moved is read while it is still being written, which takes longer than the move.
#[tactic(auto, unfolding(crate::specs::Record::call_of))]
pub(crate) fn parse_call(
    alloc: Global,
    fields: &ByteRecord,
    read: &mut Record,
) -> Result<(), Mistake>
    ensures { ReadsInto IsMemoryMistake result read.new (call_of (fields_of fields.now)) }
{
    if fields.len() < 2 {
        return Err(field_count(&CALL, fields.len()));
    }
    match field(fields, 1) {
        b"2" => parse_collected_info(alloc, fields, read),
        b"4" => parse_route_select_failure(alloc, fields, read),
        b"12" => parse_terminating_attempt(fields, read),
        b"13" => {
            let (imsi, basic, cause) = parse_not_reached(fields)?;
            *read = Record::Call(CallEvent::Busy { imsi, basic, cause });
            Ok(())
        }
        b"14" => {
            let (imsi, basic, cause) = parse_not_reached(fields)?;
            *read = Record::Call(CallEvent::NoAnswer { imsi, basic, cause });
            Ok(())
        }
        _ => Err(mistake_at(2, 0, Expected::CallDetectionPoint, RecordFault::Word)),
    }
}

/// Reads the IMSI and the basic service of a call.
#[tactic(auto, unfolding(crate::specs::Record::subscriber_of))]
fn parse_subscriber(fields: &ByteRecord) -> Result<(Imsi, BasicService), Mistake>
    ensures { result ≡ subscriber_of (fields_of fields.now) }
{
    let imsi = at_field(3, Expected::Imsi, parse_imsi(field(fields, 2)))?;
    let basic = at_field(
        4,
        Expected::BasicService,
        parse_basic_service(field(fields, 3)),
    )?;
    Ok((imsi, basic))
}

#[tactic(auto, unfolding(crate::specs::Record::collected_info_of))]
fn parse_collected_info(
    alloc: Global,
    fields: &ByteRecord,
    read: &mut Record,
) -> Result<(), Mistake>
    ensures { ReadsInto IsMemoryMistake result read.new
        (with_fields collected_info_texts (fields_of fields.now) (collected_info_of (fields_of fields.now))) }
{
    check_fields(&COLLECTED_INFO, fields)?;
    let (imsi, basic) = parse_subscriber(fields)?;
    let octets = at_field(
        5,
        Expected::Destination,
        parse_octets(alloc, field(fields, 4)),
    )?;
    let forwarded = at_field(6, Expected::Forwarded, parse_forwarded(field(fields, 5)))?;
    let destination = at_field(5, Expected::Destination, make_call_address(&octets))?;
    *read = Record::Call(CallEvent::CollectedInfo {
        imsi,
        destination,
        basic,
        forwarded,
    });
    Ok(())
}

#[tactic(auto, unfolding(crate::specs::Record::route_select_failure_of))]
fn parse_route_select_failure(
    alloc: Global,
    fields: &ByteRecord,
    read: &mut Record,
) -> Result<(), Mistake>
    ensures { ReadsInto IsMemoryMistake result read.new
        (with_fields route_select_failure_texts (fields_of fields.now)
        (route_select_failure_of (fields_of fields.now))) }
{
    check_fields(&ROUTE_SELECT_FAILURE, fields)?;
    let (imsi, basic) = parse_subscriber(fields)?;
    let octets = at_field(
        5,
        Expected::Destination,
        parse_octets(alloc, field(fields, 4)),
    )?;
    let forwarded = at_field(6, Expected::Forwarded, parse_forwarded(field(fields, 5)))?;
    let value = at_field(7, Expected::Cause, parse_small_decimal(field(fields, 6)))?;
    let destination = at_field(5, Expected::Destination, make_call_address(&octets))?;
    let cause = at_field(7, Expected::Cause, make_cause(value))?;
    *read = Record::Call(CallEvent::RouteSelectFailure {
        imsi,
        destination,
        basic,
        forwarded,
        cause,
    });
    Ok(())
}

#[tactic(auto, unfolding(crate::specs::Record::terminating_attempt_of))]
fn parse_terminating_attempt(fields: &ByteRecord, read: &mut Record) -> Result<(), Mistake>
    ensures { ReadsInto IsMemoryMistake result read.new
        (with_fields terminating_attempt_texts (fields_of fields.now) (terminating_attempt_of (fields_of fields.now))) }
{
    check_fields(&TERMINATING_ATTEMPT, fields)?;
    let (imsi, basic) = parse_subscriber(fields)?;
    *read = Record::Call(CallEvent::TerminatingAttempt { imsi, basic });
    Ok(())
}

/// Reads the IMSI, the basic service and the cause of a call that was not reached.
#[tactic(auto, unfolding(crate::specs::Record::not_reached_of))]
fn parse_not_reached(fields: &ByteRecord) -> Result<(Imsi, BasicService, Cause), Mistake>
    ensures { result ≡ not_reached_of (fields_of fields.now) }
{
    check_fields(&NOT_REACHED, fields)?;
    let (imsi, basic) = parse_subscriber(fields)?;
    let value = at_field(5, Expected::Cause, parse_small_decimal(field(fields, 4)))?;
    let cause = at_field(5, Expected::Cause, make_cause(value))?;
    Ok((imsi, basic, cause))
}
