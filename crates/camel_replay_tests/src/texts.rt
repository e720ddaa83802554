//! The texts of errors, of which no clause speaks.

use camel_audit::AuditFault;
use camel_criteria::Refusal;
use camel_script::ScriptFault;
use camel_tbcd::{AddressFault, ImsiFault};
use std::alloc::Global;
use std::error::Error;
use std::test::Fail;

const ADDRESS_FAULTS: [AddressFault; 2] = [AddressFault::Empty, AddressFault::TooLong];

const IMSI_FAULTS: [ImsiFault; 2] = [ImsiFault::Length, ImsiFault::NotDigit { at: 3 }];

const REFUSALS: [Refusal; 7] = [
    Refusal::UnidentifiedSubscriber,
    Refusal::DataMissing,
    Refusal::UnexpectedDataValue,
    Refusal::HistoryFull,
    Refusal::OutOfMemory,
    Refusal::NoPlace,
    Refusal::NoGuard,
];

const SCRIPT_FAULTS: [ScriptFault; 8] = [
    ScriptFault::OutOfMemory,
    ScriptFault::Word,
    ScriptFault::FieldCount,
    ScriptFault::Hexadecimal,
    ScriptFault::Number,
    ScriptFault::Read,
    ScriptFault::TooManyRecords,
    ScriptFault::Failed,
];

const AUDIT_FAULTS: [AuditFault; 5] = [
    AuditFault::OutOfMemory,
    AuditFault::FrontTooLong {
        session: 1,
        entry: 7,
    },
    AuditFault::FrontWentBack {
        session: 1,
        entry: 7,
    },
    AuditFault::AnswerDiffers {
        session: 1,
        entry: 7,
    },
    AuditFault::BadHistory { at: 3 },
];

// The text of each of these errors, in their order.
const TEXTS: &str = "the address has no octets
the address has too many octets
an IMSI has 5 to 15 digits
no decimal digit at 3
there is no record of the subscriber
data that are needed are missing
a value, a count or a repeated item is not allowed
the store has taken as many updates as it may
out of memory
there is no place for a further session
the session got no look
out of memory
unknown word
wrong number of fields or parts
not pairs of hexadecimal digits
not an IMSI or a number in its range
the script could not be read
too many records
an earlier read had a fault
out of memory
session 1, entry 7: a front of more updates than there are
session 1, entry 7: a front that went back
session 1, entry 7: another answer than the updates give
update 3: refused
";

fn push_texts<E: Error>(alloc: Global, texts: &mut String, errors: &[E]) -> Result<(), Fail> {
    for error in errors {
        texts.push_str(&format!(in alloc; "{error}\n")?)?;
    }
    Ok(())
}

#[test]
fn each_error_has_its_text(rt: HostRuntime) -> Result<(), Fail> {
    let mut texts = String::new(rt.alloc());
    push_texts(rt.alloc(), &mut texts, &ADDRESS_FAULTS)?;
    push_texts(rt.alloc(), &mut texts, &IMSI_FAULTS)?;
    push_texts(rt.alloc(), &mut texts, &REFUSALS)?;
    push_texts(rt.alloc(), &mut texts, &SCRIPT_FAULTS)?;
    push_texts(rt.alloc(), &mut texts, &AUDIT_FAULTS)?;
    assert_eq!(rt; texts.as_str(), TEXTS);
    Ok(())
}
