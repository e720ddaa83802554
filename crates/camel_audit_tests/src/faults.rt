//! The texts of faults.

use camel_audit::AuditFault;
use std::alloc::Global;
use std::test::Fail;

/// A fault, its number and its text.
type Case<'a> = (AuditFault, u16, &'a str);

// Which case is the first one that is not as it says.
fn first_other(alloc: Global, cases: &[Case]) -> Result<Option<usize>, Fail> {
    for (at, (fault, code, text)) in cases.iter().enumerate() {
        if fault.code() != *code || format!(in alloc; "{fault}")?.as_str() != *text {
            return Ok(Some(at));
        }
    }
    Ok(None)
}

#[test]
fn a_fault_says_its_number_and_where_it_stands(rt: HostRuntime) -> Result<(), Fail> {
    let (session, entry) = (1, 7);
    let other = first_other(
        rt.alloc(),
        &[
            (AuditFault::OutOfMemory, 102, "out of memory"),
            (
                AuditFault::FrontTooLong { session, entry },
                301,
                "session 1, entry 7: a front of more updates than there are",
            ),
            (
                AuditFault::FrontWentBack { session, entry },
                302,
                "session 1, entry 7: a front that went back",
            ),
            (
                AuditFault::AnswerDiffers { session, entry },
                303,
                "session 1, entry 7: another answer than the updates give",
            ),
            (AuditFault::BadHistory { at: 3 }, 304, "update 3: refused"),
        ],
    );
    assert_eq!(rt; other?, None);
    Ok(())
}
