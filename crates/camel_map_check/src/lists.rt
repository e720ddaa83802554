use camel_map::{Arrival, CapabilityHandling, ItemCounts};
use camel_script::{append_decimal, append_text};
use std::alloc::AllocError;

/// Appends the line of what came beside an update.
pub(crate) fn append_lists(out: &mut Vec<u8>, arrival: &Arrival) -> Result<(), AllocError> {
    let ItemCounts {
        o,
        o_criteria,
        vt,
        t_criteria,
    } = arrival.counts;
    for count in [o, o_criteria, vt, t_criteria] {
        append_decimal(out, count as u64)?;
        append_text(out, " ")?;
    }
    let CapabilityHandling { o, vt } = arrival.capabilities;
    append_capability(out, o)?;
    append_text(out, " ")?;
    append_capability(out, vt)?;
    append_text(out, "\n")
}

/// Appends a camelCapabilityHandling, `-` if it is not there.
fn append_capability(out: &mut Vec<u8>, capability: Option<u32>) -> Result<(), AllocError> {
    match capability {
        Some(phase) => append_decimal(out, u64::from(phase)),
        None => append_text(out, "-"),
    }
}
