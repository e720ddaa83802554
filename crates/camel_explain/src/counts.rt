//! What is counted of a script.

use camel_rows::{Outcome, Reason};
use camel_script::Line;
use std::alloc::AllocError;

/// The counts of the records of a script, by what came of them.
#[derive(Clone, Copy, Default)]
pub(crate) struct Counts {
    records: u64,
    faults: u64,
    refused_unidentified: u64,
    refused_missing: u64,
    refused_unexpected: u64,
    refused_full: u64,
    accepted: u64,
    published: u64,
    triggers: u64,
    unknown: u64,
    no_csi: u64,
    not_armed: u64,
    emergency: u64,
    criteria: u64,
}

impl Counts {
    pub(crate) fn records(&self) -> u64 {
        self.records
    }

    pub(crate) fn has_faults(&self) -> bool {
        self.faults > 0
    }

    /// Counts a record, whatever comes of it.
    pub(crate) fn count_record(&mut self) {
        self.records = self.records.saturating_add(1);
    }

    /// Counts a record with a fault.
    pub(crate) fn count_fault(&mut self) {
        self.faults = self.faults.saturating_add(1);
    }

    /// Counts an answer.
    pub(crate) fn count(&mut self, line: &Line) {
        let count = match line {
            Line::Accepted(_) => &mut self.accepted,
            Line::Refused(5) => &mut self.refused_unidentified,
            Line::Refused(35) => &mut self.refused_missing,
            Line::Refused(36) => &mut self.refused_unexpected,
            Line::Refused(_) => &mut self.refused_full,
            Line::Published(_) => &mut self.published,
            Line::Decided(answer) | Line::Served { answer, .. } => match answer.outcome {
                Outcome::Trigger { .. } => &mut self.triggers,
                Outcome::NoTrigger(Reason::Unknown) => &mut self.unknown,
                Outcome::NoTrigger(Reason::NoCsi) => &mut self.no_csi,
                Outcome::NoTrigger(Reason::NotArmed) => &mut self.not_armed,
                Outcome::NoTrigger(Reason::Emergency) => &mut self.emergency,
                Outcome::NoTrigger(Reason::Criteria) => &mut self.criteria,
            },
            Line::AuditOk => return,
        };
        *count = count.saturating_add(1);
    }

    /// Appends the counts of what came, a line each.
    pub(crate) fn append(&self, out: &mut String) -> Result<(), AllocError> {
        let rows = [
            ("records", self.records),
            ("faults", self.faults),
            ("refused 5", self.refused_unidentified),
            ("refused 35", self.refused_missing),
            ("refused 36", self.refused_unexpected),
            ("refused 101", self.refused_full),
            ("accepted", self.accepted),
            ("published", self.published),
            ("trigger", self.triggers),
            ("none unknown", self.unknown),
            ("none no-csi", self.no_csi),
            ("none not-armed", self.not_armed),
            ("none emergency", self.emergency),
            ("none criteria", self.criteria),
        ];
        for (name, count) in rows {
            append_count(out, name, count)?;
        }
        Ok(())
    }
}

/// Appends a count behind its name.
pub(crate) fn append_count(out: &mut String, name: &str, count: u64) -> Result<(), AllocError> {
    writeln!(out, "{name:<23} {count:>9}")
}
