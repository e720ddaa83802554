//! What is stored, for `show`.

use crate::counts::append_count;
use crate::shown::{Shown, ShownImsi};
use camel_criteria::Refusal;
use camel_rows::{Records, Subscriber, Update};
use camel_script::append_update;
use camel_script_replay::Store;
use camel_tbcd::Imsi;
use std::alloc::{AllocError, Global};

/// What begins a line of what is said of a record.
pub(crate) const INDENT: &str = "   ";

/// Appends what is stored of an IMSI, as a record of a script: what is published, and what the pending updates leave.
pub(crate) fn say_stored(
    alloc: Global,
    out: &mut String,
    store: &Store,
    text: &[u8],
) -> Result<(), Refusal> {
    let Ok(imsi) = Imsi::from_ascii(text) else {
        writeln!(
            out,
            "{INDENT}\"{}\" is no IMSI: 5 to 15 digits",
            Shown(text)
        )?;
        return Ok(());
    };
    let published = store.records().get(&imsi);
    append_subscriber(alloc, out, "published", imsi, published)?;
    let mut concerned = store
        .pending()
        .iter()
        .filter(|update| update.imsi().is_none_or(|of| of == imsi));
    if concerned.next().is_none() {
        writeln!(out, "{INDENT}pending: no update of {}", ShownImsi(&imsi))?;
        return Ok(());
    }
    let pending = pending_records(alloc, store, imsi, published)?;
    append_subscriber(alloc, out, "pending", imsi, pending.get(&imsi))
}

/// The record of an IMSI after the pending updates, and no other.
fn pending_records(
    alloc: Global,
    store: &Store,
    imsi: Imsi,
    published: Option<&Subscriber>,
) -> Result<Records, Refusal> {
    let mut records = Records::new(alloc);
    if let Some(subscriber) = published {
        records.apply(&Update::Register { imsi })?;
        records.apply(&subscriber.to_insert(imsi)?)?;
    }
    for update in store.pending() {
        if update.imsi().is_none_or(|of| of == imsi) {
            records.apply(update)?;
        }
    }
    Ok(records)
}

fn append_subscriber(
    alloc: Global,
    out: &mut String,
    name: &str,
    imsi: Imsi,
    subscriber: Option<&Subscriber>,
) -> Result<(), Refusal> {
    let Some(subscriber) = subscriber else {
        writeln!(out, "{INDENT}{name}: no record of {}", ShownImsi(&imsi))?;
        return Ok(());
    };
    let mut text = Vec::new(alloc);
    append_update(&mut text, &shortest_update(imsi, subscriber)?)?;
    writeln!(out, "{INDENT}{name}: {}", Shown(&text))?;
    Ok(())
}

/// The shortest update that makes a record out of one in which nothing is stored: a CSI that comes without criteria
/// leaves none.
fn shortest_update(imsi: Imsi, subscriber: &Subscriber) -> Result<Update, Refusal> {
    if subscriber.o().is_none() && subscriber.vt().is_none() {
        return Ok(Update::Register { imsi });
    }
    Ok(match subscriber.to_insert(imsi)? {
        Update::Insert {
            imsi,
            o,
            o_criteria,
            vt,
            t_criteria,
        } => Update::Insert {
            imsi,
            o,
            o_criteria: o_criteria.filter(|set| !set.is_empty()),
            vt,
            t_criteria: t_criteria.filter(|set| !set.is_empty()),
        },
        other => other,
    })
}

/// Appends how many subscribers are published, and how many updates are accepted and pending, each line behind a text.
pub(crate) fn append_store(out: &mut String, indent: &str, store: &Store) -> Result<(), Refusal> {
    let rows = [
        (
            "published subscribers",
            store.records().imsis()?.len() as u64,
        ),
        ("accepted updates", store.accepted()),
        ("pending updates", store.pending().len() as u64),
    ];
    for (name, count) in rows {
        out.push_str(indent)?;
        append_count(out, name, count)?;
    }
    Ok(())
}

/// Appends the octets of this program in memory, if the system tells.
pub(crate) fn append_memory(out: &mut String, octets: Option<u64>) -> Result<(), AllocError> {
    match octets {
        Some(octets) => append_count(out, "memory in KiB", octets / 1024),
        None => Ok(()),
    }
}
