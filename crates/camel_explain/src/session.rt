//! A run over a script, or over what is typed at a prompt.

use crate::colours::Colours;
use crate::explainer::{Explainer, View};
use crate::listing::{Listing, ListingFault};
use crate::options::Options;
use crate::progress::Progress;
use crate::prompt::Prompted;
use crate::session_word::GREETING;
use crate::stop::Stop;
use crate::stored::{append_memory, append_store};
use camel_script_replay::write_all;
use std::io::{IsTerminal, Read, Write};
use std::{env, fs};

/// How many octets of output are kept before they are written, if nobody waits for them.
const KEPT_OUTPUT: usize = 65536;

/// The octets of a page of memory.
const PAGE: u64 = 4096;

/// Explains a script, and returns whether a record had a fault.
pub(crate) fn explain<R: Read + IsTerminal + Drop>(
    rt: &HostRuntime,
    options: &Options<'_>,
    reader: R,
) -> Result<bool, Stop> {
    let is_typed = reader.is_terminal();
    let is_shown = rt.stdout().is_terminal();
    let is_at_prompt = is_typed && is_shown;
    let are_on = is_shown && !forbids_colours(rt);
    let view = view_of(options, is_at_prompt, Colours { are_on });
    let mut explainer = Explainer::new(rt.alloc(), options.limit, options.profile, view);
    // Where records are printed as they come, they say how far the run is.
    let leaves_out = options.quiet || options.mistakes;
    let is_said = rt.stderr().is_terminal() && !is_typed && (leaves_out || !is_shown);
    let mut progress = Progress::new(rt, is_said);
    if is_at_prompt {
        explainer.said.push_str(GREETING)?;
        write_said(rt, &mut explainer)?;
    }
    let reader = Prompted::new(rt, reader, is_at_prompt);
    let read = explain_records(
        rt,
        &mut explainer,
        &mut progress,
        reader,
        is_typed || is_shown,
    );
    progress.end(rt);
    // Ctrl-D leaves the cursor behind the prompt.
    if is_at_prompt && matches!(read, Ok(End::OfScript)) {
        explainer.said.push('\n')?;
    }
    if options.summary && read.is_ok() {
        append_summary(rt, &mut explainer)?;
    }
    write_said(rt, &mut explainer)?;
    read?;
    Ok(explainer.counts.has_faults())
}

/// What is shown of a script with these options.
fn view_of(options: &Options<'_>, is_at_prompt: bool, colours: Colours) -> View {
    View {
        is_at_prompt,
        is_quiet: options.quiet,
        only_mistakes: options.mistakes,
        only_checks: options.check,
        colours,
    }
}

/// Whether the variable `NO_COLOR` is there and not empty (no-color.org).
fn forbids_colours(rt: &HostRuntime) -> bool {
    match env::var(rt, "NO_COLOR") {
        Ok(value) => !value.is_empty(),
        Err(env::VarError::NotPresent) => false,
        Err(_) => true,
    }
}

/// How a run ends that nothing stops.
#[derive(Clone, Copy)]
enum End {
    /// The script has no more records.
    OfScript,
    /// A word that was typed ends it.
    Quit,
}

/// Explains each record. What is said of one is written at once if somebody waits for it.
fn explain_records<R: Read + Drop>(
    rt: &HostRuntime,
    explainer: &mut Explainer,
    progress: &mut Progress,
    reader: R,
    is_awaited: bool,
) -> Result<End, Stop> {
    let mut listing = match Listing::new(rt.alloc(), reader) {
        Ok(listing) => listing,
        Err(_) => return Err(Stop::Memory),
    };
    for _ in 0..u64::MAX {
        match listing.read() {
            Ok(true) => {}
            Ok(false) => break,
            Err(ListingFault::OutOfMemory) => return Err(Stop::Memory),
            Err(ListingFault::Read) => return Err(Stop::Read),
        }
        if !explainer.explain(&listing)? {
            return Ok(End::Quit);
        }
        progress.tick(rt, explainer.counts.records());
        if is_awaited || explainer.said.len() >= KEPT_OUTPUT {
            write_said(rt, explainer)?;
        }
    }
    Ok(End::OfScript)
}

/// Writes what is said, of which nothing is kept then.
fn write_said(rt: &HostRuntime, explainer: &mut Explainer) -> Result<(), Stop> {
    let written = write_all(&mut rt.stdout(), explainer.said.as_bytes());
    explainer.said.clear();
    match written {
        Ok(()) => Ok(()),
        Err(_) => Err(Stop::Write),
    }
}

/// Appends the counts of the run.
fn append_summary(rt: &HostRuntime, explainer: &mut Explainer) -> Result<(), Stop> {
    explainer.counts.append(&mut explainer.said)?;
    append_store(&mut explainer.said, "", &explainer.store)?;
    append_memory(&mut explainer.said, resident(rt))?;
    Ok(())
}

/// The octets of this program in memory, if the system tells.
fn resident(rt: &HostRuntime) -> Option<u64> {
    let counts = fs::read_to_string(rt, "/proc/self/statm").ok()?;
    let pages = counts.split(' ').nth(1)?.parse::<u64>().ok()?;
    Some(pages.saturating_mul(PAGE))
}
