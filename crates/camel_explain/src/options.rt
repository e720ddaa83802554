//! The command line.

use camel_script_replay::MAX_LIMIT;
use camel_tbcd::Profile;
use clap::builder::ValueParser;
use clap::{Arg, ArgAction, ArgMatches, Command, Error};
use std::alloc::Global;

/// The newest version of CHANGELOG.md, which `--version` prints.
const VERSION: &str = "0.7.0";

/// What the command line asks for.
#[derive(Clone, Copy)]
pub(crate) struct Options<'m> {
    /// The file of the script; None for standard input.
    pub(crate) file: Option<&'m str>,
    /// Only records of which there is something to say are printed.
    pub(crate) quiet: bool,
    /// Only records with a fault or a refusal are printed.
    pub(crate) mistakes: bool,
    /// Counts are printed at the end.
    pub(crate) summary: bool,
    /// The script is read, and nothing is run.
    pub(crate) check: bool,
    /// How many updates are accepted at most.
    pub(crate) limit: u64,
    /// The profile under which calls are decided.
    pub(crate) profile: Profile,
}

/// The command line as `clap` sees it.
pub(crate) fn command<'a>(alloc: Global) -> Result<Command<'a>, Error> {
    Ok(
        Command::new(alloc, "camel_explain")
            .about(ABOUT)
            .after_help(AFTER_HELP)
            .version(VERSION)
            .arg(
                Arg::new(alloc, "FILE")
                    .value_name("FILE")
                    .default_value("-")
                    .help("The script; - is standard input"),
            )?
            .arg(flag(
                alloc,
                "quiet",
                'q',
                "Prints only records of which there is something to say",
            ))?
            .arg(flag(
                alloc,
                "mistakes",
                'm',
                "Prints only records with a fault or a refusal",
            ))?
            .arg(flag(alloc, "summary", 's', "Prints counts at the end"))?
            .arg(flag(
                alloc,
                "check",
                'c',
                "Reads the script, prints its mistakes, and runs nothing",
            ))?
            .arg(number(alloc, "limit", "1000000", MAX_LIMIT).help(
                "The greatest number of updates that are accepted, 1 to 1000000",
            ))?
            .arg(number(alloc, "profile", "1", 2).help(
                "The profile: with 1 numbering plans are not compared, with 2 they are",
            ))?,
    )
}

/// An option with a number from 1 to `most`.
fn number<'a>(alloc: Global, name: &'a str, default: &'a str, most: u64) -> Arg<'a> {
    Arg::new(alloc, name)
        .long(name)
        .value_name("N")
        .default_value(default)
        .value_parser(ValueParser::unsigned(1, most))
}

fn flag<'a>(alloc: Global, name: &'a str, letter: char, help: &'a str) -> Arg<'a> {
    Arg::new(alloc, name)
        .long(name)
        .short(letter)
        .action(ArgAction::SetTrue)
        .help(help)
}

/// The options that the matches hold; None never comes, since `clap` has checked them.
pub(crate) fn options_of<'m>(matches: &'m ArgMatches) -> Option<Options<'m>> {
    let profile = match matches.get_one::<u64>("profile")? {
        1 => Profile::One,
        _ => Profile::Two,
    };
    Some(Options {
        file: matches.get_str("FILE").filter(|path| *path != "-"),
        quiet: matches.get_flag("quiet"),
        mistakes: matches.get_flag("mistakes"),
        summary: matches.get_flag("summary"),
        check: matches.get_flag("check"),
        limit: matches.get_one::<u64>("limit")?,
        profile,
    })
}

const ABOUT: &str = "\
Explains a script of CAMEL subscriber data and calls, record by record: its answers, each mistake, and why a call
triggers nothing";

const AFTER_HELP: &str = "\
The script is that of camel_replay (docs/SCRIPT.md), and so are the answers. A record with a fault is skipped, and the
script goes on; the status is 1 at the end if there was one. Here a script may also have:

  # a comment                   a line that begins with # is skipped
  show 262010000000001          what is stored of a subscriber, published and pending, as records of a script
  show                          how many subscribers and updates there are

Examples:

  camel_explain script.csv                   each record with its line number, its answer, and what there is to say
  camel_explain --quiet script.csv           only mistakes, refusals, calls that trigger nothing, and notes
  camel_explain --mistakes script.csv        only mistakes and refusals
  camel_explain --check script.csv           only mistakes, with nothing run
  camel_explain -qs script.csv               the same as with --quiet, and counts at the end
  camel_explain                              a prompt, where records are typed; help is a word there, Ctrl-D ends it
  rlwrap camel_explain                       the same, with a history of the lines (rlwrap is a program of its own)

A mistake is shown like this:

  4: insert,262010000000001,o:2:100:9194:0,t:12:2147483648:9194:0
     refused 36
     item 2, KEY 2147483648: over 2147483647";
