ghost use Rattle.std.specs.Prelude.{◌≡◌, false, IfErr, IfOk, IfSome, map, string_bytes};
ghost use Rattle.clap.specs.Words.{app_of, kind_of, rule_of};
ghost use Rattle.clap.specs.declared.error.kind.ErrorKind.TheVariants.{DisplayHelp, DisplayVersion, OutOfMemory};
ghost use Rattle.camel_replay_lib.specs.ProgramRun.{AsksForHelp, AsksForVersion, HoldsLimit, HoldsProfile, HoldsThreads, IsNumberUpTo};
ghost use Rattle.camel_replay_lib.specs.ProgramRun.{LimitOf, GivesNumber, ProfileOf, ThreadsOf, limit_rule};
ghost use Rattle.camel_replay_lib.specs.ProgramRun.{profile_number, profile_rule, the_program, threads_rule};

use crate::command::Options;
use camel_script_replay::MAX_LIMIT;
use camel_tbcd::Profile;
use clap::builder::ValueParser;
use clap::error::ErrorKind;
use clap::{Arg, ArgMatches, Command, Error};
use std::alloc::Global;

/// The newest version of CHANGELOG.md, which `--version` prints.
const VERSION: &str = "0.7.0";

/// The greatest number of threads that answer calls.
pub const MAX_THREADS: u64 = 16;

/// The greatest number of a profile.
const MAX_PROFILE: u64 = 2;

/// The options of the words with which the program was started, its name first.
///
/// The error is that of `clap`: a mistake in the words, a request for help or for the version, or out of memory.
pub fn options(alloc: Global, words: &[String]) -> Result<Options, Error>
    ensures threads { IfOk result (λ options. ThreadsOf (map string_bytes words.now) options.threads) }
    ensures limit { IfOk result (λ options. LimitOf (map string_bytes words.now) options.limit) }
    ensures profile { IfOk result (λ options. ProfileOf (map string_bytes words.now) options.profile) }
    ensures help { IfErr result (λ error.
        kind_of error ≡ DisplayHelp → AsksForHelp (map string_bytes words.now)) }
    ensures version { IfErr result (λ error.
        kind_of error ≡ DisplayVersion → AsksForVersion (map string_bytes words.now)) }
{
    let mut command = command(alloc)?;
    let matches = command.try_get_matches_from_mut(words)?;
    match held_options(&matches) {
        Some(options) => Ok(options),
        // `clap` has checked the ranges, so no command line comes here.
        None => Err(command.error(ErrorKind::ValueValidation, "a number is not in its range")?),
    }
}

/// The command line as `clap` sees it.
fn command<'a>(alloc: Global) -> Result<Command<'a>, Error>
    ensures program { IfOk result (λ command. app_of command ≡ the_program) }
    ensures only { IfErr result (λ error. kind_of error ≡ OutOfMemory) }
{
    let command = Command::new(alloc, "camel_replay")
        .about(ABOUT)
        .after_help(AFTER_HELP)
        .version(VERSION)
        .arg(limit_argument(alloc))?
        .arg(threads_argument(alloc))?
        .arg(profile_argument(alloc))?;
    Ok(command)
}

/// The option `--limit`.
fn limit_argument<'a>(alloc: Global) -> Arg<'a>
    ensures rule { rule_of result ≡ limit_rule }
    ensures own { result.global ≡ false }
{
    Arg::new(alloc, "limit")
        .long("limit")
        .value_name("N")
        .default_value("1000000")
        .value_parser(ValueParser::unsigned(1, MAX_LIMIT))
        .help("The greatest number of updates that are accepted, 1 to 1000000")
}

/// The option `--threads`.
fn threads_argument<'a>(alloc: Global) -> Arg<'a>
    ensures rule { rule_of result ≡ threads_rule }
    ensures own { result.global ≡ false }
{
    Arg::new(alloc, "threads")
        .long("threads")
        .value_name("N")
        .value_parser(ValueParser::unsigned(1, MAX_THREADS))
        .help("The number of threads that answer calls, 1 to 16; without it one thread does all")
}

/// The option `--profile`.
fn profile_argument<'a>(alloc: Global) -> Arg<'a>
    ensures rule { rule_of result ≡ profile_rule }
    ensures own { result.global ≡ false }
{
    Arg::new(alloc, "profile")
        .long("profile")
        .value_name("N")
        .default_value("1")
        .value_parser(ValueParser::unsigned(1, MAX_PROFILE))
        .help("The profile: with 1 numbering plans are not compared, with 2 they are")
}

/// The options that the matches hold.
fn held_options(matches: &ArgMatches) -> Option<Options>
    ensures threads { IfSome result (λ options. HoldsThreads matches.now options.threads) }
    ensures limit { IfSome result (λ options. HoldsLimit matches.now options.limit) }
    ensures profile { IfSome result (λ options. HoldsProfile matches.now options.profile) }
{
    let limit = number(matches.get_str("limit")?, MAX_LIMIT)?;
    let threads = match matches.get_str("threads") {
        Some(text) => Some(number(text, MAX_THREADS)? as usize),
        None => None,
    };
    let profile = profile_of_number(number(matches.get_str("profile")?, MAX_PROFILE)?)?;
    Some(Options {
        threads,
        limit,
        profile,
    })
}

/// The profile of a number.
fn profile_of_number(number: u64) -> Option<Profile>
    ensures { IfSome result (λ profile. profile_number profile ≡ number) }
{
    match number {
        1 => Some(Profile::One),
        2 => Some(Profile::Two),
        _ => None,
    }
}

/// The number of which a text is the numeral, from 1 up to the greatest.
fn number(text: &str, greatest: u64) -> Option<u64>
    ensures { IfSome result (IsNumberUpTo greatest text.now) }
{
    let number = text.parse::<u64>().ok()?;
    if number == 0 || number > greatest {
        return None;
    }
    Some(number)
}

const ABOUT: &str =
    "Decides calls by the CAMEL subscriber data of a script (3GPP TS 23.078 and TS 29.002)";

const AFTER_HELP: &str = "\
Reads a script as CSV from standard input, and writes one line for each record to standard output. The records:

  register,262010000000001                    an empty record; one that is there is emptied
  insert,262010000000001,o:2:100:919471160000:0,oc:2:e/9121f3/:t10::
                                              a row of the O-CSI with its criteria
  insert,262010000000001,t:13:300:919471160000:1,tc:13:t11:17
                                              a row of the VT-CSI with its criteria
  delete,262010000000001,vt                   removes o, vt or all; several may be named
  cancel,262010000000001                      removes the record
  clear                                       removes all records
  publish                                     calls see the updates before it from here on
  call,2,262010000000001,t11,91214365,n       a call at collectedInfo
  call,4,262010000000001,t11,91214365,f,17    at routeSelectFailure, forwarded, with a cause
  call,12,262010000000001,t11                 at termAttemptAuthorized
  call,13,262010000000001,t11,17              at tBusy
  call,14,262010000000001,t11,19              at tNoAnswer

Items of an insert, up to ten of each name, and at most one of each detection point that counts (2 and 4 for o and oc,
12, 13 and 14 for t and tc; others are ignored):

  o:DP:KEY:SCF:HANDLING               a row of the O-CSI
  t:DP:KEY:SCF:HANDLING               a row of the VT-CSI
  oc:DP:NUMBER:BASICS:TYPE:CAUSES     criteria of the O-CSI, each part after DP possibly empty
  tc:DP:BASICS:CAUSES                 criteria of the VT-CSI, likewise

  KEY is a service key. HANDLING is the default call handling: 0 continue, 1 release. Addresses are octets in
  hexadecimal: the first is nature and numbering plan, the others hold two digits each, the earlier one in the lower
  half, and f fills up. NUMBER is e/9121f3+9155/4, with e (enabling) or i (inhibiting), listed numbers and lengths.
  BASICS is t11+b10, teleservices and bearer services in hexadecimal. TYPE is f (forwarded) or n. CAUSES is 17+18.
  Pairs of plain digits are octets too, without a fault: +4912345 is 91942143f5.
  A number dialled with + is 91 and its digits, one dialled without + usually 81
  and its digits: 012345 is 81103254, and 004912345 is 8100942143f5.

The lines. register, insert, delete, cancel and clear are updates, and give
accepted or refused; publish gives published; call gives front or refused.

  accepted N                          the update is the Nth
  refused C                           5 unknown subscriber, 35 data missing, 36 unexpected value, 101 limit reached
  published F                         the first F updates are published
  front F trigger DP KEY SCF ACTION   by the first F updates this row's service is invoked; ACTION is continue or
                                      release, what is done with the call if the service can't be reached
  front F none REASON                 unknown, no-csi, not-armed, emergency or criteria

With --threads the lines of the calls come after those of all other records, and
refused calls are among the others. Call C is decided by session C modulo N of
--threads, and C counts only the calls that are not refused:

  session S call C front F ...        session S decided call C of the script, both counted from 0
  audit ok                            the last line: the published updates explain each answer

A fault ends the run and is printed on standard error: 202 word, 203 count of fields or parts, 204 hexadecimal digits,
205 IMSI or number, 206 the input could not be read, 207 too many records, 208 the output could not be written,
102 memory. With --threads also: 103 no place, 104 no look, 105 stopped, 106 a worker was not started, 301 to 304 the
updates do not explain the answers.

Status: 0 without a fault; 1 after a fault, which is printed on standard error, with the number of its record if it has
one; 2 if the command line is rejected.";
