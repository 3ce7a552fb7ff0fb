// Finds the value of each option with `clap`.
ghost use Rattle.std.specs.Prelude.{◌≡◌, false, None, Some, IfErr, IfOk, codes, map, option_and_then, option_map, string_bytes};
ghost use Rattle.clap.specs.Words.{app_of, first_value, found_of, matched_of, rule_of};
ghost use Rattle.ti_words.specs.Job.{parse_values};
ghost use Rattle.ti_words.specs.Mirrors.Command.{bare, file_rule, flag_rule, is_from_words, titan, with_flags};
ghost use Rattle.ti_words.specs.Mirrors.Seen.{values_seen};
ghost use Rattle.ti_words.specs.declared.error.WordsErr.TheVariants.{Usage};

use crate::error::WordsErr;
use crate::piece::all_stand;
use clap::error::ErrorKind;
use clap::parser::ValueSource;
use clap::{Arg, ArgAction, ArgMatches, Command};
use std::alloc::{AllocError, Global};

/// The value of each option, if it was given; for `trace`, `stats` and `races`, whether it was given.
#[derive(Clone, Copy)]
pub struct RawArgs<'a> {
    pub mode: Option<&'a str>,
    pub procs: Option<&'a str>,
    pub workers: Option<&'a str>,
    pub fuel: Option<&'a str>,
    pub seed: Option<&'a str>,
    pub against: Option<&'a str>,
    pub trace: bool,
    pub stats: bool,
    pub races: bool,
    pub file: Option<&'a str>,
}

// An option `--name`: with a value, given as `--NAME VALUE` or `--NAME=VALUE`, or without one.
fn flag<'a>(alloc: Global, has_value: bool, name: &'a str) -> Arg<'a>
    ensures rule { rule_of result ≡ flag_rule has_value name.now }
    ensures local { result.global ≡ false }
{
    let action = if has_value {
        ArgAction::Set
    } else {
        ArgAction::SetTrue
    };
    Arg::new(alloc, name).long(name).action(action)
}

// Adds these options to a command, all with a value or all without.
fn with_flags<'a>(
    alloc: Global,
    command: Command<'a>,
    has_value: bool,
    names: &[&'a str],
) -> Result<Command<'a>, AllocError>
    ensures { IfOk result (λ c. app_of c ≡ with_flags has_value (app_of command.entry) (map (λ s. s.now) names.entry.now)) }
{
    let mut command = command;
    for name in names {
        command = command.arg(flag(alloc, has_value, name))?;
    }
    Ok(command)
}

// The positional argument, the source file.
fn file<'a>(alloc: Global) -> Arg<'a>
    ensures rule { rule_of result ≡ file_rule }
    ensures local { result.global ≡ false }
{
    Arg::new(alloc, "FILE").action(ArgAction::Set)
}

// The command without options: the program's name isn't among its arguments, and it has no option `--help`.
fn bare_command<'a>(alloc: Global) -> Command<'a>
    ensures { app_of result ≡ bare }
{
    Command::new(alloc, "titan")
        .no_binary_name(true)
        .disable_help_flag(true)
}

// The command with all options. Errors only if it runs out of memory.
fn command<'a>(alloc: Global) -> Result<Command<'a>, AllocError>
    ensures { IfOk result (λ c. app_of c ≡ titan) }
{
    let settings = ["mode", "procs", "workers", "fuel", "seed", "against"];
    let command = with_flags(alloc, bare_command(alloc), true, &settings)?;
    with_flags(alloc, command, false, &["trace", "stats", "races"])?.arg(file(alloc))
}

// Whether an option without a value was given.
fn is_from_words(matches: &ArgMatches<'_>, report: &str) -> bool
    ensures { result ≡ is_from_words (option_and_then (λ a. a.source) (matched_of (found_of matches.now) report.now)) }
{
    match matches.value_source(report) {
        Some(ValueSource::CommandLine) => true,
        Some(ValueSource::DefaultValue) => false,
        None => false,
    }
}

// The value of each option according to the matches.
fn raw_args<'a>(matches: &ArgMatches<'a>) -> RawArgs<'a>
    ensures mode { option_map (λ s. s.now) result.mode ≡ first_value (found_of matches.now) (codes "mode") }
    ensures procs { option_map (λ s. s.now) result.procs ≡ first_value (found_of matches.now) (codes "procs") }
    ensures workers { option_map (λ s. s.now) result.workers ≡ first_value (found_of matches.now) (codes "workers") }
    ensures fuel { option_map (λ s. s.now) result.fuel ≡ first_value (found_of matches.now) (codes "fuel") }
    ensures seed { option_map (λ s. s.now) result.seed ≡ first_value (found_of matches.now) (codes "seed") }
    ensures against { option_map (λ s. s.now) result.against ≡ first_value (found_of matches.now) (codes "against") }
    ensures trace { result.trace ≡ is_from_words (option_and_then (λ a. a.source) (matched_of (found_of matches.now) (codes "trace"))) }
    ensures stats { result.stats ≡ is_from_words (option_and_then (λ a. a.source) (matched_of (found_of matches.now) (codes "stats"))) }
    ensures races { result.races ≡ is_from_words (option_and_then (λ a. a.source) (matched_of (found_of matches.now) (codes "races"))) }
    ensures file { option_map (λ s. s.now) result.file ≡ first_value (found_of matches.now) (codes "FILE") }
{
    RawArgs {
        mode: matches.get_str("mode"),
        procs: matches.get_str("procs"),
        workers: matches.get_str("workers"),
        fuel: matches.get_str("fuel"),
        seed: matches.get_str("seed"),
        against: matches.get_str("against"),
        trace: is_from_words(matches, "trace"),
        stats: is_from_words(matches, "stats"),
        races: is_from_words(matches, "races"),
        file: matches.get_str("FILE"),
    }
}

/// Finds the value of each option. The error is `Usage` if an argument is none of the options and no file name, a value is missing, or an
/// option or the file is given twice, and `Memory` if it runs out of memory.
pub fn find_arguments<'a>(alloc: Global, words: &'a [String]) -> Result<RawArgs<'a>, WordsErr>
    ensures given { IfOk result (λ g. parse_values (map string_bytes words.now) ≡ Some (values_seen g)) }
    ensures usage { IfErr result (λ e. e ≡ Usage → parse_values (map string_bytes words.now) ≡ None) }
{
    if !all_stand(words) {
        return Err(WordsErr::Usage);
    }
    match command(alloc)?.try_get_matches_from(words) {
        Ok(matches) => Ok(raw_args(&matches)),
        Err(error) => match error.kind() {
            ErrorKind::OutOfMemory => Err(WordsErr::Memory),
            _ => Err(WordsErr::Usage),
        },
    }
}
