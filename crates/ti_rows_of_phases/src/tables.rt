// Rows without a source: entries of the tables of rules and faults, generated programs, and how command-line arguments are read.

use crate::no_result::{MEMORY, NO_ROW, NoResult};
use std::alloc::{AllocError, Global};
use ti_base::{FaultKind, fault_name};
use ti_gen::gen_source;
use ti_row_files::bytes_of;
use ti_rules::{Rule, rule_text};
use ti_words::{Job, WordsErr, read_words};

/// The rules that a row can name by number.
const RULES: &[Rule] = &[
    Rule::X1,
    Rule::X2,
    Rule::X3,
    Rule::X4,
    Rule::X5,
    Rule::G1,
    Rule::G2,
    Rule::N1,
    Rule::N2,
    Rule::N3,
    Rule::N4,
    Rule::Y1,
    Rule::Y2,
    Rule::Y3,
    Rule::Y4,
    Rule::Y5,
    Rule::Y6,
    Rule::Y7,
    Rule::Y8,
    Rule::Q1,
    Rule::Q2,
    Rule::Q3,
    Rule::S1,
    Rule::S2,
    Rule::S3,
    Rule::S4,
    Rule::S5,
    Rule::S6,
    Rule::S7,
    Rule::S8,
    Rule::S9,
    Rule::B1,
];

/// The faults that a row can name by number.
const FAULTS: &[FaultKind] = &[
    FaultKind::DivZero,
    FaultKind::NullRef,
    FaultKind::Bounds,
    FaultKind::NotLocal,
    FaultKind::BadRoot,
    FaultKind::ExchangeDomain,
    FaultKind::BadStride,
    FaultKind::EmptyDomain,
    FaultKind::DomainSize,
    FaultKind::Range,
    FaultKind::HeapFull,
    FaultKind::RegionInUse,
    FaultKind::RegionGone,
    FaultKind::Depth,
    FaultKind::Fuel,
];

/// Finds a rule by its number.
fn rule_of(number: u32) -> Option<Rule> {
    for rule in RULES {
        if u32::from(rule.number()) == number {
            return Some(*rule);
        }
    }
    None
}

/// Finds a fault by its number.
fn fault_of(number: u32) -> Option<FaultKind> {
    for kind in FAULTS {
        if *kind as u32 == number {
            return Some(*kind);
        }
    }
    None
}

/// Row kind `rule`: the code of a rule and its text. `NO_ROW` if no rule has the number.
fn rule(alloc: Global, number: u32) -> Result<Vec<u8>, NoResult> {
    match rule_of(number) {
        Some(rule) => Ok(
            [rule.code(), " ", rule_text(rule)]
                .concat(alloc)?
                .into_bytes(),
        ),
        None => Err(NO_ROW),
    }
}

/// Row kind `fault`: the name of a fault. `NO_ROW` if no fault has the number.
fn fault(alloc: Global, number: u32) -> Result<Vec<u8>, NoResult> {
    match fault_of(number) {
        Some(kind) => Ok(fault_name(kind).as_bytes().to_vec(alloc)?),
        None => Err(NO_ROW),
    }
}

/// A checksum: the bytes as digits of a number in base 31, the most significant first, modulo 2^64.
fn sum_of(text: &[u8]) -> u64 {
    let mut sum = 0u64;
    for byte in text {
        sum = sum.wrapping_mul(31).wrapping_add(u64::from(*byte));
    }
    sum
}

/// Row kind `seed`: length in bytes and checksum of the program that is generated for a seed.
fn seed(alloc: Global, number: u32) -> Result<Vec<u8>, NoResult> {
    let text = gen_source(alloc, number)?;
    let shown = format!(in alloc; "{} bytes, sum {}", text.len(), sum_of(&text))?;
    Ok(shown.into_bytes())
}

/// A command-line argument, from how a row spells it: escapes are decoded, and `""` is the empty argument. `NO_ROW` if it isn't UTF-8.
fn word_of(alloc: Global, escaped: &str) -> Result<String, NoResult> {
    if escaped == "\"\"" {
        return Ok(String::new(alloc));
    }
    match String::from_utf8(bytes_of(alloc, escaped)?) {
        Ok(word) => Ok(word),
        Err(_) => Err(NO_ROW),
    }
}

/// The command-line arguments of a row, which whitespace separates.
fn words_of(alloc: Global, row: &str) -> Result<Vec<String>, NoResult> {
    let mut words = Vec::new(alloc);
    for word in row.split_ascii_whitespace() {
        words.push(word_of(alloc, word)?)?;
    }
    Ok(words)
}

/// A job as a row expects it: its mode, numbers and file, and those options that are set.
fn shown_job(alloc: Global, job: &Job) -> Result<String, AllocError> {
    let trace = if job.trace { " trace" } else { "" };
    let stats = if job.stats { " stats" } else { "" };
    let races = if job.races { " races" } else { "" };
    let mut shown = format!(in alloc;
        "{:?} procs {} workers {} fuel {} seed {}{trace}{stats}{races} file \"{}\"",
        job.mode,
        job.procs,
        job.workers,
        job.fuel,
        job.seed,
        job.file.as_str()
    )?;
    let against = job.against.as_str();
    if !against.is_empty() {
        shown.push_str(&format!(in alloc; " against \"{against}\"")?)?;
    }
    Ok(shown)
}

/// Row kind `job`: what titan is to do for the command-line arguments of a row; `no command` if they aren't valid.
pub(crate) fn job(alloc: Global, row: &str) -> Result<Vec<u8>, NoResult> {
    let words = words_of(alloc, row)?;
    match read_words(alloc, &words) {
        Ok(job) => Ok(shown_job(alloc, &job)?.into_bytes()),
        Err(WordsErr::Usage) => Ok(b"no command".to_vec(alloc)?),
        Err(WordsErr::Memory) => Err(MEMORY),
    }
}

/// Looks a number up in the table that a row kind names; for any kind but `rule`, `fault` and `seed`, generates the program of that seed.
fn found_at(alloc: Global, asked: &str, number: u32) -> Result<Vec<u8>, NoResult> {
    match asked {
        "rule" => rule(alloc, number),
        "fault" => fault(alloc, number),
        "seed" => seed(alloc, number),
        _ => Ok(gen_source(alloc, number)?),
    }
}

/// Row kinds `rule`, `fault`, `seed` and `source`: what belongs to the number that a row spells. `NO_ROW` if it spells no `u32`.
pub(crate) fn table_row(alloc: Global, asked: &str, row: &str) -> Result<Vec<u8>, NoResult> {
    match row.parse::<u32>() {
        Ok(number) => found_at(alloc, asked, number),
        Err(_) => Err(NO_ROW),
    }
}
