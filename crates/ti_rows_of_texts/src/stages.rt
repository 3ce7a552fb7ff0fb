// The test environment of a command (its stage): calls that fail, watchers, and processes that a gate holds. Parsed from what follows
// ` / ` in a row.

use crate::watchers::Handed;

/// Two processes, each held at its second operation until the other has reached its own, or until it has polled `looks` times.
#[derive(Clone, Copy)]
pub(crate) struct HeldPair {
    pub(crate) one: u32,
    pub(crate) other: u32,
    pub(crate) looks: u64,
}

/// Which call of the file system or of an output stream fails.
#[derive(Clone, Copy)]
pub(crate) enum Fails {
    Never,
    /// The call with this index.
    At(u32),
    /// In run n of several runs, the call with index n.
    Each,
}

impl Fails {
    /// Resolves `Each` for the run with this number.
    fn in_run(self, number: u32) -> Fails {
        match self {
            Fails::Each => Fails::At(number),
            _ => self,
        }
    }
}

/// The environment of a command. `source`, `out` and `err` select the failing calls of the file system, standard output and standard error.
#[derive(Clone, Copy)]
pub(crate) struct Stage {
    pub(crate) source: Fails,
    pub(crate) out: Fails,
    pub(crate) err: Fails,
    /// How many bytes standard output accepts in all.
    pub(crate) room: usize,
    /// The watchers that are passed to the command, in order.
    pub(crate) watchers: [Option<Handed>; 3],
    /// The processes that the gate holds, if any.
    pub(crate) held: Option<HeldPair>,
}

impl Stage {
    /// The stage of the run with this number, where `Each` is resolved.
    pub(crate) fn in_run(self, number: u32) -> Stage {
        Stage {
            source: self.source.in_run(number),
            out: self.out.in_run(number),
            err: self.err.in_run(number),
            ..self
        }
    }
}

/// The default capacity of an output stream, in bytes.
pub(crate) const ROOM: usize = 200_000;

/// The default stage: no call fails, and the watchers are those that the executable passes.
pub(crate) const PLAIN: Stage = Stage {
    source: Fails::Never,
    out: Fails::Never,
    err: Fails::Never,
    room: ROOM,
    watchers: [
        Some(Handed::Trace),
        Some(Handed::Stats),
        Some(Handed::Races),
    ],
    held: None,
};

/// Parses the name of a watcher.
fn handed_of(word: &str) -> Option<Handed> {
    match word {
        "trace" => Some(Handed::Trace),
        "told-trace" => Some(Handed::ToldTrace),
        "stats" => Some(Handed::Stats),
        "races" => Some(Handed::Races),
        "deaf" => Some(Handed::Deaf),
        "mute" => Some(Handed::Mute),
        _ => None,
    }
}

/// Parses one to three names of watchers such as `trace` or `stats,trace`.
fn watcher_names(word: &str) -> Option<[Option<Handed>; 3]> {
    let Some((first, rest)) = word.split_once(',') else {
        return Some([Some(handed_of(word)?), None, None]);
    };
    let first = Some(handed_of(first)?);
    match rest.split_once(',') {
        Some((second, third)) => Some([first, Some(handed_of(second)?), Some(handed_of(third)?)]),
        None => Some([first, Some(handed_of(rest)?), None]),
    }
}

/// Sets the watchers of a stage from a list of names or `none`.
fn with_watchers(stage: Stage, word: &str) -> Option<Stage> {
    let watchers = if word == "none" {
        [None, None, None]
    } else {
        watcher_names(word)?
    };
    Some(Stage { watchers, ..stage })
}

/// Parses a word such as `0:1:1000`: the processes 0 and 1, and 1000 polls.
fn held_of(word: &str) -> Option<HeldPair> {
    let (one, behind) = word.split_once(':')?;
    let (other, looks) = behind.split_once(':')?;
    Some(HeldPair {
        one: one.parse::<u32>().ok()?,
        other: other.parse::<u32>().ok()?,
        looks: looks.parse::<u64>().ok()?,
    })
}

/// Sets the held processes of a stage.
fn with_held(stage: Stage, word: &str) -> Option<Stage> {
    let held = held_of(word)?;
    Some(Stage {
        held: Some(held),
        ..stage
    })
}

/// Sets the capacity of a stage's standard output, in bytes.
fn with_room(stage: Stage, word: &str) -> Option<Stage> {
    let room = word.parse::<u32>().ok()? as usize;
    Some(Stage { room, ..stage })
}

/// Parses the index of a failing call such as `4`, or `each`.
fn fails_of(word: &str) -> Option<Fails> {
    match word {
        "each" => Some(Fails::Each),
        _ => Some(Fails::At(word.parse::<u32>().ok()?)),
    }
}

/// Applies a setting such as `out:4` to a stage; none if it is malformed.
fn with(stage: Stage, word: &str) -> Option<Stage> {
    let (part, value) = word.split_once(':')?;
    match part {
        "watch" => return with_watchers(stage, value),
        "hold" => return with_held(stage, value),
        "room" => return with_room(stage, value),
        _ => {}
    }
    let call = fails_of(value)?;
    match part {
        "source" => Some(Stage {
            source: call,
            ..stage
        }),
        "out" => Some(Stage { out: call, ..stage }),
        "err" => Some(Stage { err: call, ..stage }),
        _ => None,
    }
}

/// Parses settings such as `source:0 out:1 watch:stats,trace hold:0:1:1000`, which override the default stage.
fn stage_of(words: &str) -> Option<Stage> {
    let mut stage = PLAIN;
    for word in words.split_ascii_whitespace() {
        stage = with(stage, word)?;
    }
    Some(stage)
}

/// Splits what a row gives into the command line and the stage after ` / `, by default `PLAIN`.
pub(crate) fn split_stage(given: &str) -> Option<(&str, Stage)> {
    if let Some(words) = given.strip_prefix("/ ") {
        return Some(("", stage_of(words)?));
    }
    match given.split_once(" / ") {
        Some((words, stage)) => Some((words, stage_of(stage)?)),
        None => Some((given, PLAIN)),
    }
}
