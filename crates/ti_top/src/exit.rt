// The end of a call: its status, and its line on standard error.
ghost use Rattle.std.specs.Prelude.{◌≡◌, ◌≤◌, length, OnOk};
ghost use Rattle.ti_base.specs.FaultNames.{name_of};
ghost use Rattle.ti_io.specs.Sink.{Writes};
ghost use Rattle.ti_rules.specs.Rules.{code_of, text_of};
ghost use Rattle.ti_top.specs.Mirrors.EndsWithLine.{EndsWithLine};
ghost use Rattle.ti_top.specs.Mirrors.Leaving.{HasNoFailure};
ghost use Rattle.ti_top.specs.Exit.{status_of, refused_as, fault_line as fault_spec, no_run_line as no_run_spec, err_line};

use crate::fault::Fault;
use ti_base::{FaultKind, Memory, fault_name};
use ti_io::{Failed, Sink, write_piece};
use ti_rules::{Refusal, Rule, rule_text};
use ti_watch::Line;

/// How a call ends, before its line on standard error is written.
#[derive(Clone, Copy, PartialEq, Eq)]
pub enum Exit {
    /// The command succeeded.
    Done,
    /// The text is refused.
    Refused(Refusal),
    /// The run ended with a fault.
    Faulted(Fault),
    /// The arguments are no command.
    NoCommand,
    /// The file or the trace can't be read.
    CantRead,
    /// A write failed.
    CantWrite,
    /// Out of memory.
    NoMemory,
    /// The trace is wrong at this line, counted from 1.
    NoRun(u64),
}

impl Exit {
    /// The status of this ending.
    pub fn status(self) -> u8
        ensures { result ≡ status_of self }
    {
        match self {
            Exit::Done => 0,
            Exit::Refused(_) => 1,
            Exit::Faulted(_) => 2,
            Exit::NoCommand => 3,
            Exit::CantRead => 4,
            Exit::CantWrite => 5,
            Exit::NoMemory => 6,
            Exit::NoRun(_) => 7,
        }
    }
}

impl From<Memory> for Exit {
    ghost use Rattle.std.specs.Prelude.{◌≡◌};
    ghost use Rattle.ti_top.specs.declared.exit.Exit.TheVariants.{NoMemory};

    ghost from_gives = { λ _ found. found ≡ NoMemory };

    fn from(_: Memory) -> Exit {
        Exit::NoMemory
    }
}

impl From<Failed> for Exit {
    ghost use Rattle.std.specs.Prelude.{◌≡◌};
    ghost use Rattle.ti_top.specs.declared.exit.Exit.TheVariants.{CantWrite};

    ghost from_gives = { λ _ found. found ≡ CantWrite };

    fn from(_: Failed) -> Exit {
        Exit::CantWrite
    }
}

// The code of a rule. It fits a line.
fn code_bytes(rule: Rule) -> &'static [u8]
    ensures value { result.now ≡ code_of rule }
    ensures short { length result.now ≤ 2 }
{
    rule.code().as_bytes()
}

// The text of a rule. It fits a line.
fn text_bytes(rule: Rule) -> &'static [u8]
    ensures value { result.now ≡ text_of rule }
    ensures short { length result.now ≤ 64 }
{
    rule_text(rule).as_bytes()
}

// The name of a fault. It fits a line.
fn name_bytes(kind: FaultKind) -> &'static [u8]
    ensures value { result.now ≡ name_of kind }
    ensures short { length result.now ≤ 16 }
{
    fault_name(kind).as_bytes()
}

// The line of a refused text, after the name of the file.
fn refused_line(refusal: Refusal) -> Line
    ensures { result ≡ refused_as refusal }
{
    let mut line = Line::new();
    line.text(b":");
    line.number(refusal.place.line);
    line.text(b":");
    line.number(refusal.place.col);
    line.text(b": ");
    line.text(code_bytes(refusal.rule));
    line.text(b" ");
    line.text(text_bytes(refusal.rule));
    line.text(b"\n");
    line
}

// The line of a fault.
fn fault_line(fault: Fault) -> Line
    ensures { result ≡ fault_spec fault }
{
    let mut line = Line::new();
    line.text(b"titan: fault ");
    line.text(name_bytes(fault.kind));
    line.text(b" in process ");
    line.number(fault.proc);
    line.text(b" at ");
    line.number(fault.place.line);
    line.text(b":");
    line.number(fault.place.col);
    line.text(b"\n");
    line
}

// The line of a wrong trace.
fn no_run_line(number: u64) -> Line
    ensures { result ≡ no_run_spec number }
{
    let mut line = Line::new();
    line.text(b"titan: the trace is no run at line ");
    line.number(number);
    line.text(b"\n");
    line
}

// Writes the line of a refused text, first the name of the file, since its length has no bound.
fn write_refused<K: Sink>(err: &mut K, file: &str, refusal: Refusal) -> Result<(), Failed>
    ensures { Writes (err_line (Exit.Refused refusal) file.now) (K.state err.old) (K.state err.new) result }
{
    write_piece(err, file.as_bytes())?;
    write_piece(err, refused_line(refusal).as_slice())
}

// Writes the line of an ending.
fn write_line<K: Sink>(err: &mut K, ending: Exit, file: &str) -> Result<(), Failed>
    ensures { Writes (err_line ending file.now) (K.state err.old) (K.state err.new) result }
{
    match ending {
        Exit::Done => Ok(()),
        Exit::Refused(refusal) => write_refused(err, file, refusal),
        Exit::Faulted(fault) => write_piece(err, fault_line(fault).as_slice()),
        Exit::NoCommand => write_piece(err, b"titan: the words are no command\n"),
        Exit::CantRead => write_piece(err, b"titan: the source can't be read\n"),
        Exit::CantWrite => write_piece(err, b"titan: the output can't be written\n"),
        Exit::NoMemory => write_piece(err, b"titan: no memory\n"),
        Exit::NoRun(line) => write_piece(err, no_run_line(line).as_slice()),
    }
}

// Writes the line of an ending, and flushes standard error.
fn write_through<K: Sink>(err: &mut K, ending: Exit, file: &str) -> Result<(), Failed>
    ensures written { Writes (err_line ending file.now) (K.state err.old) (K.state err.new) result }
    ensures unfailed { OnOk result (HasNoFailure (K.state err.old) (K.state err.new)) }
{
    write_line(err, ending, file)?;
    err.flush()
}

/// Writes the line of an ending to standard error, and returns the status of the call: that of the ending, or 5 if the write failed.
pub fn end_with<K: Sink>(err: &mut K, ending: Exit, file: &str) -> u8
    ensures { EndsWithLine ending file.now (K.state err.old) (K.state err.new) result }
{
    if let Exit::Done = ending {
        return 0;
    }
    match write_through(err, ending, file) {
        Ok(()) => ending.status(),
        Err(_) => Exit::CantWrite.status(),
    }
}
