// An entry (event) of a run, parsed from a line of the trace.
ghost use Rattle.std.specs.Prelude.{◌<◌};

/// The maximum number of processes of a run.
pub(crate) const PROCESSES: usize = 32;

/// The kind of an entry's operation.
#[derive(Clone, Copy)]
pub(crate) enum Act {
    Read,
    Write,
    Make,
    Print,
    Arrive,
    Depart,
    End,
    Fault,
}

/// A source location.
#[derive(Clone, Copy)]
pub(crate) struct SourcePlace {
    pub(crate) line: u32,
    pub(crate) column: u32,
}

/// An entry: its process, its source location, the kind of its operation (`act`), and the operation (`done`) and its result (`answer`) as
/// the trace writes them.
#[derive(Clone, Copy)]
pub(crate) struct TraceEntry<'a> {
    pub(crate) process: usize,
    pub(crate) place: SourcePlace,
    pub(crate) act: Act,
    pub(crate) done: &'a str,
    pub(crate) answer: &'a str,
    ghost process_in_range: { process < 32 },
}
