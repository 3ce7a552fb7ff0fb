// A process and the number of processes.

ghost use Rattle.std.specs.Prelude.{◌<◌, ◌^◌};

/// A process and the number of processes; both numbers are ints of the language.
#[derive(Clone, Copy)]
pub struct Rank {
    /// The number of the process, from 0 on.
    pub number: u32,
    pub procs: u32,
    pub ghost number_fits: { number < 2 ^ 31 },
    pub ghost procs_fit: { procs < 2 ^ 31 },
}
