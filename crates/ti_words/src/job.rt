// What the command line requests.
ghost use Rattle.std.specs.Prelude.{◌≡◌, IfOk, string_bytes};

use std::alloc::{AllocError, Global};
use std::marker::Model;

/// What to do.
#[derive(Clone, Copy, Debug, PartialEq, Eq)]
pub enum Mode {
    /// Run the program of the source file.
    Run,
    /// Check the source file only.
    Check,
    /// Print the bytecode of the program of the source file.
    Code,
    /// Generate a program from a seed and run it.
    Gen,
    /// Check a trace against the program of the source file.
    Verify,
    /// Infer the `single` annotations of the source file.
    Infer,
}

/// A file name. Contracts see it as the list of its bytes.
#[derive(Debug, Drop)]
pub struct FileName {
    text: String,
}

impl Model for FileName {
    ghost use Rattle.std.specs.Prelude.{ℕ, List, string_bytes};

    ghost Value = { List ℕ };

    ghost view = { λ f. string_bytes f.text };
}

impl FileName {
    /// An owned copy of this name.
    pub fn copy_of(alloc: Global, name: &str) -> Result<Self, AllocError>
        ensures { IfOk result (λ copy. copy ≡ name.now) }
    {
        Ok(FileName {
            text: String::from_str(alloc, name)?,
        })
    }

    /// The name as a string slice.
    pub fn as_str(&self) -> &str
        ensures { result.now ≡ self.now }
    {
        self.text.as_str()
    }
}

/// What the command line requests.
#[derive(Debug, Drop)]
pub struct Job {
    pub mode: Mode,
    /// The number of processes, from 1 to 32.
    pub procs: u32,
    /// The number of threads that carry them, from 1 to `procs`.
    pub workers: u32,
    /// The units of fuel that each process has; `procs * fuel` is at most 4,000,000.
    pub fuel: u32,
    /// The seed of the generated program in mode `Gen`; 1 in all others.
    pub seed: u32,
    /// Whether to report each entry (event) of the history.
    pub trace: bool,
    /// Whether to report how many entries of each kind there are.
    pub stats: bool,
    /// Whether to report the data races.
    pub races: bool,
    /// The name of the source file; empty in mode `Gen`.
    pub file: FileName,
    /// The name of the trace in mode `Verify`; empty in all others.
    pub against: FileName,
}
