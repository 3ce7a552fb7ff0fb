// Verdicts.

use ti_history::PackedHistory;

/// The verdict on a trace.
#[derive(Drop)]
pub enum Verdict {
    /// The trace is that of this complete run.
    Run(PackedHistory),
    /// The trace is that of no complete run: the number of its first wrong line, counted from 1, and the run of the lines before it.
    NoRun(u64, PackedHistory),
}
