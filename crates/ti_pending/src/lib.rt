//! A process of a run as a scheduler or a replay holds it, and one action of it on the store.
//!
//! Two crates run processes: ti_runtime, by a scheduler or on workers, and ti_trace_check, in the order of a trace. Both hold a process as it
//! is here, and know by the same definition that it is up to date with the history. What they do between its actions is theirs.
#![tactic(auto)]

mod pending;

pub use pending::{PendingProc, as_action};
