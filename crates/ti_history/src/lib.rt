//! The history of a run in little memory: the accesses to fields and elements are kept in columns by type.
#![tactic(auto)]

mod columns;
mod counts;
mod head;
mod packed_entries;
mod packed_history;
mod reading;
mod slices;

pub use packed_entries::PackedEntries;
pub use packed_history::PackedHistory;
