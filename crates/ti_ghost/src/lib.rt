//! A list of entries that only contracts see. It takes no memory and has no effect at run time.
#![tactic(auto)]

mod ghost_entries;

pub use ghost_entries::GhostEntries;
