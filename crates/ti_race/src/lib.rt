//! Data races: which accesses of a recorded run race, the watcher that reports them, and the theorem that a run without races is
//! determinate.
#![tactic(auto)]

mod finding;
mod forms;
mod grid_layout;
mod history_index;
mod laws;
mod spots;
mod table;
mod uses;
mod watch;

pub use finding::{entry_races, races};
pub use laws::{determinate, races_are_told};
pub use watch::RaceWatch;
