//! Watchers, which observe the entries (events) of a run one by one and report on them: the interface, two of its implementations, and
//! the format of their lines.
#![tactic(auto)]

mod acts;
mod line;
mod stats;
mod trace;
mod values;
mod watch;

pub use acts::collective_name;
pub use line::Line;
pub use stats::StatsWatch;
pub use trace::TraceWatch;
pub use watch::Watch;
