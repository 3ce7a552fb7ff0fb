//! A turnstile: a lock around one value. One pass at a time holds the lock: it is then *inside*, and has the value.
//!
//! The value has an append-only log of items, each with a number. A pass has a number and appends only items with that number. So
//! whatever the schedule, there is one log, and each pass has seen a prefix of it.
#![tactic(auto)]

mod kept;
mod protocol;
mod seat_view;
mod turnstile;

pub use kept::Kept;
pub use turnstile::{Inside, Pass, Turnstile};
