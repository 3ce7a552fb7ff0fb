// The scheduler of several workers: each runs its processes on a thread of its own, and they share the store through a turnstile.

pub(crate) mod assigned;
pub(crate) mod joined;
pub(crate) mod scope;
pub(crate) mod spawn;
pub(crate) mod task;
pub(crate) mod worker;
