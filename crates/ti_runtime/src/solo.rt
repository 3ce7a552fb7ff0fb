// The scheduler of one worker: all processes of a run on one thread.

pub(crate) mod cursor;
pub(crate) mod scheduler;
pub(crate) mod step;
