// Sources and sinks in memory, for tests: a caller chooses the bytes, the size of the pieces and which calls fail.

pub(crate) mod schedule;
pub(crate) mod sink;
pub(crate) mod source;
