// Adds the annotations of a marking to a program without annotations.

pub(crate) mod methods;
pub(crate) mod program;
pub(crate) mod stmts;
