// Removes all `single` annotations from a program, except at `main`: the program that inference starts from.

pub(crate) mod classes;
pub(crate) mod lists;
pub(crate) mod methods;
pub(crate) mod program;
pub(crate) mod stmts;
pub(crate) mod types;
