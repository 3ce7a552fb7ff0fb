// Errors of the public expression parser.

use thiserror::Error;
use ti_rules::Refusal;

/// Why `parse_expr` fails: a syntax error of the program, or out of memory.
#[derive(Debug, Drop, Error)]
pub enum ParseErr {
    #[error("the text is refused")]
    Refused(Refusal),
    #[error("out of memory")]
    Memory,
}
