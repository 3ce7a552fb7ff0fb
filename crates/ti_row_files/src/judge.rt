// The interface to a program that computes results.

use crate::error::RowErr;

/// The input of a row.
#[derive(Clone, Copy)]
pub struct Row<'a> {
    /// What comes before `<-`; `None` if the row has no `<-`.
    pub given: Option<&'a str>,
    /// The input as the row writes it.
    pub spelled: &'a str,
    /// The bytes of the input, decoded and with the context that the heading names.
    pub text: &'a [u8],
}

/// Computes the results of inputs.
pub trait Judge {
    /// The result of an input below a heading that requests `asked`, such as `tokens`.
    fn answer(&self, asked: &str, row: Row) -> Result<Vec<u8>, RowErr>;
}
