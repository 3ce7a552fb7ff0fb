//! A test runner for files of rows (test cases): each row is an input with its expected result. A program implements `Judge`, which
//! computes the result of an input; this crate reads the files, prints each failing row with its actual result, and after each file the
//! number of rows that pass.
#![tactic(auto)]

mod error;
mod files;
mod judge;
mod judging;
mod lines;
mod texts;

pub use error::RowErr;
pub use files::{contents, judge_files, report, report_line};
pub use judge::{Judge, Row};
pub use judging::{RowInput, input_of};
pub use lines::{FileLine, FileRow, lines_of};
pub use texts::bytes_of;
