//! Tests single phases of titan on rows, each of which is an input with the expected result: tokens, trees, programs, types and values of
//! expressions, actions of processes, and entries of tables. The rows are in the files of `data`, and nothing about them is proved.
#![tactic(auto)]

mod asked;
mod debug_text;
mod evaluation;
mod known;
mod no_result;
mod phases;
mod program_text;
mod slices;
mod tables;
mod things;
mod tree_text;
mod typing;
mod walks;

use asked::Phases;
use std::io;
use ti_row_files::judge_files;

fn main(rt: HostRuntime) -> io::Result<()> {
    judge_files(&rt, &Phases::new(rt.alloc()))
}
