//! Test runner: runs the whole command on the sources of test cases and compares the results with the expected ones, which are in the files
//! of `data` only. Nothing is proved of the results.
#![tactic(auto)]

mod asked;
mod check_source;
mod collectives;
mod commands;
mod failing;
mod files;
mod fronts;
mod stages;
mod traces;
mod watchers;

use files::judge_files;
use std::io;

fn main(rt: HostRuntime) -> io::Result<()> {
    judge_files(&rt)
}
