//! Differential test: runs the programs in the files that the arguments name, by their code and by their syntax trees, and compares the two
//! executions. Prints each program that differs, with its first difference; then how many programs agree with one worker and with a worker
//! per process, the number of their events, and how many pass the check with inferred `single` annotations; then two hand-written programs.
//! Nothing is proved of the programs.
#![tactic(auto)]

mod by_code;
mod by_trees;
mod comparison;
mod course;
mod forms;
mod inferred;
mod made_by_hand;
mod phases;
mod programs;
mod replay;
mod telling;

use made_by_hand::tell_made;
use programs::{Count, judge_file};
use std::{env, io};

fn main(rt: HostRuntime) -> io::Result<()> {
    let mut count = Count {
        programs: 0,
        entries: 0,
        on_threads: 0,
        remarked: 0,
    };
    for file in env::args(&rt)?.skip(1) {
        count = judge_file(&rt, file.as_str(), count)?;
    }
    let Count {
        programs,
        entries,
        on_threads,
        remarked,
    } = count;
    println!(rt; "{programs} programs agree, {entries} entries")?;
    println!(rt; "{on_threads} programs agree by as many workers as processes")?;
    println!(rt; "{remarked} programs break no rule with the marks inferred for them")?;
    tell_made(&rt)
}
