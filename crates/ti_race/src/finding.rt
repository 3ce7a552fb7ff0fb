// The entry points: which entries (events) of a list race.
ghost use Rattle.std.specs.Prelude.{◌≡◌, List, map, IfOk};
ghost use Rattle.ti_base.specs.declared.entry.Entry.{Entry as Listed};
ghost use Rattle.ti_lang.specs.Program.Views.{program_of};
ghost use Rattle.ti_lang.specs.Meaning.Races.{races as race_numbers};
ghost use Rattle.ti_lang.specs.Meaning.Runs.{IsRun};
ghost use Rattle.ti_lang.specs.Meaning.Spots.{races_told};
ghost use Rattle.ti_align.specs.Formed.{ActionsFormed};

use crate::laws::races_are_told;
use crate::spots::Use;
use crate::table::racing_of;
use crate::uses::uses_of;
use std::alloc::Global;
use ti_base::{Entry, Memory};
use ti_lang::program::Program;

// The numbers of the entries of these accesses.
fn numbers_of(alloc: Global, uses: &[Use]) -> Result<Vec<u32>, Memory>
    ensures { IfOk result (λ numbers. numbers.items ≡ map (λ u. u.number) uses.now) }
{
    let mut numbers = Vec::new(alloc);
    for u in uses {
        numbers.push(u.number)?;
    }
    Ok(numbers)
}

/// The numbers of the entries that race, of any list of entries, from 0 and increasing. Which memory location an access refers to is
/// determined by the entries before it only. Errors if it runs out of memory, or if there are more than 2^32 - 1 entries.
pub fn entry_races(alloc: Global, entries: &[Entry]) -> Result<Vec<u32>, Memory>
    ensures { IfOk result (λ numbers. numbers.items ≡ races_told entries.now) }
{
    let uses = uses_of(alloc, entries)?;
    let racing = racing_of(alloc, &uses.found)?;
    let numbers = numbers_of(alloc, &racing)?;
    Ok(numbers)
}

/// The numbers of the entries of a run that race, from 0 and increasing. Two entries race if two processes access one memory location
/// with no collective between them, and at least one of them writes. Errors if it runs out of memory, or if there are more than 2^32 - 1
/// entries.
pub fn races(
    alloc: Global,
    program: &Program,
    procs: u32,
    fuel: u32,
    entries: &[Entry],
) -> Result<Vec<u32>, Memory>
    requires is_run { IsRun (record { program = program_of program.now.parts; procs = procs; fuel = fuel }) entries.now }
    requires formed { (es : List Listed) → IsRun (record { program = program_of program.now.parts; procs = procs; fuel = fuel }) es
        → ActionsFormed (record { program = program_of program.now.parts; procs = procs; fuel = fuel }) es }
    ensures { IfOk result (λ numbers. numbers.items ≡ race_numbers entries.now) }
{
    races_are_told();
    let numbers = entry_races(alloc, entries)?;
    Ok(numbers)
}
