// Theorems about races: functions with an empty body whose contracts are the theorems.
ghost use Rattle.std.specs.Prelude.{◌≡◌, ◌≤◌, List};
ghost use Rattle.ti_base.specs.declared.entry.Entry.{Entry as Listed};
ghost use Rattle.ti_lang.specs.Program.Views.{program_of};
ghost use Rattle.ti_lang.specs.Meaning.Processes.{RunConfig};
ghost use Rattle.ti_lang.specs.Meaning.Runs.{IsRun};
ghost use Rattle.ti_align.specs.Alignment.{IsAligned, most_procs, most_fuel};
ghost use Rattle.ti_align.specs.Formed.{ActionsFormed};
ghost use Rattle.ti_lang.specs.Meaning.Races.{races};
ghost use Rattle.ti_lang.specs.Meaning.Spots.{races_told};
ghost use Rattle.ti_lang.specs.Meaning.Determinacy.{Determines};

use ti_history::PackedHistory;
use ti_lang::program::Program;

/// Determinacy: if a run of an aligned program has no race and all processes terminated in it, then in every run of that program with as
/// many processes and as much fuel, the entries of each process are a prefix of its entries in this run.
pub fn determinate(program: &Program, procs: u32, fuel: u32, history: &PackedHistory)
    requires some_procs { 1 ≤ procs }
    requires few_procs { procs ≤ most_procs }
    requires some_fuel { 1 ≤ fuel }
    requires little_fuel { fuel ≤ most_fuel }
    requires is_aligned { IsAligned (program_of program.now.parts) }
    requires is_run { IsRun (record { program = program_of program.now.parts; procs = procs; fuel = fuel }) history.now.items }
    ensures { Determines (record { program = program_of program.now.parts; procs = procs; fuel = fuel }) history.now.items }
{}

/// Which entries of a run race is determined by the entries only, without the program: two accesses refer to one memory location if and
/// only if the same entry created its object or grid and the offset is the same. Requires that what processes contribute is canonical,
/// as in every run of a checked program.
pub fn races_are_told()
    ensures { (s : RunConfig) (es : List Listed) → IsRun s es → ((ds : List Listed) → IsRun s ds → ActionsFormed s ds) → races es
        ≡ races_told es }
{}
