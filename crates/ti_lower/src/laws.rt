// The theorem that the code of every checked program is correct.

ghost use Rattle.ti_lang.specs.Program.Views.{program_of};
ghost use Rattle.ti_code.specs.Follows.{Follows};
ghost use Rattle.ti_lower.specs.Programs.{program_code};

use ti_rules::Checked;

/// The code of a checked program follows it: for each number of processes, each amount of fuel, each process and all answers that fit, it
/// has next the same action, fault or end as the program, at the same place.
pub fn code_follows(checked: &Checked)
    ensures { Follows (program_code (program_of checked.now.program.parts)) (program_of checked.now.program.parts) }
{}
