// Theorems about every run: names of objects and grids, the regions they are in, and the answers to actions.
ghost use Rattle.std.specs.Prelude.{◌≡◌};
ghost use Rattle.ti_lang.specs.Program.Views.{program_of};
ghost use Rattle.ti_align.specs.Alignment.{OfEveryRun};
ghost use Rattle.ti_align.specs.Answering.{AnswersFit};
ghost use Rattle.ti_align.specs.Names.{RunNamesFit};
ghost use Rattle.ti_align.specs.Placed.{ThingsPlaced};

use ti_rules::Checked;

/// In every run of a checked program, names of objects and grids and numbers of regions fit in 32 bits.
pub fn names_fit(checked: &Checked)
    ensures { OfEveryRun RunNamesFit (program_of checked.now.program.parts) }
{}

/// In every run of a checked program, each object, grid or view is in no region or in one that was made, and so is each one that a
/// process makes next.
pub fn regions_named(checked: &Checked)
    ensures { OfEveryRun ThingsPlaced (program_of checked.now.program.parts) }
{}

/// In every run of a checked program, the answer that a process receives fits what it expects: if it reads a field, an element, a domain
/// or another process's contribution, a value in the form of its static type, with numbers and names within their ranges; if it makes an
/// object, a grid or a region, the new one's name; otherwise no value.
pub fn answers_fit(checked: &Checked)
    ensures { OfEveryRun AnswersFit (program_of checked.now.program.parts) }
{}
