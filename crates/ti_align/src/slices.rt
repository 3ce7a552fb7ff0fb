// Theorems about the program slice: the part of a program that all processes execute alike (see specs/Slice).

ghost use Rattle.std.specs.Prelude.{◌≡◌, ℕ, List};
ghost use Rattle.ti_base.specs.declared.entry.Answer.{Answer};
ghost use Rattle.ti_lang.specs.Program.Views.{program_of};
ghost use Rattle.ti_lang.specs.Meaning.Processes.{RunConfig};
ghost use Rattle.ti_align.specs.Alignment.{OfEveryRun};
ghost use Rattle.ti_align.specs.declared.slices.SliceStep.{SliceStep as Step};
ghost use Rattle.ti_align.specs.Slice.{SliceAnswers, SliceTells};

use ti_base::{CollKind, FaultKind, Place};
use ti_rules::Checked;

/// The state of the program slice after the outcomes of its departures so far.
#[derive(Clone, Copy, PartialEq, Eq)]
pub enum SliceStep {
    /// The slice arrives at a collective of this kind, at this place, with this argument.
    At(CollKind, Place, Option<u32>),
    /// The slice has ended.
    Ended,
    /// The slice faults at this place: in a single expression, by the root of a broadcast, by the depth of its calls or by the delete of
    /// a region that is already deleted.
    Faults(FaultKind, Place),
    /// The slice runs out of fuel.
    NoFuel,
    /// The outcome of this index, counted from 0, is the first that doesn't fit or that the slice doesn't reach.
    Unfit(u64),
}

/// In every run of a checked program, the slice accepts all outcomes that a process received at its departures. Each arrival of a process
/// is the one at which the slice arrives after the outcomes of the departures before it, and if a process has ended, the slice has ended
/// after the outcomes of all that process's departures.
pub fn slice_tells(checked: &Checked)
    ensures { OfEveryRun SliceTells (program_of checked.now.program.parts) }
{}

/// The slice of a checked program has exactly one answer (a `SliceStep`) for each list of outcomes.
pub fn one_slice_answer(checked: &Checked)
    ensures some { (procs fuel : ℕ) (outcomes : List Answer) → (x : Step)
        × SliceAnswers (record { program = program_of checked.now.program.parts; procs = procs; fuel = fuel }) outcomes x }
    ensures one { (n : RunConfig) (outcomes : List Answer) (x y : Step) → SliceAnswers n outcomes x → SliceAnswers n outcomes y → x ≡ y }
{}
