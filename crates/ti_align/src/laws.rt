// The theorems on alignment, types, scopes, owners and regions of runs. Each is a function with an empty body whose contract is the
// theorem: to use it, call it.
ghost use Rattle.std.specs.Prelude.{ℕ};
ghost use Rattle.ti_base.specs.declared.action.Action.{Action};
ghost use Rattle.ti_base.specs.declared.value.Value.{Value};
ghost use Rattle.ti_lang.specs.Program.Types.{ValueType};
ghost use Rattle.ti_lang.specs.Program.Classes.{ProgramView};
ghost use Rattle.ti_lang.specs.Program.Views.{program_of};
ghost use Rattle.ti_lang.specs.Meaning.Held.{Plain};
ghost use Rattle.ti_lang.specs.Meaning.Answers.{HasForm};
ghost use Rattle.ti_lang.specs.Meaning.Comp.{Wanted};
ghost use Rattle.ti_lang.specs.Meaning.Histories.{History, history_of};
ghost use Rattle.ti_lang.specs.Meaning.HeapAnswers.{IsAnswered};
ghost use Rattle.ti_align.specs.Alignment.{ArrivalsAgree, NoneAfterEnd, OfEveryRun, IsAligned};
ghost use Rattle.ti_align.specs.Stopping.{NoneImpossible, RoundsBalance, RegionsMade};
ghost use Rattle.ti_align.specs.Owners.{OwnersKept};
ghost use Rattle.ti_align.specs.HeapTyping.{HeapTyping, IsOf, NamesNothing};
ghost use Rattle.ti_align.specs.Existing.{OperandsExist};
ghost use Rattle.ti_align.specs.Heap.{FieldsFit, Elements, heap_typing_of, FieldsStorable, HeapFits, KeepsTypes};
ghost use Rattle.ti_align.specs.Typed.{RunTyped, TakenAsGiven};
ghost use Rattle.ti_align.specs.Scoped.{VariablesInScope};
ghost use Rattle.ti_align.specs.Formed.{ActionsFormed};
ghost use Rattle.ti_align.specs.Dangling.{NothingDangles};
ghost use Rattle.ti_align.specs.Counted.{CellsCounted};

use ti_rules::Checked;

/// In every run of a checked program, for every n, the nth arrivals of any two processes have the same place, kind, argument and single
/// part. This is the first part of alignment.
pub fn arrivals_agree(checked: &Checked)
    ensures { OfEveryRun ArrivalsAgree (program_of checked.now.program.parts) }
{}

/// In every run of a checked program, no process arrives at more collectives than a process that has ended. This is the second part of
/// alignment.
pub fn none_after_end(checked: &Checked)
    ensures { OfEveryRun NoneAfterEnd (program_of checked.now.program.parts) }
{}

/// A checked program is aligned: in every run, all processes that reach their nth collective reach the same one, with equal single
/// values; no process arrives more often than one that has ended; and if there is no fault and no process can append an entry, all have
/// ended. Also, in every run, each object or grid that a local reference names is in the memory of the reference's own process, and no
/// process uses or passes on an object or grid in a deleted region.
pub fn aligned(checked: &Checked)
    ensures aligned { IsAligned (program_of checked.now.program.parts) }
    ensures owners { OfEveryRun OwnersKept (program_of checked.now.program.parts) }
    ensures regions { OfEveryRun NothingDangles (program_of checked.now.program.parts) }
{}

/// In every run of a checked program, each variable of type region holds a region that was made, and each region that a process is about
/// to delete was made.
pub fn regions_made(checked: &Checked)
    ensures { OfEveryRun RegionsMade (program_of checked.now.program.parts) }
{}

/// In every run of a checked program, each action for which its process needn't wait yields an answer or a fault: none is impossible.
pub fn none_impossible(checked: &Checked)
    ensures { OfEveryRun NoneImpossible (program_of checked.now.program.parts) }
{}

/// In a checked program, points, domains and grids in the types of fields have one to three dimensions.
pub fn fields_fit(checked: &Checked)
    ensures { FieldsFit (program_of checked.now.program.parts) }
{}

/// In a checked program, the type of each field is one that a field may have (see `IsStorable`).
pub fn fields_storable(checked: &Checked)
    ensures { FieldsStorable (program_of checked.now.program.parts) }
{}

/// In every run of a checked program, a process has left each collective that it reached, except the one that it leaves next, if its next
/// action is a departure.
pub fn rounds_balance(checked: &Checked)
    ensures { OfEveryRun RoundsBalance (program_of checked.now.program.parts) }
{}

/// In every run of a checked program, the state agrees with the static types whenever a process is between two actions: each field, each
/// element and each variable holds a value of its type, in that type's canonical form, whether it was written or is still zero. What a
/// process contributes to a broadcast or an exchange is of the type at which it contributes. What it names in an action exists: an object
/// of a class that has the field, a grid of these elements and dimensions, a region that was made or none. The object or grid that it
/// uses is of the type of the reference through which it is used, and the type that the process expects is the one that the action
/// yields. The action's points and domains are canonical.
pub fn run_typed(checked: &Checked)
    ensures { OfEveryRun RunTyped (program_of checked.now.program.parts) }
{}

/// In every run of a checked program, all processes contribute values of one type at their nth arrivals, and what a process receives from
/// a broadcast or takes after an exchange is of that type.
pub fn taken_as_given(checked: &Checked)
    ensures { OfEveryRun TakenAsGiven (program_of checked.now.program.parts) }
{}

/// In every run of a checked program, the variables that a process uses in its next piece of work are in scope in its frame.
pub fn variables_in_scope(checked: &Checked)
    ensures { OfEveryRun VariablesInScope (program_of checked.now.program.parts) }
{}

/// In every run of a checked program, what a reference of local type names, if it isn't null, is in the memory of its own process: for a
/// local variable, of the process whose variable it is; for a field or an element, in the memory that the field or element is in; and an
/// action through a local reference uses an object or grid of the acting process.
pub fn owners_kept(checked: &Checked)
    ensures { OfEveryRun OwnersKept (program_of checked.now.program.parts) }
{}

/// In every run of a checked program, the values, points and domains in a process's next action are canonical.
pub fn actions_formed(checked: &Checked)
    ensures { OfEveryRun ActionsFormed (program_of checked.now.program.parts) }
{}

/// In every run of a checked program, the next action of a process neither uses nor passes on an object or grid in a deleted region; and
/// 0, which means no region, is never deleted.
pub fn nothing_dangles(checked: &Checked)
    ensures { OfEveryRun NothingDangles (program_of checked.now.program.parts) }
{}

/// In every run of a checked program, `cells_of` lists all cells: each cell that was written, each field that has a value, and each
/// element at a point of a grid's domain.
pub fn cells_are_counted(checked: &Checked)
    ensures { OfEveryRun (λ s es. CellsCounted s.program (history_of es)) (program_of checked.now.program.parts) }
{}

/// A value of a type that names no object, grid or region has the form of its type: a number is within its range, a point has coordinates
/// of 32 bits, and a rectangular domain is canonical.
pub fn values_have_forms()
    ensures { (w : HeapTyping) (type : ValueType) (value : Value) → NamesNothing type → IsOf w type (Plain value) → HasForm type value }
{}

/// If what a heap action names exists, the action is possible; after it, what was written to fields and elements is of their types,
/// everything that existed still exists, and its answer is of the type that the action yields.
pub fn heap_fits()
    ensures { (p : ProgramView) (elements : Elements) (h : History) (i : ℕ) (a : Action) (wanted : Wanted) → FieldsStorable p → IsAnswered p h → HeapFits p elements h
        → OperandsExist p (heap_typing_of i elements h) a wanted → KeepsTypes p elements h i a wanted }
{}
