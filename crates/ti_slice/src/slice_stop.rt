// Runs the program slice up to its next arrival, its end or its fault.

ghost use Rattle.std.specs.Prelude.{◌≡◌, IfOk};
ghost use Rattle.ti_base.specs.declared.action.Deposit.{Deposit};
ghost use Rattle.ti_base.specs.declared.action.Action.TheVariants.{Arrive};
ghost use Rattle.ti_base.specs.declared.entry.Next.TheVariants.{Act};
ghost use Rattle.ti_lang.specs.Program.Classes.{ProgramView};
ghost use Rattle.ti_lang.specs.Program.Views.{program_of};
ghost use Rattle.ti_lang.specs.Meaning.RoundsOf as rounds;
ghost use Rattle.ti_align.specs.Slice.{deletes_one, slice_step as slice_step_spec};
ghost use Rattle.ti_exec.specs.States.{process_of, after_answer, RequestsNext};
ghost use Rattle.ti_slice.specs.Mirrors.Answer.{IsArrival, IsFree, IsSliceStop, RunsToStop};

use crate::step::slice_step;
use std::alloc::Global;
use ti_base::{Action, CollKind, FaultKind, Memory, Place};
use ti_exec::{OnAnswer, PendingRequest, StepOutcome, TreeMachine};
use ti_rules::Checked;

/// The suspension of the slice: what it has next.
#[derive(Drop)]
pub enum SliceStop {
    /// It requests the arrival at a collective of this kind, with this argument and at this place; the answer has this effect.
    Arrives(CollKind, Option<u32>, Place, OnAnswer),
    Ends,
    Fails(FaultKind, Place),
}

// Whether the collective of this kind and with this argument deletes the region.
fn deletes(region: u32, kind: CollKind, arg: Option<u32>) -> bool
    ensures { result ≡ rounds.deletes region kind arg }
{
    match kind {
        CollKind::DeleteRegion => match arg {
            Some(n) => n == region,
            None => false,
        },
        _ => false,
    }
}

// Whether the collective deletes a region that has been deleted.
fn deletes_gone(gone: &[u32], kind: CollKind, arg: Option<u32>) -> bool
    ensures { (given : Deposit) → result ≡ deletes_one gone.now (Arrive kind arg given) }
{
    for region in gone {
        if deletes(*region, kind, arg) {
            return true;
        }
    }
    false
}

// The suspension at an arrival; at the deletion of a deleted region it is a fault.
fn stop_at(machine: &TreeMachine, gone: &[u32], asking: Box<PendingRequest>) -> SliceStop
    requires { IsArrival asking.value.action }
    ensures { (c : ProgramView) → RequestsNext (slice_step_spec (process_of c machine.now)) (Act asking.value.place asking.value.action)
        (after_answer c machine.now asking.value.on_answer) → IsSliceStop c machine.now gone.now result }
{
    let PendingRequest {
        place,
        action,
        on_answer,
    } = Box::into_inner(asking);
    match action {
        Action::Arrive { kind, arg, .. } => {
            if deletes_gone(gone, kind, arg) {
                SliceStop::Fails(FaultKind::RegionGone, place)
            } else {
                SliceStop::Arrives(kind, arg, place, on_answer)
            }
        }
        _ => unreachable!(),
    }
}

/// Runs silent steps up to where the slice is suspended.
pub fn run_to_stop(
    machine: &mut TreeMachine,
    alloc: Global,
    checked: &Checked,
    gone: &[u32],
) -> Result<SliceStop, Memory>
    requires { IsFree (program_of checked.now.program.parts) (process_of (program_of checked.now.program.parts) machine.old) }
    ensures { IfOk result (λ s. RunsToStop (program_of checked.now.program.parts) machine.old gone.now s machine.new) }
{
    'steps: loop {
        match slice_step(machine, alloc, checked)? {
            StepOutcome::Continue => {}
            StepOutcome::Request(asking) => return Ok(stop_at(machine, gone, asking)),
            StepOutcome::End(_) => return Ok(SliceStop::Ends),
            StepOutcome::Fault(kind, at) => return Ok(SliceStop::Fails(kind, at)),
        }
    }
}
