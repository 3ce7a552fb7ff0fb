// The processes that the workers hand back, in the order of their numbers again.
//
// Closing takes no memory, so that it can't fail: the vectors for it are allocated before the first worker starts (`JoinBuffers`).
ghost use Rattle.std.specs.Prelude.{◌≡◌, ◌≢◌, ◌<◌, ◌≤◌, ◌-◌, ℕ, [], length, All, IfOk, Some, None, slice_index_or, vec_len, vec_capacity};
ghost use Rattle.ti_turnstile.specs.Turnstiles.{identity_of, passes_of, AreOf};
ghost use Rattle.ti_pending.specs.declared.pending.PendingProc.{PendingProc as OneProc};
ghost use Rattle.ti_runtime.specs.Mirrors.Tasks.{BelongsTo};
ghost use Rattle.ti_runtime.specs.Mirrors.Joined.{NoneFilled, IsBack, ArePlaced};
ghost use Rattle.ti_pending.specs.UpToDate.{AllUpToDate};

use crate::code_of::CodeOf;
use crate::threads::task::Task;
use std::alloc::Global;
use ti_base::{Entry, Memory};
use ti_pending::PendingProc;
use ti_store::{RunConfigOf, Store};
use ti_turnstile::{Kept, Pass, Turnstile};

/// Empty vectors for the passes and the processes that come back, with room for all of them.
#[derive(Drop)]
pub struct JoinBuffers<J: RunConfigOf>
where
    Store<J>: Kept<Item = Entry>,
{
    pub passes: Vec<Pass<Store<J>>>,
    pub places: Vec<Option<PendingProc>>,
    pub processes: Vec<PendingProc>,
}

/// The store with all entries, and all processes in the order of their numbers.
#[derive(Drop)]
pub struct Joined<J: RunConfigOf> {
    pub store: Store<J>,
    pub processes: Vec<PendingProc>,
}

// All passes, and a place for each process, the last process first.
struct Unsorted<J: RunConfigOf>
where
    Store<J>: Kept<Item = Entry>,
{
    passes: Vec<Pass<Store<J>>>,
    places: Vec<Option<PendingProc>>,
}

// An empty place for each process.
fn free_places(alloc: Global, procs: u32) -> Result<Vec<Option<PendingProc>>, Memory>
    ensures count { IfOk result (λ v. length v.items ≡ procs) }
    ensures free { IfOk result (λ v. NoneFilled v.items) }
{
    let mut places = Vec::with_capacity(alloc, procs as usize)?;
    for _p in 0..procs {
        places.push(None)?;
    }
    Ok(places)
}

/// Allocates for `procs` processes.
pub fn room_for<J: RunConfigOf>(alloc: Global, procs: u32) -> Result<JoinBuffers<J>, Memory>
    ensures passes { IfOk result (λ r. (r.passes.items ≡ []) × (procs ≤ vec_capacity r.passes)) }
    ensures places { IfOk result (λ r. (length r.places.items ≡ procs) × NoneFilled r.places.items) }
    ensures processes { IfOk result (λ r. (r.processes.items ≡ []) × (procs ≤ vec_capacity r.processes)) }
{
    let passes = Vec::with_capacity(alloc, procs as usize)?;
    let processes = Vec::with_capacity(alloc, procs as usize)?;
    let places = free_places(alloc, procs)?;
    Ok(JoinBuffers {
        passes,
        places,
        processes,
    })
}

// Takes the tasks apart, and puts each process into its place.
fn place_all<J: RunConfigOf + CodeOf>(
    turnstile: &Turnstile<Store<J>>,
    mut tasks: Vec<Task<J>>,
    mut passes: Vec<Pass<Store<J>>>,
    mut places: Vec<Option<PendingProc>>,
) -> Unsorted<J>
    requires tasks { All (BelongsTo (identity_of turnstile.now)) tasks.items }
    requires passes { passes.items ≡ [] }
    requires room { vec_len tasks ≤ vec_capacity passes }
    requires places { length places.items ≡ J.config.procs }
    requires free { NoneFilled places.items }
    ensures count { length result.passes.items ≡ length tasks.items }
    ensures turnstile { AreOf (identity_of turnstile.now) result.passes.items }
    ensures places { length result.places.items ≡ J.config.procs }
    ensures placed { ArePlaced J.config.procs result.places.items result.passes.items }
    ensures back { IsBack J.code J.config result.places.items result.passes.items }
{
    let last = places.len();
    while let Some(task) = tasks.pop() {
        let (number, pending, pass) = task.into_parts();
        passes.push_reserved(pass);
        places[last - 1 - number as usize] = Some(pending);
    }
    Unsorted { passes, places }
}

// The processes, the first one first.
fn in_order(
    mut places: Vec<Option<PendingProc>>,
    mut processes: Vec<PendingProc>,
) -> Vec<PendingProc>
    requires filled { (i : ℕ) → i < length places.items → slice_index_or places.items i None ≢ None }
    requires empty { processes.items ≡ [] }
    requires room { vec_len places ≤ vec_capacity processes }
    ensures count { length result.items ≡ length places.items }
    ensures each { (d : OneProc) (k : ℕ) → k < length result.items → slice_index_or places.items (length places.items - 1 - k) None
        ≡ Some (slice_index_or result.items k d) }
{
    while let Some(place) = places.pop() {
        match place {
            Some(pending) => processes.push_reserved(pending),
            None => unreachable!(),
        }
    }
    processes
}

/// Closes the turnstile with all passes, and returns the store and the processes in the order of their numbers.
pub fn join_workers<J: RunConfigOf + CodeOf>(
    turnstile: Turnstile<Store<J>>,
    tasks: Vec<Task<J>>,
    room: JoinBuffers<J>,
) -> Joined<J>
    requires turnstile { All (BelongsTo (identity_of turnstile)) tasks.items }
    requires all { length tasks.items ≡ passes_of turnstile }
    requires procs { passes_of turnstile ≡ J.config.procs }
    requires passes { (room.passes.items ≡ []) × (J.config.procs ≤ vec_capacity room.passes) }
    requires places { (length room.places.items ≡ J.config.procs) × NoneFilled room.places.items }
    requires processes { (room.processes.items ≡ []) × (J.config.procs ≤ vec_capacity room.processes) }
    ensures count { length result.processes.items ≡ J.config.procs }
    ensures seated { AllUpToDate J.code J.config result.store.entries result.processes.items }
{
    let JoinBuffers {
        passes,
        places,
        processes,
    } = room;
    let Unsorted { passes, places } = place_all(&turnstile, tasks, passes, places);
    let store = turnstile.close(passes);
    let processes = in_order(places, processes);
    Joined { store, processes }
}
