// An index built while scanning a history: which entry created each object and grid, how each grid is stored in its block, and how many
// collectives each process has left.
ghost use Rattle.std.specs.Prelude.{◌≡◌, ◌∷◌, [], true, false, ◌≤◌, Some, None, length, IsTrue, OnOk, OnErr, IfSome};
ghost use Rattle.ti_base.specs.declared.entry.Entry.{Entry as Listed};
ghost use Rattle.ti_lang.specs.Meaning.Histories.{History, is_departure, departures};
ghost use Rattle.ti_lang.specs.Meaning.Races.{is_put};
ghost use Rattle.ti_lang.specs.Meaning.Spots.{Block, is_block, spot_used, use_of as use_told};
ghost use Rattle.ti_base.specs.Rects.{IsRect, points_of};
ghost use Rattle.ti_grid.specs.Views.{cell_number};
ghost use Rattle.ti_race.specs.Mirrors.HistoryIndex.{id_key, object_result, grid_result, block_made, block_told, view_told, IsLayoutIn, IndexesObjects, IndexesGrids, IndexesPhases, IndexesHistory, IsSpot, IsSpotIf, IsUseIf};
ghost use Rattle.ti_base.specs.declared.value.Zero.{Zero as First};
ghost use Rattle.ti_base.specs.declared.value.Id.{Id as Named};
ghost use Rattle.ti_lang.specs.Meaning.Spots as spec;

use crate::forms::{is_rect, is_view};
use crate::grid_layout::{GridLayout, view_layout};
use crate::spots::{IdKey, Spot, Thing, Use, id_key, point_key};
use std::alloc::Global;
use std::collections::HashMap;
use ti_base::{
    Action, Answer, Entry, Id, Memory, Point, Rect, Value, ViewHow, forms_are_told, rect_counts,
};
use ti_grid::{View, index_of, view_of};
use ti_rect::rect_size;

/// What is known of a history: for each identity of an object the number of the entry that created it last (`objects`); for each identity
/// of a grid how the last one created with it is stored, if that is known (`grids`); for each process how many collectives it has left
/// (`phases`); and the number of entries (`count`).
#[derive(Drop)]
pub struct HistoryIndex {
    pub objects: HashMap<IdKey, u32>,
    pub grids: HashMap<IdKey, Option<GridLayout>>,
    pub phases: HashMap<u32, u32>,
    pub count: u32,
}

// The maximum number of cells of a block.
const MOST_CELLS: i32 = 1_048_576;

// Whether a block can have this domain: it is canonical, and has at most `MOST_CELLS` points.
fn is_block_domain(domain: &Rect) -> bool
    ensures value { result ≡ is_block domain.now }
    ensures form { IsTrue result → IsRect domain.now }
    ensures few { IsTrue result → length (points_of domain.now) ≤ 1048576 }
{
    forms_are_told();
    rect_counts();
    if !is_rect(domain) {
        return false;
    }
    match rect_size(domain) {
        Ok(size) => size <= MOST_CELLS,
        Err(_) => false,
    }
}

// The number of the cell of a point in its block; `None` if the view doesn't have the point.
fn cell_in(view: &View, point: Point) -> Option<u64>
    ensures { result ≡ cell_number view.now point }
{
    if point.dim == view.domain().dim {
        index_of(view, &point)
    } else {
        None
    }
}

// The memory location of an element of a grid that is stored in this way.
fn element_in(lying: &GridLayout, name: IdKey, point: Point) -> Spot
    ensures { (h : History) (id : Named) (b : Block) → name ≡ id_key id → IsLayoutIn h (Some lying.now) (Some b)
        → IsSpot h result (spec.element_spot id point (Some b)) }
{
    match cell_in(&lying.view, point) {
        Some(cell) => Spot::CellOf(lying.number, cell),
        None => Spot::PointOf(name, point_key(point)),
    }
}

// The object that a result refers to, if it refers to one.
fn object_of(answer: Answer) -> Option<Id>
    ensures { result ≡ object_result answer }
{
    match answer {
        Answer::Val(Value::Obj(made)) => made,
        _ => None,
    }
}

// The grid that a result refers to, if it refers to one.
fn grid_of(answer: Answer) -> Option<Id>
    ensures { result ≡ grid_result answer }
{
    match answer {
        Answer::Val(Value::Grid(made)) => made,
        _ => None,
    }
}

// Whether an operation creates an object.
fn makes_object(action: Action) -> bool
    ensures { result ≡ spec.makes_object action }
{
    matches!(action, Action::NewObj { .. })
}

// Whether an operation creates a grid or a view.
fn makes_grid(action: Action) -> bool
    ensures { result ≡ spec.makes_grid action }
{
    matches!(action, Action::NewGrid { .. } | Action::MakeView { .. })
}

// Whether an operation leaves a collective.
fn departs(action: Action) -> bool
    ensures { result ≡ is_departure action }
{
    matches!(action, Action::Depart)
}

// Whether an operation writes.
fn writes(action: Action) -> bool
    ensures { result ≡ is_put action }
{
    matches!(action, Action::PutField { .. } | Action::PutElem { .. })
}

// How a grid is stored that an entry with this number creates with a block of its own; `None` if no block can have this domain.
fn block_of(number: u32, id: Id, domain: &Rect) -> Option<GridLayout>
    ensures { (e : Listed) (h : History) (zero : First) → number ≡ length h → block_made e.act ≡ Some domain.now
        → IsLayoutIn (e ∷ h) result (block_told id number zero domain.now) }
{
    if !is_block_domain(domain) {
        return None;
    }
    Some(GridLayout {
        number,
        view: view_of(id, domain),
    })
}

impl HistoryIndex {
    /// The index of the empty history.
    pub fn new(alloc: Global) -> HistoryIndex
        ensures { IndexesHistory result [] }
    {
        HistoryIndex {
            objects: HashMap::new(alloc),
            grids: HashMap::new(alloc),
            phases: HashMap::new(alloc),
            count: 0,
        }
    }

    // The object with this identity.
    fn thing(&self, id: Id) -> Thing
        ensures { (h : History) → IndexesHistory self.now h → IsSpot h (Spot.FieldOf result 0)
            (spec.FieldOf (spec.object_thing id (spec.object_told id h)) 0) }
    {
        let name = id_key(id);
        match self.objects.get(&name).copied() {
            Some(number) => Thing::Made(number),
            None => Thing::Untold(name),
        }
    }

    // The memory location of an element of the grid with this identity.
    fn element(&self, grid: Id, point: Point) -> Spot
        ensures { (h : History) → IndexesHistory self.now h → IsSpot h result (spec.element_spot grid point (spec.grid_told grid h)) }
    {
        let name = id_key(grid);
        match self.grids.get(&name) {
            Some(Some(lying)) => element_in(lying, name, point),
            Some(None) => Spot::PointOf(name, point_key(point)),
            None => Spot::PointOf(name, point_key(point)),
        }
    }

    // The memory location that an operation accesses, if it accesses one.
    fn spot(&self, action: Action) -> Option<Spot>
        ensures { (h : History) → IndexesHistory self.now h → IsSpotIf h result (spot_used action h) }
    {
        match action {
            Action::GetField { obj, field } => Some(Spot::FieldOf(self.thing(obj), field)),
            Action::PutField { obj, field, .. } => Some(Spot::FieldOf(self.thing(obj), field)),
            Action::GetElem { grid, at } => Some(self.element(grid, at)),
            Action::PutElem { grid, at, .. } => Some(self.element(grid, at)),
            _ => None,
        }
    }

    /// The access of an entry that follows the history, if it is one.
    pub fn use_of(&self, entry: &Entry) -> Option<Use>
        ensures told { (h : History) → IndexesHistory self.now h → IsUseIf h result (use_told entry.now h) }
        ensures entry { IfSome result (λ u. (u.number ≡ self.now.count) × (u.proc ≡ entry.now.proc) × (u.place ≡ entry.now.place)) }
    {
        match self.spot(entry.act) {
            Some(spot) => Some(Use {
                number: self.count,
                proc: entry.proc,
                phase: self.phase(entry.proc),
                spot,
                writes: writes(entry.act),
                place: entry.place,
            }),
            None => None,
        }
    }

    // The number of collectives that a process has left.
    fn phase(&self, proc: u32) -> u32
        ensures { (h : History) → IndexesPhases self.now h → result ≡ departures proc h }
    {
        match self.phases.get(&proc).copied() {
            Some(phase) => phase,
            None => 0,
        }
    }

    // How a view of the grid with this identity is stored; `None` if that of the grid isn't known or the view can't be made.
    fn view_made(&self, grid: Id, how: ViewHow) -> Option<GridLayout>
        ensures { (h : History) → IndexesGrids self.now h → IsLayoutIn h result (view_told how (spec.grid_told grid h)) }
    {
        forms_are_told();
        if !is_view(how) {
            return None;
        }
        match self.grids.get(&id_key(grid)) {
            Some(Some(lying)) => view_layout(lying, how),
            Some(None) => None,
            None => None,
        }
    }

    // How a grid is stored that an operation creates with this identity; `None` if that isn't known.
    fn grid_made(&self, action: Action, id: Id) -> Option<GridLayout>
        ensures { (e : Listed) (h : History) → self.now.count ≡ length h → IndexesGrids self.now h → e.act ≡ action
            → IsLayoutIn (e ∷ h) result (spec.grid_from id (length h) action (λ v. spec.grid_told v h)) }
    {
        match action {
            Action::NewGrid { dom, .. } => block_of(self.count, id, &dom),
            Action::MakeView { grid, how } => self.view_made(grid, how),
            _ => None,
        }
    }

    // Records the object that an entry creates, if it creates one.
    fn note_object(&mut self, entry: &Entry) -> Result<(), Memory>
        ensures objects { OnOk result ((h : History) → self.old.count ≡ length h → IndexesObjects self.old h
            → IndexesObjects self.new (entry.now ∷ h)) }
        ensures kept { OnErr result ((h : History) → IndexesObjects self.old h → IndexesObjects self.new h) }
        ensures silent { spec.makes_object entry.now.act ≡ false → self.new ≡ self.old }
        ensures rest { self.new ≡ record self.old { objects = self.new.objects } }
    {
        if makes_object(entry.act) {
            if let Some(made) = object_of(entry.answer) {
                self.objects.insert(id_key(made), self.count)?;
            }
        }
        Ok(())
    }

    // Records the grid or view that an entry creates, if it creates one.
    fn note_grid(&mut self, entry: &Entry) -> Result<(), Memory>
        ensures grids { OnOk result ((h : History) → self.old.count ≡ length h → IndexesGrids self.old h → IndexesGrids self.new (entry.now ∷ h)) }
        ensures kept { OnErr result ((h : History) → IndexesGrids self.old h → IndexesGrids self.new h) }
        ensures fails { OnErr result (spec.makes_grid entry.now.act ≡ true) }
        ensures silent { spec.makes_grid entry.now.act ≡ false → self.new ≡ self.old }
        ensures rest { self.new ≡ record self.old { grids = self.new.grids } }
    {
        if makes_grid(entry.act) {
            if let Some(made) = grid_of(entry.answer) {
                let lying = self.grid_made(entry.act, made);
                self.grids.insert(id_key(made), lying)?;
            }
        }
        Ok(())
    }

    // Records the departure of an entry, if it is one. Errors also if the count doesn't fit in 32 bits.
    fn note_departure(&mut self, entry: &Entry) -> Result<(), Memory>
        ensures phases { OnOk result ((h : History) → IndexesPhases self.old h → IndexesPhases self.new (entry.now ∷ h)) }
        ensures kept { OnErr result ((h : History) → IndexesPhases self.old h → IndexesPhases self.new h) }
        ensures fails { OnErr result (is_departure entry.now.act ≡ true) }
        ensures rest { self.new ≡ record self.old { phases = self.new.phases } }
    {
        if departs(entry.act) {
            let Some(phase) = self.phase(entry.proc).checked_add(1) else {
                return Err(Memory);
            };
            self.phases.insert(entry.proc, phase)?;
        }
        Ok(())
    }

    /// Appends an entry to the history. Errors if it runs out of memory, or if there are more than 2^32 - 1 entries; the index is then
    /// still that of the history before.
    pub fn note(&mut self, entry: &Entry) -> Result<(), Memory>
        ensures told { OnOk result ((h : History) → IndexesHistory self.old h → IndexesHistory self.new (entry.now ∷ h)) }
        ensures kept { OnErr result ((h : History) → IndexesHistory self.old h → IndexesHistory self.new h) }
    {
        let Some(count) = self.count.checked_add(1) else {
            return Err(Memory);
        };
        self.note_object(entry)?;
        self.note_grid(entry)?;
        self.note_departure(entry)?;
        self.count = count;
        Ok(())
    }
}
