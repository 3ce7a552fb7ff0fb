// Theorems about the heap. Those that need it are stated for histories in which each entry has the answer that the entries before it
// determine.
ghost use Rattle.std.specs.Prelude.{◌≡◌, ◌≢◌, ◌∷◌, ℕ, false, true, Some, None};
ghost use Rattle.ti_base.specs.declared.point.Point.{Point};
ghost use Rattle.ti_base.specs.declared.value.Id.{Id};
ghost use Rattle.ti_base.specs.declared.value.Value.{Value};
ghost use Rattle.ti_base.specs.declared.entry.Entry.{Entry};
ghost use Rattle.ti_base.specs.Points.{IsPoint};
ghost use Rattle.ti_base.specs.Cells.{Cell, Grid, cell_of};
ghost use Rattle.ti_lang.specs.Program.Classes.{ProgramView};
ghost use Rattle.ti_lang.specs.Meaning.Histories.{History, is_making};
ghost use Rattle.ti_lang.specs.Meaning.RegionsOf.{is_gone};
ghost use Rattle.ti_lang.specs.Meaning.HeapOf.{made_by, IsMade, grid_of_id, zero_of, written_by, cell_value};
ghost use Rattle.ti_lang.specs.Meaning.HeapAnswers.{IsAnswered};

/// A write changes the cell that it writes, to the value written, and no other; an action that neither writes nor creates anything
/// changes no cell.
pub fn writes()
    ensures written { (program : ProgramView) (h : History) (e : Entry) (cell : Cell) (zero value : Value) → zero_of program cell h ≡ Some zero
        → written_by e.act h ≡ Some (cell, value) → cell_value program cell (e ∷ h) ≡ Some value }
    ensures others { (program : ProgramView) (h : History) (e : Entry) (cell other : Cell) (value : Value) → written_by e.act h ≡ Some (cell, value)
        → other ≢ cell → cell_value program other (e ∷ h) ≡ cell_value program other h }
    ensures none { (program : ProgramView) (h : History) (e : Entry) (cell : Cell) → written_by e.act h ≡ None → is_making e.act ≡ false
        → cell_value program cell (e ∷ h) ≡ cell_value program cell h }
{}

/// Creating an object, a grid or a view changes no cell that existed before.
pub fn makings()
    ensures { (program : ProgramView) (h : History) (e : Entry) (cell : Cell) (zero : Value) → IsAnswered program (e ∷ h) → is_making e.act ≡ true
        → zero_of program cell h ≡ Some zero → cell_value program cell (e ∷ h) ≡ cell_value program cell h }
{}

/// Different points of a grid have different cells.
pub fn cells_differ()
    ensures { (program : ProgramView) (h : History) (id : Id) (g : Grid) (p q : Point) → IsAnswered program h → grid_of_id id h ≡ Some g
        → IsPoint p → IsPoint q → p.dim ≡ g.domain.dim → q.dim ≡ g.domain.dim → cell_of g p ≡ cell_of g q → p ≡ q }
{}

/// Names of objects, grids and views are unique: no two entries create the same one.
pub fn made_once()
    ensures { (program : ProgramView) (h : History) (e : Entry) (id : Id) → IsAnswered program (e ∷ h) → made_by e.act e.answer ≡ Some id
        → IsMade id h → ⊥ }
{}

/// A region that has been deleted stays deleted.
pub fn gone_stays()
    ensures { (r : ℕ) (h : History) (e : Entry) → is_gone r h ≡ true → is_gone r (e ∷ h) ≡ true }
{}
