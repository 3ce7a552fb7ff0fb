// Objects and grids on the heap: reads after writes, views that share cells, faults, and deleted regions.

ghost use Rattle.std.specs.Prelude.{◌≡◌, IfOk};
ghost use Rattle.ti_base.specs.Points.{IsPoint};
ghost use Rattle.ti_base.specs.Rects.{IsRect};

use std::alloc::Global;
use std::test::Fail;
use ti_base::{FaultKind, Id, Memory, Point, Rect, Value, ViewHow, Zero};
use ti_heap::{Heap, HeapErr};
use ti_rect::{BadStride, rect_make};

/// The point with this coordinate.
fn at(x1: i32) -> Point
    ensures form { IsPoint result }
    ensures dim { result.dim ≡ 1 }
{
    Point {
        dim: 1,
        x1,
        x2: 0,
        x3: 0,
    }
}

/// The point with these two coordinates.
fn cell(x1: i32, x2: i32) -> Point
    ensures form { IsPoint result }
    ensures dim { result.dim ≡ 2 }
{
    Point {
        dim: 2,
        x1,
        x2,
        x3: 0,
    }
}

/// The one-dimensional rectangle with these bounds and this stride.
fn line(low: i32, high: i32, step: i32) -> Result<Rect, BadStride>
    ensures form { IfOk result IsRect }
    ensures dim { IfOk result (λ r. r.dim ≡ 1) }
{
    rect_make(&at(low), &at(high), &at(step))
}

/// Three rows of four points, with indices from 0.
fn table() -> Result<Rect, BadStride>
    ensures form { IfOk result IsRect }
    ensures dim { IfOk result (λ r. r.dim ≡ 2) }
{
    rect_make(&cell(0, 0), &cell(2, 3), &cell(1, 1))
}

/// Creates an object with two fields, a number and a reference, and writes the second one. Returns the object and what both fields hold
/// before and after the write.
fn write_a_field(alloc: Global) -> Result<(Id, [Value; 4]), HeapErr> {
    let mut heap = Heap::new(alloc, 2)?;
    let obj = heap.new_obj(alloc, 1, &[Zero::Int, Zero::Obj], 0)?;
    let number = heap.get_field(obj, 0);
    let null = heap.get_field(obj, 1);
    heap.put_field(obj, 1, Value::Obj(Some(obj)));
    let kept = heap.get_field(obj, 0);
    let written = heap.get_field(obj, 1);
    Ok((obj, [number, null, kept, written]))
}

#[test]
fn a_field_holds_what_was_written(rt: HostRuntime) -> Result<(), Fail> {
    let name = Id {
        maker: 1,
        serial: 0,
        owner: 1,
        region: 0,
    };
    let (obj, fields) = write_a_field(rt.alloc())?;
    assert_eq!(rt; obj, name);
    let wanted = [
        Value::Int(0),
        Value::Obj(None),
        Value::Int(0),
        Value::Obj(Some(name)),
    ];
    assert!(rt; fields == wanted);
    Ok(())
}

/// The results of calls on the elements of a grid.
#[derive(Drop)]
struct Elements {
    writes: [Result<(), FaultKind>; 2],
    reads: [Result<Value, FaultKind>; 3],
    domain: Rect,
}

/// Writes 7 at point 6 and 8 at point 5, and then reads points 6, 4 and 22.
fn write_elements(alloc: Global, dom: &Rect) -> Result<Elements, HeapErr>
    requires form { IsRect dom.now }
    requires one { dom.now.dim ≡ 1 }
{
    let mut heap = Heap::new(alloc, 1)?;
    let grid = heap.new_grid(alloc, 0, Zero::Long, dom, 0)?;
    let written = heap.put_elem(grid, &at(6), Value::Long(7));
    let beside = heap.put_elem(grid, &at(5), Value::Long(8));
    let six = heap.get_elem(grid, &at(6));
    let four = heap.get_elem(grid, &at(4));
    let beyond = heap.get_elem(grid, &at(22));
    Ok(Elements {
        writes: [written, beside],
        reads: [six, four, beyond],
        domain: heap.domain_of(grid),
    })
}

#[test]
fn an_element_holds_what_was_written(rt: HostRuntime) -> Result<(), Fail> {
    let even = line(0, 20, 2)?;
    let elements = write_elements(rt.alloc(), &even)?;
    let seven = Ok(Value::Long(7));
    let zero = Ok(Value::Long(0));
    assert!(rt; elements.writes == [Ok(()), Err(FaultKind::Bounds)]);
    assert!(rt; elements.reads == [seven, zero, Err(FaultKind::Bounds)]);
    assert_eq!(rt; elements.domain, even);
    Ok(())
}

/// The number of cells in the region.
fn count_cells(heap: &Heap, region: u32) -> u64 {
    let mut count = 0u64;
    for _value in heap.cells_of(region) {
        count = count.wrapping_add(1);
    }
    count
}

/// The numbers of cells in regions 4 and 0 before and after region 4 is deleted. Region 4 contains a grid; an object with one field is
/// in region 0, which is no region.
fn drop_a_grid(alloc: Global, dom: &Rect) -> Result<[u64; 4], HeapErr>
    requires { IsRect dom.now }
{
    let mut heap = Heap::new(alloc, 2)?;
    heap.new_grid(alloc, 0, Zero::Long, dom, 4)?;
    heap.new_obj(alloc, 1, &[Zero::Bool], 0)?;
    let four = count_cells(&heap, 4);
    let none = count_cells(&heap, 0);
    heap.drop_region(4);
    let gone = count_cells(&heap, 4);
    let kept = count_cells(&heap, 0);
    Ok([four, none, gone, kept])
}

#[test]
fn a_dropped_region_has_no_cells(rt: HostRuntime) -> Result<(), Fail> {
    let even = line(0, 20, 2)?;
    assert_eq!(rt; drop_a_grid(rt.alloc(), &even)?, [11, 1, 0, 1]);
    Ok(())
}

/// Writes 9 at element 3 of the view of row 1. Returns what is then at (1, 3) of the table, and at (11, 2) and (1, 3) of the table
/// translated by (10, -1).
fn write_through_a_row(
    alloc: Global,
    dom: &Rect,
) -> Result<(u32, [Result<Value, FaultKind>; 3]), HeapErr>
    requires form { IsRect dom.now }
    requires two { dom.now.dim ≡ 2 }
{
    let mut heap = Heap::new(alloc, 2)?;
    let grid = heap.new_grid(alloc, 0, Zero::Int, dom, 0)?;
    let row = heap.make_view(1, grid, ViewHow::Slice(1, 1))?;
    let _written = heap.put_elem(row, &at(3), Value::Int(9));
    let read = heap.get_elem(grid, &cell(1, 3));
    let moved = heap.make_view(0, grid, ViewHow::Translate(cell(10, -1)))?;
    let same = heap.get_elem(moved, &cell(11, 2));
    let outside = heap.get_elem(moved, &cell(1, 3));
    Ok((moved.serial, [read, same, outside]))
}

#[test]
fn a_view_shares_the_cells(rt: HostRuntime) -> Result<(), Fail> {
    let nine = Ok(Value::Int(9));
    let wanted = (1, [nine, nine, Err(FaultKind::Bounds)]);
    assert!(rt; write_through_a_row(rt.alloc(), &table()?)? == wanted);
    Ok(())
}

/// Requests views that fail: slices at row 3 and in a dimension that doesn't exist, and a translation that leaves the range of 32 bits.
fn ask_for_no_views(alloc: Global, dom: &Rect) -> Result<[Option<HeapErr>; 3], HeapErr>
    requires form { IsRect dom.now }
    requires two { dom.now.dim ≡ 2 }
{
    let mut heap = Heap::new(alloc, 1)?;
    let grid = heap.new_grid(alloc, 0, Zero::Int, dom, 0)?;
    let row = heap.make_view(0, grid, ViewHow::Slice(1, 3));
    let third = heap.make_view(0, grid, ViewHow::Slice(3, 0));
    let far = heap.make_view(0, grid, ViewHow::Translate(cell(i32::MAX, 0)));
    Ok([row.err(), third.err(), far.err()])
}

#[test]
fn a_view_that_is_not_there_has_a_fault(rt: HostRuntime) -> Result<(), Fail> {
    let bounds = Some(HeapErr::Faulted(FaultKind::Bounds));
    let range = Some(HeapErr::Faulted(FaultKind::Range));
    assert!(rt; ask_for_no_views(rt.alloc(), &table()?)? == [bounds, bounds, range]);
    Ok(())
}

/// Process 0 creates a grid over `most`, one over `fits` in region 5, and an object; process 1 creates an object; and process 0 creates
/// one more after region 5 is deleted. Returns the errors.
fn fill_up(alloc: Global, most: &Rect, fits: &Rect) -> Result<[Option<HeapErr>; 5], Memory>
    requires most { IsRect most.now }
    requires fits { IsRect fits.now }
{
    let mut heap = Heap::new(alloc, 2)?;
    let full = heap.new_grid(alloc, 0, Zero::Int, most, 0);
    let made = heap.new_grid(alloc, 0, Zero::Int, fits, 5);
    let object = heap.new_obj(alloc, 0, &[], 0);
    let other = heap.new_obj(alloc, 1, &[Zero::Bool], 0);
    heap.drop_region(5);
    let again = heap.new_obj(alloc, 0, &[], 0);
    Ok([
        full.err(),
        made.err(),
        object.err(),
        other.err(),
        again.err(),
    ])
}

#[test]
fn a_process_has_1048576_cells(rt: HostRuntime) -> Result<(), Fail> {
    let full = Some(HeapErr::Faulted(FaultKind::HeapFull));
    let most = line(1, 1_048_576, 1)?;
    let fits = line(1, 1_048_575, 1)?;
    assert!(rt; fill_up(rt.alloc(), &most, &fits)? == [full, None, full, None, None]);
    Ok(())
}

/// Process 0 creates a grid, a view of all of it, and an object. Returns the errors of the last two.
fn fill_up_by_a_view(alloc: Global, dom: &Rect) -> Result<[Option<HeapErr>; 2], HeapErr>
    requires { IsRect dom.now }
{
    let mut heap = Heap::new(alloc, 1)?;
    let grid = heap.new_grid(alloc, 0, Zero::Int, dom, 0)?;
    let view = heap.make_view(0, grid, ViewHow::Restrict(*dom));
    let object = heap.new_obj(alloc, 0, &[], 0);
    Ok([view.err(), object.err()])
}

#[test]
fn a_view_costs_as_much_as_a_cell(rt: HostRuntime) -> Result<(), Fail> {
    let full = Some(HeapErr::Faulted(FaultKind::HeapFull));
    let all_but_one = line(1, 1_048_574, 1)?;
    assert!(rt; fill_up_by_a_view(rt.alloc(), &all_but_one)? == [None, full]);
    Ok(())
}
