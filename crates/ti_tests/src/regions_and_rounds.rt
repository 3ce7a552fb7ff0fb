// Shared regions with their reference counts, and collectives of which one process is ahead of another.

use std::alloc::Global;
use std::test::Fail;
use ti_base::{CollKind, Deposit, Id, Memory, Place, Value};
use ti_region::Regions;
use ti_rounds::Rounds;

/// The results of calls on two regions, in their order.
#[derive(Debug, Drop, PartialEq)]
struct Counted {
    numbers: [u32; 3],
    counts: [u64; 5],
    live: [bool; 3],
}

const NULL: Value = Value::Obj(None);

const OBJECT_IN_1: Value = Value::Obj(Some(Id {
    maker: 0,
    serial: 0,
    owner: 0,
    region: 1,
}));

const GRID_IN_1: Value = Value::Grid(Some(Id {
    maker: 1,
    serial: 0,
    owner: 1,
    region: 1,
}));

const OBJECT_IN_2: Value = Value::Obj(Some(Id {
    maker: 0,
    serial: 1,
    owner: 0,
    region: 2,
}));

/// Cells outside all regions and in regions 1 and 2 get references, then other values, and region 1 is deleted. Counts are taken in
/// between.
fn count_references(alloc: Global) -> Result<Counted, Memory> {
    let mut regions = Regions::new(alloc);
    let first = regions.make()?;
    let second = regions.make()?;
    let live = regions.is_live(1);
    regions.note_put(0, NULL, OBJECT_IN_1);
    let once = regions.outside_refs(1);
    regions.note_put(1, NULL, OBJECT_IN_1);
    regions.note_put(2, NULL, GRID_IN_1);
    let twice = regions.outside_refs(1);
    regions.note_put(0, OBJECT_IN_1, OBJECT_IN_2);
    let again = regions.outside_refs(1);
    regions.note_put(2, GRID_IN_1, Value::Int(1));
    let none = regions.outside_refs(1);
    regions.delete(1);
    Ok(Counted {
        numbers: [first, second, regions.made()],
        counts: [once, twice, again, none, regions.outside_refs(2)],
        live: [live, regions.is_live(1), regions.is_live(2)],
    })
}

const PLACE: Place = Place { line: 2, col: 7 };

const NEXT_PLACE: Place = Place { line: 3, col: 1 };

/// The results of calls on the collectives of two processes, in their order.
#[derive(Drop, PartialEq)]
struct Passed {
    complete: [bool; 3],
    first_out: [bool; 2],
    round: (CollKind, Place, Option<u32>),
    deposits: [Deposit; 5],
}

/// Passes a broadcast from process 1, which leaves it and arrives at an exchange before process 0 has left.
fn pass_rounds(alloc: Global) -> Result<Passed, Memory> {
    let mut rounds = Rounds::new(alloc, 2)?;
    rounds.arrive(0, CollKind::Broadcast, PLACE, Some(1), Deposit::Nothing);
    let early = rounds.complete(0);
    rounds.arrive(
        1,
        CollKind::Broadcast,
        PLACE,
        Some(1),
        Deposit::One(Value::Int(7)),
    );
    let complete = rounds.complete(0);
    let first = rounds.first_out(0);
    let given = rounds.given(0, 0);
    let fast = rounds.depart(1);
    let second = rounds.first_out(0);
    rounds.arrive(
        1,
        CollKind::Exchange,
        NEXT_PLACE,
        None,
        Deposit::One(Value::Int(9)),
    );
    let ahead = rounds.complete(1);
    let round = rounds.round_of(0);
    let seen = rounds.given(0, 1);
    let slow = rounds.depart(0);
    let taken = rounds.take(0, 1);
    Ok(Passed {
        complete: [early, complete, ahead],
        first_out: [first, second],
        round,
        deposits: [given, fast, seen, slow, taken],
    })
}

#[test]
fn references_are_counted(rt: HostRuntime) -> Result<(), Fail> {
    let wanted = Counted {
        numbers: [1, 2, 2],
        counts: [1, 2, 1, 0, 1],
        live: [true, false, true],
    };
    assert_eq!(rt; count_references(rt.alloc())?, wanted);
    Ok(())
}

#[test]
fn slow_process_gets_its_own_round(rt: HostRuntime) -> Result<(), Fail> {
    let seven = Deposit::One(Value::Int(7));
    let wanted = Passed {
        complete: [false, true, false],
        first_out: [true, false],
        round: (CollKind::Broadcast, PLACE, Some(1)),
        deposits: [Deposit::Nothing, seven, seven, seven, seven],
    };
    assert!(rt; pass_rounds(rt.alloc())? == wanted);
    Ok(())
}
