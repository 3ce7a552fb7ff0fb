// Histories in columns: entries of each kind are read back, the last one too, and after a truncation.

use std::alloc::Global;
use std::test::Fail;
use ti_base::{
    Action, Answer, CollKind, Deposit, Entry, FaultKind, Id, Memory, Place, Point, Rect, Value,
};
use ti_history::PackedHistory;

const OBJECT: Id = Id {
    maker: 0,
    serial: 3,
    owner: 0,
    region: 2,
};

const GRID: Id = Id {
    maker: 1,
    serial: 0,
    owner: 1,
    region: 0,
};

const IN_SPACE: Point = Point {
    dim: 3,
    x1: -4,
    x2: 5,
    x3: 2147483647,
};

/// A point that isn't canonical.
const BEYOND: Point = Point {
    dim: 2,
    x1: 1,
    x2: 2,
    x3: 3,
};

const EMPTY: Rect = Rect {
    dim: 1,
    lo: Point {
        dim: 1,
        x1: 1,
        x2: 0,
        x3: 0,
    },
    hi: Point {
        dim: 1,
        x1: 0,
        x2: 0,
        x3: 0,
    },
    step: [1, 1, 1],
};

/// What a process does, with the answer.
struct Did(u32, Action, Answer);

/// A read or a write of each kind of value and point, operations that are kept whole, and answers that no run gives.
const EVENTS: &[Did] = &[
    Did(
        1,
        Action::PutField {
            obj: OBJECT,
            field: 4,
            value: Value::Int(-7),
        },
        Answer::Done,
    ),
    Did(
        0,
        Action::GetField {
            obj: OBJECT,
            field: 4,
        },
        Answer::Val(Value::Int(-7)),
    ),
    Did(
        0,
        Action::GetElem {
            grid: GRID,
            at: Point {
                dim: 1,
                x1: 6,
                x2: 0,
                x3: 0,
            },
        },
        Answer::Val(Value::Long(-9223372036854775808)),
    ),
    Did(
        2,
        Action::PutElem {
            grid: GRID,
            at: Point {
                dim: 2,
                x1: 6,
                x2: -8,
                x3: 0,
            },
            value: Value::Bool(true),
        },
        Answer::Done,
    ),
    Did(
        2,
        Action::PutElem {
            grid: GRID,
            at: IN_SPACE,
            value: Value::Bool(false),
        },
        Answer::Done,
    ),
    Did(
        1,
        Action::GetElem {
            grid: GRID,
            at: BEYOND,
        },
        Answer::Val(Value::Pt(IN_SPACE)),
    ),
    Did(
        1,
        Action::NewObj {
            class: 3,
            region: 2,
        },
        Answer::Val(Value::Obj(Some(OBJECT))),
    ),
    Did(
        3,
        Action::PutField {
            obj: OBJECT,
            field: 0,
            value: Value::Obj(Some(OBJECT)),
        },
        Answer::Done,
    ),
    Did(
        3,
        Action::PutField {
            obj: OBJECT,
            field: 1,
            value: Value::Obj(None),
        },
        Answer::Done,
    ),
    Did(
        3,
        Action::GetField {
            obj: OBJECT,
            field: 2,
        },
        Answer::Val(Value::Grid(Some(GRID))),
    ),
    Did(
        3,
        Action::GetField {
            obj: OBJECT,
            field: 3,
        },
        Answer::Val(Value::Grid(None)),
    ),
    Did(
        0,
        Action::GetField {
            obj: OBJECT,
            field: 5,
        },
        Answer::Val(Value::Region(2)),
    ),
    Did(
        0,
        Action::PutField {
            obj: OBJECT,
            field: 6,
            value: Value::Rc(EMPTY),
        },
        Answer::Done,
    ),
    // No run answers a read with no value, or a write with one.
    Did(
        0,
        Action::GetField {
            obj: OBJECT,
            field: 7,
        },
        Answer::Done,
    ),
    Did(
        0,
        Action::PutElem {
            grid: GRID,
            at: BEYOND,
            value: Value::Int(1),
        },
        Answer::Val(Value::Int(2)),
    ),
    Did(
        2,
        Action::Print {
            literal: Some(1),
            value: Some(Value::Int(10)),
        },
        Answer::Done,
    ),
    Did(
        2,
        Action::Arrive {
            kind: CollKind::Broadcast,
            arg: Some(0),
            deposit: Deposit::One(Value::Int(11)),
        },
        Answer::Done,
    ),
    Did(2, Action::Depart, Answer::Val(Value::Int(11))),
    Did(0, Action::Depart, Answer::Done),
    Did(
        0,
        Action::Fault {
            kind: FaultKind::NullRef,
        },
        Answer::Done,
    ),
    Did(1, Action::End, Answer::Done),
];

/// The entry of what was done at this index.
fn entry_at(index: u32, did: &Did) -> Entry {
    let place = Place {
        line: index,
        col: 9,
    };
    Entry {
        proc: did.0,
        place,
        act: did.1,
        answer: did.2,
    }
}

/// Whether a history has the entries of what was done, numbered from 0.
fn has_all(history: &PackedHistory, told: &[Did]) -> bool {
    let mut rest = told;
    let mut index: u32 = 0;
    for entry in history.iter() {
        let Some((did, others)) = rest.split_first() else {
            return false;
        };
        if entry != entry_at(index, did) {
            return false;
        }
        rest = others;
        index = index.wrapping_add(1);
    }
    rest.is_empty()
}

/// Whether this is the last entry, and its process the last one's.
fn ends_with(history: &PackedHistory, entry: &Entry) -> bool {
    let count = history.len();
    count > 0 && history.proc_at(count - 1) == entry.proc && history.last() == Some(*entry)
}

/// Adds the entries of what was done from this index on. The answer is whether each was the last entry then.
fn add_all(history: &mut PackedHistory, from: u32, told: &[Did]) -> Result<bool, Memory> {
    let mut index = from;
    let mut ends = true;
    for did in told {
        let entry = entry_at(index, did);
        history.reserve()?;
        history.push(entry);
        ends = ends && ends_with(history, &entry);
        index = index.wrapping_add(1);
    }
    Ok(ends)
}

/// Whether a history that has taken all, dropped all but five and taken the others again has all of them after each step.
fn keeps_all(alloc: Global) -> Result<[bool; 6], Memory> {
    let mut history = PackedHistory::new(alloc);
    let empty = history.last() == None && has_all(&history, &[]);
    let added = add_all(&mut history, 0, EVENTS)?;
    let complete = has_all(&history, EVENTS);
    history.truncate(5);
    let cut = has_all(&history, &EVENTS[..5]);
    let again = add_all(&mut history, 5, &EVENTS[5..])?;
    Ok([
        empty,
        added,
        complete,
        cut,
        again,
        has_all(&history, EVENTS),
    ])
}

#[test]
fn packed_entries_are_read_back(rt: HostRuntime) -> Result<(), Fail> {
    assert!(rt; keeps_all(rt.alloc())? == [true; 6]);
    Ok(())
}
