// Reports of watchers that observe entries one by one.

use std::alloc::Global;
use std::test::Fail;
use ti_base::{
    Action, Answer, CollKind, Deposit, Entry, FaultKind, Id, Memory, Place, Point, Rect, Value,
    ViewHow, Zero,
};
use ti_watch::{StatsWatch, TraceWatch, Watch};

/// An operation with its result, and how the two are written.
struct ActionText {
    act: Action,
    answer: Answer,
    written: &'static str,
}

/// An operation, and how many entries have it.
struct ActionCount(Action, u32);

const THING: Id = Id {
    maker: 1,
    serial: 2,
    owner: 3,
    region: 4,
};

const OTHER: Id = Id {
    maker: 31,
    serial: 4294967295,
    owner: 0,
    region: 0,
};

const ONE: Point = Point {
    dim: 1,
    x1: 3,
    x2: 0,
    x3: 0,
};

const TWO: Point = Point {
    dim: 2,
    x1: 1,
    x2: -2,
    x3: 0,
};

const THREE: Point = Point {
    dim: 3,
    x1: i32::MIN,
    x2: i32::MAX,
    x3: 0,
};

/// `[0:9:1]`
const LINE: Rect = Rect {
    dim: 1,
    lo: Point {
        dim: 1,
        x1: 0,
        x2: 0,
        x3: 0,
    },
    hi: Point {
        dim: 1,
        x1: 9,
        x2: 0,
        x3: 0,
    },
    step: [1, 1, 1],
};

/// `[0:2:1,-1:3:4]`
const PLANE: Rect = Rect {
    dim: 2,
    lo: Point {
        dim: 2,
        x1: 0,
        x2: -1,
        x3: 0,
    },
    hi: Point {
        dim: 2,
        x1: 2,
        x2: 3,
        x3: 0,
    },
    step: [1, 4, 1],
};

/// `[1:1:1,2:2:1,3:5:2]`
const SPACE: Rect = Rect {
    dim: 3,
    lo: Point {
        dim: 3,
        x1: 1,
        x2: 2,
        x3: 3,
    },
    hi: Point {
        dim: 3,
        x1: 1,
        x2: 2,
        x3: 5,
    },
    step: [1, 1, 2],
};

/// The empty three-dimensional domain.
const NONE: Rect = Rect {
    dim: 3,
    lo: Point {
        dim: 3,
        x1: 1,
        x2: 1,
        x3: 1,
    },
    hi: Point {
        dim: 3,
        x1: 0,
        x2: 0,
        x3: 0,
    },
    step: [1, 1, 1],
};

const ACTS: &[ActionText] = &[
    ActionText {
        act: Action::GetField {
            obj: THING,
            field: 4,
        },
        answer: Answer::Val(Value::Int(-7)),
        written: "getField obj1.2 4 -> -7",
    },
    ActionText {
        act: Action::PutField {
            obj: THING,
            field: 0,
            value: Value::Long(i64::MIN),
        },
        answer: Answer::Done,
        written: "putField obj1.2 0 -9223372036854775808L -> done",
    },
    ActionText {
        act: Action::PutField {
            obj: OTHER,
            field: 1,
            value: Value::Bool(false),
        },
        answer: Answer::Done,
        written: "putField obj31.4294967295 1 false -> done",
    },
    ActionText {
        act: Action::NewObj {
            class: 5,
            region: 0,
        },
        answer: Answer::Val(Value::Obj(Some(THING))),
        written: "newObj 5 0 -> obj1.2",
    },
    ActionText {
        act: Action::NewGrid {
            zero: Zero::Pt(2),
            dom: LINE,
            region: 3,
        },
        answer: Answer::Val(Value::Grid(Some(OTHER))),
        written: "newGrid point2 [0:9:1] 3 -> grid31.4294967295",
    },
    ActionText {
        act: Action::NewGrid {
            zero: Zero::Long,
            dom: PLANE,
            region: 0,
        },
        answer: Answer::Val(Value::Grid(Some(THING))),
        written: "newGrid long [0:2:1,-1:3:4] 0 -> grid1.2",
    },
    ActionText {
        act: Action::NewGrid {
            zero: Zero::Rc(1),
            dom: SPACE,
            region: 12,
        },
        answer: Answer::Val(Value::Grid(Some(THING))),
        written: "newGrid rect1 [1:1:1,2:2:1,3:5:2] 12 -> grid1.2",
    },
    ActionText {
        act: Action::NewGrid {
            zero: Zero::Grid,
            dom: NONE,
            region: 0,
        },
        answer: Answer::Val(Value::Grid(Some(THING))),
        written: "newGrid grid empty3 0 -> grid1.2",
    },
    ActionText {
        act: Action::GetElem {
            grid: THING,
            at: ONE,
        },
        answer: Answer::Val(Value::Bool(true)),
        written: "getElem grid1.2 [3] -> true",
    },
    ActionText {
        act: Action::GetElem {
            grid: THING,
            at: TWO,
        },
        answer: Answer::Val(Value::Rc(NONE)),
        written: "getElem grid1.2 [1,-2] -> empty3",
    },
    ActionText {
        act: Action::PutElem {
            grid: THING,
            at: ONE,
            value: Value::Pt(THREE),
        },
        answer: Answer::Done,
        written: "putElem grid1.2 [3] [-2147483648,2147483647,0] -> done",
    },
    ActionText {
        act: Action::PutElem {
            grid: THING,
            at: THREE,
            value: Value::Grid(None),
        },
        answer: Answer::Done,
        written: "putElem grid1.2 [-2147483648,2147483647,0] null -> done",
    },
    ActionText {
        act: Action::MakeView {
            grid: THING,
            how: ViewHow::Restrict(LINE),
        },
        answer: Answer::Val(Value::Grid(Some(OTHER))),
        written: "makeView grid1.2 restrict [0:9:1] -> grid31.4294967295",
    },
    ActionText {
        act: Action::MakeView {
            grid: THING,
            how: ViewHow::Translate(TWO),
        },
        answer: Answer::Val(Value::Grid(Some(OTHER))),
        written: "makeView grid1.2 translate [1,-2] -> grid31.4294967295",
    },
    ActionText {
        act: Action::MakeView {
            grid: THING,
            how: ViewHow::Slice(2, -3),
        },
        answer: Answer::Val(Value::Grid(Some(OTHER))),
        written: "makeView grid1.2 slice 2 -3 -> grid31.4294967295",
    },
    ActionText {
        act: Action::DomainOf { grid: THING },
        answer: Answer::Val(Value::Rc(PLANE)),
        written: "domainOf grid1.2 -> [0:2:1,-1:3:4]",
    },
    ActionText {
        act: Action::Print {
            literal: Some(4),
            value: None,
        },
        answer: Answer::Done,
        written: "print s4 - -> done",
    },
    ActionText {
        act: Action::Print {
            literal: Some(0),
            value: Some(Value::Long(12)),
        },
        answer: Answer::Done,
        written: "print s0 12L -> done",
    },
    ActionText {
        act: Action::Arrive {
            kind: CollKind::Broadcast,
            arg: Some(1),
            deposit: Deposit::One(Value::Int(6)),
        },
        answer: Answer::Done,
        written: "arrive broadcast 1 6 -> done",
    },
    ActionText {
        act: Action::Arrive {
            kind: CollKind::Exchange,
            arg: None,
            deposit: Deposit::One(Value::Obj(None)),
        },
        answer: Answer::Done,
        written: "arrive exchange - null -> done",
    },
    ActionText {
        act: Action::Arrive {
            kind: CollKind::MakeRegion,
            arg: None,
            deposit: Deposit::Nothing,
        },
        answer: Answer::Done,
        written: "arrive makeRegion - - -> done",
    },
    ActionText {
        act: Action::Arrive {
            kind: CollKind::DeleteRegion,
            arg: Some(2),
            deposit: Deposit::Count(3),
        },
        answer: Answer::Done,
        written: "arrive deleteRegion 2 count:3 -> done",
    },
    ActionText {
        act: Action::Depart,
        answer: Answer::Val(Value::Region(4)),
        written: "depart -> region4",
    },
    ActionText {
        act: Action::Take { who: 31 },
        answer: Answer::Val(Value::Int(0)),
        written: "take 31 -> 0",
    },
    ActionText {
        act: Action::Fault {
            kind: FaultKind::RegionInUse,
        },
        answer: Answer::Done,
        written: "fault regionInUse -> done",
    },
    ActionText {
        act: Action::NewGrid {
            zero: Zero::Int,
            dom: LINE,
            region: 0,
        },
        answer: Answer::Done,
        written: "newGrid int [0:9:1] 0 -> done",
    },
    ActionText {
        act: Action::NewGrid {
            zero: Zero::Bool,
            dom: LINE,
            region: 0,
        },
        answer: Answer::Done,
        written: "newGrid boolean [0:9:1] 0 -> done",
    },
    ActionText {
        act: Action::NewGrid {
            zero: Zero::Obj,
            dom: LINE,
            region: 0,
        },
        answer: Answer::Done,
        written: "newGrid object [0:9:1] 0 -> done",
    },
];

/// A print, a barrier and the end of one process.
const SHORT_RUN: &[Entry] = &[
    Entry {
        proc: 0,
        place: Place { line: 1, col: 62 },
        act: Action::Print {
            literal: None,
            value: Some(Value::Int(0)),
        },
        answer: Answer::Done,
    },
    Entry {
        proc: 0,
        place: Place { line: 1, col: 89 },
        act: Action::Arrive {
            kind: CollKind::Barrier,
            arg: None,
            deposit: Deposit::Nothing,
        },
        answer: Answer::Done,
    },
    Entry {
        proc: 0,
        place: Place { line: 1, col: 89 },
        act: Action::Depart,
        answer: Answer::Done,
    },
    Entry {
        proc: 0,
        place: Place { line: 1, col: 100 },
        act: Action::End,
        answer: Answer::Done,
    },
];

const SHORT_TRACE: &str = "0 p0 1:62 print - 0 -> done
1 p0 1:89 arrive barrier - - -> done
2 p0 1:89 depart -> done
3 p0 1:100 end -> done
";

const SHORT_STATS: &str = "stats entries 4
getField 0
putField 0
newObj 0
newGrid 0
getElem 0
putElem 0
makeView 0
domainOf 0
print 1
arrive 1
depart 1
take 0
end 1
fault 0
";

/// The operations of a run of four processes, in which each fills a grid and one sums up all of them, with their numbers.
const COUNTS: &[ActionCount] = &[
    ActionCount(
        Action::NewGrid {
            zero: Zero::Int,
            dom: LINE,
            region: 0,
        },
        8,
    ),
    ActionCount(
        Action::GetElem {
            grid: THING,
            at: ONE,
        },
        36,
    ),
    ActionCount(
        Action::PutElem {
            grid: THING,
            at: ONE,
            value: Value::Int(0),
        },
        48,
    ),
    ActionCount(Action::DomainOf { grid: THING }, 12),
    ActionCount(
        Action::Print {
            literal: Some(0),
            value: Some(Value::Int(496)),
        },
        1,
    ),
    ActionCount(
        Action::Arrive {
            kind: CollKind::Barrier,
            arg: None,
            deposit: Deposit::Nothing,
        },
        8,
    ),
    ActionCount(Action::Depart, 8),
    ActionCount(Action::Take { who: 0 }, 16),
    ActionCount(Action::End, 4),
];

const LONG_STATS: &str = "stats entries 141
getField 0
putField 0
newObj 0
newGrid 8
getElem 36
putElem 48
makeView 0
domainOf 12
print 1
arrive 8
depart 8
take 16
end 4
fault 0
";

/// Appends the report of a watcher on these entries to `out`.
fn report_on<W: Watch>(watch: W, entries: &[Entry], out: &mut Vec<u8>) -> Result<(), Memory> {
    let mut watch = watch;
    for entry in entries {
        watch.see(entry)?;
    }
    watch.report(out)
}

/// An entry of process 2 at source location 3:5.
fn entry_of(act: Action, answer: Answer) -> Entry {
    Entry {
        proc: 2,
        place: Place { line: 3, col: 5 },
        act,
        answer,
    }
}

/// Entries with these operations, each as many times as `counts` says.
fn entries_of(alloc: Global, counts: &[ActionCount]) -> Result<Vec<Entry>, Memory> {
    let mut entries = Vec::new(alloc);
    for ActionCount(act, count) in counts {
        for _ in 0..*count {
            entries.push(entry_of(*act, Answer::Done))?;
        }
    }
    Ok(entries)
}

#[test]
fn acts_are_written(rt: HostRuntime) -> Result<(), Fail> {
    for row in ACTS {
        let entries = [entry_of(row.act, row.answer)];
        let mut out = b"before\n".to_vec(rt.alloc())?;
        report_on(TraceWatch::new(rt.alloc()), &entries, &mut out)?;
        let wanted = [b"before\n0 p2 3:5 ", row.written.as_bytes(), b"\n"].concat(rt.alloc())?;
        assert!(rt; out.as_slice() == wanted.as_slice(), "{}", row.written);
    }
    Ok(())
}

#[test]
fn short_run_is_reported(rt: HostRuntime) -> Result<(), Fail> {
    let mut trace = Vec::new(rt.alloc());
    report_on(TraceWatch::new(rt.alloc()), SHORT_RUN, &mut trace)?;
    assert!(rt; trace.as_slice() == SHORT_TRACE.as_bytes());
    let mut stats = Vec::new(rt.alloc());
    report_on(StatsWatch::new(rt.alloc()), SHORT_RUN, &mut stats)?;
    assert!(rt; stats.as_slice() == SHORT_STATS.as_bytes());
    Ok(())
}

#[test]
fn acts_are_counted(rt: HostRuntime) -> Result<(), Fail> {
    let entries = entries_of(rt.alloc(), COUNTS)?;
    let mut stats = Vec::new(rt.alloc());
    report_on(StatsWatch::new(rt.alloc()), &entries, &mut stats)?;
    assert!(rt; stats.as_slice() == LONG_STATS.as_bytes());
    Ok(())
}

#[test]
fn watchers_have_kinds(rt: HostRuntime) {
    assert_eq!(rt; TraceWatch::new(rt.alloc()).kind(), 0);
    assert_eq!(rt; StatsWatch::new(rt.alloc()).kind(), 1);
}
