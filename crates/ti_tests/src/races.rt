// Races of lists of entries, most of which aren't runs: the location of an access is determined by the entries before it only.

use std::alloc::Global;
use std::test::Fail;
use ti_base::{
    Action, Answer, CollKind, Deposit, Entry, Id, Memory, Place, Point, Rect, Value, ViewHow, Zero,
};
use ti_race::{RaceWatch, entry_races};
use ti_watch::Watch;

/// How a view of a one-dimensional grid is made.
#[derive(Clone, Copy)]
enum ViewMaker {
    /// Translation by this offset.
    Moved(i32),
    /// Translation by a two-dimensional point, so that there is no such view.
    MovedInPlane,
    /// Restriction to these bounds.
    Cut(i32, i32),
}

/// What a process does.
#[derive(Clone, Copy)]
enum Does {
    /// Creates `GRID` with these bounds and this stride.
    MakesGrid(i32, i32, u32),
    /// Creates a view with the first identity of the grid with the second one.
    MakesView(Id, Id, ViewMaker),
    MakesObject(Id),
    Puts(Id, i32),
    Gets(Id, i32),
    PutsField(Id, u32),
    GetsField(Id, u32),
    Arrives,
    Departs,
}

/// A process, and what it does.
struct RaceStep(u32, Does);

/// A list of entries, of which number n has the source location 1:n, and the expected report.
struct RaceCase {
    about: &'static str,
    told: &'static [RaceStep],
    report: &'static str,
}

const GRID: Id = Id {
    maker: 0,
    serial: 0,
    owner: 0,
    region: 0,
};

const VIEW: Id = Id {
    maker: 0,
    serial: 1,
    owner: 0,
    region: 0,
};

const OTHER: Id = Id {
    maker: 1,
    serial: 0,
    owner: 0,
    region: 0,
};

const THING: Id = Id {
    maker: 0,
    serial: 2,
    owner: 0,
    region: 0,
};

const CASES: &[RaceCase] = &[
    RaceCase {
        about: "two writes",
        told: &[
            RaceStep(0, Does::MakesGrid(0, 9, 1)),
            RaceStep(0, Does::Puts(GRID, 3)),
            RaceStep(1, Does::Puts(GRID, 3)),
        ],
        report: "races 2\n1 p0 1:1\n2 p1 1:2\n",
    },
    RaceCase {
        about: "two elements",
        told: &[
            RaceStep(0, Does::MakesGrid(0, 9, 1)),
            RaceStep(0, Does::Puts(GRID, 3)),
            RaceStep(1, Does::Puts(GRID, 4)),
        ],
        report: "races 0\n",
    },
    RaceCase {
        about: "two reads",
        told: &[
            RaceStep(0, Does::MakesGrid(0, 9, 1)),
            RaceStep(0, Does::Gets(GRID, 3)),
            RaceStep(1, Does::Gets(GRID, 3)),
        ],
        report: "races 0\n",
    },
    RaceCase {
        about: "uses of one process",
        told: &[
            RaceStep(0, Does::MakesGrid(0, 9, 1)),
            RaceStep(0, Does::Puts(GRID, 3)),
            RaceStep(0, Does::Gets(GRID, 3)),
            RaceStep(0, Does::Puts(GRID, 3)),
        ],
        report: "races 0\n",
    },
    RaceCase {
        about: "a write and two reads",
        told: &[
            RaceStep(0, Does::MakesGrid(0, 9, 1)),
            RaceStep(1, Does::Puts(GRID, 3)),
            RaceStep(0, Does::Gets(GRID, 3)),
            RaceStep(2, Does::Gets(GRID, 3)),
        ],
        report: "races 3\n1 p1 1:1\n2 p0 1:2\n3 p2 1:3\n",
    },
    RaceCase {
        about: "phases don't count arrivals",
        told: &[
            RaceStep(0, Does::MakesGrid(0, 9, 1)),
            RaceStep(0, Does::Puts(GRID, 3)),
            RaceStep(1, Does::Arrives),
            RaceStep(1, Does::Puts(GRID, 3)),
        ],
        report: "races 2\n1 p0 1:1\n3 p1 1:3\n",
    },
    RaceCase {
        about: "phases count departures",
        told: &[
            RaceStep(0, Does::MakesGrid(0, 9, 1)),
            RaceStep(0, Does::Puts(GRID, 3)),
            RaceStep(0, Does::Departs),
            RaceStep(1, Does::Departs),
            RaceStep(1, Does::Puts(GRID, 3)),
            RaceStep(0, Does::Gets(GRID, 3)),
        ],
        report: "races 2\n4 p1 1:4\n5 p0 1:5\n",
    },
    RaceCase {
        about: "two views of one block",
        told: &[
            RaceStep(0, Does::MakesGrid(0, 9, 1)),
            RaceStep(0, Does::MakesView(VIEW, GRID, ViewMaker::Moved(1))),
            RaceStep(1, Does::Puts(VIEW, 4)),
            RaceStep(0, Does::Gets(GRID, 3)),
        ],
        report: "races 2\n2 p1 1:2\n3 p0 1:3\n",
    },
    RaceCase {
        about: "a view of a view",
        told: &[
            RaceStep(0, Does::MakesGrid(0, 9, 1)),
            RaceStep(0, Does::MakesView(VIEW, GRID, ViewMaker::Moved(1))),
            RaceStep(1, Does::MakesView(OTHER, VIEW, ViewMaker::Moved(-2))),
            RaceStep(0, Does::Puts(GRID, 3)),
            RaceStep(1, Does::Puts(OTHER, 2)),
        ],
        report: "races 2\n3 p0 1:3\n4 p1 1:4\n",
    },
    RaceCase {
        about: "a part",
        told: &[
            RaceStep(0, Does::MakesGrid(0, 9, 1)),
            RaceStep(0, Does::MakesView(VIEW, GRID, ViewMaker::Cut(2, 4))),
            RaceStep(0, Does::Puts(VIEW, 2)),
            RaceStep(1, Does::Gets(GRID, 2)),
        ],
        report: "races 2\n2 p0 1:2\n3 p1 1:3\n",
    },
    RaceCase {
        about: "outside of a part",
        told: &[
            RaceStep(0, Does::MakesGrid(0, 9, 1)),
            RaceStep(0, Does::MakesView(VIEW, GRID, ViewMaker::Cut(2, 4))),
            RaceStep(0, Does::Puts(VIEW, 5)),
            RaceStep(1, Does::Puts(GRID, 5)),
        ],
        report: "races 0\n",
    },
    RaceCase {
        about: "outside of a domain",
        told: &[
            RaceStep(0, Does::MakesGrid(0, 9, 1)),
            RaceStep(0, Does::Puts(GRID, 10)),
            RaceStep(1, Does::Puts(GRID, 10)),
        ],
        report: "races 2\n1 p0 1:1\n2 p1 1:2\n",
    },
    RaceCase {
        about: "a grid that wasn't told",
        told: &[
            RaceStep(0, Does::Puts(GRID, 3)),
            RaceStep(1, Does::Puts(GRID, 3)),
            RaceStep(1, Does::Puts(GRID, 4)),
        ],
        report: "races 2\n0 p0 1:0\n1 p1 1:1\n",
    },
    RaceCase {
        about: "a view of one",
        told: &[
            RaceStep(0, Does::MakesView(VIEW, GRID, ViewMaker::Moved(1))),
            RaceStep(0, Does::Puts(VIEW, 4)),
            RaceStep(1, Does::Puts(GRID, 3)),
            RaceStep(1, Does::Puts(VIEW, 4)),
        ],
        report: "races 2\n1 p0 1:1\n3 p1 1:3\n",
    },
    RaceCase {
        about: "a view that doesn't suit",
        told: &[
            RaceStep(0, Does::MakesGrid(0, 9, 1)),
            RaceStep(0, Does::MakesView(VIEW, GRID, ViewMaker::MovedInPlane)),
            RaceStep(0, Does::Puts(VIEW, 4)),
            RaceStep(1, Does::Puts(GRID, 4)),
        ],
        report: "races 0\n",
    },
    RaceCase {
        about: "a view past the greatest number",
        told: &[
            RaceStep(0, Does::MakesGrid(0, 9, 1)),
            RaceStep(0, Does::MakesView(VIEW, GRID, ViewMaker::Moved(i32::MAX))),
            RaceStep(0, Does::Puts(VIEW, i32::MAX)),
            RaceStep(1, Does::Puts(GRID, 0)),
        ],
        report: "races 0\n",
    },
    RaceCase {
        about: "a domain that isn't in its one form",
        told: &[
            RaceStep(0, Does::MakesGrid(0, 9, 2)),
            RaceStep(0, Does::MakesView(VIEW, GRID, ViewMaker::Moved(1))),
            RaceStep(0, Does::Puts(VIEW, 1)),
            RaceStep(1, Does::Puts(GRID, 0)),
        ],
        report: "races 0\n",
    },
    RaceCase {
        about: "a domain with too many points",
        told: &[
            RaceStep(0, Does::MakesGrid(0, 1_048_576, 1)),
            RaceStep(0, Does::MakesView(VIEW, GRID, ViewMaker::Moved(1))),
            RaceStep(0, Does::Puts(VIEW, 1)),
            RaceStep(1, Does::Puts(GRID, 0)),
        ],
        report: "races 0\n",
    },
    RaceCase {
        about: "a domain with as many as there may be",
        told: &[
            RaceStep(0, Does::MakesGrid(1, 1_048_576, 1)),
            RaceStep(0, Does::MakesView(VIEW, GRID, ViewMaker::Moved(1))),
            RaceStep(0, Does::Puts(VIEW, 2)),
            RaceStep(1, Does::Puts(GRID, 1)),
        ],
        report: "races 2\n2 p0 1:2\n3 p1 1:3\n",
    },
    RaceCase {
        about: "the last making",
        told: &[
            RaceStep(0, Does::MakesGrid(0, 9, 1)),
            RaceStep(0, Does::Puts(GRID, 3)),
            RaceStep(0, Does::MakesGrid(0, 9, 1)),
            RaceStep(1, Does::Puts(GRID, 3)),
        ],
        report: "races 0\n",
    },
    RaceCase {
        about: "the last making before the view",
        told: &[
            RaceStep(0, Does::MakesGrid(0, 9, 1)),
            RaceStep(0, Does::MakesView(VIEW, GRID, ViewMaker::Moved(1))),
            RaceStep(0, Does::MakesGrid(0, 9, 1)),
            RaceStep(0, Does::Puts(VIEW, 4)),
            RaceStep(1, Does::Puts(GRID, 3)),
        ],
        report: "races 0\n",
    },
    RaceCase {
        about: "a field",
        told: &[
            RaceStep(0, Does::MakesObject(THING)),
            RaceStep(0, Does::PutsField(THING, 0)),
            RaceStep(1, Does::GetsField(THING, 0)),
            RaceStep(1, Does::GetsField(THING, 1)),
        ],
        report: "races 2\n1 p0 1:1\n2 p1 1:2\n",
    },
    RaceCase {
        about: "a grid of the object's name",
        told: &[
            RaceStep(0, Does::MakesObject(GRID)),
            RaceStep(0, Does::PutsField(GRID, 0)),
            RaceStep(0, Does::MakesGrid(0, 9, 1)),
            RaceStep(1, Does::PutsField(GRID, 0)),
            RaceStep(1, Does::Puts(GRID, 0)),
        ],
        report: "races 2\n1 p0 1:1\n3 p1 1:3\n",
    },
    RaceCase {
        about: "the object's last making",
        told: &[
            RaceStep(0, Does::MakesObject(THING)),
            RaceStep(0, Does::PutsField(THING, 0)),
            RaceStep(0, Does::MakesObject(THING)),
            RaceStep(1, Does::PutsField(THING, 0)),
        ],
        report: "races 0\n",
    },
    RaceCase {
        about: "an object that wasn't told",
        told: &[
            RaceStep(1, Does::PutsField(THING, 0)),
            RaceStep(0, Does::GetsField(THING, 0)),
        ],
        report: "races 2\n0 p1 1:0\n1 p0 1:1\n",
    },
    RaceCase {
        about: "no entry",
        told: &[],
        report: "races 0\n",
    },
];

/// The point with this coordinate.
fn at(x1: i32) -> Point {
    Point {
        dim: 1,
        x1,
        x2: 0,
        x3: 0,
    }
}

/// The one-dimensional rectangle with these bounds and this stride, which need not be canonical.
fn line(low: i32, high: i32, step: u32) -> Rect {
    Rect {
        dim: 1,
        lo: at(low),
        hi: at(high),
        step: [step, 1, 1],
    }
}

fn how_of(seen: ViewMaker) -> ViewHow {
    match seen {
        ViewMaker::Moved(by) => ViewHow::Translate(at(by)),
        ViewMaker::MovedInPlane => ViewHow::Translate(Point { dim: 2, ..at(0) }),
        ViewMaker::Cut(low, high) => ViewHow::Restrict(line(low, high, 1)),
    }
}

fn act_of(does: Does) -> Action {
    match does {
        Does::MakesGrid(low, high, step) => Action::NewGrid {
            zero: Zero::Int,
            dom: line(low, high, step),
            region: 0,
        },
        Does::MakesView(_, grid, seen) => Action::MakeView {
            grid,
            how: how_of(seen),
        },
        Does::MakesObject(_) => Action::NewObj {
            class: 0,
            region: 0,
        },
        Does::Puts(grid, x1) => Action::PutElem {
            grid,
            at: at(x1),
            value: Value::Int(1),
        },
        Does::Gets(grid, x1) => Action::GetElem { grid, at: at(x1) },
        Does::PutsField(obj, field) => Action::PutField {
            obj,
            field,
            value: Value::Int(1),
        },
        Does::GetsField(obj, field) => Action::GetField { obj, field },
        Does::Arrives => Action::Arrive {
            kind: CollKind::Barrier,
            arg: None,
            deposit: Deposit::Nothing,
        },
        Does::Departs => Action::Depart,
    }
}

fn answer_of(does: Does) -> Answer {
    match does {
        Does::MakesGrid(..) => Answer::Val(Value::Grid(Some(GRID))),
        Does::MakesView(view, ..) => Answer::Val(Value::Grid(Some(view))),
        Does::MakesObject(obj) => Answer::Val(Value::Obj(Some(obj))),
        Does::Gets(..) | Does::GetsField(..) => Answer::Val(Value::Int(1)),
        _ => Answer::Done,
    }
}

fn entries_of(alloc: Global, told: &[RaceStep]) -> Result<Vec<Entry>, Memory> {
    let mut entries = Vec::new(alloc);
    let mut col = 0;
    for RaceStep(proc, does) in told {
        entries.push(Entry {
            proc: *proc,
            place: Place { line: 1, col },
            act: act_of(*does),
            answer: answer_of(*does),
        })?;
        col = col.saturating_add(1);
    }
    Ok(entries)
}

/// The report on a list of entries.
fn report_on(alloc: Global, entries: &[Entry]) -> Result<Vec<u8>, Memory> {
    let mut watch = RaceWatch::new(alloc);
    for entry in entries {
        watch.see(entry)?;
    }
    let mut out = Vec::new(alloc);
    watch.report(&mut out)?;
    Ok(out)
}

fn report_of(alloc: Global, case: &RaceCase) -> Result<Vec<u8>, Memory> {
    let entries = entries_of(alloc, case.told)?;
    report_on(alloc, &entries)
}

#[test]
fn races_are_told(rt: HostRuntime) -> Result<(), Fail> {
    for case in CASES {
        let report = report_of(rt.alloc(), case)?;
        assert!(rt;
            report.as_slice() == case.report.as_bytes(),
            "{}",
            case.about
        );
    }
    Ok(())
}

#[test]
fn races_have_numbers(rt: HostRuntime) -> Result<(), Fail> {
    let entries = entries_of(rt.alloc(), CASES[0].told)?;
    let numbers = entry_races(rt.alloc(), &entries)?;
    assert!(rt; numbers.as_slice() == [1, 2].as_slice());
    Ok(())
}

#[test]
fn watcher_has_its_kind(rt: HostRuntime) {
    assert_eq!(rt; RaceWatch::new(rt.alloc()).kind(), 2);
}
