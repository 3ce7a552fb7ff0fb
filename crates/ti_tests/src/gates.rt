// Scheduling hooks: a gate that holds the second pass of each of two processes until the other one has begun its own, or gives up.

use std::test::Fail;
use ti_io::{Gate, HoldGate, OpenGate};

/// The processes that pass a gate, one after the other, and whether one that it holds is expected to give up.
struct Passing {
    passes: &'static [u32],
    gives_up: bool,
}

/// Cases for a gate that holds processes 0 and 1.
const PASSINGS: &[Passing] = &[
    Passing {
        passes: &[0, 1],
        gives_up: false,
    },
    Passing {
        passes: &[0, 1, 0],
        gives_up: true,
    },
    Passing {
        passes: &[1, 1],
        gives_up: true,
    },
    Passing {
        passes: &[2, 2, 3, 2],
        gives_up: false,
    },
];

/// Whether a process gave up after these passes.
fn gives_up(passes: &[u32]) -> bool {
    let gate = HoldGate::new(0, 1, 10);
    for process in passes {
        gate.pass(*process);
    }
    gate.gave_up()
}

#[test]
fn a_process_that_is_alone_gives_up(rt: HostRuntime) -> Result<(), Fail> {
    for (at, row) in PASSINGS.iter().enumerate() {
        assert_eq!(rt; gives_up(row.passes), row.gives_up, "row {at}");
    }
    OpenGate.pass(0);
    Ok(())
}
