// A hook that processes pass before they act, for tests of scheduling.

use std::sync::atomic::{AtomicBool, AtomicU32, Ordering};
use std::thread;

/// What a process passes before each of its actions, without holding any lock. It may delay the process.
pub trait Gate {
    /// Called when `process` passes.
    fn pass(&self, process: u32);
}

/// A gate that delays no process.
#[derive(Clone, Copy, Debug)]
pub struct OpenGate;

impl Gate for OpenGate {
    fn pass(&self, _process: u32) {}
}

// One of the processes of a `HoldGate`, which is held at its second pass.
#[derive(Drop)]
struct HeldProc {
    process: u32,
    // How often the process has passed.
    passes: AtomicU32,
    // Whether its second pass has begun.
    has_begun: AtomicBool,
}

impl HeldProc {
    // The state before the process's first pass.
    fn new(process: u32) -> Self {
        HeldProc {
            process,
            passes: AtomicU32::new(0),
            has_begun: AtomicBool::new(false),
        }
    }

    // Counts a pass, and returns whether it is the second.
    fn is_second(&self) -> bool {
        self.passes.fetch_add(1, Ordering::SeqCst) == 1
    }

    // Polls at most `looks` times, yielding the processor in between, whether the second pass has begun.
    fn begins_within(&self, looks: u64) -> bool {
        for _ in 0..looks {
            if self.has_begun.load(Ordering::SeqCst) {
                return true;
            }
            thread::yield_now();
        }
        false
    }
}

/// Holds each of two processes at its second pass until the other's second pass has begun, or until it has polled `limit` times.
///
/// So a test can observe whether two processes run in parallel: if they run alternately, one of them gives up.
#[derive(Drop)]
pub struct HoldGate {
    one: HeldProc,
    other: HeldProc,
    // How often each process may poll.
    limit: u64,
    has_given_up: AtomicBool,
}

impl HoldGate {
    /// Holds these two processes, each for at most `limit` polls of the other.
    pub fn new(one: u32, other: u32, limit: u64) -> Self {
        HoldGate {
            one: HeldProc::new(one),
            other: HeldProc::new(other),
            limit,
            has_given_up: AtomicBool::new(false),
        }
    }

    /// Whether one of the two has polled as often as it may.
    pub fn gave_up(&self) -> bool {
        self.has_given_up.load(Ordering::SeqCst)
    }

    // Records the pass of one process, and holds it if it is its second.
    fn hold(&self, mine: &HeldProc, theirs: &HeldProc) {
        if mine.is_second() {
            mine.has_begun.store(true, Ordering::SeqCst);
            if !theirs.begins_within(self.limit) {
                self.has_given_up.store(true, Ordering::SeqCst);
            }
        }
    }
}

impl Gate for HoldGate {
    fn pass(&self, process: u32) {
        if process == self.one.process {
            self.hold(&self.one, &self.other);
        } else if process == self.other.process {
            self.hold(&self.other, &self.one);
        }
    }
}
