// The outcomes of statements: what a statement does to its process is returned as a value, which ti_exec applies.

use ti_base::{CollKind, Deposit, Id, Place};
use ti_eval::{ChildIndex, Resume, Slot, VarValue};
use ti_lang::program::Variable;

/// The change of the variables in scope.
#[derive(Drop)]
pub enum VarUpdate<'c> {
    /// They are unchanged.
    Same,
    /// There is a new one.
    New(Slot),
    /// The newest variable that is the same gets this value, if it is in scope.
    Changed(&'c Variable, VarValue),
}

/// An arrival at a collective.
#[derive(Clone, Copy)]
pub struct CollectiveCall {
    pub place: Place,
    pub kind: CollKind,
    /// The root of a broadcast, or the region that is deleted.
    pub arg: Option<u32>,
}

/// The pending work of a statement.
#[derive(Drop)]
pub enum Continuation {
    /// This work.
    Own(Resume),
    /// A part of the statement, and then this work.
    Child(ChildIndex, Resume),
}

/// The outcome of a statement.
#[derive(Drop)]
pub enum StmtOutcome<'c> {
    /// The variables change, and this work is pending.
    Goes(VarUpdate<'c>, Continuation),
    /// A break out of the innermost loop.
    Breaks,
    /// A continue with the next iteration of the innermost loop.
    Continues,
    /// A call of the method with this number, for whose value the statement waits; `this` is its object.
    Calls {
        place: Place,
        method: usize,
        this: Option<Id>,
        parameters: Vec<Slot>,
    },
    /// A return from the method, with a value or without one.
    Returns(Option<VarValue>),
    /// An arrival at a collective that yields no value; afterwards this work is pending.
    Meets {
        collective: CollectiveCall,
        deposit: Deposit,
        resume: Resume,
    },
    /// An arrival at a collective for whose value the statement waits.
    Expects {
        collective: CollectiveCall,
        deposit: Deposit,
    },
    /// An arrival at the deletion of a region. The contribution is counted over all frames by the caller.
    Deletes {
        place: Place,
        region: u32,
    },
}
