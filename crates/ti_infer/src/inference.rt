// The entry point: collects the annotations that a program could have and the constraints on them, and solves these.
ghost use Rattle.std.specs.Prelude.{◌≡◌, [], IfOk};
ghost use Rattle.ti_lang.specs.Program.Views.{program_of};
ghost use Rattle.ti_rules.specs.TypeRules.{type_refusals};
ghost use Rattle.ti_infer.specs.Stripped.{stripped};
ghost use Rattle.ti_infer.specs.Answer.{GivesInferred};
ghost use Rattle.ti_infer.specs.Unaligned.{GivesUnaligned};
ghost use Rattle.ti_infer.specs.Mirrors.Solution.{IsSolved, GivesChainTo};

use crate::constraints::methods::program_edges;
use crate::constraints::whole_program::{candidate_marks, fits};
use std::alloc::Global;
use std::marker::Model;
use thiserror::Error;
use ti_base::{Memory, Place};
use ti_blame::{ChainStep, Implication, Mark, Reason, Solution, blame_chain, solve};
use ti_lang::program::Program;

/// A set of `single` annotations of a program, strictly sorted by place; at one place, a method comes before its result.
#[derive(Drop)]
pub struct Marking {
    marks: Vec<Mark>,
}

impl Model for Marking {
    ghost use Rattle.std.specs.Prelude.{List};
    ghost use Rattle.ti_blame.specs.declared.mark.Mark.{Mark};

    ghost Value = { List Mark };

    ghost view = { λ s. s.marks.items };
}

impl Marking {
    /// The annotations, strictly sorted by place; at one place, a method comes before its result.
    pub fn marks(&self) -> &[Mark]
        ensures { result.now ≡ self.now }
    {
        &self.marks
    }
}

/// Why no marking was inferred.
#[derive(Debug, Drop, Error)]
pub enum InferErr {
    /// No marking makes the program acceptable. The place is that of the first collective for which even the collectives up to it can't
    /// be aligned.
    #[error("no marking of single values aligns the collectives")]
    NoMarking(Place),
    /// Out of memory.
    #[error("out of memory")]
    Memory,
}

impl From<Memory> for InferErr {
    ghost use Rattle.std.specs.Prelude.{◌≡◌};
    ghost use Rattle.ti_infer.specs.declared.inference.InferErr.TheVariants.{Memory};

    ghost from_gives = { λ _ e. e ≡ Memory };

    fn from(_: Memory) -> InferErr {
        InferErr::Memory
    }
}

/// Why no marking is accepted: the place of the first collective for which even the collectives up to it can't be aligned, and a chain of
/// constraints of the program that leads to it.
#[derive(Drop)]
pub struct Unaligned {
    pub place: Place,
    pub steps: Vec<ChainStep>,
}

// The annotations that a program could have (`names`), its reasons and its constraints, and their solution.
#[derive(Drop)]
struct Solved {
    names: Vec<Mark>,
    items: Vec<Reason>,
    edges: Vec<Implication>,
    solution: Solution,
}

// The constraints of a program, and their solution: the greatest marking, and the first collective that no marking aligns, if there is one.
// Errors only if it runs out of memory.
fn solve_program(alloc: Global, program: &Program) -> Result<Solved, Memory>
    requires types { type_refusals (program_of program.now.parts) ≡ [] }
    requires stripped { stripped (program_of program.now.parts) ≡ program_of program.now.parts }
    ensures { IfOk result (IsSolved (program_of program.now.parts)) }
{
    let names = candidate_marks(alloc, program)?;
    let found = program_edges(alloc, program)?;
    let items = found.items;
    let mut edges = found.edges;
    fits(alloc, program, &mut edges)?;
    let solution = solve(alloc, &names, &items, &edges)?;
    Ok(Solved {
        names,
        items,
        edges,
        solution,
    })
}

/// Infers the greatest marking under which the program is accepted: each accepted marking is a subset of it.
///
/// The program must have no keyword `single` except at `main` and in casts, and break no rule of types and qualifiers. If no marking is
/// accepted, the error is `NoMarking` with the place of the first collective up to which none is; the other error is running out of
/// memory.
pub fn infer(alloc: Global, program: &Program) -> Result<Marking, InferErr>
    requires types { type_refusals (program_of program.now.parts) ≡ [] }
    requires stripped { stripped (program_of program.now.parts) ≡ program_of program.now.parts }
    ensures { GivesInferred (program_of program.now.parts) result }
{
    let found = solve_program(alloc, program)?;
    match found.solution.blamed {
        Some(at) => Err(InferErr::NoMarking(at)),
        None => Ok(Marking {
            marks: found.solution.marks,
        }),
    }
}

// The chain of the constraints to the collective at a place. None if there is no such chain.
fn chain_to(alloc: Global, found: &Solved, place: Place) -> Result<Option<Unaligned>, Memory>
    ensures { IfOk result (GivesChainTo found.now place) }
{
    match blame_chain(alloc, &found.names, &found.items, &found.edges, place)? {
        Some(steps) => Ok(Some(Unaligned { place, steps })),
        None => Ok(None),
    }
}

/// Why no marking of a program is accepted, or none if one is: then `infer` finds the greatest one. The program must be one for `infer`.
/// Errors only if it runs out of memory.
pub fn unaligned_chain(alloc: Global, program: &Program) -> Result<Option<Unaligned>, Memory>
    requires types { type_refusals (program_of program.now.parts) ≡ [] }
    requires stripped { stripped (program_of program.now.parts) ≡ program_of program.now.parts }
    ensures { IfOk result (GivesUnaligned (program_of program.now.parts)) }
{
    let found = solve_program(alloc, program)?;
    match found.solution.blamed {
        Some(place) => chain_to(alloc, &found, place),
        None => Ok(None),
    }
}
