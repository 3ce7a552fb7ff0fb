// Of a whole program: which annotations are possible, and the constraints that rule out those that aren't allowed where they would be.
ghost use Rattle.std.specs.Prelude.{◌≡◌, ◌++◌, map, flat_map, OnOk, IfOk};
ghost use Rattle.ti_lang.specs.Program.Views.{program_of, numbered_method_of};
ghost use Rattle.ti_infer.specs.Candidates.{method_candidates, candidate_marks};
ghost use Rattle.ti_infer.specs.Mirrors.Fits.{method_fit_edges, fit_edges};

use crate::constraints::candidates::method_candidates;
use crate::constraints::fits::method_fits;
use std::alloc::Global;
use ti_base::Memory;
use ti_blame::{Implication, Mark};
use ti_lang::program::{Method, Program};

fn candidates_in(alloc: Global, methods: &[Method], out: &mut Vec<Mark>) -> Result<(), Memory>
    ensures { OnOk result (out.new.items ≡ out.old.items ++ flat_map method_candidates (map numbered_method_of methods.now)) }
{
    for m in methods {
        method_candidates(alloc, m, out)?;
    }
    Ok(())
}

/// All annotations that a program could have: of its methods, their results, parameters and local variables. Errors only if it runs out
/// of memory.
pub fn candidate_marks(alloc: Global, program: &Program) -> Result<Vec<Mark>, Memory>
    ensures { IfOk result (λ v. v.items ≡ candidate_marks (program_of program.now.parts)) }
{
    let mut found = Vec::new(alloc);
    candidates_in(alloc, &program.parts.methods, &mut found)?;
    Ok(found)
}

fn fits_in(alloc: Global, methods: &[Method], out: &mut Vec<Implication>) -> Result<(), Memory>
    ensures { OnOk result (out.new.items ≡ out.old.items ++ flat_map method_fit_edges (map numbered_method_of methods.now)) }
{
    for m in methods {
        method_fits(alloc, m, out)?;
    }
    Ok(())
}

/// Appends the constraints that rule out annotations not allowed where they would be, and tie those of parameters to that of their
/// method.
pub fn fits(alloc: Global, program: &Program, out: &mut Vec<Implication>) -> Result<(), Memory>
    ensures { OnOk result (out.new.items ≡ out.old.items ++ fit_edges (program_of program.now.parts)) }
{
    fits_in(alloc, &program.parts.methods, out)
}
