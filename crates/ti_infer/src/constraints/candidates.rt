// Which annotations a method could have.
ghost use Rattle.std.specs.Prelude.{◌≡◌, ◌++◌, map, OnOk};
ghost use Rattle.ti_lang.specs.Program.Views.{numbered_param_of, numbered_result_of, numbered_method_of};
ghost use Rattle.ti_infer.specs.Candidates.{variable_candidate, param_candidate, result_candidates, method_candidates};
ghost use Rattle.ti_infer.specs.Mirrors.Locals.{local_candidates};

use crate::local::{Local, locals};
use crate::places::listed_params;
use std::alloc::Global;
use ti_base::{Memory, Place};
use ti_blame::{Mark, MarkKind};
use ti_lang::program::{Method, Param, ResultType};

fn variable_candidate(place: Place) -> Mark
    ensures { result ≡ variable_candidate place }
{
    Mark {
        place,
        kind: MarkKind::Variable,
    }
}

fn of_result(place: Place, ty: &ResultType, out: &mut Vec<Mark>) -> Result<(), Memory>
    ensures { OnOk result (out.new.items ≡ out.old.items ++ result_candidates place (numbered_result_of ty.now)) }
{
    match ty {
        ResultType::Void => Ok(()),
        ResultType::Typed(_) => Ok(out.push(Mark {
            place,
            kind: MarkKind::Result,
        })?),
    }
}

fn of_params(params: &[Param], out: &mut Vec<Mark>) -> Result<(), Memory>
    ensures { OnOk result (out.new.items ≡ out.old.items ++ map param_candidate (map numbered_param_of params.now)) }
{
    for w in params {
        out.push(variable_candidate(w.place))?;
    }
    Ok(())
}

fn of_locals(found: &[Local], out: &mut Vec<Mark>) -> Result<(), Memory>
    ensures { OnOk result (out.new.items ≡ out.old.items ++ local_candidates found.now) }
{
    for l in found {
        out.push(variable_candidate(l.place))?;
    }
    Ok(())
}

/// Appends the annotations that a method could have: its own, that of its result unless it's `void`, those of its parameters and those of
/// its local variables.
pub fn method_candidates(alloc: Global, method: &Method, out: &mut Vec<Mark>) -> Result<(), Memory>
    ensures { OnOk result (out.new.items ≡ out.old.items ++ method_candidates (numbered_method_of method.now)) }
{
    out.push(Mark {
        place: method.place,
        kind: MarkKind::Method,
    })?;
    of_result(method.place, &method.result, out)?;
    of_params(listed_params(&method.params), out)?;
    let declared = locals(alloc, method)?;
    of_locals(&declared, out)
}
