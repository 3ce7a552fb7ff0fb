// The values of `new`: new objects and grids.

ghost use Rattle.std.specs.Prelude.{◌≡◌};
ghost use Rattle.ti_syntax.specs.Trees.Views.{maybe_of};
ghost use Rattle.ti_lang.specs.Program.Views.{expression_of, extent_of, value_type_of};
ghost use Rattle.ti_lang.specs.Meaning.Makers as makers;
ghost use Rattle.ti_eval.specs.Comes.{Comes};
ghost use Rattle.ti_eval.specs.Envs.{env_of};

use std::alloc::Global;
use ti_base::{Action, Place};
use ti_eval::{CanonicalAnswer, Env, Interrupt, VarValue, evaluate, rectangle, request};
use ti_lang::program::{Dims, Expr, Ty};
use ti_lang::typing::zero_of_type;

// ---- the region

// The region of a new object or grid; 0 if none is given.
#[tactic(auto, using(ti_eval::proofs::Lemmas::steps))]
fn region_for<'a>(
    alloc: Global,
    env: &Env,
    region: &Option<Expr>,
    answers: &'a [CanonicalAnswer],
) -> Result<(u32, &'a [CanonicalAnswer]), Interrupt>
    ensures { Comes result (makers.region_for (env_of env.now) (maybe_of expression_of region.now) answers.now) }
{
    match region {
        Some(x) => {
            let (h, answers) = evaluate(alloc, env, x, answers)?;
            Ok((h.region(), answers))
        }
        None => Ok((0, answers)),
    }
}

// ---- objects

/// `new C()`, in a region or not.
#[tactic(auto, using(ti_eval::proofs::Lemmas::steps))]
pub fn new_object<'a>(
    alloc: Global,
    env: &Env,
    place: Place,
    region: &Option<Expr>,
    class: u32,
    answers: &'a [CanonicalAnswer],
) -> Result<(VarValue, &'a [CanonicalAnswer]), Interrupt>
    ensures { Comes result (makers.new_object (env_of env.now) place (maybe_of expression_of region.now) class answers.now) }
{
    let (region, answers) = region_for(alloc, env, region, answers)?;
    request(place, Action::NewObj { class, region }, answers)
}

// ---- grids

// The domain of a new grid.
fn spread<'a>(
    alloc: Global,
    env: &Env,
    place: Place,
    dims: &Dims,
    answers: &'a [CanonicalAnswer],
) -> Result<(VarValue, &'a [CanonicalAnswer]), Interrupt>
    ensures { Comes result (makers.spread (env_of env.now) place (extent_of dims.now) answers.now) }
{
    match dims {
        Dims::Domain(x) => evaluate(alloc, env, x, answers),
        Dims::Ranges(ranges) => rectangle(alloc, env, place, ranges, answers),
    }
}

/// `new T [D]`, in a region or not.
#[tactic(auto, using(ti_eval::proofs::Lemmas::steps))]
pub fn new_grid<'a>(
    alloc: Global,
    env: &Env,
    place: Place,
    region: &Option<Expr>,
    element: &Ty,
    bracket: Place,
    dims: &Dims,
    answers: &'a [CanonicalAnswer],
) -> Result<(VarValue, &'a [CanonicalAnswer]), Interrupt>
    ensures { Comes result (makers.new_grid (env_of env.now) place (maybe_of expression_of region.now) (value_type_of element.now) bracket
        (extent_of dims.now) answers.now) }
{
    let (region, answers) = region_for(alloc, env, region, answers)?;
    let (h, answers) = spread(alloc, env, bracket, dims, answers)?;
    let zero = zero_of_type(element);
    let dom = h.rect();
    request(place, Action::NewGrid { zero, dom, region }, answers)
}
