// The static types of expressions at the position of a call, given the dimensions of the foreach loops around it.

ghost use Rattle.std.specs.Prelude.{◌≡◌, ◌<◌, IfOk, reverse};
ghost use Rattle.ti_lang.specs.Program.Scope.{this_of};
ghost use Rattle.ti_lang.specs.Program.Views.{program_of, expression_of};
ghost use Rattle.ti_lang.specs.Typing.Kinds.{dim_of_type};
ghost use Rattle.ti_lang.specs.Typing.TyRef.{ty_view};
ghost use Rattle.ti_lang.specs.Mirrors.ListedDims.{dims_in};
ghost use Rattle.ti_lang.specs.Typing.TextTypes.{type_at};
ghost use Rattle.ti_lang.specs.Meaning.Scoping as scoping;
ghost use Rattle.ti_eval.specs.Envs.{env_of};
ghost use Rattle.ti_eval.specs.Frames.{method_seen, domain_in};
ghost use Rattle.ti_moves.specs.Receiving.{stm_seen};

use std::alloc::Global;
use ti_base::Memory;
use ti_eval::{Env, Resume, class_of_this};
use ti_lang::program::{Expr, Stmt};
use ti_lang::typing::{ForeachDims, TyRef, dims_of, syntactic_type_with};
use ti_moves::{body_of, statement_at};

// How many dimensions the domain of a `foreach` has, given those of the loops around it.
fn dims_of_domain(env: &Env, dims: &[ForeachDims], stmt: Option<&Stmt>) -> usize
    ensures { result ≡ dim_of_type (type_at (program_of env.now.program.now) (this_of (method_seen env.now.method))
        (dims_in (reverse dims.now)) (domain_in (stm_seen stmt.entry))) }
{
    match stmt {
        Some(s) => match s {
            Stmt::Foreach { domain, .. } => {
                dims_of(syntactic_type_with(env.program, class_of_this(env.method), dims, domain))
            }
            _ => 1,
        },
        None => 1,
    }
}

/// The dimensions of the foreach loops around the innermost statement, the outermost first.
pub fn dims_around(alloc: Global, env: &Env) -> Result<Vec<ForeachDims>, Memory>
    ensures { IfOk result (λ dims. dims_in (reverse dims.items) ≡ (env_of env.now).dims) }
{
    let body = body_of(env.method);
    let mut dims = Vec::new(alloc);
    for n in 1..env.levels.len() {
        if let Resume::Turn { variable, .. } = &env.levels[n].resume {
            let x = statement_at(body, &env.levels[..n]);
            let dim = dims_of_domain(env, &dims, x);
            dims.push(ForeachDims {
                variable: *variable,
                dims: dim,
            })?;
        }
    }
    Ok(dims)
}

/// The static type of an expression in the innermost statement.
pub fn type_here<'a>(alloc: Global, env: &Env<'a>, expr: &'a Expr) -> Result<TyRef<'a>, Memory>
    ensures { IfOk result (λ t. ty_view t ≡ scoping.type_here (env_of env.now) (expression_of expr.now)) }
{
    let dims = dims_around(alloc, env)?;
    Ok(syntactic_type_with(env.program, class_of_this(env.method), &dims, expr))
}
