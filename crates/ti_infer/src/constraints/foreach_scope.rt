// The context of the body of a foreach: the variables in scope, and which annotations make foreach variables single.
ghost use Rattle.std.specs.Prelude.{◌≡◌, false, [], map, IfOk};
ghost use Rattle.ti_lang.specs.Program.Scope.{in_scope_of, contents_of};
ghost use Rattle.ti_lang.specs.Program.Views.{expression_of};
ghost use Rattle.ti_rules.specs.StmtInContext.{with_foreach_variable};
ghost use Rattle.ti_infer.specs.Mirrors.Implications.{extend_distinct, inside_foreach, variables_foreach};
ghost use Rattle.ti_infer.specs.Mirrors.Sites.{program_at, method_of_site, inside_of, dependencies_at};
ghost use Rattle.ti_infer.specs.Mirrors.StmtSites.{variables_at};

use crate::constraints::copies::{extend_distinct, insides, variables};
use crate::constraints::implications::part_dependencies;
use crate::constraints::site::{StmtSite, VariableDeps};
use crate::constraints::stmt_implications::dim;
use std::alloc::Global;
use ti_base::Memory;
use ti_blame::Mark;
use ti_lang::program::{Expr, InScope, Scope};
use ti_lang::typing::TyRef;

// The variables with that of a foreach over a domain of `dim` dimensions. None is added if the expression isn't a domain.
fn with_variable(
    alloc: Global,
    old: &[InScope],
    number: u32,
    dim: Option<usize>,
) -> Result<Vec<InScope>, Memory>
    ensures { IfOk result (λ v. map in_scope_of v.items ≡ with_foreach_variable (map in_scope_of old.now) number false dim) }
{
    let mut found = variables(alloc, old)?;
    match dim {
        Some(dim) => {
            found.push(InScope {
                number,
                ty: TyRef::Pt(dim).copy(alloc)?,
                single: false,
            })?;
            Ok(found)
        }
        None => Ok(found),
    }
}

/// The scope of the body of a foreach whose variable has this number. Errors only if it runs out of memory.
pub fn scope_inside(
    alloc: Global,
    context: StmtSite,
    number: u32,
    domain: &Expr,
) -> Result<Scope, Memory>
    ensures this { IfOk result (λ s. s.this ≡ context.entry.scope.now.this) }
    ensures variables { IfOk result (λ s. (contents_of s).variables
        ≡ variables_foreach (program_at context.entry.site) (method_of_site context.entry.site) context.entry.whole (variables_at context.entry) number
        (expression_of domain.now)) }
{
    let variables = with_variable(
        alloc,
        &context.scope.variables,
        number,
        dim(context, domain),
    )?;
    Ok(Scope {
        this: context.scope.this,
        variables,
        method: context.scope.method,
        innermost_loop: context.scope.innermost_loop,
    })
}

// The annotations that make a domain single, without duplicates.
fn distinct_dependencies(
    alloc: Global,
    context: StmtSite,
    domain: &Expr,
) -> Result<Vec<Option<Mark>>, Memory>
    ensures { IfOk result (λ v. v.items ≡ extend_distinct [] (dependencies_at context.entry.site context.entry.inside.now (expression_of domain.now))) }
{
    let all = part_dependencies(alloc, context.site, context.inside, domain)?;
    let mut found = Vec::new(alloc);
    extend_distinct(&mut found, &all)?;
    Ok(found)
}

/// What makes variables single in the body of a foreach: `a.inside`, and for its own variable that which makes its domain single.
pub fn with_own(
    alloc: Global,
    context: StmtSite,
    number: u32,
    domain: &Expr,
) -> Result<Vec<VariableDeps>, Memory>
    ensures { IfOk result (λ v. inside_of v.items ≡ inside_foreach (program_at context.entry.site) (method_of_site context.entry.site) context.entry.whole
        (variables_at context.entry) (inside_of context.entry.inside.now) number (expression_of domain.now)) }
{
    let mut found = insides(alloc, context.inside)?;
    if dim(context, domain).is_some() {
        let dependencies = distinct_dependencies(alloc, context, domain)?;
        found.push(VariableDeps {
            number,
            dependencies,
        })?;
    }
    Ok(found)
}
