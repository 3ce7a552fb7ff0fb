// Which annotations an expression requires to be single. A requirement `None` says that it can't be single under any marking.
ghost use Rattle.std.specs.Prelude.{◌≡◌, ◌++◌, ◌∷◌, [], map, not, OnOk};
ghost use Rattle.std.specs.Option.{option_map};
ghost use Rattle.ti_lang.specs.Program.Expressions.{numbered_exps, numbered_ranges};
ghost use Rattle.ti_lang.specs.Program.Scope.{this_of};
ghost use Rattle.ti_lang.specs.Program.Views.{expression_of, bound_of, variable_of};
ghost use Rattle.ti_lang.specs.Typing.Kinds.{is_point_type};
ghost use Rattle.ti_lang.specs.Typing.TyRef.{ty_view, built_in_of};
ghost use Rattle.ti_lang.specs.Typing.TextTypes.{syntactic_type};
ghost use Rattle.ti_lang.specs.Typing.Called.{member_called};
ghost use Rattle.ti_lang.specs.Typing.Singleness.{tells_of_domain};
ghost use Rattle.ti_infer.specs.Marks.{variable_place};
ghost use Rattle.ti_infer.specs.Mirrors.Dependencies.{variable_mark, plain_if, variable_dependencies};
ghost use Rattle.ti_infer.specs.Mirrors.Implications.{inside_at};
ghost use Rattle.ti_infer.specs.Mirrors.Sites.{program_at, method_of_site, inside_of, dependencies_at, all_dependencies_at, range_dependencies_at, ranges_dependencies_at};

use crate::constraints::reads::{built_in, static_type};
use crate::constraints::reasons::place_at;
use crate::constraints::site::{MethodSite, VariableDeps};
use ti_base::Memory;
use ti_blame::{Mark, MarkKind};
use ti_lang::program::{Declared, Expr, Range, Variable};
use ti_lang::typing::{BuiltIn, TyRef};
use ti_single::{deref_expr, deref_exprs, deref_ranges, deref_type};

// ---- variables

// The annotation of a declared variable.
fn declared_dependency(site: MethodSite, number: u32) -> Option<Mark>
    ensures { result ≡ option_map variable_mark (variable_place (method_of_site site.entry) number) }
{
    match place_at(site, number) {
        Some(place) => Some(Mark {
            place,
            kind: MarkKind::Variable,
        }),
        None => None,
    }
}

// Appends what the variable of an enclosing foreach requires to be single.
fn foreach_dependencies(
    inside: &[VariableDeps],
    number: u32,
    out: &mut Vec<Option<Mark>>,
) -> Result<(), Memory>
    ensures { OnOk result (out.new.items ≡ out.old.items ++ inside_at (inside_of inside.now) number) }
{
    for v in inside {
        if v.number == number {
            out.extend_from_slice(&v.dependencies)?;
            return Ok(());
        }
    }
    out.push(None)?;
    Ok(())
}

// Appends what a variable requires to be single.
fn variable(
    site: MethodSite,
    inside: &[VariableDeps],
    variable: &Variable,
    out: &mut Vec<Option<Mark>>,
) -> Result<(), Memory>
    ensures { OnOk result (out.new.items ≡ out.old.items ++ variable_dependencies (program_at site.entry) (method_of_site site.entry)
        (inside_at (inside_of inside.now)) (variable_of variable.now).number (variable_of variable.now).declared) }
{
    match &variable.declared {
        Declared::Typed { .. } => Ok(out.push(declared_dependency(site, variable.number))?),
        Declared::Foreach => foreach_dependencies(inside, variable.number, out),
    }
}

// ---- members

fn is_point(ty: TyRef) -> bool
    ensures { result ≡ is_point_type (ty_view ty.entry) }
{
    matches!(ty, TyRef::Pt(_))
}

fn tells_of_domain(member: Option<BuiltIn>) -> bool
    ensures { result ≡ tells_of_domain (option_map built_in_of member) }
{
    matches!(
        member,
        Some(BuiltIn::Size | BuiltIn::Min | BuiltIn::Max | BuiltIn::Contains)
    )
}

// Whether the receiver of an index is a point: its coordinates are single if it is, whereas elements of grids never are.
fn indexes_point(site: MethodSite, receiver: &Expr) -> bool
    ensures { result ≡ is_point_type (syntactic_type (program_at site.entry) (this_of (method_of_site site.entry)) (expression_of receiver.now)) }
{
    is_point(static_type(site, receiver))
}

// Whether the member is a query of a domain (`size`, `min`, `max` or `contains`), which can be single.
fn tells(site: MethodSite, receiver: &Expr, name: u32) -> bool
    ensures { result ≡ tells_of_domain (member_called (program_at site.entry) (this_of (method_of_site site.entry))
        (expression_of receiver.now) name) }
{
    tells_of_domain(built_in(site, receiver, name))
}

/// Appends the requirement that no marking satisfies, if the test holds.
pub fn plain_if(test: bool, out: &mut Vec<Option<Mark>>) -> Result<(), Memory>
    ensures { OnOk result (out.new.items ≡ out.old.items ++ plain_if test) }
{
    if test {
        out.push(None)?;
    }
    Ok(())
}

// ---- expressions

#[cycle(dependencies)]
fn all(
    site: MethodSite,
    inside: &[VariableDeps],
    exprs: &[Expr],
    out: &mut Vec<Option<Mark>>,
) -> Result<(), Memory>
    ensures { OnOk result (out.new.items ≡ out.old.items ++ all_dependencies_at site.entry inside.now (numbered_exps (map expression_of exprs.now))) }
{
    for x in exprs {
        dependencies(site, inside, x, out)?;
    }
    Ok(())
}

#[cycle(dependencies)]
fn range(
    site: MethodSite,
    inside: &[VariableDeps],
    range: &Range,
    out: &mut Vec<Option<Mark>>,
) -> Result<(), Memory>
    ensures { OnOk result (out.new.items ≡ out.old.items ++ range_dependencies_at site.entry inside.now (bound_of range.now)) }
{
    match range {
        Range::Plain { low, high } => {
            dependencies(site, inside, low, out)?;
            dependencies(site, inside, high, out)
        }
        Range::Stepped { low, high, step } => {
            dependencies(site, inside, low, out)?;
            dependencies(site, inside, high, out)?;
            dependencies(site, inside, step, out)
        }
    }
}

#[cycle(dependencies)]
fn all_ranges(
    site: MethodSite,
    inside: &[VariableDeps],
    found: &[Range],
    out: &mut Vec<Option<Mark>>,
) -> Result<(), Memory>
    ensures { OnOk result (out.new.items ≡ out.old.items ++ ranges_dependencies_at site.entry inside.now (numbered_ranges (map bound_of found.now))) }
{
    for r in found {
        range(site, inside, r, out)?;
    }
    Ok(())
}

/// Appends what an expression requires to be single as a condition, an argument or a part of another expression. A method call can't be
/// single there.
#[cycle(dependencies)]
#[tactic(auto, using(ti_lang::proofs::Lemmas::program_bridges, crate::proofs::Pushing::pushing))]
pub fn dependencies(
    site: MethodSite,
    inside: &[VariableDeps],
    expr: &Expr,
    out: &mut Vec<Option<Mark>>,
) -> Result<(), Memory>
    ensures { OnOk result (out.new.items ≡ out.old.items ++ dependencies_at site.entry inside.now (expression_of expr.now)) }
{
    match expr {
        Expr::Int(_, _) | Expr::Long(_, _) | Expr::Bool(_, _) | Expr::NumProcs(_) => Ok(()),
        Expr::Variable(_, v) => variable(site, inside, v, out),
        Expr::Point(_, xs) => all(site, inside, deref_exprs(xs), out),
        Expr::Rect(_, found) => all_ranges(site, inside, deref_ranges(found), out),
        Expr::Unary { operand, .. } => dependencies(site, inside, deref_expr(operand), out),
        Expr::Binary { left, right, .. } => {
            dependencies(site, inside, deref_expr(left), out)?;
            dependencies(site, inside, deref_expr(right), out)
        }
        Expr::Cast { to, operand, .. } => {
            plain_if(TyRef::of(&deref_type(to).ty, false).is_local(), out)?;
            dependencies(site, inside, deref_expr(operand), out)
        }
        Expr::Index {
            receiver,
            indices,
            ..
        } => {
            let receiver = deref_expr(receiver);
            plain_if(!indexes_point(site, receiver), out)?;
            dependencies(site, inside, receiver, out)?;
            all(site, inside, deref_exprs(indices), out)
        }
        Expr::Member {
            receiver,
            name,
            args,
            ..
        } => {
            let receiver = deref_expr(receiver);
            plain_if(!tells(site, receiver, *name), out)?;
            dependencies(site, inside, receiver, out)?;
            all(site, inside, deref_exprs(args), out)
        }
        Expr::Null(_)
        | Expr::This(_)
        | Expr::OwnField(_, _)
        | Expr::ThisProc(_)
        | Expr::Call { .. }
        | Expr::OwnCall { .. }
        | Expr::Select { .. } => Ok(out.push(None)?),
    }
}
