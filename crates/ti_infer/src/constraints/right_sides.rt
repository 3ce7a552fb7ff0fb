// Constraints of expressions that are a whole statement or right side: only these can be calls and collectives.
ghost use Rattle.std.specs.Prelude.{◌≡◌, ◌++◌, ◌∷◌, [], map, OnOk, if◌then◌else◌};
ghost use Rattle.std.specs.Option.{option_map};
ghost use Rattle.ti_lang.specs.Program.Expressions.{numbered_exps};
ghost use Rattle.ti_lang.specs.Program.Scope.{this_of};
ghost use Rattle.ti_lang.specs.Program.Views.{expression_of, initial_of};
ghost use Rattle.ti_lang.specs.Typing.Called.{called_method, member_called};
ghost use Rattle.ti_lang.specs.Typing.TyRef.{built_in_of};
ghost use Rattle.ti_rules.specs.SingleRules.{is_delete};
ghost use Rattle.ti_blame.specs.declared.reason.Reason.TheVariants.{OfCollective};
ghost use Rattle.ti_blame.specs.declared.implication.Conclusion.TheVariants.{One};
ghost use Rattle.ti_infer.specs.Mirrors.Implications.{one_each, call_edges, whole_edges, initial_edges};
ghost use Rattle.ti_infer.specs.Mirrors.Sites.{program_at, method_of_site, inside_of, dependencies_at, member_edges};

use crate::constraints::implications::{call, one_each, part_dependencies};
use crate::constraints::reads::{built_in, callee};
use crate::constraints::site::{MethodSite, VariableDeps};
use std::alloc::Global;
use ti_base::{Memory, Place};
use ti_blame::{Conclusion, Implication, Reason};
use ti_lang::program::{Expr, Init};
use ti_lang::typing::BuiltIn;
use ti_single::{deref_expr, deref_exprs};

fn is_delete(member: Option<BuiltIn>) -> bool
    ensures { result ≡ is_delete (option_map built_in_of member) }
{
    matches!(member, Some(BuiltIn::Delete))
}

fn is_deleting(site: MethodSite, receiver: &Expr, name: u32) -> bool
    ensures { result ≡ is_delete (member_called (program_at site.entry) (this_of (method_of_site site.entry))
        (expression_of receiver.now) name) }
{
    is_delete(built_in(site, receiver, name))
}

// Appends constraints of a collective at a place: unless the expression is single, the collective is ruled out.
fn collective_edges(
    alloc: Global,
    site: MethodSite,
    inside: &[VariableDeps],
    place: Place,
    expr: &Expr,
    out: &mut Vec<Implication>,
) -> Result<(), Memory>
    ensures { OnOk result (out.new.items ≡ out.old.items ++ one_each (dependencies_at site.entry inside.now (expression_of expr.now))
        (One (OfCollective place))) }
{
    let found = part_dependencies(alloc, site, inside, expr)?;
    one_each(&found, Conclusion::One(Reason::OfCollective(place)), out)
}

// Appends the constraints of a member that deletes a region, whose receiver has to be single; none for other members.
fn deletion_edges(
    alloc: Global,
    site: MethodSite,
    inside: &[VariableDeps],
    place: Place,
    receiver: &Expr,
    name: u32,
    out: &mut Vec<Implication>,
) -> Result<(), Memory>
    ensures { OnOk result (out.new.items ≡ out.old.items ++ (if is_delete
        (member_called (program_at site.entry) (this_of (method_of_site site.entry)) (expression_of receiver.now) name) then one_each
        (dependencies_at site.entry inside.now (expression_of receiver.now)) (One (OfCollective place)) else [])) }
{
    if is_deleting(site, receiver, name) {
        collective_edges(alloc, site, inside, place, receiver, out)
    } else {
        Ok(())
    }
}

// Appends the constraints of a member form: those of its arguments if it calls a method, and those of a deletion.
#[tactic(auto, using(crate::proofs::Pushing::pushing))]
fn member(
    alloc: Global,
    site: MethodSite,
    target: Conclusion,
    inside: &[VariableDeps],
    expr: &Expr,
    place: Place,
    receiver: &Expr,
    name: u32,
    args: &[Expr],
    out: &mut Vec<Implication>,
) -> Result<(), Memory>
    ensures { OnOk result (out.new.items ≡ out.old.items ++ member_edges site.entry target inside.now expr.now place receiver.now name args.now) }
{
    let m = callee(site, expr);
    call(alloc, site, target, inside, m, args, out)?;
    deletion_edges(alloc, site, inside, place, receiver, name, out)
}

// Appends the constraints of a call by a method's name.
fn named_call_edges(
    alloc: Global,
    site: MethodSite,
    target: Conclusion,
    inside: &[VariableDeps],
    expr: &Expr,
    args: &[Expr],
    out: &mut Vec<Implication>,
) -> Result<(), Memory>
    ensures { OnOk result (out.new.items ≡ out.old.items ++ call_edges (program_at site.entry) (method_of_site site.entry) target
        (inside_of inside.now) (called_method (program_at site.entry) (this_of (method_of_site site.entry)) (expression_of expr.now))
        (numbered_exps (map expression_of args.now))) }
{
    let m = callee(site, expr);
    call(alloc, site, target, inside, m, args, out)
}

/// Appends the constraints of an expression that is a whole statement or right side. `target` are the reasons of the method around it.
#[tactic(auto, using(ti_lang::proofs::Lemmas::program_bridges))]
pub fn whole_edges(
    alloc: Global,
    site: MethodSite,
    target: Conclusion,
    inside: &[VariableDeps],
    expr: &Expr,
    out: &mut Vec<Implication>,
) -> Result<(), Memory>
    ensures { OnOk result (out.new.items ≡ out.old.items ++ whole_edges (program_at site.entry) (method_of_site site.entry) target
        (inside_of inside.now) (expression_of expr.now)) }
{
    match expr {
        Expr::Call { args, .. } => {
            named_call_edges(alloc, site, target, inside, expr, deref_exprs(args), out)
        }
        Expr::OwnCall { args, .. } => {
            named_call_edges(alloc, site, target, inside, expr, deref_exprs(args), out)
        }
        Expr::Member {
            place,
            receiver,
            name,
            args,
        } => member(
            alloc,
            site,
            target,
            inside,
            expr,
            *place,
            deref_expr(receiver),
            *name,
            deref_exprs(args),
            out,
        ),
        _ => Ok(()),
    }
}

/// Appends the constraints of a right side, without those of what it is assigned to. The root of a broadcast has to be single.
pub fn initial(
    alloc: Global,
    site: MethodSite,
    target: Conclusion,
    inside: &[VariableDeps],
    value: &Init,
    out: &mut Vec<Implication>,
) -> Result<(), Memory>
    ensures { OnOk result (out.new.items ≡ out.old.items ++ initial_edges (program_at site.entry) (method_of_site site.entry) target
        (inside_of inside.now) (initial_of value.now)) }
{
    match value {
        Init::Value(e) => whole_edges(alloc, site, target, inside, e, out),
        Init::Broadcast { place, root, .. } => collective_edges(
            alloc, site, inside, *place, root, out,
        ),
        Init::NewRegion(_) => Ok(()),
        Init::NewObject { .. } => Ok(()),
        Init::NewGrid { .. } => Ok(()),
    }
}
