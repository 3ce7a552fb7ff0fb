// Unary constraints, which rule out an annotation where `single` isn't allowed, and constraints of parameters, which can be single only
// if their method is.
ghost use Rattle.std.specs.Prelude.{◌≡◌, true, not, is_some, ◌++◌, ◌∷◌, [], map, OnOk, IfOk};
ghost use Rattle.ti_lang.specs.Program.Statements.{numbered_stms};
ghost use Rattle.ti_lang.specs.Program.Views.{type_use_of, numbered_param_of, numbered_result_of, numbered_method_of};
ghost use Rattle.ti_infer.specs.Marked.{marked_type};
ghost use Rattle.ti_infer.specs.Mirrors.Implications.{one_each, own_dependencies};
ghost use Rattle.ti_infer.specs.Mirrors.Fits.{rule_out_unless, accepts_single, method_accepts_single, result_edges, param_edges, method_fit_edges};
ghost use Rattle.ti_infer.specs.Mirrors.Locals.{local_edges};

use crate::local::{Local, locals};
use crate::places::listed_params;
use std::alloc::Global;
use ti_base::{Memory, Place};
use ti_blame::{Conclusion, Implication, Mark, MarkKind, Reason};
use ti_lang::program::{Method, Param, ResultType, TypeUse, has_static, is_single};
use ti_rules::Refusal;
use ti_syntax::tree::{Qualifier, QualifierWord};
use ti_types::type_words;

// ---- types

/// Makes a type single: sets its flag and appends the qualifier `single` with this place.
pub fn mark_type(place: Place, ty: &mut TypeUse) -> Result<(), Memory>
    ensures { OnOk result (type_use_of ty.new ≡ marked_type true place (type_use_of ty.old)) }
{
    ty.single = true;
    ty.qualifiers.push(Qualifier {
        word: QualifierWord::Single,
        place: place,
    })?;
    Ok(())
}

fn is_unbroken(found: Option<Refusal>) -> bool
    ensures { result ≡ not (is_some found) }
{
    match found {
        Some(_) => false,
        None => true,
    }
}

/// Whether a declared type would still be allowed with the qualifier `single` appended. Errors only if it runs out of memory.
pub fn accepts_single(alloc: Global, place: Place, ty: &TypeUse) -> Result<bool, Memory>
    ensures { IfOk result (λ b. b ≡ accepts_single place (type_use_of ty.now)) }
{
    let mut marked = ty.copy(alloc)?;
    mark_type(place, &mut marked)?;
    Ok(is_unbroken(type_words(true, &marked)))
}

// ---- constraints

// Appends a constraint that rules this out unconditionally, unless the test holds.
fn rule_out_unless(test: bool, what: Reason, out: &mut Vec<Implication>) -> Result<(), Memory>
    ensures { OnOk result (out.new.items ≡ out.old.items ++ rule_out_unless test what) }
{
    if !test {
        out.push(Implication {
            from: None,
            then: Conclusion::One(what),
        })?;
    }
    Ok(())
}

/// Appends a constraint: unless the method is annotated, the conclusion is ruled out. Appends none if the method is single already, as
/// `main` is.
pub fn own_edge(method: &Method, what: Conclusion, out: &mut Vec<Implication>) -> Result<(), Memory>
    ensures { OnOk result (out.new.items ≡ out.old.items ++ one_each (own_dependencies (numbered_method_of method.now)) what) }
{
    if !method.single {
        let from = Some(Mark {
            place: method.place,
            kind: MarkKind::Method,
        });
        out.push(Implication { from, then: what })?;
    }
    Ok(())
}

fn of_result(
    alloc: Global,
    method: &Method,
    ty: &ResultType,
    out: &mut Vec<Implication>,
) -> Result<(), Memory>
    ensures { OnOk result (out.new.items ≡ out.old.items ++ result_edges (numbered_method_of method.now) (numbered_result_of ty.now)) }
{
    match ty {
        ResultType::Void => Ok(()),
        ResultType::Typed(ty) => {
            let accepts = accepts_single(alloc, method.place, ty)?;
            rule_out_unless(accepts, Reason::OfResult(method.place), out)
        }
    }
}

#[tactic(auto, using(crate::proofs::Pushing::pushing))]
fn of_param(
    alloc: Global,
    method: &Method,
    param: &Param,
    out: &mut Vec<Implication>,
) -> Result<(), Memory>
    ensures { OnOk result (out.new.items ≡ out.old.items ++ param_edges (numbered_method_of method.now) (numbered_param_of param.now ∷ [])) }
{
    let accepts = accepts_single(alloc, param.place, &param.ty)?;
    rule_out_unless(accepts, Reason::OfVariable(param.place), out)?;
    own_edge(
        method,
        Conclusion::One(Reason::OfVariable(param.place)),
        out,
    )
}

fn of_params(
    alloc: Global,
    method: &Method,
    params: &[Param],
    out: &mut Vec<Implication>,
) -> Result<(), Memory>
    ensures { OnOk result (out.new.items ≡ out.old.items ++ param_edges (numbered_method_of method.now) (map numbered_param_of params.now)) }
{
    for w in params {
        of_param(alloc, method, w, out)?;
    }
    Ok(())
}

fn of_locals(found: &[Local], out: &mut Vec<Implication>) -> Result<(), Memory>
    ensures { OnOk result (out.new.items ≡ out.old.items ++ local_edges found.now) }
{
    for l in found {
        rule_out_unless(l.accepts, Reason::OfVariable(l.place), out)?;
    }
    Ok(())
}

// Whether the method can be annotated: it is static, and doesn't have the modifier `single` yet.
fn method_accepts_single(method: &Method) -> bool
    ensures { result ≡ method_accepts_single (numbered_method_of method.now) }
{
    has_static(&method.modifiers) && !is_single(&method.modifiers)
}

/// Appends the constraints that rule out annotations not allowed in a method, and those that tie its parameters to it.
pub fn method_fits(alloc: Global, method: &Method, out: &mut Vec<Implication>) -> Result<(), Memory>
    ensures { OnOk result (out.new.items ≡ out.old.items ++ method_fit_edges (numbered_method_of method.now)) }
{
    rule_out_unless(
        method_accepts_single(method),
        Reason::OfMethod(method.place),
        out,
    )?;
    of_result(alloc, method, &method.result, out)?;
    of_params(alloc, method, listed_params(&method.params), out)?;
    let declared = locals(alloc, method)?;
    of_locals(&declared, out)
}
