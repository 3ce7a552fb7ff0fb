// The reasons for refusals by the rules of types: the types of operands, the members and parameters that there are.
ghost use Rattle.std.specs.Prelude.{◌≡◌, ◌<◌, ◌+◌, ◌++◌, ◌∷◌, [], length, flat_map, map, Some, IfOk};
ghost use Rattle.std.specs.Option.{option_map, option_and_then};
ghost use Rattle.ti_syntax.specs.Trees.Text.{tree_of};
ghost use Rattle.ti_syntax.specs.Trees.Views.{maybe_of, member_of};
ghost use Rattle.ti_lang.specs.Program.Expressions.{numbered_exps, numbered_ranges};
ghost use Rattle.ti_lang.specs.Program.Views.{expression_of, bound_of, numbered_param_of, numbered_params_of, numbered_method_of};
ghost use Rattle.ti_lang.specs.Typing.Expressions.{expr_type, operand_type};
ghost use Rattle.ti_lang.specs.Typing.Called.{method_behind};
ghost use Rattle.ti_lang.specs.Typing.TyRef.{ty_view, built_in_of};
ghost use Rattle.ti_rules.specs.Broken.Calls as calls;
ghost use Rattle.ti_single.specs.Contexts.{program_at, scope_at};
ghost use Rattle.ti_explain.specs.SingleReasons as single;
ghost use Rattle.ti_explain.specs.Mirrors.Arguments.{told_from};
ghost use Rattle.ti_explain.specs.TypeReasons.{type_reason, has_type, wants_type, typed, typed_all, typed_range, typed_ranges, typed_maybe, operands_typed, member_reason, class_members, members_of_type, members_meant, callee, parameters_wanted, built_in_told, parameters_told, callee_told, argument_told, arguments_told, value_defect, method_told, types_told, part_reasons};

use crate::reason::{ReasonKind, RefusalReason};
use crate::statement::arguments_of_whole;
use crate::type_reason::{TypeReason, ValueDefect};
use crate::type_texts::{class_at, type_text};
use std::alloc::Global;
use ti_base::{Memory, Place};
use ti_lang::program::{Expr, Method, Param, Params, Range, has_static};
use ti_lang::typing::{BuiltIn, TyRef, built_in, method, method_behind};
use ti_rules::{Refusal, Rule};
use ti_single::{SingleContext, deref_expr, deref_exprs, deref_ranges, deref_type};
use ti_syntax::tree::{Member, Tree};
use ti_types::TypeChecker;

// ---- one reason

/// Adds this reason.
pub fn push_reason(
    reasons: Vec<RefusalReason>,
    place: Place,
    reason: TypeReason,
) -> Result<Vec<RefusalReason>, Memory>
    ensures { IfOk result (λ v. v.items ≡ reasons.items ++ type_reason place reason ∷ []) }
{
    let mut found = reasons;
    found.push(RefusalReason {
        place,
        kind: ReasonKind::Typing(reason),
    })?;
    Ok(found)
}

/// Adds that what is here has this type, if it has one.
pub fn push_has(
    alloc: Global,
    reasons: Vec<RefusalReason>,
    tree: &Tree,
    place: Place,
    ty: Option<TyRef<'_>>,
) -> Result<Vec<RefusalReason>, Memory>
    ensures { IfOk result (λ v. v.items ≡ reasons.items ++ has_type (tree_of tree.now) place (option_map ty_view ty.entry)) }
{
    match ty {
        Some(ty) => {
            let text = type_text(alloc, tree, ty)?;
            push_reason(reasons, place, TypeReason::Has(text))
        }
        None => Ok(reasons),
    }
}

/// Adds that what is here wants this type, if one is known.
pub fn push_wants(
    alloc: Global,
    reasons: Vec<RefusalReason>,
    tree: &Tree,
    place: Place,
    ty: Option<TyRef<'_>>,
) -> Result<Vec<RefusalReason>, Memory>
    ensures { IfOk result (λ v. v.items ≡ reasons.items ++ wants_type (tree_of tree.now) place (option_map ty_view ty.entry)) }
{
    match ty {
        Some(ty) => {
            let text = type_text(alloc, tree, ty)?;
            push_reason(reasons, place, TypeReason::Wants(text))
        }
        None => Ok(reasons),
    }
}

// ---- the types of operands

/// The type of an expression, if it has one.
pub fn type_of<'a>(site: SingleContext<'a>, expr: &'a Expr) -> Option<TyRef<'a>>
    ensures { option_map ty_view result ≡ expr_type (program_at site.entry) (scope_at site.entry) (expression_of expr.now) }
{
    let judge = TypeChecker {
        program: &site.program.parts,
    };
    judge.exp(site.scope, expr).ty
}

fn operand_type<'a>(site: SingleContext<'a>, expr: &'a Expr) -> Option<TyRef<'a>>
    ensures { option_map ty_view result ≡ operand_type (program_at site.entry) (scope_at site.entry) (expression_of expr.now) }
{
    let judge = TypeChecker {
        program: &site.program.parts,
    };
    judge.exp(site.scope, expr).operand()
}

/// Adds the type of an expression.
pub fn push_typed(
    alloc: Global,
    reasons: Vec<RefusalReason>,
    tree: &Tree,
    site: SingleContext<'_>,
    expr: &Expr,
) -> Result<Vec<RefusalReason>, Memory>
    ensures { IfOk result (λ v. v.items ≡ reasons.items
        ++ typed (tree_of tree.now) (program_at site.entry) (scope_at site.entry) (expression_of expr.now)) }
{
    push_has(alloc, reasons, tree, expr.place(), type_of(site, expr))
}

// Adds the types of these expressions.
fn push_typed_all(
    alloc: Global,
    reasons: Vec<RefusalReason>,
    tree: &Tree,
    site: SingleContext<'_>,
    exprs: &[Expr],
) -> Result<Vec<RefusalReason>, Memory>
    ensures { IfOk result (λ v. v.items ≡ reasons.items
        ++ typed_all (tree_of tree.now) (program_at site.entry) (scope_at site.entry) (numbered_exps (map expression_of exprs.now))) }
{
    let mut found = reasons;
    for x in exprs {
        found = push_typed(alloc, found, tree, site, x)?;
    }
    Ok(found)
}

fn push_typed_range(
    alloc: Global,
    reasons: Vec<RefusalReason>,
    tree: &Tree,
    site: SingleContext<'_>,
    range: &Range,
) -> Result<Vec<RefusalReason>, Memory>
    ensures { IfOk result (λ v. v.items ≡ reasons.items
        ++ typed_range (tree_of tree.now) (program_at site.entry) (scope_at site.entry) (bound_of range.now)) }
{
    match range {
        Range::Plain { low, high } => {
            let found = push_typed(alloc, reasons, tree, site, low)?;
            push_typed(alloc, found, tree, site, high)
        }
        Range::Stepped { low, high, step } => {
            let found = push_typed(alloc, reasons, tree, site, low)?;
            let found = push_typed(alloc, found, tree, site, high)?;
            push_typed(alloc, found, tree, site, step)
        }
    }
}

/// Adds the types of the bounds and strides of ranges.
pub fn push_typed_ranges(
    alloc: Global,
    reasons: Vec<RefusalReason>,
    tree: &Tree,
    site: SingleContext<'_>,
    ranges: &[Range],
) -> Result<Vec<RefusalReason>, Memory>
    ensures { IfOk result (λ v. v.items ≡ reasons.items
        ++ typed_ranges (tree_of tree.now) (program_at site.entry) (scope_at site.entry) (numbered_ranges (map bound_of ranges.now))) }
{
    let mut found = reasons;
    for range in ranges {
        found = push_typed_range(alloc, found, tree, site, range)?;
    }
    Ok(found)
}

/// Adds the type of an expression, if there is one.
pub fn push_typed_maybe(
    alloc: Global,
    reasons: Vec<RefusalReason>,
    tree: &Tree,
    site: SingleContext<'_>,
    expr: &Option<Expr>,
) -> Result<Vec<RefusalReason>, Memory>
    ensures { IfOk result (λ v. v.items ≡ reasons.items
        ++ typed_maybe (tree_of tree.now) (program_at site.entry) (scope_at site.entry) (maybe_of expression_of expr.now)) }
{
    match expr {
        Some(x) => push_typed(alloc, reasons, tree, site, x),
        None => Ok(reasons),
    }
}

// Adds the type of a receiver, and those of the arguments or indices after it.
fn push_receiver(
    alloc: Global,
    reasons: Vec<RefusalReason>,
    tree: &Tree,
    site: SingleContext<'_>,
    receiver: &Expr,
    others: &[Expr],
) -> Result<Vec<RefusalReason>, Memory>
    ensures { IfOk result (λ v. v.items ≡ reasons.items
        ++ (typed (tree_of tree.now) (program_at site.entry) (scope_at site.entry) (expression_of receiver.now)
        ++ typed_all (tree_of tree.now) (program_at site.entry) (scope_at site.entry) (numbered_exps (map expression_of others.now)))) }
{
    let found = push_typed(alloc, reasons, tree, site, receiver)?;
    push_typed_all(alloc, found, tree, site, others)
}

/// Adds the types of two expressions.
pub fn push_typed_two(
    alloc: Global,
    reasons: Vec<RefusalReason>,
    tree: &Tree,
    site: SingleContext<'_>,
    left: &Expr,
    right: &Expr,
) -> Result<Vec<RefusalReason>, Memory>
    ensures { IfOk result (λ v. v.items ≡ reasons.items
        ++ (typed (tree_of tree.now) (program_at site.entry) (scope_at site.entry) (expression_of left.now)
        ++ typed (tree_of tree.now) (program_at site.entry) (scope_at site.entry) (expression_of right.now))) }
{
    let found = push_typed(alloc, reasons, tree, site, left)?;
    push_typed(alloc, found, tree, site, right)
}

// Adds the type of the operand of a cast, and the one that the cast wants.
fn push_cast(
    alloc: Global,
    reasons: Vec<RefusalReason>,
    tree: &Tree,
    site: SingleContext<'_>,
    place: Place,
    to: TyRef<'_>,
    operand: &Expr,
) -> Result<Vec<RefusalReason>, Memory>
    ensures { IfOk result (λ v. v.items ≡ reasons.items
        ++ (typed (tree_of tree.now) (program_at site.entry) (scope_at site.entry) (expression_of operand.now)
        ++ wants_type (tree_of tree.now) place (Some (ty_view to.entry)))) }
{
    let found = push_typed(alloc, reasons, tree, site, operand)?;
    push_wants(alloc, found, tree, place, Some(to))
}

// Adds the types of the operands of an expression; of a cast, also the one that it wants.
#[tactic(auto, using(ti_lang::proofs::Lemmas::program_bridges))]
fn push_operands(
    alloc: Global,
    reasons: Vec<RefusalReason>,
    tree: &Tree,
    site: SingleContext<'_>,
    expr: &Expr,
) -> Result<Vec<RefusalReason>, Memory>
    ensures { IfOk result (λ v. v.items ≡ reasons.items
        ++ operands_typed (tree_of tree.now) (program_at site.entry) (scope_at site.entry) (expression_of expr.now)) }
{
    match expr {
        Expr::Call { args, .. } => push_typed_all(alloc, reasons, tree, site, deref_exprs(args)),
        Expr::OwnCall { args, .. } => push_typed_all(alloc, reasons, tree, site, deref_exprs(args)),
        Expr::Point(_, xs) => push_typed_all(alloc, reasons, tree, site, deref_exprs(xs)),
        Expr::Rect(_, found) => push_typed_ranges(alloc, reasons, tree, site, deref_ranges(found)),
        Expr::Unary { operand, .. } => push_typed(alloc, reasons, tree, site, deref_expr(operand)),
        Expr::Binary { left, right, .. } => {
            push_typed_two(
                alloc,
                reasons,
                tree,
                site,
                deref_expr(left),
                deref_expr(right),
            )
        }
        Expr::Cast { place, to, operand } => {
            let to = TyRef::of(&deref_type(to).ty, false);
            push_cast(alloc, reasons, tree, site, *place, to, deref_expr(operand))
        }
        Expr::Select { receiver, .. } => push_typed(
            alloc,
            reasons,
            tree,
            site,
            deref_expr(receiver),
        ),
        Expr::Member { receiver, args, .. } => {
            push_receiver(
                alloc,
                reasons,
                tree,
                site,
                deref_expr(receiver),
                deref_exprs(args),
            )
        }
        Expr::Index {
            receiver,
            indices,
            ..
        } => {
            push_receiver(
                alloc,
                reasons,
                tree,
                site,
                deref_expr(receiver),
                deref_exprs(indices),
            )
        }
        Expr::Int(_, _)
        | Expr::Long(_, _)
        | Expr::Bool(_, _)
        | Expr::Null(_)
        | Expr::This(_)
        | Expr::Variable(_, _)
        | Expr::OwnField(_, _)
        | Expr::ThisProc(_)
        | Expr::NumProcs(_) => Ok(reasons),
    }
}

// ---- members

// Adds the member if it could be meant: a field, or in a call an instance method.
fn push_member(
    reasons: Vec<RefusalReason>,
    is_called: bool,
    member: &Member,
) -> Result<Vec<RefusalReason>, Memory>
    ensures { IfOk result (λ v. v.items ≡ reasons.items ++ member_reason is_called (member_of member.now)) }
{
    match member {
        Member::Field(field) => {
            if is_called {
                Ok(reasons)
            } else {
                push_reason(reasons, field.place, TypeReason::Member)
            }
        }
        Member::Method(m) => {
            if is_called && !has_static(&m.modifiers) {
                push_reason(reasons, m.place, TypeReason::Member)
            } else {
                Ok(reasons)
            }
        }
    }
}

// Adds the members of a class that could be meant.
fn push_class_members(
    reasons: Vec<RefusalReason>,
    is_called: bool,
    members: &[Member],
) -> Result<Vec<RefusalReason>, Memory>
    ensures { IfOk result (λ v. v.items ≡ reasons.items ++ flat_map (member_reason is_called) (map member_of members.now)) }
{
    let mut found = reasons;
    for member in members {
        found = push_member(found, is_called, member)?;
    }
    Ok(found)
}

fn push_members_of_class(
    reasons: Vec<RefusalReason>,
    tree: &Tree,
    is_called: bool,
    class: u32,
) -> Result<Vec<RefusalReason>, Memory>
    ensures { IfOk result (λ v. v.items ≡ reasons.items ++ class_members (tree_of tree.now) is_called class) }
{
    match class_at(&tree.classes, class as usize) {
        Some(class) => push_class_members(reasons, is_called, &class.members),
        None => Ok(reasons),
    }
}

// Adds the members of values of this type, if it is a class.
fn push_members_of_type(
    reasons: Vec<RefusalReason>,
    tree: &Tree,
    is_called: bool,
    ty: Option<TyRef<'_>>,
) -> Result<Vec<RefusalReason>, Memory>
    ensures { IfOk result (λ v. v.items ≡ reasons.items ++ members_of_type (tree_of tree.now) is_called (option_map ty_view ty.entry)) }
{
    match ty {
        Some(TyRef::Class { class, local: _ }) => {
            push_members_of_class(reasons, tree, is_called, class)
        }
        _ => Ok(reasons),
    }
}

// Adds the members that could be meant by the name of one.
#[tactic(auto, using(ti_lang::proofs::Lemmas::program_bridges))]
fn push_members_meant(
    reasons: Vec<RefusalReason>,
    tree: &Tree,
    site: SingleContext<'_>,
    expr: &Expr,
) -> Result<Vec<RefusalReason>, Memory>
    ensures { IfOk result (λ v. v.items ≡ reasons.items
        ++ members_meant (tree_of tree.now) (program_at site.entry) (scope_at site.entry) (expression_of expr.now)) }
{
    match expr {
        Expr::Select { receiver, .. } => {
            let ty = operand_type(site, deref_expr(receiver));
            push_members_of_type(reasons, tree, false, ty)
        }
        Expr::Member { receiver, .. } => {
            let ty = operand_type(site, deref_expr(receiver));
            push_members_of_type(reasons, tree, true, ty)
        }
        _ => Ok(reasons),
    }
}

// ---- calls

// The instance method of this name on a receiver of this type.
fn method_on<'a>(site: SingleContext<'a>, receiver: &'a Expr, name: u32) -> Option<&'a Method>
    ensures { option_map (λ m. numbered_method_of m.now) result ≡ option_and_then (λ t. method_behind (program_at site.entry) t name)
        (operand_type (program_at site.entry) (scope_at site.entry) (expression_of receiver.now)) }
{
    match operand_type(site, receiver) {
        Some(ty) => method_behind(&site.program.parts, ty, name),
        None => None,
    }
}

// The declared method that an expression calls.
#[tactic(auto, using(ti_lang::proofs::Lemmas::program_bridges))]
fn callee<'a>(site: SingleContext<'a>, expr: &'a Expr) -> Option<&'a Method>
    ensures { option_map (λ m. numbered_method_of m.now) result ≡ callee (program_at site.entry) (scope_at site.entry) (expression_of expr.now) }
{
    match expr {
        Expr::Call { method: number, .. } => method(&site.program.parts, *number),
        Expr::OwnCall { method: number, .. } => method(&site.program.parts, *number),
        Expr::Member { receiver, name, .. } => method_on(site, deref_expr(receiver), *name),
        _ => None,
    }
}

// Adds the types of the parameters.
fn push_parameters(
    alloc: Global,
    reasons: Vec<RefusalReason>,
    tree: &Tree,
    params: &[Param],
) -> Result<Vec<RefusalReason>, Memory>
    ensures { IfOk result (λ v. v.items ≡ reasons.items ++ parameters_wanted (tree_of tree.now) (map numbered_param_of params.now)) }
{
    let mut found = reasons;
    for param in params {
        let ty = TyRef::of(&param.ty.ty, false);
        found = push_wants(alloc, found, tree, param.place, Some(ty))?;
    }
    Ok(found)
}

// Adds the number of the parameters of a method, and their types.
fn push_method(
    alloc: Global,
    reasons: Vec<RefusalReason>,
    tree: &Tree,
    method: &Method,
) -> Result<Vec<RefusalReason>, Memory>
    ensures { IfOk result (λ v. v.items ≡ reasons.items ++ parameters_told (tree_of tree.now) (numbered_method_of method.now)
        (numbered_method_of method.now).params) }
{
    match &method.params {
        Params::MainArgs => push_reason(reasons, method.place, TypeReason::Takes(1)),
        Params::Typed(params) => {
            let found = push_reason(reasons, method.place, TypeReason::Takes(params.len()))?;
            push_parameters(alloc, found, tree, params)
        }
    }
}

fn argument_count(member: BuiltIn) -> usize
    ensures { result ≡ calls.argument_count (built_in_of member) }
{
    match member {
        BuiltIn::Contains
        | BuiltIn::Restrict
        | BuiltIn::Translate
        | BuiltIn::Copy
        | BuiltIn::Exchange => 1,
        BuiltIn::Slice => 2,
        BuiltIn::Size | BuiltIn::Min | BuiltIn::Max | BuiltIn::Domain | BuiltIn::Delete => 0,
    }
}

// Adds how many arguments the built-in member takes that an expression names.
#[tactic(auto, using(ti_lang::proofs::Lemmas::program_bridges))]
fn push_built_in(
    reasons: Vec<RefusalReason>,
    site: SingleContext<'_>,
    expr: &Expr,
) -> Result<Vec<RefusalReason>, Memory>
    ensures { IfOk result (λ v. v.items ≡ reasons.items
        ++ built_in_told (program_at site.entry) (expression_of expr.now)) }
{
    match expr {
        Expr::Member { place, name, .. } => match built_in(&site.program.parts, *name) {
            Some(member) => {
                push_reason(reasons, *place, TypeReason::Takes(argument_count(member)))
            }
            None => Ok(reasons),
        },
        _ => Ok(reasons),
    }
}

// Adds what the method or the built-in member takes that an expression calls.
fn push_callee(
    alloc: Global,
    reasons: Vec<RefusalReason>,
    tree: &Tree,
    site: SingleContext<'_>,
    expr: &Expr,
) -> Result<Vec<RefusalReason>, Memory>
    ensures { IfOk result (λ v. v.items ≡ reasons.items
        ++ callee_told (tree_of tree.now) (program_at site.entry) (expression_of expr.now)
        (callee (program_at site.entry) (scope_at site.entry) (expression_of expr.now))) }
{
    match callee(site, expr) {
        Some(m) => push_method(alloc, reasons, tree, m),
        None => push_built_in(reasons, site, expr),
    }
}

// Adds the type of the argument if it is at this position, and that of its parameter.
fn push_argument(
    alloc: Global,
    reasons: Vec<RefusalReason>,
    tree: &Tree,
    site: SingleContext<'_>,
    place: Place,
    argument: &Expr,
    param: &Param,
) -> Result<Vec<RefusalReason>, Memory>
    ensures { IfOk result (λ v. v.items ≡ reasons.items
        ++ argument_told (tree_of tree.now) (program_at site.entry) (scope_at site.entry) place (expression_of argument.now)
        (numbered_param_of param.now)) }
{
    if place == argument.place() {
        let found = push_typed(alloc, reasons, tree, site, argument)?;
        let ty = TyRef::of(&param.ty.ty, false);
        push_wants(alloc, found, tree, param.place, Some(ty))
    } else {
        Ok(reasons)
    }
}

// Adds what is told of the argument with this index, if there is a parameter for it.
fn push_indexed(
    alloc: Global,
    reasons: Vec<RefusalReason>,
    tree: &Tree,
    site: SingleContext<'_>,
    place: Place,
    args: &[Expr],
    params: &[Param],
    index: usize,
) -> Result<Vec<RefusalReason>, Memory>
    requires { index < length args.now }
    ensures { IfOk result (λ v. v.items ++ told_from (tree_of tree.now) (program_at site.entry) (scope_at site.entry) place args.now params.now (index + 1)
        ≡ reasons.items ++ told_from (tree_of tree.now) (program_at site.entry) (scope_at site.entry) place args.now params.now index) }
{
    if index < params.len() {
        push_argument(
            alloc,
            reasons,
            tree,
            site,
            place,
            &args[index],
            &params[index],
        )
    } else {
        Ok(reasons)
    }
}

// Adds the type of the argument at this position, and that of its parameter.
fn push_arguments(
    alloc: Global,
    reasons: Vec<RefusalReason>,
    tree: &Tree,
    site: SingleContext<'_>,
    place: Place,
    args: &[Expr],
    params: &[Param],
) -> Result<Vec<RefusalReason>, Memory>
    ensures { IfOk result (λ v. v.items ≡ reasons.items
        ++ arguments_told (tree_of tree.now) (program_at site.entry) (scope_at site.entry) place (numbered_exps (map expression_of args.now))
        (map numbered_param_of params.now)) }
{
    let mut found = reasons;
    for i in 0..args.len() {
        found = push_indexed(alloc, found, tree, site, place, args, params, i)?;
    }
    Ok(found)
}

// Adds the type of the argument at this position of an expression, if it is a call, and that of its parameter.
fn push_arguments_of(
    alloc: Global,
    reasons: Vec<RefusalReason>,
    tree: &Tree,
    site: SingleContext<'_>,
    place: Place,
    expr: &Expr,
    params: &[Param],
) -> Result<Vec<RefusalReason>, Memory>
    ensures { IfOk result (λ v. v.items ≡ reasons.items
        ++ arguments_told (tree_of tree.now) (program_at site.entry) (scope_at site.entry) place (single.arguments_of_whole (expression_of expr.now))
        (map numbered_param_of params.now)) }
{
    match arguments_of_whole(expr) {
        Some(args) => push_arguments(alloc, reasons, tree, site, place, args, params),
        None => Ok(reasons),
    }
}

// ---- an expression

// What is wrong with a value that can't be where it is.
fn value_defect(site: SingleContext<'_>, expr: &Expr) -> ValueDefect
    ensures { result ≡ value_defect (program_at site.entry) (scope_at site.entry) (expression_of expr.now) }
{
    match type_of(site, expr) {
        Some(ty) => if ty.is_void() {
            ValueDefect::NoValue
        } else {
            ValueDefect::InnerCall
        },
        None => ValueDefect::InnerCall,
    }
}

fn push_method_types(
    alloc: Global,
    reasons: Vec<RefusalReason>,
    tree: &Tree,
    site: SingleContext<'_>,
    place: Place,
    expr: &Expr,
    params: &Params,
) -> Result<Vec<RefusalReason>, Memory>
    ensures { IfOk result (λ v. v.items ≡ reasons.items
        ++ method_told (tree_of tree.now) (program_at site.entry) (scope_at site.entry) place (expression_of expr.now)
        (numbered_params_of params.now)) }
{
    match params {
        Params::MainArgs => push_operands(alloc, reasons, tree, site, expr),
        Params::Typed(params) => {
            push_arguments_of(alloc, reasons, tree, site, place, expr, params)
        }
    }
}

// Adds the types in an expression: of its operands, with the members that could be meant; but of a call of a declared method, those of the
// argument at the position and of its parameter.
fn push_types(
    alloc: Global,
    reasons: Vec<RefusalReason>,
    tree: &Tree,
    site: SingleContext<'_>,
    place: Place,
    expr: &Expr,
) -> Result<Vec<RefusalReason>, Memory>
    ensures { IfOk result (λ v. v.items ≡ reasons.items
        ++ types_told (tree_of tree.now) (program_at site.entry) (scope_at site.entry) place (expression_of expr.now)
        (callee (program_at site.entry) (scope_at site.entry) (expression_of expr.now))) }
{
    match callee(site, expr) {
        Some(m) => push_method_types(alloc, reasons, tree, site, place, expr, &m.params),
        None => {
            let found = push_operands(alloc, reasons, tree, site, expr)?;
            push_members_meant(found, tree, site, expr)
        }
    }
}

/// The reasons for an expression that breaks this rule, where `place` is the position of the refusal.
pub fn part_reasons(
    alloc: Global,
    tree: &Tree,
    site: SingleContext<'_>,
    refusal: Refusal,
    expr: &Expr,
) -> Result<Vec<RefusalReason>, Memory>
    ensures { IfOk result (λ v. v.items ≡ part_reasons (tree_of tree.now) (program_at site.entry) (scope_at site.entry) refusal.rule
        refusal.place (expression_of expr.now)) }
{
    let none = Vec::new(alloc);
    match refusal.rule {
        Rule::Y4 => push_callee(alloc, none, tree, site, expr),
        Rule::Y6 => {
            let defect = value_defect(site, expr);
            push_reason(none, expr.place(), TypeReason::Value(defect))
        }
        _ => push_types(alloc, none, tree, site, refusal.place, expr),
    }
}
