// Single expressions: those whose values are known to be equal in all processes.
ghost use Rattle.std.specs.Prelude.{◌≡◌, ◌&&◌, map};
ghost use Rattle.std.specs.Option.{option_map};
ghost use Rattle.ti_lang.specs.Program.Expressions.{numbered_exps, numbered_ranges};
ghost use Rattle.ti_lang.specs.Program.Scope.{contents_of};
ghost use Rattle.ti_lang.specs.Program.Views.{program_of, expression_of, bound_of, variable_of, initial_of};
ghost use Rattle.ti_lang.specs.Typing.Kinds.{is_point_type};
ghost use Rattle.ti_lang.specs.Typing.TyRef.{ty_view, built_in_of};
ghost use Rattle.ti_lang.specs.Typing.Singleness.{declared_single, tells_of_domain, is_single_part, are_single, is_single_range, are_single_ranges, is_single, is_single_sent, is_single_initial};
ghost use Rattle.ti_lang.specs.Typing.Effects.{is_single_target};
ghost use Rattle.ti_rules.specs.StmtInContext.{singles_in};

use crate::deref::{deref_expr, deref_exprs, deref_ranges, deref_type};
use crate::statements::has_single_result;
use ti_lang::program::{Declared, Expr, Init, Program, Range, Scope, Variable};
use ti_lang::typing::{BuiltIn, TyRef, called_method, member_called, syntactic_type};

// ---- variables and members

// Whether the foreach variable with this number is single in the scope.
fn is_single_number(scope: &Scope, number: u32) -> bool
    ensures { result ≡ singles_in (contents_of scope.now) number }
{
    for v in &scope.variables {
        if v.number == number {
            return v.single;
        }
    }
    false
}

// Whether a variable is single: by its declaration, or for a foreach variable by the scope.
fn is_single_variable(scope: &Scope, variable: &Variable) -> bool
    ensures { result ≡ declared_single (singles_in (contents_of scope.now)) (variable_of variable.now).number (variable_of variable.now).declared }
{
    match &variable.declared {
        Declared::Typed { single, ty: _ } => *single,
        Declared::Foreach => is_single_number(scope, variable.number),
    }
}

/// Whether the target of an assignment is a variable declared single. A foreach variable isn't one.
#[tactic(auto, using(ti_lang::proofs::Lemmas::program_bridges))]
pub fn is_single_target(expr: &Expr) -> bool
    ensures { result ≡ is_single_target (expression_of expr.now) }
{
    match expr {
        Expr::Variable(_, v) => match &v.declared {
            Declared::Typed { single, ty: _ } => *single,
            Declared::Foreach => false,
        },
        _ => false,
    }
}

fn is_point(ty: TyRef) -> bool
    ensures { result ≡ is_point_type (ty_view ty.entry) }
{
    matches!(ty, TyRef::Pt(_))
}

// Whether the built-in member is a query of a domain: its size, its bounds or whether it contains a point.
fn tells_of_domain(built_in: Option<BuiltIn>) -> bool
    ensures { result ≡ tells_of_domain (option_map built_in_of built_in) }
{
    matches!(
        built_in,
        Some(BuiltIn::Size | BuiltIn::Min | BuiltIn::Max | BuiltIn::Contains)
    )
}

fn all_hold(first: bool, second: bool, third: bool) -> bool
    ensures { result ≡ first && (second && third) }
{
    first && second && third
}

// ---- expressions

#[cycle(single)]
fn are_single(program: &Program, scope: &Scope, exprs: &[Expr]) -> bool
    ensures { result ≡ are_single (program_of program.now.parts) scope.now.this (singles_in (contents_of scope.now))
        (numbered_exps (map expression_of exprs.now)) }
{
    for x in exprs {
        if !is_single_part(program, scope, x) {
            return false;
        }
    }
    true
}

#[cycle(single)]
fn is_single_range(program: &Program, scope: &Scope, range: &Range) -> bool
    ensures { result ≡ is_single_range (program_of program.now.parts) scope.now.this (singles_in (contents_of scope.now)) (bound_of range.now) }
{
    match range {
        Range::Plain { low, high } => {
            is_single_part(program, scope, low) && is_single_part(program, scope, high)
        }
        Range::Stepped { low, high, step } => {
            is_single_part(program, scope, low)
                && is_single_part(program, scope, high)
                && is_single_part(program, scope, step)
        }
    }
}

#[cycle(single)]
fn are_single_ranges(program: &Program, scope: &Scope, ranges: &[Range]) -> bool
    ensures { result ≡ are_single_ranges (program_of program.now.parts) scope.now.this (singles_in (contents_of scope.now))
        (numbered_ranges (map bound_of ranges.now)) }
{
    for range in ranges {
        if !is_single_range(program, scope, range) {
            return false;
        }
    }
    true
}

/// Whether an expression is single as a part of another one, or as a condition: its value is equal in all processes. A call of a
/// declared method is plain (not single) there.
#[cycle(single)]
#[tactic(auto, using(ti_lang::proofs::Lemmas::program_bridges))]
pub fn is_single_part(program: &Program, scope: &Scope, expr: &Expr) -> bool
    ensures { result ≡ is_single_part (program_of program.now.parts) scope.now.this (singles_in (contents_of scope.now)) (expression_of expr.now) }
{
    match expr {
        Expr::Int(_, _) => true,
        Expr::Long(_, _) => true,
        Expr::Bool(_, _) => true,
        Expr::NumProcs(_) => true,
        Expr::Variable(_, v) => is_single_variable(scope, v),
        Expr::Point(_, xs) => are_single(program, scope, deref_exprs(xs)),
        Expr::Rect(_, found) => are_single_ranges(program, scope, deref_ranges(found)),
        Expr::Unary { operand, .. } => is_single_part(program, scope, deref_expr(operand)),
        Expr::Binary { left, right, .. } => {
            is_single_part(program, scope, deref_expr(left))
                && is_single_part(program, scope, deref_expr(right))
        }
        Expr::Cast { to, operand, .. } => {
            !TyRef::of(&deref_type(to).ty, false).is_local()
                && is_single_part(program, scope, deref_expr(operand))
        }
        Expr::Index {
            receiver,
            indices,
            ..
        } => {
            let receiver = deref_expr(receiver);
            let of_point = is_point(syntactic_type(&program.parts, scope.this, receiver));
            let part = is_single_part(program, scope, receiver);
            all_hold(
                of_point,
                part,
                are_single(program, scope, deref_exprs(indices)),
            )
        }
        Expr::Member {
            receiver,
            name,
            args,
            ..
        } => {
            let receiver = deref_expr(receiver);
            let tells = tells_of_domain(member_called(&program.parts, scope.this, receiver, *name));
            let part = is_single_part(program, scope, receiver);
            all_hold(tells, part, are_single(program, scope, deref_exprs(args)))
        }
        Expr::Null(_)
        | Expr::This(_)
        | Expr::OwnField(_, _)
        | Expr::ThisProc(_)
        | Expr::Call { .. }
        | Expr::OwnCall { .. }
        | Expr::Select { .. } => false,
    }
}

// ---- initializers

/// Whether an expression is single as an initializer. There, a call of a method with a single result is single, too.
pub fn is_single(program: &Program, scope: &Scope, expr: &Expr) -> bool
    ensures { result ≡ is_single (program_of program.now.parts) scope.now.this (singles_in (contents_of scope.now)) (expression_of expr.now) }
{
    match called_method(&program.parts, scope.this, expr) {
        Some(m) => has_single_result(m),
        None => is_single_part(program, scope, expr),
    }
}

// Whether a broadcast value of this type is single; a reference isn't.
fn is_single_sent(ty: TyRef) -> bool
    ensures { result ≡ is_single_sent (ty_view ty.entry) }
{
    matches!(
        ty,
        TyRef::Int | TyRef::Long | TyRef::Bool | TyRef::Pt(_) | TyRef::Rc(_)
    )
}

/// Whether an initializer is single.
pub fn is_single_initial(program: &Program, scope: &Scope, value: &Init) -> bool
    ensures { result ≡ is_single_initial (program_of program.now.parts) scope.now.this (singles_in (contents_of scope.now)) (initial_of value.now) }
{
    match value {
        Init::Value(e) => is_single(program, scope, e),
        Init::NewRegion(_) => true,
        Init::NewObject { .. } => false,
        Init::NewGrid { .. } => false,
        Init::Broadcast { value, .. } => is_single_sent(syntactic_type(
            &program.parts,
            scope.this,
            value,
        )),
    }
}
