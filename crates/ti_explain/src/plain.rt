// The first part of an expression that is plain by itself: what a rule of single values objects to.
ghost use Rattle.std.specs.Prelude.{◌≡◌, map, if◌then◌else◌};
ghost use Rattle.std.specs.Option.{option_map, option_map_or, option_or};
ghost use Rattle.ti_lang.specs.Program.Classes.{NumberedMethod};
ghost use Rattle.ti_lang.specs.Program.Expressions.{numbered_exps, numbered_ranges};
ghost use Rattle.ti_lang.specs.Program.Scope.{contents_of};
ghost use Rattle.ti_lang.specs.Program.Views.{program_of, expression_of, bound_of, variable_of, initial_of, numbered_method_of};
ghost use Rattle.ti_lang.specs.Typing.Kinds.{is_point_type};
ghost use Rattle.ti_lang.specs.Typing.Singleness.{tells_of_domain, has_single_result, is_single_sent};
ghost use Rattle.ti_lang.specs.Typing.TyRef.{ty_view, built_in_of};
ghost use Rattle.ti_rules.specs.StmtInContext.{singles_in};
ghost use Rattle.ti_explain.specs.PlainParts.{plain_at, plain_unless, plain_variable, plain_part, plain_among, plain_in_range, plain_among_ranges, plain_whole, plain_initial};

use crate::reason::{PlainCause, PlainPart};
use ti_base::Place;
use ti_lang::program::{Declared, Expr, Init, Program, Range, Scope, Variable};
use ti_lang::typing::{BuiltIn, TyRef, called_method, member_called, syntactic_type};
use ti_single::{deref_expr, deref_exprs, deref_ranges, deref_type, has_single_result};

// ---- variables, members and types

fn plain_at(place: Place, cause: PlainCause) -> Option<PlainPart>
    ensures { result ≡ plain_at place cause }
{
    Some(PlainPart {
        place,
        cause,
        variable: None,
    })
}

fn plain_unless(single: bool, place: Place, cause: PlainCause) -> Option<PlainPart>
    ensures { result ≡ plain_unless single place cause }
{
    if single { None } else { plain_at(place, cause) }
}

// Whether the foreach variable with this number is single in the scope.
fn is_single_number(scope: &Scope, number: u32) -> bool
    ensures { result ≡ singles_in (contents_of scope.now) number }
{
    for v in &scope.variables {
        if v.number == number {
            return v.single;
        }
    }
    false
}

fn plain_variable(scope: &Scope, place: Place, variable: &Variable) -> Option<PlainPart>
    ensures { result ≡ plain_variable (singles_in (contents_of scope.now)) place (variable_of variable.now).number
        (variable_of variable.now).declared }
{
    match &variable.declared {
        Declared::Typed { single, ty: _ } => {
            if *single {
                None
            } else {
                Some(PlainPart {
                    place,
                    cause: PlainCause::Variable,
                    variable: Some(variable.number),
                })
            }
        }
        Declared::Foreach => plain_unless(
            is_single_number(scope, variable.number),
            place,
            PlainCause::ForeachVariable,
        ),
    }
}

fn is_point(ty: TyRef) -> bool
    ensures { result ≡ is_point_type (ty_view ty.entry) }
{
    matches!(ty, TyRef::Pt(_))
}

// Whether the built-in member is a query of a domain: its size, its bounds or whether it contains a point.
fn tells_of_domain(built_in: Option<BuiltIn>) -> bool
    ensures { result ≡ tells_of_domain (option_map built_in_of built_in) }
{
    matches!(
        built_in,
        Some(BuiltIn::Size | BuiltIn::Min | BuiltIn::Max | BuiltIn::Contains)
    )
}

// The part if the test holds, else the expression itself for this cause.
fn part_if(
    test: bool,
    part: Option<PlainPart>,
    place: Place,
    cause: PlainCause,
) -> Option<PlainPart>
    ensures { result ≡ (if test then part else plain_at place cause) }
{
    if test { part } else { plain_at(place, cause) }
}

// ---- expressions

#[cycle(plain)]
fn plain_among(program: &Program, scope: &Scope, exprs: &[Expr]) -> Option<PlainPart>
    ensures { result ≡ plain_among (program_of program.now.parts) scope.now.this (singles_in (contents_of scope.now))
        (numbered_exps (map expression_of exprs.now)) }
{
    for x in exprs {
        if let Some(part) = plain_part(program, scope, x) {
            return Some(part);
        }
    }
    None
}

#[cycle(plain)]
fn plain_in_range(program: &Program, scope: &Scope, range: &Range) -> Option<PlainPart>
    ensures { result ≡ plain_in_range (program_of program.now.parts) scope.now.this (singles_in (contents_of scope.now))
        (bound_of range.now) }
{
    match range {
        Range::Plain { low, high } => plain_part(program, scope, low).or(plain_part(
            program, scope, high,
        )),
        Range::Stepped { low, high, step } => {
            let low = plain_part(program, scope, low);
            let high = plain_part(program, scope, high);
            low.or(high.or(plain_part(program, scope, step)))
        }
    }
}

#[cycle(plain)]
fn plain_among_ranges(program: &Program, scope: &Scope, ranges: &[Range]) -> Option<PlainPart>
    ensures { result ≡ plain_among_ranges (program_of program.now.parts) scope.now.this (singles_in (contents_of scope.now))
        (numbered_ranges (map bound_of ranges.now)) }
{
    for range in ranges {
        if let Some(part) = plain_in_range(program, scope, range) {
            return Some(part);
        }
    }
    None
}

/// The first part of an operand or a condition that is plain by itself; None if the expression is single.
#[cycle(plain)]
#[tactic(auto, using(ti_lang::proofs::Lemmas::program_bridges))]
pub fn plain_part(program: &Program, scope: &Scope, expr: &Expr) -> Option<PlainPart>
    ensures { result ≡ plain_part (program_of program.now.parts) scope.now.this (singles_in (contents_of scope.now))
        (expression_of expr.now) }
{
    match expr {
        Expr::Int(_, _) => None,
        Expr::Long(_, _) => None,
        Expr::Bool(_, _) => None,
        Expr::NumProcs(_) => None,
        Expr::Variable(place, v) => plain_variable(scope, *place, v),
        Expr::Point(_, xs) => plain_among(program, scope, deref_exprs(xs)),
        Expr::Rect(_, found) => plain_among_ranges(program, scope, deref_ranges(found)),
        Expr::Unary { operand, .. } => plain_part(program, scope, deref_expr(operand)),
        Expr::Binary { left, right, .. } => {
            let left = plain_part(program, scope, deref_expr(left));
            left.or(plain_part(program, scope, deref_expr(right)))
        }
        Expr::Cast { place, to, operand } => {
            let to_local = TyRef::of(&deref_type(to).ty, false).is_local();
            let part = plain_part(program, scope, deref_expr(operand));
            part_if(!to_local, part, *place, PlainCause::LocalCast)
        }
        Expr::Index {
            place,
            receiver,
            indices,
        } => {
            let receiver = deref_expr(receiver);
            let of_point = is_point(syntactic_type(&program.parts, scope.this, receiver));
            let part = plain_part(program, scope, receiver);
            let parts = part.or(plain_among(program, scope, deref_exprs(indices)));
            part_if(of_point, parts, *place, PlainCause::Element)
        }
        Expr::Member {
            place,
            receiver,
            name,
            args,
        } => {
            let receiver = deref_expr(receiver);
            let tells = tells_of_domain(member_called(&program.parts, scope.this, receiver, *name));
            let part = plain_part(program, scope, receiver);
            let parts = part.or(plain_among(program, scope, deref_exprs(args)));
            part_if(tells, parts, *place, PlainCause::Member)
        }
        Expr::Null(place) => plain_at(*place, PlainCause::Null),
        Expr::This(place) => plain_at(*place, PlainCause::This),
        Expr::OwnField(place, _) => plain_at(*place, PlainCause::Field),
        Expr::Select { place, .. } => plain_at(*place, PlainCause::Field),
        Expr::ThisProc(place) => plain_at(*place, PlainCause::ThisProc),
        Expr::Call { place, .. } => plain_at(*place, PlainCause::InnerCall),
        Expr::OwnCall { place, .. } => plain_at(*place, PlainCause::InnerCall),
    }
}

// ---- right-hand sides

/// The plain part of an expression that is a whole right-hand side. A call of a declared method is plain there unless the method has a
/// single result.
pub fn plain_whole(program: &Program, scope: &Scope, expr: &Expr) -> Option<PlainPart>
    ensures { result ≡ plain_whole (program_of program.now.parts) scope.now.this (singles_in (contents_of scope.now))
        (expression_of expr.now) }
{
    match called_method(&program.parts, scope.this, expr) {
        Some(m) => plain_unless(has_single_result(m), expr.place(), PlainCause::PlainResult),
        None => plain_part(program, scope, expr),
    }
}

// Whether a broadcast value of this type is single; a reference isn't.
fn is_single_sent(ty: TyRef) -> bool
    ensures { result ≡ is_single_sent (ty_view ty.entry) }
{
    matches!(
        ty,
        TyRef::Int | TyRef::Long | TyRef::Bool | TyRef::Pt(_) | TyRef::Rc(_)
    )
}

/// The plain part of the right-hand side of a declaration or an assignment.
pub fn plain_initial(program: &Program, scope: &Scope, value: &Init) -> Option<PlainPart>
    ensures { result ≡ plain_initial (program_of program.now.parts) scope.now.this (singles_in (contents_of scope.now))
        (initial_of value.now) }
{
    match value {
        Init::Value(e) => plain_whole(program, scope, e),
        Init::NewRegion(_) => None,
        Init::NewObject { place, .. } => plain_at(*place, PlainCause::NewObject),
        Init::NewGrid { place, .. } => plain_at(*place, PlainCause::NewGrid),
        Init::Broadcast { place, value, .. } => {
            let sent = syntactic_type(&program.parts, scope.this, value);
            plain_unless(is_single_sent(sent), *place, PlainCause::SentReference)
        }
    }
}
