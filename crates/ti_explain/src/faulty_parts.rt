// The part of a statement that breaks a rule of types.
ghost use Rattle.std.specs.Prelude.{◌≡◌, map};
ghost use Rattle.std.specs.Option.{option_map, option_or};
ghost use Rattle.ti_syntax.specs.Trees.Views.{maybe_of};
ghost use Rattle.ti_lang.specs.Program.Expressions.{numbered_exps, numbered_ranges};
ghost use Rattle.ti_lang.specs.Program.Scope.{contents_of};
ghost use Rattle.ti_lang.specs.Program.Views.{program_of, expression_of, bound_of, extent_of, initial_of, printed_of, statement_of};
ghost use Rattle.ti_explain.specs.FaultyParts.{is_this_error, is_sought, itself, first_part, first_among, first_in_range, first_among_ranges, first_in_maybe, first_in_dims, first_in_initial, first_in_print, first_in_statement};

use ti_base::Place;
use ti_lang::program::{Dims, Expr, Init, Printed, Program, Range, Scope, Stmt};
use ti_rules::Refusal;
use ti_single::{deref_expr, deref_exprs, deref_init, deref_ranges};
use ti_types::TypeChecker;

/// Which expression is sought: one at a position, or one whose first error by the rules of types is this one.
#[derive(Clone, Copy)]
pub enum SoughtPart {
    At(Place),
    Refused(Refusal),
}

fn is_this_error(refusal: Refusal, found: Option<Refusal>) -> bool
    ensures { result ≡ is_this_error refusal found }
{
    match found {
        None => false,
        Some(found) => {
            refusal.place == found.place && refusal.rule.number() == found.rule.number()
        }
    }
}

fn is_sought(program: &Program, scope: &Scope, sought: SoughtPart, expr: &Expr) -> bool
    ensures { result ≡ is_sought (program_of program.now.parts) (contents_of scope.now) sought (expression_of expr.now) }
{
    match sought {
        SoughtPart::At(place) => place == expr.place(),
        SoughtPart::Refused(refusal) => {
            let judge = TypeChecker {
                program: &program.parts,
            };
            is_this_error(refusal, judge.exp(scope, expr).first)
        }
    }
}

fn itself<'a>(
    program: &Program,
    scope: &Scope,
    sought: SoughtPart,
    expr: &'a Expr,
) -> Option<&'a Expr>
    ensures { option_map (λ e. expression_of e.now) result ≡ itself (program_of program.now.parts) (contents_of scope.now) sought
        (expression_of expr.now) }
{
    if is_sought(program, scope, sought, expr) {
        Some(expr)
    } else {
        None
    }
}

// The first one, if there is one, else the second.
fn first_of<'a>(first: Option<&'a Expr>, second: Option<&'a Expr>) -> Option<&'a Expr>
    ensures { option_map (λ e. expression_of e.now) result ≡ option_or (option_map (λ e. expression_of e.now) first.entry)
        (option_map (λ e. expression_of e.now) second.entry) }
{
    match first {
        Some(found) => Some(found),
        None => second,
    }
}

#[cycle(parts)]
fn first_among<'a>(
    program: &Program,
    scope: &Scope,
    sought: SoughtPart,
    exprs: &'a [Expr],
) -> Option<&'a Expr>
    ensures { option_map (λ e. expression_of e.now) result ≡ first_among (program_of program.now.parts) (contents_of scope.now) sought
        (numbered_exps (map expression_of exprs.now)) }
{
    for x in exprs {
        if let Some(found) = first_part(program, scope, sought, x) {
            return Some(found);
        }
    }
    None
}

#[cycle(parts)]
fn first_in_range<'a>(
    program: &Program,
    scope: &Scope,
    sought: SoughtPart,
    range: &'a Range,
) -> Option<&'a Expr>
    ensures { option_map (λ e. expression_of e.now) result ≡ first_in_range (program_of program.now.parts) (contents_of scope.now) sought
        (bound_of range.now) }
{
    match range {
        Range::Plain { low, high } => first_of(
            first_part(program, scope, sought, low),
            first_part(program, scope, sought, high),
        ),
        Range::Stepped { low, high, step } => {
            let low = first_part(program, scope, sought, low);
            let high = first_part(program, scope, sought, high);
            first_of(
                low,
                first_of(high, first_part(program, scope, sought, step)),
            )
        }
    }
}

#[cycle(parts)]
fn first_among_ranges<'a>(
    program: &Program,
    scope: &Scope,
    sought: SoughtPart,
    ranges: &'a [Range],
) -> Option<&'a Expr>
    ensures { option_map (λ e. expression_of e.now) result ≡ first_among_ranges (program_of program.now.parts) (contents_of scope.now) sought
        (numbered_ranges (map bound_of ranges.now)) }
{
    for range in ranges {
        if let Some(found) = first_in_range(program, scope, sought, range) {
            return Some(found);
        }
    }
    None
}

// The first one of the operands of an expression.
#[cycle(parts)]
#[tactic(auto, using(ti_lang::proofs::Lemmas::program_bridges))]
fn first_operand<'a>(
    program: &Program,
    scope: &Scope,
    sought: SoughtPart,
    expr: &'a Expr,
) -> Option<&'a Expr>
    ensures { option_or (option_map (λ e. expression_of e.now) result) (itself (program_of program.now.parts) (contents_of scope.now) sought
        (expression_of expr.now)) ≡ first_part (program_of program.now.parts) (contents_of scope.now) sought (expression_of expr.now) }
{
    match expr {
        Expr::Call { args, .. } => first_among(program, scope, sought, deref_exprs(args)),
        Expr::OwnCall { args, .. } => first_among(program, scope, sought, deref_exprs(args)),
        Expr::Point(_, xs) => first_among(program, scope, sought, deref_exprs(xs)),
        Expr::Rect(_, found) => first_among_ranges(program, scope, sought, deref_ranges(found)),
        Expr::Unary { operand, .. } => first_part(program, scope, sought, deref_expr(operand)),
        Expr::Binary { left, right, .. } => {
            let left = first_part(program, scope, sought, deref_expr(left));
            first_of(left, first_part(program, scope, sought, deref_expr(right)))
        }
        Expr::Cast { operand, .. } => first_part(program, scope, sought, deref_expr(operand)),
        Expr::Select { receiver, .. } => first_part(program, scope, sought, deref_expr(receiver)),
        Expr::Member { receiver, args, .. } => {
            let receiver = first_part(program, scope, sought, deref_expr(receiver));
            first_of(
                receiver,
                first_among(program, scope, sought, deref_exprs(args)),
            )
        }
        Expr::Index {
            receiver,
            indices,
            ..
        } => {
            let receiver = first_part(program, scope, sought, deref_expr(receiver));
            first_of(
                receiver,
                first_among(program, scope, sought, deref_exprs(indices)),
            )
        }
        Expr::Int(_, _)
        | Expr::Long(_, _)
        | Expr::Bool(_, _)
        | Expr::Null(_)
        | Expr::This(_)
        | Expr::Variable(_, _)
        | Expr::OwnField(_, _)
        | Expr::ThisProc(_)
        | Expr::NumProcs(_) => None,
    }
}

/// The first part of an expression that is sought; operands come before what they are part of.
#[cycle(parts)]
pub fn first_part<'a>(
    program: &Program,
    scope: &Scope,
    sought: SoughtPart,
    expr: &'a Expr,
) -> Option<&'a Expr>
    ensures { option_map (λ e. expression_of e.now) result ≡ first_part (program_of program.now.parts) (contents_of scope.now) sought
        (expression_of expr.now) }
{
    first_of(
        first_operand(program, scope, sought, expr),
        itself(program, scope, sought, expr),
    )
}

// ---- in a statement

fn first_in_maybe<'a>(
    program: &Program,
    scope: &Scope,
    sought: SoughtPart,
    expr: &'a Option<Expr>,
) -> Option<&'a Expr>
    ensures { option_map (λ e. expression_of e.now) result ≡ first_in_maybe (program_of program.now.parts) (contents_of scope.now) sought
        (maybe_of expression_of expr.now) }
{
    match expr {
        Some(x) => first_part(program, scope, sought, x),
        None => None,
    }
}

fn first_in_dims<'a>(
    program: &Program,
    scope: &Scope,
    sought: SoughtPart,
    dims: &'a Dims,
) -> Option<&'a Expr>
    ensures { option_map (λ e. expression_of e.now) result ≡ first_in_dims (program_of program.now.parts) (contents_of scope.now) sought
        (extent_of dims.now) }
{
    match dims {
        Dims::Domain(x) => first_part(program, scope, sought, x),
        Dims::Ranges(ranges) => first_among_ranges(program, scope, sought, deref_ranges(ranges)),
    }
}

fn first_in_initial<'a>(
    program: &Program,
    scope: &Scope,
    sought: SoughtPart,
    value: &'a Init,
) -> Option<&'a Expr>
    ensures { option_map (λ e. expression_of e.now) result ≡ first_in_initial (program_of program.now.parts) (contents_of scope.now) sought
        (initial_of value.now) }
{
    match value {
        Init::Value(x) => first_part(program, scope, sought, x),
        Init::NewRegion(_) => None,
        Init::NewObject { region, .. } => first_in_maybe(program, scope, sought, region),
        Init::NewGrid { region, dims, .. } => {
            let region = first_in_maybe(program, scope, sought, region);
            first_of(region, first_in_dims(program, scope, sought, dims))
        }
        Init::Broadcast { value, root, .. } => first_of(
            first_part(program, scope, sought, value),
            first_part(program, scope, sought, root),
        ),
    }
}

fn first_in_print<'a>(
    program: &Program,
    scope: &Scope,
    sought: SoughtPart,
    what: &'a Printed,
) -> Option<&'a Expr>
    ensures { option_map (λ e. expression_of e.now) result ≡ first_in_print (program_of program.now.parts) (contents_of scope.now) sought
        (printed_of what.now) }
{
    match what {
        Printed::Nothing => None,
        Printed::Text(_) => None,
        Printed::Value(x) => first_part(program, scope, sought, x),
        Printed::TextAndValue(_, x) => first_part(program, scope, sought, x),
    }
}

/// The first expression of a statement, or part of one, that is sought; without those of the statements in it.
#[tactic(auto, using(ti_lang::proofs::Lemmas::program_bridges))]
pub fn first_in_statement<'a>(
    program: &Program,
    scope: &Scope,
    sought: SoughtPart,
    stmt: &'a Stmt,
) -> Option<&'a Expr>
    ensures { option_map (λ e. expression_of e.now) result ≡ first_in_statement (program_of program.now.parts) (contents_of scope.now) sought
        (statement_of stmt.now) }
{
    match stmt {
        Stmt::Declare { value, .. } => first_in_initial(program, scope, sought, deref_init(value)),
        Stmt::Assign { target, value, .. } => {
            let target = first_part(program, scope, sought, target);
            first_of(
                target,
                first_in_initial(program, scope, sought, deref_init(value)),
            )
        }
        Stmt::Update { target, value, .. } => first_of(
            first_part(program, scope, sought, target),
            first_part(program, scope, sought, value),
        ),
        Stmt::Step { target, .. } => first_part(program, scope, sought, target),
        Stmt::Call(x) => first_part(program, scope, sought, x),
        Stmt::Print(_, what) => first_in_print(program, scope, sought, what),
        Stmt::Return(_, value) => first_in_maybe(program, scope, sought, value),
        // For the prover: the model has two forms of `if`, so the match is split.
        Stmt::If {
            condition,
            otherwise,
            ..
        } => match otherwise {
            Some(_) => first_part(program, scope, sought, condition),
            None => first_part(program, scope, sought, condition),
        },
        Stmt::While { condition, .. } => first_part(program, scope, sought, condition),
        Stmt::For { condition, .. } => first_in_maybe(program, scope, sought, condition),
        Stmt::Foreach { domain, .. } => first_part(program, scope, sought, domain),
        Stmt::Empty | Stmt::Barrier(_) | Stmt::Break(_) | Stmt::Continue(_) | Stmt::Block(_) =>
            None,
    }
}
