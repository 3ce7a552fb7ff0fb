// The execution of statements by their forms.

ghost use Rattle.std.specs.Prelude.{◌≡◌, ℕ, [], ◌∷◌, map, None, Some, pos, true, false, if◌then◌else◌};
ghost use Rattle.std.specs.Option.{option_map_or};
ghost use Rattle.std.specs.Borrow.{Bor};
ghost use Rattle.ti_base.specs.declared.place.Place.{Place as At};
ghost use Rattle.ti_base.specs.declared.value.Value.TheVariants.{Int};
ghost use Rattle.ti_syntax.specs.Trees.Views.{maybe_of};
ghost use Rattle.ti_lang.specs.declared.program.types.Ty.{Ty as Kind};
ghost use Rattle.ti_lang.specs.Program.Types.{Void};
ghost use Rattle.ti_lang.specs.Program.Expressions.{NumberedExp, numbered_exps};
ghost use Rattle.ti_lang.specs.Program.Expressions as exp;
ghost use Rattle.ti_lang.specs.Program.Statements.{NumberedStm};
ghost use Rattle.ti_lang.specs.Program.Statements as stm;
ghost use Rattle.ti_lang.specs.Program.Views.{expression_of, initial_of, statement_of, value_type_of};
ghost use Rattle.ti_lang.specs.Typing.Declared.{result_type};
ghost use Rattle.ti_lang.specs.Meaning.Held.{Held as Seen, Plain};
ghost use Rattle.ti_lang.specs.Meaning.Comp.{CompResult, bind_result, gives};
ghost use Rattle.ti_lang.specs.Meaning.Conversions as conversions;
ghost use Rattle.ti_lang.specs.Meaning.Processes.{Nowhere, Do};
ghost use Rattle.ti_lang.specs.Meaning.Scoping.{Env as Where};
ghost use Rattle.ti_lang.specs.Meaning.Evaluation.{eval};
ghost use Rattle.ti_lang.specs.Meaning.Calls.{called as called_spec};
ghost use Rattle.ti_lang.specs.Meaning.Copies as copying;
ghost use Rattle.ti_lang.specs.Meaning.Collectives as collectives;
ghost use Rattle.ti_lang.specs.Meaning.Moves.{receives as receives_spec};
ghost use Rattle.ti_lang.specs.Meaning.Moves as move;
ghost use Rattle.ti_lang.specs.Meaning.Statements as statements;
ghost use Rattle.ti_eval.specs.Comes.{Comes, ComesAs};
ghost use Rattle.ti_eval.specs.Envs.{env_of};
ghost use Rattle.ti_eval.specs.Frames.{MethodContext, method_seen, work_of};
ghost use Rattle.ti_moves.specs.Outcomes.{move_after, context_in, works_of, type_received, type_given};
ghost use Rattle.ti_moves.specs.Receiving.{stm_seen, receiver_of};

use crate::assign::{Dest, RightSide, dest_at, store_value};
use crate::calls::{call_of, call_outcome};
use crate::collectives::{barrier, broadcasts, delete, exchanges, makes_region};
use crate::copies::copies;
use crate::makers::{new_grid, new_object};
use crate::outcomes::{Continuation, StmtOutcome, VarUpdate};
use crate::prints::print_outcome;
use std::alloc::Global;
use ti_base::{Place, Value};
use ti_eval::{
    CanonicalAnswer, ChildIndex, Env, Interrupt, Resume, VarValue, called_member, coerce, evaluate,
};
use ti_lang::program::{Expr, Init, Method, ResultType, Stmt, Ty};
use ti_lang::typing::BuiltIn;

/// The outcome of a statement that continues with this pending work and changes no variable.
pub fn continue_with<'c>(resume: Resume) -> StmtOutcome<'c>
    ensures { (env : Where) (x : NumberedStm) → move_after env x result ≡ move.Goes env.variables (work_of (context_in env) x resume) }
{
    StmtOutcome::Goes(VarUpdate::Same, Continuation::Own(resume))
}

// ---- right sides

// An expression as a right side: a call leads into the method, the value of another expression is stored.
fn store_or_call<'a, 'c>(
    alloc: Global,
    env: &Env,
    stmt: &'c Stmt,
    expr: &Expr,
    answers: &'a [CanonicalAnswer],
) -> Result<(StmtOutcome<'c>, &'a [CanonicalAnswer]), Interrupt>
    ensures { ComesAs (move_after (env_of env.now) (statement_of stmt.now)) result
        (statements.valued_or_called (env_of env.now) (receiver_of (statement_of stmt.now)) (expression_of expr.now)
        (called_spec (env_of env.now) (expression_of expr.now)) answers.now) }
{
    match call_of(env, expr) {
        Some(call) => call_outcome(alloc, env, call, answers),
        None => store_value(
            alloc,
            env,
            dest_at(Some(stmt)),
            RightSide::Value(expr),
            answers,
        ),
    }
}

// The right side of a declaration or an assignment.
#[tactic(auto, using(ti_eval::proofs::Lemmas::steps))]
fn store_init<'a, 'c>(
    alloc: Global,
    env: &Env,
    stmt: &'c Stmt,
    value: &Init,
    answers: &'a [CanonicalAnswer],
) -> Result<(StmtOutcome<'c>, &'a [CanonicalAnswer]), Interrupt>
    requires { type_received (env_of env.now) (statement_of stmt.now) ≡ type_given (env_of env.now) (initial_of value.now) }
    ensures { ComesAs (move_after (env_of env.now) (statement_of stmt.now)) result
        (statements.initialized (env_of env.now) (receiver_of (statement_of stmt.now)) (initial_of value.now) answers.now) }
{
    match value {
        Init::Value(e) => store_or_call(alloc, env, stmt, e, answers),
        Init::NewRegion(place) => Ok((makes_region(*place), answers)),
        Init::NewObject {
            place,
            region,
            class,
        } => {
            let (h, answers) = new_object(alloc, env, *place, region, *class, answers)?;
            store_received(alloc, env, Some(stmt), &h, answers)
        }
        Init::NewGrid {
            place,
            region,
            element,
            bracket,
            dims,
        } => {
            let (h, answers) = new_grid(
                alloc,
                env,
                *place,
                region,
                &element.ty,
                *bracket,
                dims,
                answers,
            )?;
            store_received(alloc, env, Some(stmt), &h, answers)
        }
        Init::Broadcast { place, value, root } => {
            broadcasts(alloc, env, *place, value, root, answers)
        }
    }
}

// ---- expression statements

// An expression whose value is dropped.
fn evaluate_and_drop<'a, 'c>(
    alloc: Global,
    env: &Env,
    expr: &Expr,
    answers: &'a [CanonicalAnswer],
) -> Result<(StmtOutcome<'c>, &'a [CanonicalAnswer]), Interrupt>
    ensures { (x : NumberedStm) → ComesAs (move_after (env_of env.now) x) result
        (receives_spec (env_of env.now) Nowhere (eval (env_of env.now) (expression_of expr.now)) answers.now) }
{
    store_value(alloc, env, Dest::Nowhere, RightSide::Value(expr), answers)
}

// A member call; copy, exchange and delete have no value, the value of another member is dropped.
fn member_stmt<'a, 'c>(
    alloc: Global,
    env: &Env,
    expr: &Expr,
    place: Place,
    receiver: &Expr,
    name: u32,
    args: &[Expr],
    answers: &'a [CanonicalAnswer],
) -> Result<(StmtOutcome<'c>, &'a [CanonicalAnswer]), Interrupt>
    requires { expression_of expr.now ≡ exp.member place (expression_of receiver.now) name (map expression_of args.now) }
    ensures { ComesAs (move_after (env_of env.now) (stm.Call (expression_of expr.now))) result
        (statements.alone (env_of env.now) (expression_of expr.now) None answers.now) }
{
    match called_member(env, receiver, name) {
        Some(member) => match member {
            BuiltIn::Copy => copies(alloc, env, place, receiver, args, answers),
            BuiltIn::Exchange => exchanges(alloc, env, place, receiver, args, answers),
            BuiltIn::Delete => delete(alloc, env, place, receiver, answers),
            _ => evaluate_and_drop(alloc, env, expr, answers),
        },
        None => evaluate_and_drop(alloc, env, expr, answers),
    }
}

// An expression statement that calls no declared method.
#[tactic(auto, using(ti_lang::proofs::Lemmas::program_bridges))]
fn plain_expr_stmt<'a, 'c>(
    alloc: Global,
    env: &Env,
    expr: &Expr,
    answers: &'a [CanonicalAnswer],
) -> Result<(StmtOutcome<'c>, &'a [CanonicalAnswer]), Interrupt>
    ensures { ComesAs (move_after (env_of env.now) (stm.Call (expression_of expr.now))) result
        (statements.alone (env_of env.now) (expression_of expr.now) None answers.now) }
{
    match expr {
        Expr::Member {
            place,
            receiver,
            name,
            args,
        } => member_stmt(alloc, env, expr, *place, receiver, *name, args, answers),
        _ => evaluate_and_drop(alloc, env, expr, answers),
    }
}

// An expression statement.
fn expr_stmt<'a, 'c>(
    alloc: Global,
    env: &Env,
    expr: &Expr,
    answers: &'a [CanonicalAnswer],
) -> Result<(StmtOutcome<'c>, &'a [CanonicalAnswer]), Interrupt>
    ensures { ComesAs (move_after (env_of env.now) (stm.Call (expression_of expr.now))) result
        (statements.alone (env_of env.now) (expression_of expr.now) (called_spec (env_of env.now) (expression_of expr.now)) answers.now) }
{
    match call_of(env, expr) {
        Some(call) => call_outcome(alloc, env, call, answers),
        None => plain_expr_stmt(alloc, env, expr, answers),
    }
}

// ---- returns

// The type of a method's result, if it has one.
fn result_in<'a>(method: Option<&'a Method>) -> Option<&'a Ty>
    ensures { option_map_or (λ (t : Bor Kind). value_type_of t.now) result Void ≡ result_type (method_seen method.entry) }
{
    match method {
        Some(method) => match &method.result {
            ResultType::Void => None,
            ResultType::Typed(t) => Some(&t.ty),
        },
        None => None,
    }
}

// Converts a value to the type of the method's result.
fn as_result<'a>(
    alloc: Global,
    env: &Env,
    place: Place,
    value: VarValue,
    answers: &'a [CanonicalAnswer],
) -> Result<(VarValue, &'a [CanonicalAnswer]), Interrupt>
    ensures { Comes result (conversions.converted place (result_type (env_of env.now).method) value answers.now) }
{
    match result_in(env.method) {
        Some(t) => coerce(alloc, place, t, value, answers),
        None => Ok((value, answers)),
    }
}

/// A return, with a value or without one.
#[tactic(auto, using(ti_eval::proofs::Lemmas::steps))]
pub fn returns<'a, 'c>(
    alloc: Global,
    env: &Env,
    place: Place,
    value: &Option<Expr>,
    answers: &'a [CanonicalAnswer],
) -> Result<(StmtOutcome<'c>, &'a [CanonicalAnswer]), Interrupt>
    ensures { (x : NumberedStm) → ComesAs (move_after (env_of env.now) x) result
        (statements.returns (env_of env.now) place (maybe_of expression_of value.now) answers.now) }
{
    match value {
        Some(e) => {
            let (h, answers) = evaluate(alloc, env, e, answers)?;
            let (k, answers) = as_result(alloc, env, place, h, answers)?;
            Ok((StmtOutcome::Returns(Some(k)), answers))
        }
        None => Ok((StmtOutcome::Returns(None), answers)),
    }
}

// ---- branches and loops

// The pending work of an `if`, with `else` or without, after its condition.
fn branch(taken: bool, with_else: bool) -> Continuation
    ensures alone { with_else ≡ false → (site : MethodContext) (at : At) (c : NumberedExp) (x : NumberedStm) → works_of site (stm.If at c x) result
        ≡ (if taken then Do x ∷ [] else []) }
    ensures both { with_else ≡ true → (site : MethodContext) (at : At) (c : NumberedExp) (x y : NumberedStm)
        → works_of site (stm.IfElse at c x y) result ≡ Do (if taken then x else y) ∷ [] }
{
    if taken {
        Continuation::Child(ChildIndex::Then, Resume::Inside)
    } else if with_else {
        Continuation::Child(ChildIndex::Else, Resume::Inside)
    } else {
        Continuation::Own(Resume::Inside)
    }
}

// `if`, with `else` or without.
#[tactic(auto, using(ti_eval::proofs::Lemmas::steps))]
fn branches<'a, 'c>(
    alloc: Global,
    env: &Env,
    condition: &Expr,
    with_else: bool,
    answers: &'a [CanonicalAnswer],
) -> Result<(StmtOutcome<'c>, &'a [CanonicalAnswer]), Interrupt>
    ensures alone { with_else ≡ false → (at : At) (x : NumberedStm)
        → ComesAs (move_after (env_of env.now) (stm.If at (expression_of condition.now) x)) result
        (statements.statement (env_of env.now) (stm.If at (expression_of condition.now) x) answers.now) }
    ensures both { with_else ≡ true → (at : At) (x y : NumberedStm)
        → ComesAs (move_after (env_of env.now) (stm.IfElse at (expression_of condition.now) x y)) result
        (statements.statement (env_of env.now) (stm.IfElse at (expression_of condition.now) x y) answers.now) }
{
    let (h, answers) = evaluate(alloc, env, condition, answers)?;
    let left = branch(h.is_true(), with_else);
    Ok((StmtOutcome::Goes(VarUpdate::Same, left), answers))
}

// `foreach`, before its first iteration.
#[tactic(auto, using(ti_eval::proofs::Lemmas::steps))]
fn foreach<'a, 'c>(
    alloc: Global,
    env: &Env,
    variable: u32,
    domain: &Expr,
    answers: &'a [CanonicalAnswer],
) -> Result<(StmtOutcome<'c>, &'a [CanonicalAnswer]), Interrupt>
    ensures { (at : At) (body : NumberedStm) → ComesAs (move_after (env_of env.now) (stm.Foreach at variable (expression_of domain.now) body))
        result (statements.statement (env_of env.now) (stm.Foreach at variable (expression_of domain.now) body) answers.now) }
{
    let (domain, answers) = evaluate(alloc, env, domain, answers)?;
    let resume = Resume::Each {
        variable,
        domain: Box::new(alloc, domain)?,
        last: None,
    };
    Ok((continue_with(resume), answers))
}

// ---- statements

// `t++` or `t--`.
fn step<'a, 'c>(
    alloc: Global,
    env: &Env,
    stmt: &'c Stmt,
    answers: &'a [CanonicalAnswer],
) -> Result<(StmtOutcome<'c>, &'a [CanonicalAnswer]), Interrupt>
    ensures { ComesAs (move_after (env_of env.now) (statement_of stmt.now)) result
        (receives_spec (env_of env.now) (receiver_of (statement_of stmt.now)) (gives (Plain (Int (pos 1)))) answers.now) }
{
    let one = VarValue::plain(Value::Int(1));
    store_received(alloc, env, Some(stmt), &one, answers)
}

// A statement that exists.
#[tactic(auto, using(crate::proofs::Coming::before_list))]
fn execute<'a, 'c>(
    alloc: Global,
    env: &Env,
    stmt: &'c Stmt,
    answers: &'a [CanonicalAnswer],
) -> Result<(StmtOutcome<'c>, &'a [CanonicalAnswer]), Interrupt>
    ensures { ComesAs (move_after (env_of env.now) (statement_of stmt.now)) result
        (statements.statement (env_of env.now) (statement_of stmt.now) answers.now) }
{
    match stmt {
        Stmt::Empty => Ok((continue_with(Resume::Inside), answers)),
        Stmt::Declare { value, .. } => store_init(alloc, env, stmt, value, answers),
        Stmt::Assign { value, .. } => store_init(alloc, env, stmt, value, answers),
        Stmt::Update { value, .. } => store_or_call(alloc, env, stmt, value, answers),
        Stmt::Step { .. } => step(alloc, env, stmt, answers),
        Stmt::Call(e) => expr_stmt(alloc, env, e, answers),
        Stmt::Print(place, what) => print_outcome(alloc, env, *place, what, answers),
        Stmt::Barrier(place) => Ok((barrier(*place), answers)),
        Stmt::Break(_) => Ok((StmtOutcome::Breaks, answers)),
        Stmt::Continue(_) => Ok((StmtOutcome::Continues, answers)),
        Stmt::Return(place, value) => returns(alloc, env, *place, value, answers),
        Stmt::Block(_) => Ok((continue_with(Resume::From(0)), answers)),
        Stmt::If {
            condition,
            otherwise,
            ..
        } => match otherwise {
            Some(_) => branches(alloc, env, condition, true, answers),
            None => branches(alloc, env, condition, false, answers),
        },
        Stmt::While { .. } => Ok((continue_with(Resume::Before), answers)),
        Stmt::For { first: Some(_), .. } => Ok((
            StmtOutcome::Goes(
                VarUpdate::Same,
                Continuation::Child(ChildIndex::First, Resume::Before),
            ),
            answers,
        )),
        Stmt::For { first: None, .. } => Ok((continue_with(Resume::Before), answers)),
        Stmt::Foreach {
            variable,
            domain,
            ..
        } => foreach(alloc, env, *variable, domain, answers),
    }
}

/// The outcome of a statement; a missing one counts as empty.
pub fn statement<'a, 'c>(
    alloc: Global,
    env: &Env,
    stmt: Option<&'c Stmt>,
    answers: &'a [CanonicalAnswer],
) -> Result<(StmtOutcome<'c>, &'a [CanonicalAnswer]), Interrupt>
    ensures { ComesAs (move_after (env_of env.now) (stm_seen stmt.entry)) result
        (statements.statement (env_of env.now) (stm_seen stmt.entry) answers.now) }
{
    match stmt {
        Some(s) => execute(alloc, env, s, answers),
        None => Ok((continue_with(Resume::Inside), answers)),
    }
}

/// The outcome of a statement that has received the value of a call or a collective: the value is stored.
pub fn store_received<'a, 'c>(
    alloc: Global,
    env: &Env,
    stmt: Option<&'c Stmt>,
    value: &VarValue,
    answers: &'a [CanonicalAnswer],
) -> Result<(StmtOutcome<'c>, &'a [CanonicalAnswer]), Interrupt>
    ensures { ComesAs (move_after (env_of env.now) (stm_seen stmt.entry)) result
        (receives_spec (env_of env.now) (receiver_of (stm_seen stmt.entry)) (gives value.now) answers.now) }
{
    store_value(alloc, env, dest_at(stmt), RightSide::Known(value), answers)
}
