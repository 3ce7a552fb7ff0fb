// The outcomes of statements with effects in the program slice, computed from single values only.

ghost use Rattle.std.specs.Prelude.{◌≡◌, pos, [], Option, None, Some, map};
ghost use Rattle.std.specs.declared.vec.Vec.{Vec as Row};
ghost use Rattle.std.specs.declared.alloc.Global.{Global as Heap};
ghost use Rattle.ti_base.specs.declared.place.Place.{Place as At};
ghost use Rattle.ti_base.specs.declared.action.Deposit.TheVariants as deposit;
ghost use Rattle.ti_syntax.specs.Trees.Views.{maybe_of};
ghost use Rattle.ti_lang.specs.Program.Types.{Typed};
ghost use Rattle.ti_lang.specs.Program.Expressions.{NumberedExp, numbered_exps};
ghost use Rattle.ti_lang.specs.Program.Expressions as exp;
ghost use Rattle.ti_lang.specs.Program.Statements.{NumberedStm};
ghost use Rattle.ti_lang.specs.Program.Statements as stm;
ghost use Rattle.ti_lang.specs.Program.Scope.{this_of};
ghost use Rattle.ti_lang.specs.Program.Views.{program_of, expression_of, value_type_of, numbered_param_of, initial_of, statement_of};
ghost use Rattle.ti_lang.specs.Typing.Called.{member_called};
ghost use Rattle.ti_lang.specs.Typing.Singleness.{has_single_result as has_single_result_spec};
ghost use Rattle.ti_lang.specs.Meaning.Scoping.{Env as Where, type_here};
ghost use Rattle.ti_lang.specs.Meaning.Calls.{called, call_by, call_of as made_call, parameters_from, parameters_of};
ghost use Rattle.ti_lang.specs.Meaning.Moves as move;
ghost use Rattle.ti_align.specs.Slice as slice;
ghost use Rattle.ti_eval.specs.declared.frame.Slot.{Slot as Kept};
ghost use Rattle.ti_eval.specs.Comes.{Comes, ComesAs};
ghost use Rattle.ti_eval.specs.Envs.{env_of};
ghost use Rattle.ti_eval.specs.Frames.{method_seen, slot_of, slots_of};
ghost use Rattle.ti_moves.specs.Outcomes.{method_at, move_after, type_given, type_received};
ghost use Rattle.ti_moves.specs.Receiving.{stm_seen, dest_seen, receiver_of, right_seen};
ghost use Rattle.ti_slice.specs.Mirrors.SingleCalls.{SingleCallComes, single_found, single_received};

use std::alloc::Global;
use ti_base::{CollKind, Deposit, Place, Value};
use ti_eval::{
    CanonicalAnswer, Env, Interrupt, Resume, Slot, VarValue, called_member, class_of_this, evaluate,
};
use ti_lang::program::{Expr, Init, Method, Param, Params, Stmt};
use ti_lang::typing::BuiltIn;
use ti_moves::{
    CollectiveCall, Dest, RightSide, StmtOutcome, argument, continue_with, delete, dest_at, method,
    number_called, returns, root_among, statement, store_value,
};
use ti_single::{has_single_result, is_single_target};

// ---- what is single

// Whether the receiver of a value is a single variable.
fn is_single_receiver(receiver: Dest) -> bool
    ensures { result ≡ slice.is_single_receiver (dest_seen receiver.entry) }
{
    match receiver {
        Dest::Nowhere => false,
        Dest::Declared {
            place: _,
            ty,
            variable: _,
        } => ty.single,
        Dest::Assigned { place: _, target } => is_single_target(target),
        Dest::Updated {
            place: _,
            operator: _,
            target,
        } => is_single_target(target),
    }
}

// Whether the result of a method is single.
fn gives_single(method: Option<&Method>) -> bool
    ensures { result ≡ has_single_result_spec (method_seen method.entry) }
{
    match method {
        Some(method) => has_single_result(method),
        None => false,
    }
}

// ---- arguments

// Adds the parameter of this number to those found so far, if it is single.
#[tactic(auto, using(ti_eval::proofs::Lemmas::steps, ti_eval::proofs::Lemmas::one_more))]
fn bind_parameter<'a>(
    alloc: Global,
    env: &Env,
    number: usize,
    param: &Param,
    arg: &Expr,
    found: Vec<Slot>,
    answers: &'a [CanonicalAnswer],
) -> Result<(Vec<Slot>, &'a [CanonicalAnswer]), Interrupt>
    ensures { ComesAs (λ (v : Row Kept Heap). slots_of v.items) result
        (single_found (env_of env.now) (record { number = number; declared = Typed param.now.ty.single (value_type_of param.now.ty.ty) })
        (expression_of arg.now) (slots_of found.items) answers.now) }
{
    if !param.ty.single {
        return Ok((found, answers));
    }
    let (slot, answers) = argument(alloc, env, number, param, arg, answers)?;
    let mut found = found;
    found.push(slot)?;
    Ok((found, answers))
}

// The single parameters with the values of their arguments, as far as there are both.
fn bind<'a>(
    alloc: Global,
    env: &Env,
    params: &[Param],
    args: &[Expr],
    answers: &'a [CanonicalAnswer],
) -> Result<(Vec<Slot>, &'a [CanonicalAnswer]), Interrupt>
    ensures { ComesAs (λ (v : Row Kept Heap). slots_of v.items) result
        (slice.single_bound (env_of env.now) (parameters_from 0 (map numbered_param_of params.now))
        (numbered_exps (map expression_of args.now)) [] answers.now) }
{
    let mut found = Vec::new(alloc);
    let mut left = answers;
    let mut i = 0;
    while i < params.len() && i < args.len() {
        let (more, rest) = bind_parameter(alloc, env, i, &params[i], &args[i], found, left)?;
        found = more;
        left = rest;
        i += 1;
    }
    Ok((found, left))
}

// The parameters of a method. A missing method has none; `String[] x` is no variable.
fn params_in<'p>(method: Option<&'p Method>) -> &'p [Param]
    ensures { parameters_from 0 (map numbered_param_of result.now) ≡ parameters_of (method_seen method.entry).params }
{
    match method {
        Some(method) => match &method.params {
            Params::Typed(params) => params,
            Params::MainArgs => &[],
        },
        None => &[],
    }
}

// ---- calls

// The single parameters of a method with the values of their arguments.
fn parameters<'a>(
    alloc: Global,
    env: &Env,
    method: Option<&Method>,
    args: &[Expr],
    answers: &'a [CanonicalAnswer],
) -> Result<(Vec<Slot>, &'a [CanonicalAnswer]), Interrupt>
    ensures { ComesAs (λ (v : Row Kept Heap). slots_of v.items) result
        (slice.single_bound (env_of env.now) (parameters_of (method_seen method.entry).params)
        (numbered_exps (map expression_of args.now)) [] answers.now) }
{
    bind(alloc, env, params_in(method), args, answers)
}

// The call of the method with this number. Its object isn't evaluated.
#[tactic(auto, using(ti_eval::proofs::Lemmas::steps))]
fn call_method<'a, 'c>(
    alloc: Global,
    env: &Env,
    place: Place,
    number: usize,
    args: &[Expr],
    answers: &'a [CanonicalAnswer],
) -> Result<(StmtOutcome<'c>, &'a [CanonicalAnswer]), Interrupt>
    ensures { (object : Option NumberedExp) (x : NumberedStm) → ComesAs (move_after (env_of env.now) x) result
        (slice.single_calling (env_of env.now) (receiver_of x) (made_call place object (numbered_exps (map expression_of args.now))
        (method_at (program_of env.now.program.now) number)) answers.now) }
{
    let callee = method(env.program, number);
    let (parameters, answers) = parameters(alloc, env, callee, args, answers)?;
    let call = StmtOutcome::Calls {
        place,
        method: number,
        this: None,
        parameters,
    };
    Ok((call, answers))
}

// The outcome of the call that an expression is, of the method with this number; `None` if it isn't a call.
fn call_of<'a, 'c>(
    alloc: Global,
    env: &Env,
    number: usize,
    expr: &Expr,
    answers: &'a [CanonicalAnswer],
) -> Option<Result<(StmtOutcome<'c>, &'a [CanonicalAnswer]), Interrupt>>
    ensures { (x : NumberedStm) → SingleCallComes (env_of env.now) x answers.now result
        (call_by (expression_of expr.now) (Some (method_at (program_of env.now.program.now) number))) }
{
    match expr {
        Expr::Call { place, args, .. } => Some(call_method(
            alloc, env, *place, number, args, answers,
        )),
        Expr::OwnCall { place, args, .. } => Some(call_method(
            alloc, env, *place, number, args, answers,
        )),
        Expr::Member { place, args, .. } => Some(call_method(
            alloc, env, *place, number, args, answers,
        )),
        _ => None,
    }
}

// The outcome of an expression that is a call of a declared method; `None` if it isn't one.
fn call<'a, 'c>(
    alloc: Global,
    env: &Env,
    expr: &Expr,
    answers: &'a [CanonicalAnswer],
) -> Option<Result<(StmtOutcome<'c>, &'a [CanonicalAnswer]), Interrupt>>
    ensures { (x : NumberedStm) → SingleCallComes (env_of env.now) x answers.now result (called (env_of env.now) (expression_of expr.now)) }
{
    match number_called(env.program, class_of_this(env.method), expr) {
        Some(number) => call_of(alloc, env, number, expr, answers),
        None => None,
    }
}

// ---- right sides

// Stores the value of a right side in the statement's receiver, if that is single.
fn receive<'a, 'c>(
    alloc: Global,
    env: &Env,
    stmt: &'c Stmt,
    right: RightSide,
    answers: &'a [CanonicalAnswer],
) -> Result<(StmtOutcome<'c>, &'a [CanonicalAnswer]), Interrupt>
    ensures { ComesAs (move_after (env_of env.now) (statement_of stmt.now)) result
        (single_received (env_of env.now) (receiver_of (statement_of stmt.now)) (right_seen (env_of env.now) right.entry) answers.now) }
{
    let receiver = dest_at(Some(stmt));
    if is_single_receiver(receiver) {
        store_value(alloc, env, receiver, right, answers)
    } else {
        Ok((continue_with(Resume::Inside), answers))
    }
}

// Calls a method, or stores another value in a single receiver.
fn assign_value<'a, 'c>(
    alloc: Global,
    env: &Env,
    stmt: &'c Stmt,
    expr: &Expr,
    answers: &'a [CanonicalAnswer],
) -> Result<(StmtOutcome<'c>, &'a [CanonicalAnswer]), Interrupt>
    ensures { ComesAs (move_after (env_of env.now) (statement_of stmt.now)) result
        (slice.single_value (env_of env.now) (receiver_of (statement_of stmt.now)) (expression_of expr.now)
        (called (env_of env.now) (expression_of expr.now)) answers.now) }
{
    match call(alloc, env, expr, answers) {
        Some(came) => came,
        None => receive(alloc, env, stmt, RightSide::Value(expr), answers),
    }
}

// `t++` or `t--`.
fn step<'a, 'c>(
    alloc: Global,
    env: &Env,
    stmt: &'c Stmt,
    answers: &'a [CanonicalAnswer],
) -> Result<(StmtOutcome<'c>, &'a [CanonicalAnswer]), Interrupt>
    ensures { (at : At) → ComesAs (move_after (env_of env.now) (statement_of stmt.now)) result
        (slice.single_value (env_of env.now) (receiver_of (statement_of stmt.now)) (exp.Int at (pos 1)) None answers.now) }
{
    let one = VarValue::plain(Value::Int(1));
    receive(alloc, env, stmt, RightSide::Known(&one), answers)
}

// A broadcast: the statement waits for the root's value. The contribution isn't evaluated.
#[tactic(auto, using(ti_eval::proofs::Lemmas::steps))]
fn broadcast<'a, 'c>(
    alloc: Global,
    env: &Env,
    place: Place,
    root: &Expr,
    answers: &'a [CanonicalAnswer],
) -> Result<(StmtOutcome<'c>, &'a [CanonicalAnswer]), Interrupt>
    ensures { (x : NumberedStm) (value : NumberedExp) → type_received (env_of env.now) x ≡ type_here (env_of env.now) value
        → ComesAs (move_after (env_of env.now) x) result (slice.single_broadcast (env_of env.now) (receiver_of x) place value
        (expression_of root.now) answers.now) }
{
    let (h, answers) = evaluate(alloc, env, root, answers)?;
    let (root, answers) = root_among(env.rank.procs, place, &h, answers)?;
    let collective = CollectiveCall {
        place,
        kind: CollKind::Broadcast,
        arg: Some(root),
    };
    let deposit = Deposit::Nothing;
    Ok((
        StmtOutcome::Expects {
            collective,
            deposit,
        },
        answers,
    ))
}

// The right side of a declaration or an assignment. A new object or grid is skipped.
fn initialize<'a, 'c>(
    alloc: Global,
    env: &Env,
    stmt: &'c Stmt,
    value: &Init,
    answers: &'a [CanonicalAnswer],
) -> Result<(StmtOutcome<'c>, &'a [CanonicalAnswer]), Interrupt>
    requires { type_received (env_of env.now) (statement_of stmt.now) ≡ type_given (env_of env.now) (initial_of value.now) }
    ensures { ComesAs (move_after (env_of env.now) (statement_of stmt.now)) result
        (slice.single_initial (env_of env.now) (receiver_of (statement_of stmt.now)) (initial_of value.now) answers.now) }
{
    match value {
        Init::Value(e) => assign_value(alloc, env, stmt, e, answers),
        Init::NewRegion(place) => Ok((
            StmtOutcome::Expects {
                collective: CollectiveCall {
                    place: *place,
                    kind: CollKind::MakeRegion,
                    arg: None,
                },
                deposit: Deposit::Nothing,
            },
            answers,
        )),
        Init::Broadcast {
            place,
            value: _,
            root,
        } => broadcast(alloc, env, *place, root, answers),
        Init::NewObject { .. } => Ok((continue_with(Resume::Inside), answers)),
        Init::NewGrid { .. } => Ok((continue_with(Resume::Inside), answers)),
    }
}

// ---- expression statements

// The arrival at an exchange, without a contribution.
fn exchange<'c>(place: Place) -> StmtOutcome<'c>
    ensures { (env : Where) (x : NumberedStm) → move_after env x result ≡ move.Meets (slice.exchange_wait place) deposit.Nothing [] }
{
    StmtOutcome::Meets {
        collective: CollectiveCall {
            place,
            kind: CollKind::Exchange,
            arg: None,
        },
        deposit: Deposit::Nothing,
        resume: Resume::Inside,
    }
}

// A member call: exchange and delete are collectives, any other one is skipped.
fn member_statement<'a, 'c>(
    alloc: Global,
    env: &Env,
    place: Place,
    receiver: &Expr,
    name: u32,
    answers: &'a [CanonicalAnswer],
) -> Result<(StmtOutcome<'c>, &'a [CanonicalAnswer]), Interrupt>
    ensures { (x : NumberedStm) → ComesAs (move_after (env_of env.now) x) result
        (slice.single_member (env_of env.now) place (expression_of receiver.now)
        (member_called (env_of env.now).program (this_of (env_of env.now).method) (expression_of receiver.now) name) answers.now) }
{
    match called_member(env, receiver, name) {
        Some(member) => match member {
            BuiltIn::Exchange => Ok((exchange(place), answers)),
            BuiltIn::Delete => delete(alloc, env, place, receiver, answers),
            _ => Ok((continue_with(Resume::Inside), answers)),
        },
        None => Ok((continue_with(Resume::Inside), answers)),
    }
}

// An expression statement that calls no declared method.
#[tactic(auto, using(ti_lang::proofs::Lemmas::program_bridges))]
fn uncalled_statement<'a, 'c>(
    alloc: Global,
    env: &Env,
    expr: &Expr,
    answers: &'a [CanonicalAnswer],
) -> Result<(StmtOutcome<'c>, &'a [CanonicalAnswer]), Interrupt>
    ensures { (x : NumberedStm) → ComesAs (move_after (env_of env.now) x) result
        (slice.single_alone (env_of env.now) (expression_of expr.now) None answers.now) }
{
    match expr {
        Expr::Member {
            place,
            receiver,
            name,
            args: _,
        } => member_statement(alloc, env, *place, receiver, *name, answers),
        _ => Ok((continue_with(Resume::Inside), answers)),
    }
}

// An expression statement.
fn expr_statement<'a, 'c>(
    alloc: Global,
    env: &Env,
    expr: &Expr,
    answers: &'a [CanonicalAnswer],
) -> Result<(StmtOutcome<'c>, &'a [CanonicalAnswer]), Interrupt>
    ensures { ComesAs (move_after (env_of env.now) (stm.Call (expression_of expr.now))) result
        (slice.single_alone (env_of env.now) (expression_of expr.now) (called (env_of env.now) (expression_of expr.now)) answers.now) }
{
    match call(alloc, env, expr, answers) {
        Some(came) => came,
        None => uncalled_statement(alloc, env, expr, answers),
    }
}

// ---- statements

// A return, with its value if the result is single.
fn return_value<'a, 'c>(
    alloc: Global,
    env: &Env,
    place: Place,
    value: &Option<Expr>,
    answers: &'a [CanonicalAnswer],
) -> Result<(StmtOutcome<'c>, &'a [CanonicalAnswer]), Interrupt>
    ensures { (x : NumberedStm) → ComesAs (move_after (env_of env.now) x) result
        (slice.single_return (env_of env.now) place (maybe_of expression_of value.now) answers.now) }
{
    if gives_single(env.method) {
        returns(alloc, env, place, value, answers)
    } else {
        Ok((StmtOutcome::Returns(None), answers))
    }
}

// A statement that exists.
fn existing_statement<'a, 'c>(
    alloc: Global,
    env: &Env,
    stmt: &'c Stmt,
    answers: &'a [CanonicalAnswer],
) -> Result<(StmtOutcome<'c>, &'a [CanonicalAnswer]), Interrupt>
    ensures { ComesAs (move_after (env_of env.now) (statement_of stmt.now)) result
        (slice.single_statement (env_of env.now) (statement_of stmt.now) answers.now) }
{
    match stmt {
        Stmt::Declare { value, .. } => initialize(alloc, env, stmt, value, answers),
        Stmt::Assign { value, .. } => initialize(alloc, env, stmt, value, answers),
        Stmt::Update { value, .. } => assign_value(alloc, env, stmt, value, answers),
        Stmt::Step { .. } => step(alloc, env, stmt, answers),
        Stmt::Call(e) => expr_statement(alloc, env, e, answers),
        Stmt::Return(place, value) => return_value(alloc, env, *place, value, answers),
        _ => statement(alloc, env, Some(stmt), answers),
    }
}

/// The outcome of a statement with effects in the program slice; a missing statement counts as empty.
pub fn single_statement<'a, 'c>(
    alloc: Global,
    env: &Env,
    stmt: Option<&'c Stmt>,
    answers: &'a [CanonicalAnswer],
) -> Result<(StmtOutcome<'c>, &'a [CanonicalAnswer]), Interrupt>
    ensures { ComesAs (move_after (env_of env.now) (stm_seen stmt.entry)) result
        (slice.single_statement (env_of env.now) (stm_seen stmt.entry) answers.now) }
{
    match stmt {
        Some(s) => existing_statement(alloc, env, s, answers),
        None => statement(alloc, env, None, answers),
    }
}
