// Calls of declared methods: which method is called, the binding of its parameters, and the outcome.

ghost use Rattle.std.specs.Prelude.{◌≡◌, ◌==◌, ◌&&◌, [], Some, map, not, find, slice_get, option_map};
ghost use Rattle.std.specs.declared.vec.Vec.{Vec as Row};
ghost use Rattle.std.specs.declared.alloc.Global.{Global as Heap};
ghost use Rattle.ti_base.specs.declared.place.Place.{Place as At};
ghost use Rattle.ti_lang.specs.Program.Types.{Typed};
ghost use Rattle.ti_lang.specs.Program.Expressions.{numbered_exps};
ghost use Rattle.ti_lang.specs.Program.Statements.{NumberedStm};
ghost use Rattle.ti_lang.specs.Program.Classes.{NumberedMethod, ProgramView};
ghost use Rattle.ti_lang.specs.Program.Views.{program_of, expression_of, statement_of, value_type_of, numbered_param_of};
ghost use Rattle.ti_lang.specs.Typing.TyRef.{ty_view};
ghost use Rattle.ti_lang.specs.Typing.Declared.{is_static_method, instance_method};
ghost use Rattle.ti_lang.specs.Typing.Called.{called_method, method_behind};
ghost use Rattle.ti_lang.specs.Meaning.Calls.{bind_params, maybe_eval, parameters_from, parameters_of};
ghost use Rattle.ti_lang.specs.Meaning.Calls.{call_by as call_by_spec, called as called_spec, calling as calling_spec};
ghost use Rattle.ti_lang.specs.Meaning.Calls.{maybe_needed as maybe_needed_spec};
ghost use Rattle.ti_eval.specs.declared.frame.Slot.{Slot as Kept};
ghost use Rattle.ti_eval.specs.Comes.{Comes, ComesAs};
ghost use Rattle.ti_eval.specs.Envs.{env_of};
ghost use Rattle.ti_eval.specs.Frames.{method_seen, slot_of, slots_of};
ghost use Rattle.ti_moves.specs.Arguments.{bound_argument};
ghost use Rattle.ti_moves.specs.Callees.{object_seen, call_seen};
ghost use Rattle.ti_moves.specs.Outcomes.{method_at, move_after};
ghost use Rattle.ti_moves.specs.Receiving.{receiver_of};

use crate::assign::new_slot;
use crate::outcomes::StmtOutcome;
use crate::references::require_reference;
use std::alloc::Global;
use ti_base::{Id, Place, Value};
use ti_eval::{CanonicalAnswer, Env, Interrupt, Slot, VarValue, class_of_this, coerce, evaluate};
use ti_lang::program::{Expr, Method, Param, Params, ProgramData, Stmt, has_static};
use ti_lang::typing::{TyRef as Kind, syntactic_type};

// ---- which method

/// The method with this number, if there is one.
#[tactic(auto, using(ti_lang::proofs::Lemmas::method_lookups))]
pub fn method<'p>(program: &'p ProgramData, number: usize) -> Option<&'p Method>
    ensures { method_seen result ≡ method_at (program_of program.now) number }
{
    if number < program.methods.len() {
        Some(&program.methods[number])
    } else {
        None
    }
}

/// The statements of a method; none if there is no method.
pub fn body_of<'p>(method: Option<&'p Method>) -> &'p [Stmt]
    ensures { map statement_of result.now ≡ (method_seen method.entry).body }
{
    match method {
        Some(m) => &m.body,
        None => &[],
    }
}

// The number, if a method has it.
#[tactic(auto, using(crate::proofs::MethodLaws::method_numbers))]
fn existing_method(program: &ProgramData, number: u32) -> Option<usize>
    ensures { slice_get (program_of program.now).methods number ≡ option_map (method_at (program_of program.now)) result }
{
    let number = number as usize;
    if number < program.methods.len() {
        Some(number)
    } else {
        None
    }
}

// The number of the first method of a class and a name.
fn method_named(program: &ProgramData, class: u32, name: u32) -> Option<usize>
    ensures { find (λ (m : NumberedMethod). (m.class == class) && (m.name == name)) (program_of program.now).methods
        ≡ option_map (method_at (program_of program.now)) result }
{
    program.first_method(class, name)
}

fn is_instance(method: Option<&Method>) -> bool
    ensures { result ≡ not (is_static_method (method_seen method.entry)) }
{
    match method {
        Some(method) => !has_static(&method.modifiers),
        None => true,
    }
}

// The number of the first method of a class and a name, if it is an instance method.
#[tactic(auto, unfolding(ti_lang::specs::Typing::Declared::instance_method))]
fn instance_named(program: &ProgramData, class: u32, name: u32) -> Option<usize>
    ensures { instance_method (program_of program.now) class name ≡ option_map (method_at (program_of program.now)) result }
{
    let number = method_named(program, class, name)?;
    if is_instance(method(program, number)) {
        Some(number)
    } else {
        None
    }
}

// The number of the instance method that a name denotes after an object.
fn method_of_object<'p>(program: &'p ProgramData, ty: Kind<'p>, name: u32) -> Option<usize>
    ensures { method_behind (program_of program.now) (ty_view ty.entry) name ≡ option_map (method_at (program_of program.now)) result }
{
    match ty {
        Kind::Class { class, local: _ } => instance_named(program, class, name),
        _ => None,
    }
}

/// The number of the declared method that an expression calls, if it is such a call.
#[tactic(auto, using(ti_lang::proofs::Lemmas::program_bridges))]
pub fn number_called(program: &ProgramData, this: Option<u32>, expr: &Expr) -> Option<usize>
    ensures { called_method (program_of program.now) this (expression_of expr.now) ≡ option_map (method_at (program_of program.now)) result }
{
    match expr {
        Expr::Call { method: number, .. } => existing_method(program, *number),
        Expr::OwnCall { method: number, .. } => existing_method(program, *number),
        Expr::Member { receiver, name, .. } => {
            method_of_object(program, syntactic_type(program, this, receiver), *name)
        }
        _ => None,
    }
}

// ---- which call

/// The object of a call.
#[derive(Clone, Copy)]
pub enum Object<'p> {
    /// A call of a static method has none.
    Missing,
    This,
    Of(&'p Expr),
}

/// A call of the method with this number.
#[derive(Clone, Copy)]
pub struct Call<'p> {
    pub place: Place,
    pub method: usize,
    pub object: Object<'p>,
    pub args: &'p [Expr],
}

// The call that an expression is, of the method with this number.
#[tactic(auto, using(ti_lang::proofs::Lemmas::program_bridges))]
fn call_by<'p>(method: usize, expr: &'p Expr) -> Option<Call<'p>>
    ensures { (program : ProgramView) → call_by_spec (expression_of expr.now) (Some (method_at program method))
        ≡ option_map (call_seen program) result }
{
    match expr {
        Expr::Call { place, args, .. } => Some(Call {
            place: *place,
            method,
            object: Object::Missing,
            args,
        }),
        Expr::OwnCall { place, args, .. } => Some(Call {
            place: *place,
            method,
            object: Object::This,
            args,
        }),
        Expr::Member {
            place,
            receiver,
            args,
            ..
        } => Some(Call {
            place: *place,
            method,
            object: Object::Of(receiver),
            args,
        }),
        _ => None,
    }
}

/// The call that an expression is, if it calls a declared method.
pub fn call_of<'p>(env: &Env, expr: &'p Expr) -> Option<Call<'p>>
    ensures { called_spec (env_of env.now) (expression_of expr.now) ≡ option_map (call_seen (program_of env.now.program.now)) result }
{
    let number = number_called(env.program, class_of_this(env.method), expr)?;
    call_by(number, expr)
}

// ---- arguments

/// The parameter of this number with the value of its argument, which is converted to the parameter's type at once. Out of memory, too, if
/// the number doesn't fit into 32 bits.
#[tactic(auto, using(ti_eval::proofs::Lemmas::steps))]
pub fn argument<'a>(
    alloc: Global,
    env: &Env,
    number: usize,
    param: &Param,
    expr: &Expr,
    answers: &'a [CanonicalAnswer],
) -> Result<(Slot, &'a [CanonicalAnswer]), Interrupt>
    ensures { ComesAs slot_of result (bound_argument (env_of env.now) (record {
      number = number;
      declared = Typed param.now.ty.single (value_type_of param.now.ty.ty);
    }) (expression_of expr.now) answers.now) }
{
    let (h, answers) = evaluate(alloc, env, expr, answers)?;
    let (held, answers) = coerce(alloc, expr.place(), &param.ty.ty, h, answers)?;
    let Ok(number) = u32::try_from(number) else {
        return Err(Interrupt::Memory);
    };
    Ok((new_slot(alloc, &param.ty, number, held)?, answers))
}

// The parameters with the values of their arguments, as far as there are both.
fn bind<'a>(
    alloc: Global,
    env: &Env,
    params: &[Param],
    args: &[Expr],
    answers: &'a [CanonicalAnswer],
) -> Result<(Vec<Slot>, &'a [CanonicalAnswer]), Interrupt>
    ensures { ComesAs (λ (v : Row Kept Heap). slots_of v.items) result
        (bind_params (env_of env.now) (parameters_from 0 (map numbered_param_of params.now))
        (numbered_exps (map expression_of args.now)) [] answers.now) }
{
    let mut found = Vec::new(alloc);
    let mut left = answers;
    let mut i = 0;
    while i < params.len() && i < args.len() {
        let (slot, rest) = argument(alloc, env, i, &params[i], &args[i], left)?;
        found.push(slot)?;
        left = rest;
        i += 1;
    }
    Ok((found, left))
}

// The parameters of a method with the values of their arguments. `String[] x` is no variable, and a missing method has no parameter.
fn parameters<'a>(
    alloc: Global,
    env: &Env,
    callee: Option<&Method>,
    args: &[Expr],
    answers: &'a [CanonicalAnswer],
) -> Result<(Vec<Slot>, &'a [CanonicalAnswer]), Interrupt>
    ensures { ComesAs (λ (v : Row Kept Heap). slots_of v.items) result
        (bind_params (env_of env.now) (parameters_of (method_seen callee.entry).params) (numbered_exps (map expression_of args.now)) [] answers.now) }
{
    match callee {
        Some(callee) => match &callee.params {
            Params::Typed(params) => bind(alloc, env, params, args, answers),
            Params::MainArgs => Ok((Vec::new(alloc), answers)),
        },
        None => Ok((Vec::new(alloc), answers)),
    }
}

// ---- the call

// The object of a call, if it has one. A null reference is a fault.
#[tactic(auto, using(ti_eval::proofs::Lemmas::steps))]
fn require_object<'a>(
    place: Place,
    object: &Option<VarValue>,
    answers: &'a [CanonicalAnswer],
) -> Result<(Option<Id>, &'a [CanonicalAnswer]), Interrupt>
    ensures { Comes result (maybe_needed_spec place object.now answers.now) }
{
    match object {
        Some(h) => {
            let (id, answers) = require_reference(place, h, answers)?;
            Ok((Some(id), answers))
        }
        None => Ok((None, answers)),
    }
}

// The value of the object of a call, if it has one.
#[tactic(auto, using(ti_eval::proofs::Lemmas::steps))]
fn object_of<'a>(
    alloc: Global,
    env: &Env,
    object: Object,
    answers: &'a [CanonicalAnswer],
) -> Result<(Option<VarValue>, &'a [CanonicalAnswer]), Interrupt>
    ensures { (at : At) → Comes result (maybe_eval (env_of env.now) (object_seen at object.entry) answers.now) }
{
    match object {
        Object::Missing => Ok((None, answers)),
        Object::This => Ok((Some(VarValue::plain(Value::Obj(env.this))), answers)),
        Object::Of(x) => {
            let (h, answers) = evaluate(alloc, env, x, answers)?;
            Ok((Some(h), answers))
        }
    }
}

/// The outcome of a call. Its object and its arguments are evaluated in order; then an object that is null is a fault.
#[tactic(auto, using(ti_eval::proofs::Lemmas::steps))]
pub fn call_outcome<'a, 'c>(
    alloc: Global,
    env: &Env,
    call: Call,
    answers: &'a [CanonicalAnswer],
) -> Result<(StmtOutcome<'c>, &'a [CanonicalAnswer]), Interrupt>
    ensures { (x : NumberedStm) → ComesAs (move_after (env_of env.now) x) result
        (calling_spec (env_of env.now) (receiver_of x) (call_seen (program_of env.now.program.now) call.entry) answers.now) }
{
    let callee = method(env.program, call.method);
    let (object, answers) = object_of(alloc, env, call.object, answers)?;
    let (parameters, answers) = parameters(alloc, env, callee, call.args, answers)?;
    let (this, answers) = require_object(call.place, &object, answers)?;
    let came = StmtOutcome::Calls {
        place: call.place,
        method: call.method,
        this,
        parameters,
    };
    Ok((came, answers))
}
