// Effect summaries of statements: whether they contain a collective or another global effect, a `return`, or a jump.
ghost use Rattle.std.specs.Prelude.{◌≡◌, map, true, false};
ghost use Rattle.std.specs.Option.{option_map, option_map_or};
ghost use Rattle.ti_lang.specs.Program.Classes.{NumberedMethod};
ghost use Rattle.ti_lang.specs.Program.Scope.{this_of};
ghost use Rattle.ti_lang.specs.Program.Statements.{numbered_stms};
ghost use Rattle.ti_lang.specs.Program.Views.{program_of, expression_of, initial_of, statement_of, numbered_method_of};
ghost use Rattle.ti_lang.specs.Typing.TyRef.{built_in_of};
ghost use Rattle.ti_lang.specs.Typing.Singleness.{has_single_result};
ghost use Rattle.ti_lang.specs.Typing.Effects.{is_collective, is_collective_call, acts, initial_acts, no_effects, acting, together, kept_in_loop, doings, doings_of_all, doings_of_method, return_acts, jump_acts, has_global_effects};
ghost use Rattle.ti_single.specs.Effects.{effects_of};

use crate::deref::{deref_init, deref_stmt, deref_stmts};
use crate::singleness::is_single_target;
use ti_lang::program::{Expr, Init, Method, Program, ResultType, Stmt, has_static};
use ti_lang::typing::{BuiltIn, called_method, member_called};

/// The effect summary of a statement, with all statements in it.
#[derive(Clone, Copy, Debug, PartialEq, Eq)]
pub struct Effects {
    /// Whether it declares or assigns a single variable, performs a collective, or calls a method declared single.
    pub acts: bool,
    /// Whether it contains a `return`.
    pub returns: bool,
    /// Whether it contains a `break` or `continue` of the enclosing loop.
    pub jumps: bool,
}

impl Effects {
    /// The summary of a statement without effects.
    pub fn none() -> Effects
        ensures { effects_of result ≡ no_effects }
    {
        Effects {
            acts: false,
            returns: false,
            jumps: false,
        }
    }

    fn acting(acts: bool) -> Effects
        ensures { effects_of result ≡ acting acts }
    {
        Effects {
            acts,
            returns: false,
            jumps: false,
        }
    }

    fn jumping() -> Effects
        ensures { effects_of result ≡ record no_effects { jumps = true } }
    {
        Effects {
            acts: false,
            returns: false,
            jumps: true,
        }
    }

    fn returning() -> Effects
        ensures { effects_of result ≡ record no_effects { returns = true } }
    {
        Effects {
            acts: false,
            returns: true,
            jumps: false,
        }
    }

    /// The summary of two statements.
    pub fn merge(self, other: Effects) -> Effects
        ensures { effects_of result ≡ together (effects_of self) (effects_of other) }
    {
        Effects {
            acts: self.acts || other.acts,
            returns: self.returns || other.returns,
            jumps: self.jumps || other.jumps,
        }
    }

    /// The summary of a loop with this body: jumps don't leave the loop.
    pub fn absorb_jumps(self) -> Effects
        ensures { effects_of result ≡ kept_in_loop (effects_of self) }
    {
        Effects {
            acts: self.acts,
            returns: self.returns,
            jumps: false,
        }
    }
}

// ---- expressions as initializers or statements

fn is_collective(built_in: Option<BuiltIn>) -> bool
    ensures { result ≡ is_collective (option_map built_in_of built_in) }
{
    matches!(built_in, Some(BuiltIn::Exchange | BuiltIn::Delete))
}

// Whether the expression is a call of a built-in collective (`exchange` or `delete`).
#[tactic(auto, using(ti_lang::proofs::Lemmas::program_bridges))]
fn is_collective_call(program: &Program, this: Option<u32>, expr: &Expr) -> bool
    ensures { result ≡ is_collective_call (program_of program.now.parts) this (expression_of expr.now) }
{
    match expr {
        Expr::Member { receiver, name, .. } => {
            is_collective(member_called(&program.parts, this, receiver, *name))
        }
        _ => false,
    }
}

fn is_single_method(method: Option<&Method>) -> bool
    ensures { result ≡ option_map_or (λ (method : NumberedMethod). method.is_single) (option_map (λ method. numbered_method_of method.now) method.entry) false }
{
    match method {
        Some(method) => method.single,
        None => false,
    }
}

// Whether the expression performs a collective or calls a method declared single.
fn acts(program: &Program, this: Option<u32>, expr: &Expr) -> bool
    ensures { result ≡ acts (program_of program.now.parts) this (expression_of expr.now) }
{
    is_single_method(called_method(&program.parts, this, expr))
        || is_collective_call(program, this, expr)
}

// Whether the initializer performs a collective or calls a method declared single.
fn initial_acts(program: &Program, this: Option<u32>, value: &Init) -> bool
    ensures { result ≡ initial_acts (program_of program.now.parts) this (initial_of value.now) }
{
    match value {
        Init::Value(expr) => acts(program, this, expr),
        Init::NewRegion(_) => true,
        Init::NewObject { .. } => false,
        Init::NewGrid { .. } => false,
        Init::Broadcast { .. } => true,
    }
}

// ---- statements

/// The effect summary of all these statements. `this` is the class of `this` in their method, if there is one.
#[cycle(doings)]
pub fn stmts_effects(program: &Program, this: Option<u32>, stmts: &[Stmt]) -> Effects
    ensures { effects_of result ≡ doings_of_all (program_of program.now.parts) this (numbered_stms (map statement_of stmts.now)) }
{
    let mut found = Effects::none();
    for x in stmts {
        found = found.merge(stmt_effects(program, this, x));
    }
    found
}

/// The effect summary of a statement, with all statements in it. `this` is the class of `this` in its method, if there is one.
#[cycle(doings)]
#[tactic(auto, using(ti_lang::proofs::Lemmas::program_bridges))]
pub fn stmt_effects(program: &Program, this: Option<u32>, stmt: &Stmt) -> Effects
    ensures { effects_of result ≡ doings (program_of program.now.parts) this (statement_of stmt.now) }
{
    match stmt {
        Stmt::Declare { ty, value, .. } => {
            Effects::acting(ty.single || initial_acts(program, this, deref_init(value)))
        }
        Stmt::Assign { target, value, .. } => {
            Effects::acting(
                is_single_target(target) || initial_acts(program, this, deref_init(value)),
            )
        }
        Stmt::Update { target, value, .. } => {
            Effects::acting(is_single_target(target) || acts(program, this, value))
        }
        Stmt::Step { target, .. } => Effects::acting(is_single_target(target)),
        Stmt::Call(e) => Effects::acting(acts(program, this, e)),
        Stmt::Barrier(_) => Effects::acting(true),
        Stmt::Block(body) => stmts_effects(program, this, deref_stmts(body)),
        Stmt::If {
            then,
            otherwise,
            ..
        } => {
            let then = stmt_effects(program, this, deref_stmt(then));
            match otherwise {
                Some(otherwise) => then.merge(stmt_effects(program, this, deref_stmt(otherwise))),
                None => then,
            }
        }
        Stmt::While { body, .. } => stmt_effects(program, this, deref_stmt(body)).absorb_jumps(),
        Stmt::For {
            first,
            update,
            body,
            ..
        } => {
            let first = match first {
                Some(first) => stmt_effects(program, this, deref_stmt(first)),
                None => Effects::none(),
            };
            let update = match update {
                Some(update) => stmt_effects(program, this, deref_stmt(update)),
                None => Effects::none(),
            };
            let body = stmt_effects(program, this, deref_stmt(body));
            first.merge(update.merge(body).absorb_jumps())
        }
        Stmt::Foreach { body, .. } => stmt_effects(program, this, deref_stmt(body)).absorb_jumps(),
        Stmt::Break(_) => Effects::jumping(),
        Stmt::Continue(_) => Effects::jumping(),
        Stmt::Return(_, _) => Effects::returning(),
        Stmt::Empty => Effects::none(),
        Stmt::Print(_, _) => Effects::none(),
    }
}

// ---- methods

/// The class of `this` in a method; None if the method is static.
pub fn this_of(method: &Method) -> Option<u32>
    ensures { result ≡ this_of (numbered_method_of method.now) }
{
    if has_static(&method.modifiers) {
        None
    } else {
        Some(method.class)
    }
}

/// Whether a method's result is declared single.
pub fn has_single_result(method: &Method) -> bool
    ensures { result ≡ has_single_result (numbered_method_of method.now) }
{
    match &method.result {
        ResultType::Void => false,
        ResultType::Typed(ty) => ty.single,
    }
}

/// The effect summary of a method's body.
pub fn method_effects(program: &Program, method: &Method) -> Effects
    ensures { effects_of result ≡ doings_of_method (program_of program.now.parts) (numbered_method_of method.now) }
{
    stmts_effects(program, this_of(method), deref_stmts(&method.body))
}

/// Whether a `return` of the method counts as a global effect: the method has a single result, or its body has a global effect.
pub fn return_acts(program: &Program, method: &Method) -> bool
    ensures { result ≡ return_acts (program_of program.now.parts) (numbered_method_of method.now) }
{
    has_single_result(method) || method_effects(program, method).acts
}

/// Whether a jump out of a loop counts as a global effect. `effects` is the summary of the loop's body and update; `return_is_global` says
/// whether a `return` of the method counts as one.
pub fn jump_acts(return_is_global: bool, effects: Effects) -> bool
    ensures { result ≡ jump_acts return_is_global (effects_of effects) }
{
    effects.acts || effects.returns && return_is_global
}

/// Whether a statement with this summary has global effects. `return_is_global` and `jump_has` say whether a `return` and a jump count as
/// one.
pub fn has_global_effects(return_is_global: bool, jump_has: bool, effects: Effects) -> bool
    ensures { result ≡ has_global_effects return_is_global jump_has (effects_of effects) }
{
    jump_acts(return_is_global, effects) || effects.jumps && jump_has
}
