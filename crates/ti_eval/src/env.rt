// The environment of an expression, and what it says of names: variables, types and members.

ghost use Rattle.std.specs.Prelude.{◌≡◌, IfOk, IfSome, Some, None, reverse, option_map};
ghost use Rattle.std.specs.Option.{option_map_or};
ghost use Rattle.ti_base.specs.declared.point.Point.{Point as At};
ghost use Rattle.ti_base.specs.declared.value.Value.TheVariants.{Pt};
ghost use Rattle.ti_base.specs.Points.{IsPoint};
ghost use Rattle.ti_lang.specs.Program.Scope.{this_of};
ghost use Rattle.ti_lang.specs.Program.Views.{program_of, expression_of, variable_of};
ghost use Rattle.ti_lang.specs.Program.Statements.{NumberedStms};
ghost use Rattle.ti_lang.specs.Meaning.Held.{no_value, Plain};
ghost use Rattle.ti_lang.specs.Meaning.Scoping.{value_by, type_of as type_of_spec};
ghost use Rattle.ti_lang.specs.Typing.TyRef.{ty_view, built_in_of};
ghost use Rattle.ti_lang.specs.Typing.Called.{member_called as member_called_spec};
ghost use Rattle.ti_lang.specs.Meaning.Turns.{turns_at, point_at};
ghost use Rattle.ti_eval.specs.Envs.{env_of};
ghost use Rattle.ti_eval.specs.Frames.{MethodContext, method_seen, rest_of};

use crate::frame::{Resume, Slot, StmtFrame};
use crate::rank::Rank;
use crate::var_value::VarValue;
use crate::variables::find;
use std::alloc::Global;
use ti_base::{Id, Memory, Point, Value};
use ti_lang::program::{Declared, Expr, Method, ProgramData, Variable, has_static};
use ti_lang::typing::{BuiltIn, TyRef, member_called, syntactic_type};

/// The environment of an expression: the process, the method and the object of its call, the variables in scope, and the position in the
/// method.
#[derive(Clone, Copy)]
pub struct Env<'a> {
    pub rank: Rank,
    pub program: &'a ProgramData,
    /// `None` is a placeholder for a method without modifiers.
    pub method: Option<&'a Method>,
    pub this: Option<Id>,
    /// The variables in scope, the oldest first.
    pub variables: &'a [Slot],
    /// The statements entered, the outermost first.
    pub levels: &'a [StmtFrame],
}

/// The class of `this` in a method, if it has a `this`.
pub fn class_of_this(method: Option<&Method>) -> Option<u32>
    ensures { result ≡ this_of (method_seen method.entry) }
{
    match method {
        Some(m) => if has_static(&m.modifiers) {
            None
        } else {
            Some(m.class)
        },
        None => Some(0),
    }
}

/// The static type of an expression.
pub fn type_of<'a>(env: &Env<'a>, expr: &'a Expr) -> TyRef<'a>
    ensures { ty_view result ≡ type_of_spec (env_of env.now) (expression_of expr.now) }
{
    syntactic_type(env.program, class_of_this(env.method), expr)
}

/// The built-in member that a name denotes after an expression.
pub fn called_member(env: &Env, receiver: &Expr, name: u32) -> Option<BuiltIn>
    ensures { option_map built_in_of result ≡ member_called_spec (program_of env.now.program.now) (this_of (method_seen env.now.method))
        (expression_of receiver.now) name }
{
    member_called(env.program, class_of_this(env.method), receiver, name)
}

/// The point of the innermost foreach with this variable.
pub fn point_of_turn(levels: &[StmtFrame], number: u32) -> Option<Point>
    ensures value { (site : MethodContext) (body : NumberedStms) → option_map_or (λ (p : At). Plain (Pt p)) result no_value
        ≡ point_at number (turns_at (rest_of site body (reverse levels.now))) }
    ensures form { IfSome result IsPoint }
{
    let mut n = levels.len();
    while n > 1 {
        n -= 1;
        let level = &levels[n];
        if let Resume::Turn { variable, at, .. } = &level.resume {
            if *variable == number {
                return Some(at.point);
            }
        }
    }
    None
}

/// The value of a variable.
pub fn variable(alloc: Global, env: &Env, variable: &Variable) -> Result<VarValue, Memory>
    ensures { IfOk result (λ h. h ≡ value_by (variable_of variable.now).declared (env_of env.now) (variable_of variable.now)) }
{
    match &variable.declared {
        Declared::Typed { single: _, ty: _ } => find(alloc, variable, env.variables),
        Declared::Foreach => match point_of_turn(env.levels, variable.number) {
            Some(p) => Ok(VarValue::plain(Value::Pt(p))),
            None => Ok(VarValue::plain(Value::Bool(false))),
        },
    }
}
