// The code of an expression, as other crates generate it, and the theorem that it is correct.

ghost use Rattle.std.specs.Prelude.{◌≡◌, ◌++◌, ℕ, List, OnOk, OnErr, IfOk, length, map};
ghost use Rattle.ti_lang.specs.Program.Expressions.{NumberedExp, rect};
ghost use Rattle.ti_lang.specs.Program.Scope.{this_of};
ghost use Rattle.ti_lang.specs.Program.Views.{program_of, expression_of, bound_of};
ghost use Rattle.ti_lang.specs.Typing.TextTypes.{syntactic_type};
ghost use Rattle.ti_lang.specs.Typing.TyRef.{ty_view};
ghost use Rattle.ti_lang.specs.Meaning.Evaluation.{eval};
ghost use Rattle.ti_lang.specs.Meaning.Held.{Held};
ghost use Rattle.ti_lang.specs.Meaning.Scoping.{Env};
ghost use Rattle.ti_code.specs.declared.instr.Instr.{Instr as OneInstr};
ghost use Rattle.ti_code.specs.Leading.{CodeAt, pc_after};
ghost use Rattle.ti_lower_expr.specs.Coding.{code_of};
ghost use Rattle.ti_lower_expr.specs.Knowing.{known_of};
ghost use Rattle.ti_lower_expr.specs.Doing.{Implements, Pushes, who_in};
ghost use Rattle.ti_lower_expr.specs.Slots.{Name, SlotsHold};
ghost use Rattle.ti_lower_expr.specs.Contents.{names_in, BeginsWith};

use crate::context::{LoweringContext, StaticValue};
use crate::walker::{walk, walk_rect};
use ti_base::{Memory, Place};
use ti_code::Instr;
use ti_lang::program::{Expr, Range};

/// Appends the code of an expression to that of its method, and returns what is statically known
/// of its value. After out of memory, `out` is its old value followed by some instructions or none.
pub fn lower_value<'context, 'a>(
    site: &LoweringContext<'context, 'a>,
    expr: &'a Expr,
    out: &mut Vec<Instr>,
) -> Result<StaticValue<'a>, Memory>
    ensures code { OnOk result (out.new.items ≡ out.old.items
        ++ code_of (program_of site.now.program.now) site.now.this (names_in site.now.slots.now)
        (expression_of expr.now) (length out.old.items)) }
    ensures ty { IfOk result (λ t. ty_view t.ty
        ≡ syntactic_type (program_of site.now.program.now) site.now.this (expression_of expr.now)) }
    ensures known { IfOk result (λ t. t.known
        ≡ known_of (program_of site.now.program.now) site.now.this (expression_of expr.now)) }
    ensures err { OnErr result (BeginsWith out.new.items out.old.items) }
{
    walk(site, expr, out)
}

/// Appends the code of an expression to that of its method. After out of memory, `out` is its old value followed by some instructions or
/// none.
pub fn lower_expr(site: &LoweringContext, expr: &Expr, out: &mut Vec<Instr>) -> Result<(), Memory>
    ensures code { OnOk result (out.new.items ≡ out.old.items ++ code_of (program_of site.now.program.now) site.now.this
        (names_in site.now.slots.now) (expression_of expr.now) (length out.old.items)) }
    ensures err { OnErr result (BeginsWith out.new.items out.old.items) }
{
    lower_value(site, expr, out)?;
    Ok(())
}

/// Appends the code of the rectangular domain of these ranges; `place` is that of their `[`. After out of memory, `out` is its old value
/// followed by some instructions or none.
pub fn lower_rect(
    site: &LoweringContext,
    place: Place,
    ranges: &[Range],
    out: &mut Vec<Instr>,
) -> Result<(), Memory>
    ensures code { OnOk result (out.new.items ≡ out.old.items ++ code_of (program_of site.now.program.now) site.now.this
        (names_in site.now.slots.now) (rect place (map bound_of ranges.now)) (length out.old.items)) }
    ensures err { OnErr result (BeginsWith out.new.items out.old.items) }
{
    walk_rect(site, place, ranges, out)
}

/// The code of an expression is correct wherever it occurs. If it is entered while the slots hold `this`, the variables in scope and the
/// points of the current iterations, it requests the same actions and has the same faults as the semantics, in the same order and at the
/// same places. Without a fault it pushes the value, leaves the slots unchanged, and ends after its last instruction.
pub fn expressions_are_done()
    ensures { (c : List OneInstr) (env : Env) (names : List Name) (slots : List Held) → SlotsHold env.this names env.variables env.turns slots
        → (x : NumberedExp) (at : ℕ) (stack : List Held) → CodeAt c at (code_of env.program (this_of env.method) names x at)
        → Implements (who_in env) c (record { at = at; slots = slots; stack = stack }) (eval env x)
        (Pushes slots (pc_after at (code_of env.program (this_of env.method) names x at)) stack) }
{}
