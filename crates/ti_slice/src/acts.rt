// Whether the work at hand has global effects. The program slice skips work that has none.

ghost use Rattle.std.specs.Prelude.{◌≡◌, ◌<◌, ℕ, true, false, List, ◌∷◌, ◌++◌, Some, length, reverse, unwrap_or};
ghost use Rattle.ti_base.specs.declared.point.Point.{Point};
ghost use Rattle.ti_lang.specs.Program.Statements.{numbered_stms};
ghost use Rattle.ti_lang.specs.Program.Views.{program_of, expression_of, statement_of, numbered_method_of};
ghost use Rattle.ti_lang.specs.Typing.Effects.{jump_acts as jump_acts_spec, return_acts as return_acts_spec};
ghost use Rattle.ti_lang.specs.Meaning.Processes.{ContItem, Do};
ghost use Rattle.ti_single.specs.Effects.{effects_of};
ghost use Rattle.ti_align.specs.Slice.{is_single_named as is_single_named_spec, is_single_receiver, loop_effects, jump_at, work_acts as work_acts_spec};
ghost use Rattle.ti_eval.specs.declared.frame.ChildIndex.TheVariants.{Body};
ghost use Rattle.ti_eval.specs.Frames.{MethodContext, work_of, rest_of, loop_of, foreach_of};
ghost use Rattle.ti_eval.specs.Places.{child_of};
ghost use Rattle.ti_moves.specs.Outcomes.{method_at};
ghost use Rattle.ti_moves.specs.Receiving.{stm_seen, receiver_of};
ghost use Rattle.ti_exec.specs.Marks.{is_mark as is_mark_spec};
ghost use Rattle.ti_exec.specs.States.{IsAtHand, innermost_stmt, left_in};
ghost use Rattle.ti_slice.specs.Mirrors.FirstWork.{first_acts};

use ti_eval::{Resume, StmtFrame};
use ti_exec::{CallFrame, after_loop, is_mark};
use ti_lang::program::{Declared, Expr, Method, Program, Stmt};
use ti_moves::{method, statement_at};
use ti_rules::Checked;
use ti_single::{Effects, deref_stmt, effects_in_loop, return_acts, stmt_effects, this_of};

// ---- loops

// Whether a loop has effects, given those of its body and update.
fn acts_in_loop(program: &Program, method: &Method, effects: Effects) -> bool
    ensures { result ≡ jump_acts_spec (return_acts_spec (program_of program.now.parts) (numbered_method_of method.now)) (effects_of effects) }
{
    effects.acts || effects.returns && return_acts(program, method)
}

// Whether a `while` or a `for` has effects.
fn while_acts(program: &Program, method: &Method, stmt: &Stmt) -> bool
    ensures { result ≡ loop_effects (program_of program.now.parts) (numbered_method_of method.now) (loop_of (statement_of stmt.now)) }
{
    acts_in_loop(program, method, effects_in_loop(program, method, stmt))
}

// The body of a loop.
fn body_of(stmt: &Stmt) -> Option<&Stmt>
    ensures { stm_seen result ≡ child_of (statement_of stmt.now) Body }
{
    match stmt {
        Stmt::While { body, .. } => Some(deref_stmt(body)),
        Stmt::For { body, .. } => Some(deref_stmt(body)),
        Stmt::Foreach { body, .. } => Some(deref_stmt(body)),
        _ => None,
    }
}

// Whether a `foreach` has effects.
fn foreach_acts(program: &Program, method: &Method, stmt: &Stmt) -> bool
    ensures { (variable : ℕ) (points : List Point) → result ≡ loop_effects (program_of program.now.parts) (numbered_method_of method.now)
        (foreach_of (statement_of stmt.now) variable points) }
{
    match body_of(stmt) {
        Some(body) => acts_in_loop(
            program,
            method,
            stmt_effects(program, this_of(method), body),
        ),
        None => false,
    }
}

// ---- jumps

// Whether a jump has an effect that leads to the mark with which this pending work begins: whether the loop has effects.
fn mark_acts(program: &Program, method: &Method, stmt: Option<&Stmt>, todo: &Resume) -> bool
    requires { is_mark_spec todo.now ≡ true }
    ensures { (site : MethodContext) (ws : List ContItem) → jump_at (program_of program.now.parts) (numbered_method_of method.now)
        (work_of site (stm_seen stmt.entry) todo.now ++ ws) ≡ Some result }
{
    match stmt {
        Some(stmt) => match todo {
            Resume::Behind => while_acts(program, method, stmt),
            Resume::Turn { .. } => foreach_acts(program, method, stmt),
            _ => unreachable!(),
        },
        None => false,
    }
}

// Whether a jump out of the innermost statement to the innermost mark has an effect.
fn jump_acts(program: &Program, method: &Method, levels: &[StmtFrame]) -> bool
    ensures { (site : MethodContext) → result ≡ unwrap_or (jump_at (program_of program.now.parts) (numbered_method_of method.now)
        (rest_of site (numbered_stms (numbered_method_of method.now).body) (reverse levels.now))) false }
{
    let mut n = levels.len();
    while n > 1 {
        n -= 1;
        let resume = &levels[n].resume;
        if is_mark(resume) {
            return mark_acts(
                program,
                method,
                statement_at(&method.body, &levels[..n]),
                resume,
            );
        }
    }
    false
}

// ---- work

// Whether a statement inside these levels has global effects.
fn statement_acts(program: &Program, method: &Method, levels: &[StmtFrame], stmt: &Stmt) -> bool
    ensures { (site : MethodContext) → result ≡ work_acts_spec (program_of program.now.parts) (numbered_method_of method.now)
        (rest_of site (numbered_stms (numbered_method_of method.now).body) (reverse levels.now)) (Do (statement_of stmt.now)) }
{
    let d = stmt_effects(program, this_of(method), stmt);
    acts_in_loop(program, method, d) || d.jumps && jump_acts(program, method, levels)
}

// Whether the work at hand has global effects, given the pending work of a statement inside these levels.
fn acts_at(
    program: &Program,
    method: &Method,
    levels: &[StmtFrame],
    stmt: &Stmt,
    todo: &Resume,
) -> bool
    requires inner { 0 < length levels.now }
    requires at_hand { IsAtHand (statement_of stmt.now) (length levels.now) todo.now }
    ensures { (site : MethodContext) → result ≡ first_acts (program_of program.now.parts) (numbered_method_of method.now)
        (work_of site (statement_of stmt.now) todo.now ++ rest_of site (numbered_stms (numbered_method_of method.now).body) (reverse levels.now)) }
{
    match todo {
        Resume::Here => statement_acts(program, method, levels, stmt),
        Resume::Inside => unreachable!(),
        Resume::From(_) => statement_acts(program, method, levels, stmt),
        Resume::Ending => statement_acts(program, method, levels, stmt),
        Resume::Before => while_acts(program, method, stmt),
        Resume::Behind => while_acts(program, method, stmt),
        Resume::Each { .. } => foreach_acts(program, method, stmt),
        Resume::Turn { .. } => foreach_acts(program, method, stmt),
        Resume::Copying { .. } => false,
        Resume::Taking { .. } => false,
    }
}

/// Whether the work at hand, the first piece of the pending work of a call, has global effects.
pub(crate) fn work_acts(checked: &Checked, call: &CallFrame, resume: &Resume) -> bool
    requires inner { 0 < length call.now.levels.items }
    requires at_hand { IsAtHand (innermost_stmt (program_of checked.now.program.parts) call.now) (length call.now.levels.items) resume.now }
    ensures { (procs : ℕ) (w : ContItem) (ws : List ContItem) → left_in (program_of checked.now.program.parts) procs call.now resume.now ≡ w ∷ ws → result
        ≡ work_acts_spec (program_of checked.now.program.parts) (method_at (program_of checked.now.program.parts) call.now.method) ws w }
{
    match method(&checked.program.parts, call.method) {
        Some(m) => match call.current_stmt(&checked.program.parts) {
            Some(x) => acts_at(&checked.program, m, &call.levels, x, resume),
            None => false,
        },
        None => false,
    }
}

/// The pending work of a statement after its first piece, which is at hand.
pub(crate) fn work_after_first(stmt: Option<&Stmt>, resume: &Resume) -> Resume
    ensures { (site : MethodContext) (levels : ℕ) → 0 < levels → IsAtHand (stm_seen stmt.entry) levels resume.now → (w : ContItem)
        × (work_of site (stm_seen stmt.entry) resume.now ≡ w ∷ work_of site (stm_seen stmt.entry) result) }
{
    match resume {
        Resume::Before => after_loop(stmt),
        Resume::Behind => after_loop(stmt),
        _ => Resume::Inside,
    }
}

// ---- values on their way

// Whether the expression is a variable that is declared single.
fn is_single_named(expr: &Expr) -> bool
    ensures { result ≡ is_single_named_spec (expression_of expr.now) }
{
    match expr {
        Expr::Variable(_, v) => match &v.declared {
            Declared::Typed { single, ty: _ } => *single,
            Declared::Foreach => false,
        },
        _ => false,
    }
}

// Whether the value of a statement's right side goes into a single variable.
fn gives_single(stmt: &Stmt) -> bool
    ensures { result ≡ is_single_receiver (receiver_of (statement_of stmt.now)) }
{
    match stmt {
        Stmt::Declare { ty, .. } => ty.single,
        Stmt::Assign { target, .. } => is_single_named(target),
        Stmt::Update { target, .. } => is_single_named(target),
        Stmt::Step { target, .. } => is_single_named(target),
        _ => false,
    }
}

/// Whether a value on its way in a call goes into a single variable.
pub(crate) fn receives_single(checked: &Checked, call: &CallFrame) -> bool
    ensures { result ≡ is_single_receiver (receiver_of (innermost_stmt (program_of checked.now.program.parts) call.now)) }
{
    if call.levels.is_empty() {
        return false;
    }
    match call.current_stmt(&checked.program.parts) {
        Some(x) => gives_single(x),
        None => false,
    }
}
