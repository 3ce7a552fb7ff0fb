// Global effects of statements, given only a scope.
ghost use Rattle.std.specs.Prelude.{◌≡◌};
ghost use Rattle.ti_lang.specs.Program.Scope.{whereabouts_of};
ghost use Rattle.ti_lang.specs.Program.Views.{program_of, statement_of, numbered_method_of};
ghost use Rattle.ti_single.specs.EffectsAt.{jump_acts_at, has_effects_at};

use crate::deref::deref_stmts;
use crate::loops::{effects_in_loop, loop_in_all};
use crate::statements::{has_global_effects, jump_acts, return_acts, stmt_effects, this_of};
use ti_base::Place;
use ti_lang::program::{Method, Program, Scope, Stmt};
use ti_lang::typing::method;

// Whether a jump out of the loop at this position of a method counts as a global effect.
#[tactic(auto, using(crate::proofs::FirstLoop::loops_found))]
fn jump_acts_at(program: &Program, method: &Method, loop_place: Option<Place>) -> bool
    ensures { result ≡ jump_acts_at (program_of program.now.parts) (numbered_method_of method.now) loop_place }
{
    match loop_place {
        Some(loop_place) => match loop_in_all(loop_place, deref_stmts(&method.body)) {
            Some(x) => jump_acts(
                return_acts(program, method),
                effects_in_loop(program, method, x),
            ),
            None => false,
        },
        None => false,
    }
}

/// Whether a statement has global effects in this scope, so that all processes must execute it together.
///
/// It has if it declares or assigns a single variable, performs a collective, or calls a method declared single. A `return` has an
/// effect if the scope's method has a single result or contains one of these. A `break` or `continue` that leaves the statement has
/// an effect if the body or update of the scope's innermost loop contains one of these, or a `return` with an effect; a position that
/// isn't that of a loop's keyword in the method is taken as no loop. A statement has the effects of the statements in it.
pub fn has_effects(program: &Program, scope: &Scope, stmt: &Stmt) -> bool
    ensures { result ≡ has_effects_at (program_of program.now.parts) (whereabouts_of scope.now) (statement_of stmt.now) }
{
    match method(&program.parts, scope.method) {
        Some(m) => {
            let returns = return_acts(program, m);
            let jumps = jump_acts_at(program, m, scope.innermost_loop);
            has_global_effects(returns, jumps, stmt_effects(program, this_of(m), stmt))
        }
        None => false,
    }
}
