// Resolves the name of a field.

ghost use Rattle.std.specs.Prelude.{◌≡◌, IfOk};
ghost use Rattle.ti_lang.specs.Program.Views.{expression_of};
ghost use Rattle.ti_lang.specs.Meaning.Scoping.{field_selected as selected_spec};
ghost use Rattle.ti_eval.specs.Envs.{env_of};

use crate::env::{Env, type_of};
use ti_base::Memory;
use ti_lang::program::Expr;
use ti_lang::typing::field_number;

/// The number of the field that `e.f` denotes, given the number of its name; 0 if there is no such field. Out of memory if the number
/// doesn't fit into 32 bits.
pub fn field_selected(env: &Env, expr: &Expr, name: u32) -> Result<u32, Memory>
    ensures { IfOk result (λ n. n ≡ selected_spec (env_of env.now) (expression_of expr.now) name) }
{
    match field_number(env.program, type_of(env, expr), name) {
        Some(n) => match u32::try_from(n) {
            Ok(n) => Ok(n),
            Err(_) => Err(Memory),
        },
        None => Ok(0),
    }
}
