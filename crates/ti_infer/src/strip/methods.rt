// Removes `single` from methods, except from the modifiers of `main`.
ghost use Rattle.std.specs.Prelude.{◌≡◌, map};
ghost use Rattle.ti_lang.specs.Program.Views.{numbered_param_of, numbered_params_of, numbered_result_of, numbered_method_of};
ghost use Rattle.ti_infer.specs.Stripped.{plain_type, plain_params, plain_result, plain_method, plain_methods};

use crate::strip::lists::{Stripped, strip_each};
use crate::strip::stmts::strip_statements;
use crate::strip::types::{strip_modifiers, strip_type};
use ti_lang::program::{Method, Param, Params, ResultType};

impl Stripped for Param {
    ghost plain = { λ a b. numbered_param_of b ≡ record (numbered_param_of a) { ty = plain_type (numbered_param_of a).ty } };

    fn strip(&mut self) {
        strip_type(&mut self.ty);
    }
}

#[tactic(auto, using(crate::proofs::PlainParts::plain_lists))]
fn strip_params(params: &mut Params)
    ensures { numbered_params_of params.new ≡ plain_params (numbered_params_of params.old) }
{
    if let Params::Typed(params) = params {
        strip_each(params);
    }
}

fn strip_result(ty: &mut ResultType)
    ensures { numbered_result_of ty.new ≡ plain_result (numbered_result_of ty.old) }
{
    if let ResultType::Typed(ty) = ty {
        strip_type(ty);
    }
}

// Removes `single` from a method; `main` keeps its modifiers.
fn strip_method(is_main: bool, method: &mut Method)
    ensures { numbered_method_of method.new ≡ plain_method is_main (numbered_method_of method.old) }
{
    if !is_main {
        strip_modifiers(&mut method.modifiers);
        method.single = false;
    }
    strip_result(&mut method.result);
    strip_params(&mut method.params);
    strip_statements(&mut method.body);
}

/// Removes `single` from these methods. Method number `main` keeps its modifiers; its result, parameters and body don't keep theirs.
pub fn strip_methods(main: u32, methods: &mut Vec<Method>)
    ensures { map numbered_method_of methods.new.items ≡ plain_methods main 0 (map numbered_method_of methods.old.items) }
{
    for i in 0..methods.len() {
        strip_method(i == main as usize, &mut methods[i]);
    }
}
