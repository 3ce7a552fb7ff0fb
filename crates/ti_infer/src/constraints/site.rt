// The context in which constraints of a statement are generated.
ghost use Rattle.std.specs.Prelude.{◌≡◌, ℕ};
ghost use Rattle.ti_lang.specs.Program.Scope.{this_of};
ghost use Rattle.ti_lang.specs.Program.Views.{numbered_method_of};
ghost use Rattle.ti_infer.specs.Marks.{variable_place};
ghost use Rattle.ti_infer.specs.Mirrors.Places.{listed_place};

use ti_base::Place;
use ti_blame::{Conclusion, Mark};
use ti_lang::program::{Method, Program, Scope};

/// A method of a program. `places` has the places of the declarations of its variables, by their numbers.
#[derive(Clone, Copy)]
pub struct MethodSite<'a> {
    pub program: &'a Program,
    pub method: &'a Method,
    pub places: &'a [Option<Place>],
    ghost placed: { (number : ℕ) → listed_place places.now number ≡ variable_place (numbered_method_of method.now) number },
}

/// A variable and the annotations that make it single (`dependencies`): all of them have to be in the marking. `None` among them means that it
/// can't be single.
#[derive(Drop)]
pub struct VariableDeps {
    pub number: u32,
    pub dependencies: Vec<Option<Mark>>,
}

/// The context of a statement. `whole` are the reasons of its method's effects, which a `return` has; `scope` are the variables in scope
/// whose uses don't state their types; `inside` says which annotations make parameters and the variables of enclosing foreach loops
/// single.
#[derive(Clone, Copy)]
pub struct StmtSite<'a> {
    pub site: MethodSite<'a>,
    pub whole: Conclusion,
    pub scope: &'a Scope,
    pub inside: &'a [VariableDeps],
    ghost of_method: { scope.now.this ≡ this_of (numbered_method_of site.method.now) },
}
