// What is statically known of an expression in a method: its type, and what it calls.
ghost use Rattle.std.specs.Prelude.{◌≡◌};
ghost use Rattle.std.specs.Option.{option_map};
ghost use Rattle.ti_lang.specs.Program.Scope.{this_of};
ghost use Rattle.ti_lang.specs.Program.Views.{expression_of, numbered_method_of};
ghost use Rattle.ti_lang.specs.Typing.TextTypes.{syntactic_type};
ghost use Rattle.ti_lang.specs.Typing.Called.{called_method, member_called};
ghost use Rattle.ti_lang.specs.Typing.TyRef.{ty_view, built_in_of};
ghost use Rattle.ti_infer.specs.Mirrors.Sites.{program_at, method_of_site};

use crate::constraints::site::MethodSite;
use ti_lang::program::{Expr, Method};
use ti_lang::typing::{BuiltIn, TyRef, called_method, member_called, syntactic_type};
use ti_single::this_of;

/// The static type of an expression.
pub fn static_type<'a>(site: MethodSite<'a>, expr: &'a Expr) -> TyRef<'a>
    ensures { ty_view result ≡ syntactic_type (program_at site.entry) (this_of (method_of_site site.entry)) (expression_of expr.now) }
{
    syntactic_type(&site.program.parts, this_of(site.method), expr)
}

/// The declared method that the expression calls; `None` if it isn't a call of one.
pub fn callee<'a>(site: MethodSite<'a>, expr: &'a Expr) -> Option<&'a Method>
    ensures { option_map (λ m. numbered_method_of m.now) result ≡ called_method (program_at site.entry) (this_of (method_of_site site.entry))
        (expression_of expr.now) }
{
    called_method(&site.program.parts, this_of(site.method), expr)
}

/// The built-in member that a name means after this receiver; `None` if it means none.
pub fn built_in(site: MethodSite, receiver: &Expr, name: u32) -> Option<BuiltIn>
    ensures { option_map built_in_of result ≡ member_called (program_at site.entry) (this_of (method_of_site site.entry))
        (expression_of receiver.now) name }
{
    member_called(&site.program.parts, this_of(site.method), receiver, name)
}
