// Targets of assignments: their types, and what can't be assigned to.
ghost use Rattle.std.specs.Prelude.{◌≡◌, false};
ghost use Rattle.std.specs.Option.{option_map, option_map_or, option_and_then};
ghost use Rattle.ti_lang.specs.Program.Views.{program_of, expression_of};
ghost use Rattle.ti_lang.specs.Typing.Declared.{field_type};
ghost use Rattle.ti_lang.specs.Typing.Kinds.{is_point_type};
ghost use Rattle.ti_lang.specs.Typing.TyRef.{ty_view};
ghost use Rattle.ti_lang.specs.Typing.Expressions.{operand_type};
ghost use Rattle.ti_rules.specs.Mirrors.First.{earliest};
ghost use Rattle.ti_rules.specs.Broken.Expressions.{exp_refusals};
ghost use Rattle.ti_rules.specs.Broken.Targets.{is_foreach_variable, is_point_coordinate, maybe_local, hidden_field, hidden_element, is_hidden_local};
ghost use Rattle.ti_check.specs.Mirrors.Contexts.{program_at, scope_at};
ghost use Rattle.ti_check.specs.Mirrors.Targets.{IsReceiver, write_refusal};

use crate::context::CheckContext;
use ti_base::Place;
use ti_lang::program::{Declared, Expr, ProgramData};
use ti_lang::typing::{TyRef, field_type, named_field_type};
use ti_rules::{Refusal, Rule, earlier_of, refused_if};
use ti_types::TypeChecker;

/// The typing result of the target of an assignment.
#[derive(Clone, Copy)]
pub struct TargetTyping<'a> {
    /// Its type, if it has one.
    pub ty: Option<TyRef<'a>>,
    /// The first type error in it, apart from the rules on assignment.
    pub first: Option<Refusal>,
    /// The type of its receiver, if it is a field of an object or an element and the receiver has a type.
    pub receiver: Option<TyRef<'a>>,
}

/// Whether the target is a foreach variable.
#[tactic(auto, using(ti_lang::proofs::Lemmas::program_bridges))]
pub fn is_foreach_variable(target: &Expr) -> bool
    ensures { result ≡ is_foreach_variable (expression_of target.now) }
{
    match target {
        Expr::Variable(_, v) => match &v.declared {
            Declared::Typed { single: _, ty: _ } => false,
            Declared::Foreach => true,
        },
        _ => false,
    }
}

fn is_point(ty: Option<TyRef>) -> bool
    ensures { result ≡ option_map_or is_point_type (option_map ty_view ty.entry) false }
{
    matches!(ty, Some(TyRef::Pt(_)))
}

fn is_local(ty: Option<TyRef>) -> bool
    ensures { result ≡ maybe_local (option_map ty_view ty.entry) }
{
    match ty {
        Some(ty) => ty.is_local(),
        None => false,
    }
}

// Whether a field of `this` has a local type; `this` is a global reference.
fn is_own_local(program: &ProgramData, this: Option<u32>, field: u32) -> bool
    ensures { result ≡ maybe_local (option_and_then (λ c. field_type (program_of program.now) c field) this) }
{
    match this {
        Some(class) => is_local(field_type(program, class, field)),
        None => false,
    }
}

// Whether the field of an object has a local type and the object is reached through a global reference.
fn hidden_field(program: &ProgramData, ty: Option<TyRef>, name: u32) -> bool
    ensures { result ≡ hidden_field (program_of program.now) (option_map ty_view ty.entry) name }
{
    match ty {
        Some(TyRef::Class { class, local }) => {
            is_local(named_field_type(program, class, name)) && !local
        }
        _ => false,
    }
}

// Whether a grid's elements have a local type and the grid is reached through a global reference.
fn hidden_element(ty: Option<TyRef>) -> bool
    ensures { result ≡ hidden_element (option_map ty_view ty.entry) }
{
    match ty {
        Some(
            TyRef::Grid {
                elem,
                any_dim,
                dim: _,
                local,
            },
        ) => TyRef::of(elem, any_dim).is_local() && !local,
        _ => false,
    }
}

impl<'a> CheckContext<'a> {
    /// The typing result of an expression as the target of an assignment.
    pub fn target(self, expr: &'a Expr) -> TargetTyping<'a>
        ensures ty { option_map ty_view result.ty
            ≡ operand_type (program_at self.entry) (scope_at self.entry) (expression_of expr.now) }
        ensures first { result.first
            ≡ earliest (exp_refusals (program_at self.entry) (scope_at self.entry)
            (expression_of expr.now)) }
        ensures receiver { IsReceiver self.entry expr.now result.receiver }
    {
        let judge = TypeChecker {
            program: &self.program.parts,
        };
        let judged = judge.target(self.scope, expr);
        TargetTyping {
            ty: judged.whole.operand(),
            first: judged.whole.first,
            receiver: judged.receiver,
        }
    }

    /// Whether the target is a coordinate of a point.
    #[tactic(auto, using(ti_lang::proofs::Lemmas::program_bridges))]
    pub fn is_coordinate(self, target: &'a Expr, receiver: Option<TyRef<'a>>) -> bool
        requires { IsReceiver self target.now receiver }
        ensures { result ≡ is_point_coordinate (program_at self.entry) (scope_at self.entry) (expression_of target.now) }
    {
        match target {
            Expr::Index { .. } => is_point(receiver),
            _ => false,
        }
    }

    // Whether the target is a field or an element of a local type that is reached through a global reference.
    #[tactic(auto, using(ti_lang::proofs::Lemmas::program_bridges))]
    fn is_hidden_local(self, target: &'a Expr, receiver: Option<TyRef<'a>>) -> bool
        requires { IsReceiver self target.now receiver }
        ensures { result ≡ is_hidden_local (program_at self.entry) (scope_at self.entry) (expression_of target.now) }
    {
        match target {
            Expr::OwnField(_, field) => is_own_local(&self.program.parts, self.this(), *field),
            Expr::Select { name, .. } => hidden_field(&self.program.parts, receiver, *name),
            Expr::Index { .. } => hidden_element(receiver),
            _ => false,
        }
    }

    /// The first error of an assignment to a target whose receiver has this type; `value` is the first error of the value. A coordinate
    /// of a point can't be assigned to (Y1), a foreach variable neither (Y2), nor a local field or element through a global reference (Q2).
    #[tactic(auto, using(ti_rules::proofs::Lemmas::firsts))]
    pub fn write(
        self,
        place: Place,
        target: &'a Expr,
        receiver: Option<TyRef<'a>>,
        value: Option<Refusal>,
    ) -> Option<Refusal>
        requires { IsReceiver self target.now receiver }
        ensures { result ≡ write_refusal (program_at self.entry) (scope_at self.entry) place (expression_of target.now) value }
    {
        if self.is_coordinate(target, receiver) {
            return refused_if(true, Rule::Y1, place);
        }
        let of_foreach = refused_if(is_foreach_variable(target), Rule::Y2, place);
        let hidden = refused_if(self.is_hidden_local(target, receiver), Rule::Q2, place);
        earlier_of(earlier_of(of_foreach, hidden), value)
    }
}
