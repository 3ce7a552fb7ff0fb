// Typing of a statement's expressions, and the connection to the rules of single values.
ghost use Rattle.std.specs.Prelude.{◌≡◌, ◌++◌, map, flat_map, not};
ghost use Rattle.std.specs.Option.{option_map};
ghost use Rattle.ti_lang.specs.Members.{only_if};
ghost use Rattle.ti_lang.specs.Program.Expressions.{numbered_ranges};
ghost use Rattle.ti_lang.specs.Program.Scope.{this_of};
ghost use Rattle.ti_lang.specs.Program.Views.{expression_of, bound_of, statement_of};
ghost use Rattle.ti_lang.specs.Typing.Effects.{doings};
ghost use Rattle.ti_lang.specs.Typing.Expressions.{bounds, range_count, operand_type};
ghost use Rattle.ti_lang.specs.Typing.Kinds.{is_void};
ghost use Rattle.ti_lang.specs.Typing.TyRef.{ty_view};
ghost use Rattle.ti_lang.specs.Typing.Singleness.{is_single_part};
ghost use Rattle.ti_rules.specs.Mirrors.First.{earliest};
ghost use Rattle.ti_rules.specs.InitialTypes.{right_side_type};
ghost use Rattle.ti_rules.specs.StmtInContext.{singles_in};
ghost use Rattle.ti_rules.specs.Parts.{parts_of_ranges};
ghost use Rattle.ti_rules.specs.Broken.Expressions.{refusals_at};
ghost use Rattle.ti_rules.specs.Broken.Misplaced.{gives_nothing, bounds_misplaced};
ghost use Rattle.ti_rules.specs.Broken.RightSides.{inner_refusals, value_refusals};
ghost use Rattle.ti_rules.specs.SingleRules.{single_refusals_at};
ghost use Rattle.ti_single.specs.Effects.{effects_of};
ghost use Rattle.ti_single.specs.EffectsAt.{effects_in_loop};
ghost use Rattle.ti_single.specs.Contexts as single;
ghost use Rattle.ti_types.specs.Results.{IsTypedExpr, literal, literal_of};
ghost use Rattle.ti_check.specs.Mirrors.Contexts.{program_at, jump_in, around_where, around_of, scope_at};

use crate::context::CheckContext;
use ti_lang::program::{Expr, Range, Stmt};
use ti_lang::typing::TyRef;
use ti_rules::{Refusal, Rule, earlier_of, refused_if};
use ti_single::{Effects, SingleContext};
use ti_types::{Ranges, TypeChecker, TypedExpr};

/// The typing result of an expression in a statement: its type, if it has one, and its first type error.
#[derive(Clone, Copy)]
pub struct TypedValue<'a> {
    pub ty: Option<TyRef<'a>>,
    pub first: Option<Refusal>,
}

/// Whether the type is that of an expression without a value.
fn gives_nothing(ty: Option<TyRef>) -> bool
    ensures { result ≡ gives_nothing (option_map ty_view ty.entry) }
{
    match ty {
        Some(ty) => ty.is_void(),
        None => false,
    }
}

/// The type, unless it is that of an expression without a value.
fn nonvoid_type<'a>(ty: Option<TyRef<'a>>) -> Option<TyRef<'a>>
    ensures { option_map ty_view result ≡ only_if (λ u. not (is_void u)) (option_map ty_view ty.entry) }
{
    match ty {
        Some(ty) => if ty.is_void() { None } else { Some(ty) },
        None => None,
    }
}

// Whether a jump out of the innermost enclosing loop counts as a global effect; None if there is no loop.
fn jump_in(is_in_loop: bool, jump_has: bool) -> Option<bool>
    ensures { result ≡ jump_in is_in_loop jump_has }
{
    if is_in_loop { Some(jump_has) } else { None }
}

impl<'a> CheckContext<'a> {
    /// The typing result of an expression.
    pub fn exp(self, expr: &'a Expr) -> TypedExpr<'a>
        ensures { IsTypedExpr (program_at self.entry) (scope_at self.entry) (expression_of expr.now) result }
    {
        let judge = TypeChecker {
            program: &self.program.parts,
        };
        judge.exp(self.scope, expr)
    }

    /// The typing result of ranges as in a domain literal.
    pub fn literal(self, ranges: &'a [Range]) -> Ranges<'a>
        ensures first { result.first ≡ earliest (flat_map (refusals_at (program_at self.entry) (scope_at self.entry))
            (parts_of_ranges (numbered_ranges (map bound_of ranges.now)))
            ++ bounds_misplaced (program_at self.entry) (scope_at self.entry) (numbered_ranges (map bound_of ranges.now))) }
        ensures types { option_map literal_of result.types ≡ option_map (literal (range_count (numbered_ranges (map bound_of ranges.now))))
            (bounds (program_at self.entry) (scope_at self.entry) (numbered_ranges (map bound_of ranges.now))) }
    {
        let judge = TypeChecker {
            program: &self.program.parts,
        };
        judge.literal(self.scope, ranges)
    }

    /// An expression as an operand: it can't be a call of a declared method (Y6).
    #[tactic(auto, using(ti_rules::proofs::Lemmas::firsts))]
    pub fn operand_value(self, expr: &'a Expr) -> TypedValue<'a>
        ensures ty { option_map ty_view result.ty ≡ operand_type (program_at self.entry) (scope_at self.entry) (expression_of expr.now) }
        ensures first { result.first ≡ earliest (inner_refusals (program_at self.entry) (scope_at self.entry) (expression_of expr.now)) }
    {
        let judged = self.exp(expr);
        TypedValue {
            ty: judged.operand(),
            first: earlier_of(judged.first, judged.misplaced_refusal(expr.place())),
        }
    }

    /// An expression as an initializer: it can be a call, but it must have a value (Y6).
    #[tactic(auto, using(ti_rules::proofs::Lemmas::firsts))]
    pub fn value(self, expr: &'a Expr) -> TypedValue<'a>
        ensures ty { option_map ty_view result.ty ≡ right_side_type (program_at self.entry) (scope_at self.entry) (expression_of expr.now) }
        ensures first { result.first ≡ earliest (value_refusals (program_at self.entry) (scope_at self.entry) (expression_of expr.now)) }
    {
        let judged = self.exp(expr);
        let nothing = refused_if(gives_nothing(judged.ty), Rule::Y6, expr.place());
        TypedValue {
            ty: nonvoid_type(judged.ty),
            first: earlier_of(judged.first, nothing),
        }
    }

    /// The class of `this`, if there is one.
    pub fn this(self) -> Option<u32>
        ensures { result ≡ this_of (around_of self.entry).method }
    {
        self.scope.this
    }

    // The context for the rules of single values, given whether a jump out of the innermost enclosing loop counts as a global effect.
    fn single_site(self, jump_has: bool) -> SingleContext<'a>
        ensures program { single.program_at result ≡ program_at self.entry }
        ensures around { single.around_of result ≡ around_where self.entry jump_has }
    {
        SingleContext {
            program: self.program,
            method: self.method,
            scope: self.scope,
            return_is_global: self.return_is_global,
            jump_has: jump_in(self.is_in_loop, jump_has),
        }
    }

    /// Whether an expression is single as a part of another one, or as a condition.
    pub fn is_single_inside(self, expr: &Expr) -> bool
        ensures { result ≡ is_single_part (program_at self.entry) (this_of (around_of self.entry).method) (singles_in (scope_at self.entry))
            (expression_of expr.now) }
    {
        self.single_site(false).is_single_inside(expr)
    }

    /// The first rule of single values that a statement breaks by itself, without the statements in it, given whether a jump out of the
    /// innermost enclosing loop counts as a global effect. `own` is the statement's effect summary, and `inside` that of its update and
    /// body if it is a loop.
    pub fn single(
        self,
        stmt: &Stmt,
        jump_has: bool,
        own: Effects,
        inside: Effects,
    ) -> Option<Refusal>
        requires own { effects_of own ≡ doings (program_at self) (this_of (around_of self).method) (statement_of stmt.now) }
        requires inside { effects_of inside ≡ effects_in_loop (program_at self) (around_of self).method (statement_of stmt.now) }
        ensures { result ≡ earliest (single_refusals_at (program_at self.entry) (around_where self.entry jump_has) (statement_of stmt.now)) }
    {
        self.single_site(jump_has).refusal(stmt, own, inside)
    }
}
