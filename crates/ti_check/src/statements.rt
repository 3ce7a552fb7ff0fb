// The rules of types for one statement by itself, without the statements in it.
ghost use Rattle.std.specs.Prelude.{◌≡◌, ◌++◌, is_some, is_none, false};
ghost use Rattle.std.specs.Option.{option_map};
ghost use Rattle.ti_syntax.specs.Trees.Views.{maybe_of};
ghost use Rattle.ti_lang.specs.Program.Types.{Int};
ghost use Rattle.ti_lang.specs.Program.Statements as st;
ghost use Rattle.ti_lang.specs.Program.Views.{expression_of, type_use_of, initial_of, printed_of, statement_of};
ghost use Rattle.ti_lang.specs.Typing.Kinds.{domain_dim};
ghost use Rattle.ti_lang.specs.Typing.Declared.{result_type};
ghost use Rattle.ti_lang.specs.Typing.Expressions.{operand_type};
ghost use Rattle.ti_lang.specs.Typing.TyRef.{ty_view};
ghost use Rattle.ti_rules.specs.declared.rule.Rule.TheVariants.{Y3, Y8};
ghost use Rattle.ti_rules.specs.Refusals.{refused_if as refused_at};
ghost use Rattle.ti_rules.specs.Mirrors.First.{earliest};
ghost use Rattle.ti_rules.specs.Broken.Refused.{judged, both_judged, operand_refusal as mistaken_at, misfit as misfit_at};
ghost use Rattle.ti_rules.specs.Broken.Statements.{narrows, result_refusals, update_refusals, operator_of, is_boolean, condition_refusals, maybe_condition_refusals, is_printed, printed_refusals, print_refusals, given_back, return_refusals, statement_refusals};
ghost use Rattle.ti_rules.specs.Broken.RightSides.{inner_refusals};
ghost use Rattle.ti_rules.specs.Broken.Targets.{write_refusals};
ghost use Rattle.ti_check.specs.Mirrors.Contexts.{program_at, around_of, scope_at};
ghost use Rattle.ti_check.specs.Mirrors.Targets.{IsReceiver};

use crate::context::CheckContext;
use crate::targets::TargetTyping;
use ti_base::Place;
use ti_lang::program::{Expr, Init, Printed, Stmt, TypeUse};
use ti_lang::typing::TyRef;
use ti_rules::{Refusal, Rule, earlier_of, refused_if};
use ti_single::deref_init;
use ti_syntax::tree::{BinaryOperator, StepOperator};
use ti_types::{assign_refusal, binary_type, operand_refusal, result_type, type_words};

// ---- values and their targets

// Whether a compound assignment narrows its result: a long to an int.
fn narrows(from: TyRef, target: TyRef) -> bool
    ensures { result ≡ narrows (ty_view from.entry) (ty_view target.entry) }
{
    matches!((from, target), (TyRef::Long, TyRef::Int))
}

// The error if the operator's result can't be assigned to the target.
#[tactic(auto, unfolding(ti_rules::specs::Mirrors::First::earliest))]
fn result_refusal<'a>(place: Place, given: Option<TyRef<'a>>, target: TyRef<'a>) -> Option<Refusal>
    ensures { result ≡ earliest (judged (option_map ty_view given.entry) (λ r. result_refusals place r (ty_view target.entry))) }
{
    match given {
        Some(given) => {
            if narrows(given, target) {
                None
            } else {
                assign_refusal(place, given, target)
            }
        }
        None => None,
    }
}

// The first error of a compound assignment, by the types of target and value.
#[tactic(auto, using(ti_rules::proofs::Lemmas::firsts))]
fn update_refusal<'a>(
    place: Place,
    operator: BinaryOperator,
    target: TyRef<'a>,
    value: TyRef<'a>,
) -> Option<Refusal>
    ensures { result ≡ earliest (update_refusals place operator (ty_view target.entry) (ty_view value.entry)) }
{
    let given = binary_type(operator, target, value);
    let otherwise = binary_type(operator, target.erase_dims(), value.erase_dims()).is_some();
    earlier_of(
        operand_refusal(place, given.is_some(), otherwise),
        result_refusal(place, given, target),
    )
}

// The operator of the equivalent compound assignment: `t++` is `t += 1`, and `t--` is `t -= 1`.
fn operator_of(operator: StepOperator) -> BinaryOperator
    ensures { result ≡ operator_of operator }
{
    match operator {
        StepOperator::Increment => BinaryOperator::Add,
        StepOperator::Decrement => BinaryOperator::Subtract,
    }
}

// ---- conditions, prints and results

fn is_boolean(ty: TyRef) -> bool
    ensures { result ≡ is_boolean (ty_view ty.entry) }
{
    matches!(ty, TyRef::Bool)
}

fn is_printed(ty: TyRef) -> bool
    ensures { result ≡ is_printed (ty_view ty.entry) }
{
    match ty {
        TyRef::Bool | TyRef::Pt(_) => true,
        _ => ty.is_whole(),
    }
}

fn given_back<'a>(place: Place, wanted: TyRef<'a>, ty: TyRef<'a>) -> Option<Refusal>
    ensures { result ≡ earliest (given_back place (ty_view wanted.entry) (ty_view ty.entry)) }
{
    if wanted.is_void() {
        refused_if(true, Rule::Y6, place)
    } else {
        assign_refusal(place, ty, wanted)
    }
}

// ---- statements

impl<'a> CheckContext<'a> {
    #[tactic(auto, using(ti_rules::proofs::Lemmas::firsts))]
    fn declare(
        self,
        place: Place,
        ty: &'a TypeUse,
        variable: u32,
        value: &'a Init,
    ) -> Option<Refusal>
        ensures { result ≡ earliest (statement_refusals (program_at self.entry) (around_of self.entry)
            (st.Declare place (type_use_of ty.now) variable (initial_of value.now))) }
    {
        // For the prover: only the contract uses `variable`.
        let _ = variable;
        let value = self.initial(value);
        let parts = earlier_of(type_words(true, ty), value.first);
        match value.ty {
            Some(given) => earlier_of(
                parts,
                assign_refusal(place, given, TyRef::of(&ty.ty, false)),
            ),
            None => parts,
        }
    }

    // The first error of an assignment of a value of type `value_ty` to a target; none if one of them has no type.
    #[tactic(auto, unfolding(ti_rules::specs::Mirrors::First::earliest), using(crate::proofs::Written::written_laws))]
    fn write_value(
        self,
        place: Place,
        target: &'a Expr,
        t: TargetTyping<'a>,
        value_ty: Option<TyRef<'a>>,
    ) -> Option<Refusal>
        requires { IsReceiver self target.now t.receiver }
        ensures { result
            ≡ earliest (both_judged (option_map ty_view t.entry.ty)
            (option_map ty_view value_ty.entry)
            (λ ty value_ty. write_refusals (program_at self.entry) (scope_at self.entry) place (expression_of target.now)
            (misfit_at place value_ty ty))) }
    {
        match (t.ty, value_ty) {
            (Some(ty), Some(value_ty)) => self.write(
                place,
                target,
                t.receiver,
                assign_refusal(place, value_ty, ty),
            ),
            _ => None,
        }
    }

    #[tactic(auto, using(ti_rules::proofs::Lemmas::firsts))]
    fn assign(self, place: Place, target: &'a Expr, value: &'a Init) -> Option<Refusal>
        ensures { result ≡ earliest (statement_refusals (program_at self.entry) (around_of self.entry)
            (st.Assign place (expression_of target.now) (initial_of value.now))) }
    {
        let t = self.target(target);
        let u = self.initial(value);
        let parts = earlier_of(t.first, u.first);
        earlier_of(parts, self.write_value(place, target, t, u.ty))
    }

    // The first error of a compound assignment of a value of type `value_ty` to a target; none if one of them has no type.
    #[tactic(auto, unfolding(ti_rules::specs::Mirrors::First::earliest), using(crate::proofs::Written::written_laws))]
    fn write_updated(
        self,
        place: Place,
        operator: BinaryOperator,
        target: &'a Expr,
        t: TargetTyping<'a>,
        value_ty: Option<TyRef<'a>>,
    ) -> Option<Refusal>
        requires { IsReceiver self target.now t.receiver }
        ensures { result
            ≡ earliest (both_judged (option_map ty_view t.entry.ty)
            (option_map ty_view value_ty.entry)
            (λ ty value_ty. write_refusals (program_at self.entry) (scope_at self.entry) place (expression_of target.now)
            (update_refusals place operator ty value_ty))) }
    {
        match (t.ty, value_ty) {
            (Some(ty), Some(value_ty)) => self.write(
                place,
                target,
                t.receiver,
                update_refusal(place, operator, ty, value_ty),
            ),
            _ => None,
        }
    }

    #[tactic(auto, using(ti_rules::proofs::Lemmas::firsts))]
    fn update(
        self,
        place: Place,
        operator: BinaryOperator,
        target: &'a Expr,
        value: &'a Expr,
    ) -> Option<Refusal>
        ensures { result ≡ earliest (statement_refusals (program_at self.entry) (around_of self.entry)
            (st.Update place operator (expression_of target.now) (expression_of value.now))) }
    {
        let t = self.target(target);
        let u = self.value(value);
        let parts = earlier_of(t.first, u.first);
        earlier_of(parts, self.write_updated(place, operator, target, t, u.ty))
    }

    // The first error of a step of a target; none if it has no type.
    #[tactic(auto, unfolding(ti_rules::specs::Mirrors::First::earliest), using(crate::proofs::Written::written_laws))]
    fn write_stepped(
        self,
        place: Place,
        operator: StepOperator,
        target: &'a Expr,
        t: TargetTyping<'a>,
    ) -> Option<Refusal>
        requires { IsReceiver self target.now t.receiver }
        ensures { result ≡ earliest (judged (option_map ty_view t.entry.ty)
            (λ ty. write_refusals (program_at self.entry) (scope_at self.entry) place (expression_of target.now)
            (update_refusals place (operator_of operator) ty Int))) }
    {
        match t.ty {
            Some(ty) => {
                let own = update_refusal(place, operator_of(operator), ty, TyRef::Int);
                self.write(place, target, t.receiver, own)
            }
            None => None,
        }
    }

    #[tactic(auto, using(ti_rules::proofs::Lemmas::firsts))]
    fn step(self, place: Place, operator: StepOperator, target: &'a Expr) -> Option<Refusal>
        ensures { result ≡ earliest (statement_refusals (program_at self.entry) (around_of self.entry)
            (st.Step place operator (expression_of target.now))) }
    {
        let t = self.target(target);
        earlier_of(t.first, self.write_stepped(place, operator, target, t))
    }

    #[tactic(auto, using(ti_rules::proofs::Lemmas::firsts))]
    fn condition(self, expr: &'a Expr) -> Option<Refusal>
        ensures { result ≡ earliest (condition_refusals (program_at self.entry) (scope_at self.entry) (expression_of expr.now)) }
    {
        let condition = self.operand_value(expr);
        match condition.ty {
            Some(ty) => {
                let own = refused_if(!is_boolean(ty), Rule::Y3, expr.place());
                earlier_of(condition.first, own)
            }
            None => condition.first,
        }
    }

    #[tactic(auto, unfolding(ti_rules::specs::Mirrors::First::earliest))]
    fn maybe_condition(self, condition: &'a Option<Expr>) -> Option<Refusal>
        ensures { result ≡ earliest (maybe_condition_refusals (program_at self.entry) (scope_at self.entry)
            (maybe_of expression_of condition.now)) }
    {
        match condition {
            Some(condition) => self.condition(condition),
            None => None,
        }
    }

    #[tactic(auto, using(ti_rules::proofs::Lemmas::firsts))]
    fn printed_refusal(self, place: Place, expr: &'a Expr) -> Option<Refusal>
        ensures { result ≡ earliest (printed_refusals (program_at self.entry) (scope_at self.entry) place (expression_of expr.now)) }
    {
        let value = self.operand_value(expr);
        match value.ty {
            Some(ty) => earlier_of(value.first, operand_refusal(place, is_printed(ty), false)),
            None => value.first,
        }
    }

    #[tactic(auto, unfolding(ti_rules::specs::Mirrors::First::earliest))]
    fn print(self, place: Place, what: &'a Printed) -> Option<Refusal>
        ensures { result ≡ earliest (print_refusals (program_at self.entry) (scope_at self.entry) place (printed_of what.now)) }
    {
        match what {
            Printed::Nothing => None,
            Printed::Text(_) => None,
            Printed::Value(e) => self.printed_refusal(place, e),
            Printed::TextAndValue(_, e) => self.printed_refusal(place, e),
        }
    }

    #[tactic(auto, using(ti_rules::proofs::Lemmas::firsts))]
    fn gives_back(self, place: Place, value: &'a Option<Expr>) -> Option<Refusal>
        ensures { result ≡ earliest (return_refusals (program_at self.entry) (scope_at self.entry) place
            (result_type (around_of self.entry).method) (maybe_of expression_of value.now)) }
    {
        let wanted = result_type(self.method);
        match value {
            Some(e) => {
                let value = self.operand_value(e);
                match value.ty {
                    Some(ty) => earlier_of(value.first, given_back(place, wanted, ty)),
                    None => value.first,
                }
            }
            None => refused_if(!wanted.is_void(), Rule::Y6, place),
        }
    }

    #[tactic(auto, using(ti_rules::proofs::Lemmas::firsts))]
    fn domain(self, place: Place, domain: &'a Expr) -> Option<Refusal>
        ensures { result ≡ earliest (inner_refusals (program_at self.entry) (scope_at self.entry) (expression_of domain.now)
            ++ judged (operand_type (program_at self.entry) (scope_at self.entry) (expression_of domain.now))
            (λ t. mistaken_at place (is_some (domain_dim t)) false)) }
    {
        let value = self.operand_value(domain);
        match value.ty {
            Some(ty) => {
                let is_domain = ty.domain_dim().is_some();
                earlier_of(value.first, operand_refusal(place, is_domain, false))
            }
            None => value.first,
        }
    }

    fn jump(self, place: Place) -> Option<Refusal>
        ensures { result ≡ earliest (refused_at (is_none (around_of self.entry).jump_has) Y8 place) }
    {
        refused_if(!self.is_in_loop, Rule::Y8, place)
    }

    /// The first rule of types that a statement breaks by itself, without the statements in it.
    #[tactic(auto, unfolding(ti_rules::specs::Mirrors::First::earliest), using(ti_lang::proofs::Lemmas::program_bridges))]
    pub fn types(self, stmt: &'a Stmt) -> Option<Refusal>
        ensures { result ≡ earliest (statement_refusals (program_at self.entry) (around_of self.entry) (statement_of stmt.now)) }
    {
        match stmt {
            Stmt::Declare {
                place,
                ty,
                variable,
                value,
            } => self.declare(*place, ty, *variable, deref_init(value)),
            Stmt::Assign {
                place,
                target,
                value,
            } => self.assign(*place, target, deref_init(value)),
            Stmt::Update {
                place,
                operator,
                target,
                value,
            } => self.update(*place, *operator, target, value),
            Stmt::Step {
                place,
                operator,
                target,
            } => self.step(*place, *operator, target),
            Stmt::Call(e) => self.exp(e).first,
            Stmt::Print(place, what) => self.print(*place, what),
            Stmt::If { condition, .. } => self.condition(condition),
            Stmt::While { condition, .. } => self.condition(condition),
            Stmt::For { condition, .. } => self.maybe_condition(condition),
            Stmt::Foreach { place, domain, .. } => self.domain(*place, domain),
            Stmt::Break(place) => self.jump(*place),
            Stmt::Continue(place) => self.jump(*place),
            Stmt::Return(place, value) => self.gives_back(*place, value),
            Stmt::Empty => None,
            Stmt::Barrier(_) => None,
            Stmt::Block(_) => None,
        }
    }
}
