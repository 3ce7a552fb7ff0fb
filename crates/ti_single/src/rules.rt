// The rules of single values for one statement by itself, without the statements in it. Those for whole methods (S6, S9) are in ti_check.
ghost use Rattle.std.specs.Prelude.{◌≡◌, ◌++◌, ◌&&◌, map, not, false};
ghost use Rattle.std.specs.Option.{option_map, option_map_or, unwrap_or};
ghost use Rattle.ti_syntax.specs.Trees.Views.{maybe_of};
ghost use Rattle.ti_lang.specs.Program.Expressions.{numbered_exps, place_of_numbered};
ghost use Rattle.ti_lang.specs.Program.Scope.{this_of};
ghost use Rattle.ti_lang.specs.Program.Views.{expression_of, type_use_of, initial_of, statement_of, numbered_param_of, numbered_method_of};
ghost use Rattle.ti_lang.specs.Typing.Called.{member_called};
ghost use Rattle.ti_lang.specs.Typing.Effects.{is_single_target, doings, doings_of_maybe, jump_acts, return_acts, has_global_effects};
ghost use Rattle.ti_lang.specs.Typing.TyRef.{built_in_of};
ghost use Rattle.ti_lang.specs.Typing.Singleness.{is_single_part};
ghost use Rattle.ti_rules.specs.StmtInContext.{singles_in};
ghost use Rattle.ti_rules.specs.declared.rule.Rule.TheVariants.{S1, S2, S4, S5};
ghost use Rattle.ti_rules.specs.Refusals.{refused_if as refused_at};
ghost use Rattle.ti_rules.specs.Mirrors.First.{earliest};
ghost use Rattle.ti_rules.specs.SingleRules.{is_plain_part, is_plain, is_plain_initial, is_plain_condition, argument_refusals, call_refusals, is_delete, delete_refusals, whole_refusals, initial_refusals, return_refusals, single_refusals_at};
ghost use Rattle.ti_single.specs.Effects.{effects_of};
ghost use Rattle.ti_single.specs.EffectsAt.{effects_in_loop};
ghost use Rattle.ti_single.specs.Contexts.{program_at, around_of, scope_at};
ghost use Rattle.ti_single.specs.Mirrors.Maybe.{maybe_in};

use crate::context::SingleContext;
use crate::deref::{deref_expr, deref_exprs, deref_init, deref_stmt};
use crate::singleness::{is_single, is_single_initial, is_single_part, is_single_target};
use crate::statements::{
    Effects, has_global_effects, has_single_result, jump_acts, stmt_effects, this_of,
};
use ti_base::Place;
use ti_lang::program::{Expr, Init, Method, Param, Params, Stmt, TypeUse};
use ti_lang::typing::{BuiltIn, called_method, member_called};
use ti_rules::{Refusal, Rule, earlier_of, refused_if};

// ---- calls

fn or_false(flag: Option<bool>) -> bool
    ensures { result ≡ unwrap_or flag false }
{
    match flag {
        Some(flag) => flag,
        None => false,
    }
}

fn is_delete(built_in: Option<BuiltIn>) -> bool
    ensures { result ≡ is_delete (option_map built_in_of built_in) }
{
    matches!(built_in, Some(BuiltIn::Delete))
}

impl<'a> SingleContext<'a> {
    /// Whether an expression is single as a part of another one, or as a condition.
    pub fn is_single_inside(self, expr: &Expr) -> bool
        ensures { result ≡ is_single_part (program_at self.entry) (this_of (around_of self.entry).method) (singles_in (scope_at self.entry))
            (expression_of expr.now) }
    {
        is_single_part(self.program, self.scope, expr)
    }

    // Whether an expression is plain (not single) as a part of another one.
    fn is_plain_part(self, expr: &Expr) -> bool
        ensures { result ≡ is_plain_part (program_at self.entry) (around_of self.entry) (expression_of expr.now) }
    {
        !self.is_single_inside(expr)
    }

    // Whether an expression is plain (not single) as an initializer.
    fn is_plain(self, expr: &Expr) -> bool
        ensures { result ≡ is_plain (program_at self.entry) (around_of self.entry) (expression_of expr.now) }
    {
        !is_single(self.program, self.scope, expr)
    }

    // Whether an initializer is plain (not single).
    fn is_plain_initial(self, value: &Init) -> bool
        ensures { result ≡ is_plain_initial (program_at self.entry) (around_of self.entry) (initial_of value.now) }
    {
        !is_single_initial(self.program, self.scope, value)
    }

    // The class of `this`, if there is one.
    fn this(self) -> Option<u32>
        ensures { result ≡ this_of (around_of self.entry).method }
    {
        this_of(self.method)
    }

    // Whether a statement with this effect summary has global effects here.
    fn has_effects(self, own: Effects) -> bool
        ensures { result ≡ has_global_effects (return_acts (program_at self.entry) (around_of self.entry).method)
            (unwrap_or (around_of self.entry).jump_has false) (effects_of own) }
    {
        has_global_effects(self.return_is_global, or_false(self.jump_has), own)
    }

    // Whether a loop has global effects whose update and body have this effect summary.
    fn loop_acts(self, inside: Effects) -> bool
        ensures { result ≡ jump_acts (return_acts (program_at self.entry) (around_of self.entry).method) (effects_of inside) }
    {
        jump_acts(self.return_is_global, inside)
    }

    // S5 if the argument is plain and its parameter single.
    fn argument(self, param: &Param, expr: &Expr) -> Option<Refusal>
        ensures { result ≡ earliest (refused_at ((numbered_param_of param.now).ty.is_single && is_plain_part (program_at self.entry)
            (around_of self.entry) (expression_of expr.now)) S5 (place_of_numbered (expression_of expr.now))) }
    {
        refused_if(
            param.ty.single && self.is_plain_part(expr),
            Rule::S5,
            expr.place(),
        )
    }

    fn arguments(self, params: &[Param], args: &[Expr]) -> Option<Refusal>
        ensures { result ≡ earliest (argument_refusals (program_at self.entry) (around_of self.entry) (map numbered_param_of params.now)
            (numbered_exps (map expression_of args.now))) }
    {
        let mut found = None;
        for i in 0..args.len() {
            if i >= params.len() {
                return found;
            }
            let param = &params[i];
            let e = &args[i];
            found = earlier_of(found, self.argument(param, e));
        }
        found
    }

    // The first broken rule of a call by itself; none if there is no such method.
    #[tactic(auto, unfolding(ti_rules::specs::Mirrors::First::earliest))]
    fn call(self, method: Option<&Method>, args: &[Expr]) -> Option<Refusal>
        ensures { result ≡ earliest (call_refusals (program_at self.entry) (around_of self.entry)
            (option_map (λ method. numbered_method_of method.now) method.entry) (numbered_exps (map expression_of args.now))) }
    {
        match method {
            Some(method) => match &method.params {
                Params::Typed(params) => self.arguments(params, args),
                Params::MainArgs => None,
            },
            None => None,
        }
    }

    fn is_deleting(self, receiver: &Expr, name: u32) -> bool
        ensures { result ≡ is_delete (member_called (program_at self.entry) (this_of (around_of self.entry).method)
            (expression_of receiver.now) name) }
    {
        let this = self.this();
        let member = member_called(&self.program.parts, this, receiver, name);
        is_delete(member)
    }

    // S8 if the expression deletes a plain region.
    fn delete(self, place: Place, receiver: &Expr, name: u32) -> Option<Refusal>
        ensures { result ≡ earliest (delete_refusals (program_at self.entry) (around_of self.entry) place
            (expression_of receiver.now) name) }
    {
        let plain = self.is_deleting(receiver, name) && self.is_plain_part(receiver);
        refused_if(plain, Rule::S8, place)
    }

    // The first broken rule of an expression that is an initializer or a statement.
    #[tactic(auto, unfolding(ti_rules::specs::Mirrors::First::earliest), using(ti_lang::proofs::Lemmas::program_bridges))]
    fn whole_refusal(self, expr: &Expr) -> Option<Refusal>
        ensures { result ≡ earliest (whole_refusals (program_at self.entry) (around_of self.entry) (expression_of expr.now)) }
    {
        match expr {
            Expr::Call { args, .. } => {
                let m = called_method(&self.program.parts, self.this(), expr);
                self.call(m, deref_exprs(args))
            }
            Expr::OwnCall { args, .. } => {
                let m = called_method(&self.program.parts, self.this(), expr);
                self.call(m, deref_exprs(args))
            }
            Expr::Member {
                place,
                receiver,
                name,
                args,
            } => {
                let m = called_method(&self.program.parts, self.this(), expr);
                let call = self.call(m, deref_exprs(args));
                earlier_of(call, self.delete(*place, deref_expr(receiver), *name))
            }
            _ => None,
        }
    }

    // The first broken rule of an initializer. The root of a broadcast must be single (S8).
    #[tactic(auto, unfolding(ti_rules::specs::Mirrors::First::earliest))]
    fn initial_refusal(self, value: &Init) -> Option<Refusal>
        ensures { result ≡ earliest (initial_refusals (program_at self.entry) (around_of self.entry) (initial_of value.now)) }
    {
        match value {
            Init::Value(e) => self.whole_refusal(e),
            Init::Broadcast { place, root, .. } => {
                refused_if(self.is_plain_part(root), Rule::S8, *place)
            }
            Init::NewRegion(_) => None,
            Init::NewObject { .. } => None,
            Init::NewGrid { .. } => None,
        }
    }

    // ---- statements

    #[tactic(auto, using(ti_rules::proofs::Lemmas::firsts))]
    fn declare_single(self, place: Place, ty: &TypeUse, value: &Init) -> Option<Refusal>
        ensures { result ≡ earliest (initial_refusals (program_at self.entry) (around_of self.entry) (initial_of value.now)
            ++ refused_at ((type_use_of ty.now).is_single && is_plain_initial (program_at self.entry) (around_of self.entry)
            (initial_of value.now)) S4 place) }
    {
        let plain = refused_if(ty.single && self.is_plain_initial(value), Rule::S4, place);
        earlier_of(self.initial_refusal(value), plain)
    }

    #[tactic(auto, using(ti_rules::proofs::Lemmas::firsts))]
    fn assign_single(self, place: Place, target: &Expr, value: &Init) -> Option<Refusal>
        ensures { result ≡ earliest (initial_refusals (program_at self.entry) (around_of self.entry) (initial_of value.now)
            ++ refused_at (is_single_target (expression_of target.now) && is_plain_initial (program_at self.entry) (around_of self.entry)
            (initial_of value.now)) S4 place) }
    {
        let plain = is_single_target(target) && self.is_plain_initial(value);
        earlier_of(
            self.initial_refusal(value),
            refused_if(plain, Rule::S4, place),
        )
    }

    #[tactic(auto, using(ti_rules::proofs::Lemmas::firsts))]
    fn update_single(self, place: Place, target: &Expr, value: &Expr) -> Option<Refusal>
        ensures { result ≡ earliest (whole_refusals (program_at self.entry) (around_of self.entry) (expression_of value.now)
            ++ refused_at (is_single_target (expression_of target.now) && is_plain (program_at self.entry) (around_of self.entry)
            (expression_of value.now)) S4 place) }
    {
        let plain = is_single_target(target) && self.is_plain(value);
        earlier_of(
            self.whole_refusal(value),
            refused_if(plain, Rule::S4, place),
        )
    }

    fn branch(self, place: Place, own: Effects, condition: &Expr) -> Option<Refusal>
        ensures { result ≡ earliest (refused_at (has_global_effects (return_acts (program_at self.entry) (around_of self.entry).method)
            (unwrap_or (around_of self.entry).jump_has false) (effects_of own) && is_plain_part (program_at self.entry)
            (around_of self.entry) (expression_of condition.now)) S1 place) }
    {
        refused_if(
            self.has_effects(own) && self.is_plain_part(condition),
            Rule::S1,
            place,
        )
    }

    fn loop_refusal(
        self,
        rule: Rule,
        place: Place,
        inside: Effects,
        condition: &Expr,
    ) -> Option<Refusal>
        ensures { result ≡ earliest (refused_at (jump_acts (return_acts (program_at self.entry) (around_of self.entry).method)
            (effects_of inside) && is_plain_part (program_at self.entry) (around_of self.entry) (expression_of condition.now)) rule
            place) }
    {
        refused_if(
            self.loop_acts(inside) && self.is_plain_part(condition),
            rule,
            place,
        )
    }

    fn is_plain_condition(self, condition: &Option<Expr>) -> bool
        ensures { result ≡ is_plain_condition (program_at self.entry) (around_of self.entry) (maybe_of expression_of condition.now) }
    {
        match condition {
            Some(e) => self.is_plain_part(e),
            None => false,
        }
    }

    // Whether the update of a `for` contains a jump. In a parsed program it never does.
    fn update_jumps(self, update: &Option<Box<Stmt>>) -> bool
        ensures { result ≡ (doings_of_maybe (program_at self.entry) (this_of (around_of self.entry).method) (maybe_in update.now)).jumps }
    {
        match update {
            Some(x) => stmt_effects(self.program, self.this(), deref_stmt(x)).jumps,
            None => false,
        }
    }

    #[tactic(auto, using(ti_rules::proofs::Lemmas::firsts))]
    fn for_single(
        self,
        place: Place,
        inside: Effects,
        condition: &Option<Expr>,
        update: &Option<Box<Stmt>>,
    ) -> Option<Refusal>
        ensures { result ≡ earliest (refused_at (jump_acts (return_acts (program_at self.entry) (around_of self.entry).method)
            (effects_of inside) && is_plain_condition (program_at self.entry) (around_of self.entry)
            (maybe_of expression_of condition.now)) S2 place ++ refused_at
            (doings_of_maybe (program_at self.entry) (this_of (around_of self.entry).method) (maybe_in update.now)).jumps S2 place) }
    {
        let plain = self.loop_acts(inside) && self.is_plain_condition(condition);
        let jumps = self.update_jumps(update);
        earlier_of(
            refused_if(plain, Rule::S2, place),
            refused_if(jumps, Rule::S2, place),
        )
    }

    #[tactic(auto, unfolding(ti_rules::specs::Mirrors::First::earliest))]
    fn return_single(self, place: Place, value: &Option<Expr>) -> Option<Refusal>
        ensures { result ≡ earliest (return_refusals (program_at self.entry) (around_of self.entry) place
            (maybe_of expression_of value.now)) }
    {
        match value {
            Some(e) => refused_if(
                has_single_result(self.method) && self.is_plain_part(e),
                Rule::S7,
                place,
            ),
            None => None,
        }
    }

    /// The first rule of single values that a statement breaks by itself, without the statements in it. `own` is its effect summary, and
    /// `inside` that of its update and body if it is a loop.
    #[tactic(auto, unfolding(ti_rules::specs::Mirrors::First::earliest), using(ti_lang::proofs::Lemmas::program_bridges))]
    pub fn refusal(self, stmt: &Stmt, own: Effects, inside: Effects) -> Option<Refusal>
        requires own { effects_of own ≡ doings (program_at self) (this_of (around_of self).method) (statement_of stmt.now) }
        requires inside { effects_of inside ≡ effects_in_loop (program_at self) (around_of self).method (statement_of stmt.now) }
        ensures { result ≡ earliest (single_refusals_at (program_at self.entry) (around_of self.entry) (statement_of stmt.now)) }
    {
        match stmt {
            Stmt::Declare {
                place,
                ty,
                value,
                ..
            } => self.declare_single(*place, ty, deref_init(value)),
            Stmt::Assign {
                place,
                target,
                value,
            } => self.assign_single(*place, target, deref_init(value)),
            Stmt::Update {
                place,
                target,
                value,
                ..
            } => self.update_single(*place, target, value),
            Stmt::Call(e) => self.whole_refusal(e),
            Stmt::If {
                place,
                condition,
                ..
            } => self.branch(*place, own, condition),
            Stmt::While {
                place,
                condition,
                ..
            } => self.loop_refusal(Rule::S2, *place, inside, condition),
            Stmt::For {
                place,
                condition,
                update,
                ..
            } => self.for_single(*place, inside, condition, update),
            Stmt::Foreach { place, domain, .. } => self.loop_refusal(
                Rule::S3,
                *place,
                inside,
                domain,
            ),
            Stmt::Return(place, value) => self.return_single(*place, value),
            Stmt::Empty
            | Stmt::Step { .. }
            | Stmt::Print(_, _)
            | Stmt::Barrier(_)
            | Stmt::Break(_)
            | Stmt::Continue(_)
            | Stmt::Block(_) => None,
        }
    }
}
