// The reasons why one statement breaks a rule of single values: the part that is plain, and the effect that wants it to be single.
ghost use Rattle.std.specs.Prelude.{◌≡◌, ◌++◌, false, map, IfOk, option_and_then, if◌then◌else◌, None};
ghost use Rattle.std.specs.Option.{option_map, option_map_or, option_or, unwrap_or};
ghost use Rattle.ti_base.specs.Places.{same_place};
ghost use Rattle.ti_syntax.specs.Trees.Views.{maybe_of};
ghost use Rattle.ti_lang.specs.Program.Expressions.{NoExp, numbered_exps, place_of_numbered};
ghost use Rattle.ti_lang.specs.Program.Views.{expression_of, initial_of, statement_of, numbered_method_of};
ghost use Rattle.ti_single.specs.Contexts.{program_at, around_of};
ghost use Rattle.ti_rules.specs.StmtInContext.{stands};
ghost use Rattle.ti_explain.specs.SingleReasons.{root_of_whole, root_of_initial, single_operand, arguments_of_whole, arguments_of_initial, arguments_in, part_here, plain_value, plain_argument, plain_for, effect_inside, plain_reason, plain_declaration, declaration_reason, effect_reason, statement_reasons};

use crate::declarations::declaration_of;
use crate::effects::{first_effect, first_effect_of_maybe, loop_effect};
use crate::plain::{plain_initial, plain_part, plain_whole};
use crate::reason::{EffectAt, PlainPart, ReasonKind, RefusalReason};
use std::alloc::Global;
use ti_base::{Memory, Place};
use ti_lang::program::{Expr, Init, Method, Stmt};
use ti_rules::{Refusal, Rule};
use ti_single::{SingleContext, deref_expr, deref_exprs, deref_init};

// ---- what has to be single

// The receiver of a call of a member.
#[tactic(auto, using(ti_lang::proofs::Lemmas::program_bridges))]
fn root_of_whole<'a>(expr: &'a Expr) -> Option<&'a Expr>
    ensures { option_map (λ e. expression_of e.now) result ≡ root_of_whole (expression_of expr.now) }
{
    match expr {
        Expr::Member { receiver, .. } => Some(deref_expr(receiver)),
        _ => None,
    }
}

// The root of a broadcast, or the receiver of a call of a member.
fn root_of_initial<'a>(value: &'a Init) -> Option<&'a Expr>
    ensures { option_map (λ e. expression_of e.now) result ≡ root_of_initial (initial_of value.now) }
{
    match value {
        Init::Value(e) => root_of_whole(e),
        Init::Broadcast { root, .. } => Some(root),
        _ => None,
    }
}

fn as_expr<'a>(expr: &'a Option<Expr>) -> Option<&'a Expr>
    ensures { option_map (λ e. expression_of e.now) result ≡ maybe_of expression_of expr.now }
{
    match expr {
        Some(e) => Some(e),
        None => None,
    }
}

// The condition, domain, returned value, root or region that a rule wants to be single.
#[tactic(auto, using(ti_lang::proofs::Lemmas::program_bridges))]
fn single_operand<'a>(stmt: &'a Stmt) -> Option<&'a Expr>
    ensures { option_map (λ e. expression_of e.now) result ≡ single_operand (statement_of stmt.now) }
{
    match stmt {
        Stmt::Declare { value, .. } => root_of_initial(deref_init(value)),
        Stmt::Assign { value, .. } => root_of_initial(deref_init(value)),
        Stmt::Update { value, .. } => root_of_whole(value),
        Stmt::Call(e) => root_of_whole(e),
        // For the prover: the model has two forms of `if`, so the match is split.
        Stmt::If {
            condition,
            otherwise,
            ..
        } => match otherwise {
            Some(_) => Some(condition),
            None => Some(condition),
        },
        Stmt::While { condition, .. } => Some(condition),
        Stmt::For { condition, .. } => as_expr(condition),
        Stmt::Foreach { domain, .. } => Some(domain),
        Stmt::Return(_, value) => as_expr(value),
        Stmt::Empty
        | Stmt::Step { .. }
        | Stmt::Print(_, _)
        | Stmt::Barrier(_)
        | Stmt::Break(_)
        | Stmt::Continue(_)
        | Stmt::Block(_) => None,
    }
}

/// The arguments of a call; none if the expression is no call.
#[tactic(auto, using(ti_lang::proofs::Lemmas::program_bridges))]
pub fn arguments_of_whole<'a>(expr: &'a Expr) -> Option<&'a [Expr]>
    ensures { option_map_or (λ args. numbered_exps (map expression_of args.now)) result NoExp
        ≡ arguments_of_whole (expression_of expr.now) }
{
    match expr {
        Expr::Call { args, .. } => Some(deref_exprs(args)),
        Expr::OwnCall { args, .. } => Some(deref_exprs(args)),
        Expr::Member { args, .. } => Some(deref_exprs(args)),
        _ => None,
    }
}

// The arguments of the call that is a right-hand side; none if it is no call.
fn arguments_of_initial<'a>(value: &'a Init) -> Option<&'a [Expr]>
    ensures { option_map_or (λ args. numbered_exps (map expression_of args.now)) result NoExp
        ≡ arguments_of_initial (initial_of value.now) }
{
    match value {
        Init::Value(e) => arguments_of_whole(e),
        _ => None,
    }
}

// The arguments of the call that is the statement or its right-hand side; none if there is no such call.
#[tactic(auto, using(ti_lang::proofs::Lemmas::program_bridges))]
fn arguments_in<'a>(stmt: &'a Stmt) -> Option<&'a [Expr]>
    ensures { option_map_or (λ args. numbered_exps (map expression_of args.now)) result NoExp
        ≡ arguments_in (statement_of stmt.now) }
{
    match stmt {
        Stmt::Declare { value, .. } => arguments_of_initial(deref_init(value)),
        Stmt::Assign { value, .. } => arguments_of_initial(deref_init(value)),
        Stmt::Update { value, .. } => arguments_of_whole(value),
        Stmt::Call(e) => arguments_of_whole(e),
        // For the prover: the model has two forms of `if`, so the match is split.
        Stmt::If { otherwise, .. } => match otherwise {
            Some(_) => None,
            None => None,
        },
        _ => None,
    }
}

// ---- plain parts

// The plain part of an operand.
fn part_here(site: SingleContext<'_>, expr: &Expr) -> Option<PlainPart>
    ensures { result ≡ part_here (program_at site.entry) (around_of site.entry) (expression_of expr.now) }
{
    plain_part(site.program, site.scope, expr)
}

// The plain part of the value that a statement stores.
#[tactic(auto, using(ti_lang::proofs::Lemmas::program_bridges))]
fn plain_value(site: SingleContext<'_>, stmt: &Stmt) -> Option<PlainPart>
    ensures { result ≡ plain_value (program_at site.entry) (around_of site.entry) (statement_of stmt.now) }
{
    match stmt {
        Stmt::Declare { value, .. } => plain_initial(site.program, site.scope, deref_init(value)),
        Stmt::Assign { value, .. } => plain_initial(site.program, site.scope, deref_init(value)),
        Stmt::Update { value, .. } => plain_whole(site.program, site.scope, value),
        // For the prover: the model has two forms of `if`, so the match is split.
        Stmt::If { otherwise, .. } => match otherwise {
            Some(_) => None,
            None => None,
        },
        _ => None,
    }
}

// The plain part of an argument if it is at this position.
fn part_at(site: SingleContext<'_>, place: Place, expr: &Expr) -> Option<PlainPart>
    ensures { result ≡ (if same_place place (place_of_numbered (expression_of expr.now)) then
        part_here (program_at site.entry) (around_of site.entry) (expression_of expr.now) else None) }
{
    if place == expr.place() {
        part_here(site, expr)
    } else {
        None
    }
}

// The first plain part of the arguments at this position.
fn plain_argument(site: SingleContext<'_>, place: Place, args: &[Expr]) -> Option<PlainPart>
    ensures { result ≡ plain_argument (program_at site.entry) (around_of site.entry) place
        (numbered_exps (map expression_of args.now)) }
{
    for x in args {
        if let Some(part) = part_at(site, place, x) {
            return Some(part);
        }
    }
    None
}

fn plain_argument_in(site: SingleContext<'_>, place: Place, stmt: &Stmt) -> Option<PlainPart>
    ensures { result ≡ plain_argument (program_at site.entry) (around_of site.entry) place (arguments_in (statement_of stmt.now)) }
{
    match arguments_in(stmt) {
        Some(args) => plain_argument(site, place, args),
        None => None,
    }
}

fn plain_operand(site: SingleContext<'_>, stmt: &Stmt) -> Option<PlainPart>
    ensures { result ≡ option_and_then (part_here (program_at site.entry) (around_of site.entry))
        (single_operand (statement_of stmt.now)) }
{
    match single_operand(stmt) {
        Some(e) => part_here(site, e),
        None => None,
    }
}

// The part of the statement that the rule wants to be single and that is plain.
fn plain_for(site: SingleContext<'_>, refusal: Refusal, stmt: &Stmt) -> Option<PlainPart>
    ensures { result ≡ plain_for (program_at site.entry) (around_of site.entry) refusal.rule refusal.place (statement_of stmt.now) }
{
    match refusal.rule {
        Rule::S4 => plain_value(site, stmt),
        Rule::S5 => plain_argument_in(site, refusal.place, stmt),
        _ => plain_operand(site, stmt),
    }
}

// ---- effects

fn or_false(flag: Option<bool>) -> bool
    ensures { result ≡ unwrap_or flag false }
{
    match flag {
        Some(flag) => flag,
        None => false,
    }
}

// The effect for which all processes have to take the same way through the statement; a jump out of a loop is one in its update.
#[tactic(auto, using(ti_lang::proofs::Lemmas::program_bridges))]
fn effect_inside(site: SingleContext<'_>, stmt: &Stmt) -> Option<EffectAt>
    ensures { result ≡ effect_inside (program_at site.entry) (around_of site.entry) (statement_of stmt.now) }
{
    match stmt {
        // For the prover: the model has two forms of `if`, so the match is split.
        Stmt::If { otherwise, .. } => match otherwise {
            Some(_) => first_effect(site, or_false(site.jump_has), stmt),
            None => first_effect(site, or_false(site.jump_has), stmt),
        },
        Stmt::For { update, .. } => {
            let found = loop_effect(site, stmt);
            found.or(first_effect_of_maybe(site, true, update))
        }
        _ => loop_effect(site, stmt),
    }
}

// ---- reasons

/// Adds the reason that this part is plain, if there is one.
pub fn push_plain(
    reasons: Vec<RefusalReason>,
    part: Option<PlainPart>,
) -> Result<Vec<RefusalReason>, Memory>
    ensures { IfOk result (λ v. v.items ≡ reasons.items ++ plain_reason part) }
{
    let mut found = reasons;
    if let Some(part) = part {
        found.push(RefusalReason {
            place: part.place,
            kind: ReasonKind::Plain(part.cause),
        })?;
    }
    Ok(found)
}

fn plain_declaration(method: &Method, part: Option<PlainPart>) -> Option<Place>
    ensures { result ≡ plain_declaration (numbered_method_of method.now) part }
{
    match part {
        Some(part) => match part.variable {
            Some(number) => declaration_of(method, number),
            None => None,
        },
        None => None,
    }
}

// Adds the reason that a plain variable is declared at this position, if there is one.
fn push_declaration(
    reasons: Vec<RefusalReason>,
    declaration: Option<Place>,
) -> Result<Vec<RefusalReason>, Memory>
    ensures { IfOk result (λ v. v.items ≡ reasons.items ++ declaration_reason declaration) }
{
    let mut found = reasons;
    if let Some(place) = declaration {
        found.push(RefusalReason {
            place,
            kind: ReasonKind::PlainDeclaration,
        })?;
    }
    Ok(found)
}

/// Adds the reason that there is this effect, if there is one.
pub fn push_effect(
    reasons: Vec<RefusalReason>,
    effect: Option<EffectAt>,
) -> Result<Vec<RefusalReason>, Memory>
    ensures { IfOk result (λ v. v.items ≡ reasons.items ++ effect_reason effect) }
{
    let mut found = reasons;
    if let Some(effect) = effect {
        found.push(RefusalReason {
            place: effect.place,
            kind: ReasonKind::Effect(effect.effect),
        })?;
    }
    Ok(found)
}

/// The reasons why a statement breaks a rule of single values: the part that is plain, with the declaration of the variable that it may be;
/// and for an `if` or a loop the effect that wants it to be single.
pub fn statement_reasons(
    alloc: Global,
    site: SingleContext<'_>,
    refusal: Refusal,
    stmt: &Stmt,
) -> Result<Vec<RefusalReason>, Memory>
    ensures { IfOk result (λ v. v.items ≡ statement_reasons (program_at site.entry)
        (stands (around_of site.entry) (statement_of stmt.now)) refusal) }
{
    let part = plain_for(site, refusal, stmt);
    let plain = push_plain(Vec::new(alloc), part)?;
    let plain = push_declaration(plain, plain_declaration(site.method, part))?;
    push_effect(plain, effect_inside(site, stmt))
}
