// The reasons why one statement, or the head of a method, breaks a rule of types.
ghost use Rattle.std.specs.Prelude.{◌≡◌, ◌++◌, Some, IfOk};
ghost use Rattle.std.specs.Option.{option_map};
ghost use Rattle.ti_syntax.specs.Trees.Text.{tree_of};
ghost use Rattle.ti_syntax.specs.Trees.Views.{maybe_of};
ghost use Rattle.ti_lang.specs.Program.Views.{program_of, expression_of, extent_of, initial_of, printed_of, statement_of, numbered_method_of};
ghost use Rattle.ti_lang.specs.Typing.TyRef.{ty_view};
ghost use Rattle.ti_rules.specs.StmtInContext.{stands};
ghost use Rattle.ti_single.specs.Contexts.{program_at, around_of, scope_at};
ghost use Rattle.ti_explain.specs.TypeReasons.{typed, place_of_initial, initial_typed, dims_typed, parts_typed, printed_typed, target_defect, target_or, place_of_target, result_wanted, target_wants, return_told, declare_told, assign_told, own_reasons, sought_by, found_or_own, word_reasons, statement_word, type_statement_reasons, type_head_reasons};
ghost use Rattle.ti_explain.specs.MisplacedWords.{defect_in_classes};

use crate::declarations::declaration_of;
use crate::faulty_parts::{SoughtPart, first_in_statement};
use crate::misplaced_words::{
    defect_in_cast, defect_in_classes, defect_in_head, defect_in_statement, first_defect,
};
use crate::reason::RefusalReason;
use crate::type_reason::{TargetDefect, TypeReason, ValueDefect, WordDefect};
use crate::type_reasons::{
    part_reasons, push_has, push_reason, push_typed, push_typed_maybe, push_typed_ranges,
    push_typed_two, push_wants, type_of,
};
use std::alloc::Global;
use ti_base::{Memory, Place};
use ti_check::{initial_type, is_foreach_variable, is_point_coordinate};
use ti_lang::program::{Dims, Expr, Init, Method, Printed, Program, Stmt};
use ti_lang::typing::TyRef;
use ti_rules::{Refusal, Rule};
use ti_single::{SingleContext, deref_init, deref_ranges};
use ti_syntax::tree::Tree;
use ti_types::result_type;

// ---- right sides

fn place_of_initial(value: &Init) -> Place
    ensures { result ≡ place_of_initial (initial_of value.now) }
{
    match value {
        Init::Value(x) => x.place(),
        Init::NewRegion(place) => *place,
        Init::NewObject { place, .. } => *place,
        Init::NewGrid { place, .. } => *place,
        Init::Broadcast { place, .. } => *place,
    }
}

// Adds the type of a right side.
fn push_initial(
    alloc: Global,
    reasons: Vec<RefusalReason>,
    tree: &Tree,
    site: SingleContext<'_>,
    value: &Init,
) -> Result<Vec<RefusalReason>, Memory>
    ensures { IfOk result (λ v. v.items ≡ reasons.items
        ++ initial_typed (tree_of tree.now) (program_at site.entry) (scope_at site.entry) (initial_of value.now)) }
{
    let ty = initial_type(site, value);
    push_has(alloc, reasons, tree, place_of_initial(value), ty)
}

fn push_dims(
    alloc: Global,
    reasons: Vec<RefusalReason>,
    tree: &Tree,
    site: SingleContext<'_>,
    dims: &Dims,
) -> Result<Vec<RefusalReason>, Memory>
    ensures { IfOk result (λ v. v.items ≡ reasons.items
        ++ dims_typed (tree_of tree.now) (program_at site.entry) (scope_at site.entry) (extent_of dims.now)) }
{
    match dims {
        Dims::Domain(x) => push_typed(alloc, reasons, tree, site, x),
        Dims::Ranges(ranges) => push_typed_ranges(alloc, reasons, tree, site, deref_ranges(ranges)),
    }
}

// Adds the types of the operands of a right side.
fn push_parts(
    alloc: Global,
    reasons: Vec<RefusalReason>,
    tree: &Tree,
    site: SingleContext<'_>,
    value: &Init,
) -> Result<Vec<RefusalReason>, Memory>
    ensures { IfOk result (λ v. v.items ≡ reasons.items
        ++ parts_typed (tree_of tree.now) (program_at site.entry) (scope_at site.entry) (initial_of value.now)) }
{
    match value {
        Init::Value(x) => push_typed(alloc, reasons, tree, site, x),
        Init::NewRegion(_) => Ok(reasons),
        Init::NewObject { region, .. } => push_typed_maybe(alloc, reasons, tree, site, region),
        Init::NewGrid { region, dims, .. } => {
            let found = push_typed_maybe(alloc, reasons, tree, site, region)?;
            push_dims(alloc, found, tree, site, dims)
        }
        Init::Broadcast { value, root, .. } => {
            push_typed_two(alloc, reasons, tree, site, value, root)
        }
    }
}

fn push_printed(
    alloc: Global,
    reasons: Vec<RefusalReason>,
    tree: &Tree,
    site: SingleContext<'_>,
    what: &Printed,
) -> Result<Vec<RefusalReason>, Memory>
    ensures { IfOk result (λ v. v.items ≡ reasons.items
        ++ printed_typed (tree_of tree.now) (program_at site.entry) (scope_at site.entry) (printed_of what.now)) }
{
    match what {
        Printed::Nothing => Ok(reasons),
        Printed::Text(_) => Ok(reasons),
        Printed::Value(x) => push_typed(alloc, reasons, tree, site, x),
        Printed::TextAndValue(_, x) => push_typed(alloc, reasons, tree, site, x),
    }
}

// ---- targets

// Why nothing can be stored into the target, if that is what breaks the rule.
fn target_defect(site: SingleContext<'_>, rule: Rule, target: &Expr) -> Option<TargetDefect>
    ensures { result ≡ target_defect (program_at site.entry) (scope_at site.entry) rule (expression_of target.now) }
{
    match rule {
        Rule::Y1 => if is_point_coordinate(site, target) {
            Some(TargetDefect::Coordinate)
        } else {
            None
        },
        Rule::Y2 => if is_foreach_variable(target) {
            Some(TargetDefect::ForeachVariable)
        } else {
            None
        },
        Rule::Q2 => Some(TargetDefect::HiddenLocal),
        _ => None,
    }
}

// The position of a target: of a variable, that of its declaration.
fn place_of_target(method: &Method, target: &Expr) -> Place
    ensures { result ≡ place_of_target (numbered_method_of method.now) (expression_of target.now) }
{
    match target {
        Expr::Variable(place, v) => match declaration_of(method, v.number) {
            Some(found) => found,
            None => *place,
        },
        _ => target.place(),
    }
}

// Adds the type that the target of an assignment wants.
fn push_target(
    alloc: Global,
    reasons: Vec<RefusalReason>,
    tree: &Tree,
    site: SingleContext<'_>,
    target: &Expr,
) -> Result<Vec<RefusalReason>, Memory>
    ensures { IfOk result (λ v. v.items ≡ reasons.items
        ++ target_wants (tree_of tree.now) (program_at site.entry) (around_of site.entry) (expression_of target.now)) }
{
    let place = place_of_target(site.method, target);
    push_wants(alloc, reasons, tree, place, type_of(site, target))
}

// ---- statements

fn declare_told(
    alloc: Global,
    tree: &Tree,
    site: SingleContext<'_>,
    here: Place,
    place: Place,
    ty: TyRef<'_>,
    value: &Init,
) -> Result<Vec<RefusalReason>, Memory>
    ensures { IfOk result (λ v. v.items ≡ declare_told (tree_of tree.now) (program_at site.entry) (around_of site.entry) here place
        (ty_view ty.entry) (initial_of value.now)) }
{
    let none = Vec::new(alloc);
    if here == place {
        let found = push_initial(alloc, none, tree, site, value)?;
        push_wants(alloc, found, tree, place, Some(ty))
    } else {
        push_parts(alloc, none, tree, site, value)
    }
}

// What is wrong with the target of an assignment, or else the types of its value and of the target.
fn assigned_told(
    alloc: Global,
    tree: &Tree,
    site: SingleContext<'_>,
    rule: Rule,
    target: &Expr,
    value: &Init,
) -> Result<Vec<RefusalReason>, Memory>
    ensures { IfOk result (λ v. v.items ≡ target_or (expression_of target.now)
        (target_defect (program_at site.entry) (scope_at site.entry) rule (expression_of target.now))
        (initial_typed (tree_of tree.now) (program_at site.entry) (scope_at site.entry) (initial_of value.now)
        ++ target_wants (tree_of tree.now) (program_at site.entry) (around_of site.entry) (expression_of target.now))) }
{
    let none = Vec::new(alloc);
    match target_defect(site, rule, target) {
        Some(defect) => push_reason(none, target.place(), TypeReason::Target(defect)),
        None => {
            let found = push_initial(alloc, none, tree, site, value)?;
            push_target(alloc, found, tree, site, target)
        }
    }
}

fn assign_told(
    alloc: Global,
    tree: &Tree,
    site: SingleContext<'_>,
    refusal: Refusal,
    place: Place,
    target: &Expr,
    value: &Init,
) -> Result<Vec<RefusalReason>, Memory>
    ensures { IfOk result (λ v. v.items ≡ assign_told (tree_of tree.now) (program_at site.entry) (around_of site.entry) refusal place
        (expression_of target.now) (initial_of value.now)) }
{
    if refusal.place == place {
        assigned_told(alloc, tree, site, refusal.rule, target, value)
    } else {
        push_parts(alloc, Vec::new(alloc), tree, site, value)
    }
}

fn update_told(
    alloc: Global,
    tree: &Tree,
    site: SingleContext<'_>,
    rule: Rule,
    target: &Expr,
    value: &Expr,
) -> Result<Vec<RefusalReason>, Memory>
    ensures { IfOk result (λ v. v.items ≡ target_or (expression_of target.now)
        (target_defect (program_at site.entry) (scope_at site.entry) rule (expression_of target.now))
        (typed (tree_of tree.now) (program_at site.entry) (scope_at site.entry) (expression_of target.now)
        ++ typed (tree_of tree.now) (program_at site.entry) (scope_at site.entry) (expression_of value.now))) }
{
    let none = Vec::new(alloc);
    match target_defect(site, rule, target) {
        Some(defect) => push_reason(none, target.place(), TypeReason::Target(defect)),
        None => push_typed_two(alloc, none, tree, site, target, value),
    }
}

fn step_told(
    alloc: Global,
    tree: &Tree,
    site: SingleContext<'_>,
    rule: Rule,
    target: &Expr,
) -> Result<Vec<RefusalReason>, Memory>
    ensures { IfOk result (λ v. v.items ≡ target_or (expression_of target.now)
        (target_defect (program_at site.entry) (scope_at site.entry) rule (expression_of target.now))
        (typed (tree_of tree.now) (program_at site.entry) (scope_at site.entry) (expression_of target.now))) }
{
    let none = Vec::new(alloc);
    match target_defect(site, rule, target) {
        Some(defect) => push_reason(none, target.place(), TypeReason::Target(defect)),
        None => push_typed(alloc, none, tree, site, target),
    }
}

// Adds the type of the method's result, at the method.
fn push_result(
    alloc: Global,
    reasons: Vec<RefusalReason>,
    tree: &Tree,
    method: &Method,
) -> Result<Vec<RefusalReason>, Memory>
    ensures { IfOk result (λ v. v.items ≡ reasons.items ++ result_wanted (tree_of tree.now) (numbered_method_of method.now)) }
{
    push_wants(
        alloc,
        reasons,
        tree,
        method.place,
        Some(result_type(method)),
    )
}

fn return_told(
    alloc: Global,
    tree: &Tree,
    site: SingleContext<'_>,
    rule: Rule,
    place: Place,
    value: &Option<Expr>,
) -> Result<Vec<RefusalReason>, Memory>
    ensures { IfOk result (λ v. v.items ≡ return_told (tree_of tree.now) (program_at site.entry) (around_of site.entry) rule place
        (maybe_of expression_of value.now)) }
{
    let none = Vec::new(alloc);
    let found = match rule {
        Rule::Y6 => {
            let defect = match value {
                Some(_) => ValueDefect::ReturnsValue,
                None => ValueDefect::ReturnsNothing,
            };
            push_reason(none, place, TypeReason::Value(defect))?
        }
        _ => push_typed_maybe(alloc, none, tree, site, value)?,
    };
    push_result(alloc, found, tree, site.method)
}

// The reasons for a statement that breaks the rule by itself, while no expression in it does.
#[tactic(auto, using(ti_lang::proofs::Lemmas::program_bridges))]
fn own_reasons(
    alloc: Global,
    tree: &Tree,
    site: SingleContext<'_>,
    refusal: Refusal,
    stmt: &Stmt,
) -> Result<Vec<RefusalReason>, Memory>
    ensures { IfOk result (λ v. v.items ≡ own_reasons (tree_of tree.now) (program_at site.entry) (around_of site.entry) refusal
        (statement_of stmt.now)) }
{
    match stmt {
        Stmt::Declare {
            place,
            ty,
            value,
            ..
        } => {
            let ty = TyRef::of(&ty.ty, false);
            declare_told(
                alloc,
                tree,
                site,
                refusal.place,
                *place,
                ty,
                deref_init(value),
            )
        }
        Stmt::Assign {
            place,
            target,
            value,
        } => assign_told(
            alloc,
            tree,
            site,
            refusal,
            *place,
            target,
            deref_init(value),
        ),
        Stmt::Update { target, value, .. } => {
            update_told(alloc, tree, site, refusal.rule, target, value)
        }
        Stmt::Step { target, .. } => step_told(alloc, tree, site, refusal.rule, target),
        Stmt::Print(_, what) => push_printed(alloc, Vec::new(alloc), tree, site, what),
        Stmt::Return(place, value) => {
            return_told(alloc, tree, site, refusal.rule, *place, value)
        }
        // For the prover: the model has two forms of `if`, so the match is split.
        Stmt::If {
            condition,
            otherwise,
            ..
        } => match otherwise {
            Some(_) => push_typed(alloc, Vec::new(alloc), tree, site, condition),
            None => push_typed(alloc, Vec::new(alloc), tree, site, condition),
        },
        Stmt::While { condition, .. } => {
            push_typed(alloc, Vec::new(alloc), tree, site, condition)
        }
        Stmt::For { condition, .. } => {
            push_typed_maybe(alloc, Vec::new(alloc), tree, site, condition)
        }
        Stmt::Foreach { domain, .. } => push_typed(alloc, Vec::new(alloc), tree, site, domain),
        Stmt::Empty
        | Stmt::Call(_)
        | Stmt::Barrier(_)
        | Stmt::Break(_)
        | Stmt::Continue(_)
        | Stmt::Block(_) => Ok(Vec::new(alloc)),
    }
}

// What is sought in a statement: for Y6 the expression at the position, else the one that has the error.
fn sought_by(rule: Rule, refusal: Refusal) -> SoughtPart
    ensures { result ≡ sought_by rule refusal }
{
    match rule {
        Rule::Y6 => SoughtPart::At(refusal.place),
        _ => SoughtPart::Refused(refusal),
    }
}

// The reasons of the expression that breaks the rule, or if there is none, those of the statement itself.
fn found_or_own(
    alloc: Global,
    tree: &Tree,
    site: SingleContext<'_>,
    refusal: Refusal,
    stmt: &Stmt,
    found: Option<&Expr>,
) -> Result<Vec<RefusalReason>, Memory>
    ensures { IfOk result (λ v. v.items ≡ found_or_own (tree_of tree.now) (program_at site.entry)
        (stands (around_of site.entry) (statement_of stmt.now)) refusal (option_map (λ e. expression_of e.now) found.entry)) }
{
    match found {
        Some(expr) => part_reasons(alloc, tree, site, refusal, expr),
        None => own_reasons(alloc, tree, site, refusal, stmt),
    }
}

// Adds what is wrong with the keyword at this position, if it is known.
fn word_reasons(
    alloc: Global,
    place: Place,
    defect: Option<WordDefect>,
) -> Result<Vec<RefusalReason>, Memory>
    ensures { IfOk result (λ v. v.items ≡ word_reasons place defect) }
{
    let none = Vec::new(alloc);
    match defect {
        Some(defect) => push_reason(none, place, TypeReason::Word(defect)),
        None => Ok(none),
    }
}

fn statement_word(
    alloc: Global,
    place: Place,
    stmt: &Stmt,
    found: Option<&Expr>,
) -> Result<Vec<RefusalReason>, Memory>
    ensures { IfOk result (λ v. v.items ≡ statement_word place (statement_of stmt.now) (option_map (λ e. expression_of e.now) found.entry)) }
{
    let own = defect_in_statement(place, stmt);
    word_reasons(
        alloc,
        place,
        first_defect(own, defect_in_cast(place, found)),
    )
}

/// The reasons why a statement breaks a rule of types.
pub fn type_statement_reasons(
    alloc: Global,
    tree: &Tree,
    site: SingleContext<'_>,
    refusal: Refusal,
    stmt: &Stmt,
) -> Result<Vec<RefusalReason>, Memory>
    ensures { IfOk result (λ v. v.items ≡ type_statement_reasons (tree_of tree.now) (program_at site.entry)
        (stands (around_of site.entry) (statement_of stmt.now)) refusal) }
{
    let sought = sought_by(refusal.rule, refusal);
    let found = first_in_statement(site.program, site.scope, sought, stmt);
    match refusal.rule {
        Rule::Y7 => statement_word(alloc, refusal.place, stmt, found),
        _ => found_or_own(alloc, tree, site, refusal, stmt, found),
    }
}

/// The reasons why the head of a method breaks a rule of types.
pub fn type_head_reasons(
    alloc: Global,
    method: &Method,
    refusal: Refusal,
) -> Result<Vec<RefusalReason>, Memory>
    ensures { IfOk result (λ v. v.items ≡ type_head_reasons (numbered_method_of method.now) refusal.rule refusal.place) }
{
    match refusal.rule {
        Rule::Y6 => push_reason(
            Vec::new(alloc),
            method.place,
            TypeReason::Value(ValueDefect::NoLastReturn),
        ),
        _ => {
            let defect = defect_in_head(refusal.place, method);
            word_reasons(alloc, refusal.place, defect)
        }
    }
}

/// The reasons why the declaration of a class or a field breaks a rule of types.
pub fn class_reasons(
    alloc: Global,
    program: &Program,
    place: Place,
) -> Result<Vec<RefusalReason>, Memory>
    ensures { IfOk result (λ v. v.items ≡ word_reasons place (defect_in_classes place (program_of program.now.parts).classes)) }
{
    let defect = defect_in_classes(place, &program.parts.classes);
    word_reasons(alloc, place, defect)
}
