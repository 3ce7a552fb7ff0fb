// Where a name that is declared again at a position is declared first, and the first variable in scope where there are too many.
ghost use Rattle.std.specs.Prelude.{◌≡◌, true, ◌++◌, if◌then◌else◌, map, None, IfOk};
ghost use Rattle.std.specs.Option.{option_or};
ghost use Rattle.ti_base.specs.Places.{same_place};
ghost use Rattle.ti_syntax.specs.Trees.Statements.{stms};
ghost use Rattle.ti_syntax.specs.Trees.Text.{tree_of};
ghost use Rattle.ti_syntax.specs.Trees.Views.{stm_of, param_of, params_of, member_of, method_of, class_of};
ghost use Rattle.ti_names.specs.Seen.{tree_maybe};
ghost use Rattle.ti_explain.specs.DeclaredNames.{variables_in, variables_in_maybe, variables_among, params_among, fields_at, methods_at, classes_at};
ghost use Rattle.ti_explain.specs.Redeclared.{first_named, first_among, is_declared_at, fits_name, is_declaration_of, outer_at, outer_of, outer_of_maybe, outer_in, outer_among, outer_param, outer_of_params, outer_in_method, outer_variable, first_in_member, first_in_members, first_in_class, first_in_classes, first_in_scope, first_declaration, place_reason, redeclared_reasons, full_scope_reasons};
ghost use Rattle.ti_explain.specs.Mirrors.Names.{name_at_of};

use crate::declared_names::{DeclaredName, DeclaredNames, variables_of};
use crate::name_reason::NameReason;
use crate::name_reasons::push_if;
use crate::near_spelling::same_name;
use crate::reason::RefusalReason;
use std::alloc::Global;
use ti_base::{Memory, Place};
use ti_syntax::tree::{Class, Member, Method, ParamDecl, Params, Stmt, Tree};

// ---- classes and members

// The first declaration of this name.
fn first_named(name: &[u8], names: &[DeclaredName<'_>]) -> Option<Place>
    ensures { result ≡ first_named name.now (map name_at_of names.now) }
{
    for d in names {
        if same_name(name, d.name) {
            return Some(d.place);
        }
    }
    None
}

// The first declaration before this one that has its name, if this one is at the position.
fn first_at(place: Place, declared: DeclaredName<'_>, before: &[DeclaredName<'_>]) -> Option<Place>
    ensures { result ≡ (if same_place place declared.entry.place
        then first_named declared.entry.name.now (map name_at_of before.now) else None) }
{
    if place == declared.place {
        first_named(declared.name, before)
    } else {
        None
    }
}

// The first declaration that has the name of a later one, which is at this position.
fn first_among(place: Place, names: &[DeclaredName<'_>]) -> Option<Place>
    ensures { result ≡ first_among place (map name_at_of names.now) }
{
    for i in 0..names.len() {
        if let Some(first) = first_at(place, names[i], &names[..i]) {
            return Some(first);
        }
    }
    None
}

// ---- variables

// Whether one of these variables is declared at this position.
fn is_declared_at(place: Place, variables: &[DeclaredName<'_>]) -> bool
    ensures { result ≡ is_declared_at place (map name_at_of variables.now) }
{
    for d in variables {
        if place == d.place {
            return true;
        }
    }
    false
}

// Whether it is the name that is looked for, or any name is.
fn fits_name(any: bool, name: &[u8], own: &[u8]) -> bool
    ensures { result ≡ fits_name any name.now own.now }
{
    any || same_name(name, own)
}

// A declaration of this name, if one of the variables that are declared in its scope is at the position `place`.
fn outer_at(
    place: Place,
    any: bool,
    name: &[u8],
    own: &[u8],
    at: Place,
    inside: &[DeclaredName<'_>],
) -> Option<Place>
    ensures { result ≡ outer_at place any name.now own.now at (map name_at_of inside.now) }
{
    let is_outer = fits_name(any, name, own) && is_declared_at(place, inside);
    if is_outer { Some(at) } else { None }
}

// The same of a statement, which may be a declaration.
#[tactic(auto, using(ti_syntax::proofs::Lemmas::bridges))]
fn outer_of(
    place: Place,
    any: bool,
    name: &[u8],
    stmt: &Stmt,
    inside: &[DeclaredName<'_>],
) -> Option<Place>
    ensures { result ≡ outer_of place any name.now (stm_of stmt.now) (map name_at_of inside.now) }
{
    match stmt {
        Stmt::Declare {
            place: at,
            name: own,
            ..
        } => outer_at(place, any, name, own.as_bytes(), *at, inside),
        // For the prover: the model has two forms of `if`, so the match is split.
        Stmt::If { otherwise, .. } => match otherwise {
            Some(_) => None,
            None => None,
        },
        _ => None,
    }
}

// The variables that these statements declare, with all statements in them.
fn variables_behind<'a>(alloc: Global, rest: &'a [Stmt]) -> Result<Vec<DeclaredName<'a>>, Memory>
    ensures { IfOk result (λ v. map name_at_of v.items ≡ variables_among (stms (map stm_of rest.now))) }
{
    let mut names = DeclaredNames {
        found: Vec::new(alloc),
    };
    names.body(rest)?;
    Ok(names.found)
}

// Whether the statement is a declaration of this name.
fn is_declaration_of(any: bool, name: &[u8], stmt: &Stmt) -> bool
    ensures { result ≡ is_declaration_of any name.now (stm_of stmt.now) }
{
    match stmt {
        Stmt::Declare { name: own, .. } => fits_name(any, name, own.as_bytes()),
        // For the prover: the model has two forms of `if`, so the match is split.
        Stmt::If { otherwise, .. } => match otherwise {
            Some(_) => false,
            None => false,
        },
        _ => false,
    }
}

// The same of a statement in a block. What is behind it is only looked at where the statement declares the name.
fn outer_of_item(
    alloc: Global,
    place: Place,
    any: bool,
    name: &[u8],
    stmt: &Stmt,
    rest: &[Stmt],
) -> Result<Option<Place>, Memory>
    ensures { IfOk result (λ o. o ≡ outer_of place any name.now (stm_of stmt.now) (variables_among (stms (map stm_of rest.now)))) }
{
    if !is_declaration_of(any, name, stmt) {
        return Ok(None);
    }
    let inside = variables_behind(alloc, rest)?;
    Ok(outer_of(place, any, name, stmt, &inside))
}

// The same of the head of a `for`.
fn outer_of_head(
    alloc: Global,
    place: Place,
    any: bool,
    name: &[u8],
    first: &Option<Box<Stmt>>,
    update: &Option<Box<Stmt>>,
    body: &Stmt,
) -> Result<Option<Place>, Memory>
    ensures { IfOk result (λ o. o ≡ outer_of_maybe place any name.now (tree_maybe first.now)
        (variables_in_maybe (tree_maybe update.now) ++ variables_in (stm_of body.now))) }
{
    match first {
        Some(first) => {
            let mut names = DeclaredNames {
                found: Vec::new(alloc),
            };
            names.maybe(update)?;
            names.stmt(body)?;
            Ok(outer_of(place, any, name, first, &names.found))
        }
        None => Ok(None),
    }
}

// The same of the head of a `foreach`.
fn outer_of_foreach(
    alloc: Global,
    place: Place,
    any: bool,
    name: &[u8],
    own: DeclaredName<'_>,
    body: &Stmt,
) -> Result<Option<Place>, Memory>
    ensures { IfOk result (λ o. o ≡ outer_at place any name.now own.entry.name.now own.entry.place (variables_in (stm_of body.now))) }
{
    let mut names = DeclaredNames {
        found: Vec::new(alloc),
    };
    names.stmt(body)?;
    Ok(outer_at(place, any, name, own.name, own.place, &names.found))
}

#[cycle(outer)]
fn outer_among(
    alloc: Global,
    place: Place,
    any: bool,
    name: &[u8],
    stmts: &[Stmt],
) -> Result<Option<Place>, Memory>
    ensures { IfOk result (λ o. o ≡ outer_among place any name.now (stms (map stm_of stmts.now))) }
{
    for i in 0..stmts.len() {
        if let Some(at) = outer_of_item(alloc, place, any, name, &stmts[i], &stmts[i + 1..])? {
            return Ok(Some(at));
        }
        if let Some(at) = outer_in(alloc, place, any, name, &stmts[i])? {
            return Ok(Some(at));
        }
    }
    Ok(None)
}

// A variable of this name that is declared in the statement, where another one is declared at the position in its scope.
#[cycle(outer)]
#[tactic(auto, using(ti_syntax::proofs::Lemmas::bridges))]
fn outer_in(
    alloc: Global,
    place: Place,
    any: bool,
    name: &[u8],
    stmt: &Stmt,
) -> Result<Option<Place>, Memory>
    ensures { IfOk result (λ o. o ≡ outer_in place any name.now (stm_of stmt.now)) }
{
    match stmt {
        Stmt::Block(body) => outer_among(alloc, place, any, name, body),
        Stmt::If {
            then,
            otherwise,
            ..
        } => {
            let then = outer_in(alloc, place, any, name, then)?;
            match otherwise {
                Some(otherwise) => { Ok(then.or(outer_in(alloc, place, any, name, otherwise)?)) }
                None => Ok(then),
            }
        }
        Stmt::While { body, .. } => outer_in(alloc, place, any, name, body),
        Stmt::For {
            first,
            update,
            body,
            ..
        } => {
            let head = outer_of_head(alloc, place, any, name, first, update, body)?;
            Ok(head.or(outer_in(alloc, place, any, name, body)?))
        }
        Stmt::Foreach {
            name_place,
            name: own,
            body,
            ..
        } => {
            let own = DeclaredName {
                name: own.as_bytes(),
                place: *name_place,
            };
            let head = outer_of_foreach(alloc, place, any, name, own, body)?;
            Ok(head.or(outer_in(alloc, place, any, name, body)?))
        }
        Stmt::Empty
        | Stmt::Declare { .. }
        | Stmt::Assign { .. }
        | Stmt::Update { .. }
        | Stmt::Step { .. }
        | Stmt::Call(_)
        | Stmt::Print(_, _)
        | Stmt::Barrier(_)
        | Stmt::Break(_)
        | Stmt::Continue(_)
        | Stmt::Return(_, _) => Ok(None),
    }
}

// The same of a parameter; behind it are these parameters and the body.
fn outer_of_param(
    alloc: Global,
    place: Place,
    any: bool,
    name: &[u8],
    param: &ParamDecl,
    rest: &[ParamDecl],
    body: &[Stmt],
) -> Result<Option<Place>, Memory>
    ensures { IfOk result (λ o. o ≡ outer_at place any name.now param.now.name param.now.place
        (params_among (map param_of rest.now) ++ variables_among (stms (map stm_of body.now)))) }
{
    let mut names = DeclaredNames {
        found: Vec::new(alloc),
    };
    names.param_list(rest)?;
    names.body(body)?;
    Ok(outer_at(
        place,
        any,
        name,
        param.name.as_bytes(),
        param.place,
        &names.found,
    ))
}

fn outer_param(
    alloc: Global,
    place: Place,
    any: bool,
    name: &[u8],
    params: &[ParamDecl],
    body: &[Stmt],
) -> Result<Option<Place>, Memory>
    ensures { IfOk result (λ o. o ≡ outer_param place any name.now (map param_of params.now) (variables_among (stms (map stm_of body.now)))) }
{
    for i in 0..params.len() {
        if let Some(at) = outer_of_param(
            alloc,
            place,
            any,
            name,
            &params[i],
            &params[i + 1..],
            body,
        )? {
            return Ok(Some(at));
        }
    }
    Ok(None)
}

fn outer_of_params(
    alloc: Global,
    place: Place,
    any: bool,
    name: &[u8],
    params: &Params,
    body: &[Stmt],
) -> Result<Option<Place>, Memory>
    ensures { IfOk result (λ o. o ≡ outer_of_params place any name.now (params_of params.now) (variables_among (stms (map stm_of body.now)))) }
{
    match params {
        Params::MainArgs(_, _) => Ok(None),
        Params::Typed(params) => outer_param(alloc, place, any, name, params, body),
    }
}

// The variable of this name in whose scope another one is declared at the position.
fn outer_in_method(
    alloc: Global,
    place: Place,
    any: bool,
    name: &[u8],
    method: &Method,
) -> Result<Option<Place>, Memory>
    ensures { IfOk result (λ o. o ≡ outer_in_method place any name.now (method_of method.now)) }
{
    let params = outer_of_params(alloc, place, any, name, &method.params, &method.body)?;
    Ok(params.or(outer_among(alloc, place, any, name, &method.body)?))
}

// The same for the name of a variable, if it is at the position.
fn outer_if_at(
    alloc: Global,
    place: Place,
    any: bool,
    declared: DeclaredName<'_>,
    method: &Method,
) -> Result<Option<Place>, Memory>
    ensures { IfOk result (λ o. o ≡ (if same_place place declared.entry.place
        then outer_in_method place any declared.entry.name.now (method_of method.now) else None)) }
{
    if place == declared.place {
        outer_in_method(alloc, place, any, declared.name, method)
    } else {
        Ok(None)
    }
}

fn outer_variable(
    alloc: Global,
    place: Place,
    any: bool,
    method: &Method,
    variables: &[DeclaredName<'_>],
) -> Result<Option<Place>, Memory>
    ensures { IfOk result (λ o. o ≡ outer_variable place any (method_of method.now) (map name_at_of variables.now)) }
{
    for d in variables {
        if let Some(at) = outer_if_at(alloc, place, any, *d, method)? {
            return Ok(Some(at));
        }
    }
    Ok(None)
}

// ---- in a source program

fn first_in_member(
    alloc: Global,
    place: Place,
    any: bool,
    member: &Member,
) -> Result<Option<Place>, Memory>
    ensures { IfOk result (λ o. o ≡ first_in_member place any (member_of member.now)) }
{
    match member {
        Member::Field(_) => Ok(None),
        Member::Method(method) => {
            let variables = variables_of(alloc, method)?;
            outer_variable(alloc, place, any, method, &variables)
        }
    }
}

fn first_in_members(
    alloc: Global,
    place: Place,
    any: bool,
    members: &[Member],
) -> Result<Option<Place>, Memory>
    ensures { IfOk result (λ o. o ≡ first_in_members place any (map member_of members.now)) }
{
    for member in members {
        if let Some(at) = first_in_member(alloc, place, any, member)? {
            return Ok(Some(at));
        }
    }
    Ok(None)
}

fn first_field(alloc: Global, place: Place, members: &[Member]) -> Result<Option<Place>, Memory>
    ensures { IfOk result (λ o. o ≡ first_among place (fields_at (map member_of members.now))) }
{
    let mut names = DeclaredNames {
        found: Vec::new(alloc),
    };
    names.add_fields(members)?;
    Ok(first_among(place, &names.found))
}

fn first_method(alloc: Global, place: Place, members: &[Member]) -> Result<Option<Place>, Memory>
    ensures { IfOk result (λ o. o ≡ first_among place (methods_at true (map member_of members.now))) }
{
    let mut names = DeclaredNames {
        found: Vec::new(alloc),
    };
    names.add_methods(true, members)?;
    Ok(first_among(place, &names.found))
}

fn first_class(alloc: Global, place: Place, classes: &[Class]) -> Result<Option<Place>, Memory>
    ensures { IfOk result (λ o. o ≡ first_among place (classes_at (map class_of classes.now))) }
{
    let mut names = DeclaredNames {
        found: Vec::new(alloc),
    };
    names.add_classes(classes)?;
    Ok(first_among(place, &names.found))
}

fn first_in_class(alloc: Global, place: Place, class: &Class) -> Result<Option<Place>, Memory>
    ensures { IfOk result (λ o. o ≡ first_in_class place (class_of class.now)) }
{
    let field = first_field(alloc, place, &class.members)?;
    let method = first_method(alloc, place, &class.members)?;
    let variable = first_in_members(alloc, place, false, &class.members)?;
    Ok(field.or(method.or(variable)))
}

fn first_in_classes(alloc: Global, place: Place, classes: &[Class]) -> Result<Option<Place>, Memory>
    ensures { IfOk result (λ o. o ≡ first_in_classes place (map class_of classes.now)) }
{
    for class in classes {
        if let Some(at) = first_in_class(alloc, place, class)? {
            return Ok(Some(at));
        }
    }
    Ok(None)
}

// The first variable in scope where one is declared at this position.
fn first_in_scope(alloc: Global, place: Place, classes: &[Class]) -> Result<Option<Place>, Memory>
    ensures { IfOk result (λ o. o ≡ first_in_scope place (map class_of classes.now)) }
{
    for class in classes {
        if let Some(at) = first_in_members(alloc, place, true, &class.members)? {
            return Ok(Some(at));
        }
    }
    Ok(None)
}

// The declaration with which that at this position clashes.
fn first_declaration(alloc: Global, tree: &Tree, place: Place) -> Result<Option<Place>, Memory>
    ensures { IfOk result (λ o. o ≡ first_declaration (tree_of tree.now) place) }
{
    let class = first_class(alloc, place, &tree.classes)?;
    Ok(class.or(first_in_classes(alloc, place, &tree.classes)?))
}

// The reason at this position, if there is one.
fn place_reason(
    alloc: Global,
    place: Option<Place>,
    reason: NameReason,
) -> Result<Vec<RefusalReason>, Memory>
    ensures { IfOk result (λ v. v.items ≡ place_reason place reason) }
{
    let found = Vec::new(alloc);
    match place {
        Some(place) => push_if(found, true, place, reason),
        None => Ok(found),
    }
}

/// The reasons why the name at this position can't be declared again: the first declaration.
pub fn redeclared_reasons(
    alloc: Global,
    tree: &Tree,
    place: Place,
) -> Result<Vec<RefusalReason>, Memory>
    ensures { IfOk result (λ v. v.items ≡ redeclared_reasons (tree_of tree.now) place) }
{
    let first = first_declaration(alloc, tree, place)?;
    place_reason(alloc, first, NameReason::FirstDeclaration)
}

/// The reasons why no further variable can be declared at this position: the first one in scope.
pub fn full_scope_reasons(
    alloc: Global,
    tree: &Tree,
    place: Place,
) -> Result<Vec<RefusalReason>, Memory>
    ensures { IfOk result (λ v. v.items ≡ full_scope_reasons (tree_of tree.now) place) }
{
    let first = first_in_scope(alloc, place, &tree.classes)?;
    place_reason(alloc, first, NameReason::FirstInScope)
}
