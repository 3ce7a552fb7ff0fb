// Why nothing of a name can be used where the name is: what is sought there, and where the name, or one with nearly its spelling, is
// declared.
ghost use Rattle.std.specs.Prelude.{◌≡◌, ◌&&◌, true, ◌++◌, map, bytes_eq, Some, IfOk};
ghost use Rattle.ti_syntax.specs.Trees.Text.{tree_of};
ghost use Rattle.ti_syntax.specs.Trees.Views.{member_of, method_of, class_of, params_of, type_tree_of};
ghost use Rattle.ti_lang.specs.Members.{is_static};
ghost use Rattle.ti_explain.specs.NameReasons.{reason_if, has_reason, scope_reason, scope_reasons, parameter_reasons, fields_named, fields_named_in, method_reason, methods_named, methods_named_in, has_name_among, standing_variable, standing, variables_near, candidates, near_reasons, spellings, sought_reason, type_reasons, use_reasons, member_reasons, unknown_among, unknown_in, unknown_reasons};
ghost use Rattle.ti_explain.specs.NameUses.{use_in_method, use_in_type};
ghost use Rattle.ti_explain.specs.NearSpelling.{is_near};
ghost use Rattle.ti_explain.specs.DeclaredNames.{fields_at, methods_at};
ghost use Rattle.ti_explain.specs.declared.name_reason.SoughtName.TheVariants as name_sought;
ghost use Rattle.ti_explain.specs.declared.name_reason.NameReason.TheVariants as why;
ghost use Rattle.ti_explain.specs.Mirrors.Names.{used_name_of, name_at_of, text_around, class_around, method_around};

use crate::declared_names::{DeclaredName, DeclaredNames, variables_of};
use crate::name_reason::{NameReason, SoughtName};
use crate::name_uses::{NameUse, use_in_method, use_in_type};
use crate::near_spelling::{is_near, same_name};
use crate::reason::{ReasonKind, RefusalReason};
use std::alloc::Global;
use ti_base::{Memory, Place};
use ti_lang::program::has_static;
use ti_syntax::Spelled;
use ti_syntax::tree::{Class, Field, Member, Method, Params, Tree};

// ---- one reason

/// Adds the reason if the test holds.
pub fn push_if(
    reasons: Vec<RefusalReason>,
    test: bool,
    place: Place,
    reason: NameReason,
) -> Result<Vec<RefusalReason>, Memory>
    ensures { IfOk result (λ v. v.items ≡ reasons.items ++ reason_if test place reason) }
{
    let mut found = reasons;
    if test {
        found.push(RefusalReason {
            place,
            kind: ReasonKind::Name(reason),
        })?;
    }
    Ok(found)
}

/// Whether there is a reason.
#[tactic(auto, using(crate::proofs::ReasonLaws::has_reason_is))]
pub fn has_reason(reasons: &[RefusalReason]) -> bool
    ensures { result ≡ has_reason reasons.now }
{
    !reasons.is_empty()
}

// ---- the same name elsewhere

fn scope_reason(is_later: bool) -> NameReason
    ensures { result ≡ scope_reason is_later }
{
    if is_later {
        NameReason::DeclaredLater
    } else {
        NameReason::OutOfScope
    }
}

// Adds the variables of this name among those of the method: they aren't in scope at this position.
fn push_variables(
    reasons: Vec<RefusalReason>,
    place: Place,
    name: &[u8],
    variables: &[DeclaredName<'_>],
) -> Result<Vec<RefusalReason>, Memory>
    ensures { IfOk result (λ v. v.items ≡ reasons.items ++ scope_reasons place name.now (map name_at_of variables.now)) }
{
    let mut found = reasons;
    for v in variables {
        let is_same = same_name(name, v.name);
        found = push_if(
            found,
            is_same,
            v.place,
            scope_reason(place.is_before(v.place)),
        )?;
    }
    Ok(found)
}

// Adds the parameter of `main`, if it has this name.
fn push_parameter(
    reasons: Vec<RefusalReason>,
    name: &[u8],
    params: &Params,
) -> Result<Vec<RefusalReason>, Memory>
    ensures { IfOk result (λ v. v.items ≡ reasons.items ++ parameter_reasons name.now (params_of params.now)) }
{
    match params {
        Params::MainArgs(at, own) => {
            let is_same = same_name(name, own.as_bytes());
            push_if(reasons, is_same, *at, NameReason::MainParameter)
        }
        Params::Typed(_) => Ok(reasons),
    }
}

// Adds a field, if it has this name.
fn push_field(
    alloc: Global,
    reasons: Vec<RefusalReason>,
    class: &Spelled,
    name: &[u8],
    field: &Field,
) -> Result<Vec<RefusalReason>, Memory>
    ensures { IfOk result (λ v. v.items ≡ reasons.items
        ++ reason_if (bytes_eq name.now field.now.name) field.now.place (why.FieldOf class.now)) }
{
    if !same_name(name, field.name.as_bytes()) {
        return Ok(reasons);
    }
    let class = class.copy(alloc)?;
    push_if(reasons, true, field.place, NameReason::FieldOf(class))
}

// Adds the fields of this name among the members of a class of that name.
fn push_fields(
    alloc: Global,
    reasons: Vec<RefusalReason>,
    class: &Spelled,
    name: &[u8],
    members: &[Member],
) -> Result<Vec<RefusalReason>, Memory>
    ensures { IfOk result (λ v. v.items ≡ reasons.items ++ fields_named class.now name.now (map member_of members.now)) }
{
    let mut found = reasons;
    for member in members {
        match member {
            Member::Field(field) => {
                found = push_field(alloc, found, class, name, field)?;
            }
            Member::Method(_) => {}
        }
    }
    Ok(found)
}

// Adds the fields of this name in all classes.
fn push_all_fields(
    alloc: Global,
    reasons: Vec<RefusalReason>,
    name: &[u8],
    classes: &[Class],
) -> Result<Vec<RefusalReason>, Memory>
    ensures { IfOk result (λ v. v.items ≡ reasons.items ++ fields_named_in name.now (map class_of classes.now)) }
{
    let mut found = reasons;
    for class in classes {
        found = push_fields(alloc, found, &class.name, name, &class.members)?;
    }
    Ok(found)
}

fn method_reason(is_static: bool, class: Spelled) -> NameReason
    ensures { result ≡ method_reason is_static class }
{
    if is_static {
        NameReason::StaticMethodOf(class)
    } else {
        NameReason::MethodOf(class)
    }
}

// Adds a method, if it has this name.
fn push_method(
    alloc: Global,
    reasons: Vec<RefusalReason>,
    class: &Spelled,
    name: &[u8],
    method: &Method,
) -> Result<Vec<RefusalReason>, Memory>
    ensures { IfOk result (λ v. v.items ≡ reasons.items
        ++ reason_if (bytes_eq name.now method.now.name) method.now.place (method_reason (is_static (method_of method.now)) class.now)) }
{
    if !same_name(name, method.name.as_bytes()) {
        return Ok(reasons);
    }
    let class = class.copy(alloc)?;
    let reason = method_reason(has_static(&method.modifiers), class);
    push_if(reasons, true, method.place, reason)
}

// Adds the methods of this name among the members of a class of that name.
fn push_methods(
    alloc: Global,
    reasons: Vec<RefusalReason>,
    class: &Spelled,
    name: &[u8],
    members: &[Member],
) -> Result<Vec<RefusalReason>, Memory>
    ensures { IfOk result (λ v. v.items ≡ reasons.items ++ methods_named class.now name.now (map member_of members.now)) }
{
    let mut found = reasons;
    for member in members {
        match member {
            Member::Field(_) => {}
            Member::Method(method) => {
                found = push_method(alloc, found, class, name, method)?;
            }
        }
    }
    Ok(found)
}

// Adds the methods of this name in all classes.
fn push_all_methods(
    alloc: Global,
    reasons: Vec<RefusalReason>,
    name: &[u8],
    classes: &[Class],
) -> Result<Vec<RefusalReason>, Memory>
    ensures { IfOk result (λ v. v.items ≡ reasons.items ++ methods_named_in name.now (map class_of classes.now)) }
{
    let mut found = reasons;
    for class in classes {
        found = push_methods(alloc, found, &class.name, name, &class.members)?;
    }
    Ok(found)
}

// Whether one of them has the name.
fn has_name_among(name: &[u8], names: &[DeclaredName<'_>]) -> bool
    ensures { result ≡ has_name_among name.now (map name_at_of names.now) }
{
    for d in names {
        if same_name(name, d.name) {
            return true;
        }
    }
    false
}

// ---- a use in a method

// A method of a source program, and a position in it.
#[derive(Clone, Copy)]
struct UsePlace<'a> {
    tree: &'a Tree,
    class: &'a Class,
    method: &'a Method,
    place: Place,
}

impl<'a> UsePlace<'a> {
    // Adds that the method around is static, if the name would need `this`.
    fn push_around(
        self,
        reasons: Vec<RefusalReason>,
        needs_this: bool,
    ) -> Result<Vec<RefusalReason>, Memory>
        ensures { IfOk result (λ v. v.items ≡ reasons.items
            ++ reason_if (is_static (method_around self.entry) && needs_this) (method_around self.entry).place why.StaticAround) }
    {
        let lacks = has_static(&self.method.modifiers) && needs_this;
        push_if(reasons, lacks, self.method.place, NameReason::StaticAround)
    }

    // Whether the class around has a field of this name.
    fn has_field(self, alloc: Global, name: &[u8]) -> Result<bool, Memory>
        ensures { IfOk result (λ b. b ≡ has_name_among name.now (fields_at (class_around self.entry).members)) }
    {
        let mut names = DeclaredNames {
            found: Vec::new(alloc),
        };
        names.add_fields(&self.class.members)?;
        Ok(has_name_among(name, &names.found))
    }

    // Whether the class around has a method of this name.
    fn has_method(self, alloc: Global, name: &[u8]) -> Result<bool, Memory>
        ensures { IfOk result (λ b. b ≡ has_name_among name.now (methods_at true (class_around self.entry).members)) }
    {
        let mut names = DeclaredNames {
            found: Vec::new(alloc),
        };
        names.add_methods(true, &self.class.members)?;
        Ok(has_name_among(name, &names.found))
    }

    // Where else a variable or a field of this name is.
    fn standing_variable(self, alloc: Global, name: &[u8]) -> Result<Vec<RefusalReason>, Memory>
        ensures { IfOk result (λ v. v.items ≡ standing_variable (text_around self.entry) (class_around self.entry)
            (method_around self.entry) self.entry.place name.now) }
    {
        let needs_this = self.has_field(alloc, name)?;
        let variables = variables_of(alloc, self.method)?;
        let found = push_variables(Vec::new(alloc), self.place, name, &variables)?;
        let found = push_parameter(found, name, &self.method.params)?;
        let found = push_all_fields(alloc, found, name, &self.tree.classes)?;
        self.push_around(found, needs_this)
    }

    // Where else a method of this name is.
    fn standing_method(self, alloc: Global, name: &[u8]) -> Result<Vec<RefusalReason>, Memory>
        ensures { IfOk result (λ v. v.items ≡ standing (text_around self.entry) (class_around self.entry)
            (method_around self.entry) self.entry.place name_sought.Method name.now) }
    {
        let needs_this = self.has_method(alloc, name)?;
        let found = push_all_methods(alloc, Vec::new(alloc), name, &self.tree.classes)?;
        self.push_around(found, needs_this)
    }

    // Where else the name is.
    fn standing(self, alloc: Global, used: NameUse<'a>) -> Result<Vec<RefusalReason>, Memory>
        ensures { IfOk result (λ v. v.items ≡ standing (text_around self.entry) (class_around self.entry)
            (method_around self.entry) self.entry.place used.entry.sought used.entry.name.now) }
    {
        match used.sought {
            SoughtName::Variable => self.standing_variable(alloc, used.name),
            SoughtName::BeforeDot => self.standing_variable(alloc, used.name),
            SoughtName::Method => self.standing_method(alloc, used.name),
            SoughtName::StaticMethod => {
                push_all_methods(alloc, Vec::new(alloc), used.name, &self.tree.classes)
            }
            SoughtName::StaticField => {
                push_all_fields(alloc, Vec::new(alloc), used.name, &self.tree.classes)
            }
            SoughtName::Class => Ok(Vec::new(alloc)),
            SoughtName::This => self.push_around(Vec::new(alloc), true),
        }
    }

    // ---- nearly the same spelling

    // The variables declared before the use, and the fields of `this`.
    fn variables_near(self, alloc: Global) -> Result<DeclaredNames<'a>, Memory>
        ensures { IfOk result (λ names. map name_at_of names.found.items ≡ variables_near (text_around self.entry)
            (class_around self.entry) (method_around self.entry) self.entry.place) }
    {
        let variables = variables_of(alloc, self.method)?;
        let mut names = DeclaredNames {
            found: Vec::new(alloc),
        };
        names.add_before(self.place, &variables)?;
        if !has_static(&self.method.modifiers) {
            names.add_fields(&self.class.members)?;
        }
        Ok(names)
    }

    // The names that could be meant.
    fn candidates(self, alloc: Global, used: NameUse<'a>) -> Result<DeclaredNames<'a>, Memory>
        ensures { IfOk result (λ names. map name_at_of names.found.items ≡ candidates (text_around self.entry)
            (class_around self.entry) (method_around self.entry) self.entry.place used.entry.sought used.entry.class.now) }
    {
        match used.sought {
            SoughtName::Variable => self.variables_near(alloc),
            SoughtName::BeforeDot => {
                let mut names = self.variables_near(alloc)?;
                names.add_classes(&self.tree.classes)?;
                Ok(names)
            }
            SoughtName::Method => {
                let mut names = DeclaredNames {
                    found: Vec::new(alloc),
                };
                let all = !has_static(&self.method.modifiers);
                names.add_methods(all, &self.class.members)?;
                Ok(names)
            }
            SoughtName::StaticMethod => {
                let mut names = DeclaredNames {
                    found: Vec::new(alloc),
                };
                names.add_static_methods(used.class, &self.tree.classes)?;
                Ok(names)
            }
            SoughtName::Class => {
                let mut names = DeclaredNames {
                    found: Vec::new(alloc),
                };
                names.add_classes(&self.tree.classes)?;
                Ok(names)
            }
            SoughtName::StaticField => Ok(DeclaredNames {
                found: Vec::new(alloc),
            }),
            SoughtName::This => Ok(DeclaredNames {
                found: Vec::new(alloc),
            }),
        }
    }

    // The reasons for a use: where else the name is, or else the nearest spellings.
    fn reasons(self, alloc: Global, used: NameUse<'a>) -> Result<Vec<RefusalReason>, Memory>
        ensures { IfOk result (λ v. v.items ≡ use_reasons (text_around self.entry) (class_around self.entry)
            (method_around self.entry) self.entry.place (Some (used_name_of used.entry))) }
    {
        let standing = self.standing(alloc, used)?;
        if has_reason(&standing) {
            return push_sought(standing, self.place, used.sought);
        }
        let names = self.candidates(alloc, used)?;
        let found = spellings(alloc, used.name, &names.found)?;
        push_sought(found, self.place, used.sought)
    }
}

// Adds those of the names that have nearly this spelling.
fn near_reasons(
    alloc: Global,
    two: bool,
    name: &[u8],
    names: &[DeclaredName<'_>],
) -> Result<Vec<RefusalReason>, Memory>
    ensures { IfOk result (λ v. v.items ≡ near_reasons two name.now (map name_at_of names.now)) }
{
    let mut found = Vec::new(alloc);
    for d in names {
        found = push_near(alloc, found, two, name, *d)?;
    }
    Ok(found)
}

// Adds a name, if it has nearly this spelling.
fn push_near(
    alloc: Global,
    reasons: Vec<RefusalReason>,
    two: bool,
    name: &[u8],
    declared: DeclaredName<'_>,
) -> Result<Vec<RefusalReason>, Memory>
    ensures { IfOk result (λ v. v.items ≡ reasons.items
        ++ reason_if (is_near two name.now declared.entry.name.now) declared.entry.place (why.NearSpelling declared.entry.name.now)) }
{
    if !is_near(two, name, declared.name) {
        return Ok(reasons);
    }
    let spelled = Spelled::new(declared.name.to_vec(alloc)?);
    push_if(
        reasons,
        true,
        declared.place,
        NameReason::NearSpelling(spelled),
    )
}

// Those that differ in one letter, or if there are none, those that differ in two.
fn spellings(
    alloc: Global,
    name: &[u8],
    names: &[DeclaredName<'_>],
) -> Result<Vec<RefusalReason>, Memory>
    ensures { IfOk result (λ v. v.items ≡ spellings name.now (map name_at_of names.now)) }
{
    let found = near_reasons(alloc, false, name, names)?;
    if has_reason(&found) {
        return Ok(found);
    }
    near_reasons(alloc, true, name, names)
}

// Adds what is sought at a position.
fn push_sought(
    reasons: Vec<RefusalReason>,
    place: Place,
    sought: SoughtName,
) -> Result<Vec<RefusalReason>, Memory>
    ensures { IfOk result (λ v. v.items ≡ reasons.items ++ sought_reason place sought) }
{
    push_if(reasons, true, place, NameReason::Sought(sought))
}

// ---- in a source program

// The reasons for a use in the type of a field.
fn type_reasons(
    alloc: Global,
    tree: &Tree,
    place: Place,
    used: NameUse<'_>,
) -> Result<Vec<RefusalReason>, Memory>
    ensures { IfOk result (λ v. v.items ≡ type_reasons (tree_of tree.now) place (Some (used_name_of used.entry))) }
{
    let mut names = DeclaredNames {
        found: Vec::new(alloc),
    };
    names.add_classes(&tree.classes)?;
    let found = spellings(alloc, used.name, &names.found)?;
    push_sought(found, place, used.sought)
}

fn field_reasons(
    alloc: Global,
    tree: &Tree,
    place: Place,
    field: &Field,
) -> Result<Vec<RefusalReason>, Memory>
    ensures { IfOk result (λ v. v.items ≡ type_reasons (tree_of tree.now) place
        (use_in_type place (type_tree_of field.now.ty))) }
{
    match use_in_type(place, &field.ty) {
        Some(used) => type_reasons(alloc, tree, place, used),
        None => Ok(Vec::new(alloc)),
    }
}

fn method_reasons(
    alloc: Global,
    tree: &Tree,
    class: &Class,
    place: Place,
    method: &Method,
) -> Result<Vec<RefusalReason>, Memory>
    ensures { IfOk result (λ v. v.items ≡ use_reasons (tree_of tree.now) (class_of class.now) (method_of method.now) place
        (use_in_method place (method_of method.now))) }
{
    match use_in_method(place, method) {
        Some(used) => {
            let around = UsePlace {
                tree,
                class,
                method,
                place,
            };
            around.reasons(alloc, used)
        }
        None => Ok(Vec::new(alloc)),
    }
}

fn member_reasons(
    alloc: Global,
    tree: &Tree,
    class: &Class,
    place: Place,
    member: &Member,
) -> Result<Vec<RefusalReason>, Memory>
    ensures { IfOk result (λ v. v.items ≡ member_reasons (tree_of tree.now) (class_of class.now) place (member_of member.now)) }
{
    match member {
        Member::Field(field) => field_reasons(alloc, tree, place, field),
        Member::Method(method) => method_reasons(alloc, tree, class, place, method),
    }
}

fn unknown_among(
    alloc: Global,
    tree: &Tree,
    class: &Class,
    place: Place,
    members: &[Member],
) -> Result<Vec<RefusalReason>, Memory>
    ensures { IfOk result (λ v. v.items ≡ unknown_among (tree_of tree.now) (class_of class.now) place
        (map member_of members.now)) }
{
    for member in members {
        let found = member_reasons(alloc, tree, class, place, member)?;
        if has_reason(&found) {
            return Ok(found);
        }
    }
    Ok(Vec::new(alloc))
}

fn unknown_in(
    alloc: Global,
    tree: &Tree,
    place: Place,
    classes: &[Class],
) -> Result<Vec<RefusalReason>, Memory>
    ensures { IfOk result (λ v. v.items ≡ unknown_in (tree_of tree.now) place (map class_of classes.now)) }
{
    for class in classes {
        let found = unknown_among(alloc, tree, class, place, &class.members)?;
        if has_reason(&found) {
            return Ok(found);
        }
    }
    Ok(Vec::new(alloc))
}

/// The reasons why nothing of the name at this position can be used there.
pub fn unknown_reasons(
    alloc: Global,
    tree: &Tree,
    place: Place,
) -> Result<Vec<RefusalReason>, Memory>
    ensures { IfOk result (λ v. v.items ≡ unknown_reasons (tree_of tree.now) place) }
{
    unknown_in(alloc, tree, place, &tree.classes)
}
