// Lookup of the fields and methods of a program and of the variables in scope, by number or by name.
ghost use Rattle.std.specs.Prelude.{◌≡◌, ◌==◌, ◌&&◌, false, not, map, find, slice_get};
ghost use Rattle.std.specs.Option.{option_map, option_and_then};
ghost use Rattle.ti_lang.specs.Members.{only_if};
ghost use Rattle.ti_lang.specs.Program.Types.{Class as ClassType};
ghost use Rattle.ti_lang.specs.Program.Classes.{NumberedField, NumberedMethod};
ghost use Rattle.ti_lang.specs.Program.Scope.{contents_of, in_scope_of};
ghost use Rattle.ti_lang.specs.Program.Views.{program_of, variable_of, value_type_of, numbered_field_of, numbered_class_of, numbered_method_of};
ghost use Rattle.ti_lang.specs.Typing.Kinds.{as_global};
ghost use Rattle.ti_lang.specs.Typing.Declared.{in_scope, variable_type, fields_of_class, field_type, named_field_type, is_static_method, instance_method};
ghost use Rattle.ti_lang.specs.Typing.Expressions.{select_type};
ghost use Rattle.ti_lang.specs.Typing.Called.{method_behind};
ghost use Rattle.ti_lang.specs.Typing.TyRef.{ty_view};

use super::ty_ref::TyRef;
use crate::program::{
    Class, Declared, Field, InScope, Method, ProgramData, Scope, Variable, has_static,
};

/// The variable in scope of this number.
fn find_in_scope<'a>(scope: &'a Scope, number: u32) -> Option<&'a InScope>
    ensures { option_map (λ v. in_scope_of v.now) result ≡ in_scope (contents_of scope.now) number }
{
    for v in &scope.variables {
        if v.number == number {
            return Some(v);
        }
    }
    None
}

/// The type of a variable: the declared one; for a foreach variable, that in the scope, and None if it isn't in scope.
pub fn variable_type<'a>(scope: &'a Scope, variable: &'a Variable) -> Option<TyRef<'a>>
    ensures { option_map ty_view result ≡ variable_type (contents_of scope.now) (variable_of variable.now) }
{
    match &variable.declared {
        Declared::Typed { single: _, ty } => Some(TyRef::of(ty, false)),
        Declared::Foreach => match find_in_scope(scope, variable.number) {
            Some(variable) => Some(TyRef::of(&variable.ty, false)),
            None => None,
        },
    }
}

/// The type of `this`, which is a global reference; None if there is no `this`.
pub fn this_type<'a>(this: Option<u32>) -> Option<TyRef<'a>>
    ensures { option_map ty_view result ≡ option_map (λ c. ClassType c false) this }
{
    match this {
        Some(class) => Some(TyRef::Class {
            class,
            local: false,
        }),
        None => None,
    }
}

#[tactic(auto, using(crate::proofs::Elements::class_lookups))]
fn class_at(classes: &[Class], number: usize) -> Option<&Class>
    ensures { option_map (λ c. numbered_class_of c.now) result ≡ slice_get (map numbered_class_of classes.now) number }
{
    if number < classes.len() {
        Some(&classes[number])
    } else {
        None
    }
}

/// The fields of a class; none if there is no such class.
fn fields_of(program: &ProgramData, class: u32) -> &[Field]
    ensures { map numbered_field_of result.now ≡ fields_of_class (program_of program.now) class }
{
    match class_at(&program.classes, class as usize) {
        Some(class) => &class.fields,
        None => &[],
    }
}

#[tactic(auto, using(crate::proofs::Elements::field_lookups))]
fn field_at(fields: &[Field], number: usize) -> Option<&Field>
    ensures { option_map (λ f. numbered_field_of f.now) result ≡ slice_get (map numbered_field_of fields.now) number }
{
    if number < fields.len() {
        Some(&fields[number])
    } else {
        None
    }
}

/// The first field of this name in a class.
fn field_named(program: &ProgramData, class: u32, name: u32) -> Option<&Field>
    ensures { option_map (λ f. numbered_field_of f.now) result ≡ find (λ (f : NumberedField). f.name == name)
        (fields_of_class (program_of program.now) class) }
{
    match program.first_field(class, name) {
        Some(number) => field_at(fields_of(program, class), number),
        None => None,
    }
}

/// The declared type of a field, by the number of its class and its own.
pub fn field_type<'a>(program: &'a ProgramData, class: u32, field: u32) -> Option<TyRef<'a>>
    ensures { option_map ty_view result ≡ field_type (program_of program.now) class field }
{
    match field_at(fields_of(program, class), field as usize) {
        Some(field) => Some(TyRef::of(&field.ty.ty, false)),
        None => None,
    }
}

/// The type of a field of `this`, by its number; it is global, since `this` is a global reference.
pub fn own_field_type<'a>(
    program: &'a ProgramData,
    this: Option<u32>,
    field: u32,
) -> Option<TyRef<'a>>
    ensures { option_map ty_view result ≡ option_map as_global (option_and_then (λ c. field_type (program_of program.now) c field) this) }
{
    match this {
        Some(class) => match field_type(program, class, field) {
            Some(ty) => Some(ty.with_local(false)),
            None => None,
        },
        None => None,
    }
}

/// The declared type of the first field of this name in a class.
#[tactic(auto, unfolding(crate::specs::Typing::Declared::named_field_type))]
pub fn named_field_type<'a>(program: &'a ProgramData, class: u32, name: u32) -> Option<TyRef<'a>>
    ensures { option_map ty_view result ≡ named_field_type (program_of program.now) class name }
{
    match field_named(program, class, name) {
        Some(field) => Some(TyRef::of(&field.ty.ty, false)),
        None => None,
    }
}

/// The type of `x.f`, from the type of `x`; None if `x` isn't an object of a class with this field.
pub fn select_type<'a>(
    program: &'a ProgramData,
    receiver: TyRef<'a>,
    name: u32,
) -> Option<TyRef<'a>>
    ensures { option_map ty_view result ≡ select_type (program_of program.now) (ty_view receiver.entry) name }
{
    match receiver {
        TyRef::Class { class, local } => match named_field_type(program, class, name) {
            Some(ty) => Some(ty.read_through(local)),
            None => None,
        },
        _ => None,
    }
}

#[tactic(auto, using(crate::proofs::Elements::method_lookups))]
fn method_at(methods: &[Method], number: usize) -> Option<&Method>
    ensures { option_map (λ m. numbered_method_of m.now) result ≡ slice_get (map numbered_method_of methods.now) number }
{
    if number < methods.len() {
        Some(&methods[number])
    } else {
        None
    }
}

/// The method of this number.
pub fn method(program: &ProgramData, number: u32) -> Option<&Method>
    ensures { option_map (λ m. numbered_method_of m.now) result ≡ slice_get (program_of program.now).methods number }
{
    method_at(&program.methods, number as usize)
}

/// The first method of this name in a class.
fn method_named(program: &ProgramData, class: u32, name: u32) -> Option<&Method>
    ensures { option_map (λ m. numbered_method_of m.now) result ≡ find (λ (m : NumberedMethod). (m.class == class) && (m.name == name))
        (program_of program.now).methods }
{
    match program.first_method(class, name) {
        Some(number) => method_at(&program.methods, number),
        None => None,
    }
}

fn is_instance(candidate: &Method) -> bool
    ensures { result ≡ not (is_static_method (numbered_method_of candidate.now)) }
{
    !has_static(&candidate.modifiers)
}

/// The method, if it is an instance method.
fn only_instance(found: Option<&Method>) -> Option<&Method>
    ensures { option_map (λ found. numbered_method_of found.now) result ≡ only_if (λ (found : NumberedMethod). not (is_static_method found))
        (option_map (λ found. numbered_method_of found.now) found.entry) }
{
    match found {
        Some(found) => if is_instance(found) {
            Some(found)
        } else {
            None
        },
        None => None,
    }
}

/// The first method of this name in a class, if that is an instance method.
#[tactic(auto, unfolding(crate::specs::Typing::Declared::instance_method))]
pub fn instance_method(program: &ProgramData, class: u32, name: u32) -> Option<&Method>
    ensures { option_map (λ m. numbered_method_of m.now) result ≡ instance_method (program_of program.now) class name }
{
    only_instance(method_named(program, class, name))
}

/// The instance method of this name on a receiver of type `receiver`; None if that is no object.
pub fn method_behind<'a>(
    program: &'a ProgramData,
    receiver: TyRef<'a>,
    name: u32,
) -> Option<&'a Method>
    ensures { option_map (λ m. numbered_method_of m.now) result ≡ method_behind (program_of program.now) (ty_view receiver.entry) name }
{
    match receiver {
        TyRef::Class { class, local: _ } => instance_method(program, class, name),
        _ => None,
    }
}
