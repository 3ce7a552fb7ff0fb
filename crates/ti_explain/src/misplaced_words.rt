// Why a keyword of a type or of a declaration can't be where it is: the one at the position of the refusal.
ghost use Rattle.std.specs.Prelude.{◌≡◌, map, true, false};
ghost use Rattle.std.specs.Option.{option_map, option_or};
ghost use Rattle.ti_syntax.specs.Trees.Views.{grid_of};
ghost use Rattle.ti_lang.specs.Program.Views.{value_type_of, type_use_of, expression_of, initial_of, statement_of, numbered_field_of, numbered_class_of, numbered_param_of, numbered_params_of, numbered_result_of, numbered_method_of};
ghost use Rattle.ti_lang.specs.Typing.Kinds.{is_object};
ghost use Rattle.ti_lang.specs.Typing.Declared.{is_static_method};
ghost use Rattle.ti_rules.specs.Broken.Words.{base_of, is_grid_type};
ghost use Rattle.ti_explain.specs.MisplacedWords.{qualifier_at, base_defect, grid_defect, defect_in_grids, defect_in_type, modifier_at, field_defect, method_defect, class_defect, defect_in_field, defect_in_fields, defect_in_class, defect_in_classes, defect_in_result, defect_among_params, defect_in_params, defect_in_head, defect_in_initial, defect_in_statement, defect_in_cast};

use crate::type_reason::WordDefect;
use ti_base::Place;
use ti_lang::program::{
    Class, Expr, Field, Init, Method, Param, Params, ResultType, Stmt, Ty, TypeUse, has_static,
};
use ti_single::{deref_init, deref_type};
use ti_syntax::tree::{Brackets, Modifier, ModifierWord, Qualifier, QualifierWord};

/// The first one, if there is one, else the second.
pub fn first_defect(first: Option<WordDefect>, second: Option<WordDefect>) -> Option<WordDefect>
    ensures { result ≡ option_or first second }
{
    match first {
        Some(found) => Some(found),
        None => second,
    }
}

// ---- types

fn qualifier_at(place: Place, words: &[Qualifier]) -> Option<QualifierWord>
    ensures { result ≡ qualifier_at place words.now }
{
    for word in words {
        if place == word.place {
            return Some(word.word);
        }
    }
    None
}

// The innermost element type of a grid; any other type itself.
fn base_of(ty: &Ty) -> &Ty
    ensures { value_type_of result.now ≡ base_of (value_type_of ty.now) }
{
    match ty {
        Ty::Grid { elem, .. } => base_of(elem),
        Ty::Int
        | Ty::Long
        | Ty::Bool
        | Ty::Pt(_)
        | Ty::Rc(_)
        | Ty::Dm(_)
        | Ty::Region
        | Ty::Class { .. }
        | Ty::Null
        | Ty::Void => ty,
    }
}

fn is_object(ty: &Ty) -> bool
    ensures { result ≡ is_object (value_type_of ty.now) }
{
    matches!(ty, Ty::Class { .. })
}

fn is_grid(ty: &Ty) -> bool
    ensures { result ≡ is_grid_type (value_type_of ty.now) }
{
    matches!(ty, Ty::Grid { .. })
}

// Why a qualifier can't be on the base of this type.
fn base_defect(may_be_single: bool, ty: &Ty, word: QualifierWord) -> WordDefect
    ensures { result ≡ base_defect may_be_single (value_type_of ty.now) word }
{
    let of_objects = is_object(base_of(ty));
    match word {
        QualifierWord::Single => {
            if of_objects || is_grid(ty) {
                WordDefect::SingleReference
            } else if may_be_single {
                WordDefect::Once
            } else {
                WordDefect::SingleThere
            }
        }
        QualifierWord::Local => {
            if of_objects {
                WordDefect::Once
            } else {
                WordDefect::LocalValue
            }
        }
    }
}

fn base_word(may_be_single: bool, ty: &Ty, word: Option<QualifierWord>) -> Option<WordDefect>
    ensures { result ≡ option_map (base_defect may_be_single (value_type_of ty.now)) word }
{
    match word {
        Some(word) => Some(base_defect(may_be_single, ty, word)),
        None => None,
    }
}

fn grid_word(word: Option<QualifierWord>) -> Option<WordDefect>
    ensures { result ≡ option_map grid_defect word }
{
    match word {
        Some(QualifierWord::Single) => Some(WordDefect::SingleReference),
        Some(QualifierWord::Local) => Some(WordDefect::Once),
        None => None,
    }
}

fn defect_in_grids(place: Place, grids: &[Brackets]) -> Option<WordDefect>
    ensures { result ≡ defect_in_grids place (map grid_of grids.now) }
{
    for grid in grids {
        if let Some(found) = grid_word(qualifier_at(place, &grid.qualifiers)) {
            return Some(found);
        }
    }
    None
}

fn defect_in_type(may_be_single: bool, place: Place, ty: &TypeUse) -> Option<WordDefect>
    ensures { result ≡ defect_in_type may_be_single place (type_use_of ty.now) }
{
    let own = base_word(may_be_single, &ty.ty, qualifier_at(place, &ty.qualifiers));
    first_defect(own, defect_in_grids(place, &ty.grids))
}

// ---- modifiers

fn modifier_at(place: Place, words: &[Modifier]) -> Option<ModifierWord>
    ensures { result ≡ modifier_at place words.now }
{
    for word in words {
        if place == word.place {
            return Some(word.word);
        }
    }
    None
}

fn field_word(word: Option<ModifierWord>) -> Option<WordDefect>
    ensures { result ≡ option_map field_defect word }
{
    match word {
        Some(ModifierWord::Single) => Some(WordDefect::SingleField),
        Some(ModifierWord::Static) => Some(WordDefect::StaticField),
        Some(_) => Some(WordDefect::Once),
        None => None,
    }
}

fn method_word(is_static: bool, word: Option<ModifierWord>) -> Option<WordDefect>
    ensures { result ≡ option_map (method_defect is_static) word }
{
    match word {
        Some(ModifierWord::Single) => {
            if is_static {
                Some(WordDefect::Once)
            } else {
                Some(WordDefect::SingleInstance)
            }
        }
        Some(_) => Some(WordDefect::Once),
        None => None,
    }
}

fn class_word(word: Option<ModifierWord>) -> Option<WordDefect>
    ensures { result ≡ option_map class_defect word }
{
    match word {
        Some(_) => Some(WordDefect::Once),
        None => None,
    }
}

// ---- classes

fn defect_in_field(place: Place, field: &Field) -> Option<WordDefect>
    ensures { result ≡ defect_in_field place (numbered_field_of field.now) }
{
    let own = field_word(modifier_at(place, &field.modifiers));
    first_defect(own, defect_in_type(false, place, &field.ty))
}

fn defect_in_fields(place: Place, fields: &[Field]) -> Option<WordDefect>
    ensures { result ≡ defect_in_fields place (map numbered_field_of fields.now) }
{
    for field in fields {
        if let Some(found) = defect_in_field(place, field) {
            return Some(found);
        }
    }
    None
}

fn defect_in_class(place: Place, class: &Class) -> Option<WordDefect>
    ensures { result ≡ defect_in_class place (numbered_class_of class.now) }
{
    let own = class_word(modifier_at(place, &class.modifiers));
    first_defect(own, defect_in_fields(place, &class.fields))
}

/// Why the keyword at this position in the declaration of a class or a field can't be there.
pub fn defect_in_classes(place: Place, classes: &[Class]) -> Option<WordDefect>
    ensures { result ≡ defect_in_classes place (map numbered_class_of classes.now) }
{
    for class in classes {
        if let Some(found) = defect_in_class(place, class) {
            return Some(found);
        }
    }
    None
}

// ---- methods

fn defect_in_result(place: Place, given: &ResultType) -> Option<WordDefect>
    ensures { result ≡ defect_in_result place (numbered_result_of given.now) }
{
    match given {
        ResultType::Void => None,
        ResultType::Typed(ty) => defect_in_type(true, place, ty),
    }
}

fn defect_among_params(is_single: bool, place: Place, params: &[Param]) -> Option<WordDefect>
    ensures { result ≡ defect_among_params is_single place (map numbered_param_of params.now) }
{
    for param in params {
        if let Some(found) = defect_in_type(is_single, place, &param.ty) {
            return Some(found);
        }
    }
    None
}

fn defect_in_params(is_single: bool, place: Place, params: &Params) -> Option<WordDefect>
    ensures { result ≡ defect_in_params is_single place (numbered_params_of params.now) }
{
    match params {
        Params::MainArgs => None,
        Params::Typed(params) => defect_among_params(is_single, place, params),
    }
}

fn is_static_method(method: &Method) -> bool
    ensures { result ≡ is_static_method (numbered_method_of method.now) }
{
    has_static(&method.modifiers)
}

// Why the modifier at this position of a method can't be there.
fn defect_in_modifiers(place: Place, method: &Method) -> Option<WordDefect>
    ensures { result ≡ option_map (method_defect (is_static_method (numbered_method_of method.now)))
        (modifier_at place (numbered_method_of method.now).modifiers) }
{
    let word = modifier_at(place, &method.modifiers);
    method_word(is_static_method(method), word)
}

/// Why the keyword at this position in the head of a method can't be there.
pub fn defect_in_head(place: Place, method: &Method) -> Option<WordDefect>
    ensures { result ≡ defect_in_head place (numbered_method_of method.now) }
{
    let own = defect_in_modifiers(place, method);
    let given = defect_in_result(place, &method.result);
    let params = defect_in_params(method.single, place, &method.params);
    first_defect(own, first_defect(given, params))
}

// ---- statements

fn defect_in_initial(place: Place, value: &Init) -> Option<WordDefect>
    ensures { result ≡ defect_in_initial place (initial_of value.now) }
{
    match value {
        Init::NewGrid { element, .. } => defect_in_type(false, place, element),
        Init::Value(_) | Init::NewRegion(_) | Init::NewObject { .. } | Init::Broadcast { .. } =>
            None,
    }
}

/// Why the keyword at this position in the types of a statement can't be there; without those of casts.
#[tactic(auto, using(ti_lang::proofs::Lemmas::program_bridges))]
pub fn defect_in_statement(place: Place, stmt: &Stmt) -> Option<WordDefect>
    ensures { result ≡ defect_in_statement place (statement_of stmt.now) }
{
    match stmt {
        Stmt::Declare { ty, value, .. } => first_defect(
            defect_in_type(true, place, ty),
            defect_in_initial(place, deref_init(value)),
        ),
        Stmt::Assign { value, .. } => defect_in_initial(place, deref_init(value)),
        // For the prover: the model has two forms of `if`, so the match is split.
        Stmt::If { otherwise, .. } => match otherwise {
            Some(_) => None,
            None => None,
        },
        _ => None,
    }
}

/// Why the keyword at this position in a cast can't be there.
#[tactic(auto, using(ti_lang::proofs::Lemmas::program_bridges))]
pub fn defect_in_cast(place: Place, found: Option<&Expr>) -> Option<WordDefect>
    ensures { result ≡ defect_in_cast place (option_map (λ e. expression_of e.now) found.entry) }
{
    match found {
        Some(Expr::Cast { to, .. }) => defect_in_type(false, place, deref_type(to)),
        _ => None,
    }
}
