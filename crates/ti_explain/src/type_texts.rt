// How a type is written in a program.
ghost use Rattle.std.specs.Prelude.{◌≡◌, ◌++◌, map, slice_get, codes, IfOk};
ghost use Rattle.std.specs.Option.{option_map};
ghost use Rattle.ti_syntax.specs.Trees.Text.{tree_of};
ghost use Rattle.ti_syntax.specs.Trees.Views.{class_of};
ghost use Rattle.ti_lang.specs.Program.Views.{value_type_of};
ghost use Rattle.ti_lang.specs.Typing.TyRef.{ty_view};
ghost use Rattle.ti_explain.specs.TypeTexts.{dims_text, local_text, class_name, base_text, brackets_text, type_text};

use std::alloc::Global;
use ti_base::Memory;
use ti_lang::program::Ty;
use ti_lang::typing::TyRef;
use ti_syntax::Spelled;
use ti_syntax::tree::{Class, Tree};

// The text with these bytes after it.
fn push_text(text: Vec<u8>, bytes: &[u8]) -> Result<Vec<u8>, Memory>
    ensures { IfOk result (λ v. v.items ≡ text.items ++ bytes.now) }
{
    let mut text = text;
    text.extend_from_slice(bytes)?;
    Ok(text)
}

fn dims_text(dims: u8) -> &'static [u8]
    ensures { result.now ≡ dims_text dims }
{
    if dims == 1 {
        b"1"
    } else if dims == 2 {
        b"2"
    } else if dims == 3 {
        b"3"
    } else {
        b"N"
    }
}

fn local_text(local: bool) -> &'static [u8]
    ensures { result.now ≡ local_text local }
{
    if local { b" local" } else { b"" }
}

/// The class of this number.
#[tactic(auto, using(crate::proofs::ClassLookups::class_lookups))]
pub fn class_at(classes: &[Class], number: usize) -> Option<&Class>
    ensures { option_map (λ c. class_of c.now) result ≡ slice_get (map class_of classes.now) number }
{
    if number < classes.len() {
        Some(&classes[number])
    } else {
        None
    }
}

// The name of the class of this number; empty if there is no such class.
fn class_name(tree: &Tree, class: u32) -> &[u8]
    ensures { result.now ≡ class_name (tree_of tree.now) class }
{
    match class_at(&tree.classes, class as usize) {
        Some(class) => class.name.as_bytes(),
        None => b"",
    }
}

// Adds the name of a type with a number of dimensions.
fn push_dims(text: Vec<u8>, name: &[u8], dims: u8) -> Result<Vec<u8>, Memory>
    ensures { IfOk result (λ v. v.items ≡ text.items ++ (name.now ++ (dims_text dims ++ codes ">"))) }
{
    let text = push_text(text, name)?;
    let text = push_text(text, dims_text(dims))?;
    push_text(text, b">")
}

// Adds a type without the brackets of grids.
fn push_base(text: Vec<u8>, tree: &Tree, ty: &Ty) -> Result<Vec<u8>, Memory>
    ensures { IfOk result (λ v. v.items ≡ text.items ++ base_text (tree_of tree.now) (value_type_of ty.now)) }
{
    match ty {
        Ty::Int => push_text(text, b"int"),
        Ty::Long => push_text(text, b"long"),
        Ty::Bool => push_text(text, b"boolean"),
        Ty::Pt(n) => push_dims(text, b"Point<", *n),
        Ty::Rc(n) => push_dims(text, b"RectDomain<", *n),
        Ty::Dm(n) => push_dims(text, b"Domain<", *n),
        Ty::Region => push_text(text, b"SharedRegion"),
        Ty::Class { class, local } => {
            let text = push_text(text, class_name(tree, *class))?;
            push_text(text, local_text(*local))
        }
        Ty::Grid { elem, .. } => push_base(text, tree, elem),
        Ty::Null => push_text(text, b"null"),
        Ty::Void => push_text(text, b"void"),
    }
}

// Adds the brackets of grids, the outermost first.
fn push_brackets(text: Vec<u8>, ty: &Ty) -> Result<Vec<u8>, Memory>
    ensures { IfOk result (λ v. v.items ≡ text.items ++ brackets_text (value_type_of ty.now)) }
{
    match ty {
        Ty::Grid { elem, dim, local } => {
            let text = push_text(text, b" [")?;
            let text = push_text(text, dims_text(*dim))?;
            let text = push_text(text, b"d]")?;
            let text = push_text(text, local_text(*local))?;
            push_brackets(text, elem)
        }
        Ty::Int
        | Ty::Long
        | Ty::Bool
        | Ty::Pt(_)
        | Ty::Rc(_)
        | Ty::Dm(_)
        | Ty::Region
        | Ty::Class { .. }
        | Ty::Null
        | Ty::Void => Ok(text),
    }
}

/// A type as it is written, with the names of the classes of this tree.
pub fn type_text(alloc: Global, tree: &Tree, ty: TyRef<'_>) -> Result<Spelled, Memory>
    ensures { IfOk result (λ s. s ≡ type_text (tree_of tree.now) (ty_view ty.entry)) }
{
    let ty = ty.copy(alloc)?;
    let text = push_base(Vec::new(alloc), tree, &ty)?;
    Ok(Spelled::new(push_brackets(text, &ty)?))
}
