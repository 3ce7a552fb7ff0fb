// Borrowed types turned into owned ones.
ghost use Rattle.std.specs.Prelude.{◌≡◌, IfOk};
ghost use Rattle.ti_lang.specs.Program.Views.{value_type_of};
ghost use Rattle.ti_lang.specs.Typing.Alike.{erase_dims};
ghost use Rattle.ti_lang.specs.Typing.TyRef.{ty_view, erase_dims_if};

use super::ty_ref::TyRef;
use crate::program::Ty;
use std::alloc::Global;
use ti_base::Memory;

/// A number of dimensions as it is stored in a type. One above 255 is reported as out of memory; no type of a program has one.
fn dim_to_u8(dim: usize) -> Result<u8, Memory>
    ensures { IfOk result (λ n. n ≡ dim) }
{
    match u8::try_from(dim) {
        Ok(dim) => Ok(dim),
        Err(_) => Err(Memory),
    }
}

/// A copy of the type in which each number of dimensions is 1.
fn copy_ones(alloc: Global, ty: &Ty) -> Result<Ty, Memory>
    ensures { IfOk result (λ t. value_type_of t ≡ erase_dims (value_type_of ty.now)) }
{
    match ty {
        Ty::Pt(_) => Ok(Ty::Pt(1)),
        Ty::Rc(_) => Ok(Ty::Rc(1)),
        Ty::Dm(_) => Ok(Ty::Dm(1)),
        Ty::Grid {
            elem,
            dim: _,
            local,
        } => {
            let elem = Box::new(alloc, copy_ones(alloc, elem)?)?;
            Ok(Ty::Grid {
                elem,
                dim: 1,
                local: *local,
            })
        }
        Ty::Int => Ok(Ty::Int),
        Ty::Long => Ok(Ty::Long),
        Ty::Bool => Ok(Ty::Bool),
        Ty::Region => Ok(Ty::Region),
        Ty::Class { class, local } => Ok(Ty::Class {
            class: *class,
            local: *local,
        }),
        Ty::Null => Ok(Ty::Null),
        Ty::Void => Ok(Ty::Void),
    }
}

/// A copy of an element type; in it, each number of dimensions is 1 if `any_dim` holds.
fn copy_elements(alloc: Global, ty: &Ty, any_dim: bool) -> Result<Ty, Memory>
    ensures { IfOk result (λ t. value_type_of t ≡ erase_dims_if any_dim (value_type_of ty.now)) }
{
    if any_dim {
        copy_ones(alloc, ty)
    } else {
        ty.copy(alloc)
    }
}

impl<'p> TyRef<'p> {
    /// An owned copy. A number of dimensions above 255 is reported as out of memory; no type of a program has one.
    pub fn copy(self, alloc: Global) -> Result<Ty, Memory>
        ensures { IfOk result (λ t. value_type_of t ≡ ty_view self.entry) }
    {
        match self {
            TyRef::Int => Ok(Ty::Int),
            TyRef::Long => Ok(Ty::Long),
            TyRef::Bool => Ok(Ty::Bool),
            TyRef::Pt(dim) => Ok(Ty::Pt(dim_to_u8(dim)?)),
            TyRef::Rc(dim) => Ok(Ty::Rc(dim_to_u8(dim)?)),
            TyRef::Dm(dim) => Ok(Ty::Dm(dim_to_u8(dim)?)),
            TyRef::Region => Ok(Ty::Region),
            TyRef::Class { class, local } => Ok(Ty::Class { class, local }),
            TyRef::Grid {
                elem,
                any_dim,
                dim,
                local,
            } => {
                let dim = dim_to_u8(dim)?;
                let elem = Box::new(alloc, copy_elements(alloc, elem, any_dim)?)?;
                Ok(Ty::Grid { elem, dim, local })
            }
            TyRef::Null => Ok(Ty::Null),
            TyRef::Void => Ok(Ty::Void),
        }
    }
}
