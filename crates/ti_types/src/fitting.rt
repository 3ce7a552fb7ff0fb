// Assignability of types.
ghost use Rattle.std.specs.Prelude.{◌≡◌};
ghost use Rattle.std.specs.Option.{option_map};
ghost use Rattle.ti_lang.specs.Typing.Fits.{becomes, fits, casts};
ghost use Rattle.ti_lang.specs.Typing.Kinds.{where_true};
ghost use Rattle.ti_lang.specs.Typing.TyRef.{ty_view};

use ti_lang::typing::TyRef;

fn widens_to(ty: TyRef, target: TyRef) -> bool
    ensures { result ≡ becomes (ty_view ty.entry) (ty_view target.entry) }
{
    match (ty, target) {
        (TyRef::Int, TyRef::Long) => true,
        (TyRef::Rc(n), TyRef::Dm(m)) => n == m,
        _ => false,
    }
}

/// Whether a value of type `ty` can be assigned to a target of type `target`.
pub fn is_assignable<'p>(ty: TyRef<'p>, target: TyRef<'p>) -> bool
    ensures { result ≡ fits (ty_view ty.entry) (ty_view target.entry) }
{
    ty.same(target)
        || widens_to(ty, target)
        || ty.is_reference() && ty.with_local(false).same(target)
        || ty.is_null() && target.is_reference()
}

/// Whether a value of type `ty` can be cast to type `to`.
pub fn is_castable<'p>(to: TyRef<'p>, ty: TyRef<'p>) -> bool
    ensures { result ≡ casts (ty_view to.entry) (ty_view ty.entry) }
{
    to.with_local(false).same(ty.with_local(false))
        || to.is_reference() && ty.is_null()
        || to.is_whole() && ty.is_whole()
}

/// The type, if the test holds.
pub fn where_true<'p>(test: bool, ty: TyRef<'p>) -> Option<TyRef<'p>>
    ensures { option_map ty_view result ≡ where_true test (ty_view ty.entry) }
{
    if test { Some(ty) } else { None }
}
