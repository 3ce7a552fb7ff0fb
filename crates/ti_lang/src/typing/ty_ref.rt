// Types as views that borrow element types from the program, so that typing doesn't allocate.
ghost use Rattle.std.specs.Prelude.{◌≡◌, if◌then◌else◌};
ghost use Rattle.ti_lang.specs.Program.Views.{value_type_of};
ghost use Rattle.ti_lang.specs.Typing.Kinds.{same_type, is_whole, is_null, is_void, is_reference, is_object, is_local, as_global, read_through, domain_dim};
ghost use Rattle.ti_lang.specs.Typing.Alike.{erase_dims, as_local};
ghost use Rattle.ti_lang.specs.Typing.TyRef.{ty_view, erase_dims_if};

use crate::program::Ty;

/// A type. The element type of a grid is borrowed; if `any_dim` holds, each number of dimensions in it counts as 1.
#[derive(Clone, Copy)]
pub enum TyRef<'p> {
    Int,
    Long,
    Bool,
    Pt(usize),
    Rc(usize),
    Dm(usize),
    Region,
    Class {
        class: u32,
        local: bool,
    },
    Grid {
        elem: &'p Ty,
        any_dim: bool,
        dim: usize,
        local: bool,
    },
    Null,
    Void,
}

/// Whether two element types are equal, with each number of dimensions in the first counted as 1 if `left_any` holds, and in the second if
/// `right_any` does.
pub fn same_elements(left: &Ty, left_any: bool, right: &Ty, right_any: bool) -> bool
    ensures { result ≡ same_type (erase_dims_if left_any (value_type_of left.now)) (erase_dims_if right_any (value_type_of right.now)) }
{
    match (left, right) {
        (Ty::Int, Ty::Int) => true,
        (Ty::Long, Ty::Long) => true,
        (Ty::Bool, Ty::Bool) => true,
        (Ty::Pt(n), Ty::Pt(m)) => dim(*n, left_any) == dim(*m, right_any),
        (Ty::Rc(n), Ty::Rc(m)) => dim(*n, left_any) == dim(*m, right_any),
        (Ty::Dm(n), Ty::Dm(m)) => dim(*n, left_any) == dim(*m, right_any),
        (Ty::Region, Ty::Region) => true,
        (Ty::Class { class: c, local: a }, Ty::Class { class: d, local: b }) => *c == *d
            && *a == *b,
        (
            Ty::Grid {
                elem: left,
                dim: n,
                local: a,
            },
            Ty::Grid {
                elem: right,
                dim: m,
                local: b,
            },
        ) => same_elements(left, left_any, right, right_any)
            && dim(*n, left_any) == dim(*m, right_any)
            && *a == *b,
        (Ty::Null, Ty::Null) => true,
        (Ty::Void, Ty::Void) => true,
        _ => false,
    }
}

fn dim(number: u8, any: bool) -> usize
    ensures { result ≡ (if any then 1 else number) }
{
    if any { 1 } else { usize::from(number) }
}

impl<'p> TyRef<'p> {
    /// The view of a type; if `any_dim` holds, each number of dimensions counts as 1.
    pub fn of(ty: &'p Ty, any_dim: bool) -> TyRef<'p>
        ensures { ty_view result ≡ erase_dims_if any_dim (value_type_of ty.now) }
    {
        match ty {
            Ty::Int => TyRef::Int,
            Ty::Long => TyRef::Long,
            Ty::Bool => TyRef::Bool,
            Ty::Pt(n) => TyRef::Pt(dim(*n, any_dim)),
            Ty::Rc(n) => TyRef::Rc(dim(*n, any_dim)),
            Ty::Dm(n) => TyRef::Dm(dim(*n, any_dim)),
            Ty::Region => TyRef::Region,
            Ty::Class { class, local } => TyRef::Class {
                class: *class,
                local: *local,
            },
            Ty::Grid {
                elem,
                dim: n,
                local,
            } => TyRef::Grid {
                elem,
                any_dim,
                dim: dim(*n, any_dim),
                local: *local,
            },
            Ty::Null => TyRef::Null,
            Ty::Void => TyRef::Void,
        }
    }

    /// Whether two types are equal.
    pub fn same(self, other: TyRef<'p>) -> bool
        ensures { result ≡ same_type (ty_view self.entry) (ty_view other.entry) }
    {
        match (self, other) {
            (TyRef::Int, TyRef::Int) => true,
            (TyRef::Long, TyRef::Long) => true,
            (TyRef::Bool, TyRef::Bool) => true,
            (TyRef::Pt(n), TyRef::Pt(m)) => n == m,
            (TyRef::Rc(n), TyRef::Rc(m)) => n == m,
            (TyRef::Dm(n), TyRef::Dm(m)) => n == m,
            (TyRef::Region, TyRef::Region) => true,
            (TyRef::Class { class: c, local: a }, TyRef::Class { class: d, local: b }) => c == d
                && a == b,
            (
                TyRef::Grid {
                    elem: t,
                    any_dim: t_any,
                    dim: n,
                    local: a,
                },
                TyRef::Grid {
                    elem: u,
                    any_dim: u_any,
                    dim: m,
                    local: b,
                },
            ) => same_elements(t, t_any, u, u_any) && n == m && a == b,
            (TyRef::Null, TyRef::Null) => true,
            (TyRef::Void, TyRef::Void) => true,
            _ => false,
        }
    }

    /// Whether this is `int` or `long`.
    pub fn is_whole(self) -> bool
        ensures { result ≡ is_whole (ty_view self.entry) }
    {
        matches!(self, TyRef::Int | TyRef::Long)
    }

    /// Whether this is the type of `null`.
    pub fn is_null(self) -> bool
        ensures { result ≡ is_null (ty_view self.entry) }
    {
        matches!(self, TyRef::Null)
    }

    /// Whether this is the type of a call without a result.
    pub fn is_void(self) -> bool
        ensures { result ≡ is_void (ty_view self.entry) }
    {
        matches!(self, TyRef::Void)
    }

    /// Whether this is a class or a grid.
    pub fn is_reference(self) -> bool
        ensures { result ≡ is_reference (ty_view self.entry) }
    {
        match self {
            TyRef::Class { class: _, local: _ } => true,
            TyRef::Grid {
                elem: _,
                any_dim: _,
                dim: _,
                local: _,
            } => true,
            _ => false,
        }
    }

    /// Whether this is an object of a class.
    pub fn is_object(self) -> bool
        ensures { result ≡ is_object (ty_view self.entry) }
    {
        match self {
            TyRef::Class { .. } => true,
            _ => false,
        }
    }

    /// Whether this is a local reference.
    pub fn is_local(self) -> bool
        ensures { result ≡ is_local (ty_view self.entry) }
    {
        match self {
            TyRef::Class { local, .. } => local,
            TyRef::Grid { local, .. } => local,
            _ => false,
        }
    }

    /// The type of a field or an element of this type, read through a reference: through a global one, it is global.
    pub fn read_through(self, local: bool) -> TyRef<'p>
        ensures { ty_view result ≡ read_through local (ty_view self.entry) }
    {
        if local { self } else { self.with_local(false) }
    }

    /// The type with the reference itself made local or global; a type that is no reference is unchanged.
    pub fn with_local(self, local: bool) -> TyRef<'p>
        ensures { ty_view result ≡ (if local then as_local (ty_view self.entry) else as_global (ty_view self.entry)) }
    {
        match self {
            TyRef::Class { class, local: _ } => TyRef::Class { class, local },
            TyRef::Grid {
                elem,
                any_dim,
                dim,
                local: _,
            } => TyRef::Grid {
                elem,
                any_dim,
                dim,
                local,
            },
            other => other,
        }
    }

    /// The type with each number of dimensions counted as 1.
    #[tactic(auto, using(crate::proofs::Erased::erased_again))]
    pub fn erase_dims(self) -> TyRef<'p>
        ensures { ty_view result ≡ erase_dims (ty_view self.entry) }
    {
        match self {
            TyRef::Pt(_) => TyRef::Pt(1),
            TyRef::Rc(_) => TyRef::Rc(1),
            TyRef::Dm(_) => TyRef::Dm(1),
            TyRef::Grid {
                elem,
                any_dim: _,
                dim: _,
                local,
            } => TyRef::Grid {
                elem,
                any_dim: true,
                dim: 1,
                local,
            },
            other => other,
        }
    }

    /// The dimension of a domain; None for other types.
    pub fn domain_dim(self) -> Option<usize>
        ensures { result ≡ domain_dim (ty_view self.entry) }
    {
        match self {
            TyRef::Rc(n) | TyRef::Dm(n) => Some(n),
            _ => None,
        }
    }
}
