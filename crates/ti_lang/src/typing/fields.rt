// Lookup of a selected field, and the initial values of fields and elements.

ghost use Rattle.std.specs.Prelude.{◌≡◌};
ghost use Rattle.std.specs.Option.{option_and_then};
ghost use Rattle.ti_lang.specs.Program.Views.{program_of, value_type_of};
ghost use Rattle.ti_lang.specs.Typing.Kinds.{class_of_type};
ghost use Rattle.ti_lang.specs.Typing.TyRef.{ty_view};
ghost use Rattle.ti_lang.specs.Typing.Declared.{field_numbered as field_numbered_spec};
ghost use Rattle.ti_lang.specs.Meaning.Zeros.{zero_of_type};

use super::ty_ref::TyRef;
use crate::program::{ProgramData, Ty};
use ti_base::Zero;

/// The number, within its class, of the field that `x.f` selects if `x` has type `ty`, by the number of the name; None if there is none.
pub fn field_number(program: &ProgramData, ty: TyRef, name: u32) -> Option<usize>
    ensures { result ≡ option_and_then (field_numbered_spec (program_of program.now) name) (class_of_type (ty_view ty.entry)) }
{
    match ty {
        TyRef::Class { class, local: _ } => program.first_field(class, name),
        _ => None,
    }
}

/// The initial value of a field or an element of the type.
pub fn zero_of_type(ty: &Ty) -> Zero
    ensures { result ≡ zero_of_type (value_type_of ty.now) }
{
    match ty {
        Ty::Int => Zero::Int,
        Ty::Long => Zero::Long,
        Ty::Bool => Zero::Bool,
        Ty::Pt(dim) => Zero::Pt(*dim),
        Ty::Rc(dim) => Zero::Rc(*dim),
        Ty::Grid {
            elem: _,
            dim: _,
            local: _,
        } => Zero::Grid,
        _ => Zero::Obj,
    }
}
