// Resolves the name of a field.

ghost use Rattle.std.specs.Prelude.{◌≡◌, ◌^◌, ◌≤◌, IfOk, IfErr};
ghost use Rattle.std.specs.Option.{option_and_then, unwrap_or};
ghost use Rattle.ti_lang.specs.Program.Views.{program_of};
ghost use Rattle.ti_lang.specs.Typing.Kinds.{class_of_type};
ghost use Rattle.ti_lang.specs.Typing.TyRef.{ty_view};
ghost use Rattle.ti_lang.specs.Typing.Declared.{field_numbered as field_numbered_spec};

use crate::emission::to_u32;
use ti_base::Memory;
use ti_lang::program::ProgramData;
use ti_lang::typing::{TyRef, field_number};

/// The number of the field that a name denotes in an object of the type; 0 if there is no such field. Out of memory iff the number doesn't
/// fit into 32 bits.
pub fn resolve_field(program: &ProgramData, ty: TyRef, name: u32) -> Result<u32, Memory>
    ensures value { IfOk result (λ n. n ≡ unwrap_or (option_and_then (field_numbered_spec (program_of program.now) name)
        (class_of_type (ty_view ty.entry))) 0) }
    ensures large { IfErr result (λ _. 2 ^ 32 ≤ unwrap_or (option_and_then (field_numbered_spec (program_of program.now) name)
        (class_of_type (ty_view ty.entry))) 0) }
{
    match field_number(program, ty, name) {
        Some(n) => to_u32(n),
        None => Ok(0),
    }
}
