// Removes `single` from a program, except at `main`.
ghost use Rattle.std.specs.Prelude.{◌≡◌};
ghost use Rattle.ti_lang.specs.Program.Views.{program_of};
ghost use Rattle.ti_infer.specs.Stripped.{stripped};

use crate::strip::classes::strip_classes;
use crate::strip::methods::strip_methods;
use ti_lang::program::{Program, ProgramData};

fn strip_parts(parts: &mut ProgramData)
    ensures { program_of parts.new ≡ stripped (program_of parts.old) }
{
    strip_classes(&mut parts.classes);
    strip_methods(parts.main, &mut parts.methods);
}

/// Removes the keyword `single` from a program, except at `main` and in casts; no other declaration is single afterwards. Works in place
/// and doesn't allocate.
pub fn stripped(program: Program) -> Program
    ensures { program_of result.parts ≡ stripped (program_of program.parts) }
{
    let mut parts = program.parts;
    strip_parts(&mut parts);
    Program::of(parts)
}
