// The program with the annotations of a marking.
ghost use Rattle.std.specs.Prelude.{◌≡◌, false, IfOk};
ghost use Rattle.ti_lang.specs.Program.Views.{program_of};
ghost use Rattle.ti_blame.specs.Marks.{marks_of};
ghost use Rattle.ti_infer.specs.Marked.{marked, marks_main};
ghost use Rattle.ti_infer.specs.Stripped.{stripped};

use crate::annotate::methods::mark_methods;
use crate::inference::Marking;
use std::alloc::Global;
use ti_base::Memory;
use ti_lang::program::{Program, ProgramData};

// The parts of the program with the annotations of the marking added to its methods.
fn marked_parts(alloc: Global, parts: ProgramData, marking: &Marking) -> Result<ProgramData, Memory>
    ensures { IfOk result (λ q. program_of q ≡ marked (marks_of marking.now) (program_of parts)) }
{
    let mut methods = parts.methods;
    mark_methods(alloc, marking.marks(), &mut methods)?;
    let main = parts.main;
    ProgramData::of(
        alloc,
        parts.classes,
        methods,
        main,
        parts.names,
        parts.literals,
    )
}

/// Adds the annotations of a marking to a program: the keyword `single` after the other modifiers or qualifiers of methods, results and
/// declared types, with the place of the name. Each use of a variable is made to agree with its declaration.
///
/// The program must have no keyword `single` except at `main` and in casts, and the marking must not annotate `main`, which has its
/// `single` already. Errors only if it runs out of memory.
pub fn marked(alloc: Global, program: Program, marking: &Marking) -> Result<Program, Memory>
    requires stripped { stripped (program_of program.parts) ≡ program_of program.parts }
    requires main { marks_main (marks_of marking.now) (program_of program.parts) ≡ false }
    ensures { IfOk result (λ q. program_of q.parts ≡ marked (marks_of marking.now) (program_of program.parts)) }
{
    let parts = marked_parts(alloc, program.parts, marking)?;
    Ok(Program::of(parts))
}
