// Prints two hand-written programs in the virtual machine's code, and how many instructions a process has finished at each operation.

ghost use Rattle.std.specs.Prelude.{◌≡◌, All, IsTrue, IfOk, false};
ghost use Rattle.ti_code.specs.JumpRule.{jumps_fit};
ghost use Rattle.ti_code.specs.Forms.{IsFormedInstr};

use crate::telling::tell;
use std::alloc::{AllocError, Global};
use std::io;
use ti_base::{Answer, Next, Place, Value};
use ti_code::{Code, Instr, Instrs, MethodCode, code_text};
use ti_machine::Proc;

/// A source location.
fn at(line: u32, col: u32) -> Place {
    Place { line, col }
}

/// The code of a single static method without parameters.
fn single_method(alloc: Global, instrs: Vec<Instr>) -> Result<Code, AllocError>
    requires rule { IsTrue (jumps_fit (record { instance = false; params = 0; instrs = instrs.items })) }
    requires formed { All IsFormedInstr instrs.items }
{
    let methods = vec![in alloc;
        MethodCode {
            instance: false,
            params: 0,
            instrs: Instrs::new(instrs)
        },
    ]?;
    Ok(Code::new(methods, 0))
}

/// Code that prints 3 once.
fn print_once(alloc: Global) -> Result<Code, AllocError> {
    let instrs = vec![in alloc;
        Instr::Const(Value::Int(3)),
        Instr::Print(None, true, at(1, 62)),
        Instr::Stop(at(1, 74)),
    ]?;
    single_method(alloc, instrs)
}

/// Code that prints the number of its process in a loop until it runs out of ticks.
fn print_forever(alloc: Global) -> Result<Code, AllocError> {
    let instrs = vec![in alloc;
        Instr::Tick(at(1, 1)),
        Instr::ThisProc,
        Instr::Print(None, true, at(1, 5)),
        Instr::Const(Value::Bool(true)),
        Instr::JumpIf(0),
        Instr::Stop(at(1, 9)),
    ]?;
    single_method(alloc, instrs)
}

/// Executes a process up to its next operation, end or fault, and prints how many instructions it has finished and what is next.
/// Completes an operation, and returns whether there was one.
fn tell_next(rt: &HostRuntime, code: &Code, process: &mut Proc) -> io::Result<bool>
    requires code { code.now ≡ process.old.code }
    ensures { IfOk result (λ _. code.now ≡ process.new.code) }
{
    let Ok(next) = process.advance_bounded(rt.alloc(), code, 100) else {
        return Ok(false);
    };
    let finished = process.finished();
    println!(rt; "finished {finished}")?;
    tell(rt, "next", 0, next)?;
    if let Some(Next::Act(_, _)) = next {
        process.answer(Answer::Done);
        return Ok(true);
    }
    Ok(false)
}

/// Prints up to 9 steps of the only process of a run with 4 ticks.
fn tell_course(rt: &HostRuntime, code: &Code) -> io::Result<()> {
    let Some(mut process) = Proc::try_start(rt.alloc(), code, 0, 1, 4) else {
        return Ok(());
    };
    for _ in 0..9 {
        if !tell_next(rt, code, &mut process)? {
            return Ok(());
        }
    }
    Ok(())
}

/// Prints the code as text.
fn tell_text(rt: &HostRuntime, code: &Code) -> io::Result<()> {
    match code_text(rt.alloc(), code) {
        Ok(text) => {
            let text = String::from_utf8_lossy(rt.alloc(), &text)?;
            print!(rt; "{text}")
        }
        Err(_) => println!(rt; "the text wants memory"),
    }
}

/// Prints the code as text, and the steps of a process.
fn tell_code(rt: &HostRuntime, code: &Code) -> io::Result<()> {
    tell_text(rt, code)?;
    tell_course(rt, code)
}

/// Prints the two hand-written programs and their executions.
pub(crate) fn tell_made(rt: &HostRuntime) -> io::Result<()> {
    let printing = print_once(rt.alloc())?;
    tell_code(rt, &printing)?;
    let turning = print_forever(rt.alloc())?;
    tell_code(rt, &turning)
}
