// The listing of code, as `--mode code` prints it.

ghost use Rattle.std.specs.Prelude.{◌≡◌, ◌++◌, IfOk, OnOk};
ghost use Rattle.ti_code.specs.CodeText as text;

use crate::code::{Code, MethodCode};
use crate::instr::Instr;
use crate::operands::add_operands;
use crate::words::instr_word;
use std::alloc::Global;
use ti_base::Memory;
use ti_watch::Line;

// The line of an instruction: its number, its name and its operands.
fn instr_line(number: usize, instr: &Instr) -> Line
    ensures { result ≡ text.instr_line number instr.now }
{
    let mut line = Line::new();
    line.labelled_number(b"  ", number);
    line.text(b" ");
    line.text(instr_word(instr));
    add_operands(&mut line, instr);
    line.text(b"\n");
    line
}

// Appends the lines of instructions, numbered from 0.
fn add_instrs(instrs: &[Instr], out: &mut Vec<u8>) -> Result<(), Memory>
    ensures { OnOk result (out.new.items ≡ out.old.items ++ text.instr_lines 0 instrs.now) }
{
    for (n, instr) in instrs.iter().enumerate() {
        out.extend_from_slice(instr_line(n, instr).as_slice())?;
    }
    Ok(())
}

// The first line of a method: its number and how many parameters it has besides `this`.
fn method_head(number: usize, params: u32) -> Line
    ensures { result ≡ text.method_head number params }
{
    let mut line = Line::new();
    line.labelled_number(b"method ", number);
    line.labelled_number(b" params ", params);
    line.text(b"\n");
    line
}

// Appends the lines of methods, numbered from 0.
fn add_methods(methods: &[MethodCode], out: &mut Vec<u8>) -> Result<(), Memory>
    ensures { OnOk result (out.new.items ≡ out.old.items ++ text.method_lines 0 methods.now) }
{
    for (k, m) in methods.iter().enumerate() {
        out.extend_from_slice(method_head(k, m.params).as_slice())?;
        add_instrs(m.instrs.as_slice(), out)?;
    }
    Ok(())
}

/// The listing of code: for each method its number, how many parameters it has besides `this`, and its instructions. The only error is out
/// of memory.
pub fn code_text(alloc: Global, code: &Code) -> Result<Vec<u8>, Memory>
    ensures { IfOk result (λ v. v.items ≡ text.code_text code.now) }
{
    let mut out = Vec::new(alloc);
    add_methods(code.methods(), &mut out)?;
    Ok(out)
}
