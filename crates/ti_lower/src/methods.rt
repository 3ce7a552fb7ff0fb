// The code of methods and programs. A method's body is generated in two passes if it has forward jumps.

ghost use Rattle.std.specs.Prelude.{◌≡◌, ◌≤◌, OnOk, IfOk, [], None, map, length};
ghost use Rattle.std.specs.Option.{option_map};
ghost use Rattle.ti_lang.specs.Program.Scope.{this_of as this_spec};
ghost use Rattle.ti_lang.specs.Program.Statements.{numbered_stms};
ghost use Rattle.ti_lang.specs.Program.Views.{program_of, numbered_method_of, numbered_params_of, numbered_param_of};
ghost use Rattle.ti_lang.specs.Meaning.Calls.{parameters_of, parameters_from};
ghost use Rattle.ti_lang.specs.Typing.Declared.{result_type};
ghost use Rattle.ti_lang.specs.Typing.TyRef.{ty_view};
ghost use Rattle.ti_code.specs.Follows.{Follows};
ghost use Rattle.ti_lower_expr.specs.Contents.{names_in};
ghost use Rattle.ti_lower_expr.specs.Methods as frame;
ghost use Rattle.ti_lower.specs.Programs as laid;
ghost use Rattle.ti_lower.specs.Mirrors.Bodies.{builder_of};
ghost use Rattle.ti_lower.specs.Mirrors.Methods.{body_on};

use crate::body::{CodeBuilder, MethodEmitContext};
use crate::walker::statements;
use std::alloc::Global;
use ti_base::{Memory, Place};
use ti_code::{Code, Instr, Instrs, MethodCode};
use ti_lang::program::{Method, Param, Params, ProgramData, ResultType, has_static};
use ti_lang::typing::TyRef;
use ti_lower_expr::{SlotName, Slots, to_u32};
use ti_rules::Checked;

// ---- frames

// The class of `this`, if the method has one.
fn this_of(method: &Method) -> Option<u32>
    ensures { result ≡ this_spec (numbered_method_of method.now) }
{
    if has_static(&method.modifiers) {
        None
    } else {
        Some(method.class)
    }
}

// The type of a method's result.
fn result_of(method: &Method) -> TyRef
    ensures { ty_view result ≡ result_type (numbered_method_of method.now) }
{
    match &method.result {
        ResultType::Void => TyRef::Void,
        ResultType::Typed(t) => TyRef::of(&t.ty, false),
    }
}

// Adds the slots of parameters.
fn push_params<'p>(params: &'p [Param], slots: &mut Slots<'p>) -> Result<(), Memory>
    ensures { OnOk result (names_in slots.new ≡ frame.push_param_names (parameters_from 0 (map numbered_param_of params.now))
        (names_in slots.old)) }
{
    for (i, param) in params.iter().enumerate() {
        let number = to_u32(i)?;
        slots.push(SlotName::Of {
            number,
            single: param.ty.single,
            ty: &param.ty.ty,
        })?;
    }
    Ok(())
}

// The slot of `this`, if there is one.
fn this_slots<'p>(alloc: Global, this: Option<u32>) -> Result<Slots<'p>, Memory>
    ensures { IfOk result (λ slots. names_in slots ≡ frame.this_names this) }
{
    let mut slots = Slots::new(alloc);
    match this {
        Some(_) => slots.push(SlotName::This)?,
        None => {}
    }
    Ok(slots)
}

// The slots of a frame when it begins.
fn first_slots<'p>(alloc: Global, method: &'p Method) -> Result<Slots<'p>, Memory>
    ensures { IfOk result (λ slots. names_in slots ≡ frame.names_in_method (numbered_method_of method.now)) }
{
    let mut slots = this_slots(alloc, this_of(method))?;
    match &method.params {
        Params::MainArgs => {}
        Params::Typed(params) => push_params(params, &mut slots)?,
    }
    Ok(slots)
}

// ---- methods

// One pass over a method's body, given the targets of its forward jumps as far as they are known.
fn write<'p>(
    alloc: Global,
    program: &'p ProgramData,
    method: &'p Method,
    label_targets: &'p [u32],
) -> Result<CodeBuilder<'p>, Memory>
    ensures { IfOk result (λ builder. builder_of builder ≡ body_on (program_of program.now) (numbered_method_of method.now) label_targets.now) }
{
    let mut builder = CodeBuilder {
        slots: first_slots(alloc, method)?,
        code: Vec::new(alloc),
        targets: Vec::new(alloc),
    };
    let body = MethodEmitContext {
        program,
        this: this_of(method),
        result: result_of(method),
        label_targets,
    };
    statements(&body, &method.body, None, &mut builder)?;
    Ok(builder)
}

// Two passes: the first finds the targets of forward jumps (the length of code doesn't depend on them), the second emits with them. A
// method without forward jumps needs only one.
fn write_known(alloc: Global, program: &ProgramData, method: &Method) -> Result<Vec<Instr>, Memory>
    ensures { IfOk result (λ code. code.items ≡ (body_on (program_of program.now) (numbered_method_of method.now)
        (body_on (program_of program.now) (numbered_method_of method.now) []).targets).code) }
{
    let first = write(alloc, program, method, &[])?;
    if first.targets.is_empty() {
        return Ok(first.code);
    }
    let targets = first.targets;
    drop(first.code);
    Ok(write(alloc, program, method, &targets)?.code)
}

// The instructions of a method, with a return at the end.
fn write_all(alloc: Global, program: &ProgramData, method: &Method) -> Result<Vec<Instr>, Memory>
    ensures { IfOk result (λ code. code.items ≡ laid.body_code (program_of program.now) (numbered_method_of method.now)) }
{
    let mut code = write_known(alloc, program, method)?;
    code.push(Instr::Return)?;
    Ok(code)
}

// An instruction of `main`, in which a return ends the run.
fn main_instr(instr: Instr, end: Place) -> Instr
    ensures { result ≡ laid.in_main end instr }
{
    match instr {
        Instr::Return => Instr::Stop(end),
        _ => instr,
    }
}

// Makes each return the end of the run.
fn end_run(instrs: &mut [Instr], end: Place)
    ensures { instrs.new ≡ map (laid.in_main end) instrs.old }
{
    for i in 0..instrs.len() {
        instrs[i] = main_instr(instrs[i], end);
    }
}

// The instructions of a method; of `main`, if the place of the run's end is given.
fn instrs_of(
    alloc: Global,
    program: &ProgramData,
    method: &Method,
    end: Option<Place>,
) -> Result<Vec<Instr>, Memory>
    ensures { IfOk result (λ v. v.items ≡ laid.instrs_in end (laid.body_code (program_of program.now) (numbered_method_of method.now))) }
{
    let mut code = write_all(alloc, program, method)?;
    if let Some(end) = end {
        end_run(&mut code, end);
    }
    Ok(code)
}

// How many parameters a method has besides `this`.
#[tactic(auto, using(crate::proofs::Hiding::hidden_slots))]
fn params_of(method: &Method) -> Result<u32, Memory>
    ensures { IfOk result (λ n. n ≡ frame.param_count (numbered_method_of method.now)) }
{
    match &method.params {
        Params::MainArgs => Ok(0),
        Params::Typed(params) => to_u32(params.len()),
    }
}

// Whether a method has a `this`.
fn is_instance(this: Option<u32>) -> bool
    ensures { result ≡ frame.is_instance this }
{
    match this {
        Some(_) => true,
        None => false,
    }
}

// The code of a method; of `main`, if the place of the run's end is given.
fn method_code(
    alloc: Global,
    program: &ProgramData,
    method: &Method,
    end: Option<Place>,
) -> Result<MethodCode, Memory>
    ensures { IfOk result (λ code. code ≡ laid.method_code (program_of program.now) end (numbered_method_of method.now)) }
{
    let instrs = instrs_of(alloc, program, method, end)?;
    Ok(MethodCode {
        instance: is_instance(this_of(method)),
        params: params_of(method)?,
        instrs: Instrs::new(instrs),
    })
}

// ---- programs

// The place at which the run ends, if the method is `main`.
fn end_in(is_main: bool, method: &Method) -> Option<Place>
    ensures { result ≡ laid.end_in is_main (numbered_method_of method.now) }
{
    if is_main { Some(method.end) } else { None }
}

// The code of methods, in order.
fn methods_code(
    alloc: Global,
    program: &ProgramData,
    methods: &[Method],
) -> Result<Vec<MethodCode>, Memory>
    ensures { IfOk result (λ v. v.items ≡ laid.methods_code (program_of program.now) 0 (map numbered_method_of methods.now)) }
{
    let mut found = Vec::new(alloc);
    for (n, m) in methods.iter().enumerate() {
        let end = end_in(n == program.main as usize, m);
        found.push(method_code(alloc, program, m, end)?)?;
    }
    Ok(found)
}

/// Compiles a checked program. The code follows the program: for each number of processes, each amount of fuel, each process and all
/// answers that fit, it has next the same action, fault or end as the program, at the same place. The only error is out of memory.
pub fn lower(alloc: Global, checked: &Checked) -> Result<Code, Memory>
    ensures code { IfOk result (λ code. code ≡ laid.program_code (program_of checked.now.program.parts)) }
    ensures follows { IfOk result (λ code. Follows code (program_of checked.now.program.parts)) }
{
    let program = &checked.program().parts;
    let methods = methods_code(alloc, program, &program.methods)?;
    Ok(Code::new(methods, program.main))
}
