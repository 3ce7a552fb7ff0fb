// The state of the generator for one method: two passes over its body, of which the second knows the targets of all forward jumps.

ghost use Rattle.std.specs.Prelude.{◌≡◌, ◌+◌, ◌^◌, ◌≤◌, OnOk, IfOk, IfErr};
ghost use Rattle.ti_lang.specs.Program.Views.{program_of};
ghost use Rattle.ti_lower_expr.specs.Contents.{names_in};
ghost use Rattle.ti_lower.specs.Mirrors.Bodies.{builder_of, target_in};
ghost use Rattle.ti_lower.specs.Mirrors.Positions.{where_of};
ghost use Rattle.ti_lower.specs.Mirrors.Statements as on;

use crate::emit_context::EmitContext;
use ti_base::Memory;
use ti_code::Instr;
use ti_lang::program::ProgramData;
use ti_lang::typing::TyRef;
use ti_lower_expr::{LoweringContext, Slots, emit, u32_sum};

/// The context of a method's body: the program, the class of `this`, if there is one, the type of its result, and the targets of its
/// forward jumps as far as the first pass has found them (none in that pass).
#[derive(Clone, Copy)]
pub struct MethodEmitContext<'a> {
    pub program: &'a ProgramData,
    pub this: Option<u32>,
    pub result: TyRef<'a>,
    pub label_targets: &'a [u32],
}

/// The jump targets of the innermost loop, and what a jump leaves on the frame.
#[derive(Clone, Copy)]
pub struct LoopTargets {
    /// The target of continue.
    pub continue_to: u32,
    /// How many slots continue keeps.
    pub continue_slots: u32,
    /// The target of break.
    pub break_to: u32,
    /// How many slots break keeps.
    pub break_slots: u32,
    /// The loop is a foreach: its domain is on the operand stack and is popped at break.
    pub over_points: bool,
}

/// The code of a method as far as it is generated: its slots, its instructions, and the targets of the forward jumps of its statements in
/// source order. A target is 0 until it is reached.
#[derive(Drop)]
pub struct CodeBuilder<'p> {
    pub slots: Slots<'p>,
    pub code: Vec<Instr>,
    pub targets: Vec<u32>,
}

/// The context in which the next instruction is generated.
pub fn context_of<'s, 'p>(
    method: &MethodEmitContext<'p>,
    slots: &'s Slots<'p>,
) -> EmitContext<'s, 'p>
    ensures { where_of result ≡ record { program = program_of method.now.program.now; this = method.now.this; names = names_in slots.now } }
{
    EmitContext {
        site: LoweringContext {
            program: method.program,
            this: method.this,
            slots,
        },
        temporaries: 0,
    }
}

impl<'p> CodeBuilder<'p> {
    /// Reserves an entry for a target that isn't reached yet.
    pub fn new_label(&mut self) -> Result<(), Memory>
        ensures { OnOk result (builder_of self.new ≡ on.with_label (builder_of self.old)) }
    {
        self.targets.push(0)?;
        Ok(())
    }

    /// Sets target `label` to the position of the next instruction.
    pub fn bind_label(&mut self, label: usize) -> Result<(), Memory>
        ensures { OnOk result (builder_of self.new ≡ on.bind_label label (builder_of self.old)) }
    {
        let here = u32_sum(self.code.len(), 0)?;
        if label < self.targets.len() {
            self.targets[label] = here;
        }
        Ok(())
    }

    /// Keeps the `count` oldest slots.
    pub fn cut(&mut self, count: usize)
        ensures { builder_of self.new ≡ on.cut count (builder_of self.old) }
    {
        self.slots.cut(count);
    }

    /// Keeps the `count` oldest slots, and emits the instruction for it.
    pub fn trim(&mut self, count: usize) -> Result<(), Memory>
        ensures { OnOk result (builder_of self.new ≡ on.trim_slots count (builder_of self.old)) }
    {
        self.slots.cut(count);
        emit(Instr::Trim(u32_sum(count, 0)?), &mut self.code)
    }

    /// Ends what a jump jumps over: keeps the `count` oldest slots and sets target `label` to the position of the next instruction.
    pub fn close(&mut self, label: usize, count: usize) -> Result<(), Memory>
        ensures { OnOk result (builder_of self.new ≡ on.close_branch label count (builder_of self.old)) }
    {
        self.cut(count);
        self.bind_label(label)
    }
}

/// Target `label`, or 0 if it isn't known yet.
pub fn target(method: &MethodEmitContext, label: usize) -> u32
    ensures { result ≡ target_in method.now label }
{
    if label < method.label_targets.len() {
        method.label_targets[label]
    } else {
        0
    }
}

/// The sum; out of memory iff it doesn't fit.
pub fn usize_sum(first: usize, more: usize) -> Result<usize, Memory>
    ensures value { IfOk result (λ n. n ≡ first + more) }
    ensures large { IfErr result (λ _. 2 ^ 64 ≤ first + more) }
{
    match first.checked_add(more) {
        Some(n) => Ok(n),
        None => Err(Memory),
    }
}
