// The bytecode of a program: its methods and their instructions, with the invariant that keeps a process from looping without a tick.

ghost use Rattle.std.specs.Prelude.{◌≡◌, IsTrue};
ghost use Rattle.ti_code.specs.JumpRule.{keep_jump_rule};
ghost use Rattle.ti_code.specs.Forms.{AreFormedMethods};

use crate::instr::Instr;
use std::marker::Model;

/// The instructions of a method. Contracts see them as a list.
#[derive(Drop)]
pub struct Instrs {
    items: Vec<Instr>,
}

impl Model for Instrs {
    ghost use Rattle.std.specs.Prelude.{List};
    ghost use Rattle.ti_code.specs.declared.instr.Instr.{Instr};

    ghost Value = { List Instr };

    ghost view = { λ code. code.items.items };
}

impl Instrs {
    /// Wraps these instructions. It doesn't allocate.
    pub fn new(items: Vec<Instr>) -> Self
        ensures { result ≡ items.items }
    {
        Instrs { items }
    }

    /// The instructions as a slice.
    pub fn as_slice(&self) -> &[Instr]
        ensures { result.now ≡ self.now }
    {
        &self.items
    }
}

/// The code of a method: whether it has a `this`, how many parameters it has besides, and its instructions. Instructions are numbered from
/// 0; these numbers are the targets of jumps.
#[derive(Drop)]
pub struct MethodCode {
    pub instance: bool,
    pub params: u32,
    pub instrs: Instrs,
}

/// The code of a program. Its invariant is the rule on jumps: from the target of a backward jump (or Next) up to the next instruction that
/// costs a tick, no instruction is a jump or a Next. So a process can't loop for ever without a tick. The values in its instructions are
/// canonical, too. Contracts see a list of methods and the number of the method in which a run begins.
#[derive(Drop)]
pub struct Code {
    methods: Vec<MethodCode>,
    main: u32,
}

impl Model for Code {
    ghost use Rattle.std.specs.Prelude.{IsTrue};
    ghost use Rattle.ti_code.specs.Programs.{Code as Methods};
    ghost use Rattle.ti_code.specs.JumpRule.{keep_jump_rule};
    ghost use Rattle.ti_code.specs.Forms.{AreFormedMethods};

    ghost Value = { Methods };

    ghost view = { λ code. record { methods = code.methods.items; main = code.main } };

    ghost invariant = { λ code. IsTrue (keep_jump_rule code.methods.items) × AreFormedMethods code.methods.items };
}

impl Code {
    /// The code of these methods; a run begins in the method with the number `main`. It doesn't allocate.
    pub fn new(methods: Vec<MethodCode>, main: u32) -> Self
        requires rule { IsTrue (keep_jump_rule methods.items) }
        requires formed { AreFormedMethods methods.items }
        ensures { result ≡ record { methods = methods.items; main = main } }
    {
        Code { methods, main }
    }

    /// The methods as a slice.
    pub fn methods(&self) -> &[MethodCode]
        ensures methods { result.now ≡ self.now.methods }
        ensures rule { IsTrue (keep_jump_rule result.now) }
        ensures formed { AreFormedMethods result.now }
    {
        &self.methods
    }

    /// The number of the method in which a run begins.
    pub fn main(&self) -> u32
        ensures { result ≡ self.now.main }
    {
        self.main
    }
}
