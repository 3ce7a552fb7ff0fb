// The environment of the innermost statement, by reference to the process.

ghost use Rattle.std.specs.Prelude.{◌≡◌};
ghost use Rattle.ti_lang.specs.Program.Views.{program_of};
ghost use Rattle.ti_eval.specs.Envs.{env_of};
ghost use Rattle.ti_exec.specs.States.{env_in};

use crate::process::TreeMachine;
use ti_eval::Env;
use ti_lang::program::ProgramData;
use ti_moves::method;

impl TreeMachine {
    /// The environment of the innermost statement.
    pub fn env<'a>(&'a self, program: &'a ProgramData) -> Env<'a>
        ensures { env_of result ≡ env_in (program_of program.now) self.now }
    {
        Env {
            rank: self.rank,
            program,
            method: method(program, self.top.method),
            this: self.top.this,
            variables: &self.top.variables.slots,
            levels: &self.top.levels,
        }
    }
}
