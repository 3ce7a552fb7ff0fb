// The execution of prints.

ghost use Rattle.std.specs.Prelude.{Some};
ghost use Rattle.ti_lang.specs.Program.Views.{printed_of};
ghost use Rattle.ti_lang.specs.Meaning.Held.{Held as Seen, plain_of};
ghost use Rattle.ti_lang.specs.Meaning.Comp.{CompResult, bind_result};
ghost use Rattle.ti_lang.specs.Meaning.Scoping.{Env as Where};
ghost use Rattle.ti_lang.specs.Program.Statements.{NumberedStm};
ghost use Rattle.ti_lang.specs.Meaning.Statements as statements;
ghost use Rattle.ti_eval.specs.Comes.{Comes, ComesAs};
ghost use Rattle.ti_eval.specs.Envs.{env_of};
ghost use Rattle.ti_moves.specs.Outcomes.{move_after};

use crate::outcomes::StmtOutcome;
use crate::statements::continue_with;
use std::alloc::Global;
use ti_base::{Action, Place, Value};
use ti_eval::{CanonicalAnswer, Env, Interrupt, Resume, VarValue, evaluate, request};
use ti_lang::program::Printed;

// Prints a line, which completes the statement.
#[tactic(auto, using(ti_eval::proofs::Lemmas::steps))]
fn print_line<'a, 'c>(
    place: Place,
    literal: Option<u32>,
    value: Option<Value>,
    answers: &'a [CanonicalAnswer],
) -> Result<(StmtOutcome<'c>, &'a [CanonicalAnswer]), Interrupt>
    ensures { (env : Where) (x : NumberedStm) → ComesAs (move_after env x) result (statements.prints env place literal value answers.now) }
{
    let (_, answers) = request(place, Action::Print { literal, value }, answers)?;
    Ok((continue_with(Resume::Inside), answers))
}

/// A print: its value is evaluated, then the line is printed.
#[tactic(auto, using(ti_eval::proofs::Lemmas::steps))]
pub fn print_outcome<'a, 'c>(
    alloc: Global,
    env: &Env,
    place: Place,
    what: &Printed,
    answers: &'a [CanonicalAnswer],
) -> Result<(StmtOutcome<'c>, &'a [CanonicalAnswer]), Interrupt>
    ensures { (x : NumberedStm) → ComesAs (move_after (env_of env.now) x) result
        (statements.printed (env_of env.now) place (printed_of what.now) answers.now) }
{
    match what {
        Printed::Nothing => print_line(place, None, None, answers),
        Printed::Text(literal) => print_line(place, Some(*literal), None, answers),
        Printed::Value(x) => {
            let (h, answers) = evaluate(alloc, env, x, answers)?;
            print_line(place, None, Some(h.value()), answers)
        }
        Printed::TextAndValue(literal, x) => {
            let (h, answers) = evaluate(alloc, env, x, answers)?;
            print_line(place, Some(*literal), Some(h.value()), answers)
        }
    }
}
