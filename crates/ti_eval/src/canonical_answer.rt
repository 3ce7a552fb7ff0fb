// Answers to actions, as evaluations consume them.

ghost use Rattle.std.specs.Prelude.{◌≡◌};
ghost use Rattle.ti_lang.specs.Meaning.Comp.{told as told_spec};
ghost use Rattle.ti_eval.specs.Forms.{IsFormedAnswer};

use crate::interrupt::Interrupt;
use crate::var_value::VarValue;
use std::marker::Model;
use ti_base::{Answer, Value};

/// An answer, in which a point or a rectangular domain is canonical. Contracts see the answer.
#[derive(Clone, Copy)]
pub struct CanonicalAnswer {
    answer: Answer,
}

impl Model for CanonicalAnswer {
    ghost use Rattle.ti_base.specs.declared.entry.Answer.{Answer};

    ghost Value = { Answer };

    ghost use Rattle.ti_eval.specs.Forms.{IsFormedAnswer};

    ghost view = { λ t. t.answer };

    ghost invariant = { λ t. IsFormedAnswer t.answer };

    ghost inverse = { λ a. record { answer = a } };
}

impl CanonicalAnswer {
    /// The answer.
    pub fn of(answer: Answer) -> CanonicalAnswer
        requires { IsFormedAnswer answer }
        ensures { result ≡ answer }
    {
        CanonicalAnswer { answer }
    }
}

/// The result of a computation: a value and the answers that are left, or why it is interrupted.
pub type Evaluated<'a, T> = Result<(T, &'a [CanonicalAnswer]), Interrupt>;

/// The value of an answer; `false` if it has none.
pub fn answer_value(answer: CanonicalAnswer) -> VarValue
    ensures { result ≡ told_spec answer }
{
    match answer.answer {
        Answer::Val(value) => VarValue::plain(value),
        Answer::Done => VarValue::plain(Value::Bool(false)),
    }
}
