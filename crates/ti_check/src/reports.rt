// The errors found so far, by group of rules.
ghost use Rattle.std.specs.Prelude.{◌≡◌, false, [], None};
ghost use Rattle.ti_lang.specs.Typing.Effects.{together};
ghost use Rattle.ti_rules.specs.Mirrors.First.{earlier_of as sooner_of};
ghost use Rattle.ti_single.specs.Effects.{effects_of};
ghost use Rattle.ti_check.specs.Mirrors.Refusals.{AreFirstRefusals};
ghost use Rattle.ti_check.specs.Mirrors.StmtReport.{with_effects, single_where, found_where};

use ti_rules::{Refusal, earlier_of};
use ti_single::Effects;

/// The first error of each group of rules.
#[derive(Clone, Copy)]
pub struct Refusals {
    /// The first broken rule of types and qualifiers.
    pub types: Option<Refusal>,
    /// The first broken rule of single values.
    pub single: Option<Refusal>,
}

impl Refusals {
    /// No errors.
    #[tactic(auto, unfolding(ti_rules::specs::Mirrors::First::earliest))]
    pub fn nothing() -> Refusals
        ensures first { AreFirstRefusals [] [] result }
        ensures none { result ≡ record { types = None; single = None } }
    {
        Refusals {
            types: None,
            single: None,
        }
    }

    /// The first errors of both.
    pub fn and(self, other: Refusals) -> Refusals
        ensures types { result.types ≡ sooner_of self.types other.types }
        ensures single { result.single ≡ sooner_of self.single other.single }
    {
        Refusals {
            types: earlier_of(self.types, other.types),
            single: earlier_of(self.single, other.single),
        }
    }
}

/// The errors and the effect summary of a statement. Whether a `break` or `continue` counts as a global effect is known only after the
/// body of the enclosing loop, so the errors of single values are found for both cases.
#[derive(Clone, Copy)]
pub struct StmtReport {
    /// The first broken rule of types and qualifiers.
    pub types: Option<Refusal>,
    /// The first broken rule of single values, if a jump out of the innermost enclosing loop is no global effect.
    pub single: Option<Refusal>,
    /// The first broken rule of single values, if it is one.
    pub jumping: Option<Refusal>,
    /// The effect summary.
    pub doings: Effects,
}

impl StmtReport {
    /// No errors, with this effect summary.
    pub fn with_effects(doings: Effects) -> StmtReport
        ensures { result ≡ with_effects doings }
    {
        StmtReport {
            types: None,
            single: None,
            jumping: None,
            doings,
        }
    }

    /// The errors and effects of two statements.
    pub fn and(self, other: StmtReport) -> StmtReport
        ensures types { result.types ≡ sooner_of self.types other.types }
        ensures single { result.single ≡ sooner_of self.single other.single }
        ensures jumping { result.jumping ≡ sooner_of self.jumping other.jumping }
        ensures doings { effects_of result.doings ≡ together (effects_of self.doings) (effects_of other.doings) }
    {
        StmtReport {
            types: earlier_of(self.types, other.types),
            single: earlier_of(self.single, other.single),
            jumping: earlier_of(self.jumping, other.jumping),
            doings: self.doings.merge(other.doings),
        }
    }

    /// The first broken rule of single values, given whether a jump out of the innermost enclosing loop counts as a global effect.
    pub fn single_where(self, jump_has: bool) -> Option<Refusal>
        ensures { result ≡ single_where self jump_has }
    {
        if jump_has { self.jumping } else { self.single }
    }

    /// The first errors of statements that are in no loop.
    pub fn outside(self) -> Refusals
        ensures { result ≡ found_where self false }
    {
        Refusals {
            types: self.types,
            single: self.single,
        }
    }
}
